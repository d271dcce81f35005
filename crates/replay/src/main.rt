// The stored list of the oracle's answers, on standard input: how many answers were compared, and how many differ. Without their nodes the
// answers are those of the original Rust functions (docs/ORACLE.md).
#![tactic(auto)]

ghost use Rattle.std.specs.Prelude.{◌≡◌};
ghost use Rattle.replay.specs.Pairs as Pairs;
ghost use Rattle.tally.specs.Tallies.{tallied, split, none};

use input::read_full;
use lines::unhex;
use plan_line::{FILE_ROOM, LINE_ROOM, answer};
use std::io;
use tally::{Tally, find, list_room, same, tally_of};

// The longest file in hex that is compared: two digits for each byte of FILE_ROOM.
const HEX_LIMIT: usize = 65538;

// Whether the line for a pair's file is the pair's line.
fn agrees(pair: &[u8]) -> bool
    ensures { result ≡ Pairs.agrees pair.now }
{
    let e = find(pair, 0, pair.len(), b' ');
    if pair.len() - e < 3 {
        return false;
    }
    if e > HEX_LIMIT {
        return false;
    }
    // No heap: on the stack.
    let mut file = [0u8; FILE_ROOM];
    unhex(&pair[..e], &mut file);
    let n = e / 2;
    // No heap: on the stack.
    let mut out = [0u8; LINE_ROOM];
    let m = answer(&file[..n], &mut out);
    let at = e + 3;
    same(&out[..m], &pair[at..])
}

// The tally of all lines of a text.
fn replay(text: &[u8]) -> Tally
    ensures { result ≡ tallied Pairs.agrees (split text.now) none }
{
    tally_of(text, agrees)
}

fn main(rt: HostRuntime) -> io::Result<()> {
    // No heap: on the stack.
    let mut text = list_room();
    let n = read_full(&mut rt.reader(), &mut text)?;
    println!(rt; "{}", replay(&text[..n]))
}
