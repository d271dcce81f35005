// The stored list of plans, on standard input, each with what the reader of the Rust side says of it: how many were compared, and how many
// differ.
#![tactic(auto)]

ghost use Rattle.std.specs.Prelude.{◌≡◌, ◌*◌, ◌≤◌, length};
ghost use Rattle.std.proofs.lemmas.List.Edits.{sets};
ghost use Rattle.rules.specs.Limits.{plan_limit};
ghost use Rattle.rules.specs.Reader as Reader;
ghost use Rattle.lines.specs.Lines.{line, unhex};
ghost use Rattle.tally.specs.Tallies.{tallied, split, none};
ghost use Rattle.reread.specs.Plans as Plans;

use input::read_full;
use lines::{put_line, unhex};
use reader::sinalvento_read;
use std::io;
use tally::{Tally, find, list_room, same, tally_of};

const PLAN_LIMIT: usize = 16384;

// Room for a plan that is one byte too long.
const PLAN_ROOM: usize = 16385;

// The longest plan in hex that is compared: two digits for each byte of PLAN_ROOM.
const HEX_LIMIT: usize = 32770;

// Room for the longest line: two digits for each byte of a plan.
const LINE_ROOM: usize = 32768;

// What lies in lent memory before a call: no byte of it may be seen afterwards.
const DIRT: u8 = 165;

// Writes the line for a plan, and gives its length. The output is lent as it is.
fn reread(plan: &[u8], out: &mut [u8], text: &mut [u8]) -> usize
    requires { 2 * plan_limit ≤ length text.old }
    ensures gives { let room = length out.old in
        result ≡ length (line (Reader.outcome plan.now room)) }
    ensures leaves { let room = length out.old in
        text.new ≡ sets text.old 0 (line (Reader.outcome plan.now room)) }
    ensures output { let room = length out.old in
        out.new ≡ Plans.output_of plan.now room }
    ensures bounded { result ≤ 2 * plan_limit }
{
    // No heap: on the stack.
    let mut work = [DIRT; 16];
    let a = sinalvento_read(plan, out, &mut work);
    put_line(a, &out[..], text)
}

// Whether a plan in hex, read with so much room, comes to a line.
fn comes_to(hex: &[u8], room: usize, said: &[u8]) -> bool
    requires { length hex.now ≤ Plans.hex_limit }
    ensures { result ≡ Plans.comes_to (unhex hex.now) room said.now }
{
    if room > PLAN_LIMIT {
        return false;
    }
    // No heap: on the stack.
    let mut plan = [0u8; PLAN_ROOM];
    unhex(hex, &mut plan);
    let n = hex.len() / 2;
    // No heap: on the stack.
    let mut out = [DIRT; PLAN_LIMIT];
    // No heap: on the stack.
    let mut text = [0u8; LINE_ROOM];
    let m = reread(&plan[..n], &mut out[..room], &mut text);
    same(&text[..m], said)
}

// The room that four hex digits say.
fn room_of(hex: &[u8]) -> usize
    requires { length hex.now ≡ 4 }
    ensures { result ≡ Plans.room_of (unhex hex.now) }
{
    // No heap: on the stack.
    let mut two = [0u8; 2];
    unhex(hex, &mut two);
    usize::from(u16::from_be_bytes(two))
}

// Whether what a line says of its plan is so.
fn agrees(entry: &[u8]) -> bool
    ensures { result ≡ Plans.agrees entry.now }
{
    let e = find(entry, 0, entry.len(), b' ');
    if entry.len() - e < 6 {
        return false;
    }
    if e > HEX_LIMIT {
        return false;
    }
    let digits = e + 1;
    let end = e + 5;
    let room = room_of(&entry[digits..end]);
    let at = e + 6;
    comes_to(&entry[..e], room, &entry[at..])
}

// The tally of all lines of a text.
fn reread_all(text: &[u8]) -> Tally
    ensures { result ≡ tallied Plans.agrees (split text.now) none }
{
    tally_of(text, agrees)
}

fn main(rt: HostRuntime) -> io::Result<()> {
    // No heap: on the stack.
    let mut text = list_room();
    let n = read_full(&mut rt.reader(), &mut text)?;
    println!(rt; "{}", reread_all(&text[..n]))
}
