// A rule file on standard input; its plan as a line of hex, or `refused` and the number.
#![tactic(auto)]

use input::read_full;
use plan_line::{FILE_ROOM, LINE_ROOM, answer};
use std::io::{self, Write};

fn main(rt: HostRuntime) -> io::Result<()> {
    // No heap: on the stack.
    let mut file = [0u8; FILE_ROOM];
    let n = read_full(&mut rt.reader(), &mut file)?;
    // No heap: on the stack.
    let mut out = [0u8; LINE_ROOM];
    let m = answer(&file[..n], &mut out);
    let mut output = io::writer(&rt);
    output.write_all(&out[..m])?;
    output.write_all(b"\n")
}
