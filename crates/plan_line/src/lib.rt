// What program `plan` prints for a rule file.
#![tactic(auto)]

ghost use Rattle.std.specs.Prelude.{◌≡◌, ◌*◌, ◌≤◌, length};
ghost use Rattle.std.proofs.lemmas.List.Edits.{sets};
ghost use Rattle.rules.specs.Limits.{plan_limit, work_limit};
ghost use Rattle.rules.specs.Compile.{outcome};
ghost use Rattle.lines.specs.Lines.{line};

use compile::sinalvento_compile;
use lines::put_line;

// The buffers that the compile is lent: every plan fits, and the work area is as long as it has to be.
const PLAN_LIMIT: usize = 16384;

const WORK_LIMIT: usize = 65536;

// Room for the longest line: two digits for each byte of a plan.
pub const LINE_ROOM: usize = 32768;

// Room for the longest rule file and one byte more, which tells a file that is too long.
pub const FILE_ROOM: usize = 32769;

// Writes the line that program `plan` prints for a file, and gives its length.
pub fn answer(file: &[u8], out: &mut [u8]) -> usize
    requires { 2 * plan_limit ≤ length out.old }
    ensures gives { result ≡ length (line (outcome file.now plan_limit work_limit)) }
    ensures leaves { let text = line (outcome file.now plan_limit work_limit) in
        out.new ≡ sets out.old 0 text }
    ensures bounded { result ≤ 2 * plan_limit }
{
    // No heap: on the stack.
    let mut plan = [0u8; PLAN_LIMIT];
    // No heap: on the stack.
    let mut work = [0u8; WORK_LIMIT];
    let a = sinalvento_compile(file, &mut plan, &mut work);
    put_line(a, &plan, out)
}
