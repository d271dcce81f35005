// How an exported call ends: every one of them returns number and length in one u64 and zeroes what it was lent past what it wrote.
// Until then a call is a Result: the length of the plan at the front of the output, or the refusal's number.
#![tactic(auto)]

ghost use Rattle.std.specs.Prelude.{◌≡◌, length};
ghost use Rattle.rules.specs.Compile.{compiled};
ghost use Rattle.endings.specs.Endings.{ending_outcome, answer_of, Within};

use zeroes::zero;

// What the caller is told: the refusal's number × 65,536 + the plan's length.
fn answer(end: Result<usize, u8>) -> u64
    ensures { result ≡ answer_of end }
{
    match end {
        Ok(n) => n as u64,
        Err(refusal) => u64::from(refusal) * 65536,
    }
}

// The last step of an exported call: the work area all zero, and the output past the plan; then the answer.
pub fn finish(end: Result<usize, u8>, output: &mut [u8], work: &mut [u8]) -> u64
    requires { Within end output.old }
    ensures result { let o = ending_outcome end output.old in
        let c = compiled o (length output.old) (length work.old) in
        result ≡ c.result }
    ensures output { let o = ending_outcome end output.old in
        let c = compiled o (length output.old) (length work.old) in
        output.new ≡ c.plan }
    ensures work { let o = ending_outcome end output.old in
        let c = compiled o (length output.old) (length work.old) in
        work.new ≡ c.work }
{
    zero(work, 0);
    zero(output, end.unwrap_or(0));
    answer(end)
}
