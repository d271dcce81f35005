// The reader of a plan, for callers in C and Rust: crate reader under its C name.
#![tactic(auto)]

ghost use Rattle.std.specs.Prelude.{◌≡◌, ◌<◌, take};
ghost use Rattle.rules.specs.Demand1.{Demand1};
ghost use Rattle.rules.specs.Reader as Reader;
ghost use Rattle.rules.specs.ReadAgain.{ReadAgain};

// A plan written back to the front of the output if it has a plan's form and its levels keep their rules; afterwards the work area is all
// zero, and so is the rest of the output. The work area is not used.
#[unsafe(no_mangle)]
pub extern "C" fn sinalvento_read(plan: &[u8], out: &mut [u8], work: &mut [u8]) -> u64
    ensures result { let c = Reader.read_back plan.now out.old work.old in
        result ≡ c.result }
    ensures output { let c = Reader.read_back plan.now out.old work.old in
        out.new ≡ c.plan }
    ensures work { let c = Reader.read_back plan.now out.old work.old in
        work.new ≡ c.work }
    ensures demand1 { Demand1 Reader.reader_refusals result
        out.old work.old
        out.new work.new }
    ensures again { result < 65536 →
        ReadAgain plan.now (take result out.new) }
{
    reader::sinalvento_read(plan, out, work)
}
