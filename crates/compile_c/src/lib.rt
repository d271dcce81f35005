// The compile of a rule file, for callers in C and Rust: crate compile under its C name.
#![tactic(auto)]

ghost use Rattle.std.specs.Prelude.{◌≡◌, ◌<◌, take};
ghost use Rattle.rules.specs.Compile as CompileRules;
ghost use Rattle.rules.specs.Demand1.{refusals, Demand1};
ghost use Rattle.rules.specs.Demand3.{Demand3};

// The plan of a rule file, written to the front of the plan buffer; afterwards the work area is all zero, and so is the rest of the plan
// buffer.
#[unsafe(no_mangle)]
pub extern "C" fn sinalvento_compile(file: &[u8], plan: &mut [u8], work: &mut [u8]) -> u64
    ensures result { let c = CompileRules.compile file.now plan.old work.old in
        result ≡ c.result }
    ensures plan { let c = CompileRules.compile file.now plan.old work.old in
        plan.new ≡ c.plan }
    ensures work { let c = CompileRules.compile file.now plan.old work.old in
        work.new ≡ c.work }
    ensures demand1 { Demand1 refusals result
        plan.old work.old
        plan.new work.new }
    ensures demand3 { result < 65536 →
        Demand3 file.now (take result plan.new) }
{
    compile::sinalvento_compile(file, plan, work)
}
