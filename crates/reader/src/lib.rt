// The reader of a plan: one function for the viewer.
#![tactic(auto)]

ghost use Rattle.std.specs.Prelude.{◌≡◌, ◌<◌, length, take};
ghost use Rattle.std.proofs.lemmas.List.Edits.{sets};
ghost use Rattle.rules.specs.Demand1.{Demand1};
ghost use Rattle.rules.specs.Reader as Reader;
ghost use Rattle.rules.specs.ReadAgain.{ReadAgain};
ghost use Rattle.file.specs.Refusals.{number, numbered};
ghost use Rattle.endings.specs.Endings.{ending_outcome, Within};
ghost use Rattle.reader.specs.Copies.{number_of, bytes_of};

use endings::finish;
use file::Refusal;
use plan_form::plan_end;
use plan_rules::levels_keep;

const PLAN_LIMIT: usize = 16384;

// A plan's own refusal for what stopped the walk: 16 where it ends early, 17 for anything else.
fn of_plan(fault: Refusal) -> Refusal
    ensures { number result ≡ number_of (number fault) }
{
    match fault {
        Refusal::Ends => Refusal::PlanEnds,
        _ => Refusal::PlanByte,
    }
}

// What a plan comes to whose length is no trouble: its form first, then the rules of its levels.
fn judged(plan: &[u8]) -> Result<usize, Refusal>
    ensures outcome { let f = plan.now in
        ending_outcome (numbered result) f ≡ Reader.finished (Reader.read f) }
    ensures within { Within (numbered result) plan.now }
{
    match plan_end(plan) {
        Ok(n) if levels_keep(plan) => Ok(n),
        Ok(_) => Err(Refusal::PlanRule),
        Err(fault) => Err(of_plan(fault)),
    }
}

// Everything except zeroing: the lengths, the plan's bytes, and an accepted plan copied.
fn decide(plan: &[u8], out: &mut [u8]) -> Result<usize, Refusal>
    ensures outcome { let room = length out.old in
        ending_outcome (numbered result) out.new ≡ Reader.outcome plan.now room }
    ensures within { Within (numbered result) out.new }
    ensures copied { let room = length out.old in
        let o = Reader.outcome plan.now room in
        out.new ≡ sets out.old 0 (bytes_of o) }
{
    if plan.len() > PLAN_LIMIT {
        return Err(Refusal::PlanTooLong);
    }
    if plan.len() > out.len() {
        return Err(Refusal::PlanTooLong);
    }
    let n = judged(plan)?;
    out[..n].copy_from_slice(&plan[..n]);
    Ok(n)
}

// A plan written back to the front of the output if it has a plan's form and its levels keep their rules; afterwards the work area is all
// zero, and so is the rest of the output. The work area is not used.
pub fn sinalvento_read(plan: &[u8], out: &mut [u8], work: &mut [u8]) -> u64
    ensures result { let c = Reader.read_back plan.now out.old work.old in
        result ≡ c.result }
    ensures output { let c = Reader.read_back plan.now out.old work.old in
        out.new ≡ c.plan }
    ensures work { let c = Reader.read_back plan.now out.old work.old in
        work.new ≡ c.work }
    ensures demand1 { Demand1 Reader.reader_refusals result
        out.old work.old
        out.new work.new }
    ensures again { result < 65536 →
        ReadAgain plan.now (take result out.new) }
{
    let e = decide(plan, out);
    finish(e.map_err(Refusal::number), out, work)
}
