// The compile of a rule file: one function for the engine.
#![tactic(auto)]

ghost use Rattle.std.specs.Prelude.{◌≡◌, ℕ, ◌≤◌, ◌<◌, length, take};
ghost use Rattle.rules.specs.Limits.{file_limit, work_limit};
ghost use Rattle.rules.specs.Compile as CompileRules;
ghost use Rattle.rules.specs.Demand1.{refusals, Demand1};
ghost use Rattle.rules.specs.Demand3.{Demand3};
ghost use Rattle.file.specs.Steps.{index_length};
ghost use Rattle.file.specs.Tables.{tables_of};
ghost use Rattle.file.specs.Refusals.{numbered};
ghost use Rattle.accepted_file.specs.Tables.{accepted_tables};
ghost use Rattle.endings.specs.Endings.{ending_outcome, Within};
ghost use Rattle.compile.specs.Memories.{call_verdict, accepted_outcome, memory, accepted_memory, memory_by};
ghost use Rattle.checks.specs.Checked.{file_verdict};

use accepted_file::AcceptedFile;
use checks::verify;
use endings::finish;
use fates::{LONG_INDEX, any_record, remember};
use file::{INDEX, Refusal};
use levels::write;
use literals::levels_meet;
use views::IndexedFile;

const FILE_LIMIT: usize = 32768;

const WORK_LIMIT: usize = 65536;

// What an accepted file comes to: 19 is asked of all levels before any is walked.
fn accepted(file: &AcceptedFile, plan: &mut [u8], work: &mut [u8]) -> Result<usize, Refusal>
    ensures outcome { let T = accepted_tables file.now in
        ending_outcome (numbered result) plan.new ≡ accepted_outcome T work.old plan.old }
    ensures within { Within (numbered result) plan.new }
    ensures memory { let T = accepted_tables file.now in
        let after = memory work.new plan.new in
        after ≡ accepted_memory T work.old plan.old }
{
    if levels_meet(file) {
        return Err(Refusal::Literal);
    }
    let w = write(file, work, plan);
    let lists = w.lists;
    if lists.over {
        Err(Refusal::PlanTooLong)
    } else {
        Ok(w.at)
    }
}

// The same, by an index that remembers what constants come to.
fn remembered(file: &AcceptedFile, plan: &mut [u8], work: &mut [u8]) -> Result<usize, Refusal>
    requires { length file.now.tables.index.now ≡ index_length }
    ensures outcome { let T = accepted_tables file.now in
        ending_outcome (numbered result) plan.new ≡ accepted_outcome T work.old plan.old }
    ensures within { Within (numbered result) plan.new }
    ensures memory { let T = accepted_tables file.now in
        let after = memory work.new plan.new in
        after ≡ accepted_memory T work.old plan.old }
{
    // No heap: on the stack.
    let mut long = [0u16; LONG_INDEX];
    remember(file, &mut long);
    let tables = IndexedFile {
        bytes: file.tables.bytes,
        index: &long,
    };
    accepted(&AcceptedFile { tables }, plan, work)
}

// Where a name stands for a Record it pays to remember what that comes to.
fn walked(file: &AcceptedFile, plan: &mut [u8], work: &mut [u8]) -> Result<usize, Refusal>
    requires { length file.now.tables.index.now ≡ index_length }
    ensures outcome { let T = accepted_tables file.now in
        ending_outcome (numbered result) plan.new ≡ accepted_outcome T work.old plan.old }
    ensures within { Within (numbered result) plan.new }
    ensures memory { let T = accepted_tables file.now in
        let after = memory work.new plan.new in
        after ≡ accepted_memory T work.old plan.old }
{
    if any_record(file) {
        remembered(file, plan, work)
    } else {
        accepted(file, plan, work)
    }
}

// Reading and the whole-file checks first.
fn checked(file: &[u8], plan: &mut [u8], work: &mut [u8]) -> Result<usize, Refusal>
    requires { (length file.now ≤ file_limit) × (work_limit ≤ length work.old) }
    ensures outcome { let room = length plan.old in
        let area = length work.old in
        ending_outcome (numbered result) plan.new ≡ CompileRules.outcome file.now room area }
    ensures within { Within (numbered result) plan.new }
    ensures memory { let T = tables_of file.now in
        let verdict = file_verdict file.now in
        let after = memory work.new plan.new in
        after ≡ memory_by verdict T work.old plan.old }
{
    // No heap: on the stack.
    let mut index = [0u16; INDEX];
    verify(file, &mut index)?;
    let tables = IndexedFile {
        bytes: file,
        index: &index,
    };
    walked(&AcceptedFile { tables }, plan, work)
}

// Everything except zeroing: check buffer sizes, then compile.
fn decide(file: &[u8], plan: &mut [u8], work: &mut [u8]) -> Result<usize, Refusal>
    ensures outcome { let room = length plan.old in
        let area = length work.old in
        ending_outcome (numbered result) plan.new ≡ CompileRules.outcome file.now room area }
    ensures within { Within (numbered result) plan.new }
    ensures memory { let T = tables_of file.now in
        let verdict = call_verdict file.now (length work.old) in
        let after = memory work.new plan.new in
        after ≡ memory_by verdict T work.old plan.old }
{
    if file.len() > FILE_LIMIT {
        return Err(Refusal::FileTooLong);
    }
    if work.len() < WORK_LIMIT {
        return Err(Refusal::WorkTooShort);
    }
    checked(file, plan, work)
}

// The plan of a rule file, written to the front of the plan buffer; afterwards the work area is all zero, and so is the rest of the plan
// buffer.
pub fn sinalvento_compile(file: &[u8], plan: &mut [u8], work: &mut [u8]) -> u64
    ensures result { let c = CompileRules.compile file.now plan.old work.old in
        result ≡ c.result }
    ensures plan { let c = CompileRules.compile file.now plan.old work.old in
        plan.new ≡ c.plan }
    ensures work { let c = CompileRules.compile file.now plan.old work.old in
        work.new ≡ c.work }
    ensures demand1 { Demand1 refusals result
        plan.old work.old
        plan.new work.new }
    ensures demand3 { result < 65536 →
        Demand3 file.now (take result plan.new) }
{
    let e = decide(file, plan, work);
    finish(e.map_err(Refusal::number), plan, work)
}
