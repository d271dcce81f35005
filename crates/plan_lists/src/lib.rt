// The four lists copied from the work area into the plan, each after its count; of one that grew down the record at its top first. What
// lies past the work area's end is left out, so nothing is asked of where a list ends.
#![tactic(auto)]

ghost use Rattle.std.specs.Prelude.{◌≡◌, ◌++◌, ◌+◌, ◌*◌, ◌-◌, ◌≤◌, min, length};
ghost use Rattle.std.proofs.Math.Seq.{slice};
ghost use Rattle.rules.specs.Plan as Plan;
ghost use Rattle.state.specs.State.{backwards};
ghost use Rattle.state.specs.Levels.{constrained_count, diagnostic_count};
ghost use Rattle.lists.specs.Lists.{ends_of};
ghost use Rattle.records.specs.Records.{reach};
ghost use Rattle.encode.specs.Written.{Wrote};
ghost use Rattle.plan_lists.specs.PlanLists.{lists_in};

use lists::Ends;
use records::{put8, put16};

// Where the lists begin: bindings at 0 and selects where the first run ends, constrained names and diagnostics down from their run's end.
const CONSTRAINED: usize = 16384;

const SELECTS: usize = 16384;

const DIAGNOSTICS: usize = 32768;

// How many constrained names and how many diagnostics there are.
fn names(e: Ends) -> usize
    ensures { (result ≡ constrained_count (ends_of e)) × (2 * result ≤ 16384) }
{
    CONSTRAINED.saturating_sub(e.constrained as usize) / 2
}

fn reports(e: Ends) -> usize
    ensures { (result ≡ diagnostic_count (ends_of e)) × (3 * result ≤ 32768) }
{
    DIAGNOSTICS.saturating_sub(e.diagnostics as usize) / 3
}

// How many bytes a list has.
fn run_len(work: &[u8], from: usize, to: usize) -> usize
    ensures { (result ≡ length (slice from to work.now)) × (result ≤ to) }
{
    to.min(work.len()).saturating_sub(from)
}

// Copies a run, and gives where its copy ends. No library call does it: of a run that passes the plan's end the bytes outside are left out,
// and the place moves on over them, while `copy_from_slice` asks that the whole run has room.
pub fn copy_run(work: &[u8], from: usize, to: usize, plan: &mut [u8], at: usize) -> usize
    requires { at ≤ reach }
    ensures { Wrote (slice from to work.now) at plan.old result plan.new }
{
    let mut p = at;
    for i in from..to.min(work.len()) {
        put8(plan, p, work[i]);
        p += 1;
    }
    p
}

// The first n records of a list that grew down from top, each of `width` bytes.
fn copy_down(work: &[u8], width: usize, n: usize, top: usize, plan: &mut [u8], at: usize) -> usize
    requires { at + top ≤ 1099511627776 }
    ensures { Wrote (backwards width n top work.now) at plan.old result plan.new }
{
    let mut p = at;
    let mut end = top;
    for _ in 0..n {
        let from = end.saturating_sub(width);
        p = copy_run(work, from, end, plan, p);
        end = from;
    }
    p
}

// A list that grew up, and one that grew down, after the count of its records.
fn put_up(work: &[u8], from: usize, to: usize, n: usize, plan: &mut [u8], at: usize) -> usize
    requires { at ≤ 1048576 * 65536 }
    ensures { let form = Plan.u16 n ++ slice from to work.now in
        Wrote form at plan.old result plan.new × (result ≤ at + to + 2) }
{
    put16(plan, at, n);
    copy_run(work, from, to, plan, at + 2)
}

fn put_down(work: &[u8], width: usize, n: usize, top: usize, plan: &mut [u8], at: usize) -> usize
    requires { (at ≤ 1048576 * 65536) × (top ≤ 65536) }
    ensures { let form = Plan.u16 n ++ backwards width n top work.now in
        Wrote form at plan.old result plan.new × (result ≤ at + top + 2) }
{
    put16(plan, at, n);
    copy_down(work, width, n, top, plan, at + 2)
}

// How many bytes the four lists take in the plan.
pub fn lists_len(work: &[u8], e: Ends) -> usize
    ensures { (result ≡ length (lists_in (ends_of e) work.now)) × (result ≤ 17179869192) }
{
    let a = run_len(work, 0, e.bindings as usize);
    let b = run_len(work, CONSTRAINED - 2 * names(e), CONSTRAINED);
    let c = run_len(work, SELECTS, e.selects as usize);
    let d = run_len(work, DIAGNOSTICS - 3 * reports(e), DIAGNOSTICS);
    8 + a + b + c + d
}

// Writes the four lists, each after its count, and gives where they end.
pub fn put_lists(work: &[u8], plan: &mut [u8], at: usize, e: Ends) -> usize
    requires { at ≤ 1048576 }
    ensures { Wrote (lists_in (ends_of e) work.now) at plan.old result plan.new }
{
    let p = put_up(
        work,
        0,
        e.bindings as usize,
        e.binding_count as usize,
        plan,
        at,
    );
    let q = put_down(work, 2, names(e), CONSTRAINED, plan, p);
    let r = put_up(
        work,
        SELECTS,
        e.selects as usize,
        e.select_count as usize,
        plan,
        q,
    );
    put_down(work, 3, reports(e), DIAGNOSTICS, plan, r)
}
