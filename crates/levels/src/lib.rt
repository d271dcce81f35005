// A level walked onto the page, then written at its place in the plan; the list of levels, each from exactly what the one before left;
// the four lists after them.
#![tactic(auto)]

ghost use Rattle.std.specs.Prelude.{◌≡◌, true, List, [], ℕ, ◌≤◌, ◌<◌, length};
ghost use Rattle.rules.specs.Limits.{plan_limit};
ghost use Rattle.rules.specs.File.{Tables};
ghost use Rattle.state.specs.State.{new_level, no_target, state};
ghost use Rattle.state.specs.Levels as StateLevels;
ghost use Rattle.views.specs.Views.{level_entry_at};
ghost use Rattle.accepted_file.specs.Tables.{accepted_tables};
ghost use Rattle.seek.specs.Seek.{level_of, target_of, new_builder};
ghost use Rattle.lists.specs.Lists.{ends_of, state_with, overrun};
ghost use Rattle.level_frame.specs.LevelFrame.{frame_of};
ghost use Rattle.walk.specs.Walk.{walk_state, with_lists};
ghost use Rattle.levels.specs.Written.{unleveled, between_levels, written_of};

use accepted_file::AcceptedFile;
use file::Section;
use key::key;
use level_frame::{Frame, is_joining, measure, put_frame};
use lists::{Ends, Lists};
use page::{PAGE, is_paged, paging, put_page};
use plan_lists::{lists_len, put_lists};
use records::put16;
use seek::{SeekBuilder, Target};
use walk::Walk;

const PLAN_LIMIT: usize = 16384;

// How far the plan is written, and the lists so far.
#[derive(Clone, Copy)]
pub struct Written {
    pub at: usize,
    pub lists: Lists,
}

// A level's walk begins.
fn begun(over: bool, ends: Ends, target: Target) -> Walk
    ensures starts { (T : Tables) (w p : List ℕ) → walk_state T result w p ≡ state over (ends_of ends) new_level (target_of target) w p }
    ensures whole { result ≡ with_lists (record { ends = ends; level = new_builder target }) (record { over = over; ends = ends }) }
{
    let mut level = SeekBuilder::new(target);
    level.over = over;
    Walk { ends, level }
}

// The walk of level k.
fn walked(file: &AcceptedFile, work: &mut [u8], plan: &mut [u8], k: usize, w: Walk) -> Walk
    requires { k < length (accepted_tables file.now).levels }
    ensures { let T = accepted_tables file.now in
        let before = walk_state T w work.old plan.old in
        let after = walk_state T result work.new plan.new in
        after ≡ StateLevels.walked T (level_entry_at T k) before }
{
    let e = file.tables.level_at(k);
    let p = file.tables.predicate_of(e.predicate);
    let address = e.address;
    key(file, work, plan, e.node, p.key, address, w)
}

// A level's place in the plan, as it was measured.
fn writing(f: Frame, l: SeekBuilder) -> Target
    requires { (f.parts < 65536) × (f.nodes < 65536) × (f.rest < 65536) }
    ensures { (T : Tables) →
        let joining = StateLevels.joining (level_of T l) in
        target_of result ≡ record { joining = joining; parts_at = f.parts; nodes_at = f.nodes; rest_at = f.rest } }
{
    Target {
        joining: is_joining(l),
        parts: f.parts as u32,
        nodes: f.nodes as u32,
        rest: f.rest as u32,
    }
}

// The level's frame and what its walk wrote to the page, in the plan. A level that is too long for the page is walked once more, from the
// lists as they were, and written at its place.
fn placed(
    file: &AcceptedFile,
    work: &mut [u8],
    plan: &mut [u8],
    page: &[u8],
    k: usize,
    at: usize,
    f: Frame,
    m: Walk,
    ends: Ends,
) -> Lists
    requires k_in_bounds { k < length (accepted_tables file.now).levels }
    requires f_value { (f ≡ frame_of at (level_of (accepted_tables file.now) m.level)) × (f.end ≤ plan_limit) }
    ensures { let T = accepted_tables file.now in
        let walked = walk_state T m work.old page.now in
        let after = state_with result new_level no_target work.new plan.new in
        after ≡ unleveled (StateLevels.placed T (level_entry_at T k) (ends_of ends) at plan.old walked) }
{
    let l = m.level;
    let c = l.counts;
    let t = writing(f, l);
    put_frame(file, plan, at, f, l);
    if is_paged(c) {
        put_page(page, plan, t, c);
        return m.lists();
    }
    let r = walked(file, work, plan, k, begun(l.over, ends, t));
    r.lists()
}

// The plan is too long.
fn stopped(at: usize, l: Lists) -> Written
    ensures { result ≡ record { at = at; lists = overrun l } }
{
    let mut lists = l;
    lists.over = true;
    Written { at, lists }
}

// A level that was walked onto the page: in the plan, if it fits.
fn ended(
    file: &AcceptedFile,
    work: &mut [u8],
    plan: &mut [u8],
    page: &[u8],
    k: usize,
    at: usize,
    ends: Ends,
    m: Walk,
) -> Written
    requires { (k < length (accepted_tables file.now).levels) × (at ≤ plan_limit) }
    ensures writes { let T = accepted_tables file.now in
        let walked = walk_state T m work.old page.now in
        let after = written_of result work.new plan.new page.now in
        after ≡ between_levels (StateLevels.ended T (level_entry_at T k) (ends_of ends) at plan.old walked) }
    ensures bounded { result.at ≤ plan_limit }
{
    let lists = m.lists();
    if lists.over {
        return Written { at, lists };
    }
    let l = m.level;
    let f = measure(file, at, l);
    let end = f.end;
    if end > PLAN_LIMIT {
        return stopped(at, lists);
    }
    if end > plan.len() {
        return stopped(at, lists);
    }
    let left = placed(file, work, plan, page, k, at, f, m, ends);
    Written {
        at: end,
        lists: left,
    }
}

// Level k: walked onto the page, then written.
fn level(
    file: &AcceptedFile,
    work: &mut [u8],
    plan: &mut [u8],
    page: &mut [u8],
    k: usize,
    w: Written,
) -> Written
    requires { (k < length (accepted_tables file.now).levels) × (w.at ≤ plan_limit) }
    ensures writes { let T = accepted_tables file.now in
        let before = written_of w work.old plan.old page.old in
        let after = written_of result work.new plan.new page.new in
        after ≡ between_levels (StateLevels.level T (level_entry_at T k) before) }
    ensures bounded { result.at ≤ plan_limit }
{
    let lists = w.lists;
    let ends = lists.ends;
    let m = walked(file, work, page, k, begun(lists.over, ends, paging()));
    ended(file, work, plan, &page[..], k, w.at, ends, m)
}

// The levels in order; once the plan is too long no level is walked.
fn levels(
    file: &AcceptedFile,
    work: &mut [u8],
    plan: &mut [u8],
    page: &mut [u8],
    start: Written,
) -> Written
    requires { start.at ≤ plan_limit }
    ensures writes { let T = accepted_tables file.now in
        let before = written_of start work.old plan.old page.old in
        let after = written_of result work.new plan.new page.new in
        after ≡ between_levels (StateLevels.levels T T.levels before) }
    ensures bounded { result.at ≤ plan_limit }
{
    let mut w = start;
    for k in 0..file.tables.count_of(Section::Levels) {
        let lists = w.lists;
        if lists.over {
            return w;
        }
        w = level(file, work, plan, page, k, w);
    }
    w
}

// The four lists after the levels, where they fit.
fn finished(work: &[u8], plan: &mut [u8], w: Written) -> Written
    requires { w.at ≤ plan_limit }
    ensures { (page : List ℕ) →
        let before = written_of w work.now plan.old page in
        let after = written_of result work.now plan.new page in
        after ≡ between_levels (StateLevels.finished before) }
{
    let lists = w.lists;
    if lists.over {
        return w;
    }
    let ends = lists.ends;
    let at = w.at;
    let last = at + lists_len(work, ends);
    if last > PLAN_LIMIT {
        return stopped(at, lists);
    }
    if last > plan.len() {
        return stopped(at, lists);
    }
    put_lists(work, plan, at, ends);
    Written { at: last, lists }
}

// Writes the whole plan: the levels, then the four lists.
pub fn write(file: &AcceptedFile, work: &mut [u8], plan: &mut [u8]) -> Written
    ensures { let T = accepted_tables file.now in
        let after = written_of result work.new plan.new [] in
        after ≡ between_levels (StateLevels.compiled T work.old plan.old) }
{
    put16(plan, 0, file.tables.count_of(Section::Levels));
    let ends = Ends {
        bindings: 0,
        binding_count: 0,
        constrained: 16384,
        selects: 16384,
        select_count: 0,
        diagnostics: 32768,
    };
    let lists = Lists { over: false, ends };
    let start = Written { at: 2, lists };
    // No heap: on the stack.
    let mut page = [0u8; PAGE];
    let w = levels(file, work, plan, &mut page, start);
    finished(&work[..], plan, w)
}
