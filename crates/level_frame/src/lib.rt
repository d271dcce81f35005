// What stands in the plan around a level's parts and residuals: its sizes, and its bytes, from the level as it was measured.
#![tactic(auto)]

ghost use Rattle.std.specs.Prelude.{◌≡◌, ◌+◌, ◌≤◌, ◌<◌, ◌||◌, min, length};
ghost use Rattle.rules.specs.Limits.{plan_limit};
ghost use Rattle.rules.specs.File.{Tables};
ghost use Rattle.rules.specs.Plan as Plan;
ghost use Rattle.state.specs.Levels.{seek_of, joining, head, middle, tail};
ghost use Rattle.state.specs.Levels as StateLevels;
ghost use Rattle.accepted_file.specs.Tables.{accepted_tables};
ghost use Rattle.constant.specs.Sizes.{cap};
ghost use Rattle.encode.specs.Written.{Wrote};
ghost use Rattle.records.specs.Records.{put, longest_path};
ghost use Rattle.seek.specs.Seek.{guide_of, level_of};
ghost use Rattle.level_frame.specs.LevelFrame.{number_of, between_of, parts_len, frame_of};

use accepted_file::AcceptedFile;
use constant::capped;
use records::{anchor_byte, path_size, put_path, put8, put16};
use seek::{SeekBuilder, kept};
use texts::{edge_len, prefix_text_len, put_edge, put_prefix_text};

// Where a level's parts, the nodes of parts that are joined, middle, residuals and tail begin, and where it ends.
#[derive(Clone, Copy)]
pub struct Frame {
    pub parts: usize,
    pub nodes: usize,
    pub middle: usize,
    pub rest: usize,
    pub tail: usize,
    pub end: usize,
}

// The kinds of a level's seek, by their numbers in the plan.
#[derive(Clone, Copy, PartialEq, Eq)]
pub enum SeekKind {
    Prefix = 0,
    Composite = 1,
    PrefixRange = 2,
    Bounded = 3,
}

// Whether a level has an edge.
fn is_bounded(l: SeekBuilder) -> bool
    ensures { result ≡ (l.lo.set || l.hi.set) }
{
    l.lo.set || l.hi.set
}

// The kind of a level's seek.
pub fn seek_kind(l: SeekBuilder) -> SeekKind
    ensures { (T : Tables) → number_of result ≡ seek_of (level_of T l) }
{
    if is_bounded(l) {
        return SeekKind::Bounded;
    }
    if kept(l.building, l.range.set) {
        return SeekKind::PrefixRange;
    }
    if l.plain {
        SeekKind::Prefix
    } else {
        SeekKind::Composite
    }
}

// Whether the plan has a level's parts joined to one text: those of a Prefix.
pub fn is_joining(l: SeekBuilder) -> bool
    ensures { (T : Tables) → result ≡ joining (level_of T l) }
{
    seek_kind(l) == SeekKind::Prefix
}

// The bytes before the parts: three counts and the seek, then the length of the text that the parts of a Prefix join to.
fn head_len(l: SeekBuilder) -> usize
    ensures { ((T : Tables) → result ≡ length (head (level_of T l))) × (result ≤ 9) }
{
    if is_joining(l) { 9 } else { 7 }
}

fn put_head(plan: &mut [u8], at: usize, l: SeekBuilder)
    requires { at ≤ plan_limit }
    ensures { (T : Tables) → plan.new ≡ put plan.old at (head (level_of T l)) }
{
    let c = l.counts;
    let closers = c.closers as usize;
    put16(plan, at, c.narrowings as usize);
    put16(plan, at + 2, closers);
    put16(plan, at + 4, closers + c.others as usize);
    put8(plan, at + 6, seek_kind(l) as u8);
    if is_joining(l) {
        put16(plan, at + 7, c.joined as usize);
    }
}

// The bytes of the parts: in a Prefix joined, with a node for each, else in the plan's form.
fn parts_len(l: SeekBuilder) -> usize
    ensures { ((T : Tables) → result ≡ parts_len (level_of T l)) × (result < 34359738368) }
{
    let c = l.counts;
    let joined = c.joined as usize;
    if is_joining(l) {
        joined + 2 * (c.closers as usize + c.others as usize)
    } else {
        joined + c.framed as usize
    }
}

// The length of the guide in the plan; a level without one has a single byte there.
fn guide_len(l: SeekBuilder) -> usize
    ensures { (result ≡ length (Plan.guide (guide_of l))) × (result ≤ longest_path + 7) }
{
    if kept(l.building, l.guide.set) {
        path_size(l.path) + 7
    } else {
        1
    }
}

fn put_guide(plan: &mut [u8], at: usize, l: SeekBuilder) -> usize
    requires { at ≤ 1048576 }
    ensures { Wrote (Plan.guide (guide_of l)) at plan.old result plan.new }
{
    let g = l.guide;
    if kept(l.building, g.set) {
        put8(plan, at, 1);
        let p = put_path(plan, at + 1, l.path);
        put16(plan, p, g.term);
        put8(plan, p + 2, g.distance);
        put8(plan, p + 3, anchor_byte(g.anchor));
        put16(plan, p + 4, g.node);
        p + 6
    } else {
        put8(plan, at, 0);
        at + 1
    }
}

// How many comparisons are folded: one for each edge.
fn folded_count(l: SeekBuilder) -> usize
    ensures { ((T : Tables) → result ≡ length (level_of T l).edges.folded) × (result ≤ 2) }
{
    l.lo.set as usize + l.hi.set as usize
}

fn tail_len(l: SeekBuilder) -> usize
    ensures { ((T : Tables) → result ≡ length (tail (level_of T l))) × (result ≤ 6) }
{
    2 + 2 * folded_count(l)
}

// The bytes after the residuals: the folded comparisons.
fn put_tail(plan: &mut [u8], at: usize, l: SeekBuilder)
    requires { at ≤ plan_limit }
    ensures { (T : Tables) → plan.new ≡ put plan.old at (tail (level_of T l)) }
{
    let f = l.folded;
    let n = folded_count(l);
    put16(plan, at, n);
    if n == 0 {
        return;
    }
    put16(plan, at + 2, f.first as usize);
    if n == 1 {
        return;
    }
    put16(plan, at + 4, f.second as usize);
}

// A range's text, path and node, or the two edges, up to the cap.
fn between_len(file: &AcceptedFile, l: SeekBuilder) -> usize
    ensures { result ≡ min cap (length (between_of (level_of (accepted_tables file.now) l))) }
{
    if is_bounded(l) {
        return capped(edge_len(file, l.lo), edge_len(file, l.hi));
    }
    let r = l.range;
    if kept(l.building, r.set) {
        return capped(
            prefix_text_len(file, r.name as usize),
            path_size(l.path) + 2,
        );
    }
    0
}

fn put_between(file: &AcceptedFile, plan: &mut [u8], at: usize, l: SeekBuilder) -> usize
    requires { (at ≤ plan_limit) × (length (between_of (level_of (accepted_tables file.now) l)) ≤ cap) }
    ensures { Wrote (between_of (level_of (accepted_tables file.now) l)) at plan.old result plan.new }
{
    if is_bounded(l) {
        let p = put_edge(file, plan, at, l.lo);
        return put_edge(file, plan, p, l.hi);
    }
    let r = l.range;
    if kept(l.building, r.set) {
        let p = put_prefix_text(file, plan, at, r.name as usize);
        let q = put_path(plan, p, l.path);
        put16(plan, q, r.node);
        return q + 2;
    }
    at
}

// The bytes between parts and residuals, up to the cap.
fn middle_len(file: &AcceptedFile, l: SeekBuilder) -> usize
    ensures { result ≡ min cap (length (middle (level_of (accepted_tables file.now) l))) }
{
    capped(between_len(file, l), guide_len(l) + 2)
}

fn put_middle(file: &AcceptedFile, plan: &mut [u8], at: usize, l: SeekBuilder)
    requires { (at ≤ plan_limit) × (length (middle (level_of (accepted_tables file.now) l)) ≤ cap) }
    ensures { plan.new ≡ put plan.old at (middle (level_of (accepted_tables file.now) l)) }
{
    let c = l.counts;
    let p = put_between(file, plan, at, l);
    let q = put_guide(plan, p, l);
    put16(plan, q, c.residuals as usize);
}

// Where a level that begins at a place has its parts, their nodes, middle, residuals and tail, and where it ends.
pub fn measure(file: &AcceptedFile, at: usize, l: SeekBuilder) -> Frame
    requires { at ≤ plan_limit }
    ensures { result ≡ frame_of at (level_of (accepted_tables file.now) l) }
{
    let c = l.counts;
    let parts = at + head_len(l);
    let nodes = parts + c.joined as usize;
    let middle = parts + parts_len(l);
    let rest = middle + middle_len(file, l);
    let tail = rest + c.rest as usize;
    let end = tail + tail_len(l);
    Frame {
        parts,
        nodes,
        middle,
        rest,
        tail,
        end,
    }
}

// Writes a level's bytes but for its parts and residuals, where it fits a plan.
pub fn put_frame(file: &AcceptedFile, plan: &mut [u8], at: usize, f: Frame, l: SeekBuilder)
    requires { (f ≡ frame_of at (level_of (accepted_tables file.now) l)) × (f.end ≤ plan_limit) }
    ensures { plan.new ≡ StateLevels.frame at (level_of (accepted_tables file.now) l) plan.old }
{
    put_head(plan, at, l);
    put_middle(file, plan, f.middle, l);
    put_tail(plan, f.tail, l);
}
