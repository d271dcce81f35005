// Where each item of a plan ends: request [1]'s walk over plan bytes, front to back, with no memory of its own.
// Which items of the plan stand where: proofs/Places.antt, `item-at` of any number of items and `opened` of the five lists.
#![tactic(auto)]

ghost use Rattle.std.specs.Prelude.{◌≡◌, ◌≤◌, ◌<◌, ◌+◌, length, ℕ, Result, Ok, Err};
ghost use Rattle.rules.specs.Read.{u8, u16, many};
ghost use Rattle.rules.specs.Reader as Reader;
ghost use Rattle.file.specs.Refusals.{numbered};
ghost use Rattle.file.specs.Steps.{step_at, word, word_limit};
ghost use Rattle.plan_form.specs.Pieces.{run, item_of, range, edges, after_guide, after_seek};

use file::{Refusal, fixed, fuzzy_end, word_at};
use paths::FieldPath;

// The items of a plan that hold no list of their own: those of a seek and of a level, and those of the lists after all levels.
#[derive(Clone, Copy, PartialEq, Eq)]
pub enum Kind {
    Part,
    Residual,
    Binding,
    Select,
    Diagnostic,
}

// The last code that a diagnostic may have; the first is 1.
const LAST_CODE: u8 = 11;

// Where a count at p and what it counts end, by where so many end from a place on.
fn counted_end<F: FnOnce(usize, usize) -> Result<usize, Refusal>>(
    plan: &[u8],
    p: usize,
    end: F,
) -> Result<usize, Refusal>
    requires in_plan { p ≤ length plan.now }
    requires callable { p + 2 ≤ length plan.now → word plan.now p < word_limit → F.pre end (word plan.now p) (p + 2) }
    ensures cut { length plan.now < p + 2 → numbered result ≡ Err 3 }
    ensures counts { p + 2 ≤ length plan.now → F.post end (word plan.now p) (p + 2) result }
{
    if plan.len() - p < 2 {
        return Err(Refusal::Ends);
    }
    let n = word_at(plan, p);
    end(n, p + 2)
}

// Where n items end, from `at` on, by where an item ends: if `end` answers as g does, wherever it is asked, n steps of g end there.
// Items and levels are not one `Kind`: a level's end is made of items' ends, so a case for it would close a cycle of calls.
fn run_end<F: Fn(usize) -> Result<usize, Refusal>>(
    plan: &[u8],
    n: usize,
    at: usize,
    end: F,
) -> Result<usize, Refusal>
    requires in_plan { at ≤ length plan.now }
    requires callable { (p : ℕ) → p ≤ length plan.now → F.pre end p }
    requires within { (p q : ℕ) → p ≤ length plan.now → F.post end p (Ok q) → q ≤ length plan.now }
    ensures { (g : ℕ → Result ℕ ℕ) → ((p : ℕ) (x : _) → p ≤ length plan.now → F.post end p x → numbered x ≡ g p) →
        numbered result ≡ run g n at }
{
    let mut p = at;
    for _ in 0..n {
        p = end(p)?;
    }
    Ok(p)
}

// Where n numbers of two bytes from p on end.
fn numbers_end(plan: &[u8], n: usize, p: usize) -> Result<usize, Refusal>
    requires { p ≤ length plan.now }
    ensures { numbered result ≡ step_at plan.now (many n u16) p }
{
    if n <= (plan.len() - p) / 2 {
        Ok(p + 2 * n)
    } else {
        Err(Refusal::Ends)
    }
}

// Where the text at p ends: a count, then as many bytes.
pub fn text_end(plan: &[u8], p: usize) -> Result<usize, Refusal>
    requires { p ≤ length plan.now }
    ensures { numbered result ≡ step_at plan.now Reader.text p }
{
    counted_end(plan, p, |n, q| fixed(plan, n, q))
}

// Where the folded or constrained numbers at p end: a count, then two bytes for each.
pub fn words_end(plan: &[u8], p: usize) -> Result<usize, Refusal>
    requires { p ≤ length plan.now }
    ensures { numbered result ≡ step_at plan.now (Reader.counted u16) p }
{
    counted_end(plan, p, |n, q| numbers_end(plan, n, q))
}

// Where the path at p ends: its field, a count, and as many steps. More steps than a path holds are a fault of the count.
// Not one function with `path_end` of crate file: while a file is read its paths have no limit, which refusal 14 asks for later.
pub fn path_end(plan: &[u8], p: usize) -> Result<usize, Refusal>
    requires { p ≤ length plan.now }
    ensures { numbered result ≡ step_at plan.now Reader.path p }
{
    if plan.len() - p < 3 {
        return Err(Refusal::Ends);
    }
    let n = usize::from(plan[p + 2]);
    if n > FieldPath::STEP_LIMIT {
        return Err(Refusal::Kind);
    }
    fixed(plan, 4 * n, p + 3)
}

// Where an address and a path end: a part and an op have them after their kind, a select and a Field slot at their beginning.
pub fn register_end(plan: &[u8], p: usize) -> Result<usize, Refusal>
    requires { p ≤ length plan.now }
    ensures { numbered result ≡ step_at plan.now Reader.register_part p }
{
    if plan.len() - p < 2 {
        return Err(Refusal::Ends);
    }
    path_end(plan, p + 2)
}

// Where a Field slot ends that has its address at p: address, path, type.
// Not one function with `fetched_end` of crate file, whose path has no limit: two grammars, so two readers.
pub fn field_slot_end(plan: &[u8], p: usize) -> Result<usize, Refusal>
    requires { p ≤ length plan.now }
    ensures { numbered result ≡ step_at plan.now Reader.field_slot p }
{
    fixed(plan, 2, register_end(plan, p)?)
}

// Where the slot at p ends. A Field slot's path is a plan's; every other slot is as in a rule file.
pub fn slot_end(plan: &[u8], p: usize) -> Result<usize, Refusal>
    requires { p ≤ length plan.now }
    ensures { numbered result ≡ step_at plan.now Reader.slot p }
{
    if p >= plan.len() {
        return Err(Refusal::Ends);
    }
    if plan[p] == 3 {
        return field_slot_end(plan, p + 1);
    }
    file::slot_end(plan, p)
}

// Where the binding at p ends: a name and a slot. As in crate file but for the slot, whose path is a plan's.
pub fn binding_end(plan: &[u8], p: usize) -> Result<usize, Refusal>
    requires { p ≤ length plan.now }
    ensures { numbered result ≡ step_at plan.now Reader.binding p }
{
    if plan.len() - p < 2 {
        return Err(Refusal::Ends);
    }
    slot_end(plan, p + 2)
}

// Where the select at p ends: address, path, disc.
pub fn select_end(plan: &[u8], p: usize) -> Result<usize, Refusal>
    requires { p ≤ length plan.now }
    ensures { numbered result ≡ step_at plan.now Reader.select p }
{
    fixed(plan, 4, register_end(plan, p)?)
}

// Where the diagnostic at p ends: a node and a code, which is not 0.
pub fn diagnostic_end(plan: &[u8], p: usize) -> Result<usize, Refusal>
    requires { p ≤ length plan.now }
    ensures { numbered result ≡ step_at plan.now Reader.diagnostic p }
{
    if plan.len() - p < 3 {
        return Err(Refusal::Ends);
    }
    match plan[p + 2] {
        1..=LAST_CODE => Ok(p + 3),
        _ => Err(Refusal::Kind),
    }
}

// Where the key of the part at p ends: its kind says whether bytes, address and path or an address follow.
fn key_end(plan: &[u8], p: usize) -> Result<usize, Refusal>
    requires { p ≤ length plan.now }
    ensures { numbered result ≡ step_at plan.now Reader.part_key p }
{
    if p >= plan.len() {
        return Err(Refusal::Ends);
    }
    match plan[p] {
        0 => text_end(plan, p + 1),
        1 => register_end(plan, p + 1),
        2 => fixed(plan, 2, p + 1),
        _ => Err(Refusal::Kind),
    }
}

// Where the part at p ends: its key and its node.
pub fn part_end(plan: &[u8], p: usize) -> Result<usize, Refusal>
    requires { p ≤ length plan.now }
    ensures { numbered result ≡ step_at plan.now Reader.part p }
{
    fixed(plan, 2, key_end(plan, p)?)
}

// Where the edge at p ends: none, or a text, exclusive or inclusive.
pub fn edge_end(plan: &[u8], p: usize) -> Result<usize, Refusal>
    requires { p ≤ length plan.now }
    ensures { numbered result ≡ step_at plan.now Reader.edge p }
{
    if p >= plan.len() {
        return Err(Refusal::Ends);
    }
    match plan[p] {
        0 => Ok(p + 1),
        1 | 2 => text_end(plan, p + 1),
        _ => Err(Refusal::Kind),
    }
}

// Where a guide ends that has its path at p: path, name, distance, anchor, node.
pub fn guide_that_end(plan: &[u8], p: usize) -> Result<usize, Refusal>
    requires { p ≤ length plan.now }
    ensures { numbered result ≡ step_at plan.now Reader.guide_that p }
{
    let q = path_end(plan, p)?;
    fixed(plan, 2, fuzzy_end(plan, q)?)
}

// Where the guide at p ends, or the byte that says there is none.
pub fn guide_end(plan: &[u8], p: usize) -> Result<usize, Refusal>
    requires { p ≤ length plan.now }
    ensures { numbered result ≡ step_at plan.now Reader.guide p }
{
    if p >= plan.len() {
        return Err(Refusal::Ends);
    }
    match plan[p] {
        0 => Ok(p + 1),
        1 => guide_that_end(plan, p + 1),
        _ => Err(Refusal::Kind),
    }
}

// Where the op at p ends: bytes, prefix, address and path, address, disc, name, distance and anchor, or a path of the same row.
pub fn op_end(plan: &[u8], p: usize) -> Result<usize, Refusal>
    requires { p ≤ length plan.now }
    ensures { numbered result ≡ step_at plan.now Reader.op p }
{
    if p >= plan.len() {
        return Err(Refusal::Ends);
    }
    match plan[p] {
        0 | 1 => text_end(plan, p + 1),
        2 => register_end(plan, p + 1),
        3 => fixed(plan, 2, p + 1),
        4 => fixed(plan, 4, p + 1),
        5 => fuzzy_end(plan, p + 1),
        6 => path_end(plan, p + 1),
        _ => Err(Refusal::Kind),
    }
}

// Where the residual at p ends: a path, an op and a node.
pub fn residual_end(plan: &[u8], p: usize) -> Result<usize, Refusal>
    requires { p ≤ length plan.now }
    ensures { numbered result ≡ step_at plan.now Reader.residual p }
{
    let q = path_end(plan, p)?;
    fixed(plan, 2, op_end(plan, q)?)
}

// Where the item at p ends.
pub fn item_end(plan: &[u8], kind: Kind, p: usize) -> Result<usize, Refusal>
    requires { p ≤ length plan.now }
    ensures { numbered result ≡ step_at plan.now (item_of kind) p }
{
    match kind {
        Kind::Part => part_end(plan, p),
        Kind::Residual => residual_end(plan, p),
        Kind::Binding => binding_end(plan, p),
        Kind::Select => select_end(plan, p),
        Kind::Diagnostic => diagnostic_end(plan, p),
    }
}

// Where n items of a kind end, from `at` on.
pub fn items_end(plan: &[u8], kind: Kind, n: usize, at: usize) -> Result<usize, Refusal>
    requires { at ≤ length plan.now }
    ensures { numbered result ≡ step_at plan.now (many n (item_of kind)) at }
{
    run_end(plan, n, at, |p| item_end(plan, kind, p))
}

// Where a count at p and as many items of a kind end.
pub fn list_end(plan: &[u8], kind: Kind, p: usize) -> Result<usize, Refusal>
    requires { p ≤ length plan.now }
    ensures { numbered result ≡ step_at plan.now (Reader.counted (item_of kind)) p }
{
    counted_end(plan, p, |n, q| items_end(plan, kind, n, q))
}

// Where a range's text, path and node end.
fn range_end(plan: &[u8], p: usize) -> Result<usize, Refusal>
    requires { p ≤ length plan.now }
    ensures { numbered result ≡ step_at plan.now range p }
{
    let q = text_end(plan, p)?;
    fixed(plan, 2, path_end(plan, q)?)
}

// Where lo and hi end.
fn edges_end(plan: &[u8], p: usize) -> Result<usize, Refusal>
    requires { p ≤ length plan.now }
    ensures { numbered result ≡ step_at plan.now edges p }
{
    let q = edge_end(plan, p)?;
    edge_end(plan, q)
}

// Where a Prefix ends that has its text at p: the text, and a node for each of the n parts.
fn prefix_seek_end(plan: &[u8], n: usize, p: usize) -> Result<usize, Refusal>
    requires { p ≤ length plan.now }
    ensures { numbered result ≡ step_at plan.now (Reader.prefix_seek n) p }
{
    let q = text_end(plan, p)?;
    numbers_end(plan, n, q)
}

// Where a PrefixRange ends that has the first of its n parts at p.
fn range_seek_end(plan: &[u8], n: usize, p: usize) -> Result<usize, Refusal>
    requires { p ≤ length plan.now }
    ensures { numbered result ≡ step_at plan.now (Reader.range_seek n) p }
{
    let q = items_end(plan, Kind::Part, n, p)?;
    range_end(plan, q)
}

// Where a Bounded ends that has the first of its n parts at p.
fn bounded_seek_end(plan: &[u8], n: usize, p: usize) -> Result<usize, Refusal>
    requires { p ≤ length plan.now }
    ensures { numbered result ≡ step_at plan.now (Reader.bounded_seek n) p }
{
    let q = items_end(plan, Kind::Part, n, p)?;
    edges_end(plan, q)
}

// Where the seek at p ends, of a level with n parts: its kind says what follows.
pub fn seek_end(plan: &[u8], n: usize, p: usize) -> Result<usize, Refusal>
    requires { p ≤ length plan.now }
    ensures { numbered result ≡ step_at plan.now (Reader.seek n) p }
{
    if p >= plan.len() {
        return Err(Refusal::Ends);
    }
    match plan[p] {
        0 => prefix_seek_end(plan, n, p + 1),
        1 => items_end(plan, Kind::Part, n, p + 1),
        2 => range_seek_end(plan, n, p + 1),
        3 => bounded_seek_end(plan, n, p + 1),
        _ => Err(Refusal::Kind),
    }
}

// Where a level's residuals and folded numbers end.
fn after_guide_end(plan: &[u8], p: usize) -> Result<usize, Refusal>
    requires { p ≤ length plan.now }
    ensures { numbered result ≡ step_at plan.now after_guide p }
{
    let q = list_end(plan, Kind::Residual, p)?;
    words_end(plan, q)
}

// Where a level ends that has its guide at p.
fn after_seek_end(plan: &[u8], p: usize) -> Result<usize, Refusal>
    requires { p ≤ length plan.now }
    ensures { numbered result ≡ step_at plan.now after_seek p }
{
    let q = guide_end(plan, p)?;
    after_guide_end(plan, q)
}

// Where the level at p ends: three counts, the third that of its parts, then seek, guide, residuals and folded numbers.
pub fn level_end(plan: &[u8], p: usize) -> Result<usize, Refusal>
    requires { p ≤ length plan.now }
    ensures { numbered result ≡ step_at plan.now Reader.level p }
{
    if plan.len() - p < 6 {
        return Err(Refusal::Ends);
    }
    let n = word_at(plan, p + 4);
    let q = seek_end(plan, n, p + 6)?;
    after_seek_end(plan, q)
}

// Where n levels from `at` on end.
pub fn levels_end(plan: &[u8], n: usize, at: usize) -> Result<usize, Refusal>
    requires { at ≤ length plan.now }
    ensures { numbered result ≡ step_at plan.now (many n Reader.level) at }
{
    run_end(plan, n, at, |p| level_end(plan, p))
}

// Where a count at p and as many levels end.
pub fn level_list_end(plan: &[u8], p: usize) -> Result<usize, Refusal>
    requires { p ≤ length plan.now }
    ensures { numbered result ≡ step_at plan.now (Reader.counted Reader.level) p }
{
    counted_end(plan, p, |n, q| levels_end(plan, n, q))
}

// Reads the whole plan: the number of its first fault, or its end. The five lists are all that a plan holds.
pub fn plan_end(plan: &[u8]) -> Result<usize, Refusal>
    ensures { numbered result ≡ step_at plan.now Reader.plan 0 }
{
    let b = level_list_end(plan, 0)?;
    let k = list_end(plan, Kind::Binding, b)?;
    let s = words_end(plan, k)?;
    let d = list_end(plan, Kind::Select, s)?;
    let p = list_end(plan, Kind::Diagnostic, d)?;
    if p < plan.len() {
        return Err(Refusal::Follows);
    }
    Ok(p)
}
