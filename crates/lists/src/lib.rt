// The four lists as records in the work area, each in the plan's form, two lists to a run: bindings and selects grow up, constrained names
// and diagnostics down. A record that would meet the run's other list means that the plan is too long: `over` is set, and nothing changes
// any more. Two tables past the lists tell where a name was bound.
#![tactic(auto)]

ghost use Rattle.std.specs.Prelude.{◌≡◌, true, false, List, ◌∷◌, ◌++◌, ℕ, ◌+◌, ◌*◌, ◌≤◌, ◌<◌, ltb, leb, length, get_or, Some, unwrap_or};
ghost use Rattle.rules.specs.Base.{both};
ghost use Rattle.rules.specs.Limits.{depth_limit};
ghost use Rattle.rules.specs.File.{depth};
ghost use Rattle.rules.specs.Checks.{none_or, is_type, is_predicate};
ghost use Rattle.rules.specs.Constant as Constant;
ghost use Rattle.rules.specs.Events.{code_number};
ghost use Rattle.rules.specs.Plan as Plan;
ghost use Rattle.state.specs.State.{Level, Target, noted, made_slot};
ghost use Rattle.state.specs.Ops as Ops;
ghost use Rattle.state.specs.Ops.{checked_slot, ops};
ghost use Rattle.rules.specs.Read.{binding};
ghost use Rattle.file.specs.Steps.{word, step_at};
ghost use Rattle.file.specs.Sections.{number_of};
ghost use Rattle.paths.specs.Paths.{path_of};
ghost use Rattle.views.specs.Views as Views;
ghost use Rattle.views.specs.Views.{size_of, predicate_maybe, predicate_option, path_at, slot_view, PathInside, SlotInside};
ghost use Rattle.accepted_file.specs.Tables.{accepted_tables};
ghost use Rattle.tables.specs.Tables.{SeenSlot};
ghost use Rattle.slots.specs.Slots.{slot_of, Stands, IsSlot};
ghost use Rattle.records.specs.Records.{put, reach, longest_path};
ghost use Rattle.lists.specs.Lists.{state_with, overrun, code_of, fits_tables, plain_sizes, end_of, named_at};
ghost use Rattle.lists.specs.Lists.{slot_from, made_place, view_at, Readable, SeenAt, SeenView, ShortSlot};

use accepted_file::AcceptedFile;
use file::{DEPTH_LIMIT, DEPTHS, Section, word_at};
use paths::{Address, FieldPath, PredicateId};
use records::{path_size, put_path, put8, put16, put32, word_in};
use slots::{Slot, SlotKind};
use views::{SlotView, path_at};

// How far each list has come in the work area: where one that grows up ends, where the newest record of one that grows down begins; and how
// many records the two have whose records differ in length.
#[derive(Clone, Copy)]
pub struct Ends {
    pub bindings: u32,
    pub binding_count: u32,
    pub constrained: u32,
    pub selects: u32,
    pub select_count: u32,
    pub diagnostics: u32,
}

#[derive(Clone, Copy)]
pub struct Lists {
    // A flag, as in the written walk: where it is set, lists and level stay as they are, and an Err would lose them.
    pub over: bool,
    pub ends: Ends,
}

#[derive(Clone, Copy)]
pub enum Code {
    NyiDisjunction = 1,
    NyiFactField,
    NyiNever,
    NyiRepeatedVariable,
    NyiValueField,
    NyiValueMatch,
    NyiWholeKey,
    RejectTypeMismatch,
    RejectUnionArity,
    RejectUnknownAlternative,
    RejectUnresolvedAccess,
}

// How many records a count's two bytes hold.
const COUNT_LIMIT: u32 = 65535;

// The tables that tell where a name was bound: for each name its binding's number, and for each number its record's place.
const NAMES: usize = 32768;

const PLACES: usize = 33792;

const NAME_LIMIT: usize = 512;

fn stopped(l: Lists) -> Lists
    ensures { result ≡ overrun l }
{
    let mut r = l;
    r.over = true;
    r
}

fn code_number(code: Code) -> u8
    ensures { result ≡ code_number (code_of code) }
{
    code as u8
}

// Appends a diagnostic, below the others.
pub fn report(work: &mut [u8], l: Lists, node: usize, code: Code) -> Lists
    ensures { (lv : Level) (tg : Target) (p : List ℕ) → (
        let before = state_with l lv tg work.old p in
        let after = state_with result lv tg work.new p in
        after ≡ Ops.report node (code_of code) before
        ) }
{
    if l.over {
        return l;
    }
    let mut ends = l.ends;
    let top = ends.diagnostics as usize;
    if ends.selects as usize + 3 > top {
        return stopped(l);
    }
    let at = top - 3;
    put16(work, at, node);
    put8(work, at + 2, code_number(code));
    ends.diagnostics = at as u32;
    let mut r = l;
    r.ends = ends;
    r
}

// Appends a constrained name, below the others.
pub fn constrained(work: &mut [u8], l: Lists, name: usize) -> Lists
    ensures { (lv : Level) (tg : Target) (p : List ℕ) → (
        let before = state_with l lv tg work.old p in
        let after = state_with result lv tg work.new p in
        after ≡ Ops.constrained name before
        ) }
{
    if l.over {
        return l;
    }
    let mut ends = l.ends;
    let top = ends.constrained as usize;
    if ends.bindings as usize + 2 > top {
        return stopped(l);
    }
    let at = top - 2;
    put16(work, at, name);
    ends.constrained = at as u32;
    let mut r = l;
    r.ends = ends;
    r
}

// Appends a select.
pub fn select(work: &mut [u8], l: Lists, address: Address, path: FieldPath, disc: u32) -> Lists
    ensures { (lv : Level) (tg : Target) (p : List ℕ) → (
        let before = state_with l lv tg work.old p in
        let after = state_with result lv tg work.new p in
        after ≡ Ops.select address.0 (path_of path) disc before
        ) }
{
    if l.over {
        return l;
    }
    let mut ends = l.ends;
    let count = ends.select_count;
    if count >= COUNT_LIMIT {
        return stopped(l);
    }
    let at = ends.selects as usize;
    let end = at + path_size(path) + 6;
    if end > ends.diagnostics as usize {
        return stopped(l);
    }
    put16(work, at, usize::from(address.0));
    let q = put_path(work, at + 2, path);
    put32(work, q, disc);
    ends.selects = end as u32;
    ends.select_count = count + 1;
    let mut r = l;
    r.ends = ends;
    r
}

// A predicate's number, or FFFF for none.
fn predicate_number(p: Option<PredicateId>) -> usize
    ensures { result ≡ unwrap_or (predicate_option p) 65535 }
{
    p.map_or(65535, |id| usize::from(id.0))
}

fn slot_size(slot: Slot) -> usize
    ensures { (result ≡ length (Plan.slot (slot_of slot))) × (result ≤ 5 + longest_path) }
{
    let kind = slot.kind;
    match kind {
        SlotKind::Row(_, _) | SlotKind::Key(_, _) | SlotKind::Value(_, _) => 5,
        SlotKind::Derived(_) | SlotKind::Const(_) => 3,
        SlotKind::Field(_, _) => 5 + path_size(slot.path),
    }
}

// A kind, and one number or two. The kind is the plan's own byte and is written as it is.
fn put_one(work: &mut [u8], at: usize, kind: u8, a: usize)
    requires { at ≤ 2 * reach }
    ensures { work.new ≡ put work.old at (kind ∷ Plan.u16 a) }
{
    put8(work, at, kind);
    put16(work, at + 1, a);
}

fn put_two(work: &mut [u8], at: usize, kind: u8, a: usize, b: usize)
    requires { at ≤ reach }
    ensures { work.new ≡ put work.old at (kind ∷ Plan.u16 a ++ Plan.u16 b) }
{
    put_one(work, at, kind, a);
    put16(work, at + 3, b);
}

fn put_field(work: &mut [u8], at: usize, address: Address, path: FieldPath, ty: usize)
    requires { at ≤ reach }
    ensures { work.new ≡ put work.old at (3 ∷ Plan.u16 address.0 ++ Plan.path (path_of path) ++ Plan.u16 ty) }
{
    put_one(work, at, 3, usize::from(address.0));
    let q = put_path(work, at + 3, path);
    put16(work, q, ty);
}

fn put_slot(work: &mut [u8], at: usize, slot: Slot)
    requires { at ≤ reach }
    ensures { work.new ≡ put work.old at (Plan.slot (slot_of slot)) }
{
    let kind = slot.kind;
    match kind {
        SlotKind::Row(a, p) => put_two(work, at, 0, usize::from(a.0), predicate_number(p)),
        SlotKind::Key(a, t) => put_two(work, at, 1, usize::from(a.0), t),
        SlotKind::Derived(a) => put_one(work, at, 2, usize::from(a.0)),
        SlotKind::Field(a, t) => put_field(work, at, a, slot.path, t),
        SlotKind::Value(a, t) => put_two(work, at, 4, usize::from(a.0), t),
        SlotKind::Const(n) => put_one(work, at, 5, n),
    }
}

// Notes the n-th binding in the tables: its name's number, and where its record begins.
fn note(work: &mut [u8], name: usize, n: usize, at: usize)
    requires { n ≤ reach }
    ensures { work.new ≡ noted name n at work.old }
{
    put16(work, NAMES + 2 * (name % NAME_LIMIT), n);
    put16(work, PLACES + 2 * n, at);
}

// Appends a binding.
pub fn bind(work: &mut [u8], l: Lists, name: usize, slot: Slot) -> Lists
    ensures { (lv : Level) (tg : Target) (p : List ℕ) → (
        let before = state_with l lv tg work.old p in
        let after = state_with result lv tg work.new p in
        after ≡ Ops.bind name (slot_of slot) before
        ) }
{
    if l.over {
        return l;
    }
    let mut ends = l.ends;
    let count = ends.binding_count;
    if count >= COUNT_LIMIT {
        return stopped(l);
    }
    let at = ends.bindings as usize;
    let end = at + 2 + slot_size(slot);
    if end > ends.constrained as usize {
        return stopped(l);
    }
    put16(work, at, name);
    put_slot(work, at + 2, slot);
    note(work, name, count as usize, at);
    ends.bindings = end as u32;
    ends.binding_count = count + 1;
    let mut r = l;
    r.ends = ends;
    r
}

// The bytes after the kind of a slot that is no field.
fn plain_size(k: usize) -> usize
    ensures { result ≡ get_or plain_sizes k 4 }
{
    match k {
        2 | 5 => 2,
        _ => 4,
    }
}

fn field_end(bytes: &[u8], p: usize) -> usize
    requires { (p + 3 ≤ length bytes.now) × (get_or bytes.now (p + 2) 0 ≡ 3) }
    ensures { result ≡ end_of (step_at bytes.now binding p) }
{
    let left = bytes.len() - p;
    if left < 8 {
        return 0;
    }
    let n = 10 + 4 * usize::from(bytes[p + 7]);
    if n > left {
        return 0;
    }
    p + n
}

// Where the binding at p ends, or 0 where none is read.
fn end_at(bytes: &[u8], p: usize) -> usize
    requires { p ≤ length bytes.now }
    ensures { result ≡ end_of (step_at bytes.now binding p) }
{
    let left = bytes.len() - p;
    if left < 3 {
        return 0;
    }
    let k = usize::from(bytes[p + 2]);
    if k == 3 {
        return field_end(bytes, p);
    }
    if k > 5 {
        return 0;
    }
    let n = 3 + plain_size(k);
    if n > left {
        return 0;
    }
    p + n
}

// Whether a binding of the name stands at p: a whole one, not its name alone, since the tables are never cleared and can lead anywhere.
fn named_at(bytes: &[u8], p: usize, name: usize) -> bool
    ensures { result ≡ named_at bytes.now p name }
{
    if bytes.len() < p {
        return false;
    }
    end_at(bytes, p) != 0 && word_at(bytes, p) == name
}

// Where the record of a name's binding begins, if the walks have bound the name: as the tables have it.
fn made_place(work: &[u8], count: usize, name: usize) -> Option<usize>
    ensures shows { let bytes = work.now in
        SeenAt bytes (made_slot bytes count name) result }
    ensures place { result ≡ made_place work.now count name }
{
    let n = word_in(work, NAMES + 2 * (name % NAME_LIMIT));
    if n >= count {
        return None;
    }
    let p = word_in(work, PLACES + 2 * n);
    if named_at(work, p, name) {
        return Some(p);
    }
    None
}

fn register_at(bytes: &[u8], p: usize) -> Address
    requires { p + 2 ≤ length bytes.now }
    ensures { result.0 ≡ word bytes.now p }
{
    Address(word_at(bytes, p) as u16)
}

fn predicate_from(bytes: &[u8], p: usize) -> Option<PredicateId>
    requires { p + 2 ≤ length bytes.now }
    ensures { result ≡ predicate_maybe (word bytes.now p) }
{
    let n = word_at(bytes, p);
    if n == 65535 {
        None
    } else {
        Some(PredicateId(n as u16))
    }
}

// The type after a path.
fn past_path(bytes: &[u8], at: usize) -> usize
    requires { at + 3 + 4 * get_or bytes.now (at + 2) 0 + 2 ≤ length bytes.now }
    ensures { result ≡ word bytes.now (at + 3 + 4 * get_or bytes.now (at + 2) 0) }
{
    word_at(bytes, at + 3 + 4 * usize::from(bytes[at + 2]))
}

// The slot of the binding that stands at at.
fn slot_at(bytes: &[u8], at: usize) -> SlotView
    requires { Readable bytes.now at }
    ensures shows { SeenView bytes.now (slot_from bytes.now at) result }
    ensures view { result ≡ slot_view bytes.now (at + 2) }
{
    let q = at + 2;
    let p = q + 1;
    match bytes[q] {
        0 => SlotView::Row(register_at(bytes, p), predicate_from(bytes, p + 2)),
        1 => SlotView::Key(register_at(bytes, p), word_at(bytes, p + 2)),
        2 => SlotView::Derived(register_at(bytes, p)),
        3 => SlotView::Field(register_at(bytes, p), p + 2, past_path(bytes, p + 2)),
        4 => SlotView::Value(register_at(bytes, p), word_at(bytes, p + 2)),
        _ => SlotView::Const(word_at(bytes, p)),
    }
}

// The slot that the walks have bound a name to.
fn made_slot(work: &[u8], count: usize, name: usize) -> Option<SlotView>
    ensures shows { let bytes = work.now in
        SeenSlot bytes (made_slot bytes count name) result }
    ensures view { result ≡ view_at work.now (made_place work.now count name) }
{
    if let Some(p) = made_place(work, count, name) {
        Some(slot_at(work, p))
    } else {
        None
    }
}

// Whether n is a number of section s.
fn numbered(file: &AcceptedFile, s: Section, n: usize) -> bool
    ensures { result ≡ ltb n (size_of (accepted_tables file.now) (number_of s)) }
{
    n < file.tables.count_of(s)
}

fn predicate_in(file: &AcceptedFile, p: Option<PredicateId>) -> bool
    ensures { result ≡ none_or (is_predicate (accepted_tables file.now)) (predicate_option p) }
{
    match p {
        None => true,
        Some(id) => numbered(file, Section::Predicates, usize::from(id.0)),
    }
}

// Whether the path at at has room for the steps below a type.
fn path_fits(file: &AcceptedFile, bytes: &[u8], at: usize, t: usize) -> bool
    requires { PathInside bytes.now at }
    ensures { let T = accepted_tables file.now in
        let steps = (path_at bytes.now at).steps in
        result ≡ both (is_type T t) (leb (length steps + depth T t) depth_limit) }
{
    numbered(file, Section::Types, t)
        && usize::from(bytes[at + 2]) + usize::from(file.tables.index[DEPTHS + t]) <= DEPTH_LIMIT
}

// Whether a slot's numbers are the file's, and its path has room.
fn slot_fits(file: &AcceptedFile, bytes: &[u8], v: SlotView) -> bool
    requires { SlotInside bytes.now v }
    ensures { result ≡ fits_tables (accepted_tables file.now) (Views.slot_viewed bytes.now v) }
{
    match v {
        SlotView::Row(_, p) => predicate_in(file, p),
        SlotView::Key(_, t) => numbered(file, Section::Types, t),
        SlotView::Field(_, at, t) => path_fits(file, bytes, at, t),
        SlotView::Derived(_) | SlotView::Value(_, _) | SlotView::Const(_) => true,
    }
}

// The slot of a view, by value.
fn slot_of(bytes: &[u8], v: SlotView) -> Slot
    requires slot_inside { SlotInside bytes.now v }
    requires short_slot { ShortSlot bytes.now v }
    ensures { Stands (Views.slot_viewed bytes.now v) result }
{
    match v {
        SlotView::Row(a, p) => Slot::plain(SlotKind::Row(a, p)),
        SlotView::Key(a, t) => Slot::plain(SlotKind::Key(a, t)),
        SlotView::Derived(a) => Slot::plain(SlotKind::Derived(a)),
        SlotView::Field(a, at, t) => Slot::field(a, path_at(bytes, at), t),
        SlotView::Value(a, t) => Slot::plain(SlotKind::Value(a, t)),
        SlotView::Const(n) => Slot::plain(SlotKind::Const(n)),
    }
}

// The slot of a view, if it fits.
fn fitted(file: &AcceptedFile, bytes: &[u8], v: SlotView) -> Option<Slot>
    requires { SlotInside bytes.now v }
    ensures { let T = accepted_tables file.now in
        IsSlot (checked_slot T (Some (Views.slot_viewed bytes.now v))) result }
{
    if !slot_fits(file, bytes, v) {
        return None;
    }
    Some(slot_of(bytes, v))
}

// The file's own slot of a name.
fn own_slot(file: &AcceptedFile, name: usize) -> Option<Slot>
    ensures { let T = accepted_tables file.now in
        IsSlot (checked_slot T (Constant.lookup T.bindings name)) result }
{
    let v = tables::lookup(file, name)?;
    fitted(file, file.tables.bytes, v)
}

// The slot of a name: the one that the walks have bound it to, else the file's own.
pub fn lookup(file: &AcceptedFile, work: &[u8], l: Lists, name: usize) -> Option<Slot>
    ensures { (lv : Level) (tg : Target) (p : List ℕ) → (
        let T = accepted_tables file.now in
        let before = state_with l lv tg work.now p in
        IsSlot ((ops T).lookup before name) result
        ) }
{
    let ends = l.ends;
    let count = ends.binding_count as usize;
    if let Some(v) = made_slot(work, count, name) {
        fitted(file, work, v)
    } else {
        own_slot(file, name)
    }
}
