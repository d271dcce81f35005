// What a member of the walk's cycle does before it goes on into the cycle: the cycle itself then holds the recursion and nothing else.
#![tactic(auto)]

ghost use Rattle.std.specs.Prelude.{◌≡◌, List, ℕ, ◌<◌, length, None};
ghost use Rattle.rules.specs.Limits.{file_limit};
ghost use Rattle.rules.specs.File as File;
ghost use Rattle.rules.specs.Base.{either};
ghost use Rattle.rules.specs.File.{type_at, node_at, is_constant, record_fields, union_ty};
ghost use Rattle.rules.specs.Walk as WalkRules;
ghost use Rattle.state.specs.State.{State};
ghost use Rattle.state.specs.Ops.{bind, ops};
ghost use Rattle.file.specs.Tables.{tables_of};
ghost use Rattle.views.specs.Files.{tables_in};
ghost use Rattle.paths.specs.Paths.{path_of};
ghost use Rattle.views.specs.Views.{node_entry, pattern_at, predicate_option};
ghost use Rattle.slots.specs.Slots.{slot_of};
ghost use Rattle.accepted_file.specs.Tables.{accepted_tables};
ghost use Rattle.tables.specs.Tables.{pairs_in, SeenRun};
ghost use Rattle.tables.specs.Recalled.{quiet_in};
ghost use Rattle.walk.specs.Walk.{walk_state};
ghost use Rattle.field_cases.specs.Pieces.{no_places, Opened, Pieced};
ghost use Rattle.field_cases.specs.FieldCases.{is_injection, literal_way, way_at, is_skip, walked_pattern, meeting};
ghost use Rattle.field_cases.specs.FieldCases.{choosing_of, alternative_choice, choosing};
ghost use Rattle.field_cases.specs.Silent.{empty_at};

use accepted_file::AcceptedFile;
use constrain::{constrain, known, narrow};
use fields::fact_ty;
use lists::Code;
use paths::{Address, FieldPath, PredicateId};
use resolve::constant_node;
use slots::{Slot, SlotKind};
use tables::{alternative_of, field_pattern, is_quiet, record_ty, union_ty};
use views::{IndexedFile, NodeView, field_pattern_at, field_ty_at};
use walk::Walk;

// How `field` goes on, by the pattern's kind: a union value, a skip, a diagnostic with a skip, a range or a guide, a constant, a variable
// of a name, or a read.
#[derive(Clone, Copy)]
pub enum Way {
    Union,
    Skip,
    Report(Code),
    Range,
    Constant,
    Variable(usize),
    Read,
}

// The alternative that `inject` goes on with: its disc, its payload's pattern and type.
#[derive(Clone, Copy)]
pub struct Choice {
    pub disc: u32,
    pub node: usize,
    pub ty: usize,
}

#[derive(Clone, Copy)]
pub struct Chosen {
    pub choice: Option<Choice>,
    pub walk: Walk,
}

// Where the type's fields and the pattern's pairs stand in the file, and how many there are, of a Record that is opened.
#[derive(Clone, Copy)]
pub struct Places {
    pub count: usize,
    pub pairs: usize,
    pub at: usize,
    pub from: usize,
}

// A field's type, and the pattern that it is given.
#[derive(Clone, Copy)]
pub struct Piece {
    pub pattern: Option<usize>,
    pub ty: usize,
}

// A Record's pairs, of any node.
pub fn pairs_of(file: &IndexedFile, node: usize) -> Option<(usize, usize)>
    ensures shows { let f = file.now.bytes.now in
        SeenRun f (pattern_at f) 4 (record_fields (node_at (tables_of f) node)) result }
    ensures view { let f = file.now.bytes.now in
        result ≡ pairs_in (node_entry (tables_of f) f file.now.index.now node) }
{
    if let NodeView::Record(k, at) = file.node_of(node) {
        Some((k, at))
    } else {
        None
    }
}

// Nothing is opened.
fn closed() -> Places
    ensures { result ≡ no_places }
{
    Places {
        count: 0,
        pairs: 0,
        at: 0,
        from: 0,
    }
}

// The fields that are walked of a Record against a Record type; none of anything else.
pub fn pieces(file: &AcceptedFile, node: usize, ty: usize) -> Places
    requires { ty < length (accepted_tables file.now).types }
    ensures opens { Opened file.now.tables.bytes.now (accepted_tables file.now) node ty result }
    ensures bounded { result.count < file_limit }
{
    let Some((pairs, at)) = pairs_of(&file.tables, node) else {
        return closed();
    };
    if let Some((count, from)) = record_ty(&file.tables, ty) {
        Places {
            count,
            pairs,
            at,
            from,
        }
    } else {
        closed()
    }
}

// Field i of those.
pub fn piece_at(file: &AcceptedFile, node: usize, ty: usize, opened: Places, i: usize) -> Piece
    requires ty_in_bounds { ty < length (accepted_tables file.now).types }
    requires opened { Opened file.now.tables.bytes.now (accepted_tables file.now) node ty opened }
    requires i_lt_count { i < opened.count }
    ensures { Pieced (accepted_tables file.now) node ty i result }
{
    let f = field_ty_at(file.tables.bytes, opened.from, i);
    let pattern = field_pattern(file.tables.bytes, opened.at, opened.pairs, f.name);
    Piece { pattern, ty: f.ty }
}

// Whether a node is a Record without pairs, and the type a Record with a field: the type is read only of a Record without pairs.
fn is_empty_at(file: &IndexedFile, node: usize, ty: usize) -> bool
    requires { ty < length (tables_in file.now).types }
    ensures { result ≡ empty_at (tables_in file.now) node ty }
{
    let Some((pairs, _)) = pairs_of(file, node) else {
        return false;
    };
    if pairs > 0 {
        return false;
    }
    let Some((count, _)) = record_ty(file, ty) else {
        return false;
    };
    count > 0
}

// Whether a field's pattern is known to give nothing but a skip before it is walked: a constant that is remembered to, or a Record that
// is opened for no piece.
pub fn is_silent(file: &AcceptedFile, node: usize, ty: usize) -> bool
    requires { ty < length (accepted_tables file.now).types }
    ensures { let T = accepted_tables file.now in
        result ≡ either (quiet_in T file.now.tables.index.now node ty) (empty_at T node ty) }
{
    is_quiet(file, node, ty) || is_empty_at(&file.tables, node, ty)
}

// The kinds that another phase reports.
fn is_deferred(file: &IndexedFile, node: usize) -> bool
    ensures { result ≡ WalkRules.deferred (node_at (tables_in file.now) node) }
{
    matches!(
        file.node_of(node),
        NodeView::Never | NodeView::Disjunction | NodeView::Subquery | NodeView::Error
    )
}

// A read that gave no slot is reported where nothing else told why: `mark` is where the diagnostics ended before it.
pub fn unresolved(file: &IndexedFile, work: &mut [u8], node: usize, mark: u32, w: Walk) -> Walk
    ensures { (plan : List ℕ) (earlier : State) → earlier.ends.diagnostics ≡ mark →
        let T = tables_in file.now in
        let before = walk_state T w work.old plan in
        let after = walk_state T result work.new plan in
        after ≡ WalkRules.unresolved (ops T) T node earlier before }
{
    let ends = w.ends;
    if !is_deferred(file, node) && ends.diagnostics == mark {
        return w.diagnose(work, node, Code::RejectUnresolvedAccess, true);
    }
    w.skip()
}

// A new variable: bound to the field, then constrained.
pub fn captured(
    file: &AcceptedFile,
    work: &mut [u8],
    plan: &mut [u8],
    name: usize,
    ty: usize,
    address: Address,
    path: FieldPath,
    w: Walk,
) -> Walk
    requires { ty < length (accepted_tables file.now).types }
    ensures { let T = accepted_tables file.now in
        let before = walk_state T w work.old plan.old in
        let after = walk_state T result work.new plan.new in
        let slot = File.Slot.Field address.0 (path_of path) ty in
        after ≡ WalkRules.constrain (ops T) T name ty (path_of path) (bind name slot before) }
{
    let slot = Slot::field(address, path, ty);
    let b = w.bind(work, name, slot);
    constrain(file, work, plan, name, ty, path, b)
}

// Whether a pattern is a union value: a Record where the field is a union.
fn is_injection(file: &IndexedFile, node: usize, ty: usize) -> bool
    requires { ty < length (tables_in file.now).types }
    ensures { let T = tables_in file.now in
        result ≡ is_injection (record_fields (node_at T node)) (union_ty (type_at T ty)) }
{
    let Some((_, _)) = pairs_of(file, node) else {
        return false;
    };
    matches!(union_ty(file, ty), Some((_, _)))
}

// A constant is its own location; anything else is read.
fn literal_way(file: &AcceptedFile, node: usize) -> Way
    ensures { result ≡ literal_way (is_constant (accepted_tables file.now) node) }
{
    if constant_node(file, node) {
        Way::Constant
    } else {
        Way::Read
    }
}

// How `field` goes on with a pattern at a type.
pub fn way_of(file: &AcceptedFile, node: usize, ty: usize) -> Way
    requires { ty < length (accepted_tables file.now).types }
    ensures { result ≡ way_at (accepted_tables file.now) node ty }
{
    if is_injection(&file.tables, node, ty) {
        return Way::Union;
    }
    match file.tables.node_of(node) {
        NodeView::Var(x) => Way::Variable(x),
        NodeView::Wildcard => Way::Skip,
        NodeView::Never => Way::Report(Code::NyiNever),
        NodeView::Prefix(_) => Way::Range,
        NodeView::Fuzzy(_, _, _) => Way::Range,
        NodeView::Disjunction => Way::Report(Code::NyiDisjunction),
        _ => literal_way(file, node),
    }
}

fn is_skip(way: Way) -> bool
    ensures { result ≡ is_skip way }
{
    matches!(way, Way::Skip)
}

// The pattern of a field that a record key walks into: a Wildcard closes the seek, as a field does that no pattern names.
pub fn walked_pattern(file: &AcceptedFile, pattern: Option<usize>, ty: usize) -> Option<usize>
    requires { ty < length (accepted_tables file.now).types }
    ensures { result ≡ walked_pattern (accepted_tables file.now) ty (pattern) }
{
    let Some(n) = pattern else {
        return None;
    };
    if is_skip(way_of(file, n, ty)) {
        None
    } else {
        Some(n)
    }
}

// Whether a row's predicate is the one that a field refers to.
fn refers_to(p: Option<PredicateId>, referenced: Option<PredicateId>) -> bool
    ensures { result ≡ WalkRules.refers_to (predicate_option p) (predicate_option referenced) }
{
    match (p, referenced) {
        (Some(a), Some(b)) => a == b,
        _ => false,
    }
}

// `matched`, by the slot's kind; a constant leaves the walk as it is. A row matches a field that refers to its own predicate, which is a
// join through a reference. Of the level's own register, the row at hand, two fields are asked to be equal. Each arm hands the walk to one
// call only.
pub fn meet(
    file: &AcceptedFile,
    work: &mut [u8],
    plan: &mut [u8],
    node: usize,
    slot: Slot,
    ty: usize,
    address: Address,
    path: FieldPath,
    w: Walk,
) -> Walk
    requires { ty < length (accepted_tables file.now).types }
    ensures { let T = accepted_tables file.now in
        let before = walk_state T w work.old plan.old in
        let after = walk_state T result work.new plan.new in
        after ≡ meeting T address.0 node (slot_of slot) ty (path_of path) before }
{
    let kind = slot.kind;
    let at = slot.path;
    match kind {
        SlotKind::Row(a, p) => {
            if refers_to(p, fact_ty(&file.tables, ty)) {
                return w.fact_id(path, a, node, plan);
            }
            w.diagnose(work, node, Code::RejectTypeMismatch, false)
        }
        SlotKind::Key(_, _) => w.diagnose(work, node, Code::NyiWholeKey, true),
        SlotKind::Derived(_) => w.diagnose(work, node, Code::NyiValueMatch, true),
        SlotKind::Field(a, _) => {
            if a == address {
                return w.own_field(path, at, node, plan);
            }
            w.register_field(path, a, at, node, plan)
        }
        SlotKind::Value(_, _) => w.diagnose(work, node, Code::NyiValueMatch, false),
        SlotKind::Const(_) => w,
    }
}

fn unchosen(w: Walk) -> Chosen
    ensures { result ≡ record { choice = None; walk = w } }
{
    Chosen {
        choice: None,
        walk: w,
    }
}

// The alternative that the one pair of a union value names.
fn choose_alternative(
    file: &AcceptedFile,
    work: &mut [u8],
    node: usize,
    ty: usize,
    w: Walk,
) -> Chosen
    requires { ty < length (accepted_tables file.now).types }
    ensures { (plan : List ℕ) →
        let T = accepted_tables file.now in
        let before = walk_state T w work.old plan in
        let after = walk_state T result.walk work.new plan in
        choosing_of result after ≡ alternative_choice (record_fields (node_at T node)) (union_ty (type_at T ty)) node before }
{
    let Some((k, at)) = pairs_of(&file.tables, node) else {
        return unchosen(w);
    };
    let Some((m, from)) = union_ty(&file.tables, ty) else {
        return unchosen(w);
    };
    if k != 1 {
        return unchosen(w.diagnose(work, node, Code::RejectUnionArity, true));
    }
    let p = field_pattern_at(file.tables.bytes, at, 0);
    let Some(a) = alternative_of(file.tables.bytes, from, m, p.name) else {
        return unchosen(w.diagnose(work, node, Code::RejectUnknownAlternative, true));
    };
    let choice = Choice {
        disc: a.disc,
        node: p.node,
        ty: a.ty,
    };
    Chosen {
        choice: Some(choice),
        walk: w,
    }
}

// `inject`: the whole union's constant, or else the alternative that is walked.
pub fn choose(
    file: &AcceptedFile,
    work: &mut [u8],
    plan: &mut [u8],
    node: usize,
    ty: usize,
    path: FieldPath,
    w: Walk,
) -> Chosen
    requires { ty < length (accepted_tables file.now).types }
    ensures { let T = accepted_tables file.now in
        let before = walk_state T w work.old plan.old in
        let after = walk_state T result.walk work.new plan.new in
        choosing_of result after ≡ choosing T node ty (path_of path) before }
{
    let c = known(file, node, ty);
    if c.is_none() {
        return choose_alternative(file, work, node, ty, w);
    }
    unchosen(narrow(file, plan, node, c, path, w))
}
