// What a level brings to a type that gives it no bytes: decided by node and type, before any level is walked. It writes nothing and asks no
// list.
#![tactic(auto)]

ghost use Rattle.std.specs.Prelude.{◌≡◌, true, [], ℕ, ◌+◌, ◌*◌, ◌≤◌, ◌<◌, length, take, Some, unwrap_or};
ghost use Rattle.rules.specs.File.{type_at, is_constant, record_ty};
ghost use Rattle.rules.specs.Literals.{hoisted_const, folded, any_field, lacks_bytes, brought_meets, meets};
ghost use Rattle.rules.specs.Literals.{whole_meets, key_meets, level_meets, levels_meet};
ghost use Rattle.rules.specs.Constant.{constant};
ghost use Rattle.file.specs.Tables.{tables_of};
ghost use Rattle.views.specs.Files.{tables_in};
ghost use Rattle.views.specs.Views.{run, pattern_at, alternative_at, level_entry_at};
ghost use Rattle.accepted_file.specs.Tables.{accepted_tables};
ghost use Rattle.field_cases.specs.Pieces.{patterns_of, fields_for};
ghost use Rattle.literals.specs.Constants.{has_constant};
ghost use Rattle.literals.specs.Chains.{leaf_const, const_up, climb_const};
ghost use Rattle.literals.specs.Steps.{brought_step, payload_step, record_step, standing_step, field_step, went, StepIn, Met};

use accepted_file::AcceptedFile;
use constant::has_bytes;
use field_cases::{pairs_of, piece_at, pieces};
use fields::{folded_field, hoisted_name};
use file::{NODE_LIMIT, Section};
use resolve::{Chain, SHORT_TRAIL, constant_node, descend};
use tables::{Fate, alternative_of, const_of, is_constant, recall_any, record_ty};
use views::{IndexedFile, NodeView, TypeView, field_pattern_at};

// What a pattern comes to at a type: it is known, or it is what the fields of a Record come to, or a union's payload.
#[derive(Clone, Copy)]
pub enum Step {
    Known(bool),
    Fields(usize),
    Payload(usize, usize),
}

// The Const that a hoisted node's name is bound to.
fn hoisted_const(file: &AcceptedFile, node: usize) -> Option<usize>
    ensures { result ≡ hoisted_const (accepted_tables file.now) node }
{
    let x = hoisted_name(&file.tables, node)?;
    const_of(file, x)
}

// The constant that a node stands for, if it reads of no other node.
fn leaf_const(file: &AcceptedFile, node: usize) -> Option<usize>
    ensures { result ≡ leaf_const (accepted_tables file.now) node }
{
    if constant_node(file, node) {
        return Some(node);
    }
    match file.tables.node_of(node) {
        NodeView::Var(x) => const_of(file, x),
        NodeView::Fact(p, n) => hoisted_const(file, node),
        _ => None,
    }
}

// What a node gives of the constant that the node below it stands for: its field, where it is a key Access.
fn const_up(file: &IndexedFile, node: usize, below: usize) -> Option<usize>
    ensures { result ≡ const_up (tables_in file.now) node below }
{
    if let NodeView::Access(x, n) = file.node_of(node) {
        folded_field(file, below, x)
    } else {
        None
    }
}

// Goes up a chain of reads again, from the constant at its end.
fn climb(file: &IndexedFile, trail: &[u16], passed: usize, end: Option<usize>) -> Option<usize>
    requires { passed ≤ length trail.now }
    ensures { let T = tables_in file.now in
        result ≡ climb_const T (take passed trail.now) end }
{
    let mut below = end;
    for k in (0..passed).rev() {
        let Some(c) = below else {
            return None;
        };
        below = const_up(file, usize::from(trail[k]), c);
    }
    below
}

// The constant at a chain's end, and up again from there.
fn folded_up(file: &AcceptedFile, trail: &[u16], chain: Chain) -> Option<usize>
    requires { chain.passed ≤ length trail.now }
    ensures { let T = accepted_tables file.now in
        result ≡ climb_const T (take chain.passed trail.now) (leaf_const T chain.node) }
{
    let end = leaf_const(file, chain.node);
    climb(&file.tables, trail, chain.passed, end)
}

// A chain of any length: a file has no more nodes than the trail has places. This and the next stay two for the reason that resolve gives.
fn folded_long(file: &AcceptedFile, node: usize) -> Option<usize>
    ensures { result ≡ folded (accepted_tables file.now) node }
{
    // No heap: on the stack.
    let mut trail = [0u16; NODE_LIMIT];
    let chain = descend(file, node, &mut trail);
    folded_up(file, &trail, chain)
}

// The constant that a read stands for. Nearly every chain of reads is short, and is done with a short trail.
fn folded_read(file: &AcceptedFile, node: usize) -> Option<usize>
    ensures { result ≡ folded (accepted_tables file.now) node }
{
    // No heap: on the stack.
    let mut trail = [0u16; SHORT_TRAIL];
    let chain = descend(file, node, &mut trail);
    if chain.passed == SHORT_TRAIL {
        return folded_long(file, node);
    }
    folded_up(file, &trail, chain)
}

// The constant that a pattern stands for: of all patterns only an Access has that of another node.
fn folded(file: &AcceptedFile, node: usize) -> Option<usize>
    ensures { result ≡ folded (accepted_tables file.now) node }
{
    if let NodeView::Access(x, n) = file.tables.node_of(node) {
        folded_read(file, node)
    } else {
        leaf_const(file, node)
    }
}

// Whether a type gives a constant no bytes.
pub fn lacks_bytes(file: &AcceptedFile, node: usize, ty: usize) -> bool
    requires node_value { is_constant (accepted_tables file.now) node ≡ true }
    requires ty_in_bounds { ty < length (accepted_tables file.now).types }
    ensures { result ≡ lacks_bytes (constant (accepted_tables file.now) node ty) }
{
    !has_bytes(file, node, ty)
}

// A constant that is brought to a type otherwise than as a Record written at a Union: a Record at a Record is opened.
fn brought(file: &AcceptedFile, node: usize, ty: usize) -> Step
    requires node_value { is_constant (accepted_tables file.now) node ≡ true }
    requires ty_in_bounds { ty < length (accepted_tables file.now).types }
    ensures { result ≡ brought_step (accepted_tables file.now) node ty }
{
    let Some((n, at)) = pairs_of(&file.tables, node) else {
        return Step::Known(lacks_bytes(file, node, ty));
    };
    let Some((k, from)) = record_ty(&file.tables, ty) else {
        return Step::Known(lacks_bytes(file, node, ty));
    };
    Step::Fields(node)
}

// A Record of n pairs written at a Union of k alternatives.
fn payload(file: &[u8], n: usize, at: usize, k: usize, from: usize) -> Step
    requires { (at + 4 * n ≤ length file.now) × (from + 8 * k ≤ length file.now) }
    ensures { let f = file.now in
        result ≡ payload_step (run (pattern_at f) 4 n at) (run (alternative_at f) 8 k from) }
{
    if n != 1 {
        return Step::Known(false);
    }
    let p = field_pattern_at(file, at, 0);
    match alternative_of(file, from, k, p.name) {
        None => Step::Known(false),
        Some(a) => Step::Payload(p.node, a.ty),
    }
}

// A Record of n pairs that is written at a type.
fn written(file: &AcceptedFile, node: usize, ty: usize, n: usize, at: usize) -> Step
    requires n_in_bounds { at + 4 * n ≤ length file.now.tables.bytes.now }
    requires ty_in_bounds { ty < length (accepted_tables file.now).types }
    ensures { let f = file.now.tables.bytes.now in
        let T = tables_of f in
        result ≡ record_step T node (run (pattern_at f) 4 n at) (type_at T ty) }
{
    match file.tables.type_at(ty) {
        TypeView::Record(k, from) => Step::Fields(node),
        TypeView::Union(k, from) => payload(file.tables.bytes, n, at, k, from),
        _ => Step::Known(constant_node(file, node)),
    }
}

// A pattern that is no Record, by the constant that it stands for.
fn standing(file: &AcceptedFile, found: Option<usize>, ty: usize) -> Step
    requires by_index { (c : ℕ) → found ≡ Some c → is_constant (accepted_tables file.now) c ≡ true }
    requires ty_in_bounds { ty < length (accepted_tables file.now).types }
    ensures { result ≡ standing_step (accepted_tables file.now) ty (found) }
{
    match found {
        None => Step::Known(false),
        Some(c) => brought(file, c, ty),
    }
}

// A pattern at a type. Its kind is looked at once: a Record is opened, an Access is read along its chain, any other stands by itself.
fn step_at(file: &AcceptedFile, node: usize, ty: usize) -> Step
    requires { ty < length (accepted_tables file.now).types }
    ensures { result ≡ field_step (accepted_tables file.now) node ty }
{
    match file.tables.node_of(node) {
        NodeView::Record(n, at) => written(file, node, ty, n, at),
        NodeView::Access(_, _) => standing(file, folded_read(file, node), ty),
        _ => standing(file, leaf_const(file, node), ty),
    }
}

// Goes on from a step at a type: each round descends one type, whose number falls. A match and no closure for each step: the calls are of
// this cycle.
#[cycle(any_field_go_on)]
fn go_on(file: &AcceptedFile, s: Step, ty: usize) -> bool
    requires ty_in_bounds { ty < length (accepted_tables file.now).types }
    requires step_in { StepIn (accepted_tables file.now) ty s }
    ensures { let T = accepted_tables file.now in
        Met T ty (λ below. went T below ty s) result }
{
    match s {
        Step::Known(met) => met,
        Step::Fields(n) => any_field(file, n, ty),
        Step::Payload(n, t) => go_on(file, step_at(file, n, t), t),
    }
}

// Any field of a Record at a Record type, unless it is remembered whether any is met. A loop and no `any`: a field without a pattern is
// passed over, and what is asked of the others is a call of this cycle.
#[cycle(any_field_go_on)]
fn any_field(file: &AcceptedFile, node: usize, ty: usize) -> bool
    requires { ty < length (accepted_tables file.now).types }
    ensures { let T = accepted_tables file.now in
        Met T ty (λ below. any_field below (patterns_of T node) (fields_for T node ty)) result }
{
    let opened = pieces(file, node, ty);
    if opened.count == 0 {
        return false;
    }
    if let Some(fate) = recall_any(&file.tables, node, ty) {
        return fate == Fate::Met;
    }
    for i in 0..opened.count {
        let p = piece_at(file, node, ty, opened, i);
        let t = p.ty;
        let Some(n) = p.pattern else {
            continue;
        };
        if go_on(file, step_at(file, n, t), t) {
            return true;
        }
    }
    false
}

// Whether a constant is met that is brought to a type otherwise than as a Record written at a Union.
pub fn brought_meets(file: &AcceptedFile, node: usize, ty: usize) -> bool
    requires node_value { is_constant (accepted_tables file.now) node ≡ true }
    requires ty_in_bounds { ty < length (accepted_tables file.now).types }
    ensures { let T = accepted_tables file.now in
        result ≡ brought_meets T (meets T) node ty }
{
    go_on(file, brought(file, node, ty), ty)
}

// Any field of a constant Record that is brought to a record key as a whole: a loop as above, by the same lemmas.
fn any_brought(file: &AcceptedFile, node: usize, ty: usize) -> bool
    requires node_value { is_constant (accepted_tables file.now) node ≡ true }
    requires ty_in_bounds { ty < length (accepted_tables file.now).types }
    ensures { let T = accepted_tables file.now in
        result ≡ any_field (brought_meets T (meets T)) (patterns_of T node) (fields_for T node ty) }
{
    let opened = pieces(file, node, ty);
    for i in 0..opened.count {
        let p = piece_at(file, node, ty, opened, i);
        let t = p.ty;
        let Some(n) = p.pattern else {
            continue;
        };
        if go_on(file, brought(file, n, t), t) {
            return true;
        }
    }
    false
}

// A whole record key in one pattern: the constant that it stands for, field by field.
fn whole(file: &AcceptedFile, node: usize, ty: usize) -> bool
    requires { ty < length (accepted_tables file.now).types }
    ensures { let T = accepted_tables file.now in
        result ≡ whole_meets T (folded T node) (unwrap_or (record_ty (type_at T ty)) []) }
{
    let Some(c) = folded(file, node) else {
        return false;
    };
    if let Some((n, at)) = pairs_of(&file.tables, c) {
        any_brought(file, c, ty)
    } else {
        true
    }
}

// A level's key pattern at its key type.
fn key(file: &AcceptedFile, node: usize, ty: usize) -> bool
    requires { ty < length (accepted_tables file.now).types }
    ensures { result ≡ key_meets (accepted_tables file.now) node ty }
{
    let Some((k, from)) = record_ty(&file.tables, ty) else {
        return go_on(file, step_at(file, node, ty), ty);
    };
    if let Some((n, at)) = pairs_of(&file.tables, node) {
        any_field(file, node, ty)
    } else {
        whole(file, node, ty)
    }
}

// Whether level k brings a constant to a type that gives it no bytes.
pub fn level_meets(file: &AcceptedFile, k: usize) -> bool
    requires { k < length (accepted_tables file.now).levels }
    ensures { let T = accepted_tables file.now in
        result ≡ level_meets T (level_entry_at T k) }
{
    let e = file.tables.level_at(k);
    let p = file.tables.predicate_of(e.predicate);
    key(file, e.node, p.key)
}

// Whether any node of the file is constant.
fn has_constant(file: &AcceptedFile) -> bool
    ensures { result ≡ has_constant (accepted_tables file.now) }
{
    (0..file.tables.count_of(Section::Nodes)).any(|k| is_constant(file, k))
}

// Whether any level does: where no node is constant, no constant is brought anywhere.
pub fn levels_meet(file: &AcceptedFile) -> bool
    ensures { let T = accepted_tables file.now in
        result ≡ levels_meet T T.levels }
{
    if !has_constant(file) {
        return false;
    }
    (0..file.tables.count_of(Section::Levels)).any(|k| level_meets(file, k))
}
