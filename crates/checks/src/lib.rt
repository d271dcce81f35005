// The whole-file checks 11 to 14 and the verdict on a file. The depth of each type and the constancy of each node are computed once,
// bottom up, and kept in the index, with the number of each name's last binding. What fills the index takes bytes and index as two slices.
#![tactic(auto)]

ghost use Rattle.std.specs.Prelude.{◌≡◌, true, false, ◌∷◌, [], ◌+◌, ◌≤◌, ◌<◌, max, length, get_or, drop, replicate, ltb, OnOk};
ghost use Rattle.std.proofs.lemmas.List.Edits.{sets};
ghost use Rattle.rules.specs.Base.{all, concat_map};
ghost use Rattle.rules.specs.Limits.{file_limit, name_limit, type_limit, node_limit};
ghost use Rattle.rules.specs.File.{type_at, node_at, child_nodes, deepest, depth_of, depths, depth, constant_of, is_constant};
ghost use Rattle.rules.specs.Checks.{numbers_in, children_lower, types_shallow, children_once, slot_constant, consts_constant, slot_fits, paths_fit};
ghost use Rattle.file.specs.Refusals.{numbered};
ghost use Rattle.file.specs.Steps.{word_limit, word, depths_base, constants_base, last_bindings_base, index_length};
ghost use Rattle.file.specs.Tables.{Indexed, tables_of};
ghost use Rattle.views.specs.Files.{tables_in};
ghost use Rattle.views.specs.Views.{run, binding_at};
ghost use Rattle.record_checks.specs.RecordChecks.{Words};
ghost use Rattle.checks.specs.Checked.{bit_of, flags_at, flags_of, once, marked, Filled, Numbered, Checked, slots_fit, fetched_fit, last_bindings, later_fault, all_fault, checked_index, file_verdict, file_index};

use file::{
    CONSTANTS, DEPTH_LIMIT, DEPTHS, LAST_BINDINGS, NODE_LIMIT, Refusal, Section, base, read,
    word_at,
};
use paths::FieldPath;
use record_checks::{children_lower, numbers_in, types_distinct};
use views::{IndexedFile, NodeView, SlotView, TypeView};

// The greatest of the depths of n child types, whose numbers stand from p on, w bytes apart.
fn deepest_of(file: &IndexedFile, t: usize, w: usize, n: usize, p: usize) -> usize
    requires t_le_type_limit { t ≤ type_limit }
    requires words { Words file.now.bytes.now 2 w n p }
    requires p_value { all (λ c. ltb c t) (run (word file.now.bytes.now) w n p) ≡ true }
    ensures gives { let below = drop depths_base file.now.index.now in
        result ≡ deepest below (run (word file.now.bytes.now) w n p) }
    ensures bounded { result < word_limit }
{
    let mut most: usize = 0;
    for k in 0..n {
        let d = usize::from(file.index[DEPTHS + word_at(file.bytes, p + w * k)]);
        most = most.max(d);
    }
    most
}

// The depth of type t, from the depths of the types below it.
fn type_depth(file: &IndexedFile, t: usize) -> usize
    requires t_in_bounds { t < length (tables_in file.now).types }
    requires file_value { children_lower (tables_in file.now) ≡ true }
    ensures { let below = drop depths_base file.now.index.now in
        result ≡ depth_of below (type_at (tables_in file.now) t) }
{
    match file.type_at(t) {
        TypeView::Record(n, at) => 1 + deepest_of(file, t, 4, n, at + 2),
        TypeView::Union(n, at) => 1 + deepest_of(file, t, 8, n, at + 6),
        _ => 1,
    }
}

// The depths of all types, into their area.
fn fill_depths(file: &[u8], index: &mut [u16])
    requires indexed { Indexed file.now index.old }
    requires file_value { children_lower (tables_of file.now) ≡ true }
    ensures { let T = tables_of file.now in
        index.new ≡ sets index.old depths_base (depths T) }
{
    let tables = IndexedFile {
        bytes: file,
        index: &index[..],
    };
    let n = tables.count_of(Section::Types);
    for t in 0..n {
        let tables = IndexedFile {
            bytes: file,
            index: &index[..],
        };
        let d = type_depth(&tables, t);
        index[DEPTHS + t] = d as u16;
    }
}

// Whether each of n child nodes is constant; their numbers stand from p on, four bytes apart.
fn all_constant(file: &IndexedFile, m: usize, n: usize, p: usize) -> bool
    requires m_le_node_limit { m ≤ node_limit }
    requires words { Words file.now.bytes.now 2 4 n p }
    requires p_value { all (λ c. ltb c m) (run (word file.now.bytes.now) 4 n p) ≡ true }
    ensures { let flags = flags_at file.now.index.now in
        result ≡ all (λ c. get_or flags c false) (run (word file.now.bytes.now) 4 n p) }
{
    for k in 0..n {
        if file.index[CONSTANTS + word_at(file.bytes, p + 4 * k)] != 1 {
            return false;
        }
    }
    true
}

// Whether node n is constant, from the constancy of the nodes below it.
fn node_constant(file: &IndexedFile, n: usize) -> bool
    requires n_in_bounds { n < length (tables_in file.now).nodes }
    requires file_value { children_lower (tables_in file.now) ≡ true }
    ensures { let flags = flags_at file.now.index.now in
        result ≡ constant_of flags (node_at (tables_in file.now) n) }
{
    match file.node_at(n) {
        NodeView::Int(_) | NodeView::Str(_) | NodeView::Bytes(_, _) => true,
        NodeView::Record(m, at) => all_constant(file, n, m, at + 2),
        NodeView::Var(_) => false,
        _ => false,
    }
}

// How the index says that a node is constant.
fn bit(b: bool) -> u16
    ensures { result ≡ bit_of b }
{
    u16::from(b)
}

// The constancy of all nodes, into its area.
fn fill_constants(file: &[u8], index: &mut [u16])
    requires indexed { Indexed file.now index.old }
    requires file_value { children_lower (tables_of file.now) ≡ true }
    ensures { let T = tables_of file.now in
        index.new ≡ sets index.old constants_base (flags_of T) }
{
    let tables = IndexedFile {
        bytes: file,
        index: &index[..],
    };
    let m = tables.count_of(Section::Nodes);
    for n in 0..m {
        let tables = IndexedFile {
            bytes: file,
            index: &index[..],
        };
        let b = bit(node_constant(&tables, n));
        index[CONSTANTS + n] = b;
    }
}

// A binding's name alone: its slot is not read.
fn binding_name(file: &IndexedFile, k: usize) -> usize
    requires { k < length (tables_in file.now).bindings }
    ensures { result ≡ (binding_at (tables_in file.now) k).name }
{
    word_at(
        file.bytes,
        usize::from(file.index[base(Section::Bindings) + 1 + k]),
    )
}

// Zero for each of n names: it has no binding so far.
fn clear_last_bindings(index: &mut [u16], n: usize)
    requires { (index_length ≤ length index.old) × (n ≤ name_limit) }
    ensures { index.new ≡ sets index.old last_bindings_base (replicate n 0) }
{
    for x in 0..n {
        index[LAST_BINDINGS + x] = 0;
    }
}

// The last bindings of all names, into their area: a later binding of a name is written over an earlier one.
fn fill_last_bindings(file: &[u8], index: &mut [u16])
    requires indexed { Indexed file.now index.old }
    requires file_value { numbers_in (tables_of file.now) ≡ true }
    ensures { index.new ≡ last_bindings (tables_of file.now) index.old }
{
    let tables = IndexedFile {
        bytes: file,
        index: &index[..],
    };
    let names = tables.count_of(Section::Names);
    let n = tables.count_of(Section::Bindings);
    clear_last_bindings(index, names);
    for k in 0..n {
        let tables = IndexedFile {
            bytes: file,
            index: &index[..],
        };
        let x = binding_name(&tables, k);
        index[LAST_BINDINGS + x] = (k + 1) as u16;
    }
}

// `Filled` and `Numbered` stay clauses: each check asks another fact of one struct; a struct for each would be three types for one file.

// The depth of type t, which stands in the filled index.
pub fn depth_of(file: &IndexedFile, t: usize) -> usize
    requires filled { Filled file.now.bytes.now file.now.index.now }
    requires t_in_bounds { t < length (tables_in file.now).types }
    ensures { result ≡ depth (tables_in file.now) t }
{
    usize::from(file.index[DEPTHS + t])
}

// Whether node n is constant, which stands in the filled index.
// It is kept beside the one in `tables`: here the fact comes from the clause, there from the accepted file. One function would have to ask
// every caller behind the checks for a fact that its file's type has.
pub fn is_constant(file: &IndexedFile, n: usize) -> bool
    requires filled { Filled file.now.bytes.now file.now.index.now }
    requires n_in_bounds { n < length (tables_in file.now).nodes }
    ensures { result ≡ is_constant (tables_in file.now) n }
{
    file.index[CONSTANTS + n] == 1
}

// 11: whether no type is deeper than the limit.
fn types_shallow(file: &IndexedFile) -> bool
    requires { Filled file.now.bytes.now file.now.index.now }
    ensures { result ≡ types_shallow (tables_in file.now) }
{
    (0..file.count_of(Section::Types)).all(|t| depth_of(file, t) <= DEPTH_LIMIT)
}

// 13: whether binding b, if it is a Const, is of a constant node.
fn binding_constant(file: &IndexedFile, b: usize) -> bool
    requires numbered { Numbered file.now.bytes.now file.now.index.now }
    requires b_in_bounds { b < length (tables_in file.now).bindings }
    ensures { let T = tables_in file.now in
        result ≡ slot_constant T (binding_at T b).slot }
{
    let v = file.binding_at(b);
    let slot = v.slot;
    match slot {
        SlotView::Const(n) => is_constant(file, n),
        _ => true,
    }
}

// 13: whether every Const binding is of a constant node.
fn consts_constant(file: &IndexedFile) -> bool
    requires { Numbered file.now.bytes.now file.now.index.now }
    ensures { result ≡ consts_constant (tables_in file.now) }
{
    (0..file.count_of(Section::Bindings)).all(|b| binding_constant(file, b))
}

// 14: whether binding b, if it is a Field, has steps + depth of its type within the limit.
fn binding_fits(file: &IndexedFile, b: usize) -> bool
    requires numbered { Numbered file.now.bytes.now file.now.index.now }
    requires b_in_bounds { b < length (tables_in file.now).bindings }
    ensures { let T = tables_in file.now in
        result ≡ slot_fits T (binding_at T b).slot }
{
    let v = file.binding_at(b);
    let slot = v.slot;
    match slot {
        SlotView::Field(_, at, t) => usize::from(file.bytes[at + 2]) + depth_of(file, t)
            <= DEPTH_LIMIT,
        _ => true,
    }
}

// 14: all bindings.
fn slots_fit(file: &IndexedFile) -> bool
    requires { Numbered file.now.bytes.now file.now.index.now }
    ensures { result ≡ slots_fit (tables_in file.now) }
{
    (0..file.count_of(Section::Bindings)).all(|b| binding_fits(file, b))
}

// 14: whether every fetched path has no more steps than a path holds.
fn fetched_fit(file: &IndexedFile) -> bool
    ensures { result ≡ fetched_fit (tables_in file.now) }
{
    let n = file.count_of(Section::Fetched);
    for k in 0..n {
        let v = file.fetched_at(k);
        let at = v.path;
        if usize::from(file.bytes[at + 2]) > FieldPath::STEP_LIMIT {
            return false;
        }
    }
    true
}

// 14: whether every path has room for the steps below it.
fn paths_fit(file: &IndexedFile) -> bool
    requires { Numbered file.now.bytes.now file.now.index.now }
    ensures { result ≡ paths_fit (tables_in file.now) }
{
    slots_fit(file) && fetched_fit(file)
}

// 12: marks child c; false if it is marked already.
fn mark(marks: &mut [u8], c: usize) -> bool
    requires { c < length marks.old }
    ensures gives { result ≡ once marks.old (c ∷ []) }
    ensures leaves { marks.new ≡ marked marks.old (c ∷ []) }
{
    if marks[c] != 0 {
        return false;
    }
    marks[c] = 1;
    true
}

// 12: marks n children, whose numbers stand from p on, four bytes apart; false at the first that is marked already.
fn mark_run(file: &[u8], marks: &mut [u8], n: usize, p: usize) -> bool
    requires words { Words file.now 2 4 n p }
    requires p_value { all (λ c. ltb c (length marks.old)) (run (word file.now) 4 n p) ≡ true }
    ensures gives { result ≡ once marks.old (run (word file.now) 4 n p) }
    ensures leaves { marks.new ≡ marked marks.old (run (word file.now) 4 n p) }
{
    for k in 0..n {
        let c = word_at(file, p + 4 * k);
        if !mark(marks, c) {
            return false;
        }
    }
    true
}

// 12: marks the children of node n; false at the first that is marked already.
fn mark_children(file: &IndexedFile, marks: &mut [u8], n: usize) -> bool
    requires n_in_bounds { n < length (tables_in file.now).nodes }
    requires n_value { all (λ c. ltb c (length marks.old)) (child_nodes (node_at (tables_in file.now) n)) ≡ true }
    ensures gives { let T = tables_in file.now in
        result ≡ once marks.old (child_nodes (node_at T n)) }
    ensures leaves { let T = tables_in file.now in
        marks.new ≡ marked marks.old (child_nodes (node_at T n)) }
{
    match file.node_at(n) {
        NodeView::Record(m, at) => mark_run(file.bytes, marks, m, at + 2),
        NodeView::Access(_, c) | NodeView::Select(_, c) => mark(marks, c),
        NodeView::Value(c) => mark(marks, c),
        NodeView::Fact(_, c) => mark(marks, c),
        _ => true,
    }
}

// 12: marks the children of all nodes; false at the first that is marked already.
fn mark_nodes(file: &IndexedFile, marks: &mut [u8]) -> bool
    requires file_value { children_lower (tables_in file.now) ≡ true }
    requires marks_len { length marks.old ≡ node_limit }
    ensures gives { let T = tables_in file.now in
        result ≡ once marks.old (concat_map child_nodes T.nodes) }
    ensures leaves { let T = tables_in file.now in
        marks.new ≡ marked marks.old (concat_map child_nodes T.nodes) }
{
    let m = file.count_of(Section::Nodes);
    for n in 0..m {
        if !mark_children(file, marks, n) {
            return false;
        }
    }
    true
}

// 12: whether no node is a child more than once.
fn children_once(file: &IndexedFile) -> bool
    requires { children_lower (tables_in file.now) ≡ true }
    ensures { result ≡ children_once (tables_in file.now) }
{
    let mut marks = [0u8; NODE_LIMIT];
    mark_nodes(file, &mut marks)
}

// The checks from 10 on, which need the filled index.
fn later_checks(file: &IndexedFile) -> Result<(), Refusal>
    requires { Numbered file.now.bytes.now file.now.index.now }
    ensures { numbered result ≡ later_fault (tables_in file.now) }
{
    if !types_distinct(file) {
        return Err(Refusal::Repeat);
    }
    if !types_shallow(file) {
        return Err(Refusal::Depth);
    }
    if !children_once(file) {
        return Err(Refusal::Shared);
    }
    if !consts_constant(file) {
        return Err(Refusal::NotConstant);
    }
    if !paths_fit(file) {
        return Err(Refusal::Path);
    }
    Ok(())
}

// All checks over a file that was read: 8 over the whole file, then 9, and so on.
pub fn check(file: &[u8], index: &mut [u16]) -> Result<(), Refusal>
    requires { Indexed file.now index.old }
    ensures gives { numbered result ≡ all_fault (tables_of file.now) }
    ensures leaves { index.new ≡ checked_index (tables_of file.now) index.old }
    ensures finds { OnOk result (Checked file.now index.new) }
{
    let tables = IndexedFile {
        bytes: file,
        index: &index[..],
    };
    if !numbers_in(&tables) {
        return Err(Refusal::Number);
    }
    if !children_lower(&tables) {
        return Err(Refusal::Child);
    }
    fill_depths(file, index);
    fill_constants(file, index);
    fill_last_bindings(file, index);
    later_checks(&IndexedFile {
        bytes: file,
        index: &index[..],
    })
}

// Reads and checks a file. On acceptance the index finds every record, and holds depths, constancy and last bindings.
pub fn verify(file: &[u8], index: &mut [u16]) -> Result<(), Refusal>
    requires { (length file.now ≤ file_limit) × (index_length ≤ length index.old) }
    ensures gives { numbered result ≡ file_verdict file.now }
    ensures leaves { index.new ≡ file_index file.now index.old }
    ensures finds { OnOk result (Checked file.now index.new) }
{
    read(file, index)?;
    check(file, index)
}
