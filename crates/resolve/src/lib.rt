// Where a pattern's value lives: its slot, with the selects and diagnostics that the read adds.
#![tactic(auto)]

ghost use Rattle.std.specs.Prelude.{◌≡◌, List, ℕ, ◌≤◌, ◌<◌, length, take, Some, None};
ghost use Rattle.std.proofs.lemmas.List.Edits.{sets};
ghost use Rattle.rules.specs.Limits.{step_limit};
ghost use Rattle.rules.specs.File as File;
ghost use Rattle.rules.specs.File.{Tables, node_at, is_constant};
ghost use Rattle.rules.specs.Lookup.{hoisted_slot};
ghost use Rattle.rules.specs.Resolve as ResolveRules;
ghost use Rattle.rules.specs.Resolve.{◌when_found◌};
ghost use Rattle.views.specs.Files.{tables_in};
ghost use Rattle.paths.specs.Paths.{path_of};
ghost use Rattle.state.specs.State.{Level, Target};
ghost use Rattle.state.specs.Ops.{ops};
ghost use Rattle.accepted_file.specs.Tables.{accepted_tables};
ghost use Rattle.slots.specs.Slots.{slot_of, cleared, tidy_slot, tidied, IsSlot, ClearRoom, TidyRoom};
ghost use Rattle.lists.specs.Lists.{code_of, state_with};
ghost use Rattle.fields.specs.Found.{address_option};
ghost use Rattle.tables.specs.Tables.{alternative_option};
ghost use Rattle.resolve.specs.Resolved.{given, found, answer_with, Answers, Follows, Climbs, GivenSlotRoom};
ghost use Rattle.resolve.specs.Resolved.{base_of, read_past, field_past, value_past, leaf_slot, leaf_at};
ghost use Rattle.resolve.specs.Chains.{read_of, chain, bottom, read_up, climb};

use accepted_file::AcceptedFile;
use fields::{
    fact_ty, fetched_register, folded_slot, hoisted_name, key_field, path_field, row_field,
    row_value,
};
use file::{NODE_LIMIT, Section};
use lists::{Code, Lists, lookup, report, select};
use paths::{Address, FieldPath, PredicateId};
use records::within;
use slots::{Slot, SlotKind};
use tables::{alternative_of, is_constant, union_ty};
use views::{Alternative, IndexedFile, NodeView};

// A slot, if the read gives one, and the lists with what it added.
#[derive(Clone, Copy)]
pub struct Answer {
    pub slot: Option<Slot>,
    pub lists: Lists,
}

// What is read of a base: a field of its key by name, its value side, or a union's alternative by name.
#[derive(Clone, Copy)]
pub enum Read {
    Key(usize),
    Value,
    Select(usize),
}

// How many nodes of a chain of reads were passed, and the node below them.
#[derive(Clone, Copy)]
pub struct Chain {
    pub passed: usize,
    pub node: usize,
}

// How many nodes of a chain the trail of nearly every read has room for.
pub const SHORT_TRAIL: usize = 8;

// The answer of a read that adds nothing to the lists.
pub fn gives(found: Option<Slot>, lists: Lists) -> Answer
    ensures { result ≡ answer_with found lists }
{
    Answer { slot: found, lists }
}

// The answer of a read that gives no slot: a diagnostic says why.
pub fn declined(work: &mut [u8], node: usize, code: Code, lists: Lists) -> Answer
    ensures { let before = work.old in
        let after = work.new in
        ((T : Tables) → Answers (ResolveRules.declined (ops T) T node (code_of code)) lists before result after) }
{
    let l = report(work, lists, node, code);
    gives(None, l)
}

// A reference that was followed, as the row it names.
fn fetched_row(
    work: &mut [u8],
    node: usize,
    predicate: PredicateId,
    register: Option<Address>,
    lists: Lists,
) -> Answer
    ensures { let before = work.old in
        let after = work.new in
        ((T : Tables) →
        let row = ResolveRules.fetched_row (ops T) T node predicate.0 (address_option register) in
        Answers row lists before result after) }
{
    match register {
        None => declined(work, node, Code::NyiFactField, lists),
        Some(a) => gives(Some(Slot::plain(SlotKind::Row(a, Some(predicate)))), lists),
    }
}

fn dereference_field(
    file: &IndexedFile,
    work: &mut [u8],
    node: usize,
    address: Address,
    path: FieldPath,
    ty: usize,
    lists: Lists,
) -> Answer
    requires { path ≡ cleared path }
    ensures { let T = tables_in file.now in
        let before = work.old in
        let after = work.new in
        Answers (ResolveRules.dereference (ops T) T node (File.Slot.Field address.0 (path_of path) ty)) lists before result after }
{
    match fact_ty(file, ty) {
        None => gives(Some(Slot::field(address, path, ty)), lists),
        Some(p) => fetched_row(
            work,
            node,
            p,
            fetched_register(file, address, within(path)),
            lists,
        ),
    }
}

fn dereference_value(
    file: &IndexedFile,
    work: &mut [u8],
    node: usize,
    address: Address,
    ty: usize,
    lists: Lists,
) -> Answer
    ensures { let T = tables_in file.now in
        let before = work.old in
        let after = work.new in
        Answers (ResolveRules.dereference (ops T) T node (File.Slot.Value address.0 ty)) lists before result after }
{
    match fact_ty(file, ty) {
        None => gives(Some(Slot::plain(SlotKind::Value(address, ty))), lists),
        Some(p) => declined(work, node, Code::NyiFactField, lists),
    }
}

// A reference as the row it names; any other slot as it is.
pub fn dereference(
    file: &IndexedFile,
    work: &mut [u8],
    node: usize,
    slot: Slot,
    lists: Lists,
) -> Answer
    requires { slot ≡ tidy_slot slot }
    ensures { let T = tables_in file.now in
        let before = work.old in
        let after = work.new in
        Answers (ResolveRules.dereference (ops T) T node (slot_of slot)) lists before result after }
{
    let kind = slot.kind;
    match kind {
        SlotKind::Row(a, p) => gives(Some(Slot::plain(SlotKind::Row(a, p))), lists),
        SlotKind::Key(a, t) => gives(Some(Slot::plain(SlotKind::Key(a, t))), lists),
        SlotKind::Derived(a) => gives(Some(Slot::plain(SlotKind::Derived(a))), lists),
        SlotKind::Field(a, t) => dereference_field(file, work, node, a, slot.path, t, lists),
        SlotKind::Value(a, t) => dereference_value(file, work, node, a, t, lists),
        SlotKind::Const(n) => gives(Some(Slot::plain(SlotKind::Const(n))), lists),
    }
}

// A field of the row that a reference names, if that was fetched.
fn field_of_fetched(
    file: &IndexedFile,
    work: &mut [u8],
    node: usize,
    predicate: PredicateId,
    register: Option<Address>,
    name: usize,
    lists: Lists,
) -> Answer
    ensures { let T = tables_in file.now in
        let before = work.old in
        let after = work.new in
        let row = ResolveRules.fetched_row (ops T) T node predicate.0 (address_option register) in
        Answers (row when_found ResolveRules.field_of_row (ops T) T name) lists before result after }
{
    match register {
        None => declined(work, node, Code::NyiFactField, lists),
        Some(a) => gives(row_field(file, a, Some(predicate), name), lists),
    }
}

fn field_below(
    file: &AcceptedFile,
    work: &mut [u8],
    node: usize,
    address: Address,
    path: FieldPath,
    ty: usize,
    name: usize,
    lists: Lists,
) -> Answer
    requires { ClearRoom (accepted_tables file.now) path ty }
    ensures { let T = accepted_tables file.now in
        let before = work.old in
        let after = work.new in
        Answers (ResolveRules.field_slot (ops T) T node (File.Slot.Field address.0 (path_of path) ty) name) lists before result after }
{
    match fact_ty(&file.tables, ty) {
        None => gives(path_field(file, address, path, ty, name), lists),
        Some(p) => field_of_fetched(
            &file.tables,
            work,
            node,
            p,
            fetched_register(&file.tables, address, within(path)),
            name,
            lists,
        ),
    }
}

// The slot of one field inside another slot.
pub fn field_slot(
    file: &AcceptedFile,
    work: &mut [u8],
    node: usize,
    slot: Slot,
    name: usize,
    lists: Lists,
) -> Answer
    requires { TidyRoom (accepted_tables file.now) slot }
    ensures { let T = accepted_tables file.now in
        let before = work.old in
        let after = work.new in
        Answers (ResolveRules.field_slot (ops T) T node (slot_of slot) name) lists before result after }
{
    let kind = slot.kind;
    match kind {
        SlotKind::Row(a, p) => gives(row_field(&file.tables, a, p, name), lists),
        SlotKind::Key(a, t) => gives(key_field(&file.tables, a, t, name), lists),
        SlotKind::Derived(a) => gives(None, lists),
        SlotKind::Field(a, t) => field_below(file, work, node, a, slot.path, t, name, lists),
        SlotKind::Value(a, t) => declined(work, node, Code::NyiValueField, lists),
        SlotKind::Const(n) => gives(folded_slot(&file.tables, n, name), lists),
    }
}

// The value side of a row, and of nothing else.
pub fn value_slot(file: &IndexedFile, slot: Slot, lists: Lists) -> Answer
    ensures { let T = tables_in file.now in
        ((w : List ℕ) → Answers (ResolveRules.value_slot (ops T) T (slot_of slot)) lists w result w) }
{
    let kind = slot.kind;
    match kind {
        SlotKind::Row(a, p) => gives(row_value(file, a, p), lists),
        _ => gives(None, lists),
    }
}

// A select's payload. The select records the union's own path, not the payload's.
fn selected(
    work: &mut [u8],
    address: Address,
    path: FieldPath,
    found: Option<Alternative>,
    lists: Lists,
) -> Answer
    requires path_len_bound { (a : File.Alternative) → alternative_option found ≡ Some a →
        length (path_of path).steps < step_limit }
    requires path_value { path ≡ cleared path }
    ensures { let before = work.old in
        let after = work.new in
        ((T : Tables) →
        let payload = ResolveRules.selected (ops T) T address.0 (path_of path) (alternative_option found) in
        Answers payload lists before result after) }
{
    match found {
        None => gives(None, lists),
        Some(alt) => {
            let payload = within(path).payload(alt.disc);
            let l = select(work, lists, address, path, alt.disc);
            gives(Some(Slot::field(address, payload, alt.ty)), l)
        }
    }
}

fn select_field(
    file: &AcceptedFile,
    work: &mut [u8],
    node: usize,
    address: Address,
    path: FieldPath,
    ty: usize,
    name: usize,
    lists: Lists,
) -> Answer
    requires { ClearRoom (accepted_tables file.now) path ty }
    ensures { let T = accepted_tables file.now in
        let before = work.old in
        let after = work.new in
        Answers (ResolveRules.select_slot (ops T) T node (File.Slot.Field address.0 (path_of path) ty) name) lists before result after }
{
    match union_ty(&file.tables, ty) {
        None => declined(work, node, Code::NyiFactField, lists),
        Some((n, at)) => selected(
            work,
            address,
            path,
            alternative_of(file.tables.bytes, at, n, name),
            lists,
        ),
    }
}

// The payload of one alternative: only of a union held in a key field.
pub fn select_slot(
    file: &AcceptedFile,
    work: &mut [u8],
    node: usize,
    slot: Slot,
    name: usize,
    lists: Lists,
) -> Answer
    requires { TidyRoom (accepted_tables file.now) slot }
    ensures { let T = accepted_tables file.now in
        let before = work.old in
        let after = work.new in
        Answers (ResolveRules.select_slot (ops T) T node (slot_of slot) name) lists before result after }
{
    let kind = slot.kind;
    match kind {
        SlotKind::Field(a, t) => select_field(file, work, node, a, slot.path, t, name, lists),
        _ => declined(work, node, Code::NyiFactField, lists),
    }
}

// The slot of the row that a node was hoisted to.
pub fn hoisted_slot(file: &AcceptedFile, work: &[u8], node: usize, lists: Lists) -> Option<Slot>
    ensures { (lv : Level) (tg : Target) (p : List ℕ) → (
        let T = accepted_tables file.now in
        let before = state_with lists lv tg work.now p in
        IsSlot (hoisted_slot T ((ops T).lookup before) node) result
        ) }
{
    let x = hoisted_name(&file.tables, node)?;
    lookup(file, work, lists, x)
}

// A node's slot, if it reads of no other node.
fn leaf(file: &AcceptedFile, work: &[u8], node: usize, lists: Lists) -> Option<Slot>
    ensures { (lv : Level) (tg : Target) (p : List ℕ) → (
        let T = accepted_tables file.now in
        let before = state_with lists lv tg work.now p in
        IsSlot (leaf_slot T ((ops T).lookup before) node (node_at T node)) result
        ) }
{
    match file.tables.node_of(node) {
        NodeView::Var(x) => lookup(file, work, lists, x),
        NodeView::Fact(p, n) => hoisted_slot(file, work, node, lists),
        _ => None,
    }
}

// What a node reads of which node below it.
fn base_of(file: &IndexedFile, node: usize) -> Option<(Read, usize)>
    ensures { result ≡ base_of (node_at (tables_in file.now) node) }
{
    match file.node_of(node) {
        NodeView::Access(x, n) => Some((Read::Key(x), n)),
        NodeView::Value(n) => Some((Read::Value, n)),
        NodeView::Select(x, n) => Some((Read::Select(x), n)),
        _ => None,
    }
}

// A field of a row's value side: there is none, and the diagnostic tells a reference from anything else.
fn field_of_value(
    file: &IndexedFile,
    work: &mut [u8],
    node: usize,
    ty: usize,
    lists: Lists,
) -> Answer
    ensures { (address name : ℕ) → (
        let T = tables_in file.now in
        let before = work.old in
        let after = work.new in
        Answers (field_past T node name (File.Slot.Value address ty)) lists before result after
        ) }
{
    match fact_ty(file, ty) {
        None => declined(work, node, Code::NyiValueField, lists),
        Some(p) => declined(work, node, Code::NyiFactField, lists),
    }
}

// A field of a slot, past a reference: `field_slot` follows one that a key holds, and on a row's value side none is followed.
fn field_past(
    file: &AcceptedFile,
    work: &mut [u8],
    node: usize,
    slot: Slot,
    name: usize,
    lists: Lists,
) -> Answer
    requires { TidyRoom (accepted_tables file.now) slot }
    ensures { let T = accepted_tables file.now in
        let before = work.old in
        let after = work.new in
        Answers (field_past T node name (slot_of slot)) lists before result after }
{
    let kind = slot.kind;
    if let SlotKind::Value(a, t) = kind {
        field_of_value(&file.tables, work, node, t, lists)
    } else {
        field_slot(file, work, node, slot, name, lists)
    }
}

// The value side, past a reference.
fn value_past(file: &IndexedFile, work: &mut [u8], node: usize, slot: Slot, lists: Lists) -> Answer
    requires { slot ≡ tidy_slot slot }
    ensures { let T = tables_in file.now in
        let before = work.old in
        let after = work.new in
        Answers (value_past T node (slot_of slot)) lists before result after }
{
    let row = dereference(file, work, node, slot, lists);
    let Some(given) = row.slot else {
        return gives(None, row.lists);
    };
    value_slot(file, given, row.lists)
}

// A read of a base's answer, past a reference. A select of a reference is declined, whether it was fetched or not.
fn read_past(file: &AcceptedFile, work: &mut [u8], node: usize, read: Read, base: Answer) -> Answer
    requires given_slot_room { GivenSlotRoom (accepted_tables file.now) (given base) }
    requires base_value { found base ≡ tidied (found base) }
    ensures { Follows (read_past (accepted_tables file.now) node read) base work.old result work.new }
{
    let Some(slot) = base.slot else {
        return gives(None, base.lists);
    };
    let lists = base.lists;
    match read {
        Read::Key(x) => field_past(file, work, node, slot, x, lists),
        Read::Value => value_past(&file.tables, work, node, slot, lists),
        Read::Select(x) => select_slot(file, work, node, slot, x, lists),
    }
}

// Whether a node is constant, which the checks have noted in the index.
pub fn constant_node(file: &AcceptedFile, node: usize) -> bool
    ensures { result ≡ is_constant (accepted_tables file.now) node }
{
    node < file.tables.count_of(Section::Nodes) && is_constant(file, node)
}

// A node that reads of no other. A constant is a location like any other, the node itself, and is asked for first.
fn leaf_answer(file: &AcceptedFile, work: &mut [u8], node: usize, lists: Lists) -> Answer
    ensures { Answers (leaf_at (accepted_tables file.now) node) lists work.old result work.new }
{
    if constant_node(file, node) {
        gives(Some(Slot::plain(SlotKind::Const(node))), lists)
    } else {
        gives(leaf(file, work, node, lists), lists)
    }
}

// What a node reads of which node below it: a constant is its own location, and reads of none.
pub fn read_of(file: &AcceptedFile, node: usize) -> Option<(Read, usize)>
    ensures { result ≡ read_of (accepted_tables file.now) node }
{
    if constant_node(file, node) {
        return None;
    }
    base_of(&file.tables, node)
}

// Goes down a chain of reads, from each node to the one that it reads of, and writes the nodes that it passes to the trail: until one
// reads of no other, or the trail is full.
pub fn descend(file: &AcceptedFile, node: usize, trail: &mut [u16]) -> Chain
    ensures passes { let T = accepted_tables file.now in
        let most = length trail.old in
        result ≡ record { passed = length (chain T most node); node = bottom T most node } }
    ensures writes { let T = accepted_tables file.now in
        let before = trail.old in
        trail.new ≡ sets before 0 (chain T (length before) node) }
{
    let mut n = node;
    for k in 0..trail.len() {
        let Some((_, base)) = read_of(file, n) else {
            return Chain { passed: k, node: n };
        };
        trail[k] = n as u16;
        n = base;
    }
    Chain {
        passed: trail.len(),
        node: n,
    }
}

// What a node reads, of the answer of the node below it.
fn read_up(file: &AcceptedFile, work: &mut [u8], node: usize, below: Answer) -> Answer
    requires given_slot_room { GivenSlotRoom (accepted_tables file.now) (given below) }
    requires below_value { found below ≡ tidied (found below) }
    ensures { let T = accepted_tables file.now in
        Climbs (read_up T node) below work.old result work.new }
{
    match base_of(&file.tables, node) {
        None => gives(None, below.lists),
        Some((read, _)) => read_past(file, work, node, read, below),
    }
}

// Goes up again from the answer at a chain's end: each node of the trail reads of the one after it.
fn ascend(file: &AcceptedFile, work: &mut [u8], trail: &[u16], passed: usize, end: Answer) -> Answer
    requires given_slot_room { GivenSlotRoom (accepted_tables file.now) (given end) }
    requires end_value { found end ≡ tidied (found end) }
    requires passed_in_bounds { passed ≤ length trail.now }
    ensures { let T = accepted_tables file.now in
        Climbs (climb T (take passed trail.now)) end work.old result work.new }
{
    let mut below = end;
    for k in (0..passed).rev() {
        below = read_up(file, work, usize::from(trail[k]), below);
    }
    below
}

// The answer at a chain's end, and up again from there.
fn resolve_up(
    file: &AcceptedFile,
    work: &mut [u8],
    trail: &[u16],
    chain: Chain,
    lists: Lists,
) -> Answer
    requires passed_in_bounds { chain.passed ≤ length trail.now }
    requires node_value { read_of (accepted_tables file.now) chain.node ≡ None }
    ensures { let T = accepted_tables file.now in
        let nodes = take chain.passed trail.now in
        Answers (λ s. climb T nodes (leaf_at T chain.node s)) lists work.old result work.new }
{
    let end = leaf_answer(file, work, chain.node, lists);
    ascend(file, work, trail, chain.passed, end)
}

// A chain of any length: a file has no more nodes than the trail has places. It and `resolve_chain` differ in how long the trail is; one
// function over that length would have to give an Option of the answer, whose None never comes for the long trail: no plainer.
fn resolve_long(file: &AcceptedFile, work: &mut [u8], node: usize, lists: Lists) -> Answer
    ensures { let T = accepted_tables file.now in
        Answers (ResolveRules.resolve (ops T) T node) lists work.old result work.new }
{
    // No heap: on the stack.
    let mut trail = [0u16; NODE_LIMIT];
    let chain = descend(file, node, &mut trail);
    resolve_up(file, work, &trail, chain, lists)
}

// A chain of reads may be as long as a file has nodes, so it is walked by loops, down and up again; nearly every chain is short, and is
// done with a short trail.
fn resolve_chain(file: &AcceptedFile, work: &mut [u8], node: usize, lists: Lists) -> Answer
    ensures { let T = accepted_tables file.now in
        Answers (ResolveRules.resolve (ops T) T node) lists work.old result work.new }
{
    // No heap: on the stack.
    let mut trail = [0u16; SHORT_TRAIL];
    let chain = descend(file, node, &mut trail);
    if chain.passed == SHORT_TRAIL {
        return resolve_long(file, work, node, lists);
    }
    resolve_up(file, work, &trail, chain, lists)
}

// A field of what a variable is bound to, past a reference: mostly a row, whose field is found with no path at hand.
fn bound_field(
    file: &AcceptedFile,
    work: &mut [u8],
    node: usize,
    slot: Slot,
    name: usize,
    lists: Lists,
) -> Answer
    requires { TidyRoom (accepted_tables file.now) slot }
    ensures { let T = accepted_tables file.now in
        let before = work.old in
        let after = work.new in
        Answers (field_past T node name (slot_of slot)) lists before result after }
{
    let kind = slot.kind;
    if let SlotKind::Row(a, p) = kind {
        return gives(row_field(&file.tables, a, p, name), lists);
    }
    if let SlotKind::Value(a, t) = kind {
        return field_of_value(&file.tables, work, node, t, lists);
    }
    field_slot(file, work, node, slot, name, lists)
}

// Where a pattern's value lives. Nearly every read is one of a variable's fields, and needs no trail.
pub fn resolve(file: &AcceptedFile, work: &mut [u8], node: usize, lists: Lists) -> Answer
    ensures { let T = accepted_tables file.now in
        Answers (ResolveRules.resolve (ops T) T node) lists work.old result work.new }
{
    let NodeView::Access(x, n) = file.tables.node_of(node) else {
        return resolve_chain(file, work, node, lists);
    };
    let NodeView::Var(y) = file.tables.node_of(n) else {
        return resolve_chain(file, work, node, lists);
    };
    let Some(slot) = lookup(file, work, lists, y) else {
        return gives(None, lists);
    };
    bound_field(file, work, node, slot, x, lists)
}
