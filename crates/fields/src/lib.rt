// What is found in the file's tables by name, node or path.
#![tactic(auto)]

ghost use Rattle.std.specs.Prelude.{◌≡◌, ◌+◌, ◌*◌, ◌≤◌, ◌<◌, length};
ghost use Rattle.rules.specs.Limits.{step_limit};
ghost use Rattle.rules.specs.File.{type_at, fact_ty, field_path, then};
ghost use Rattle.rules.specs.Lookup.{field_from, field_of, same_path, fetched_register, folded_field, folded_slot, slot_at, row_field, row_value};
ghost use Rattle.views.specs.Files.{tables_in};
ghost use Rattle.paths.specs.Paths.{path_of};
ghost use Rattle.views.specs.Views.{field_at, path_at, run, fetched_of, predicate_option, PathInside};
ghost use Rattle.accepted_file.specs.Tables.{accepted_tables};
ghost use Rattle.slots.specs.Slots.{IsSlot, ClearRoom};
ghost use Rattle.fields.specs.Found.{place_of, address_option, hoisted_name, fetches, value_side};

use accepted_file::AcceptedFile;
use file::{Section, word_at};
use paths::{Address, FieldPath, PredicateId};
use records::within;
use slots::{Slot, SlotKind};
use tables::field_pattern;
use views::{FetchedView, IndexedFile, NodeView, TypeView, field_ty_at, long_at};

// The field of that name among n fields that start at `at`.
fn field_from(file: &[u8], at: usize, n: usize, name: usize) -> Option<(u16, usize)>
    requires { (at + 4 * n ≤ length file.now) × (n ≤ 65535) }
    ensures { place_of result ≡ field_from 0 (run (field_at file.now) 4 n at) name }
{
    (0..n).find_map(|i| {
        let f = field_ty_at(file, at, i);
        if f.name == name {
            Some((i as u16, f.ty))
        } else {
            None
        }
    })
}

// A record type's field by name.
pub fn field_of(file: &IndexedFile, ty: usize, name: usize) -> Option<(u16, usize)>
    ensures { place_of result ≡ field_of (type_at (tables_in file.now) ty) name }
{
    if let TypeView::Record(n, at) = file.type_of(ty) {
        field_from(file.bytes, at, n, name)
    } else {
        None
    }
}

// Whether the path that stands at `at` is this one.
fn path_is(file: &[u8], at: usize, path: FieldPath) -> bool
    requires path_inside { PathInside file.now at }
    requires count_le_step_limit { path.count ≤ step_limit }
    ensures { result ≡ same_path (path_at file.now at) (path_of path) }
{
    if word_at(file, at) != usize::from(path.field) {
        return false;
    }
    let n = path.count as usize;
    if usize::from(file[at + 2]) != n {
        return false;
    }
    let steps = path.steps;
    for i in 0..n {
        if long_at(file, at + 3 + 4 * i) != steps[i] {
            return false;
        }
    }
    true
}

// Whether an entry is the fetch of this reference.
fn fetches(file: &[u8], entry: FetchedView, address: Address, path: FieldPath) -> bool
    requires path_inside { PathInside file.now entry.path }
    requires count_le_step_limit { path.count ≤ step_limit }
    ensures { result ≡ fetches address.0 (path_of path) (fetched_of file.now entry) }
{
    let from = entry.address;
    if from != address {
        return false;
    }
    path_is(file, entry.path, path)
}

// The register that the first fetch of this reference fills.
pub fn fetched_register(file: &IndexedFile, address: Address, path: FieldPath) -> Option<Address>
    requires { path.count ≤ step_limit }
    ensures { let T = tables_in file.now in
        address_option result ≡ fetched_register T address.0 (path_of path) }
{
    let n = file.count_of(Section::Fetched);
    for i in 0..n {
        let f = file.fetched_at(i);
        if fetches(file.bytes, f, address, path) {
            let register = f.register;
            return Some(register);
        }
    }
    None
}

// The name of the row that the node was hoisted to: the first entry for the node decides.
pub fn hoisted_name(file: &IndexedFile, node: usize) -> Option<usize>
    ensures { result ≡ hoisted_name (tables_in file.now) node }
{
    let n = file.count_of(Section::Hoisted);
    for k in 0..n {
        let h = file.hoisted_at(k);
        if h.node == node {
            return Some(h.name);
        }
    }
    None
}

// The predicate that a reference's type names.
pub fn fact_ty(file: &IndexedFile, ty: usize) -> Option<PredicateId>
    ensures { predicate_option result ≡ fact_ty (type_at (tables_in file.now) ty) }
{
    if let TypeView::Fact(p) = file.type_of(ty) {
        Some(p)
    } else {
        None
    }
}

// A field of a key, at its own path.
pub fn key_field(file: &IndexedFile, address: Address, ty: usize, name: usize) -> Option<Slot>
    ensures { let T = tables_in file.now in
        IsSlot (slot_at address.0 field_path (field_of (type_at T ty) name)) result }
{
    let (i, t) = field_of(file, ty, name)?;
    Some(Slot::field(address, FieldPath::field(i), t))
}

// A field of what stands at a path, one step further.
pub fn path_field(
    file: &AcceptedFile,
    address: Address,
    path: FieldPath,
    ty: usize,
    name: usize,
) -> Option<Slot>
    requires { ClearRoom (accepted_tables file.now) path ty }
    ensures { let T = accepted_tables file.now in
        IsSlot (slot_at address.0 (then (path_of path)) (field_of (type_at T ty) name)) result }
{
    let (i, t) = field_of(&file.tables, ty, name)?;
    Some(Slot::field(address, within(path).then(i as u32), t))
}

// A field of a row's key.
pub fn row_field(
    file: &IndexedFile,
    address: Address,
    predicate: Option<PredicateId>,
    name: usize,
) -> Option<Slot>
    ensures { let T = tables_in file.now in
        IsSlot (row_field T address.0 (predicate_option predicate) name) result }
{
    let entry = file.predicate_of(predicate?);
    key_field(file, address, entry.key, name)
}

// The value side of a predicate's row.
fn value_side(address: Address, value: Option<usize>) -> Option<Slot>
    ensures { IsSlot (value_side address.0 value) result }
{
    let t = value?;
    Some(Slot::plain(SlotKind::Value(address, t)))
}

// The value side of a row.
pub fn row_value(
    file: &IndexedFile,
    address: Address,
    predicate: Option<PredicateId>,
) -> Option<Slot>
    ensures { let T = tables_in file.now in
        IsSlot (row_value T address.0 (predicate_option predicate)) result }
{
    let entry = file.predicate_of(predicate?);
    value_side(address, entry.value)
}

// The node that a folded record gives for a name.
pub fn folded_field(file: &IndexedFile, folded: usize, name: usize) -> Option<usize>
    ensures { result ≡ folded_field (tables_in file.now) folded name }
{
    if let NodeView::Record(n, at) = file.node_of(folded) {
        field_pattern(file.bytes, at, n, name)
    } else {
        None
    }
}

// A field of a folded constant is a constant of its own.
pub fn folded_slot(file: &IndexedFile, folded: usize, name: usize) -> Option<Slot>
    ensures { IsSlot (folded_slot (tables_in file.now) folded name) result }
{
    let n = folded_field(file, folded, name)?;
    Some(Slot::plain(SlotKind::Const(n)))
}
