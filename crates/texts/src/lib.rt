// The texts of a level's range and edges: constants that stayed positions until now. Any position has a text, as the written rules have
// it, so that nothing is asked of a level here.
#![tactic(auto)]

ghost use Rattle.std.specs.Prelude.{◌≡◌, ◌≤◌, ◌<◌, min, length};
ghost use Rattle.rules.specs.File.{name_at};
ghost use Rattle.rules.specs.Constant.{encode_prefix};
ghost use Rattle.rules.specs.Plan as Plan;
ghost use Rattle.accepted_file.specs.Tables.{accepted_tables};
ghost use Rattle.constant.specs.Sizes.{cap, const_view};
ghost use Rattle.encode.specs.Written.{bytes_of, or_empty, RoomForBytes, Wrote};
ghost use Rattle.seek.specs.Seek.{constant_bytes, edge_of};

use accepted_file::AcceptedFile;
use constant::{Const, capped, constant, prefix_len};
use encode::{put_constant, put_i64, put_prefix};
use file::Section;
use records::{put8, put16};
use seek::Edge;
use tables::folded;
use views::NodeView;

// A constant at a type past the file's own, which is Int to the written rules.
fn past_constant(file: &AcceptedFile, node: usize, ty: usize) -> Option<Const>
    requires node_in_bounds { node < length (accepted_tables file.now).nodes }
    requires file_len_bound { length (accepted_tables file.now).types ≤ ty }
    ensures { result ≡ const_view (accepted_tables file.now) node ty }
{
    if file.tables.count_of(Section::Types) == 0 {
        return None;
    }
    let m = folded(file, node);
    if let NodeView::Int(_) = file.tables.node_at(m) {
        Some(Const::Bytes(node, ty, 9))
    } else {
        None
    }
}

fn put_past(file: &AcceptedFile, buf: &mut [u8], at: usize, node: usize, ty: usize) -> usize
    requires node_in_bounds { node < length (accepted_tables file.now).nodes }
    requires file_len_bound { length (accepted_tables file.now).types ≤ ty }
    requires room_for_bytes { RoomForBytes (bytes_of (accepted_tables file.now) node ty) at }
    ensures { Wrote (or_empty (bytes_of (accepted_tables file.now) node ty)) at buf.old result buf.new }
{
    let m = folded(file, node);
    if let NodeView::Int(p) = file.tables.node_at(m) {
        put_i64(file.tables.bytes, buf, at, p)
    } else {
        at
    }
}

fn any_constant(file: &AcceptedFile, node: usize, ty: usize) -> Option<Const>
    ensures { result ≡ const_view (accepted_tables file.now) node ty }
{
    if node >= file.tables.count_of(Section::Nodes) {
        return None;
    }
    if ty < file.tables.count_of(Section::Types) {
        constant(file, node, ty)
    } else {
        past_constant(file, node, ty)
    }
}

// The length of a constant's bytes, up to the cap; 0 where it has none.
fn bytes_len(file: &AcceptedFile, node: usize, ty: usize) -> usize
    ensures { result ≡ min cap (length (constant_bytes (accepted_tables file.now) node ty)) }
{
    let Some(known) = any_constant(file, node, ty) else {
        return 0;
    };
    match known {
        Const::Bytes(_, _, n) => n,
        Const::Prefix(_) => 0,
        Const::Fuzzy(_, _, _) => 0,
    }
}

// A constant's bytes after their length.
fn put_text(file: &AcceptedFile, buf: &mut [u8], at: usize, node: usize, ty: usize) -> usize
    requires { (at ≤ 1048576) × (length (constant_bytes (accepted_tables file.now) node ty) ≤ cap) }
    ensures { Wrote (Plan.text (constant_bytes (accepted_tables file.now) node ty)) at buf.old result buf.new }
{
    let n = bytes_len(file, node, ty);
    put16(buf, at, n);
    if n == 0 {
        return at + 2;
    }
    if ty < file.tables.count_of(Section::Types) {
        put_constant(file, buf, at + 2, node, ty)
    } else {
        put_past(file, buf, at + 2, node, ty)
    }
}

// The length of an edge in the plan, up to the cap; one that is not set is a single byte.
pub fn edge_len(file: &AcceptedFile, e: Edge) -> usize
    ensures { result ≡ min cap (length (Plan.edge (edge_of (accepted_tables file.now) e))) }
{
    if e.set {
        capped(3, bytes_len(file, e.node as usize, e.ty as usize))
    } else {
        1
    }
}

fn inclusive(e: Edge) -> u8
    ensures { result ≡ Plan.inclusive e.inclusive }
{
    if e.inclusive { 2 } else { 1 }
}

// Writes an edge, and gives where it ends.
pub fn put_edge(file: &AcceptedFile, buf: &mut [u8], at: usize, e: Edge) -> usize
    requires { (at ≤ 524288) × (length (Plan.edge (edge_of (accepted_tables file.now) e)) ≤ cap) }
    ensures { Wrote (Plan.edge (edge_of (accepted_tables file.now) e)) at buf.old result buf.new }
{
    if e.set {
        put8(buf, at, inclusive(e));
        put_text(file, buf, at + 1, e.node as usize, e.ty as usize)
    } else {
        put8(buf, at, 0);
        at + 1
    }
}

// The length of a name's prefix in the plan, with the two bytes that give its length.
pub fn prefix_text_len(file: &AcceptedFile, name: usize) -> usize
    ensures { (result ≡ length (Plan.text (encode_prefix (name_at (accepted_tables file.now) name)))) × (result ≤ 65539) }
{
    if name < file.tables.count_of(Section::Names) {
        2 + prefix_len(&file.tables, name)
    } else {
        3
    }
}

// Writes a name's prefix after its length, and gives where it ends.
pub fn put_prefix_text(file: &AcceptedFile, buf: &mut [u8], at: usize, name: usize) -> usize
    requires { at ≤ 1048576 }
    ensures { let form = Plan.text (encode_prefix (name_at (accepted_tables file.now) name)) in
        Wrote form at buf.old result buf.new }
{
    if name < file.tables.count_of(Section::Names) {
        put16(buf, at, prefix_len(&file.tables, name));
        put_prefix(&file.tables, buf, at + 2, name)
    } else {
        put16(buf, at, 1);
        put8(buf, at + 2, 3);
        at + 3
    }
}
