// What each Record that a name is bound to as a Const comes to at each type, and each Record in it, remembered in an index that is longer:
// it is asked for again and again, and never changes.
#![tactic(auto)]

ghost use Rattle.std.specs.Prelude.{◌≡◌, true, ◌+◌, ◌*◌, ◌<◌, length};
ghost use Rattle.std.proofs.lemmas.List.Edits.{sets};
ghost use Rattle.rules.specs.Limits.{binding_limit};
ghost use Rattle.rules.specs.File.{is_constant};
ghost use Rattle.file.specs.Steps.{index_length};
ghost use Rattle.views.specs.Views.{binding_at};
ghost use Rattle.accepted_file.specs.Tables.{accepted_tables};
ghost use Rattle.accepted_file.specs.Fates.{fate, fates_base, row_words, long_length};
ghost use Rattle.tables.specs.Recalled.{fate_digit};
ghost use Rattle.field_cases.specs.Pieces.{patterns_of};
ghost use Rattle.fates.specs.Rows.{Heard, fate_or, word_of, row_of, const_record, with_binding, with_bindings, kept, is_parent};
ghost use Rattle.fates.specs.Rows.{with_part, with_parts, with_held, remembering, any_record};

use accepted_file::AcceptedFile;
use field_cases::{pairs_of, piece_at, pieces};
use file::Section;
use literals::{brought_meets, lacks_bytes};
use resolve::constant_node;
use tables::{FATES, Fate, ROW_WORDS, ROWS};
use views::{SlotView, field_pattern_at};

// How many words an index has that remembers.
pub const LONG_INDEX: usize = 26186;

// How many rows there are at most.
const ROW_LIMIT: usize = 256;

// Whether a pattern that is opened at a type gives more than a skip: each round descends one type, whose number falls.
fn heard(file: &AcceptedFile, node: usize, ty: usize) -> bool
    requires { ty < length (accepted_tables file.now).types }
    ensures { Heard (accepted_tables file.now) node ty result }
{
    let opened = pieces(file, node, ty);
    if opened.count == 0 {
        return true;
    }
    for i in 0..opened.count {
        let p = piece_at(file, node, ty, opened, i);
        let pattern = p.pattern;
        let t = p.ty;
        if let Some(n) = pattern {
            if heard(file, n, t) {
                return true;
            }
        }
    }
    false
}

// What a constant comes to at a type.
fn fate(file: &AcceptedFile, node: usize, ty: usize) -> Fate
    requires node_value { is_constant (accepted_tables file.now) node ≡ true }
    requires ty_in_bounds { ty < length (accepted_tables file.now).types }
    ensures { fate_digit result ≡ fate (accepted_tables file.now) node ty }
{
    if !lacks_bytes(file, node, ty) {
        return Fate::Bytes;
    }
    if brought_meets(file, node, ty) {
        return Fate::Met;
    }
    if heard(file, node, ty) {
        Fate::Heard
    } else {
        Fate::Quiet
    }
}

// Its digit in a row, 0 past the last type.
fn fate_or(file: &AcceptedFile, node: usize, t: usize) -> usize
    requires { is_constant (accepted_tables file.now) node ≡ true }
    ensures { result ≡ fate_or (accepted_tables file.now) node t }
{
    if t < file.tables.count_of(Section::Types) {
        fate(file, node, t).digit()
    } else {
        0
    }
}

// Word q of a node's row: its fates at eight types, the first in the lowest bits.
fn word(file: &AcceptedFile, node: usize, q: usize) -> usize
    requires node_value { is_constant (accepted_tables file.now) node ≡ true }
    requires q_lt_row_words { q < row_words }
    ensures { (result ≡ word_of (accepted_tables file.now) node q) × (result < 65536) }
{
    let mut w: usize = 0;
    for j in (0..8).rev() {
        w = 4 * w + fate_or(file, node, 8 * q + j);
    }
    w
}

// The row of a node, as row k.
fn put_row(file: &AcceptedFile, long: &mut [u16], node: usize, k: usize)
    requires node_value { is_constant (accepted_tables file.now) node ≡ true }
    requires k_lt_binding_limit { (k < binding_limit) × (length long.old ≡ long_length) }
    ensures { let T = accepted_tables file.now in
        long.new ≡ sets long.old (fates_base + row_words * k) (row_of T node) }
{
    let at = FATES + ROW_WORDS * k;
    for q in 0..ROW_WORDS {
        let w = word(file, node, q);
        long[at + q] = w as u16;
    }
}

// The node of binding k, if it is a Const that is a Record.
fn const_record(file: &AcceptedFile, k: usize) -> Option<usize>
    requires { k < length (accepted_tables file.now).bindings }
    ensures { let T = accepted_tables file.now in
        result ≡ const_record T (binding_at T k) }
{
    let b = file.tables.binding_at(k);
    let s = b.slot;
    let SlotView::Const(n) = s else {
        return None;
    };
    if let Some((_, _)) = pairs_of(&file.tables, n) {
        Some(n)
    } else {
        None
    }
}

// The index, in front of a longer one. The length of the longer one stays a clause, here and below: an array type would be
// narrower for the callers of `remember` than the slice that it takes.
fn put_index(index: &[u16], long: &mut [u16])
    requires { (length index.now ≡ index_length) × (length long.old ≡ long_length) }
    ensures { long.new ≡ sets long.old 0 index.now }
{
    long[..index.len()].copy_from_slice(index);
}

// Whether a node is a constant Record with a pair.
fn is_parent(file: &AcceptedFile, node: usize) -> bool
    ensures { result ≡ is_parent (accepted_tables file.now) node }
{
    let Some((n, _)) = pairs_of(&file.tables, node) else {
        return false;
    };
    constant_node(file, node) && 0 < n
}

// The row of a Record that is constant, as row k, if it has none yet and while there are rows left; the number of the next row.
fn remember_part(file: &AcceptedFile, long: &mut [u16], node: usize, k: usize) -> usize
    requires { length long.old ≡ long_length }
    ensures { let T = accepted_tables file.now in
        kept result long.new ≡ with_part T node (kept k long.old) }
{
    if k >= ROW_LIMIT {
        return k;
    }
    if !is_parent(file, node) {
        return k;
    }
    if usize::from(long[ROWS + node]) != 0 {
        return k;
    }
    put_row(file, long, node, k);
    long[ROWS + node] = (k + 1) as u16;
    k + 1
}

// The rows of a node's parts.
fn remember_parts(file: &AcceptedFile, long: &mut [u16], node: usize, k: usize) -> usize
    requires { length long.old ≡ long_length }
    ensures { let T = accepted_tables file.now in
        kept result long.new ≡ with_parts T (patterns_of T node) (kept k long.old) }
{
    let Some((n, at)) = pairs_of(&file.tables, node) else {
        return k;
    };
    let mut next = k;
    for i in 0..n {
        let p = field_pattern_at(file.tables.bytes, at, i);
        next = remember_part(file, long, p.node, next);
    }
    next
}

// The same, if the node has a row itself.
fn remember_held(file: &AcceptedFile, long: &mut [u16], node: usize, k: usize) -> usize
    requires { (node < length (accepted_tables file.now).nodes) × (length long.old ≡ long_length) }
    ensures { let T = accepted_tables file.now in
        kept result long.new ≡ with_held T node (kept k long.old) }
{
    if usize::from(long[ROWS + node]) == 0 {
        return k;
    }
    remember_parts(file, long, node, k)
}

// The row of binding b's Record, if it is a Const of one.
fn remember_binding(file: &AcceptedFile, long: &mut [u16], b: usize, k: usize) -> usize
    requires { (b < length (accepted_tables file.now).bindings) × (length long.old ≡ long_length) }
    ensures { let T = accepted_tables file.now in
        kept result long.new ≡ with_binding T (binding_at T b) (kept k long.old) }
{
    if let Some(n) = const_record(file, b) {
        remember_part(file, long, n, k)
    } else {
        k
    }
}

// The rows of all bindings.
fn remember_bindings(file: &AcceptedFile, long: &mut [u16]) -> usize
    requires { length long.old ≡ long_length }
    ensures { let T = accepted_tables file.now in
        kept result long.new ≡ with_bindings T T.bindings (kept 0 long.old) }
{
    let n = file.tables.count_of(Section::Bindings);
    let mut k: usize = 0;
    for b in 0..n {
        k = remember_binding(file, long, b, k);
    }
    k
}

// The index in a longer one, with what is remembered of all bindings and of the Records in them, the last node first: a part is lower than
// what holds it.
pub fn remember(file: &AcceptedFile, long: &mut [u16])
    requires { (length file.now.tables.index.now ≡ index_length) × (length long.old ≡ long_length) }
    ensures { let T = accepted_tables file.now in
        long.new ≡ remembering T file.now.tables.index.now long.old }
{
    put_index(file.tables.index, long);
    let mut k = remember_bindings(file, long);
    for n in (0..file.tables.count_of(Section::Nodes)).rev() {
        k = remember_held(file, long, n, k);
    }
}

// Whether there is anything to remember.
pub fn any_record(file: &AcceptedFile) -> bool
    ensures { let T = accepted_tables file.now in
        result ≡ any_record T T.bindings }
{
    let n = file.tables.count_of(Section::Bindings);
    for k in 0..n {
        if let Some(_) = const_record(file, k) {
            return true;
        }
    }
    false
}
