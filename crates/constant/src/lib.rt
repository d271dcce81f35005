// The constant that a pattern is at a type. It carries positions and the length of its bytes; the bytes themselves are written only where
// they are wanted.
#![tactic(auto)]

ghost use Rattle.std.specs.Prelude.{◌≡◌, ◌+◌, ◌*◌, ◌≤◌, ◌<◌, min, [], ◌∷◌, length};
ghost use Rattle.rules.specs.Limits.{file_limit};
ghost use Rattle.rules.specs.Base.{either};
ghost use Rattle.rules.specs.File.{name_at, type_at};
ghost use Rattle.rules.specs.Constant as ConstantRules;
ghost use Rattle.rules.specs.Constant.{escape, encode_prefix, constant_fields, constant_record};
ghost use Rattle.file.specs.Tables.{tables_of};
ghost use Rattle.views.specs.Files.{tables_in};
ghost use Rattle.views.specs.Views.{run, byte_at, field_at, alternative_at, pattern_at};
ghost use Rattle.accepted_file.specs.Tables.{accepted_tables};
ghost use Rattle.constant.specs.Has.{given, has_bytes, is_bytes, RecordAt};
ghost use Rattle.constant.specs.Plain.{least_byte, plain};
ghost use Rattle.constant.specs.Sizes.{cap, size_with, Small, view_of, const_view, int_only, str_only, bytes_alone, size_of, wrapped, field_bytes, payload_bytes, Patterns, Fields, Alternatives};

use accepted_file::AcceptedFile;
use tables::{Fate, alternative_of, field_pattern, folded, recall};
use views::{Anchor, IndexedFile, NodeView, TypeView, field_pattern_at, field_ty_at};

// Bytes has the node, the type and the length, which stops at CAP; Prefix the name; Fuzzy the name, the distance and the anchor.
#[derive(Clone, Copy)]
pub enum Const {
    Bytes(usize, usize, usize),
    Prefix(usize),
    Fuzzy(usize, u8, Anchor),
}

// Longer than any plan: what is as long or longer counts as this long, so that no sum of lengths overflows.
pub const CAP: usize = 65536;

// The sum of two lengths, which stops at CAP.
pub fn capped(a: usize, b: usize) -> usize
    requires { (a ≤ 2 * cap) × (b ≤ 2 * cap) }
    ensures { result ≡ min cap (a + b) }
{
    (a + b).min(CAP)
}

// How many bytes a byte of a text takes: a zero byte is escaped.
fn width(b: u8) -> usize
    ensures { result ≡ length (escape (b ∷ [])) }
{
    if b == 0 { 2 } else { 1 }
}

// The least of the n bytes from at on, 255 where there is none. Only one byte is kept, so that the loop becomes vector code.
fn least_byte(file: &[u8], at: usize, n: usize) -> u8
    requires { at + n ≤ length file.now }
    ensures { result ≡ least_byte (run (byte_at file.now) 1 n at) }
{
    let mut low: u8 = 255;
    for i in 0..n {
        low = low.min(file[at + i]);
    }
    low
}

// Whether none of the n bytes from `at` on is zero: then they are their own escaped form.
pub fn is_plain(file: &[u8], at: usize, n: usize) -> bool
    requires { at + n ≤ length file.now }
    ensures { result ≡ plain (run (byte_at file.now) 1 n at) }
{
    0 < least_byte(file, at, n)
}

// What escaped_len gives, counted byte by byte: for the few texts that have a zero byte.
fn count_escaped(file: &[u8], at: usize, n: usize) -> usize
    requires { (at + n ≤ length file.now) × (n ≤ file_limit) }
    ensures gives { result ≡ length (escape (run (byte_at file.now) 1 n at)) }
    ensures bounded { result ≤ 2 * n }
{
    let mut len: usize = 0;
    for i in 0..n {
        len += width(file[at + i]);
    }
    len
}

// How many bytes the n bytes from `at` on take, a zero byte taking two. Nearly every text is plain and takes its own length.
pub fn escaped_len(file: &[u8], at: usize, n: usize) -> usize
    requires { (at + n ≤ length file.now) × (n ≤ file_limit) }
    ensures gives { result ≡ length (escape (run (byte_at file.now) 1 n at)) }
    ensures bounded { result ≤ 2 * n }
{
    if is_plain(file, at, n) {
        return n;
    }
    count_escaped(file, at, n)
}

// The length of a name's prefix bytes: 03 and its text.
pub fn prefix_len(file: &IndexedFile, name: usize) -> usize
    requires { name < length (tables_in file.now).names }
    ensures gives { result ≡ length (encode_prefix (name_at (tables_in file.now) name)) }
    ensures bounded { result ≤ cap + 1 }
{
    let t = file.name_at(name);
    1 + escaped_len(file.bytes, t.at, t.len)
}

// A constant that fits type Int alone.
// This and the next two ask for one type each: one function for them would be given the type, and its clause would choose among theirs.
fn at_int(file: &IndexedFile, ty: usize, c: Const) -> Option<Const>
    requires { ty < length (tables_in file.now).types }
    ensures { result ≡ int_only (type_at (tables_in file.now) ty) c }
{
    matches!(file.type_at(ty), TypeView::Int).then_some(c)
}

// A constant that fits type Str alone.
fn at_str(file: &IndexedFile, ty: usize, c: Const) -> Option<Const>
    requires { ty < length (tables_in file.now).types }
    ensures { result ≡ str_only (type_at (tables_in file.now) ty) c }
{
    matches!(file.type_at(ty), TypeView::Str).then_some(c)
}

// A constant that fits type Bytes alone.
fn at_bytes(file: &IndexedFile, ty: usize, c: Const) -> Option<Const>
    requires { ty < length (tables_in file.now).types }
    ensures { result ≡ bytes_alone (type_at (tables_in file.now) ty) c }
{
    matches!(file.type_at(ty), TypeView::Bytes).then_some(c)
}

// The length of a constant's bytes. Prefix or Fuzzy within a record or union gives none.
fn bytes_only(c: Option<Const>) -> Option<usize>
    ensures { result ≡ size_of c }
{
    match c {
        Some(Const::Bytes(_, _, n)) => Some(n),
        _ => None,
    }
}

// A constant of k bytes around what was measured: a record's or union's first and last bytes.
fn wrap(node: usize, ty: usize, k: usize, s: Option<usize>) -> Option<Const>
    requires k_bound { k ≤ 16 }
    requires small { Small s }
    ensures { result ≡ wrapped node ty k s }
{
    s.map(|n| Const::Bytes(node, ty, capped(k, n)))
}

// Whether a constant is bytes.
fn is_bytes(c: Option<Const>) -> bool
    ensures { result ≡ is_bytes c }
{
    matches!(c, Some(Const::Bytes(_, _, _)))
}

// Whether a field has bytes: the first of a Record's n pairs that has its name.
// has_.., constant_.., put_.. stay three: a walk over a trait of results needs its laws at each step; each contract is in the rules' words.
#[cycle(has_bytes_has_field_has_fields_has_payload_has_record)]
fn has_field(file: &AcceptedFile, node: usize, n: usize, at: usize, name: usize, ty: usize) -> bool
    requires patterns { Patterns file.now.tables.bytes.now (accepted_tables file.now) node n at }
    requires ty_in_bounds { ty < length (accepted_tables file.now).types }
    ensures { let f = file.now.tables.bytes.now in
        let patterns = run (pattern_at f) 4 n at in
        result ≡ given (field_bytes (ConstantRules.constant (tables_of f)) patterns name ty) }
{
    let Some(p) = field_pattern(file.tables.bytes, at, n, name) else {
        return false;
    };
    has_bytes(file, p, ty)
}

// Whether each of the k fields of a Record type has bytes.
#[cycle(has_bytes_has_field_has_fields_has_payload_has_record)]
fn has_fields(file: &AcceptedFile, node: usize, n: usize, at: usize, k: usize, from: usize) -> bool
    requires patterns { Patterns file.now.tables.bytes.now (accepted_tables file.now) node n at }
    requires fields { Fields file.now.tables.bytes.now (accepted_tables file.now) k from }
    ensures { let f = file.now.tables.bytes.now in
        let patterns = run (pattern_at f) 4 n at in
        let fields = run (field_at f) 4 k from in
        result ≡ given (constant_fields (ConstantRules.constant (tables_of f)) patterns fields) }
{
    for i in 0..k {
        let f = field_ty_at(file.tables.bytes, from, i);
        if !has_field(file, node, n, at, f.name, f.ty) {
            return false;
        }
    }
    true
}

// Whether the payload of a union value has bytes: a record of one pair, which names one of the k alternatives.
#[cycle(has_bytes_has_field_has_fields_has_payload_has_record)]
fn has_payload(file: &AcceptedFile, node: usize, n: usize, at: usize, k: usize, from: usize) -> bool
    requires patterns { Patterns file.now.tables.bytes.now (accepted_tables file.now) node n at }
    requires alternatives { Alternatives file.now.tables.bytes.now (accepted_tables file.now) k from }
    ensures { let f = file.now.tables.bytes.now in
        let patterns = run (pattern_at f) 4 n at in
        let alternatives = run (alternative_at f) 8 k from in
        result ≡ given (payload_bytes (ConstantRules.constant (tables_of f)) patterns alternatives) }
{
    if n != 1 {
        return false;
    }
    let p = field_pattern_at(file.tables.bytes, at, 0);
    let Some(a) = alternative_of(file.tables.bytes, from, k, p.name) else {
        return false;
    };
    has_bytes(file, p.node, a.ty)
}

// Whether a Record of n pairs has bytes at a type: as the index remembers it, else by its fields or its payload.
#[cycle(has_bytes_has_field_has_fields_has_payload_has_record)]
fn has_record(file: &AcceptedFile, node: usize, ty: usize, n: usize, at: usize) -> bool
    requires record_at { RecordAt file.now.tables.bytes.now (accepted_tables file.now) node n at }
    requires ty_in_bounds { ty < length (accepted_tables file.now).types }
    ensures { let f = file.now.tables.bytes.now in
        let T = tables_of f in
        result ≡ has_bytes (constant_record (ConstantRules.constant T) (run (pattern_at f) 4 n at) (type_at T ty)) }
{
    if let Some(d) = recall(file.tables.index, node, ty) {
        return d == Fate::Bytes;
    }
    match file.tables.type_at(ty) {
        TypeView::Record(k, from) => has_fields(file, node, n, at, k, from),
        TypeView::Union(k, from) => has_payload(file, node, n, at, k, from),
        _ => false,
    }
}

// Whether a pattern has bytes at a type. Nothing is measured for it, and what a Const comes to may be known to the index.
#[cycle(has_bytes_has_field_has_fields_has_payload_has_record)]
pub fn has_bytes(file: &AcceptedFile, node: usize, ty: usize) -> bool
    requires node_in_bounds { node < length (accepted_tables file.now).nodes }
    requires ty_in_bounds { ty < length (accepted_tables file.now).types }
    ensures { result ≡ has_bytes (ConstantRules.constant (accepted_tables file.now) node ty) }
{
    let m = folded(file, node);
    match file.tables.node_at(m) {
        NodeView::Int(_) => is_bytes(at_int(&file.tables, ty, Const::Bytes(node, ty, 0))),
        NodeView::Str(_) => is_bytes(at_str(&file.tables, ty, Const::Bytes(node, ty, 0))),
        NodeView::Bytes(_, _) => is_bytes(at_bytes(&file.tables, ty, Const::Bytes(node, ty, 0))),
        NodeView::Record(n, at) => has_record(file, m, ty, n, at),
        _ => false,
    }
}

// A field's bytes: those of the first of a Record's n pairs that has its name.
// has_.., constant_.., put_.. stay three: a walk over a trait of results needs its laws at each step; each contract is in the rules' words.
#[cycle(constant_field_constant_fields_constant_of_constant_record_constant_union)]
fn constant_field(
    file: &AcceptedFile,
    node: usize,
    n: usize,
    at: usize,
    name: usize,
    ty: usize,
) -> Option<usize>
    requires patterns { Patterns file.now.tables.bytes.now (accepted_tables file.now) node n at }
    requires ty_in_bounds { ty < length (accepted_tables file.now).types }
    ensures { let f = file.now.tables.bytes.now in
        let patterns = run (pattern_at f) 4 n at in
        result ≡ size_with 0 (field_bytes (ConstantRules.constant (tables_of f)) patterns name ty) }
{
    let p = field_pattern(file.tables.bytes, at, n, name)?;
    bytes_only(constant_of(file, p, ty, true))
}

// The k fields of a Record type, in its order. The encoding goes by position, so one field without bytes leaves none.
#[cycle(constant_field_constant_fields_constant_of_constant_record_constant_union)]
fn constant_fields(
    file: &AcceptedFile,
    node: usize,
    n: usize,
    at: usize,
    k: usize,
    from: usize,
) -> Option<usize>
    requires patterns { Patterns file.now.tables.bytes.now (accepted_tables file.now) node n at }
    requires fields { Fields file.now.tables.bytes.now (accepted_tables file.now) k from }
    ensures { let f = file.now.tables.bytes.now in
        let patterns = run (pattern_at f) 4 n at in
        let fields = run (field_at f) 4 k from in
        result ≡ size_with 0 (constant_fields (ConstantRules.constant (tables_of f)) patterns fields) }
{
    let mut total: usize = 0;
    for i in 0..k {
        let f = field_ty_at(file.tables.bytes, from, i);
        let len = constant_field(file, node, n, at, f.name, f.ty)?;
        total = capped(total, len);
    }
    Some(total)
}

// The payload of a union value: a record of one pair, which names one of the k alternatives.
#[cycle(constant_field_constant_fields_constant_of_constant_record_constant_union)]
fn constant_union(
    file: &AcceptedFile,
    node: usize,
    n: usize,
    at: usize,
    k: usize,
    from: usize,
) -> Option<usize>
    requires patterns { Patterns file.now.tables.bytes.now (accepted_tables file.now) node n at }
    requires alternatives { Alternatives file.now.tables.bytes.now (accepted_tables file.now) k from }
    ensures { let f = file.now.tables.bytes.now in
        let patterns = run (pattern_at f) 4 n at in
        let alternatives = run (alternative_at f) 8 k from in
        result ≡ size_with 0 (payload_bytes (ConstantRules.constant (tables_of f)) patterns alternatives) }
{
    if n != 1 {
        return None;
    }
    let p = field_pattern_at(file.tables.bytes, at, 0);
    let a = alternative_of(file.tables.bytes, from, k, p.name)?;
    bytes_only(constant_of(file, p.node, a.ty, true))
}

// A Record's n pairs at a type: a record, a union, or no constant.
#[cycle(constant_field_constant_fields_constant_of_constant_record_constant_union)]
fn constant_record(
    file: &AcceptedFile,
    node: usize,
    ty: usize,
    n: usize,
    at: usize,
) -> Option<Const>
    requires patterns { Patterns file.now.tables.bytes.now (accepted_tables file.now) node n at }
    requires ty_in_bounds { ty < length (accepted_tables file.now).types }
    ensures { let f = file.now.tables.bytes.now in
        let T = tables_of f in
        let patterns = run (pattern_at f) 4 n at in
        result ≡ view_of T node ty (constant_record (ConstantRules.constant T) patterns (type_at T ty)) }
{
    match file.tables.type_at(ty) {
        TypeView::Record(k, from) => wrap(node, ty, 2, constant_fields(file, node, n, at, k, from)),
        TypeView::Union(k, from) => wrap(node, ty, 6, constant_union(file, node, n, at, k, from)),
        _ => None,
    }
}

// Whether a Record of n pairs may have bytes at a type: one that is not sure to have them is asked.
fn may_have(file: &AcceptedFile, node: usize, ty: usize, n: usize, at: usize, sure: bool) -> bool
    requires record_at { RecordAt file.now.tables.bytes.now (accepted_tables file.now) node n at }
    requires ty_in_bounds { ty < length (accepted_tables file.now).types }
    ensures { let f = file.now.tables.bytes.now in
        let T = tables_of f in
        let patterns = run (pattern_at f) 4 n at in
        result ≡ either sure (has_bytes (constant_record (ConstantRules.constant T) patterns (type_at T ty))) }
{
    sure || has_record(file, node, ty, n, at)
}

// What `constant` gives. A pattern inside a Record that has bytes is sure to have them too, and is not asked again.
#[cycle(constant_field_constant_fields_constant_of_constant_record_constant_union)]
fn constant_of(file: &AcceptedFile, node: usize, ty: usize, sure: bool) -> Option<Const>
    requires node_in_bounds { node < length (accepted_tables file.now).nodes }
    requires ty_in_bounds { ty < length (accepted_tables file.now).types }
    ensures { result ≡ const_view (accepted_tables file.now) node ty }
{
    let m = folded(file, node);
    match file.tables.node_at(m) {
        NodeView::Int(_) => at_int(&file.tables, ty, Const::Bytes(node, ty, 9)),
        NodeView::Str(x) => {
            let n = capped(1, prefix_len(&file.tables, x));
            at_str(&file.tables, ty, Const::Bytes(node, ty, n))
        }
        NodeView::Bytes(k, at) => {
            let n = capped(2, escaped_len(file.tables.bytes, at, k));
            at_bytes(&file.tables, ty, Const::Bytes(node, ty, n))
        }
        NodeView::Prefix(x) => at_str(&file.tables, ty, Const::Prefix(x)),
        NodeView::Fuzzy(x, d, a) => at_str(&file.tables, ty, Const::Fuzzy(x, d, a)),
        NodeView::Record(n, at) => {
            if !may_have(file, m, ty, n, at, sure) {
                return None;
            }
            constant_record(file, node, ty, n, at)
        }
        _ => None,
    }
}

// The bytes that a pattern determines at a type, if it determines all of them: where they come from, and how many they are. A Record is
// asked first whether it has bytes at all, so that only what has them is measured.
pub fn constant(file: &AcceptedFile, node: usize, ty: usize) -> Option<Const>
    requires node_in_bounds { node < length (accepted_tables file.now).nodes }
    requires ty_in_bounds { ty < length (accepted_tables file.now).types }
    ensures { result ≡ const_view (accepted_tables file.now) node ty }
{
    constant_of(file, node, ty, false)
}
