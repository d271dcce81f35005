// The bytes of a constant, written at a position of a lent buffer; the position after them is handed back. What lies past the buffer's
// end is not written.
#![tactic(auto)]

ghost use Rattle.std.specs.Prelude.{◌+◌, ◌*◌, ◌≤◌, ◌<◌, [], ◌∷◌, length};
ghost use Rattle.rules.specs.Limits.{file_limit};
ghost use Rattle.rules.specs.File.{Ty, name_at, type_at};
ghost use Rattle.rules.specs.Constant as ConstantRules;
ghost use Rattle.rules.specs.Constant.{escape, encode_int, encode_prefix, encode_str, encode_bytes, constant_fields};
ghost use Rattle.file.specs.Tables.{tables_of};
ghost use Rattle.views.specs.Files.{tables_in};
ghost use Rattle.views.specs.Views.{run, byte_at, field_at, alternative_at, pattern_at};
ghost use Rattle.records.specs.Records.{reach};
ghost use Rattle.accepted_file.specs.Tables.{accepted_tables};
ghost use Rattle.constant.specs.Sizes.{cap, field_bytes, Patterns, Fields, Alternatives};
ghost use Rattle.encode.specs.Written.{or_empty, bytes_of, record_bytes, RoomForBytes, Wrote, down};

use accepted_file::AcceptedFile;
use constant::is_plain;
use records::{put_tag, put8};
use tables::{alternative_of, field_pattern, folded};
use views::{IndexedFile, NodeView, TypeView, field_pattern_at, field_ty_at};

// Writes a byte of a text; a zero byte is followed by FF.
fn put_escaped(buf: &mut [u8], at: usize, b: u8) -> usize
    requires { at ≤ 3 * reach }
    ensures { Wrote (escape (b ∷ [])) at buf.old result buf.new }
{
    put8(buf, at, b);
    if b == 0 {
        put8(buf, at + 1, 255);
        return at + 2;
    }
    at + 1
}

// What put_text writes, byte by byte: for the few texts that have a zero byte, or no room.
fn put_escapes(file: &[u8], buf: &mut [u8], at: usize, from: usize, n: usize) -> usize
    requires { (from + n ≤ length file.now) × (n ≤ file_limit) × (at ≤ 2 * reach) }
    ensures { let text = run (byte_at file.now) 1 n from in
        Wrote (escape text) at buf.old result buf.new }
{
    let mut p = at;
    for i in 0..n {
        p = put_escaped(buf, p, file[from + i]);
    }
    p
}

// Writes n bytes of the file as they are. There is room for them, so this is one copy.
fn put_plain(file: &[u8], buf: &mut [u8], at: usize, from: usize, n: usize) -> usize
    requires { (from + n ≤ length file.now) × (at + n ≤ length buf.old) }
    ensures { let text = run (byte_at file.now) 1 n from in
        Wrote text at buf.old result buf.new }
{
    buf[at..at + n].copy_from_slice(&file[from..from + n]);
    at + n
}

// Writes n bytes of the file escaped. Nearly every text is plain: then it is copied.
fn put_text(file: &[u8], buf: &mut [u8], at: usize, from: usize, n: usize) -> usize
    requires { (from + n ≤ length file.now) × (n ≤ file_limit) × (at ≤ 2 * reach) }
    ensures { let text = run (byte_at file.now) 1 n from in
        Wrote (escape text) at buf.old result buf.new }
{
    if at + n <= buf.len() && is_plain(file, from, n) {
        return put_plain(file, buf, at, from, n);
    }
    put_escapes(file, buf, at, from, n)
}

// Writes n bytes of the file, the last of them first.
fn put_down(file: &[u8], buf: &mut [u8], at: usize, from: usize, n: usize) -> usize
    requires { (from + n ≤ length file.now) × (n ≤ 8) × (at ≤ 2 * reach) }
    ensures { Wrote (down (byte_at file.now) n from) at buf.old result buf.new }
{
    let mut p = at;
    for left in (0..n).rev() {
        put8(buf, p, file[from + left]);
        p += 1;
    }
    p
}

// Writes an Int: 02, then eight bytes big-endian with the sign bit flipped.
pub fn put_i64(file: &[u8], buf: &mut [u8], at: usize, from: usize) -> usize
    requires { (from + 8 ≤ length file.now) × (at ≤ reach) }
    ensures { let bytes = run (byte_at file.now) 1 8 from in
        Wrote (encode_int bytes) at buf.old result buf.new }
{
    put8(buf, at, 2);
    let high = (usize::from(file[from + 7]) + 128) % 256;
    put8(buf, at + 1, high as u8);
    put_down(file, buf, at + 2, from, 7)
}

// Writes a Prefix, which is the Str without its 00.
pub fn put_prefix(file: &IndexedFile, buf: &mut [u8], at: usize, name: usize) -> usize
    requires { (name < length (tables_in file.now).names) × (at ≤ reach) }
    ensures writes { let text = name_at (tables_in file.now) name in
        Wrote (encode_prefix text) at buf.old result buf.new }
    ensures bounded { result ≤ at + cap + 1 }
{
    put8(buf, at, 3);
    let t = file.name_at(name);
    put_text(file.bytes, buf, at + 1, t.at, t.len)
}

// Writes a Str: 03, the text escaped, 00.
pub fn put_str(file: &IndexedFile, buf: &mut [u8], at: usize, name: usize) -> usize
    requires { (name < length (tables_in file.now).names) × (at ≤ reach) }
    ensures { let text = name_at (tables_in file.now) name in
        Wrote (encode_str text) at buf.old result buf.new }
{
    let p = put_prefix(file, buf, at, name);
    put8(buf, p, 0);
    p + 1
}

// Writes Bytes: 04, the bytes escaped, 00.
pub fn put_bytes(file: &[u8], buf: &mut [u8], at: usize, from: usize, n: usize) -> usize
    requires { (from + n ≤ length file.now) × (n ≤ file_limit) × (at ≤ reach) }
    ensures { let bytes = run (byte_at file.now) 1 n from in
        Wrote (encode_bytes bytes) at buf.old result buf.new }
{
    put8(buf, at, 4);
    let p = put_text(file, buf, at + 1, from, n);
    put8(buf, p, 0);
    p + 1
}

// Writes a field: the first of a Record's n pairs that has its name.
// has_.., constant_.., put_.. stay three: a walk over a trait of results needs its laws at each step; each contract is in the rules' words.
#[cycle(put_constant_put_field_put_fields_put_record_put_union)]
fn put_field(
    file: &AcceptedFile,
    buf: &mut [u8],
    at: usize,
    node: usize,
    n: usize,
    pairs: usize,
    name: usize,
    ty: usize,
) -> usize
    requires patterns { Patterns file.now.tables.bytes.now (accepted_tables file.now) node n pairs }
    requires ty_in_bounds { ty < length (accepted_tables file.now).types }
    requires fact { let f = file.now.tables.bytes.now in
        let patterns = run (pattern_at f) 4 n pairs in
        RoomForBytes (field_bytes (ConstantRules.constant (tables_of f)) patterns name ty) at }
    ensures { let f = file.now.tables.bytes.now in
        let patterns = run (pattern_at f) 4 n pairs in
        let bytes = field_bytes (ConstantRules.constant (tables_of f)) patterns name ty in
        Wrote (or_empty bytes) at buf.old result buf.new }
{
    let Some(p) = field_pattern(file.tables.bytes, pairs, n, name) else {
        return at;
    };
    put_constant(file, buf, at, p, ty)
}

// Writes the k fields of a Record type, in its order.
#[cycle(put_constant_put_field_put_fields_put_record_put_union)]
fn put_fields(
    file: &AcceptedFile,
    buf: &mut [u8],
    at: usize,
    node: usize,
    n: usize,
    pairs: usize,
    k: usize,
    from: usize,
) -> usize
    requires patterns { Patterns file.now.tables.bytes.now (accepted_tables file.now) node n pairs }
    requires fields { Fields file.now.tables.bytes.now (accepted_tables file.now) k from }
    requires fact { let f = file.now.tables.bytes.now in
        let patterns = run (pattern_at f) 4 n pairs in
        let fields = run (field_at f) 4 k from in
        RoomForBytes (constant_fields (ConstantRules.constant (tables_of f)) patterns fields) at }
    ensures { let f = file.now.tables.bytes.now in
        let patterns = run (pattern_at f) 4 n pairs in
        let fields = run (field_at f) 4 k from in
        let bytes = constant_fields (ConstantRules.constant (tables_of f)) patterns fields in
        Wrote (or_empty bytes) at buf.old result buf.new }
{
    let mut p = at;
    for i in 0..k {
        let f = field_ty_at(file.tables.bytes, from, i);
        p = put_field(file, buf, p, node, n, pairs, f.name, f.ty);
    }
    p
}

// Writes a union: 05, the disc big-endian, the payload, 00. Its value is one pair, which names one of the k alternatives.
#[cycle(put_constant_put_field_put_fields_put_record_put_union)]
fn put_union(
    file: &AcceptedFile,
    buf: &mut [u8],
    at: usize,
    node: usize,
    n: usize,
    pairs: usize,
    k: usize,
    from: usize,
) -> usize
    requires patterns { Patterns file.now.tables.bytes.now (accepted_tables file.now) node n pairs }
    requires alternatives { Alternatives file.now.tables.bytes.now (accepted_tables file.now) k from }
    requires fact { let f = file.now.tables.bytes.now in
        let patterns = run (pattern_at f) 4 n pairs in
        let alternatives = run (alternative_at f) 8 k from in
        RoomForBytes (record_bytes (ConstantRules.constant (tables_of f)) patterns (Ty.Union alternatives)) at }
    ensures { let f = file.now.tables.bytes.now in
        let patterns = run (pattern_at f) 4 n pairs in
        let alternatives = run (alternative_at f) 8 k from in
        let bytes = record_bytes (ConstantRules.constant (tables_of f)) patterns (Ty.Union alternatives) in
        Wrote (or_empty bytes) at buf.old result buf.new }
{
    let p = field_pattern_at(file.tables.bytes, pairs, 0);
    let Some(a) = alternative_of(file.tables.bytes, from, k, p.name) else {
        return at;
    };
    put_tag(buf, at, a.disc);
    let q = put_constant(file, buf, at + 5, p.node, a.ty);
    put8(buf, q, 0);
    q + 1
}

// Writes a Record's n pairs at a type: 06, the fields, 00; or a union.
#[cycle(put_constant_put_field_put_fields_put_record_put_union)]
fn put_record(
    file: &AcceptedFile,
    buf: &mut [u8],
    at: usize,
    node: usize,
    n: usize,
    pairs: usize,
    ty: usize,
) -> usize
    requires patterns { Patterns file.now.tables.bytes.now (accepted_tables file.now) node n pairs }
    requires ty_in_bounds { ty < length (accepted_tables file.now).types }
    requires fact { let f = file.now.tables.bytes.now in
        let patterns = run (pattern_at f) 4 n pairs in
        let T = tables_of f in
        RoomForBytes (record_bytes (ConstantRules.constant T) patterns (type_at T ty)) at }
    ensures { let f = file.now.tables.bytes.now in
        let patterns = run (pattern_at f) 4 n pairs in
        let T = tables_of f in
        let bytes = record_bytes (ConstantRules.constant T) patterns (type_at T ty) in
        Wrote (or_empty bytes) at buf.old result buf.new }
{
    match file.tables.type_at(ty) {
        TypeView::Record(k, from) => {
            put8(buf, at, 6);
            let p = put_fields(file, buf, at + 1, node, n, pairs, k, from);
            put8(buf, p, 0);
            p + 1
        }
        TypeView::Union(k, from) => put_union(file, buf, at, node, n, pairs, k, from),
        _ => at,
    }
}

// Writes the bytes of a node at a type; its constant is bytes.
#[cycle(put_constant_put_field_put_fields_put_record_put_union)]
pub fn put_constant(file: &AcceptedFile, buf: &mut [u8], at: usize, node: usize, ty: usize) -> usize
    requires node_in_bounds { node < length (accepted_tables file.now).nodes }
    requires ty_in_bounds { ty < length (accepted_tables file.now).types }
    requires room_for_bytes { RoomForBytes (bytes_of (accepted_tables file.now) node ty) at }
    ensures { let bytes = bytes_of (accepted_tables file.now) node ty in
        Wrote (or_empty bytes) at buf.old result buf.new }
{
    let m = folded(file, node);
    match file.tables.node_at(m) {
        NodeView::Int(p) => put_i64(file.tables.bytes, buf, at, p),
        NodeView::Str(x) => put_str(&file.tables, buf, at, x),
        NodeView::Bytes(n, p) => put_bytes(file.tables.bytes, buf, at, p, n),
        NodeView::Record(n, p) => put_record(file, buf, at, node, n, p, ty),
        _ => at,
    }
}
