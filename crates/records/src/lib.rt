// Records of the plan's form, written at a place of a lent buffer and read back. A place outside the buffer takes nothing, so no caller
// has to show that there is room.
#![tactic(auto)]

ghost use Rattle.std.specs.Prelude.{◌≡◌, true, false, [], ◌∷◌, ◌++◌, ℕ, ◌+◌, ◌*◌, ◌≤◌, ◌<◌, length, get_or};
ghost use Rattle.rules.specs.Limits.{step_limit};
ghost use Rattle.rules.specs.Constant.{union_tag};
ghost use Rattle.rules.specs.Events.{Narrowing};
ghost use Rattle.rules.specs.Plan as Plan;
ghost use Rattle.state.specs.State.{word_in};
ghost use Rattle.paths.specs.Paths.{path_of};
ghost use Rattle.views.specs.Views.{anchor_of};
ghost use Rattle.records.specs.Records.{put, reach, longest_path, written_at, behind, moved_to, head_of, apart_of, cut};

use paths::{Address, FieldPath};
use views::Anchor;

// Where bytes go in the plan, and whether they do. A part that is joined has no frame. `write` is a flag and `at` no Option: a place that
// takes nothing still moves on, and a clause says where to (`behind`).
#[derive(Clone, Copy)]
pub struct Place {
    pub write: bool,
    pub joined: bool,
    pub at: usize,
}

// Like tables' `word_or_zero`: one expression each, and a generic one would have to state its From in the clause.
fn byte_or_zero(bytes: &[u8], p: usize) -> usize
    ensures { (result ≡ get_or bytes.now p 0) × (result < 256) }
{
    bytes.get(p).map_or(0, |x| usize::from(*x))
}

// The word at p, its lower byte first; past the end bytes are 0, so that `from_le_bytes` has no two bytes to take.
pub fn word_in(bytes: &[u8], p: usize) -> usize
    requires { p ≤ reach }
    ensures { (result ≡ word_in bytes.now p) × (result < 65536) }
{
    byte_or_zero(bytes, p) + 256 * byte_or_zero(bytes, p + 1)
}

// Writes a byte, or nothing where the buffer has ended.
pub fn put8(buf: &mut [u8], at: usize, b: u8)
    ensures { buf.new ≡ put buf.old at (b ∷ []) }
{
    if at < buf.len() {
        buf[at] = b;
    }
}

// Writes a number as two bytes, the lower first: byte by byte, since each byte has its own place, and one outside the buffer takes nothing
// (put8), so `to_le_bytes` would give an array to take apart again.
pub fn put16(buf: &mut [u8], at: usize, v: usize)
    requires { at ≤ 4 * reach }
    ensures { buf.new ≡ put buf.old at (Plan.u16 v) }
{
    put8(buf, at, (v % 256) as u8);
    put8(buf, at + 1, (v / 256 % 256) as u8);
}

// Writes a number as four bytes, the lowest first.
pub fn put32(buf: &mut [u8], at: usize, v: u32)
    requires { at ≤ 4 * reach }
    ensures { buf.new ≡ put buf.old at (Plan.u32 v) }
{
    put8(buf, at, (v % 256) as u8);
    put8(buf, at + 1, (v / 256 % 256) as u8);
    put8(buf, at + 2, (v / 65536 % 256) as u8);
    put8(buf, at + 3, (v / 16777216 % 256) as u8);
}

// Writes the five bytes of a union's tag: 05, then the disc, its highest byte first.
pub fn put_tag(buf: &mut [u8], at: usize, disc: u32)
    requires { at ≤ 4 * reach }
    ensures { buf.new ≡ put buf.old at (union_tag disc) }
{
    put8(buf, at, 5);
    put8(buf, at + 1, (disc / 16777216 % 256) as u8);
    put8(buf, at + 2, (disc / 65536 % 256) as u8);
    put8(buf, at + 3, (disc / 256 % 256) as u8);
    put8(buf, at + 4, (disc % 256) as u8);
}

// The same path, with a count that is at most the steps that a path has room for.
pub fn within(p: FieldPath) -> FieldPath
    ensures { (path_of result ≡ path_of p) × (result.count ≤ step_limit) × (result ≡ cut p) }
{
    let mut q = p;
    q.count = p.count.min(FieldPath::STEP_LIMIT as u16);
    q
}

// How many bytes a path takes in the plan.
pub fn path_size(p: FieldPath) -> usize
    ensures { (result ≡ length (Plan.path (path_of p))) × (result ≤ longest_path) }
{
    let q = within(p);
    3 + 4 * (q.count as usize)
}

// Writes a path, and gives where it ends.
pub fn put_path(buf: &mut [u8], at: usize, p: FieldPath) -> usize
    requires { at ≤ 2 * reach }
    ensures { let form = Plan.path (path_of p) in
        (result ≡ at + length form) × (result ≤ at + longest_path) × (buf.new ≡ put buf.old at form) }
{
    let q = within(p);
    let n = q.count as usize;
    put16(buf, at, usize::from(q.field));
    put8(buf, at + 2, n as u8);
    for i in 0..n {
        put32(buf, at + 3 + 4 * i, q.steps[i]);
    }
    at + 3 + 4 * n
}

// Writes a residual's path, and gives where its op goes.
pub fn put_path_at(plan: &mut [u8], place: Place, path: FieldPath) -> Place
    requires { place.at ≤ reach }
    ensures { let form = Plan.path (path_of path) in
        (plan.new ≡ written_at place form plan.old) × (result ≡ behind (length form) place) × (result.at ≤ place.at + longest_path) }
{
    if !place.write {
        return Place {
            write: false,
            joined: place.joined,
            at: place.at + path_size(path),
        };
    }
    let at = put_path(plan, place.at, path);
    Place {
        write: true,
        joined: place.joined,
        at,
    }
}

// Writes what stands before a text of `len` bytes, a kind and the length, and gives where the text goes. The kind is the plan's own byte
// and is written as it is (so too in put_register and put_fact).
pub fn put_text_at(plan: &mut [u8], place: Place, kind: u8, len: usize) -> Place
    requires { place.at ≤ 2 * reach }
    ensures { let form = kind ∷ Plan.u16 len in
        (plan.new ≡ written_at place form plan.old) × (result ≡ behind 3 place) × (result.at ≤ place.at + 3) }
{
    let at = place.at;
    let end = Place {
        write: place.write,
        joined: place.joined,
        at: at + 3,
    };
    if !place.write {
        return end;
    }
    put8(plan, at, kind);
    put16(plan, at + 1, len);
    end
}

// Writes what stands before the `len` bytes of a part (nothing where the parts are joined), and gives where the bytes go.
pub fn put_head(plan: &mut [u8], place: Place, len: usize) -> Place
    requires { place.at ≤ reach }
    ensures { let head = head_of place.joined len in
        (plan.new ≡ written_at place head plan.old) × (result ≡ behind (length head) place) × (result.at ≤ place.at + 3) }
{
    if place.joined {
        return place;
    }
    put_text_at(plan, place, 0, len)
}

// Writes a union's tag as the bytes of a part.
pub fn put_tag_at(plan: &mut [u8], place: Place, disc: u32)
    requires { place.at ≤ 2 * reach }
    ensures { plan.new ≡ written_at place (union_tag disc) plan.old }
{
    if !place.write {
        return;
    }
    put_tag(plan, place.at, disc);
}

// Writes one byte.
pub fn put_byte_at(plan: &mut [u8], place: Place, b: u8)
    ensures { plan.new ≡ written_at place (b ∷ []) plan.old }
{
    if !place.write {
        return;
    }
    put8(plan, place.at, b);
}

// Writes the op of a residual that is a union's tag: its kind and the disc.
pub fn put_tag_op(plan: &mut [u8], place: Place, disc: u32)
    requires { place.at ≤ 2 * reach }
    ensures { plan.new ≡ written_at place (Plan.op (Narrowing.Tag disc)) plan.old }
{
    if !place.write {
        return;
    }
    let at = place.at;
    put8(plan, at, 4);
    put32(plan, at + 1, disc);
}

// The byte that stands for an anchor in the plan.
pub fn anchor_byte(anchor: Anchor) -> u8
    ensures { result ≡ Plan.anchor (anchor_of anchor) }
{
    anchor as u8
}

// Writes the op of a residual that is a fuzzy text.
pub fn put_fuzzy(plan: &mut [u8], place: Place, name: usize, distance: u8, anchor: Anchor)
    requires { place.at ≤ 2 * reach }
    ensures { let form = Plan.op (Narrowing.Fuzzy name distance (anchor_of anchor)) in
        plan.new ≡ written_at place form plan.old }
{
    if !place.write {
        return;
    }
    let at = place.at;
    put8(plan, at, 5);
    put16(plan, at + 1, name);
    put8(plan, at + 3, distance);
    put8(plan, at + 4, anchor_byte(anchor));
}

// Writes a part or the op of a residual that is a register's field: a kind, the register and the path. The bound on `place.at` differs
// from step to step, as each goes further; so it is a clause of each and no type's.
pub fn put_register(plan: &mut [u8], place: Place, kind: u8, address: Address, path: FieldPath)
    requires { place.at ≤ reach }
    ensures { let form = kind ∷ Plan.u16 address.0 ++ Plan.path (path_of path) in
        plan.new ≡ written_at place form plan.old }
{
    if !place.write {
        return;
    }
    let at = place.at;
    put8(plan, at, kind);
    put16(plan, at + 1, usize::from(address.0));
    put_path(plan, at + 3, path);
}

// Writes the op of a residual that is a field of the level's own row: 6, and the field's path.
pub fn put_own_op(plan: &mut [u8], place: Place, path: FieldPath)
    requires { place.at ≤ reach }
    ensures { let form = Plan.op (Narrowing.OwnField (path_of path)) in
        plan.new ≡ written_at place form plan.old }
{
    if !place.write {
        return;
    }
    let at = place.at;
    put8(plan, at, 6);
    put_path(plan, at + 1, path);
}

// Writes a part or the op of a residual that is the id of a register's fact: a kind and the register.
pub fn put_fact(plan: &mut [u8], place: Place, kind: u8, address: Address)
    requires { place.at ≤ 2 * reach }
    ensures { plan.new ≡ written_at place (kind ∷ Plan.u16 address.0) plan.old }
{
    if !place.write {
        return;
    }
    let at = place.at;
    put8(plan, at, kind);
    put16(plan, at + 1, usize::from(address.0));
}

// The place of a part that is not bytes: where the parts are joined to one text it writes nothing.
pub fn apart(place: Place) -> Place
    ensures { (result ≡ apart_of place) × (result.at ≡ place.at) }
{
    if place.joined {
        return Place {
            write: false,
            joined: true,
            at: place.at,
        };
    }
    place
}

// Writes the node that made a part or a residual, at a place of its own, if the part or residual is written.
pub fn put_node(plan: &mut [u8], place: Place, at: usize, node: usize)
    requires { at ≤ 4 * reach }
    ensures { plan.new ≡ written_at (moved_to at place) (Plan.u16 node) plan.old }
{
    if !place.write {
        return;
    }
    put16(plan, at, node);
}
