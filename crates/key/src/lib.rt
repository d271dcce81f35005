// The walk of a pattern against a type. Each round of the four descends one type, whose number falls.
// Node, type and path of a step stay parameters: they are the arguments of the written walk, in its order.
#![tactic(auto)]

ghost use Rattle.std.specs.Prelude.{◌≡◌, ◌<◌, length};
ghost use Rattle.rules.specs.File.{node_at, field_path};
ghost use Rattle.rules.specs.Walk as WalkRules;
ghost use Rattle.state.specs.Ops.{ops, skip};
ghost use Rattle.paths.specs.Paths.{path_of};
ghost use Rattle.slots.specs.Slots.{slot_of, TidyRoom};
ghost use Rattle.accepted_file.specs.Tables.{accepted_tables};
ghost use Rattle.walk.specs.Walk.{walk_state};
ghost use Rattle.field_cases.specs.Pieces.{Fits, patterns_of, fields_for};
ghost use Rattle.field_cases.specs.FieldCases.{inject_at};
ghost use Rattle.key.specs.Cycle.{Walks, Gives, fields_of, whole_field};

use accepted_file::AcceptedFile;
use constrain::{known, narrow, ranged};
use field_cases::{
    Way, captured, choose, meet, pairs_of, piece_at, pieces, unresolved, walked_pattern, way_of,
};
use lists::lookup;
use paths::{Address, FieldPath};
use resolve::{field_slot, resolve};
use slots::{Slot, SlotKind};
use tables::{is_quiet, record_ty};
use views::{FieldTy, NodeView, field_ty_at};
use walk::Walk;

// One key field: seek, splice, residual, or capture. Once the plan is too long nothing changes any more, and the walk ends at once. What
// ends here hands the walk back as it is; only what goes on has a slot.
#[cycle(field_inject_matched_partial)]
pub fn field(
    file: &AcceptedFile,
    work: &mut [u8],
    plan: &mut [u8],
    node: usize,
    ty: usize,
    address: Address,
    path: FieldPath,
    w: Walk,
) -> Walk
    requires { Fits (accepted_tables file.now) path ty }
    ensures { let T = accepted_tables file.now in
        let before = walk_state T w work.old plan.old in
        let after = walk_state T result work.new plan.new in
        Walks T address.0 node ty (path_of path) before after }
{
    let level = w.level;
    if level.over {
        return w;
    }
    match way_of(file, node, ty) {
        Way::Union => inject(file, work, plan, node, ty, address, path, w),
        Way::Skip => w.skip(),
        Way::Report(code) => w.diagnose(work, node, code, true),
        Way::Range => ranged(file, work, plan, node, ty, path, w),
        Way::Constant => {
            let c = known(file, node, ty);
            if c.is_none() {
                return partial(file, work, plan, node, ty, address, path, w);
            }
            narrow(file, plan, node, c, path, w)
        }
        Way::Variable(x) => {
            if let Some(slot) = lookup(file, work, w.lists(), x) {
                return matched(file, work, plan, node, slot, ty, address, path, w);
            }
            captured(file, work, plan, x, ty, address, path, w)
        }
        Way::Read => {
            let a = resolve(file, work, node, w.lists());
            let l = w.listed(a.lists);
            if let Some(slot) = a.slot {
                return matched(file, work, plan, node, slot, ty, address, path, l);
            }
            if let Some((_, _)) = pairs_of(&file.tables, node) {
                return partial(file, work, plan, node, ty, address, path, l);
            }
            let ends = w.ends;
            unresolved(&file.tables, work, node, ends.diagnostics, l)
        }
    }
}

// A field matched against a slot. A constant that does not determine the field's bytes is matched piece by piece.
#[cycle(field_inject_matched_partial)]
pub fn matched(
    file: &AcceptedFile,
    work: &mut [u8],
    plan: &mut [u8],
    node: usize,
    slot: Slot,
    ty: usize,
    address: Address,
    path: FieldPath,
    w: Walk,
) -> Walk
    requires { Fits (accepted_tables file.now) path ty }
    ensures { let T = accepted_tables file.now in
        let before = walk_state T w work.old plan.old in
        let after = walk_state T result work.new plan.new in
        Gives T address.0 ty
        (λ below. WalkRules.matched (ops T) T address.0 below node (slot_of slot) ty (path_of path) before)
        after }
{
    let kind = slot.kind;
    let SlotKind::Const(n) = kind else {
        return meet(file, work, plan, node, slot, ty, address, path, w);
    };
    let c = known(file, n, ty);
    if c.is_none() {
        return partial(file, work, plan, n, ty, address, path, w);
    }
    narrow(file, plan, node, c, path, w)
}

// A record pattern that gives some of its fields: building falls, and each piece is matched one step deeper. Of a constant that is
// remembered to give nothing else the pieces are left out.
#[cycle(field_inject_matched_partial)]
pub fn partial(
    file: &AcceptedFile,
    work: &mut [u8],
    plan: &mut [u8],
    node: usize,
    ty: usize,
    address: Address,
    path: FieldPath,
    w: Walk,
) -> Walk
    requires { Fits (accepted_tables file.now) path ty }
    ensures { let T = accepted_tables file.now in
        let before = walk_state T w work.old plan.old in
        let after = walk_state T result work.new plan.new in
        Gives T address.0 ty
        (λ below. WalkRules.partial (ops T) T address.0 below node ty (path_of path) before)
        after }
{
    let opened = pieces(file, node, ty);
    let mut l = w.skip();
    if is_quiet(file, node, ty) {
        return l;
    }
    for i in 0..opened.count {
        let p = piece_at(file, node, ty, opened, i);
        let Some(n) = p.pattern else {
            continue;
        };
        let q = path.then(i as u32);
        l = field(file, work, plan, n, p.ty, address, q, l);
    }
    l
}

// A union value: tag, payload, closer, unless all of it is constant.
#[cycle(field_inject_matched_partial)]
pub fn inject(
    file: &AcceptedFile,
    work: &mut [u8],
    plan: &mut [u8],
    node: usize,
    ty: usize,
    address: Address,
    path: FieldPath,
    w: Walk,
) -> Walk
    requires { Fits (accepted_tables file.now) path ty }
    ensures { let T = accepted_tables file.now in
        let before = walk_state T w work.old plan.old in
        let after = walk_state T result work.new plan.new in
        Gives T address.0 ty
        (λ below. inject_at T address.0 below node ty (path_of path) before)
        after }
{
    let c = choose(file, work, plan, node, ty, path, w);
    let open = c.walk;
    let Some(chosen) = c.choice else {
        return open;
    };
    let q = path.payload(chosen.disc);
    let tagged = open.tag(path, chosen.disc, node, plan);
    let walked = field(file, work, plan, chosen.node, chosen.ty, address, q, tagged);
    walked.closer(node, plan)
}

// A Record against a Record type: a field that no pattern names closes the seek.
fn record_key(
    file: &AcceptedFile,
    work: &mut [u8],
    plan: &mut [u8],
    node: usize,
    ty: usize,
    address: Address,
    w: Walk,
) -> Walk
    requires { ty < length (accepted_tables file.now).types }
    ensures { let T = accepted_tables file.now in
        let before = walk_state T w work.old plan.old in
        let after = walk_state T result work.new plan.new in
        let field = WalkRules.field (ops T) T address.0 in
        after ≡ WalkRules.each_field field skip field_path (patterns_of T node) 0 (fields_for T node ty) before }
{
    let opened = pieces(file, node, ty);
    let mut l = w;
    for i in 0..opened.count {
        let p = piece_at(file, node, ty, opened, i);
        let Some(n) = walked_pattern(file, p.pattern, p.ty) else {
            l = l.skip();
            continue;
        };
        let path = FieldPath::field(i as u16);
        l = field(file, work, plan, n, p.ty, address, path, l);
    }
    l
}

// The node of a whole key's field: the level's own, but of a Const the field's own.
fn whole_node(node: usize, slot: Slot) -> usize
    ensures { result ≡ WalkRules.whole_node node (slot_of slot) }
{
    let kind = slot.kind;
    if let SlotKind::Const(n) = kind {
        n
    } else {
        node
    }
}

// One field of a slot, matched against the key's field of its name.
fn whole_field(
    file: &AcceptedFile,
    work: &mut [u8],
    plan: &mut [u8],
    node: usize,
    slot: Slot,
    field: FieldTy,
    address: Address,
    path: FieldPath,
    w: Walk,
) -> Walk
    requires tidy_room { TidyRoom (accepted_tables file.now) slot }
    requires fits { Fits (accepted_tables file.now) path field.ty }
    ensures { let T = accepted_tables file.now in
        let before = walk_state T w work.old plan.old in
        let after = walk_state T result work.new plan.new in
        after ≡ whole_field T address.0 node (slot_of slot) field.name field.ty (path_of path) before }
{
    let a = field_slot(file, work, node, slot, field.name, w.lists());
    let l = w.listed(a.lists);
    if let Some(found) = a.slot {
        let n = whole_node(node, found);
        return matched(file, work, plan, n, found, field.ty, address, path, l);
    }
    l.skip()
}

fn whole_fields(
    file: &AcceptedFile,
    work: &mut [u8],
    plan: &mut [u8],
    node: usize,
    slot: Slot,
    ty: usize,
    address: Address,
    w: Walk,
) -> Walk
    requires ty_in_bounds { ty < length (accepted_tables file.now).types }
    requires tidy_room { TidyRoom (accepted_tables file.now) slot }
    ensures { let T = accepted_tables file.now in
        let before = walk_state T w work.old plan.old in
        let after = walk_state T result work.new plan.new in
        after ≡ WalkRules.whole_fields (ops T) T address.0 node (slot_of slot) 0 (fields_of T ty) before }
{
    let Some((n, at)) = record_ty(&file.tables, ty) else {
        return w;
    };
    let mut l = w;
    for i in 0..n {
        let f = field_ty_at(file.tables.bytes, at, i);
        let path = FieldPath::field(i as u16);
        l = whole_field(file, work, plan, node, slot, f, address, path, l);
    }
    l
}

// A read: resolved once, then each of its fields in turn.
fn whole_read(
    file: &AcceptedFile,
    work: &mut [u8],
    plan: &mut [u8],
    node: usize,
    ty: usize,
    address: Address,
    w: Walk,
) -> Walk
    requires { ty < length (accepted_tables file.now).types }
    ensures { let T = accepted_tables file.now in
        let before = walk_state T w work.old plan.old in
        let after = walk_state T result work.new plan.new in
        after ≡ WalkRules.whole_read (ops T) T address.0 node (fields_of T ty) before }
{
    let a = resolve(file, work, node, w.lists());
    let l = w.listed(a.lists);
    if let Some(slot) = a.slot {
        return whole_fields(file, work, plan, node, slot, ty, address, l);
    }
    l.skip()
}

// A new variable binds the whole key, which closes the seek as a bound field does.
fn whole_variable(
    file: &AcceptedFile,
    work: &mut [u8],
    plan: &mut [u8],
    name: usize,
    node: usize,
    ty: usize,
    address: Address,
    w: Walk,
) -> Walk
    requires { ty < length (accepted_tables file.now).types }
    ensures { let T = accepted_tables file.now in
        let before = walk_state T w work.old plan.old in
        let after = walk_state T result work.new plan.new in
        after ≡ WalkRules.whole_variable (ops T) T address.0 name node ty (fields_of T ty) before }
{
    if let Some(_) = lookup(file, work, w.lists(), name) {
        return whole_read(file, work, plan, node, ty, address, w);
    }
    let slot = Slot::plain(SlotKind::Key(address, ty));
    w.skip().bind(work, name, slot)
}

// A whole record key in one pattern.
fn whole_key(
    file: &AcceptedFile,
    work: &mut [u8],
    plan: &mut [u8],
    node: usize,
    ty: usize,
    address: Address,
    w: Walk,
) -> Walk
    requires { ty < length (accepted_tables file.now).types }
    ensures { let T = accepted_tables file.now in
        let before = walk_state T w work.old plan.old in
        let after = walk_state T result work.new plan.new in
        after ≡ WalkRules.whole_key (ops T) T address.0 (node_at T node) node ty (fields_of T ty) before }
{
    match file.tables.node_of(node) {
        NodeView::Var(x) => whole_variable(file, work, plan, x, node, ty, address, w),
        NodeView::Wildcard => w.skip(),
        _ => whole_read(file, work, plan, node, ty, address, w),
    }
}

// A level's key pattern, in the order of the type's fields, which is that of its bytes.
pub fn key(
    file: &AcceptedFile,
    work: &mut [u8],
    plan: &mut [u8],
    node: usize,
    ty: usize,
    address: Address,
    w: Walk,
) -> Walk
    requires { ty < length (accepted_tables file.now).types }
    ensures { let T = accepted_tables file.now in
        let before = walk_state T w work.old plan.old in
        let after = walk_state T result work.new plan.new in
        after ≡ WalkRules.key (ops T) T address.0 node ty before }
{
    let Some((_, _)) = record_ty(&file.tables, ty) else {
        let path = FieldPath::field(0);
        return field(file, work, plan, node, ty, address, path, w);
    };
    if let Some((_, _)) = pairs_of(&file.tables, node) {
        return record_key(file, work, plan, node, ty, address, w);
    }
    whole_key(file, work, plan, node, ty, address, w)
}
