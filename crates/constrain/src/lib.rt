// A walk narrowed by a pattern's constant, and by the patterns that constrain a variable.
#![tactic(auto)]

ghost use Rattle.std.specs.Prelude.{◌≡◌, List, ℕ, ◌<◌, length};
ghost use Rattle.rules.specs.File.{node_at};
ghost use Rattle.rules.specs.Walk as WalkRules;
ghost use Rattle.rules.specs.Walk.{FieldWalk};
ghost use Rattle.state.specs.State.{State};
ghost use Rattle.state.specs.Ops.{ops};
ghost use Rattle.views.specs.Files.{tables_in};
ghost use Rattle.paths.specs.Paths.{path_of};
ghost use Rattle.views.specs.Views.{anchor_of, constraint_at};
ghost use Rattle.accepted_file.specs.Tables.{accepted_tables};
ghost use Rattle.seek.specs.Narrow.{IsConstant, const_of, narrowed_by};
ghost use Rattle.walk.specs.Walk.{walk_state};
ghost use Rattle.constrain.specs.Constrain.{Known, narrow_or, pattern_for, is_constrained};

use accepted_file::AcceptedFile;
use constant::{Const, constant};
use file::Section;
use lists::Code;
use narrow::narrowed;
use paths::FieldPath;
use views::{Anchor, IndexedFile, NodeView};
use walk::Walk;

// The constant that a node is at a type.
pub fn known(file: &AcceptedFile, node: usize, ty: usize) -> Option<Const>
    requires { ty < length (accepted_tables file.now).types }
    ensures { Known (accepted_tables file.now) node ty result }
{
    if node >= file.tables.count_of(Section::Nodes) {
        return None;
    }
    constant(file, node, ty)
}

// The walk narrowed by a constant; `node` is what made the narrowing.
pub fn narrow(
    file: &AcceptedFile,
    plan: &mut [u8],
    node: usize,
    c: Option<Const>,
    path: FieldPath,
    w: Walk,
) -> Walk
    requires { IsConstant (accepted_tables file.now) c }
    ensures { (work : List ℕ) →
        let T = accepted_tables file.now in
        let before = walk_state T w work plan.old in
        let after = walk_state T result work plan.new in
        after ≡ narrowed_by T node (const_of T c) (path_of path) before }
{
    let l = narrowed(file, c, path, node, w.level, plan);
    w.placed(l)
}

// Narrowed by a node's constant. Without one the node is mistyped; `falls` says whether building falls there. Once the plan is too long
// nothing changes any more, and the constant is not asked for.
fn narrow_or_report(
    file: &AcceptedFile,
    work: &mut [u8],
    plan: &mut [u8],
    node: usize,
    ty: usize,
    path: FieldPath,
    falls: bool,
    w: Walk,
) -> Walk
    requires { ty < length (accepted_tables file.now).types }
    ensures { let T = accepted_tables file.now in
        let before = walk_state T w work.old plan.old in
        let after = walk_state T result work.new plan.new in
        after ≡ narrow_or T node ty (path_of path) falls before }
{
    let level = w.level;
    if level.over {
        return w;
    }
    let c = known(file, node, ty);
    if c.is_none() {
        return w.diagnose(work, node, Code::RejectTypeMismatch, falls);
    }
    narrow(file, plan, node, c, path, w)
}

// A Prefix or a Fuzzy at a field. One that is mistyped is reported and leaves building as it is.
pub fn ranged(
    file: &AcceptedFile,
    work: &mut [u8],
    plan: &mut [u8],
    node: usize,
    ty: usize,
    path: FieldPath,
    w: Walk,
) -> Walk
    requires { ty < length (accepted_tables file.now).types }
    ensures { (address : ℕ) (below : FieldWalk State) →
        let T = accepted_tables file.now in
        let before = walk_state T w work.old plan.old in
        let after = walk_state T result work.new plan.new in
        after ≡ WalkRules.ranged (ops T) T address below node ty (path_of path) before }
{
    narrow_or_report(file, work, plan, node, ty, path, false, w)
}

fn anchor_rank(anchor: Anchor) -> usize
    ensures { result ≡ WalkRules.anchor_rank (anchor_of anchor) }
{
    match anchor {
        Anchor::Prefix => 3,
        Anchor::Whole => 2,
    }
}

// In what order a pattern constrains: what extends the prefix first, then a range, then a guide. A place in an order, as the written
// rules count it, and no kind.
fn rank_of(file: &IndexedFile, node: usize) -> usize
    ensures { result ≡ WalkRules.rank (node_at (tables_in file.now) node) }
{
    match file.node_of(node) {
        NodeView::Prefix(_) => 1,
        NodeView::Fuzzy(_, _, a) => anchor_rank(a),
        _ => 0,
    }
}

// The pattern of constraint k, if it is of the name and the rank.
fn pattern_for(file: &IndexedFile, name: usize, rank: usize, k: usize) -> Option<usize>
    requires { k < length (tables_in file.now).constraints }
    ensures { let T = tables_in file.now in
        result ≡ pattern_for T name rank (constraint_at T k) }
{
    let c = file.constraint_at(k);
    if c.name == name && rank_of(file, c.node) == rank {
        Some(c.node)
    } else {
        None
    }
}

// The constraints of one rank, in file order. Where one is mistyped building falls.
fn constrain_rank(
    file: &AcceptedFile,
    work: &mut [u8],
    plan: &mut [u8],
    name: usize,
    rank: usize,
    ty: usize,
    path: FieldPath,
    w: Walk,
) -> Walk
    requires { ty < length (accepted_tables file.now).types }
    ensures { let T = accepted_tables file.now in
        let before = walk_state T w work.old plan.old in
        let after = walk_state T result work.new plan.new in
        after ≡ WalkRules.constrain_each (ops T) T (WalkRules.constraints_of T name rank) ty (path_of path) before }
{
    let mut l = w;
    for k in 0..file.tables.count_of(Section::Constraints) {
        let Some(p) = pattern_for(&file.tables, name, rank, k) else {
            continue;
        };
        l = narrow_or_report(file, work, plan, p, ty, path, true, l);
    }
    l
}

// Whether any pattern constrains a name.
fn is_constrained(file: &IndexedFile, name: usize) -> bool
    ensures { result ≡ is_constrained (tables_in file.now) name }
{
    (0..file.count_of(Section::Constraints)).any(|k| file.constraint_at(k).name == name)
}

// The field that captures a variable, narrowed by every pattern that constrains it; without any, the comparisons bound the level.
pub fn constrain(
    file: &AcceptedFile,
    work: &mut [u8],
    plan: &mut [u8],
    name: usize,
    ty: usize,
    path: FieldPath,
    w: Walk,
) -> Walk
    requires { ty < length (accepted_tables file.now).types }
    ensures { let T = accepted_tables file.now in
        let before = walk_state T w work.old plan.old in
        let after = walk_state T result work.new plan.new in
        after ≡ WalkRules.constrain (ops T) T name ty (path_of path) before }
{
    if is_constrained(&file.tables, name) {
        let a = w.constrained(work, name);
        let b = constrain_rank(file, work, plan, name, 0, ty, path, a);
        let c = constrain_rank(file, work, plan, name, 1, ty, path, b);
        let d = constrain_rank(file, work, plan, name, 2, ty, path, c);
        return constrain_rank(file, work, plan, name, 3, ty, path, d);
    }
    let level = w.level;
    let l = level.bound(file, name, ty);
    let fallen = l.skip();
    w.placed(fallen)
}
