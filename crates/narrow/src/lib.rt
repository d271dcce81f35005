// A level narrowed by a constant and by a union's tag, with the node that made the narrowing. As in the Rust, `narrow_by` and
// `narrow_by_tag` take the level lent.
#![tactic(auto)]

ghost use Rattle.std.specs.Prelude.{◌≡◌, List, ℕ};
ghost use Rattle.rules.specs.File.{Tables};
ghost use Rattle.rules.specs.Events.{Narrowing};
ghost use Rattle.state.specs.State.{Ends};
ghost use Rattle.state.specs.Ops as Ops;
ghost use Rattle.paths.specs.Paths.{path_of};
ghost use Rattle.accepted_file.specs.Tables.{accepted_tables};
ghost use Rattle.seek.specs.Seek.{state_of};
ghost use Rattle.seek.specs.Narrow.{IsConstant, const_of, narrowed_by};

use accepted_file::AcceptedFile;
use constant::Const;
use paths::FieldPath;
use seek::SeekBuilder;

// A lent level narrowed by a constant.
pub fn narrow_by(
    file: &AcceptedFile,
    constant: Option<Const>,
    path: FieldPath,
    node: usize,
    level: &mut SeekBuilder,
    plan: &mut [u8],
)
    requires { IsConstant (accepted_tables file.now) constant }
    ensures { (e : Ends) (w : List ℕ) →
        let T = accepted_tables file.now in
        let before = state_of T level.old e w plan.old in
        let after = state_of T level.new e w plan.new in
        after ≡ narrowed_by T node (const_of T constant) (path_of path) before }
{
    let l = *level;
    *level = l.with_constant(file, constant, path, node, plan);
}

// A lent level narrowed by the tag of a union's alternative.
pub fn narrow_by_tag(
    disc: u32,
    path: FieldPath,
    node: usize,
    level: &mut SeekBuilder,
    plan: &mut [u8],
)
    ensures { (T : Tables) (e : Ends) (w : List ℕ) →
        let before = state_of T level.old e w plan.old in
        let after = state_of T level.new e w plan.new in
        after ≡ Ops.narrow node (path_of path) (Narrowing.Tag disc) before }
{
    let l = *level;
    *level = l.tag(path, disc, node, plan);
}

// Lends a level to `narrow_by` and hands it back.
pub fn narrowed(
    file: &AcceptedFile,
    constant: Option<Const>,
    path: FieldPath,
    node: usize,
    level: SeekBuilder,
    plan: &mut [u8],
) -> SeekBuilder
    requires { IsConstant (accepted_tables file.now) constant }
    ensures { (e : Ends) (w : List ℕ) →
        let T = accepted_tables file.now in
        let before = state_of T level e w plan.old in
        state_of T result e w plan.new ≡ narrowed_by T node (const_of T constant) (path_of path) before }
{
    let mut l = level;
    narrow_by(file, constant, path, node, &mut l, plan);
    l
}

// Lends a level to `narrow_by_tag` and hands it back.
pub fn tagged(
    disc: u32,
    path: FieldPath,
    node: usize,
    level: SeekBuilder,
    plan: &mut [u8],
) -> SeekBuilder
    ensures { (T : Tables) (e : Ends) (w : List ℕ) →
        let before = state_of T level e w plan.old in
        state_of T result e w plan.new ≡ Ops.narrow node (path_of path) (Narrowing.Tag disc) before }
{
    let mut l = level;
    narrow_by_tag(disc, path, node, &mut l, plan);
    l
}
