// A field of the level's own row (request [8]). Building falls with it, and it is always a residual.
ghost use Rattle.std.specs.Prelude.{◌≡◌, List, ℕ};
ghost use Rattle.rules.specs.File.{Tables};
ghost use Rattle.rules.specs.Events.{Narrowing};
ghost use Rattle.state.specs.State.{Ends};
ghost use Rattle.state.specs.Ops as Ops;
ghost use Rattle.paths.specs.Paths.{path_of};
ghost use Rattle.seek.specs.Seek.{state_of};

use crate::SeekBuilder;
use paths::FieldPath;
use records::{path_size, put_own_op, put_path_at};

impl SeekBuilder {
    fn own_residual(
        self,
        path: FieldPath,
        at: FieldPath,
        node: usize,
        plan: &mut [u8],
    ) -> SeekBuilder
        ensures { (T : Tables) (e : Ends) (w : List ℕ) →
            let before = state_of T self e w plan.old in
            let after = state_of T result e w plan.new in
            after ≡ Ops.put_residual node (path_of path) (Narrowing.OwnField (path_of at)) before }
    {
        let p = self.residual(path_size(path) + 1 + path_size(at), node, plan);
        let place = p.place;
        let op = put_path_at(plan, place, path);
        put_own_op(plan, op, at);
        p.level
    }

    // The bytes at `path` are asked to equal those at `at`.
    pub fn own_field(
        self,
        path: FieldPath,
        at: FieldPath,
        node: usize,
        plan: &mut [u8],
    ) -> SeekBuilder
        ensures { (T : Tables) (e : Ends) (w : List ℕ) →
            let before = state_of T self e w plan.old in
            let after = state_of T result e w plan.new in
            after ≡ Ops.narrow node (path_of path) (Narrowing.OwnField (path_of at)) before }
    {
        if self.over {
            return self;
        }
        let l = self.fallen();
        l.own_residual(path, at, node, plan)
    }
}
