// The guide of a fuzzy text and the range of a prefix. Building falls with either.
ghost use Rattle.std.specs.Prelude.{◌≡◌, true, List, ℕ};
ghost use Rattle.rules.specs.File.{Tables, name_at};
ghost use Rattle.rules.specs.Constant.{encode_prefix};
ghost use Rattle.rules.specs.Events.{Narrowing};
ghost use Rattle.rules.specs.Placement as Placement;
ghost use Rattle.state.specs.State.{Ends};
ghost use Rattle.state.specs.Ops as Ops;
ghost use Rattle.paths.specs.Paths.{path_of};
ghost use Rattle.views.specs.Views.{anchor_of};
ghost use Rattle.seek.specs.Seek.{state_of, level_of, guided_by, ranged_by};

use crate::{Guide, Range, SeekBuilder};
use paths::FieldPath;
use records::{path_size, put_fuzzy, put_path_at, within};
use views::Anchor;

impl SeekBuilder {
    // Whether a fuzzy text can guide the walk: three facts asked in turn, each with an answer of its own.
    fn attachable(self, path: FieldPath) -> bool
        ensures { (T : Tables) → result ≡ Ops.attachable (level_of T self) (path_of path) }
    {
        if self.building {
            return true;
        }
        if self.guide.set {
            return false;
        }
        if !self.range.set {
            return false;
        }
        within(self.path).same(within(path))
    }

    fn guided(
        self,
        path: FieldPath,
        name: usize,
        distance: u8,
        anchor: Anchor,
        node: usize,
    ) -> SeekBuilder
        requires { (T : Tables) → Ops.attachable (level_of T self) (path_of path) ≡ true }
        ensures places { ((T : Tables) (e : Ends) (w p : List ℕ) →
            let guide : Placement.Guide =
            record { path = path_of path; term = name; distance = distance; anchor = anchor_of anchor; node = node } in
            let before = state_of T self e w p in
            let after = state_of T result e w p in
            after ≡ Ops.grow (Ops.with_guide guide (level_of T self)) (λ plan. plan) before
            ) }
        ensures whole { result ≡ guided_by path name distance anchor node self }
    {
        let c = self.counts;
        let s = c.sums().with_narrowing();
        if s.fits(self.plain) {
            let k = s.counts();
            let mut l = self.fallen();
            l.counts = k;
            l.path = path;
            l.guide = Guide {
                set: true,
                distance,
                anchor,
                term: name,
                node,
            };
            l
        } else {
            self.stopped()
        }
    }

    fn fuzzy_residual(
        self,
        path: FieldPath,
        name: usize,
        distance: u8,
        anchor: Anchor,
        node: usize,
        plan: &mut [u8],
    ) -> SeekBuilder
        ensures { (T : Tables) (e : Ends) (w : List ℕ) →
            let before = state_of T self e w plan.old in
            let after = state_of T result e w plan.new in
            after ≡ Ops.put_residual node (path_of path) (Narrowing.Fuzzy name distance (anchor_of anchor)) before }
    {
        let p = self.residual(path_size(path) + 5, node, plan);
        let place = p.place;
        let at = put_path_at(plan, place, path);
        put_fuzzy(plan, at, name, distance, anchor);
        p.level
    }

    // A fuzzy text: the guide if it can be, else a residual.
    pub fn fuzzy(
        self,
        path: FieldPath,
        name: usize,
        distance: u8,
        anchor: Anchor,
        node: usize,
        plan: &mut [u8],
    ) -> SeekBuilder
        ensures { (T : Tables) (e : Ends) (w : List ℕ) →
            let before = state_of T self e w plan.old in
            let after = state_of T result e w plan.new in
            after ≡ Ops.narrow node (path_of path) (Narrowing.Fuzzy name distance (anchor_of anchor)) before }
    {
        if self.over {
            return self;
        }
        if self.attachable(path) {
            self.guided(path, name, distance, anchor, node)
        } else {
            self.fuzzy_residual(path, name, distance, anchor, node, plan)
        }
    }

    // A prefix while building: the range.
    pub fn ranged(self, path: FieldPath, name: u16, node: usize) -> SeekBuilder
        requires { self.building ≡ true }
        ensures places { (T : Tables) (e : Ends) (w p : List ℕ) →
            let before = state_of T self e w p in
            let after = state_of T result e w p in
            let level = Ops.with_range node (path_of path) (encode_prefix (name_at T name)) (level_of T self) in
            after ≡ Ops.grow level (λ plan. plan) before }
        ensures whole { result ≡ ranged_by path name node self }
    {
        let c = self.counts;
        let s = c.sums().with_narrowing();
        if s.fits(self.plain) {
            let k = s.counts();
            let mut l = self.fallen();
            l.counts = k;
            l.path = path;
            l.range = Range {
                set: true,
                name,
                node,
            };
            l
        } else {
            self.stopped()
        }
    }
}
