// A level's walk by value: the lists' ends and the level, with the operations of the written walk. `node` is the node that made a
// narrowing or a closer. `work` and `plan` stay two parameters, here and above: the engine lends two buffers, clauses say what each holds
// at the return, and a struct of two `&mut` would have to be lent on field by field.
#![tactic(auto)]

ghost use Rattle.std.specs.Prelude.{◌≡◌, List, ℕ};
ghost use Rattle.rules.specs.File.{Tables};
ghost use Rattle.rules.specs.Events.{Narrowing};
ghost use Rattle.state.specs.Ops as Ops;
ghost use Rattle.paths.specs.Paths.{path_of};
ghost use Rattle.slots.specs.Slots.{slot_of};
ghost use Rattle.lists.specs.Lists.{code_of};
ghost use Rattle.walk.specs.Walk.{walk_state, lists_of, with_lists, diagnosed};

use lists::{Code, Ends, Lists, bind, constrained, report};
use narrow::tagged;
use paths::{Address, FieldPath};
use seek::SeekBuilder;
use slots::Slot;

// A level, and where each of the four lists ends. Whether the plan is too long stands once, in the level.
#[derive(Clone, Copy)]
pub struct Walk {
    pub ends: Ends,
    pub level: SeekBuilder,
}

impl Walk {
    // The lists, for an append or a read.
    pub fn lists(self) -> Lists
        ensures { result ≡ lists_of self }
    {
        let level = self.level;
        let ends = self.ends;
        Lists {
            over: level.over,
            ends,
        }
    }

    // The walk with the lists as an append or a read handed them back.
    pub fn listed(self, lists: Lists) -> Walk
        ensures { result ≡ with_lists self lists }
    {
        let mut level = self.level;
        level.over = lists.over;
        let ends = lists.ends;
        Walk { ends, level }
    }

    // The walk with the level as a placement handed it back.
    pub fn placed(self, level: SeekBuilder) -> Walk
        ensures { result ≡ record { ends = self.ends; level = level } }
    {
        let ends = self.ends;
        Walk { ends, level }
    }

    // Building falls.
    pub fn skip(self) -> Walk
        ensures { (T : Tables) (w p : List ℕ) →
            let before = walk_state T self w p in
            let after = walk_state T result w p in
            after ≡ Ops.skip before }
    {
        let level = self.level;
        self.placed(level.skip())
    }

    // A narrowing to a union's alternative.
    pub fn tag(self, path: FieldPath, disc: u32, node: usize, plan: &mut [u8]) -> Walk
        ensures { (T : Tables) (w : List ℕ) →
            let before = walk_state T self w plan.old in
            let after = walk_state T result w plan.new in
            after ≡ Ops.narrow node (path_of path) (Narrowing.Tag disc) before }
    {
        let l = tagged(disc, path, node, self.level, plan);
        self.placed(l)
    }

    // A narrowing to the field of a register.
    pub fn register_field(
        self,
        path: FieldPath,
        address: Address,
        at: FieldPath,
        node: usize,
        plan: &mut [u8],
    ) -> Walk
        ensures { (T : Tables) (w : List ℕ) →
            let before = walk_state T self w plan.old in
            let after = walk_state T result w plan.new in
            after ≡ Ops.narrow node (path_of path) (Narrowing.RegisterField address.0 (path_of at)) before }
    {
        let level = self.level;
        let l = level.register_field(path, address, at, node, plan);
        self.placed(l)
    }

    // A narrowing to a field of the level's own row.
    pub fn own_field(self, path: FieldPath, at: FieldPath, node: usize, plan: &mut [u8]) -> Walk
        ensures { (T : Tables) (w : List ℕ) →
            let before = walk_state T self w plan.old in
            let after = walk_state T result w plan.new in
            after ≡ Ops.narrow node (path_of path) (Narrowing.OwnField (path_of at)) before }
    {
        let level = self.level;
        let l = level.own_field(path, at, node, plan);
        self.placed(l)
    }

    // A narrowing to the fact of a register.
    pub fn fact_id(self, path: FieldPath, address: Address, node: usize, plan: &mut [u8]) -> Walk
        ensures { (T : Tables) (w : List ℕ) →
            let before = walk_state T self w plan.old in
            let after = walk_state T result w plan.new in
            after ≡ Ops.narrow node (path_of path) (Narrowing.FactId address.0) before }
    {
        let level = self.level;
        let l = level.fact_id(path, address, node, plan);
        self.placed(l)
    }

    // The end of an alternative.
    pub fn closer(self, node: usize, plan: &mut [u8]) -> Walk
        ensures { (T : Tables) (w : List ℕ) →
            let before = walk_state T self w plan.old in
            let after = walk_state T result w plan.new in
            after ≡ Ops.closer node before }
    {
        let level = self.level;
        let l = level.closer(node, plan);
        self.placed(l)
    }

    // A name bound to a slot.
    pub fn bind(self, work: &mut [u8], name: usize, slot: Slot) -> Walk
        ensures { (T : Tables) (p : List ℕ) →
            let before = walk_state T self work.old p in
            let after = walk_state T result work.new p in
            after ≡ Ops.bind name (slot_of slot) before }
    {
        let lists = bind(work, self.lists(), name, slot);
        self.listed(lists)
    }

    // A name that patterns constrain.
    pub fn constrained(self, work: &mut [u8], name: usize) -> Walk
        ensures { (T : Tables) (p : List ℕ) →
            let before = walk_state T self work.old p in
            let after = walk_state T result work.new p in
            after ≡ Ops.constrained name before }
    {
        let lists = constrained(work, self.lists(), name);
        self.listed(lists)
    }

    // A diagnostic, with the level as it is.
    pub fn report(self, work: &mut [u8], node: usize, code: Code) -> Walk
        ensures { (T : Tables) (p : List ℕ) →
            let before = walk_state T self work.old p in
            let after = walk_state T result work.new p in
            after ≡ Ops.report node (code_of code) before }
    {
        let lists = report(work, self.lists(), node, code);
        self.listed(lists)
    }

    // A diagnostic. `falls` says whether building falls with it.
    pub fn diagnose(self, work: &mut [u8], node: usize, code: Code, falls: bool) -> Walk
        ensures { (T : Tables) (p : List ℕ) →
            let before = walk_state T self work.old p in
            let after = walk_state T result work.new p in
            after ≡ diagnosed node (code_of code) falls before }
    {
        if falls {
            return self.skip().report(work, node, code);
        }
        self.report(work, node, code)
    }
}
