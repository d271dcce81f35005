// A level by value: what its placements count, set and write. Each placement is a method that takes the level and hands it back; once
// `over` is set the level stays as it is.
#![tactic(auto)]

ghost use Rattle.std.specs.Prelude.{◌≡◌, false, List, ℕ};
ghost use Rattle.rules.specs.File.{Tables};
ghost use Rattle.state.specs.State.{Ends, new_level, state};
ghost use Rattle.state.specs.Ops as Ops;
ghost use Rattle.seek.specs.Seek.{target_of, state_of, new_builder, kept, fell, overrun};

use paths::FieldPath;
use records::Place;
use views::Anchor;

mod bounds;
mod guides;
mod narrowings;
mod own_fields;
mod totals;
mod values;

// `closers` and `others` are the parts; `framed` is what the plan's form of the parts adds to them joined.
#[derive(Clone, Copy)]
pub struct Counts {
    pub narrowings: u32,
    pub closers: u32,
    pub others: u32,
    pub residuals: u32,
    pub joined: u32,
    pub framed: u32,
    pub rest: u32,
}

// Counts that may be too large for a plan.
#[derive(Clone, Copy)]
pub struct Sums {
    pub narrowings: usize,
    pub closers: usize,
    pub others: usize,
    pub residuals: usize,
    pub joined: usize,
    pub framed: usize,
    pub rest: usize,
}

// A flag and not an Option: with Options the walk has 280 bytes, and above 256 each local is cleared and copied by calls (docs/BENCH.md).
#[derive(Clone, Copy)]
pub struct Edge {
    pub set: bool,
    pub inclusive: bool,
    pub node: u16,
    pub ty: u16,
}

// With a flag, as an edge.
#[derive(Clone, Copy)]
pub struct Guide {
    pub set: bool,
    pub distance: u8,
    pub anchor: Anchor,
    pub term: usize,
    pub node: usize,
}

// With a flag, as an edge. A Prefix node's text is its name.
#[derive(Clone, Copy)]
pub struct Range {
    pub set: bool,
    pub name: u16,
    pub node: usize,
}

// The indices of the comparisons that gave the edges, as many as there are edges.
#[derive(Clone, Copy)]
pub struct Folded {
    pub first: u16,
    pub second: u16,
}

// Where the parts, their nodes if the parts are joined, and the residuals begin in the plan. `joining` is a flag, as an edge's.
#[derive(Clone, Copy)]
pub struct Target {
    pub joining: bool,
    pub parts: u32,
    pub nodes: u32,
    pub rest: u32,
}

// `path` is that of range and guide: a guide beside a range has the range's path.
#[derive(Clone, Copy)]
pub struct SeekBuilder {
    // A state of the written walk, in which lists and level stay as they are; an Err would lose them.
    pub over: bool,
    pub building: bool,
    pub plain: bool,
    pub counts: Counts,
    pub path: FieldPath,
    pub range: Range,
    pub guide: Guide,
    pub lo: Edge,
    pub hi: Edge,
    pub folded: Folded,
    pub target: Target,
}

// A level, and where what it grew by is written.
#[derive(Clone, Copy)]
pub struct Placed {
    pub level: SeekBuilder,
    pub place: Place,
}

// Whether a level has its range, or its guide: one that builds has neither, whatever their fields hold.
pub fn kept(building: bool, set: bool) -> bool
    ensures { result ≡ kept building set }
{
    !building && set
}

impl SeekBuilder {
    // A level starts building, with nothing set.
    pub fn new(target: Target) -> Self
        ensures starts { (T : Tables) (e : Ends) (w p : List ℕ) →
            state_of T result e w p ≡ state false e new_level (target_of target) w p }
        ensures whole { result ≡ new_builder target }
    {
        let edge = Edge {
            set: false,
            inclusive: false,
            node: 0,
            ty: 0,
        };
        SeekBuilder {
            over: false,
            building: true,
            plain: true,
            counts: Counts::none(),
            path: FieldPath::field(0),
            range: Range {
                set: false,
                name: 0,
                node: 0,
            },
            guide: Guide {
                set: false,
                distance: 0,
                anchor: Anchor::Prefix,
                term: 0,
                node: 0,
            },
            lo: edge,
            hi: edge,
            folded: Folded {
                first: 0,
                second: 0,
            },
            target,
        }
    }

    // The same level, marked too long for a plan.
    pub fn stopped(self) -> SeekBuilder
        ensures { result ≡ overrun self }
    {
        let mut l = self;
        l.over = true;
        l
    }

    // Building falls; range and guide stay as they were set.
    pub fn fallen(self) -> SeekBuilder
        ensures { result ≡ fell self }
    {
        let mut l = self;
        l.building = false;
        l.range.set = kept(self.building, self.range.set);
        l.guide.set = kept(self.building, self.guide.set);
        l
    }

    // Nothing more is placed in the key: building falls.
    pub fn skip(self) -> SeekBuilder
        ensures { (T : Tables) (e : Ends) (w p : List ℕ) →
            let before = state_of T self e w p in
            let after = state_of T result e w p in
            after ≡ Ops.skip before }
    {
        if self.over {
            return self;
        }
        self.fallen()
    }
}
