// Parts and residuals: what a narrowing adds to a level, and its bytes in the plan.
ghost use Rattle.std.specs.Prelude.{◌≡◌, List, ℕ, ◌+◌, ◌<◌};
ghost use Rattle.rules.specs.File.{Tables};
ghost use Rattle.rules.specs.Constant.{union_tag};
ghost use Rattle.rules.specs.Events.{Narrowing};
ghost use Rattle.rules.specs.Placement.{SeekKeyPart};
ghost use Rattle.rules.specs.Plan as Plan;
ghost use Rattle.state.specs.State.{Ends};
ghost use Rattle.state.specs.Ops as Ops;
ghost use Rattle.paths.specs.Paths.{path_of};
ghost use Rattle.records.specs.Records.{reach, written_at, moved_to};
ghost use Rattle.seek.specs.Seek.{Below, counts_of, state_of, grown_by, part_place, node_place, rest_place, part_by, residual_by};

use crate::{Placed, SeekBuilder, Sums};
use paths::{Address, FieldPath};
use records::{
    Place, apart, path_size, put_byte_at, put_fact, put_head, put_node, put_path_at, put_register,
    put_tag_at, put_tag_op,
};

impl SeekBuilder {
    // The level with other counts, if they fit, and where what made them grow is written.
    fn grown(self, plain: bool, s: Sums, at: usize) -> Placed
        requires { Below reach s }
        ensures { result ≡ grown_by plain s at self }
    {
        let t = self.target;
        if s.fits(plain) {
            let c = s.counts();
            let mut l = self;
            l.plain = plain;
            l.counts = c;
            let place = Place {
                write: true,
                joined: t.joining,
                at,
            };
            Placed { level: l, place }
        } else {
            let place = Place {
                write: false,
                joined: t.joining,
                at,
            };
            Placed {
                level: self.stopped(),
                place,
            }
        }
    }

    // Where the next part is written.
    fn part_at(self) -> usize
        ensures { (result ≡ part_place self) × (result < 17179869184) }
    {
        let t = self.target;
        let c = self.counts;
        let base = t.parts as usize + c.joined as usize;
        if t.joining {
            return base;
        }
        base + c.framed as usize
    }

    // Where the node of the next part is written: where the part's form ends, or with the others' behind the joined text.
    fn node_at(self, end: usize) -> usize
        requires { end < reach }
        ensures { (result ≡ node_place end self) × (result < reach) }
    {
        let t = self.target;
        let c = self.counts;
        if t.joining {
            return t.nodes as usize + 2 * (c.closers as usize + c.others as usize);
        }
        end
    }

    // One part more that `node` made, of `text` bytes, to which its form in the plan adds `frame` bytes. The node is written here.
    pub fn part(
        self,
        closer: bool,
        bytes: bool,
        text: usize,
        frame: usize,
        node: usize,
        plan: &mut [u8],
    ) -> Placed
        requires { (text < 1099511627776) × (frame + 2 < 65536) }
        ensures grows { (result ≡ part_by closer bytes text frame self) × (result.place.at < 17179869184) }
        ensures writes { let at = node_place (part_place self + (text + frame)) self in
            plan.new ≡ written_at (moved_to at result.place) (Plan.u16 node) plan.old }
    {
        let c = self.counts;
        let s = c.sums().with_part(closer, text, frame + 2);
        let at = self.part_at();
        let p = self.grown(self.plain && bytes, s, at);
        put_node(plan, p.place, self.node_at(at + (text + frame)), node);
        p
    }

    // One residual more that `node` made, of `size` bytes without its node. The node is written here, behind them.
    pub fn residual(self, size: usize, node: usize, plan: &mut [u8]) -> Placed
        requires { size + 2 < 1099511627776 }
        ensures grows { (result ≡ residual_by size self) × (result.place.at < 17179869184) }
        ensures writes { let at = rest_place self + size in
            plan.new ≡ written_at (moved_to at result.place) (Plan.u16 node) plan.old }
    {
        let c = self.counts;
        let t = self.target;
        let s = c.sums().with_residual(size + 2);
        let at = t.rest as usize + c.rest as usize;
        let p = self.grown(self.plain, s, at);
        put_node(plan, p.place, at + size, node);
        p
    }

    fn tag_part(self, disc: u32, node: usize, plan: &mut [u8]) -> SeekBuilder
        ensures { (T : Tables) (e : Ends) (w : List ℕ) →
            let before = state_of T self e w plan.old in
            let after = state_of T result e w plan.new in
            after ≡ Ops.put_part node (SeekKeyPart.Bytes (union_tag disc)) (Ops.narrowed (counts_of self.counts)) before }
    {
        let p = self.part(false, true, 5, 3, node, plan);
        let place = p.place;
        let at = put_head(plan, place, 5);
        put_tag_at(plan, at, disc);
        p.level
    }

    fn tag_residual(self, path: FieldPath, disc: u32, node: usize, plan: &mut [u8]) -> SeekBuilder
        ensures { (T : Tables) (e : Ends) (w : List ℕ) →
            let before = state_of T self e w plan.old in
            let after = state_of T result e w plan.new in
            after ≡ Ops.put_residual node (path_of path) (Narrowing.Tag disc) before }
    {
        let p = self.residual(path_size(path) + 5, node, plan);
        let place = p.place;
        let at = put_path_at(plan, place, path);
        put_tag_op(plan, at, disc);
        p.level
    }

    // A union's tag: a part while building, else a residual.
    pub fn tag(self, path: FieldPath, disc: u32, node: usize, plan: &mut [u8]) -> SeekBuilder
        ensures { (T : Tables) (e : Ends) (w : List ℕ) →
            let before = state_of T self e w plan.old in
            let after = state_of T result e w plan.new in
            after ≡ Ops.narrow node (path_of path) (Narrowing.Tag disc) before }
    {
        if self.over {
            return self;
        }
        if self.building {
            self.tag_part(disc, node, plan)
        } else {
            self.tag_residual(path, disc, node, plan)
        }
    }

    fn register_part(
        self,
        address: Address,
        at: FieldPath,
        node: usize,
        plan: &mut [u8],
    ) -> SeekBuilder
        ensures { (T : Tables) (e : Ends) (w : List ℕ) →
            let before = state_of T self e w plan.old in
            let after = state_of T result e w plan.new in
            after ≡ Ops.put_part node (SeekKeyPart.RegisterField address.0 (path_of at)) (Ops.narrowed (counts_of self.counts)) before }
    {
        let p = self.part(false, false, 0, 3 + path_size(at), node, plan);
        let place = p.place;
        put_register(plan, apart(place), 1, address, at);
        p.level
    }

    fn register_residual(
        self,
        path: FieldPath,
        address: Address,
        at: FieldPath,
        node: usize,
        plan: &mut [u8],
    ) -> SeekBuilder
        ensures { (T : Tables) (e : Ends) (w : List ℕ) →
            let before = state_of T self e w plan.old in
            let after = state_of T result e w plan.new in
            after ≡ Ops.put_residual node (path_of path) (Narrowing.RegisterField address.0 (path_of at)) before }
    {
        let p = self.residual(path_size(path) + 3 + path_size(at), node, plan);
        let place = p.place;
        let op = put_path_at(plan, place, path);
        put_register(plan, op, 2, address, at);
        p.level
    }

    // A field of a register: a part while building, else a residual.
    pub fn register_field(
        self,
        path: FieldPath,
        address: Address,
        at: FieldPath,
        node: usize,
        plan: &mut [u8],
    ) -> SeekBuilder
        ensures { (T : Tables) (e : Ends) (w : List ℕ) →
            let before = state_of T self e w plan.old in
            let after = state_of T result e w plan.new in
            after ≡ Ops.narrow node (path_of path) (Narrowing.RegisterField address.0 (path_of at)) before }
    {
        if self.over {
            return self;
        }
        if self.building {
            self.register_part(address, at, node, plan)
        } else {
            self.register_residual(path, address, at, node, plan)
        }
    }

    fn fact_part(self, address: Address, node: usize, plan: &mut [u8]) -> SeekBuilder
        ensures { (T : Tables) (e : Ends) (w : List ℕ) →
            let before = state_of T self e w plan.old in
            let after = state_of T result e w plan.new in
            after ≡ Ops.put_part node (SeekKeyPart.RegisterFactId address.0) (Ops.narrowed (counts_of self.counts)) before }
    {
        let p = self.part(false, false, 0, 3, node, plan);
        let place = p.place;
        put_fact(plan, apart(place), 2, address);
        p.level
    }

    fn fact_residual(
        self,
        path: FieldPath,
        address: Address,
        node: usize,
        plan: &mut [u8],
    ) -> SeekBuilder
        ensures { (T : Tables) (e : Ends) (w : List ℕ) →
            let before = state_of T self e w plan.old in
            let after = state_of T result e w plan.new in
            after ≡ Ops.put_residual node (path_of path) (Narrowing.FactId address.0) before }
    {
        let p = self.residual(path_size(path) + 3, node, plan);
        let place = p.place;
        let op = put_path_at(plan, place, path);
        put_fact(plan, op, 3, address);
        p.level
    }

    // The id of a register's fact: a part while building, else a residual.
    pub fn fact_id(
        self,
        path: FieldPath,
        address: Address,
        node: usize,
        plan: &mut [u8],
    ) -> SeekBuilder
        ensures { (T : Tables) (e : Ends) (w : List ℕ) →
            let before = state_of T self e w plan.old in
            let after = state_of T result e w plan.new in
            after ≡ Ops.narrow node (path_of path) (Narrowing.FactId address.0) before }
    {
        if self.over {
            return self;
        }
        if self.building {
            self.fact_part(address, node, plan)
        } else {
            self.fact_residual(path, address, node, plan)
        }
    }

    // A union's closer: a part while building, else nothing.
    pub fn closer(self, node: usize, plan: &mut [u8]) -> SeekBuilder
        ensures { (T : Tables) (e : Ends) (w : List ℕ) →
            let before = state_of T self e w plan.old in
            let after = state_of T result e w plan.new in
            after ≡ Ops.closer node before }
    {
        if self.over {
            return self;
        }
        if !self.building {
            return self;
        }
        let p = self.part(true, true, 1, 3, node, plan);
        let place = p.place;
        let at = put_head(plan, place, 1);
        put_byte_at(plan, at, 0);
        p.level
    }
}
