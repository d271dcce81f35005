// The comparisons that bound a level: the first of each sense gives an edge.
ghost use Rattle.std.specs.Prelude.{◌≡◌, List, ℕ, ◌<◌, length};
ghost use Rattle.rules.specs.File.{Tables};
ghost use Rattle.rules.specs.Placement.{take_hi, take_lo, take_edge, edge, is_var, flipped};
ghost use Rattle.state.specs.State.{Ends};
ghost use Rattle.state.specs.Ops as Ops;
ghost use Rattle.views.specs.Views.{op_of, comparison_at};
ghost use Rattle.accepted_file.specs.Tables.{accepted_tables};
ghost use Rattle.seek.specs.Bounds.{of_sense, edge_by, fold_one};
ghost use Rattle.seek.specs.Seek.{folded_then, constant_bytes, state_of};

use crate::{Edge, Folded, SeekBuilder};
use accepted_file::AcceptedFile;
use constant::has_bytes;
use file::Section;
use tables::var_name;
use views::{CompareOp, compare_op, op_number};

// Whether a node is the variable of that name.
fn is_var(file: &AcceptedFile, node: usize, name: usize) -> bool
    requires { node < length (accepted_tables file.now).nodes }
    ensures { result ≡ is_var (accepted_tables file.now) name node }
{
    match var_name(&file.tables, node) {
        Some(x) => x == name,
        None => false,
    }
}

// The op read from the other side.
fn flipped(op: CompareOp) -> CompareOp
    ensures { op_of result ≡ flipped (op_of op) }
{
    compare_op((op_number(op) + 2) % 4)
}

// Of two edges, the first for the upper sense, the second for the lower.
fn of_sense(upper: bool, hi: Edge, lo: Edge) -> Edge
    ensures { result ≡ of_sense upper hi lo }
{
    if upper { hi } else { lo }
}

impl Folded {
    // One index more, after the other edge's if that is set.
    fn then(self, other: bool, index: u16) -> Folded
        ensures { result ≡ folded_then other index self }
    {
        if other {
            return Folded {
                first: self.first,
                second: index,
            };
        }
        Folded {
            first: index,
            second: self.second,
        }
    }
}

impl SeekBuilder {
    // The first edge of each sense, upper or lower, is taken, with its comparison's index.
    fn take(self, upper: bool, index: u16, inclusive: bool, node: u16, ty: u16) -> SeekBuilder
        ensures { (T : Tables) (e : Ends) (w p : List ℕ) →
            let before = state_of T self e w p in
            let after = state_of T result e w p in
            let taken = edge (constant_bytes T node ty) inclusive in
            after ≡ Ops.relevel (λ l. Ops.with_edges (of_sense upper take_hi take_lo index taken l.edges) l) before }
    {
        let own = of_sense(upper, self.hi, self.lo);
        if own.set {
            return self;
        }
        let other = of_sense(upper, self.lo, self.hi);
        let edge = Edge {
            set: true,
            inclusive,
            node,
            ty,
        };
        let mut l = self;
        l.hi = of_sense(upper, edge, self.hi);
        l.lo = of_sense(upper, self.lo, edge);
        l.folded = self.folded.then(other.set, index);
        l
    }

    // A comparison with a constant's bytes, read from the variable's side.
    fn edge(self, index: u16, op: CompareOp, node: u16, ty: u16) -> SeekBuilder
        ensures { (T : Tables) (e : Ends) (w p : List ℕ) →
            let before = state_of T self e w p in
            let after = state_of T result e w p in
            after ≡ Ops.relevel (λ l. Ops.with_edges (take_edge index (op_of op) (constant_bytes T node ty) l.edges) l) before }
    {
        match op {
            CompareOp::Lt => self.take(true, index, false, node, ty),
            CompareOp::Le => self.take(true, index, true, node, ty),
            CompareOp::Gt => self.take(false, index, false, node, ty),
            CompareOp::Ge => self.take(false, index, true, node, ty),
        }
    }

    // The edge that a constant gives, if it is bytes: nothing of it is measured before it is written.
    fn edge_at(
        self,
        file: &AcceptedFile,
        k: usize,
        op: CompareOp,
        node: usize,
        ty: usize,
    ) -> SeekBuilder
        requires k_in_bounds { k < length (accepted_tables file.now).comparisons }
        requires node_in_bounds { node < length (accepted_tables file.now).nodes }
        requires ty_in_bounds { ty < length (accepted_tables file.now).types }
        ensures { (e : Ends) (w p : List ℕ) →
            let T = accepted_tables file.now in
            let before = state_of T self e w p in
            let after = state_of T result e w p in
            after ≡ Ops.relevel (λ l. Ops.with_edges (edge_by T k (op_of op) node ty l.edges) l) before }
    {
        if has_bytes(file, node, ty) {
            return self.edge(k as u16, op, node as u16, ty as u16);
        }
        self
    }

    // Comparison k, read from the variable's side.
    fn compared(self, file: &AcceptedFile, k: usize, name: usize, ty: usize) -> SeekBuilder
        requires k_in_bounds { k < length (accepted_tables file.now).comparisons }
        requires ty_in_bounds { ty < length (accepted_tables file.now).types }
        ensures { (e : Ends) (w p : List ℕ) →
            let T = accepted_tables file.now in
            let before = state_of T self e w p in
            let after = state_of T result e w p in
            after ≡ Ops.relevel (λ l. Ops.with_edges (fold_one T name ty k (comparison_at T k) l.edges) l) before }
    {
        let c = file.tables.comparison_at(k);
        let op = c.op;
        let left = c.left;
        let right = c.right;
        if is_var(file, left, name) {
            return self.edge_at(file, k, op, right, ty);
        }
        if is_var(file, right, name) {
            return self.edge_at(file, k, flipped(op), left, ty);
        }
        self
    }

    // The comparisons with a variable bound a level that builds.
    pub fn bound(self, file: &AcceptedFile, name: usize, ty: usize) -> SeekBuilder
        requires { ty < length (accepted_tables file.now).types }
        ensures { (e : Ends) (w p : List ℕ) →
            let T = accepted_tables file.now in
            let before = state_of T self e w p in
            let after = state_of T result e w p in
            after ≡ Ops.bound T name ty before }
    {
        if self.over {
            return self;
        }
        if !self.building {
            return self;
        }
        let mut l = self;
        for i in 0..file.tables.count_of(Section::Comparisons) {
            l = l.compared(file, i, name, ty);
        }
        l
    }
}
