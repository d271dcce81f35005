// Views of the records of a file that was read. A view carries numbers and positions; what they stand for is the written rules' entry.
// Types, nodes and predicates come by any number too: past a section's count they are what the written rules give there.
#![tactic(auto)]

ghost use Rattle.std.specs.Prelude.{◌≡◌, ◌+◌, ◌*◌, ◌≤◌, ◌<◌, length, get_or};
ghost use Rattle.rules.specs.Limits.{step_limit};
ghost use Rattle.rules.specs.File.{op_of_number, op_number, name_at, type_at, predicate_at, node_at};
ghost use Rattle.file.specs.Sections as Sections;
ghost use Rattle.file.specs.Sections.{number_of};
ghost use Rattle.file.specs.Steps.{word, limit_of};
ghost use Rattle.paths.specs.Paths.{path_for, Holds};
ghost use Rattle.views.specs.Files.{tables_in};
ghost use Rattle.views.specs.Views.{size_of, start_at, path_at, past_path, long, or_none, anchor_at, op_of, predicate_maybe, text_view, type_view, node_view, type_entry, node_entry, binding_view, fetched_view, field_at, alternative_at, pattern_at, field_of, alternative_of, pattern_of, predicate_of, binding_at, hoisted_at, fetched_at, constraint_at, comparison_at, level_entry_at, hoisted_of, constraint_of, comparison_of, level_of, PathInside, SeenType, SeenNode, SeenBinding, SeenFetched, SeenText};

use file::{Section, base, word_at};
use paths::{Address, FieldPath, PredicateId};

mod indexed;

pub use indexed::IndexedFile;

// A type. Record and Union have the count of their children and the position of the first.
#[derive(Clone, Copy)]
pub enum TypeView {
    Int,
    Str,
    Bytes,
    Fact(PredicateId),
    Record(usize, usize),
    Union(usize, usize),
}

// A field of a Record type.
#[derive(Clone, Copy)]
pub struct FieldTy {
    pub name: usize,
    pub ty: usize,
}

// An alternative of a Union type.
#[derive(Clone, Copy)]
pub struct Alternative {
    pub name: usize,
    pub disc: u32,
    pub ty: usize,
}

// A predicate's key type, and its value type if it has one.
#[derive(Clone, Copy)]
pub struct Predicate {
    pub key: usize,
    pub value: Option<usize>,
}

// Where a fuzzy text has to stand: at the beginning, or as the whole.
#[derive(Clone, Copy)]
pub enum Anchor {
    Prefix,
    Whole,
}

// A node. Int has the position of its eight bytes, Bytes a count and the position of the first, Record a count and the position of its
// first pair.
#[derive(Clone, Copy)]
pub enum NodeView {
    Int(usize),
    Str(usize),
    Bytes(usize, usize),
    Var(usize),
    Wildcard,
    Never,
    Prefix(usize),
    Fuzzy(usize, u8, Anchor),
    Record(usize, usize),
    Access(usize, usize),
    Value(usize),
    Select(usize, usize),
    Disjunction,
    Subquery,
    Fact(PredicateId, usize),
    Arith,
    Error,
}

// A pair of a Record node: a field's name and the pattern for it.
#[derive(Clone, Copy)]
pub struct FieldPattern {
    pub name: usize,
    pub node: usize,
}

// A name's text: its position and its length.
#[derive(Clone, Copy)]
pub struct TextView {
    pub at: usize,
    pub len: usize,
}

// A slot. Field has the position of its path between its address and its type.
#[derive(Clone, Copy)]
pub enum SlotView {
    Row(Address, Option<PredicateId>),
    Key(Address, usize),
    Derived(Address),
    Field(Address, usize, usize),
    Value(Address, usize),
    Const(usize),
}

// A binding of the file: a name and where its value lives.
#[derive(Clone, Copy)]
pub struct BindingView {
    pub name: usize,
    pub slot: SlotView,
}

// A hoisted entry: the name that a node was given.
#[derive(Clone, Copy)]
pub struct Hoisted {
    pub node: usize,
    pub name: usize,
}

// A fetched entry: the register that holds what stands at a path of a row; `path` is the path's position.
#[derive(Clone, Copy)]
pub struct FetchedView {
    pub address: Address,
    pub path: usize,
    pub register: Address,
}

// A constraint: a pattern that a name's value has to meet.
#[derive(Clone, Copy)]
pub struct Constraint {
    pub name: usize,
    pub node: usize,
}

#[derive(Clone, Copy)]
pub enum CompareOp {
    Lt,
    Le,
    Gt,
    Ge,
}

// A comparison of two nodes.
#[derive(Clone, Copy)]
pub struct Comparison {
    pub op: CompareOp,
    pub left: usize,
    pub right: usize,
}

// A level: the predicate whose facts it seeks, the pattern of their keys, and its register.
#[derive(Clone, Copy)]
pub struct LevelEntry {
    pub predicate: PredicateId,
    pub node: usize,
    pub address: Address,
}

// The two bytes at p, as register and predicate numbers are kept.
pub fn half_at(file: &[u8], p: usize) -> u16
    requires { p + 2 ≤ length file.now }
    ensures { result ≡ word file.now p }
{
    word_at(file, p) as u16
}

// The four bytes at p, the lowest first.
pub fn long_at(file: &[u8], p: usize) -> u32
    requires { p + 4 ≤ length file.now }
    ensures { result ≡ long file.now p }
{
    u32::from_le_bytes([file[p], file[p + 1], file[p + 2], file[p + 3]])
}

// Field k of a Record type whose fields start at `at`.
pub fn field_ty_at(file: &[u8], at: usize, k: usize) -> FieldTy
    requires { at + 4 * k + 4 ≤ length file.now }
    ensures { field_of result ≡ field_at file.now (at + 4 * k) }
{
    let p = at + 4 * k;
    FieldTy {
        name: word_at(file, p),
        ty: word_at(file, p + 2),
    }
}

// Alternative k of a Union type whose alternatives start at `at`.
pub fn alternative_at(file: &[u8], at: usize, k: usize) -> Alternative
    requires { at + 8 * k + 8 ≤ length file.now }
    ensures { alternative_of result ≡ alternative_at file.now (at + 8 * k) }
{
    let p = at + 8 * k;
    Alternative {
        name: word_at(file, p),
        disc: long_at(file, p + 2),
        ty: word_at(file, p + 6),
    }
}

// Pair k of a Record node whose pairs start at `at`.
pub fn field_pattern_at(file: &[u8], at: usize, k: usize) -> FieldPattern
    requires { at + 4 * k + 4 ≤ length file.now }
    ensures { pattern_of result ≡ pattern_at file.now (at + 4 * k) }
{
    let p = at + 4 * k;
    FieldPattern {
        name: word_at(file, p),
        node: word_at(file, p + 2),
    }
}

// A type's number, where FFFF hex stands for none.
fn maybe_type(n: usize) -> Option<usize>
    ensures { result ≡ or_none n }
{
    if n == 65535 { None } else { Some(n) }
}

// A predicate's number, where FFFF hex stands for none.
pub fn maybe_predicate(n: u16) -> Option<PredicateId>
    ensures { result ≡ predicate_maybe n }
{
    if n == 65535 {
        None
    } else {
        Some(PredicateId(n))
    }
}

// An anchor by its byte. A TryFrom would hand callers an error that reading has ruled out: no plainer.
pub fn anchor_of(b: u8) -> Anchor
    requires { b < 2 }
    ensures { result ≡ anchor_at b }
{
    if b == 0 {
        Anchor::Prefix
    } else {
        Anchor::Whole
    }
}

// Where a path that starts at `at` ends.
pub fn past_path(file: &[u8], at: usize) -> usize
    requires { PathInside file.now at }
    ensures { result ≡ past_path file.now at }
{
    at + 3 + 4 * usize::from(file[at + 2])
}

// The path that stands at `at`, by value.
pub fn path_at(file: &[u8], at: usize) -> FieldPath
    requires path_inside { PathInside file.now at }
    requires at_bound { get_or file.now (at + 2) 0 ≤ step_limit }
    ensures holds { Holds result (path_at file.now at) }
    ensures whole { result ≡ path_for (path_at file.now at) }
{
    let field = word_at(file, at) as u16;
    let count = usize::from(file[at + 2]);
    // No heap: on the stack.
    let mut steps = [0u32; FieldPath::STEP_LIMIT];
    for i in 0..count {
        steps[i] = long_at(file, at + 3 + 4 * i);
    }
    FieldPath {
        steps,
        count: count as u16,
        field,
    }
}

// The number of a comparison's op.
pub fn op_number(op: CompareOp) -> u8
    ensures { result ≡ op_number (op_of op) }
{
    op as u8
}

// A comparison's op by its number; no TryFrom, as above.
pub fn compare_op(b: u8) -> CompareOp
    requires { b < 4 }
    ensures { op_of result ≡ op_of_number b }
{
    match b {
        0 => CompareOp::Lt,
        1 => CompareOp::Le,
        2 => CompareOp::Gt,
        _ => CompareOp::Ge,
    }
}

impl IndexedFile<'_> {
    // Where record t of section s starts.
    fn start_of(&self, s: Section, t: usize) -> usize
        requires { t < limit_of (number_of s) }
        ensures { result ≡ start_at self.now.index.now (number_of s) t }
    {
        usize::from(self.index[base(s) + 1 + t])
    }

    // How many records section s has.
    pub fn count_of(&self, s: Section) -> usize
        ensures { result ≡ size_of (tables_in self.now) (number_of s) }
    {
        usize::from(self.index[base(s)])
    }

    // Type t, and where its children stand.
    pub fn type_at(&self, t: usize) -> TypeView
        requires { t < length (tables_in self.now).types }
        ensures shows { SeenType self.now.bytes.now (type_at (tables_in self.now) t) result }
        ensures view { result ≡ type_view self.now.bytes.now (start_at self.now.index.now Sections.types t) }
    {
        let p = self.start_of(Section::Types, t);
        match self.bytes[p] {
            0 => TypeView::Int,
            1 => TypeView::Str,
            2 => TypeView::Bytes,
            3 => TypeView::Fact(PredicateId(half_at(self.bytes, p + 1))),
            4 => TypeView::Record(usize::from(self.bytes[p + 1]), p + 2),
            _ => TypeView::Union(usize::from(self.bytes[p + 1]), p + 2),
        }
    }

    // Where the text of name x stands, and its length.
    pub fn name_at(&self, x: usize) -> TextView
        requires { x < length (tables_in self.now).names }
        ensures shows { SeenText self.now.bytes.now (name_at (tables_in self.now) x) result }
        ensures view { result ≡ text_view self.now.bytes.now (start_at self.now.index.now Sections.names x) }
    {
        let p = self.start_of(Section::Names, x);
        TextView {
            at: p + 1,
            len: usize::from(self.bytes[p]),
        }
    }

    // The key and value types of predicate p.
    pub fn predicate_at(&self, p: PredicateId) -> Predicate
        requires { p.0 < length (tables_in self.now).predicates }
        ensures { predicate_of result ≡ predicate_at (tables_in self.now) p.0 }
    {
        let n = usize::from(p.0);
        let at = self.start_of(Section::Predicates, n);
        Predicate {
            key: word_at(self.bytes, at),
            value: maybe_type(word_at(self.bytes, at + 2)),
        }
    }

    // Node n, and where its bytes or pairs stand.
    pub fn node_at(&self, n: usize) -> NodeView
        requires { n < length (tables_in self.now).nodes }
        ensures shows { SeenNode self.now.bytes.now (node_at (tables_in self.now) n) result }
        ensures view { result ≡ node_view self.now.bytes.now (start_at self.now.index.now Sections.nodes n) }
    {
        let at = self.start_of(Section::Nodes, n);
        let p = at + 1;
        match self.bytes[at] {
            0 => NodeView::Int(p),
            1 => NodeView::Str(word_at(self.bytes, p)),
            2 => NodeView::Bytes(usize::from(self.bytes[p]), p + 1),
            3 => NodeView::Var(word_at(self.bytes, p)),
            4 => NodeView::Wildcard,
            5 => NodeView::Never,
            6 => NodeView::Prefix(word_at(self.bytes, p)),
            7 => NodeView::Fuzzy(
                word_at(self.bytes, p),
                self.bytes[p + 2],
                anchor_of(self.bytes[p + 3]),
            ),
            8 => NodeView::Record(usize::from(self.bytes[p]), p + 1),
            9 => NodeView::Access(word_at(self.bytes, p), word_at(self.bytes, p + 2)),
            10 => NodeView::Value(word_at(self.bytes, p)),
            11 => NodeView::Select(word_at(self.bytes, p), word_at(self.bytes, p + 2)),
            12 => NodeView::Disjunction,
            13 => NodeView::Subquery,
            14 => NodeView::Fact(
                PredicateId(half_at(self.bytes, p)),
                word_at(self.bytes, p + 2),
            ),
            15 => NodeView::Arith,
            _ => NodeView::Error,
        }
    }

    // Binding b of the file: its name and its slot.
    pub fn binding_at(&self, b: usize) -> BindingView
        requires { b < length (tables_in self.now).bindings }
        ensures shows { SeenBinding self.now.bytes.now (binding_at (tables_in self.now) b) result }
        ensures view { result ≡ binding_view self.now.bytes.now (start_at self.now.index.now Sections.bindings b) }
    {
        let at = self.start_of(Section::Bindings, b);
        let name = word_at(self.bytes, at);
        let q = at + 2;
        let p = q + 1;
        let a = Address(half_at(self.bytes, p));
        match self.bytes[q] {
            0 => BindingView {
                name,
                slot: SlotView::Row(a, maybe_predicate(half_at(self.bytes, p + 2))),
            },
            1 => BindingView {
                name,
                slot: SlotView::Key(a, word_at(self.bytes, p + 2)),
            },
            2 => BindingView {
                name,
                slot: SlotView::Derived(a),
            },
            3 => BindingView {
                name,
                slot: SlotView::Field(a, p + 2, word_at(self.bytes, past_path(self.bytes, p + 2))),
            },
            4 => BindingView {
                name,
                slot: SlotView::Value(a, word_at(self.bytes, p + 2)),
            },
            _ => BindingView {
                name,
                slot: SlotView::Const(word_at(self.bytes, p)),
            },
        }
    }

    // Hoisted entry k.
    pub fn hoisted_at(&self, k: usize) -> Hoisted
        requires { k < length (tables_in self.now).hoisted }
        ensures { hoisted_of result ≡ hoisted_at (tables_in self.now) k }
    {
        let p = self.start_of(Section::Hoisted, k);
        Hoisted {
            node: word_at(self.bytes, p),
            name: word_at(self.bytes, p + 2),
        }
    }

    // Fetched entry k.
    pub fn fetched_at(&self, k: usize) -> FetchedView
        requires { k < length (tables_in self.now).fetched }
        ensures shows { SeenFetched self.now.bytes.now (fetched_at (tables_in self.now) k) result }
        ensures view { result ≡ fetched_view self.now.bytes.now (start_at self.now.index.now Sections.fetched k) }
    {
        let p = self.start_of(Section::Fetched, k);
        let address = Address(half_at(self.bytes, p));
        let register = Address(half_at(self.bytes, past_path(self.bytes, p + 2)));
        FetchedView {
            address,
            path: p + 2,
            register,
        }
    }

    // Constraint k.
    pub fn constraint_at(&self, k: usize) -> Constraint
        requires { k < length (tables_in self.now).constraints }
        ensures { constraint_of result ≡ constraint_at (tables_in self.now) k }
    {
        let p = self.start_of(Section::Constraints, k);
        Constraint {
            name: word_at(self.bytes, p),
            node: word_at(self.bytes, p + 2),
        }
    }

    // Comparison k.
    pub fn comparison_at(&self, k: usize) -> Comparison
        requires { k < length (tables_in self.now).comparisons }
        ensures { comparison_of result ≡ comparison_at (tables_in self.now) k }
    {
        let p = self.start_of(Section::Comparisons, k);
        Comparison {
            op: compare_op(self.bytes[p]),
            left: word_at(self.bytes, p + 1),
            right: word_at(self.bytes, p + 3),
        }
    }

    // Entry k of the list of levels.
    pub fn level_at(&self, k: usize) -> LevelEntry
        requires { k < length (tables_in self.now).levels }
        ensures { level_of result ≡ level_entry_at (tables_in self.now) k }
    {
        let p = self.start_of(Section::Levels, k);
        let predicate = PredicateId(half_at(self.bytes, p));
        let address = Address(half_at(self.bytes, p + 4));
        LevelEntry {
            predicate,
            node: word_at(self.bytes, p + 2),
            address,
        }
    }

    // Type t, and Int past the last.
    pub fn type_of(&self, t: usize) -> TypeView
        ensures shows { SeenType self.now.bytes.now (type_at (tables_in self.now) t) result }
        ensures view { result ≡ type_entry (tables_in self.now) self.now.bytes.now self.now.index.now t }
    {
        if t < self.count_of(Section::Types) {
            self.type_at(t)
        } else {
            TypeView::Int
        }
    }

    // Node n, and Error past the last.
    pub fn node_of(&self, n: usize) -> NodeView
        ensures shows { SeenNode self.now.bytes.now (node_at (tables_in self.now) n) result }
        ensures view { result ≡ node_entry (tables_in self.now) self.now.bytes.now self.now.index.now n }
    {
        if n < self.count_of(Section::Nodes) {
            self.node_at(n)
        } else {
            NodeView::Error
        }
    }

    // Predicate p; past the last, one with key type 0 and no value.
    pub fn predicate_of(&self, p: PredicateId) -> Predicate
        ensures { predicate_of result ≡ predicate_at (tables_in self.now) p.0 }
    {
        let n = usize::from(p.0);
        if n < self.count_of(Section::Predicates) {
            self.predicate_at(p)
        } else {
            Predicate {
                key: 0,
                value: None,
            }
        }
    }
}
