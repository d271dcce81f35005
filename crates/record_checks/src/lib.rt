// The whole-file checks 8, 9 and 10.
#![tactic(auto)]

ghost use Rattle.std.specs.Prelude.{◌≡◌, ◌+◌, ◌≤◌, ◌<◌, length, ltb};
ghost use Rattle.rules.specs.Base.{both, all, distinct};
ghost use Rattle.rules.specs.File.{type_at, node_at, predicate_at, child_types, child_nodes};
ghost use Rattle.rules.specs.Checks.{type_in, predicate_in, node_in, binding_in, hoisted_in, constraint_in, comparison_in, level_in, numbers_in, children_lower, type_distinct, types_distinct};
ghost use Rattle.file.specs.Steps.{word};
ghost use Rattle.views.specs.Files.{tables_in};
ghost use Rattle.views.specs.Views.{run, binding_at, hoisted_at, constraint_at, comparison_at, level_entry_at};
ghost use Rattle.record_checks.specs.RecordChecks.{Words, pairs_in, number_at, among, rising};

use file::{NAME_LIMIT, Section, word_at};
use paths::PredicateId;
use views::{IndexedFile, NodeView, SlotView, TypeView, long_at};

// Whether each of n two-byte numbers is below the bound; the first stands at p, each next one w bytes on. 8 and 9 both ask this.
pub fn words_below(file: &[u8], w: usize, n: usize, p: usize, bound: usize) -> bool
    requires { Words file.now 2 w n p }
    ensures { result ≡ all (λ c. ltb c bound) (run (word file.now) w n p) }
{
    for k in 0..n {
        if word_at(file, p + w * k) >= bound {
            return false;
        }
    }
    true
}

// 8: whether n pairs name only numbers below their bounds. The first pair's name stands at p, each next one w bytes on; the other number
// of a pair stands so many bytes behind its name.
fn pairs_in(
    file: &[u8],
    w: usize,
    n: usize,
    p: usize,
    names: usize,
    behind: usize,
    bound: usize,
) -> bool
    requires words { Words file.now 2 w n p }
    requires words_2 { Words file.now 2 w n (p + behind) }
    ensures { result ≡ pairs_in file.now w n p names behind bound }
{
    words_below(file, w, n, p, names) && words_below(file, w, n, p + behind, bound)
}

// 8: the names, types and predicate that a type has.
fn type_in(file: &IndexedFile, t: usize) -> bool
    requires { t < length (tables_in file.now).types }
    ensures { let T = tables_in file.now in
        result ≡ type_in T (type_at T t) }
{
    let names = file.count_of(Section::Names);
    let types = file.count_of(Section::Types);
    match file.type_at(t) {
        TypeView::Fact(p) => usize::from(p.0) < file.count_of(Section::Predicates),
        TypeView::Record(n, at) => pairs_in(file.bytes, 4, n, at, names, 2, types),
        TypeView::Union(n, at) => pairs_in(file.bytes, 8, n, at, names, 6, types),
        _ => true,
    }
}

// 8: the types of a predicate's key and value.
fn predicate_in(file: &IndexedFile, t: usize) -> bool
    requires { t < length (tables_in file.now).predicates }
    ensures { let T = tables_in file.now in
        result ≡ predicate_in T (predicate_at T t) }
{
    let types = file.count_of(Section::Types);
    let p = file.predicate_at(PredicateId(t as u16));
    if p.key >= types {
        return false;
    }
    match p.value {
        None => true,
        Some(v) => v < types,
    }
}

// 8: the names, nodes and predicate that a node has.
fn node_in(file: &IndexedFile, n: usize) -> bool
    requires { n < length (tables_in file.now).nodes }
    ensures { let T = tables_in file.now in
        result ≡ node_in T (node_at T n) }
{
    let names = file.count_of(Section::Names);
    let nodes = file.count_of(Section::Nodes);
    match file.node_at(n) {
        NodeView::Str(x) | NodeView::Var(x) | NodeView::Prefix(x) => x < names,
        NodeView::Fuzzy(x, _, _) => x < names,
        NodeView::Record(m, at) => pairs_in(file.bytes, 4, m, at, names, 2, nodes),
        NodeView::Access(x, c) | NodeView::Select(x, c) => both_below(x, names, c, nodes),
        NodeView::Value(c) => c < nodes,
        NodeView::Fact(p, c) => both_below(
            usize::from(p.0),
            file.count_of(Section::Predicates),
            c,
            nodes,
        ),
        _ => true,
    }
}

// Two numbers, each below its bound.
fn both_below(a: usize, m: usize, b: usize, n: usize) -> bool
    ensures { result ≡ both (ltb a m) (ltb b n) }
{
    a < m && b < n
}

// 8: the name of a binding, and the number in its slot.
fn binding_in(file: &IndexedFile, b: usize) -> bool
    requires { b < length (tables_in file.now).bindings }
    ensures { let T = tables_in file.now in
        result ≡ binding_in T (binding_at T b) }
{
    let types = file.count_of(Section::Types);
    let v = file.binding_at(b);
    if v.name >= file.count_of(Section::Names) {
        return false;
    }
    let slot = v.slot;
    match slot {
        SlotView::Row(_, p) => match p {
            None => true,
            Some(q) => usize::from(q.0) < file.count_of(Section::Predicates),
        },
        SlotView::Key(_, t) | SlotView::Value(_, t) => t < types,
        SlotView::Derived(_) => true,
        SlotView::Field(_, _, t) => t < types,
        SlotView::Const(n) => n < file.count_of(Section::Nodes),
    }
}

// 8: the node and name of a hoisted entry.
fn hoisted_in(file: &IndexedFile, k: usize) -> bool
    requires { k < length (tables_in file.now).hoisted }
    ensures { let T = tables_in file.now in
        result ≡ hoisted_in T (hoisted_at T k) }
{
    let h = file.hoisted_at(k);
    both_below(
        h.node,
        file.count_of(Section::Nodes),
        h.name,
        file.count_of(Section::Names),
    )
}

// 8: the name and node of a constraint.
fn constraint_in(file: &IndexedFile, k: usize) -> bool
    requires { k < length (tables_in file.now).constraints }
    ensures { let T = tables_in file.now in
        result ≡ constraint_in T (constraint_at T k) }
{
    let c = file.constraint_at(k);
    both_below(
        c.name,
        file.count_of(Section::Names),
        c.node,
        file.count_of(Section::Nodes),
    )
}

// 8: the two nodes of a comparison.
fn comparison_in(file: &IndexedFile, k: usize) -> bool
    requires { k < length (tables_in file.now).comparisons }
    ensures { let T = tables_in file.now in
        result ≡ comparison_in T (comparison_at T k) }
{
    let c = file.comparison_at(k);
    both_below(
        c.left,
        file.count_of(Section::Nodes),
        c.right,
        file.count_of(Section::Nodes),
    )
}

// 8: the predicate and node of a level.
fn level_in(file: &IndexedFile, k: usize) -> bool
    requires { k < length (tables_in file.now).levels }
    ensures { let T = tables_in file.now in
        result ≡ level_in T (level_entry_at T k) }
{
    let l = file.level_at(k);
    let p = l.predicate;
    both_below(
        usize::from(p.0),
        file.count_of(Section::Predicates),
        l.node,
        file.count_of(Section::Nodes),
    )
}

// 8: whether every number is below its section's count. Names and fetched entries name no number that is looked at.
pub fn numbers_in(file: &IndexedFile) -> bool
    ensures { result ≡ numbers_in (tables_in file.now) }
{
    (0..file.count_of(Section::Types)).all(|t| type_in(file, t))
        && (0..file.count_of(Section::Predicates)).all(|p| predicate_in(file, p))
        && (0..file.count_of(Section::Nodes)).all(|n| node_in(file, n))
        && (0..file.count_of(Section::Bindings)).all(|b| binding_in(file, b))
        && (0..file.count_of(Section::Hoisted)).all(|k| hoisted_in(file, k))
        && (0..file.count_of(Section::Constraints)).all(|k| constraint_in(file, k))
        && (0..file.count_of(Section::Comparisons)).all(|k| comparison_in(file, k))
        && (0..file.count_of(Section::Levels)).all(|k| level_in(file, k))
}

// 9: the children of type t.
fn type_lower(file: &IndexedFile, t: usize) -> bool
    requires { t < length (tables_in file.now).types }
    ensures { result ≡ all (λ c. ltb c t) (child_types (type_at (tables_in file.now) t)) }
{
    match file.type_at(t) {
        TypeView::Record(n, at) => words_below(file.bytes, 4, n, at + 2, t),
        TypeView::Union(n, at) => words_below(file.bytes, 8, n, at + 6, t),
        _ => true,
    }
}

// 9: the children of node n.
fn node_lower(file: &IndexedFile, n: usize) -> bool
    requires { n < length (tables_in file.now).nodes }
    ensures { result ≡ all (λ c. ltb c n) (child_nodes (node_at (tables_in file.now) n)) }
{
    match file.node_at(n) {
        NodeView::Record(m, at) => words_below(file.bytes, 4, m, at + 2, n),
        NodeView::Access(_, c) | NodeView::Select(_, c) => c < n,
        NodeView::Value(c) => c < n,
        NodeView::Fact(_, c) => c < n,
        _ => true,
    }
}

// 9: whether every child is lower than its parent. Only types and nodes have children.
pub fn children_lower(file: &IndexedFile) -> bool
    ensures { result ≡ children_lower (tables_in file.now) }
{
    (0..file.count_of(Section::Types)).all(|t| type_lower(file, t))
        && (0..file.count_of(Section::Nodes)).all(|n| node_lower(file, n))
}

// The number at p: four bytes if it is long, as a disc is, else two, as a name is. `long` is a flag and no closure: names and discs alone
// are read so, and `Words` says for both what lies within.
fn number_at(file: &[u8], long: bool, p: usize) -> u32
    requires { p + 4 ≤ length file.now }
    ensures { result ≡ number_at file.now long p }
{
    if long {
        long_at(file, p)
    } else {
        word_at(file, p) as u32
    }
}

// Whether x is among n numbers.
fn is_among(file: &[u8], long: bool, w: usize, n: usize, p: usize, x: u32) -> bool
    requires { Words file.now 4 w n p }
    ensures { result ≡ among x (run (number_at file.now long) w n p) }
{
    for k in 0..n {
        if number_at(file, long, p + w * k) == x {
            return true;
        }
    }
    false
}

// Whether n numbers rise, the first of them past x.
fn is_rising(file: &[u8], long: bool, w: usize, n: usize, p: usize, x: u32) -> bool
    requires { Words file.now 4 w n p }
    ensures { result ≡ rising x (run (number_at file.now long) w n p) }
{
    let mut last = x;
    for k in 0..n {
        let y = number_at(file, long, p + w * k);
        if y <= last {
            return false;
        }
        last = y;
    }
    true
}

// Numbers that rise differ; others are compared each with each.
fn all_distinct(file: &[u8], long: bool, w: usize, n: usize, p: usize) -> bool
    requires { Words file.now 4 w n p }
    ensures { result ≡ distinct (run (number_at file.now long) w n p) }
{
    if n == 0 {
        return true;
    }
    if is_rising(file, long, w, n - 1, p + w, number_at(file, long, p)) {
        return true;
    }
    for k in 0..n {
        let q = p + w * k;
        if is_among(file, long, w, n - k - 1, q + w, number_at(file, long, q)) {
            return false;
        }
    }
    true
}

// Whether n names differ: each is marked where it is first met. A number past the marks belongs to no name; then each is compared with
// each.
fn names_distinct(file: &[u8], w: usize, n: usize, p: usize) -> bool
    requires { Words file.now 4 w n p }
    ensures { result ≡ distinct (run (word file.now) w n p) }
{
    // No heap: on the stack.
    let mut marks = [0u8; NAME_LIMIT];
    for k in 0..n {
        let x = word_at(file, p + w * k);
        if x >= NAME_LIMIT {
            return all_distinct(file, false, w, n, p);
        }
        if marks[x] != 0 {
            return false;
        }
        marks[x] = 1;
    }
    true
}

// 10: the names of type t, and its discs if it is a Union.
fn type_distinct(file: &IndexedFile, t: usize) -> bool
    requires { t < length (tables_in file.now).types }
    ensures { result ≡ type_distinct (type_at (tables_in file.now) t) }
{
    match file.type_at(t) {
        TypeView::Record(n, at) => names_distinct(file.bytes, 4, n, at),
        TypeView::Union(n, at) => {
            names_distinct(file.bytes, 8, n, at) && all_distinct(file.bytes, true, 8, n, at + 2)
        }
        _ => true,
    }
}

// 10: whether no type repeats a name, and no Union a disc.
pub fn types_distinct(file: &IndexedFile) -> bool
    ensures { result ≡ types_distinct (tables_in file.now) }
{
    (0..file.count_of(Section::Types)).all(|t| type_distinct(file, t))
}
