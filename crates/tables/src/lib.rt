// What stands in the tables under a number or a name. A run's count and place stay two numbers, here and above: who is given both counts
// up to the one and reads from the other.
#![tactic(auto)]

ghost use Rattle.std.specs.Prelude.{◌≡◌, ◌+◌, ◌*◌, ◌≤◌, ◌<◌, length, get_or};
ghost use Rattle.rules.specs.Limits.{node_limit, type_limit};
ghost use Rattle.rules.specs.File.{type_at, node_at, var_name, record_ty, union_ty, is_constant};
ghost use Rattle.rules.specs.Constant as Constant;
ghost use Rattle.rules.specs.Constant.{field_pattern, const_bound, stands_for};
ghost use Rattle.file.specs.Sections as Sections;
ghost use Rattle.file.specs.Tables.{tables_of, last_binding};
ghost use Rattle.views.specs.Files.{tables_in};
ghost use Rattle.views.specs.Views.{run, start_at, type_view, field_at, alternative_at, pattern_at};
ghost use Rattle.accepted_file.specs.Tables.{accepted_tables};
ghost use Rattle.accepted_file.specs.Fates.{digit, recalled};
ghost use Rattle.tables.specs.Tables.{alternative_option, fields_in, alternatives_in, bound_in, SeenRun, SeenSlot};
ghost use Rattle.tables.specs.Recalled.{fate_digit, fate_option, recalled_any, quiet_in};

use accepted_file::AcceptedFile;
use file::{CONSTANTS, LAST_BINDINGS, Section};
use views::{
    Alternative, IndexedFile, NodeView, SlotView, TypeView, alternative_at, field_pattern_at,
};

// Where an index that remembers has the rows' numbers of the nodes, and the rows, of ROW_WORDS words each.
pub const ROWS: usize = 7754;

pub const FATES: usize = 9802;

pub const ROW_WORDS: usize = 64;

// The four fates of a constant that is brought to a type: a literal of the wrong kind is met; it is opened, and gives something, or
// nothing but a skip; it has bytes.
#[derive(Clone, Copy, PartialEq, Eq)]
pub enum Fate {
    Met,
    Heard,
    Quiet,
    Bytes,
}

impl Fate {
    // The digit of a row that stands for it.
    pub fn digit(self) -> usize
        ensures { result ≡ fate_digit self }
    {
        self as usize
    }
}

// The fate that a digit stands for; no TryFrom, as for a comparison's op (views).
fn fate_of(digit: usize) -> Fate
    requires { digit < 4 }
    ensures { fate_digit result ≡ digit }
{
    match digit {
        0 => Fate::Met,
        1 => Fate::Heard,
        2 => Fate::Quiet,
        _ => Fate::Bytes,
    }
}

// Whether node n is constant: the checks left that in the index.
pub fn is_constant(file: &AcceptedFile, n: usize) -> bool
    requires { n < length (accepted_tables file.now).nodes }
    ensures { result ≡ is_constant (accepted_tables file.now) n }
{
    usize::from(file.tables.index[CONSTANTS + n]) != 0
}

// The name of a node that is a Var.
pub fn var_name(file: &IndexedFile, n: usize) -> Option<usize>
    requires { n < length (tables_in file.now).nodes }
    ensures { result ≡ var_name (node_at (tables_in file.now) n) }
{
    if let NodeView::Var(x) = file.node_at(n) {
        Some(x)
    } else {
        None
    }
}

// The fields of a type that is a Record. This, `union_ty` and field_cases' `pairs_of` ask each for a case of its own.
pub fn record_ty(file: &IndexedFile, t: usize) -> Option<(usize, usize)>
    requires { t < length (tables_in file.now).types }
    ensures shows { let f = file.now.bytes.now in
        SeenRun f (field_at f) 4 (record_ty (type_at (tables_of f) t)) result }
    ensures view { result ≡ fields_in (type_view file.now.bytes.now (start_at file.now.index.now Sections.types t)) }
{
    if let TypeView::Record(n, at) = file.type_at(t) {
        Some((n, at))
    } else {
        None
    }
}

// The alternatives of a type that is a Union.
pub fn union_ty(file: &IndexedFile, t: usize) -> Option<(usize, usize)>
    requires { t < length (tables_in file.now).types }
    ensures shows { let f = file.now.bytes.now in
        SeenRun f (alternative_at f) 8 (union_ty (type_at (tables_of f) t)) result }
    ensures view { result ≡ alternatives_in (type_view file.now.bytes.now (start_at file.now.index.now Sections.types t)) }
{
    if let TypeView::Union(n, at) = file.type_at(t) {
        Some((n, at))
    } else {
        None
    }
}

// The node that a Record of n pairs gives for a name: that of the first pair of the name.
pub fn field_pattern(file: &[u8], at: usize, n: usize, name: usize) -> Option<usize>
    requires { at + 4 * n ≤ length file.now }
    ensures { result ≡ field_pattern (run (pattern_at file.now) 4 n at) name }
{
    for k in 0..n {
        let p = field_pattern_at(file, at, k);
        if p.name == name {
            return Some(p.node);
        }
    }
    None
}

// The alternative of that name among the n of a Union type.
pub fn alternative_of(file: &[u8], at: usize, n: usize, name: usize) -> Option<Alternative>
    requires { at + 8 * n ≤ length file.now }
    ensures { alternative_option result ≡ Constant.alternative_of (run (alternative_at file.now) 8 n at) name }
{
    (0..n).find_map(|k| {
        let a = alternative_at(file, at, k);
        if a.name == name { Some(a) } else { None }
    })
}

// The slot of a name's last entry among the file's own bindings: its number stands in the index.
pub fn lookup(file: &AcceptedFile, name: usize) -> Option<SlotView>
    ensures shows { SeenSlot file.now.tables.bytes.now (Constant.lookup (accepted_tables file.now).bindings name) result }
    ensures view { let f = file.now.tables.bytes.now in
        result ≡ bound_in f file.now.tables.index.now (last_binding (tables_of f) name) }
{
    if name >= file.tables.count_of(Section::Names) {
        return None;
    }
    let k = usize::from(file.tables.index[LAST_BINDINGS + name]);
    if k == 0 {
        return None;
    }
    let b = file.tables.binding_at(k - 1);
    let s = b.slot;
    Some(s)
}

// The Const that a name is bound to.
pub fn const_of(file: &AcceptedFile, name: usize) -> Option<usize>
    ensures { result ≡ const_bound (accepted_tables file.now).bindings name }
{
    let s = lookup(file, name)?;
    if let SlotView::Const(m) = s {
        Some(m)
    } else {
        None
    }
}

// The node that a node stands for: a Var bound to Const stands for its node, any other node for itself.
pub fn folded(file: &AcceptedFile, node: usize) -> usize
    requires { node < length (accepted_tables file.now).nodes }
    ensures { result ≡ stands_for (accepted_tables file.now) node }
{
    let Some(x) = var_name(&file.tables, node) else {
        return node;
    };
    if let Some(m) = const_of(file, x) {
        m
    } else {
        node
    }
}

// The fate at place j of a word: two bits each, the first the lowest.
pub fn digit(word: usize, j: usize) -> usize
    ensures is { result ≡ digit j word }
    ensures small { result < 4 }
{
    let mut w = word;
    for _ in 0..j {
        w /= 4;
    }
    w % 4
}

// A word of the index, 0 past its end, as a byte in `records::byte_or_zero`.
fn word_or_zero(index: &[u16], at: usize) -> usize
    ensures value { result ≡ get_or index.now at 0 }
    ensures small { result < 65536 }
{
    index.get(at).map_or(0, |x| usize::from(*x))
}

// What the index remembers of node n at type t.
pub fn recall(index: &[u16], n: usize, t: usize) -> Option<Fate>
    requires { (n ≤ node_limit) × (t ≤ type_limit) }
    ensures { fate_option result ≡ recalled index.now n t }
{
    let row = word_or_zero(index, ROWS + n);
    if row == 0 {
        return None;
    }
    let at = FATES + ROW_WORDS * (row - 1) + t / 8;
    let word = word_or_zero(index, at);
    Some(fate_of(digit(word, t % 8)))
}

// The same of any number: what is no node's is not remembered.
pub fn recall_any(file: &IndexedFile, n: usize, t: usize) -> Option<Fate>
    requires { t < length (tables_in file.now).types }
    ensures { fate_option result ≡ recalled_any (tables_in file.now) file.now.index.now n t }
{
    if n < file.count_of(Section::Nodes) {
        recall(file.index, n, t)
    } else {
        None
    }
}

// Whether the index remembers of a constant that it gives nothing but a skip at a type.
pub fn is_quiet(file: &AcceptedFile, n: usize, t: usize) -> bool
    requires { t < length (accepted_tables file.now).types }
    ensures { result ≡ quiet_in (accepted_tables file.now) file.now.tables.index.now n t }
{
    let Some(fate) = recall_any(&file.tables, n, t) else {
        return false;
    };
    fate == Fate::Quiet && is_constant(file, n)
}
