// The items of a plan by value, each found by its position (request [1]). A view carries numbers and positions; of a path or a list it
// has the position, and `end` is where the next item begins. The clause `reads` says which item it is, `view` what the whole result is.
// Which item of the plan stands at a position is told by number in proofs/Plans.antt, and for the five lists in plan_form's
// proofs/Places.antt.
#![tactic(auto)]

ghost use Rattle.std.specs.Prelude.{◌≡◌, ◌+◌, ◌*◌, ◌≤◌, ◌<◌, length, get_or, drop};
ghost use Rattle.rules.specs.Limits.{step_limit};
ghost use Rattle.rules.specs.Read.{u16, many};
ghost use Rattle.rules.specs.Read.Read.{got};
ghost use Rattle.rules.specs.Reader as Reader;
ghost use Rattle.file.specs.Steps.{word_limit, word, read_at};
ghost use Rattle.paths.specs.Paths.{path_of, path_for};
ghost use Rattle.views.specs.Views.{path_at, past_path, text_of, slot_viewed};
ghost use Rattle.plan_form.specs.Places.{plan_of, Opened, Found};
ghost use Rattle.plan_items.specs.Items.{items_at, list_of, key_of, part_of, edge_of, guide_of, narrowing_of, residual_of, seek_of, level_of};
ghost use Rattle.plan_items.specs.Items.{binding_of, select_of, diagnostic_of, plan_viewed, list_view, SlotInside, PlanInside};
ghost use Rattle.plan_items.specs.Items.{TextInside, PartInside, EdgeInside, GuideInside, NarrowingInside, ResidualInside};
ghost use Rattle.plan_items.specs.Items.{SeekInside, ListInside, LevelInside};
ghost use Rattle.plan_items.specs.Views.{text_view, key_item, part_item, edge_item, guide_item, narrowing_item, residual_view};
ghost use Rattle.plan_items.specs.Views.{parts_past, residuals_past, prefix_item, range_item, bounded_item, seek_item};
ghost use Rattle.plan_items.specs.Views.{residuals_view, words_view, level_view, field_item, slot_item, binding_item};
ghost use Rattle.plan_items.specs.Views.{select_view, diagnostic_view, plan_view};

use file::word_at;
use paths::{Address, FieldPath};
use plan_form::{Kind, items_end, level_list_end, list_end, words_end};
use views::{Anchor, SlotView, TextView, anchor_of, half_at, long_at, maybe_predicate, past_path};

// The view of an item, and where the item ends.
// For what stands inside another item, which takes the view alone. A list or an item of one is handed on whole, with an `end` of its own.
#[derive(Clone, Copy)]
pub struct Item<T> {
    pub view: T,
    pub end: usize,
}

// The key of a part of a seek. RegisterField has the position of its path.
#[derive(Clone, Copy)]
pub enum PartView {
    Bytes(TextView),
    RegisterField(Address, usize),
    RegisterFactId(Address),
}

// A part with the node that made it, and where it ends.
#[derive(Clone, Copy)]
pub struct PartItem {
    pub part: PartView,
    pub node: usize,
    pub end: usize,
}

// An edge of a Bounded seek, where there is one.
#[derive(Clone, Copy)]
pub enum EdgeView {
    Exclusive(TextView),
    Inclusive(TextView),
}

// A level's guide, where it has one: `path` is the position of its path, `term` a name.
#[derive(Clone, Copy)]
pub struct GuideView {
    pub path: usize,
    pub term: usize,
    pub distance: u8,
    pub anchor: Anchor,
    pub node: usize,
}

// What a residual asks of the bytes at its path; RegisterField has the position of the register's path, OwnField that of the same row's.
#[derive(Clone, Copy)]
pub enum NarrowingView {
    Bytes(TextView),
    Prefix(TextView),
    RegisterField(Address, usize),
    FactId(Address),
    Tag(u32),
    Fuzzy(usize, u8, Anchor),
    OwnField(usize),
}

// A residual: the position of its path, its op and its node.
#[derive(Clone, Copy)]
pub struct ResidualView {
    pub path: usize,
    pub op: NarrowingView,
    pub node: usize,
    pub end: usize,
}

// A level's seek. Prefix has its text and the position of the first part's node, the others the position of the first part; a
// PrefixRange has its text, the position of its path and its node.
#[derive(Clone, Copy)]
pub enum SeekView {
    Prefix(TextView, usize),
    Composite(usize),
    PrefixRange(usize, TextView, usize, usize),
    Bounded(usize, Option<EdgeView>, Option<EdgeView>),
}

// A list: how many items it has, and the position of the first.
#[derive(Clone, Copy)]
pub struct ListView {
    pub count: usize,
    pub at: usize,
    pub end: usize,
}

// A level: its three counts, its seek, its guide, and its two lists.
#[derive(Clone, Copy)]
pub struct LevelView {
    pub narrowings: usize,
    pub closers: usize,
    pub parts: usize,
    pub seek: SeekView,
    pub guide: Option<GuideView>,
    pub residuals: ListView,
    pub folded: ListView,
    pub end: usize,
}

// A new binding: a name and where its value lives.
#[derive(Clone, Copy)]
pub struct BindingItem {
    pub name: usize,
    pub slot: SlotView,
    pub end: usize,
}

// A select: `path` is the position of its path.
#[derive(Clone, Copy)]
pub struct SelectView {
    pub address: Address,
    pub path: usize,
    pub disc: u32,
    pub end: usize,
}

// A diagnostic: a node, and the number of its code.
#[derive(Clone, Copy)]
pub struct DiagnosticView {
    pub node: usize,
    pub code: u8,
    pub end: usize,
}

// The five lists of a plan.
#[derive(Clone, Copy)]
pub struct PlanView {
    pub levels: ListView,
    pub bindings: ListView,
    pub constrained: ListView,
    pub selects: ListView,
    pub diagnostics: ListView,
}

// The text at p: a count, then as many bytes.
pub fn text_at(plan: &[u8], p: usize) -> TextView
    requires { Found plan.now Reader.text p }
    ensures reads { let bytes = plan.now in
        read_at bytes Reader.text p ≡ got (text_of bytes result) (drop (result.at + result.len) bytes) }
    ensures inside { TextInside plan.now result }
    ensures view { result ≡ text_view plan.now p }
{
    TextView {
        at: p + 2,
        len: word_at(plan, p),
    }
}

// Where the path at p ends.
pub fn path_past(plan: &[u8], p: usize) -> usize
    requires { Found plan.now Reader.path p }
    ensures reads { let bytes = plan.now in
        read_at bytes Reader.path p ≡ got (path_at bytes p) (drop result bytes) }
    ensures view { result ≡ past_path plan.now p }
{
    past_path(plan, p)
}

// The path at p, by value.
pub fn path_at(plan: &[u8], p: usize) -> FieldPath
    requires { Found plan.now Reader.path p }
    ensures reads { let bytes = plan.now in
        read_at bytes Reader.path p ≡ got (path_of result) (drop (p + 3 + 4 * result.count) bytes) }
    ensures short { result.count ≤ step_limit }
    ensures view { result ≡ path_for (path_at plan.now p) }
{
    views::path_at(plan, p)
}

// The key of the part at p.
fn key_at(plan: &[u8], p: usize) -> Item<PartView>
    requires { Found plan.now Reader.part_key p }
    ensures reads { let bytes = plan.now in
        read_at bytes Reader.part_key p ≡ got (key_of bytes result.view) (drop result.end bytes) }
    ensures inside { PartInside plan.now result.view }
    ensures view { result ≡ key_item plan.now p }
{
    let q = p + 1;
    match plan[p] {
        0 => {
            let text = text_at(plan, q);
            Item {
                view: PartView::Bytes(text),
                end: text.at + text.len,
            }
        }
        1 => {
            let address = Address(half_at(plan, q));
            let path = q + 2;
            Item {
                view: PartView::RegisterField(address, path),
                end: path_past(plan, path),
            }
        }
        _ => Item {
            view: PartView::RegisterFactId(Address(half_at(plan, q))),
            end: q + 2,
        },
    }
}

// The part at p: its key, then its node.
pub fn part_at(plan: &[u8], p: usize) -> PartItem
    requires { Found plan.now Reader.part p }
    ensures reads { let bytes = plan.now in
        read_at bytes Reader.part p ≡ got (part_of bytes result) (drop result.end bytes) }
    ensures inside { PartInside plan.now result.part }
    ensures view { result ≡ part_item plan.now p }
{
    let k = key_at(plan, p);
    PartItem {
        part: k.view,
        node: word_at(plan, k.end),
        end: k.end + 2,
    }
}

// The edge at p.
pub fn edge_at(plan: &[u8], p: usize) -> Item<Option<EdgeView>>
    requires { Found plan.now Reader.edge p }
    ensures reads { let bytes = plan.now in
        read_at bytes Reader.edge p ≡ got (edge_of bytes result.view) (drop result.end bytes) }
    ensures inside { EdgeInside plan.now result.view }
    ensures view { result ≡ edge_item plan.now p }
{
    let q = p + 1;
    if plan[p] == 0 {
        return Item { view: None, end: q };
    }
    let text = text_at(plan, q);
    let edge = if plan[p] == 1 {
        EdgeView::Exclusive(text)
    } else {
        EdgeView::Inclusive(text)
    };
    Item {
        view: Some(edge),
        end: text.at + text.len,
    }
}

// The guide at p, or that there is none.
pub fn guide_at(plan: &[u8], p: usize) -> Item<Option<GuideView>>
    requires { Found plan.now Reader.guide p }
    ensures reads { let bytes = plan.now in
        read_at bytes Reader.guide p ≡ got (guide_of bytes result.view) (drop result.end bytes) }
    ensures inside { GuideInside plan.now result.view }
    ensures view { result ≡ guide_item plan.now p }
{
    let path = p + 1;
    if plan[p] == 0 {
        return Item {
            view: None,
            end: path,
        };
    }
    let q = path_past(plan, path);
    let guide = GuideView {
        path,
        term: word_at(plan, q),
        distance: plan[q + 2],
        anchor: anchor_of(plan[q + 3]),
        node: word_at(plan, q + 4),
    };
    Item {
        view: Some(guide),
        end: q + 6,
    }
}

// The op at p that is a text: 0 for bytes, 1 for a prefix.
fn text_op(plan: &[u8], p: usize) -> Item<NarrowingView>
    requires found { Found plan.now Reader.op p }
    requires p_bound { get_or plan.now p 0 < 2 }
    ensures reads { let bytes = plan.now in
        read_at bytes Reader.op p ≡ got (narrowing_of bytes result.view) (drop result.end bytes) }
    ensures inside { NarrowingInside plan.now result.view }
    ensures view { result ≡ narrowing_item plan.now p }
{
    let text = text_at(plan, p + 1);
    let view = if plan[p] == 0 {
        NarrowingView::Bytes(text)
    } else {
        NarrowingView::Prefix(text)
    };
    Item {
        view,
        end: text.at + text.len,
    }
}

// The op at p.
fn op_at(plan: &[u8], p: usize) -> Item<NarrowingView>
    requires { Found plan.now Reader.op p }
    ensures reads { let bytes = plan.now in
        read_at bytes Reader.op p ≡ got (narrowing_of bytes result.view) (drop result.end bytes) }
    ensures inside { NarrowingInside plan.now result.view }
    ensures view { result ≡ narrowing_item plan.now p }
{
    let q = p + 1;
    match plan[p] {
        0 | 1 => text_op(plan, p),
        2 => {
            let address = Address(half_at(plan, q));
            let path = q + 2;
            Item {
                view: NarrowingView::RegisterField(address, path),
                end: path_past(plan, path),
            }
        }
        3 => Item {
            view: NarrowingView::FactId(Address(half_at(plan, q))),
            end: q + 2,
        },
        4 => Item {
            view: NarrowingView::Tag(long_at(plan, q)),
            end: q + 4,
        },
        5 => Item {
            view: NarrowingView::Fuzzy(word_at(plan, q), plan[q + 2], anchor_of(plan[q + 3])),
            end: q + 4,
        },
        _ => Item {
            view: NarrowingView::OwnField(q),
            end: path_past(plan, q),
        },
    }
}

// The residual at p.
pub fn residual_at(plan: &[u8], p: usize) -> ResidualView
    requires { Found plan.now Reader.residual p }
    ensures reads { let bytes = plan.now in
        read_at bytes Reader.residual p ≡ got (residual_of bytes result) (drop result.end bytes) }
    ensures inside { ResidualInside plan.now result }
    ensures view { result ≡ residual_view plan.now p }
{
    let q = path_past(plan, p);
    let o = op_at(plan, q);
    ResidualView {
        path: p,
        op: o.view,
        node: word_at(plan, o.end),
        end: o.end + 2,
    }
}

// Where n parts from p on end.
fn parts_past(plan: &[u8], n: usize, p: usize) -> usize
    requires { (p ≤ length plan.now) × Found plan.now (many n Reader.part) p }
    ensures reads { let bytes = plan.now in
        read_at bytes (many n Reader.part) p ≡ got (items_at bytes Reader.part n p) (drop result bytes) }
    ensures view { result ≡ parts_past plan.now n p }
{
    items_end(plan, Kind::Part, n, p).unwrap_or(0)
}

// Where n residuals from p on end.
fn residuals_past(plan: &[u8], n: usize, p: usize) -> usize
    requires { (p ≤ length plan.now) × Found plan.now (many n Reader.residual) p }
    ensures reads { let bytes = plan.now in
        read_at bytes (many n Reader.residual) p ≡ got (items_at bytes Reader.residual n p) (drop result bytes) }
    ensures view { result ≡ residuals_past plan.now n p }
{
    // Not one function with `parts_past`: what is read there has another type, and so the clause `reads` is another.
    items_end(plan, Kind::Residual, n, p).unwrap_or(0)
}

// What a Prefix seek of n parts holds, from p on.
fn prefix_seek(plan: &[u8], n: usize, p: usize) -> Item<SeekView>
    requires { Found plan.now (Reader.prefix_seek n) p }
    ensures reads { let bytes = plan.now in
        read_at bytes (Reader.prefix_seek n) p ≡ got (seek_of bytes n result.view) (drop result.end bytes) }
    ensures inside { SeekInside plan.now n result.view }
    ensures view { result ≡ prefix_item plan.now n p }
{
    let text = text_at(plan, p);
    let nodes = text.at + text.len;
    Item {
        view: SeekView::Prefix(text, nodes),
        end: nodes + 2 * n,
    }
}

// What a PrefixRange seek of n parts holds, from p on.
fn range_seek(plan: &[u8], n: usize, p: usize) -> Item<SeekView>
    requires { (p ≤ length plan.now) × Found plan.now (Reader.range_seek n) p }
    ensures reads { let bytes = plan.now in
        read_at bytes (Reader.range_seek n) p ≡ got (seek_of bytes n result.view) (drop result.end bytes) }
    ensures inside { SeekInside plan.now n result.view }
    ensures view { result ≡ range_item plan.now n p }
{
    let q = parts_past(plan, n, p);
    let text = text_at(plan, q);
    let path = text.at + text.len;
    let o = path_past(plan, path);
    Item {
        view: SeekView::PrefixRange(p, text, path, word_at(plan, o)),
        end: o + 2,
    }
}

// What a Bounded seek of n parts holds, from p on.
fn bounded_seek(plan: &[u8], n: usize, p: usize) -> Item<SeekView>
    requires { (p ≤ length plan.now) × Found plan.now (Reader.bounded_seek n) p }
    ensures reads { let bytes = plan.now in
        read_at bytes (Reader.bounded_seek n) p ≡ got (seek_of bytes n result.view) (drop result.end bytes) }
    ensures inside { SeekInside plan.now n result.view }
    ensures view { result ≡ bounded_item plan.now n p }
{
    let q = parts_past(plan, n, p);
    let low = edge_at(plan, q);
    let high = edge_at(plan, low.end);
    Item {
        view: SeekView::Bounded(p, low.view, high.view),
        end: high.end,
    }
}

// The seek at p, of a level with n parts.
pub fn seek_at(plan: &[u8], n: usize, p: usize) -> Item<SeekView>
    requires { Found plan.now (Reader.seek n) p }
    ensures reads { let bytes = plan.now in
        read_at bytes (Reader.seek n) p ≡ got (seek_of bytes n result.view) (drop result.end bytes) }
    ensures inside { SeekInside plan.now n result.view }
    ensures view { result ≡ seek_item plan.now n p }
{
    let q = p + 1;
    match plan[p] {
        0 => prefix_seek(plan, n, q),
        1 => Item {
            view: SeekView::Composite(q),
            end: parts_past(plan, n, q),
        },
        2 => range_seek(plan, n, q),
        _ => bounded_seek(plan, n, q),
    }
}

// A level's residuals, counted at p.
fn residuals_at(plan: &[u8], p: usize) -> ListView
    requires { Found plan.now (Reader.counted Reader.residual) p }
    ensures reads { let bytes = plan.now in
        read_at bytes (Reader.counted Reader.residual) p ≡ got (list_of bytes Reader.residual result) (drop result.end bytes) }
    ensures inside { ListInside plan.now Reader.residual result }
    ensures view { result ≡ residuals_view plan.now p }
{
    let count = word_at(plan, p);
    let at = p + 2;
    ListView {
        count,
        at,
        end: residuals_past(plan, count, at),
    }
}

// Numbers counted at p: a level's folded comparisons, or the constrained names.
fn words_at(plan: &[u8], p: usize) -> ListView
    requires { Found plan.now (Reader.counted u16) p }
    ensures reads { let bytes = plan.now in
        read_at bytes (Reader.counted u16) p ≡ got (list_of bytes u16 result) (drop result.end bytes) }
    ensures inside { ListInside plan.now u16 result }
    ensures view { result ≡ words_view plan.now p }
{
    // Not through `list_at`, which is given the end: here the end comes from the count.
    let count = word_at(plan, p);
    let at = p + 2;
    ListView {
        count,
        at,
        end: at + 2 * count,
    }
}

// The level at p.
pub fn level_at(plan: &[u8], p: usize) -> LevelView
    requires { Found plan.now Reader.level p }
    ensures reads { let bytes = plan.now in
        read_at bytes Reader.level p ≡ got (level_of bytes result) (drop result.end bytes) }
    ensures inside { LevelInside plan.now result }
    ensures view { result ≡ level_view plan.now p }
{
    let narrowings = word_at(plan, p);
    let closers = word_at(plan, p + 2);
    let parts = word_at(plan, p + 4);
    let s = seek_at(plan, parts, p + 6);
    let g = guide_at(plan, s.end);
    let residuals = residuals_at(plan, g.end);
    let folded = words_at(plan, residuals.end);
    LevelView {
        narrowings,
        closers,
        parts,
        seek: s.view,
        guide: g.view,
        residuals,
        folded,
        end: folded.end,
    }
}

// The number at p: a folded comparison of a level, or a constrained name.
pub fn number_at(plan: &[u8], p: usize) -> usize
    requires { Found plan.now u16 p }
    ensures reads { let bytes = plan.now in
        read_at bytes u16 p ≡ got result (drop (p + 2) bytes) }
    ensures view { result ≡ word plan.now p }
{
    word_at(plan, p)
}

// The node of part k of a Prefix seek of n parts, whose nodes stand from p on.
pub fn node_at(plan: &[u8], n: usize, p: usize, k: usize) -> usize
    requires { Found plan.now (many n u16) p × (k < n) }
    ensures is { result ≡ get_or (items_at plan.now u16 n p) k 0 }
    ensures view { result ≡ word plan.now (p + 2 * k) }
{
    word_at(plan, p + 2 * k)
}

// What a Field slot holds, from p on: address, path, type.
fn field_slot(plan: &[u8], p: usize) -> Item<SlotView>
    requires { Found plan.now Reader.field_slot p }
    ensures reads { let bytes = plan.now in
        read_at bytes Reader.field_slot p ≡ got (slot_viewed bytes result.view) (drop result.end bytes) }
    ensures inside { SlotInside plan.now result.view }
    ensures view { result ≡ field_item plan.now p }
{
    let address = Address(half_at(plan, p));
    let path = p + 2;
    let q = path_past(plan, path);
    Item {
        view: SlotView::Field(address, path, word_at(plan, q)),
        end: q + 2,
    }
}

// The slot at p.
pub fn slot_at(plan: &[u8], p: usize) -> Item<SlotView>
    requires { Found plan.now Reader.slot p }
    ensures reads { let bytes = plan.now in
        read_at bytes Reader.slot p ≡ got (slot_viewed bytes result.view) (drop result.end bytes) }
    ensures inside { SlotInside plan.now result.view }
    ensures view { result ≡ slot_item plan.now p }
{
    let q = p + 1;
    match plan[p] {
        0 => Item {
            view: SlotView::Row(
                Address(half_at(plan, q)),
                maybe_predicate(half_at(plan, q + 2)),
            ),
            end: q + 4,
        },
        1 => Item {
            view: SlotView::Key(Address(half_at(plan, q)), word_at(plan, q + 2)),
            end: q + 4,
        },
        2 => Item {
            view: SlotView::Derived(Address(half_at(plan, q))),
            end: q + 2,
        },
        3 => field_slot(plan, q),
        4 => Item {
            view: SlotView::Value(Address(half_at(plan, q)), word_at(plan, q + 2)),
            end: q + 4,
        },
        _ => Item {
            view: SlotView::Const(word_at(plan, q)),
            end: q + 2,
        },
    }
}

// The new binding at p.
pub fn binding_at(plan: &[u8], p: usize) -> BindingItem
    requires { Found plan.now Reader.binding p }
    ensures reads { let bytes = plan.now in
        read_at bytes Reader.binding p ≡ got (binding_of bytes result) (drop result.end bytes) }
    ensures inside { SlotInside plan.now result.slot }
    ensures view { result ≡ binding_item plan.now p }
{
    let s = slot_at(plan, p + 2);
    BindingItem {
        name: word_at(plan, p),
        slot: s.view,
        end: s.end,
    }
}

// The select at p.
pub fn select_at(plan: &[u8], p: usize) -> SelectView
    requires { Found plan.now Reader.select p }
    ensures reads { let bytes = plan.now in
        read_at bytes Reader.select p ≡ got (select_of bytes result) (drop result.end bytes) }
    ensures inside { Found plan.now Reader.path result.path }
    ensures view { result ≡ select_view plan.now p }
{
    let address = Address(half_at(plan, p));
    let path = p + 2;
    let q = path_past(plan, path);
    SelectView {
        address,
        path,
        disc: long_at(plan, q),
        end: q + 4,
    }
}

// The diagnostic at p.
pub fn diagnostic_at(plan: &[u8], p: usize) -> DiagnosticView
    requires { Found plan.now Reader.diagnostic p }
    ensures reads { let bytes = plan.now in
        read_at bytes Reader.diagnostic p ≡ got (diagnostic_of result) (drop result.end bytes) }
    ensures view { result ≡ diagnostic_view plan.now p }
{
    DiagnosticView {
        node: word_at(plan, p),
        code: plan[p + 2],
        end: p + 3,
    }
}

// The list whose count stands at p and that ends at end.
fn list_at(plan: &[u8], p: usize, end: usize) -> ListView
    requires { p + 2 ≤ length plan.now }
    ensures is { result ≡ list_view plan.now p end }
    ensures few { result.count < word_limit }
{
    ListView {
        count: word_at(plan, p),
        at: p + 2,
        end,
    }
}

// The five lists of a plan: how many items each has, and where they stand.
pub fn open_plan(plan: &[u8]) -> PlanView
    requires { Opened plan.now }
    ensures reads { plan_of plan.now ≡ plan_viewed plan.now result }
    ensures inside { PlanInside plan.now result }
    ensures view { result ≡ plan_view plan.now }
{
    // A plan that has its form met no fault: each of these is where a list ends.
    let b = level_list_end(plan, 0).unwrap_or(0);
    let k = list_end(plan, Kind::Binding, b).unwrap_or(0);
    let s = words_end(plan, k).unwrap_or(0);
    let d = list_end(plan, Kind::Select, s).unwrap_or(0);
    let levels = list_at(plan, 0, b);
    let bindings = list_at(plan, b, k);
    let constrained = list_at(plan, k, s);
    let selects = list_at(plan, s, d);
    let diagnostics = list_at(plan, d, plan.len());
    PlanView {
        levels,
        bindings,
        constrained,
        selects,
        diagnostics,
    }
}
