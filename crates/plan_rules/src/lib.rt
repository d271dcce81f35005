// The rules of 18, which every level of a plan keeps (request [1]). They are checked last: the plan was read whole before.
#![tactic(auto)]

ghost use Rattle.std.specs.Prelude.{◌≡◌, List, ℕ, ◌≤◌, ◌<◌, Option};
ghost use Rattle.rules.specs.Base.{all};
ghost use Rattle.rules.specs.Read.{many};
ghost use Rattle.rules.specs.Placement.{Part, Guide, Range, SeekKey};
ghost use Rattle.rules.specs.Demand3.{number, seek_range, seek_edges};
ghost use Rattle.rules.specs.Reader as Reader;
ghost use Rattle.rules.specs.Reader.{closers_among_parts, narrowings_sum, edges_folded, seek_keeps, level_rules};
ghost use Rattle.file.specs.Steps.{word_limit};
ghost use Rattle.views.specs.Views.{path_at};
ghost use Rattle.plan_form.specs.Places.{plan_of, Opened, Found};
ghost use Rattle.plan_items.specs.Items.{items_at, key_of, edge_of, guide_of, seek_of, level_of, GuideInside, LevelInside};
ghost use Rattle.plan_rules.specs.Parts.{is_bytes};

use file::word_at;
use plan_items::{EdgeView, GuideView, LevelView, PartView, SeekView, level_at, part_at, path_at};

// An edge by number: 0 or 1.
fn edge_number(edge: Option<EdgeView>) -> usize
    ensures is { (f : List ℕ) → result ≡ number (edge_of f edge) }
    ensures most { result ≤ 1 }
{
    edge.is_some() as usize
}

// A guide by number: 0 or 1.
fn guide_number(guide: Option<GuideView>) -> usize
    ensures is { (f : List ℕ) → result ≡ number (guide_of f guide) }
    ensures most { result ≤ 1 }
{
    guide.is_some() as usize
}

// A seek's range by number: 0 or 1.
fn range_number(seek: SeekView) -> usize
    ensures is { (f : List ℕ) (n : ℕ) → result ≡ number (seek_range (seek_of f n seek)) }
    ensures most { result ≤ 1 }
{
    matches!(seek, SeekView::PrefixRange(_, _, _, _)) as usize
}

// A seek's edges by number: 0 to 2.
fn edges_number(seek: SeekView) -> usize
    ensures { (f : List ℕ) (n : ℕ) → result ≡ seek_edges (seek_of f n seek) }
{
    match seek {
        SeekView::Bounded(_, lo, hi) => edge_number(lo) + edge_number(hi),
        _ => 0,
    }
}

// Closers are at most the parts.
fn closers_among_parts(level: LevelView) -> bool
    ensures { (f : List ℕ) → result ≡ closers_among_parts (level_of f level) }
{
    level.closers <= level.parts
}

// Every narrowing is a part, a residual, the range or the guide, and only closers are parts besides.
fn narrowings_sum(level: LevelView) -> bool
    requires closers_le_parts { level.closers ≤ level.parts }
    requires parts_lt_word_limit { (level.parts < word_limit) × (level.residuals.count < word_limit) }
    ensures { (f : List ℕ) → LevelInside f level → result ≡ narrowings_sum (level_of f level) }
{
    let placed = level.parts - level.closers + level.residuals.count;
    level.narrowings == placed + range_number(level.seek) + guide_number(level.guide)
}

// Each edge is of one folded comparison.
fn edges_folded(level: LevelView) -> bool
    ensures { (f : List ℕ) → LevelInside f level → result ≡ edges_folded (level_of f level) }
{
    edges_number(level.seek) == level.folded.count
}

// Whether a part is bytes.
fn is_bytes(part: PartView) -> bool
    ensures { (f : List ℕ) → result ≡ is_bytes (key_of f part) }
{
    matches!(part, PartView::Bytes(_))
}

// Composite is used only where some part isn't bytes: the n parts from p on.
fn composite_keeps(plan: &[u8], n: usize, p: usize) -> bool
    requires { Found plan.now (many n Reader.part) p }
    ensures { (guide : Option Guide) →
        let parts = items_at plan.now Reader.part n p in
        result ≡ seek_keeps (SeekKey.Composite parts) guide }
{
    // A place moves on from part to part, so no range or chain counts it.
    let mut q = p;
    for _ in 0..n {
        let item = part_at(plan, q);
        if !is_bytes(item.part) {
            return true;
        }
        q = item.end;
    }
    false
}

// A guide beside a range has the range's path, which stands at p.
fn range_keeps(plan: &[u8], p: usize, guide: Option<GuideView>) -> bool
    requires found { Found plan.now Reader.path p }
    requires guide_inside { GuideInside plan.now guide }
    ensures { ((parts : List Part) (prefix : List ℕ) (node : ℕ) →
        let bytes = plan.now in
        let range : Range = record { path = path_at bytes p; prefix = prefix; node = node } in
        result ≡ seek_keeps (SeekKey.PrefixRange parts range) (guide_of bytes guide)
        ) }
{
    match guide {
        None => true,
        Some(guide) => path_at(plan, guide.path).same(path_at(plan, p)),
    }
}

// Bounded has an edge, and an edge excludes a guide.
#[tactic(auto, using(crate::proofs::Rules::bounded_is))]
fn bounded_keeps(lo: Option<EdgeView>, hi: Option<EdgeView>, guide: Option<GuideView>) -> bool
    ensures { (f : List ℕ) (parts : List Part) →
        result ≡ seek_keeps (SeekKey.Bounded parts (edge_of f lo) (edge_of f hi)) (guide_of f guide) }
{
    (lo.is_some() || hi.is_some()) && guide.is_none()
}

// What a seek of each kind asks besides.
fn seek_keeps(plan: &[u8], level: LevelView) -> bool
    requires { LevelInside plan.now level }
    ensures { let bytes = plan.now in
        result ≡ seek_keeps (seek_of bytes level.parts level.seek) (guide_of bytes level.guide) }
{
    match level.seek {
        SeekView::Prefix(_, _) => true,
        SeekView::Composite(parts) => composite_keeps(plan, level.parts, parts),
        SeekView::PrefixRange(_, _, path, _) => range_keeps(plan, path, level.guide),
        SeekView::Bounded(_, lo, hi) => bounded_keeps(lo, hi, level.guide),
    }
}

// Whether a level of the plan keeps the rules.
pub fn level_keeps(plan: &[u8], level: LevelView) -> bool
    requires { LevelInside plan.now level }
    ensures { result ≡ level_rules (level_of plan.now level) }
{
    closers_among_parts(level)
        && narrowings_sum(level)
        && edges_folded(level)
        && seek_keeps(plan, level)
}

// Whether every level of the plan keeps the rules.
pub fn levels_keep(plan: &[u8]) -> bool
    requires { Opened plan.now }
    ensures { result ≡ all level_rules (plan_of plan.now).levels }
{
    // A place moves on from level to level, so no range or chain counts it.
    let mut p = 2;
    for _ in 0..word_at(plan, 0) {
        let level = level_at(plan, p);
        if !level_keeps(plan, level) {
            return false;
        }
        p = level.end;
    }
    true
}
