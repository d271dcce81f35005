// A level from the page to the plan. A level's walk writes its parts to the page, each by itself, and its residuals, before it is known
// where they stand in the plan.
#![tactic(auto)]

ghost use Rattle.std.specs.Prelude.{◌≡◌, ◌<◌};
ghost use Rattle.state.specs.Levels as StateLevels;
ghost use Rattle.state.specs.Levels.{paged, join_parts, parts_from, from_page};
ghost use Rattle.seek.specs.Seek.{counts_of, target_of};

use plan_lists::copy_run;
use records::word_in;
use seek::{Counts, Target};

// Where the residuals begin, and how long the page is.
pub const PAGE_REST: usize = 2048;

pub const PAGE: usize = 4096;

// A level's walk writes to the page.
pub fn paging() -> Target
    ensures { target_of result ≡ StateLevels.paging }
{
    Target {
        joining: false,
        parts: 0,
        nodes: 0,
        rest: 2048,
    }
}

// Whether the page has room for the parts and for the residuals that a level counts.
pub fn is_paged(c: Counts) -> bool
    ensures { result ≡ paged (counts_of c) }
{
    let parts = c.joined as usize + c.framed as usize;
    let fits = parts <= PAGE_REST;
    fits && c.rest as usize <= PAGE - PAGE_REST
}

// The first n parts of the page, all of them bytes, joined in the plan: their texts from `text` on, their nodes from `node` on.
fn join_parts(page: &[u8], n: usize, plan: &mut [u8], text: usize, node: usize)
    requires { (n < 8589934592) × (text < 4294967296) × (node < 4294967296) }
    ensures { plan.new ≡ join_parts n page.now 0 text node plan.old }
{
    let mut p: usize = 0;
    let mut t = text;
    for i in 0..n {
        let size = word_in(page, p + 1);
        let to = p + 3 + size;
        copy_run(page, to, to + 2, plan, node + 2 * i);
        copy_run(page, p + 3, to, plan, t);
        p = to + 2;
        t += size;
    }
}

// The parts that a level counts, from the page to their place.
fn put_parts(page: &[u8], plan: &mut [u8], t: Target, c: Counts)
    ensures { plan.new ≡ parts_from (target_of t) (counts_of c) page.now plan.old }
{
    let parts = t.parts as usize;
    if t.joining {
        let n = c.closers as usize + c.others as usize;
        join_parts(page, n, plan, parts, t.nodes as usize);
        return;
    }
    copy_run(page, 0, c.joined as usize + c.framed as usize, plan, parts);
}

// A level's parts, then its residuals.
pub fn put_page(page: &[u8], plan: &mut [u8], t: Target, c: Counts)
    ensures { plan.new ≡ from_page (target_of t) (counts_of c) page.now plan.old }
{
    put_parts(page, plan, t, c);
    copy_run(
        page,
        PAGE_REST,
        PAGE_REST + c.rest as usize,
        plan,
        t.rest as usize,
    );
}
