// A stored list of answers: which of its lines are compared, and how many differ.
#![tactic(auto)]

ghost use Rattle.std.specs.Prelude.{◌≡◌, ◌+◌, ◌≤◌, ◌<◌, true, length, replicate, Bool, List, ℕ};
ghost use Rattle.tally.specs.Bytes.{index_of, slice};
ghost use Rattle.tally.specs.Tallies as Tallies;
ghost use Rattle.tally.specs.Tallies.{count_limit, counted, tallied, split, none};
ghost use Rattle.tally.specs.Tests.{Computes};

use std::fmt;

// Room for a whole list.
const LIST_ROOM: usize = 524288;

// How many answers were compared, and how many of them differ.
#[derive(Clone, Copy)]
pub struct Tally {
    pub compared: usize,
    pub different: usize,
}

impl fmt::Display for Tally {
    ghost use Rattle.std.specs.Prelude.{Some};
    ghost use Rattle.tally.specs.Tallies.{words};

    ghost output = { λ t. Some (words t) };

    fn fmt<W: fmt::Write>(&self, f: &mut fmt::Formatter<W>) -> fmt::Result {
        let compared = self.compared;
        let different = self.different;
        write!(f, "{compared} compared, {different} different")
    }
}

// Zeroes for a whole list. Apart, so that no proof of a caller looks into half a million of them.
pub fn list_room() -> [u8; LIST_ROOM]
    ensures { result ≡ replicate 524288 0 }
{
    [0; LIST_ROOM]
}

// Whether a line is none to compare: empty, or a comment.
pub fn skipped(line: &[u8]) -> bool
    ensures { result ≡ Tallies.skipped line.now }
{
    line.is_empty() || line[0] == b'#'
}

impl Tally {
    // The tally after one answer more, which agrees or not.
    pub fn with(self, agrees: bool) -> Tally
        requires { (self.compared < count_limit) × (self.different < count_limit) }
        ensures { result ≡ Tallies.added agrees self }
    {
        // Two literals and no sum over `agrees`: the rule `added` has the two cases apart, and so has the code.
        let compared = self.compared + 1;
        if agrees {
            return Tally {
                compared,
                different: self.different,
            };
        }
        Tally {
            compared,
            different: self.different + 1,
        }
    }
}

// A line without the line feed at its end, which a text's last line need not have.
fn content(line: &[u8]) -> &[u8]
    ensures { result.now ≡ Tallies.content line.now }
{
    let Some((end, front)) = line.split_last() else {
        return line;
    };
    if *end == b'\n' { front } else { line }
}

// The tally after one line more, with its end or without, by a test of whether a line agrees.
fn count<F: Fn(&[u8]) -> bool>(line: &[u8], t: Tally, agrees: &F) -> Tally
    requires callable { F.IsAlwaysCallable agrees.now }
    requires room { (t.compared < count_limit) × (t.different < count_limit) }
    ensures counts { (g : List ℕ → Bool) → Computes F.Fn agrees.now g → result ≡ counted g (Tallies.content line.now) t }
    ensures grows { (result.compared ≤ t.compared + 1) × (result.different ≤ t.different + 1) }
{
    let line = content(line);
    if skipped(line) {
        return t;
    }
    t.with(agrees(line))
}

// The tally of all lines of a text, by a test of whether a line agrees.
pub fn tally_of<F: Fn(&[u8]) -> bool>(text: &[u8], agrees: F) -> Tally
    requires { F.IsAlwaysCallable agrees }
    ensures { (g : List ℕ → Bool) → Computes F.Fn agrees g →
        result ≡ tallied g (split text.now) none }
{
    let none = Tally {
        compared: 0,
        different: 0,
    };
    text.split_inclusive(|b| *b == b'\n')
        .fold(none, |t, line| count(line, t, &agrees))
}

// Where a byte first stands between two places, or the second place.
pub fn find(text: &[u8], from: usize, to: usize, b: u8) -> usize
    requires from_in_order { from ≤ to }
    requires to_in_text { to ≤ length text.now }
    ensures finds { result ≡ from + index_of b (slice from to text.now) }
    ensures bounded { result ≤ to }
{
    let part = &text[from..to];
    from + part.iter().position(|c| *c == b).unwrap_or(part.len())
}

// Whether two texts are the same: std's `==`, by clauses that say each direction apart, as the callers' proofs take them.
pub fn same(a: &[u8], b: &[u8]) -> bool
    ensures tells { result ≡ true → a.now ≡ b.now }
    ensures sees { a.now ≡ b.now → result ≡ true }
{
    a == b
}
