// The counts of a level, and whether they fit a plan.
ghost use Rattle.std.specs.Prelude.{◌≡◌, ℕ, ◌+◌, ◌*◌, ◌<◌};
ghost use Rattle.records.specs.Records.{reach};
ghost use Rattle.seek.specs.Seek.{Below, sums_of, summed, counted, no_counts, counts_fit, parts_size, part_sums, rest_sums, narrow_sums};

use crate::{Counts, Sums};

impl Counts {
    // Nothing counted yet.
    pub fn none() -> Self
        ensures { result ≡ no_counts }
    {
        Counts {
            narrowings: 0,
            closers: 0,
            others: 0,
            residuals: 0,
            joined: 0,
            framed: 0,
            rest: 0,
        }
    }

    // The counts, wide enough for one more.
    pub fn sums(self) -> Sums
        ensures { (result ≡ summed self) × Below 4294967296 result }
    {
        Sums {
            narrowings: self.narrowings as usize,
            closers: self.closers as usize,
            others: self.others as usize,
            residuals: self.residuals as usize,
            joined: self.joined as usize,
            framed: self.framed as usize,
            rest: self.rest as usize,
        }
    }
}

impl Sums {
    // How long the parts are: while all of them are bytes their texts are joined, and each has a node of two bytes.
    fn bytes(self, plain: bool) -> usize
        requires { Below reach self }
        ensures { (result ≡ parts_size plain self) × (result < 5 * reach) }
    {
        if plain {
            self.joined + 2 * (self.closers + self.others)
        } else {
            self.joined + self.framed
        }
    }

    // Whether a level with these counts fits a plan.
    pub fn fits(self, plain: bool) -> bool
        requires { Below reach self }
        ensures { result ≡ counts_fit plain (sums_of self) }
    {
        if self.bytes(plain) + self.rest > 16384 {
            return false;
        }
        if self.joined + self.framed > 65536 {
            return false;
        }
        if self.narrowings > 65535 {
            return false;
        }
        if self.closers + self.others > 65535 {
            return false;
        }
        self.residuals <= 65535
    }

    // One part more: a closer, or else a narrowing.
    pub fn with_part(self, closer: bool, text: usize, frame: usize) -> Sums
        requires { Below 4294967296 self × (text < 1099511627776) × (frame < 65536) }
        ensures { (result ≡ part_sums closer text frame self) × Below reach result }
    {
        let mut s = self;
        s.joined = s.joined + text;
        s.framed = s.framed + frame;
        if closer {
            s.closers = s.closers + 1;
            return s;
        }
        s.narrowings = s.narrowings + 1;
        s.others = s.others + 1;
        s
    }

    // One narrowing more that is neither part nor residual.
    pub fn with_narrowing(self) -> Sums
        requires { Below 4294967296 self }
        ensures { (result ≡ narrow_sums self) × Below reach result }
    {
        let mut s = self;
        s.narrowings = s.narrowings + 1;
        s
    }

    // One residual more.
    pub fn with_residual(self, size: usize) -> Sums
        requires { Below 4294967296 self × (size < 1099511627776) }
        ensures { (result ≡ rest_sums size self) × Below reach result }
    {
        let mut s = self;
        s.narrowings = s.narrowings + 1;
        s.residuals = s.residuals + 1;
        s.rest = s.rest + size;
        s
    }

    // The counts of a level that fits.
    pub fn counts(self) -> Counts
        requires { Below 65537 self }
        ensures { result ≡ counted self }
    {
        Counts {
            narrowings: self.narrowings as u32,
            closers: self.closers as u32,
            others: self.others as u32,
            residuals: self.residuals as u32,
            joined: self.joined as u32,
            framed: self.framed as u32,
            rest: self.rest as u32,
        }
    }
}
