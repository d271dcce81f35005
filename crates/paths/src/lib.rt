// Register numbers, predicate numbers and the path to a field, as the Rust source tells them apart.
#![tactic(auto)]

ghost use Rattle.std.specs.Prelude.{◌≡◌, ◌+◌, ◌≤◌, ◌<◌};
ghost use Rattle.rules.specs.Limits.{step_limit};
ghost use Rattle.rules.specs.File.{field_path, then, payload};
ghost use Rattle.rules.specs.Lookup.{same_path};
ghost use Rattle.paths.specs.Paths.{path_of, path_for, stepped, Holds};

#[derive(Clone, Copy, PartialEq, Eq)]
pub struct Address(pub u16);

#[derive(Clone, Copy, PartialEq, Eq)]
pub struct PredicateId(pub u16);

// The steps past `count` are of no meaning. No heap: they stand in place, as many as a path may have.
#[derive(Clone, Copy)]
pub struct FieldPath {
    pub steps: [u32; FieldPath::STEP_LIMIT],
    pub count: u16,
    pub field: u16,
}

impl FieldPath {
    // How many steps a path may have: the length of `steps`.
    pub const STEP_LIMIT: usize = 31;

    // The path to a field of a key: no steps yet.
    pub fn field(idx: u16) -> Self
        ensures holds { Holds result (field_path idx) }
        ensures whole { result ≡ path_for (field_path idx) }
    {
        FieldPath {
            steps: [0u32; FieldPath::STEP_LIMIT],
            count: 0,
            field: idx,
        }
    }

    // One step further, to a field of what the path leads to.
    pub fn then(self, idx: u32) -> Self
        requires { self.count < step_limit }
        ensures holds { Holds result (then (path_of self) idx) }
        ensures whole { result ≡ stepped self idx }
    {
        let mut p = self;
        let n = p.count;
        p.steps[n as usize] = idx;
        p.count = n + 1;
        p
    }

    // One step further, to the payload of a union's alternative.
    pub fn payload(self, disc: u32) -> Self
        requires { self.count < step_limit }
        ensures holds { Holds result (payload (path_of self) disc) }
        ensures whole { result ≡ stepped self disc }
    {
        self.then(disc)
    }

    // Whether two paths lead to the same place.
    pub fn same(self, other: FieldPath) -> bool
        requires { (self.count ≤ step_limit) × (other.count ≤ step_limit) }
        ensures { result ≡ same_path (path_of self) (path_of other) }
    {
        let a = &self.steps[..self.count as usize];
        let b = &other.steps[..other.count as usize];
        self.field == other.field && a == b
    }
}
