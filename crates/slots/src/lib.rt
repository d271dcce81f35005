// A slot by value: its kind, with the path of a Field beside it.
#![tactic(auto)]

ghost use Rattle.std.specs.Prelude.{◌≡◌};
ghost use Rattle.slots.specs.Slots.{plain_slot, field_slot};

use paths::{Address, FieldPath, PredicateId};

#[derive(Clone, Copy)]
pub enum SlotKind {
    Row(Address, Option<PredicateId>),
    Key(Address, usize),
    Derived(Address),
    Field(Address, usize),
    Value(Address, usize),
    Const(usize),
}

// Of any other kind than Field the path has no meaning, and is that of `plain`.
#[derive(Clone, Copy)]
pub struct Slot {
    pub kind: SlotKind,
    pub path: FieldPath,
}

impl Slot {
    // A slot of any kind but Field.
    pub fn plain(kind: SlotKind) -> Self
        ensures { result ≡ plain_slot kind }
    {
        let path = FieldPath::field(0);
        Slot { kind, path }
    }

    // What stands at a path in the key of a row.
    pub fn field(address: Address, path: FieldPath, ty: usize) -> Self
        ensures { result ≡ field_slot address path ty }
    {
        let kind = SlotKind::Field(address, ty);
        Slot { kind, path }
    }
}
