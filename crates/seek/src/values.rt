// Constants placed in a level: their bytes go straight to the plan.
ghost use Rattle.std.specs.Prelude.{◌≡◌, true, List, ℕ, ◌≤◌, ◌<◌, length, Some};
ghost use Rattle.rules.specs.File.{name_at};
ghost use Rattle.rules.specs.Constant.{encode_prefix};
ghost use Rattle.rules.specs.Events.{Narrowing};
ghost use Rattle.rules.specs.Placement.{SeekKeyPart};
ghost use Rattle.state.specs.State.{Ends};
ghost use Rattle.state.specs.Ops as Ops;
ghost use Rattle.paths.specs.Paths.{path_of};
ghost use Rattle.views.specs.Files.{tables_in};
ghost use Rattle.records.specs.Records.{reach, written_at};
ghost use Rattle.accepted_file.specs.Tables.{accepted_tables};
ghost use Rattle.constant.specs.Sizes.{const_view};
ghost use Rattle.encode.specs.Written.{or_empty, bytes_of, RoomForBytes};
ghost use Rattle.seek.specs.Narrow.{IsConstant, const_of, narrowed_by};
ghost use Rattle.seek.specs.Seek.{counts_of, constant_bytes, state_of};

use crate::SeekBuilder;
use accepted_file::AcceptedFile;
use constant::{Const, prefix_len};
use encode::{put_constant, put_prefix};
use paths::FieldPath;
use records::{Place, path_size, put_head, put_path_at, put_text_at};
use views::IndexedFile;

// A constant's bytes at a place, if they are to be written.
fn put_constant_at(file: &AcceptedFile, plan: &mut [u8], place: Place, node: usize, ty: usize)
    requires node_in_bounds { node < length (accepted_tables file.now).nodes }
    requires ty_in_bounds { ty < length (accepted_tables file.now).types }
    requires room_for_bytes { place.write ≡ true → RoomForBytes (bytes_of (accepted_tables file.now) node ty) place.at }
    ensures { let T = accepted_tables file.now in
        plan.new ≡ written_at place (or_empty (bytes_of T node ty)) plan.old }
{
    if !place.write {
        return;
    }
    put_constant(file, plan, place.at, node, ty);
}

// A prefix's bytes at a place, if they are to be written.
fn put_prefix_at(file: &IndexedFile, plan: &mut [u8], place: Place, name: usize)
    requires { (name < length (tables_in file.now).names) × (place.at ≤ reach) }
    ensures { let T = tables_in file.now in
        plan.new ≡ written_at place (encode_prefix (name_at T name)) plan.old }
{
    if !place.write {
        return;
    }
    put_prefix(file, plan, place.at, name);
}

impl SeekBuilder {
    fn bytes_part(
        self,
        file: &AcceptedFile,
        value: usize,
        ty: usize,
        len: usize,
        node: usize,
        plan: &mut [u8],
    ) -> SeekBuilder
        requires value_in_bounds { value < length (accepted_tables file.now).nodes }
        requires ty_in_bounds { ty < length (accepted_tables file.now).types }
        requires ty_value { const_view (accepted_tables file.now) value ty ≡ Some (Const.Bytes value ty len) }
        ensures { (e : Ends) (w : List ℕ) →
            let T = accepted_tables file.now in
            let before = state_of T self e w plan.old in
            let after = state_of T result e w plan.new in
            after ≡ Ops.put_part node (SeekKeyPart.Bytes (constant_bytes T value ty)) (Ops.narrowed (counts_of self.counts)) before }
    {
        let p = self.part(false, true, len, 3, node, plan);
        let place = p.place;
        let at = put_head(plan, place, len);
        put_constant_at(file, plan, at, value, ty);
        p.level
    }

    fn bytes_residual(
        self,
        file: &AcceptedFile,
        path: FieldPath,
        value: usize,
        ty: usize,
        len: usize,
        node: usize,
        plan: &mut [u8],
    ) -> SeekBuilder
        requires value_in_bounds { value < length (accepted_tables file.now).nodes }
        requires ty_in_bounds { ty < length (accepted_tables file.now).types }
        requires ty_value { const_view (accepted_tables file.now) value ty ≡ Some (Const.Bytes value ty len) }
        ensures { (e : Ends) (w : List ℕ) →
            let T = accepted_tables file.now in
            let before = state_of T self e w plan.old in
            let after = state_of T result e w plan.new in
            after ≡ Ops.put_residual node (path_of path) (Narrowing.Bytes (constant_bytes T value ty)) before }
    {
        let p = self.residual(path_size(path) + 3 + len, node, plan);
        let place = p.place;
        let op = put_path_at(plan, place, path);
        let at = put_text_at(plan, op, 0, len);
        put_constant_at(file, plan, at, value, ty);
        p.level
    }

    // A constant of node `value` that is bytes, `len` of them or too many for a plan: a part while building, else a residual.
    pub fn bytes(
        self,
        file: &AcceptedFile,
        path: FieldPath,
        value: usize,
        ty: usize,
        len: usize,
        node: usize,
        plan: &mut [u8],
    ) -> SeekBuilder
        requires value_in_bounds { value < length (accepted_tables file.now).nodes }
        requires ty_in_bounds { ty < length (accepted_tables file.now).types }
        requires ty_value { const_view (accepted_tables file.now) value ty ≡ Some (Const.Bytes value ty len) }
        ensures { (e : Ends) (w : List ℕ) →
            let T = accepted_tables file.now in
            let before = state_of T self e w plan.old in
            let after = state_of T result e w plan.new in
            after ≡ Ops.narrow node (path_of path) (Narrowing.Bytes (constant_bytes T value ty)) before }
    {
        if self.over {
            return self;
        }
        if self.building {
            self.bytes_part(file, value, ty, len, node, plan)
        } else {
            self.bytes_residual(file, path, value, ty, len, node, plan)
        }
    }

    fn prefix_residual(
        self,
        file: &AcceptedFile,
        path: FieldPath,
        name: usize,
        node: usize,
        plan: &mut [u8],
    ) -> SeekBuilder
        requires { name < length (accepted_tables file.now).names }
        ensures { (e : Ends) (w : List ℕ) →
            let T = accepted_tables file.now in
            let before = state_of T self e w plan.old in
            let after = state_of T result e w plan.new in
            after ≡ Ops.put_residual node (path_of path) (Narrowing.Prefix (encode_prefix (name_at T name))) before }
    {
        let len = prefix_len(&file.tables, name);
        let p = self.residual(path_size(path) + 3 + len, node, plan);
        let place = p.place;
        let op = put_path_at(plan, place, path);
        let at = put_text_at(plan, op, 1, len);
        put_prefix_at(&file.tables, plan, at, name);
        p.level
    }

    // A prefix, which is its name's text: the range while building, else a residual.
    pub fn prefix(
        self,
        file: &AcceptedFile,
        path: FieldPath,
        name: usize,
        node: usize,
        plan: &mut [u8],
    ) -> SeekBuilder
        requires { name < length (accepted_tables file.now).names }
        ensures { (e : Ends) (w : List ℕ) →
            let T = accepted_tables file.now in
            let before = state_of T self e w plan.old in
            let after = state_of T result e w plan.new in
            after ≡ Ops.narrow node (path_of path) (Narrowing.Prefix (encode_prefix (name_at T name))) before }
    {
        if self.over {
            return self;
        }
        if self.building {
            self.ranged(path, name as u16, node)
        } else {
            self.prefix_residual(file, path, name, node, plan)
        }
    }

    // The level with a constant placed in it, by the constant's kind.
    pub fn with_constant(
        self,
        file: &AcceptedFile,
        constant: Option<Const>,
        path: FieldPath,
        node: usize,
        plan: &mut [u8],
    ) -> SeekBuilder
        requires { IsConstant (accepted_tables file.now) constant }
        ensures { (e : Ends) (w : List ℕ) →
            let T = accepted_tables file.now in
            let before = state_of T self e w plan.old in
            let after = state_of T result e w plan.new in
            after ≡ narrowed_by T node (const_of T constant) (path_of path) before }
    {
        match constant {
            None => self,
            Some(Const::Bytes(n, ty, len)) => self.bytes(file, path, n, ty, len, node, plan),
            Some(Const::Prefix(x)) => self.prefix(file, path, x, node, plan),
            Some(Const::Fuzzy(x, d, a)) => self.fuzzy(path, x, d, a, node, plan),
        }
    }
}
