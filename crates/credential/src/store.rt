//! What a store of records means: a list of records and a capacity.

ghost use Rattle.std.specs.Prelude.{◌≡◌, ℕ, ◌≤◌, true, false, List, [], ◌∷◌, ◌++◌, length, is_ok, OnOk, if◌then◌else◌, nat_lt, slice_index_or};
ghost use Rattle.std.specs.List.{remove};
ghost use Rattle.credential.specs.Rec.{Rec, is_within};

use crate::record::Record;

/// The refusal: the store has no free place.
#[derive(Clone, Copy, Debug, PartialEq, Eq)]
pub struct Full;

/// The refusal: there is no record at the place.
#[derive(Clone, Copy, Debug, PartialEq, Eq)]
pub struct NoRecord;

/// A list of records that is never longer than a capacity that never changes.
/// A call that is refused leaves the store as it was, its bytes too.
pub trait Store {
    /// The records, in their order.
    ghost records: { Self → List Rec };

    /// The capacity.
    ghost room: { Self → ℕ };

    /// The bytes in which the store keeps its records.
    ghost image: { Self → List ℕ };

    /// The bytes after a record was added.
    ghost extended: { List ℕ → Rec → List ℕ };

    /// The bytes after the record at a place was removed.
    ghost reduced: { List ℕ → ℕ → List ℕ };

    /// How many records there are.
    fn count(&self) -> usize
        ensures answer { result ≡ length (records self.now) };

    /// How many records there can be.
    fn capacity(&self) -> usize
        ensures answer { result ≡ room self.now };

    /// Copies the record at a place, if there is one.
    fn read(&self, place: usize, into: &mut Record) -> Result<(), NoRecord>
        ensures answer { is_ok result ≡ nat_lt place (length (records self.now)) }
        ensures found { into.new ≡ slice_index_or (records self.now) place into.old }
        ensures within { OnOk result (is_within into.new ≡ true) }
        ensures refused { is_ok result ≡ false → into.new ≡ into.old };

    /// Puts a record at the end, if the store is not full.
    fn add(&mut self, new: &Record) -> Result<(), Full>
        ensures answer { is_ok result ≡ nat_lt (length (records self.old)) (room self.old) }
        ensures list { records self.new ≡ (if is_ok result then records self.old ++ new.now ∷ [] else records self.old) }
        ensures capacity { room self.new ≡ room self.old }
        ensures bytes { image self.new ≡ (if is_ok result then extended (image self.old) new.now else image self.old) }
        ensures refused { is_ok result ≡ false → self.new ≡ self.old };

    /// Removes the record at a place and closes the gap, if there is one.
    fn remove(&mut self, place: usize) -> Result<(), NoRecord>
        ensures answer { is_ok result ≡ nat_lt place (length (records self.old)) }
        ensures list { records self.new ≡ (if is_ok result then remove (records self.old) place else records self.old) }
        ensures capacity { room self.new ≡ room self.old }
        ensures bytes { image self.new ≡ (if is_ok result then reduced (image self.old) place else image self.old) }
        ensures refused { is_ok result ≡ false → self.new ≡ self.old };

    ghost bounded: { (s : Self) → length (records s) ≤ room s };

    /// The records and the capacity are what the bytes say.
    ghost determined: { (s t : Self) → image s ≡ image t → (records s ≡ records t) × (room s ≡ room t) };
}
