//! A table of records, and its calls.

ghost use Rattle.std.specs.Prelude.{◌≡◌, ◌/◌, true, false, [], ◌∷◌, ◌++◌, length, is_ok, OnOk, if◌then◌else◌, nat_lt, slice_index_or};
ghost use Rattle.std.specs.List.{remove};
ghost use Rattle.std.proofs.Common.{refl, ap};
ghost use Rattle.credential.specs.Rec.{is_within};
ghost use Rattle.image.specs.Cut.{bytes_of};
ghost use Rattle.image.specs.Kinds.{capacity_of};
ghost use Rattle.image.specs.Laws.{imaged};
ghost use Rattle.image.specs.Opening.{entries_of};
ghost use Rattle.image.proofs.Stores.{bounded};
ghost use Rattle.table.specs.Tables.{kind, is_table, records_in, tabled, extended, reduced};

use crate::closing::close;
use credential::{Full, NoRecord, Record, Store};
use image::{Image, ImageStore, Kind, Opened, Refused};
use std::marker::Model;

/// An image that opens as a table, and how many records it lists. A clause sees the image.
#[derive(Drop)]
pub struct Table {
    image: Image,
    // Kept beside the image: each call would else go over all its slots again.
    listed: usize,
}

impl Model for Table {
    ghost use Rattle.std.specs.Prelude.{ℕ, Vec};
    ghost use Rattle.std.specs.declared.alloc.Global.{Global};
    ghost use Rattle.image.specs.Cut.{bytes_of};
    ghost use Rattle.table.specs.Tables.{IsTableOf};

    ghost Value = { Vec ℕ Global };

    ghost view = { λ t. t.image };

    ghost invariant = { λ t. IsTableOf (bytes_of t.image) t.listed };
}

// Alike for `Log`, and twice: the invariants differ, by which each proof knows that its image opens.
impl ImageStore for Table {
    ghost kind = { kind };

    ghost buffer = { λ t. t };

    ghost imaged = { λ t. refl };

    ghost listed = { λ t. refl };

    ghost sized = { λ t. refl };

    fn open(bytes: Vec<u8>) -> Result<Table, Refused> {
        let Opened { image, counts } = image::open(Kind::Table, bytes)?;
        Ok(Table {
            image,
            listed: counts.listed,
        })
    }

    /// The image: a function of the number of slots and the records.
    fn bytes(&self) -> &[u8]
        ensures answer { result.now ≡ bytes_of self.now }
        ensures entries { result.now ≡ imaged (length result.now / 512) (entries_of kind result.now) }
        ensures opens { is_table result.now ≡ true }
        ensures layout { result.now ≡ tabled (length result.now / 512) (records_in result.now) }
    {
        self.image.bytes()
    }

    fn into_bytes(self) -> Vec<u8> {
        let Table { image, .. } = self;
        image.into_bytes()
    }
}

// Alike for `Log`: each names its own definitions, and a type over both would carry a log's used slots in a table.
impl Store for Table {
    ghost records = { λ t. records_in (bytes_of t) };

    ghost room = { λ t. capacity_of kind (bytes_of t) };

    ghost image = { λ t. bytes_of t };

    ghost extended = { extended };

    ghost reduced = { reduced };

    ghost bounded = { λ t. bounded kind (bytes_of t) };

    ghost determined = { λ s t e. (ap records_in e, ap (capacity_of kind) e) };

    // Each call says the trait's clauses, and that the image opens as a table: of a value with a model a caller knows
    // what clauses say.
    fn count(&self) -> usize
        ensures answer { result ≡ length (records_in (bytes_of self.now)) }
        ensures opens { is_table (bytes_of self.now) ≡ true }
    {
        self.listed
    }

    #[tactic(auto, using(image::proofs::Cells::length_slots))]
    fn capacity(&self) -> usize
        ensures answer { result ≡ capacity_of kind (bytes_of self.now) }
        ensures opens { is_table (bytes_of self.now) ≡ true }
    {
        self.image.len()
    }

    fn read(&self, place: usize, into: &mut Record) -> Result<(), NoRecord>
        ensures answer { is_ok result ≡ nat_lt place (length (records_in (bytes_of self.now))) }
        ensures found { into.new ≡ slice_index_or (records_in (bytes_of self.now)) place into.old }
        ensures within { OnOk result (is_within into.new ≡ true) }
        ensures refused { is_ok result ≡ false → into.new ≡ into.old }
        ensures opens { is_table (bytes_of self.now) ≡ true }
    {
        if place >= self.listed {
            return Err(NoRecord);
        }
        *into = Record::from_slot(self.image.slot(place)).unwrap();
        Ok(())
    }

    fn add(&mut self, new: &Record) -> Result<(), Full>
        ensures answer { is_ok result ≡ nat_lt (length (records_in (bytes_of self.old))) (capacity_of kind (bytes_of self.old)) }
        ensures list { records_in (bytes_of self.new) ≡ (if is_ok result then records_in (bytes_of self.old) ++ new.now ∷ [] else records_in (bytes_of self.old)) }
        ensures capacity { capacity_of kind (bytes_of self.new) ≡ capacity_of kind (bytes_of self.old) }
        ensures bytes { bytes_of self.new ≡ (if is_ok result then extended (bytes_of self.old) new.now else bytes_of self.old) }
        ensures refused { is_ok result ≡ false → self.new ≡ self.old }
        ensures opens { is_table (bytes_of self.new) ≡ true }
    {
        let listed = self.listed;
        if listed == self.image.len() {
            return Err(Full);
        }
        self.image.write(listed, &new.to_slot());
        self.listed = listed + 1;
        Ok(())
    }

    fn remove(&mut self, place: usize) -> Result<(), NoRecord>
        ensures answer { is_ok result ≡ nat_lt place (length (records_in (bytes_of self.old))) }
        ensures list { records_in (bytes_of self.new) ≡ (if is_ok result then remove (records_in (bytes_of self.old)) place else records_in (bytes_of self.old)) }
        ensures capacity { capacity_of kind (bytes_of self.new) ≡ capacity_of kind (bytes_of self.old) }
        ensures bytes { bytes_of self.new ≡ (if is_ok result then reduced (bytes_of self.old) place else bytes_of self.old) }
        ensures refused { is_ok result ≡ false → self.new ≡ self.old }
        ensures opens { is_table (bytes_of self.new) ≡ true }
    {
        let listed = self.listed;
        if place >= listed {
            return Err(NoRecord);
        }
        close(&mut self.image, place, listed);
        self.listed = listed - 1;
        Ok(())
    }
}
