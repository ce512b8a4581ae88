//! A log, and its calls.

ghost use Rattle.std.specs.Prelude.{◌≡◌, ◌<◌, true, false, [], ◌∷◌, ◌++◌, length, is_ok, OnOk, if◌then◌else◌, nat_lt, slice_index_or};
ghost use Rattle.std.specs.List.{remove};
ghost use Rattle.std.proofs.Common.{refl, ap};
ghost use Rattle.credential.specs.Rec.{Rec, is_within};
ghost use Rattle.image.specs.Cut.{cells, bytes_of};
ghost use Rattle.image.specs.Kinds.{capacity_of};
ghost use Rattle.image.proofs.Stores.{bounded};
ghost use Rattle.logstore.specs.Log.{kind, is_log, entries_in, records_in, spared, extended, reduced};

use crate::compaction::compact;
use crate::listing::places;
use credential::{Full, NoRecord, Record, Store, withdrawal};
use image::{Counts, Image, ImageStore, Kind, Opened, Refused};
use std::marker::Model;

/// A store that logs what came and went: each used slot adds a record to the end of the list
/// or withdraws the one at a place. A clause sees the image.
#[derive(Drop)]
pub struct Log {
    image: Image,
    // Kept beside the image: each call would else go over all its slots again.
    counts: Counts,
}

impl Model for Log {
    ghost use Rattle.std.specs.Prelude.{ℕ, Vec};
    ghost use Rattle.std.specs.declared.alloc.Global.{Global};
    ghost use Rattle.image.specs.Cut.{bytes_of};
    ghost use Rattle.logstore.specs.Log.{IsLogOf};

    ghost Value = { Vec ℕ Global };

    ghost view = { λ log. log.image };

    ghost invariant = { λ log. IsLogOf (bytes_of log.image) log.counts.used log.counts.listed };
}

// Alike for `Table`, and twice: the invariants differ, by which each proof knows that its image opens.
impl ImageStore for Log {
    ghost kind = { kind };

    ghost buffer = { λ log. log };

    ghost imaged = { λ log. refl };

    ghost listed = { λ log. refl };

    ghost sized = { λ log. refl };

    fn open(bytes: Vec<u8>) -> Result<Log, Refused> {
        let Opened { image, counts } = image::open(Kind::Log, bytes)?;
        Ok(Log { image, counts })
    }

    fn bytes(&self) -> &[u8] {
        self.image.bytes()
    }

    fn into_bytes(self) -> Vec<u8> {
        let Log { image, .. } = self;
        image.into_bytes()
    }
}

impl Log {
    /// Compacts the log where no slot is free: only the listed records stay.
    fn make_room(&mut self)
        ensures entries { entries_in (bytes_of self.new) ≡ spared (length (cells self.old)) (entries_in (bytes_of self.old)) }
        ensures kept { length (bytes_of self.new) ≡ length (bytes_of self.old) }
        ensures free { length (entries_in (bytes_of self.new)) < length (cells self.new) }
    {
        if self.counts.used < self.image.len() {
            return;
        }
        let places = places(&self.image);
        compact(&mut self.image, places.as_slice());
        self.counts.used = self.counts.listed;
    }

    /// The record at a place of the list.
    fn record_at(&self, place: usize) -> Record
        requires { place < length (records_in (bytes_of self.now)) }
        ensures answer { (d : Rec) → result ≡ slice_index_or (records_in (bytes_of self.now)) place d }
        ensures within { is_within result ≡ true }
    {
        let places = places(&self.image);
        Record::from_slot(self.image.slot(places.as_slice()[place])).unwrap()
    }
}

// Alike for `Table`: each names its own definitions, and a type over both would carry a log's used slots in a table.
impl Store for Log {
    ghost records = { λ log. records_in (bytes_of log) };

    ghost room = { λ log. capacity_of kind (bytes_of log) };

    ghost image = { λ log. bytes_of log };

    ghost extended = { extended };

    ghost reduced = { reduced };

    ghost bounded = { λ log. bounded kind (bytes_of log) };

    ghost determined = { λ s t e. (ap records_in e, ap (capacity_of kind) e) };

    // As for `Table`: the trait's clauses, and that the image opens.
    fn count(&self) -> usize
        ensures answer { result ≡ length (records_in (bytes_of self.now)) }
        ensures opens { is_log (bytes_of self.now) ≡ true }
    {
        self.counts.listed
    }

    #[tactic(auto, using(image::proofs::Cells::length_slots))]
    fn capacity(&self) -> usize
        ensures answer { result ≡ capacity_of kind (bytes_of self.now) }
        ensures opens { is_log (bytes_of self.now) ≡ true }
    {
        Kind::Log.capacity(self.image.len())
    }

    fn read(&self, place: usize, into: &mut Record) -> Result<(), NoRecord>
        ensures answer { is_ok result ≡ nat_lt place (length (records_in (bytes_of self.now))) }
        ensures found { into.new ≡ slice_index_or (records_in (bytes_of self.now)) place into.old }
        ensures within { OnOk result (is_within into.new ≡ true) }
        ensures refused { is_ok result ≡ false → into.new ≡ into.old }
        ensures opens { is_log (bytes_of self.now) ≡ true }
    {
        if place >= self.counts.listed {
            return Err(NoRecord);
        }
        *into = self.record_at(place);
        Ok(())
    }

    fn add(&mut self, new: &Record) -> Result<(), Full>
        ensures answer { is_ok result ≡ nat_lt (length (records_in (bytes_of self.old))) (capacity_of kind (bytes_of self.old)) }
        ensures list { records_in (bytes_of self.new) ≡ (if is_ok result then records_in (bytes_of self.old) ++ new.now ∷ [] else records_in (bytes_of self.old)) }
        ensures capacity { capacity_of kind (bytes_of self.new) ≡ capacity_of kind (bytes_of self.old) }
        ensures bytes { bytes_of self.new ≡ (if is_ok result then extended (bytes_of self.old) new.now else bytes_of self.old) }
        ensures refused { is_ok result ≡ false → self.new ≡ self.old }
        ensures opens { is_log (bytes_of self.new) ≡ true }
    {
        if self.counts.listed >= self.capacity() {
            return Err(Full);
        }
        self.make_room();
        self.image.write(self.counts.used, &new.to_slot());
        self.counts.used += 1;
        self.counts.listed += 1;
        Ok(())
    }

    fn remove(&mut self, place: usize) -> Result<(), NoRecord>
        ensures answer { is_ok result ≡ nat_lt place (length (records_in (bytes_of self.old))) }
        ensures list { records_in (bytes_of self.new) ≡ (if is_ok result then remove (records_in (bytes_of self.old)) place else records_in (bytes_of self.old)) }
        ensures capacity { capacity_of kind (bytes_of self.new) ≡ capacity_of kind (bytes_of self.old) }
        ensures bytes { bytes_of self.new ≡ (if is_ok result then reduced (bytes_of self.old) place else bytes_of self.old) }
        ensures refused { is_ok result ≡ false → self.new ≡ self.old }
        ensures opens { is_log (bytes_of self.new) ≡ true }
    {
        if place >= self.counts.listed {
            return Err(NoRecord);
        }
        self.make_room();
        // The cast is proved to lose nothing, where `u8::try_from` would need a branch that no call takes.
        self.image.write(self.counts.used, &withdrawal(place as u8));
        self.counts.used += 1;
        self.counts.listed -= 1;
        Ok(())
    }
}
