//! The store that is open.

ghost use Rattle.std.specs.Prelude.{◌≡◌, length, is_ok, Ok, IfOk, string_bytes, vec_items};
ghost use Rattle.image.specs.Kinds.{capacity_of};
ghost use Rattle.image.specs.Opening.{listing, records_of};
ghost use Rattle.image.specs.Stores.{told, held};
ghost use Rattle.steps.specs.Asked.{whole};
ghost use Rattle.storebench.specs.Printed.{listed};
ghost use Rattle.storebench.specs.Said.{add_answer, remove_answer};
ghost use Rattle.storebench.specs.State.{holding, kind_of, image_of, store_of, after_add, after_remove};

use crate::adding::AddError;
use crate::fill::Fill;
use crate::text::list_text;
use credential::{Fields, NoRecord, Record, Store};
use image::{ImageStore, Kind, Refused};
use logstore::Log;
use std::alloc::{AllocError, Global};
use steps::Parts;
use table::Table;

/// A store of either kind.
#[derive(Drop)]
pub enum Held {
    Table(Table),
    Log(Log),
}

// The arms stay: the bytes after a call follow from the bytes by another definition for each kind, so that an enum
// of both cannot be a `Store`.
impl Held {
    /// The store of a kind that lies in an image.
    pub(crate) fn open(kind: Kind, image: Vec<u8>) -> Result<Held, Refused>
        ensures answer { told kind image_of result ≡ listing kind image.items }
        ensures image { held image_of result ≡ image }
        ensures kind { IfOk result (λ h. kind_of h ≡ kind) }
    {
        match kind {
            Kind::Table => Table::open(image).map(Held::Table),
            Kind::Log => Log::open(image).map(Held::Log),
        }
    }

    /// How full it is.
    pub(crate) fn fill(&self) -> Fill
        ensures count { result.count ≡ length (records_of (kind_of self.now) (vec_items (image_of self.now))) }
        ensures capacity { result.capacity ≡ capacity_of (kind_of self.now) (vec_items (image_of self.now)) }
    {
        match self {
            Held::Table(table) => Fill::of(table),
            Held::Log(log) => Fill::of(log),
        }
    }

    /// Its image.
    pub(crate) fn bytes(&self) -> &[u8]
        ensures { result.now ≡ vec_items (image_of self.now) }
    {
        match self {
            Held::Table(table) => table.bytes(),
            Held::Log(log) => log.bytes(),
        }
    }

    /// Its records, a line each, and how full it is.
    #[tactic(auto, unfolding(crate::specs::Printed::listed))]
    pub(crate) fn text(&self, heap: Global) -> Result<String, AllocError>
        ensures { IfOk result (λ s. Ok (string_bytes s) ≡ listed (store_of self.now)) }
    {
        match self {
            Held::Table(table) => list_text(heap, table),
            Held::Log(log) => list_text(heap, log),
        }
    }

    /// Adds the record of these parts, if they are within their limits and there is room.
    #[tactic(auto, unfolding(crate::specs::Said::add_answer, crate::specs::State::after_add))]
    pub(crate) fn add(&mut self, parts: &Parts) -> Result<(), AddError>
        ensures answer { Ok result ≡ add_answer (store_of self.old) (whole parts.now) }
        ensures state { store_of self.new ≡ after_add (store_of self.old) (whole parts.now) }
    {
        let record = Record::new(Fields::from(parts))?;
        let added = match self {
            Held::Table(table) => table.add(&record),
            Held::Log(log) => log.add(&record),
        };
        Ok(added?)
    }

    /// Removes the record at a place, if there is one.
    #[tactic(auto, unfolding(crate::specs::Said::remove_answer, crate::specs::State::after_remove))]
    pub(crate) fn remove(&mut self, place: usize) -> Result<(), NoRecord>
        ensures answer { Ok (is_ok result) ≡ remove_answer (store_of self.old) place }
        ensures state { store_of self.new ≡ after_remove (store_of self.old) place }
    {
        match self {
            Held::Table(table) => table.remove(place),
            Held::Log(log) => log.remove(place),
        }
    }
}
