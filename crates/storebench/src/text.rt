//! The lines that the steps over a store print.

ghost use Rattle.std.specs.Prelude.{◌≡◌, Some, IfOk, string_bytes, is_ok};
ghost use Rattle.credential.specs.Model.{given};
ghost use Rattle.storebench.specs.Said.{filled};
ghost use Rattle.storebench.specs.Text.{open_line, add_line, remove_line, record_line, list_text};

use crate::adding::AddError;
use crate::fill::Fill;
use credential::{Fields, NoRecord, Record, Store};
use image::Refusal;
use lines::hex::Hex;
use std::alloc::{AllocError, Global};
use std::fmt;

/// The line of an opening.
pub(crate) fn open_line(heap: Global, opening: Result<Fill, Refusal>) -> Result<String, AllocError>
    ensures text { IfOk result (λ s. string_bytes s ≡ open_line (filled opening)) }
{
    match opening {
        Ok(fill) => format!(in heap; "open: 0x00 place 0, {fill}\n"),
        Err(why) => {
            // By `Hex`, whose text is the definition's: of `{status:02x}` that would be a proof of its own.
            let status = [why.status()];
            let status = Hex(&status);
            let place = why.place();
            format!(in heap; "open: 0x{status} place {place}\n")
        }
    }
}

/// The line of adding a record.
pub(crate) fn add_line(heap: Global, added: Result<(), AddError>) -> Result<String, AllocError>
    ensures text { IfOk result (λ s. string_bytes s ≡ add_line added) }
{
    match added {
        Ok(()) => String::from_str(heap, "add: yes\n"),
        Err(why) => format!(in heap; "add: {why}\n"),
    }
}

/// The line of removing a record.
pub(crate) fn remove_line(heap: Global, removed: Result<(), NoRecord>) -> Result<String, AllocError>
    ensures text { IfOk result (λ s. string_bytes s ≡ remove_line (is_ok removed)) }
{
    match removed {
        Ok(()) => String::from_str(heap, "remove: yes\n"),
        Err(NoRecord) => String::from_str(heap, "remove: no\n"),
    }
}

/// The records of a store, a line each, and how full it is.
pub(crate) fn list_text<S: Store>(heap: Global, store: &S) -> Result<String, AllocError>
    ensures text { IfOk result (λ s. string_bytes s ≡ list_text (S.Store.records store.now) (S.Store.room store.now)) }
{
    let mut text = String::new(heap);
    let mut record = Record::blank();
    // By place: a store copies a record into the one that the caller gives, so there is no item to iterate over.
    for place in 0..store.count() {
        store.read(place, &mut record).unwrap();
        let fields = record.fields();
        let line = Line { place, fields }.to_string(heap)?;
        text.push_str(&line)?;
    }
    let fill = Fill::of(store);
    let last = format!(in heap; "list: {fill}\n")?;
    text.push_str(&last)?;
    Ok(text)
}

/// The line of the record at a place.
#[derive(Clone, Copy)]
struct Line<'a> {
    place: usize,
    fields: Fields<'a>,
}

impl fmt::Display for Line<'_> {
    ghost output = { λ line. Some (record_line line.place (given line.fields)) };

    #[tactic(auto, unfolding(crate::specs::Text::record_line))]
    fn fmt<W: fmt::Write>(&self, f: &mut fmt::Formatter<W>) -> fmt::Result {
        let fields = self.fields;
        let (rp_id, user_id) = (Hex(fields.rp_id), Hex(fields.user_id));
        let (name, display_name) = (Hex(fields.name), Hex(fields.display_name));
        let (credential_id, x, y) = (Hex(fields.credential_id), Hex(fields.x), Hex(fields.y));
        write!(f, "record {}: {}", self.place, fields.cred_protect)?;
        write!(f, " {rp_id} {user_id} {name} {display_name}")?;
        writeln!(f, " {credential_id} {x} {y}")
    }
}
