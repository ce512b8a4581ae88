//! A slot: how a record or a withdrawal is written into 512 bytes, and how it is read.

ghost use Rattle.std.specs.Prelude.{◌≡◌, ◌+◌, ◌≤◌, ◌++◌, length, take, drop, true, Some};
ghost use Rattle.credential.specs.Rec.{is_within};
ghost use Rattle.credential.specs.Model.{given, told, record_told};
ghost use Rattle.credential.specs.Slot.{header, slot, withdrawal as withdrawn, piece, fields_in, record_in, content_of, record_of, Exactly};

use crate::record::{Fields, ID, Record};
use sha256::same;

/// The size of a slot.
pub const SLOT: usize = 512;

// Marks and offsets are the format's numbers (docs/STORAGE.md).
/// The mark of a slot that holds a record, and of one that holds a withdrawal.
const RECORD: u8 = 1;

const WITHDRAWAL: u8 = 2;

/// Where a withdrawal has its place.
const PLACE_AT: usize = 6;

/// Where a record has its protection and the lengths of its texts.
const PROTECT_AT: usize = 1;

const RP_ID_LEN_AT: usize = 2;

const USER_ID_LEN_AT: usize = 3;

const NAME_LEN_AT: usize = 4;

const DISPLAY_NAME_LEN_AT: usize = 5;

/// Where a record has its fields.
const RP_ID_AT: usize = 16;

const USER_ID_AT: usize = 144;

const NAME_AT: usize = 208;

const DISPLAY_NAME_AT: usize = 272;

const CREDENTIAL_ID_AT: usize = 336;

const X_AT: usize = 368;

const Y_AT: usize = 400;

/// What a slot holds.
#[derive(Drop)]
pub enum Slot {
    Free,
    Record(Record),
    /// The record at this place of the list goes.
    Withdrawal(u8),
}

// A method with a name and no `TryFrom`: what is read is a slot, and the name says of which bytes.
impl Slot {
    /// What a slot of these bytes holds; nothing where they are no slot.
    #[tactic(auto, using(crate::proofs::Slots::exact, crate::proofs::Slots::content_other))]
    pub fn from_bytes(bytes: &[u8]) -> Option<Slot>
        ensures answer { told result ≡ content_of bytes.now }
        ensures exactly { Exactly bytes.now }
    {
        let bytes: &[u8; SLOT] = bytes.try_into().ok()?;
        read_slot(bytes)
    }
}

/// The slot of a withdrawal.
#[tactic(auto, unfolding(crate::specs::Slot::withdrawal))]
pub fn withdrawal(place: u8) -> [u8; SLOT]
    ensures answer { result ≡ withdrawn place }
{
    let mut bytes = [0; SLOT];
    bytes[0] = WITHDRAWAL;
    bytes[PLACE_AT] = place;
    bytes
}

// Methods with names and no `From`: the name says which bytes, as std's `to_be_bytes`.
impl Record {
    /// The record that a slot of these bytes holds; nothing where it holds none.
    pub fn from_slot(bytes: &[u8]) -> Option<Record>
        ensures answer { result ≡ record_of (content_of bytes.now) }
    {
        let slot = Slot::from_bytes(bytes)?;
        match slot {
            Slot::Record(found) => Some(found),
            Slot::Free | Slot::Withdrawal(_) => None,
        }
    }

    /// The slot of the record.
    pub fn to_slot(&self) -> [u8; SLOT]
        ensures answer { result ≡ slot self.now }
        ensures within { is_within self.now ≡ true }
    {
        let mut slot = [0; SLOT];
        put(&mut slot, 0, &self.header());
        put(&mut slot, RP_ID_AT, self.rp_id.padded());
        put(&mut slot, USER_ID_AT, self.user_id.padded());
        put(&mut slot, NAME_AT, self.name.padded());
        put(&mut slot, DISPLAY_NAME_AT, self.display_name.padded());
        put(&mut slot, CREDENTIAL_ID_AT, &self.credential_id);
        put(&mut slot, X_AT, &self.x);
        put(&mut slot, Y_AT, &self.y);
        slot
    }

    /// The first 16 bytes of the slot.
    fn header(&self) -> [u8; 16]
        ensures { result ≡ header self.now }
    {
        let mut bytes = [0; 16];
        bytes[0] = RECORD;
        bytes[PROTECT_AT] = u8::from(self.cred_protect);
        bytes[RP_ID_LEN_AT] = self.rp_id.len() as u8;
        bytes[USER_ID_LEN_AT] = self.user_id.len() as u8;
        bytes[NAME_LEN_AT] = self.name.len() as u8;
        bytes[DISPLAY_NAME_LEN_AT] = self.display_name.len() as u8;
        bytes
    }
}

/// Writes a part of a slot.
// One line round `copy_from_slice`; shared with other crates it would be a public call with a condition on its caller.
fn put(into: &mut [u8; SLOT], at: usize, bytes: &[u8])
    requires { at + length bytes.now ≤ 512 }
    ensures { into.new ≡ take at into.old ++ (bytes.now ++ drop (at + length bytes.now) into.old) }
{
    into[at..at + bytes.len()].copy_from_slice(bytes);
}

/// What a slot of these bytes holds; nothing where they are no slot.
#[tactic(auto, unfolding(crate::specs::Slot::content_of, crate::specs::Slot::free))]
fn read_slot(bytes: &[u8; SLOT]) -> Option<Slot>
    ensures { told result ≡ content_of bytes.now }
{
    if same(bytes, &[0; SLOT]) {
        return Some(Slot::Free);
    }
    let place = bytes[PLACE_AT];
    if same(bytes, &withdrawal(place)) {
        return Some(Slot::Withdrawal(place));
    }
    let record = read_record(bytes)?;
    Some(Slot::Record(record))
}

/// The record of a slot, if the bytes are just its slot.
#[tactic(auto, unfolding(crate::specs::Slot::record_in))]
fn read_record(bytes: &[u8; SLOT]) -> Option<Record>
    ensures { record_told result ≡ record_in bytes.now (fields_in bytes.now) }
{
    let record = Record::new(fields_in(bytes)).ok()?;
    same(bytes, &record.to_slot()).then_some(record)
}

/// The fields that lie in a slot.
#[tactic(auto, unfolding(crate::specs::Slot::fields_in))]
fn fields_in(bytes: &[u8; SLOT]) -> Fields<'_>
    ensures { given result ≡ fields_in bytes.now }
{
    Fields {
        rp_id: part(bytes, RP_ID_AT, bytes[RP_ID_LEN_AT] as usize),
        user_id: part(bytes, USER_ID_AT, bytes[USER_ID_LEN_AT] as usize),
        name: part(bytes, NAME_AT, bytes[NAME_LEN_AT] as usize),
        display_name: part(bytes, DISPLAY_NAME_AT, bytes[DISPLAY_NAME_LEN_AT] as usize),
        credential_id: part(bytes, CREDENTIAL_ID_AT, ID),
        x: part(bytes, X_AT, ID),
        y: part(bytes, Y_AT, ID),
        cred_protect: bytes[PROTECT_AT],
    }
}

/// So many bytes from an offset on, or as many as there are.
fn part(bytes: &[u8], at: usize, size: usize) -> &[u8]
    requires { at ≤ length bytes.now }
    ensures { result.now ≡ piece at size bytes.now }
{
    let rest = &bytes[at..];
    &rest[..size.min(rest.len())]
}
