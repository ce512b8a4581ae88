//! A field of a map, by its key.

ghost use Rattle.std.specs.Prelude.{◌≡◌, ◌-◌, length, drop};
ghost use Rattle.cbor.specs.Finder.{seek_at, held_at, field_at};
ghost use Rattle.cbor.specs.Laws.{Finds};
ghost use Rattle.cbor.specs.Meaning.{meant, named, field_told};
ghost use Rattle.cbor.specs.Unread.{Ends, Sought};

use crate::checking::{LEVELS, check_item};
use crate::item::{Item, Part};
use crate::reading::{Token, place_of, read, read_token, unread};
use sha256::same;

/// A key to look for.
#[derive(Clone, Copy, Debug)]
pub enum Key<'k> {
    Number(u64),
    Text(&'k [u8]),
}

/// A value of a map: its item, and all its bytes as they lie in the message.
#[derive(Clone, Copy, Debug)]
pub struct Field<'a> {
    pub part: Part<'a>,
    pub raw: &'a [u8],
}

/// Whether an item is the key that is looked for.
fn is_named(key: &Key, item: &Item) -> bool
    ensures { result ≡ named key.now (meant item.now) }
{
    match (key, item) {
        (Key::Number(wanted), Item::Number(number)) => number == wanted,
        // `same` and no `==`: it looks at every byte of two strings of one length, as for tags.
        (Key::Text(wanted), Item::Text(string)) => same(string, wanted),
        _ => false,
    }
}

/// Among so many entries, the bytes from the value on whose key is looked for.
// A loop and no `try_fold`: it has two ways out, at the key that is looked for and at a fault.
fn seek<'a>(start: &'a [u8], count: u64, key: &Key) -> Option<&'a [u8]>
    ensures { (message : _) (at : _) → drop at message ≡ start.now → Sought message result (seek_at (named key.now) message count at) }
{
    let mut rest = start;
    for _i in 0..count {
        let Token { item, behind, .. } = read_token(rest)?;
        if is_named(key, &item) {
            return Some(behind);
        }
        rest = check_item(behind, LEVELS).ok()?;
    }
    None
}

/// The value that the last bytes of a message begin with, with its bytes.
#[tactic(auto, unfolding(crate::specs::Finder::held_at, crate::specs::Finder::end_at, crate::specs::Reader::placed, crate::specs::Steps::given))]
fn held<'a>(message: &'a [u8], value: &'a [u8]) -> Option<Field<'a>>
    requires { Ends message.now value.now }
    ensures { field_told result ≡ held_at message.now (length message.now - length value.now) }
{
    let part = read(message, place_of(message, value)).ok()?;
    let rest = check_item(value, LEVELS).ok()?;
    Some(Field {
        part,
        raw: &value[..place_of(value, rest)],
    })
}

/// The field of the map at a place under a key; none where no map stands there, or it has no such key.
#[tactic(auto, unfolding(crate::specs::Finder::field_at, crate::specs::Reader::read_at, crate::specs::Steps::given, crate::specs::Steps::or_fail))]
pub fn find<'a>(message: &'a [u8], at: usize, key: Key) -> Option<Field<'a>>
    ensures answer { field_told result ≡ field_at (named key.entry) message.now at }
    ensures finds { Finds (named key.entry) message.now at }
{
    let Token { item, behind, .. } = read_token(unread(message, at))?;
    let Item::Map(count) = item else {
        return None;
    };
    let value = seek(behind, count, &key)?;
    held(message, value)
}
