//! One item: its head in shortest form, and its string whole.
// The numbers that are matched and called here are the protocol's on the wire.

ghost use Rattle.std.specs.Prelude.{◌≡◌, ◌-◌, ◌/◌, ◌%◌, ◌<◌, ◌≤◌, length, take, drop, IfOk, if◌then◌else◌, Some, None, nat_le};
ghost use Rattle.std.specs.Option.{option_map};
ghost use Rattle.cbor.specs.Head.{argument, following};
ghost use Rattle.cbor.specs.Reader.{read_at, by_major, simple_at, string_size, token};
ghost use Rattle.cbor.specs.Meaning.{meant, read_told};
ghost use Rattle.cbor.specs.Unread.{argument_told, token_told, token_of};

use crate::item::{Fault, Item, Part};

/// A head's argument and the number of bytes that it takes.
#[derive(Clone, Copy)]
struct Argument {
    value: u64,
    width: usize,
}

/// An item, the bytes of its head and string, and the bytes behind them.
#[derive(Clone, Copy)]
pub(crate) struct Token<'a> {
    pub(crate) item: Item<'a>,
    pub(crate) spelled: &'a [u8],
    pub(crate) behind: &'a [u8],
}

/// The bytes of a message from a place on, which are none past its end.
pub(crate) fn unread(message: &[u8], at: usize) -> &[u8]
    ensures { result.now ≡ drop at message.now }
{
    message.get(at..).unwrap_or_default()
}

/// Where the last bytes of a message begin.
pub(crate) fn place_of(message: &[u8], rest: &[u8]) -> usize
    requires { length rest.now ≤ length message.now }
    ensures { result ≡ length message.now - length rest.now }
{
    message.len() - rest.len()
}

/// An argument of that many bytes, which must be there whole, unless it is below the least that needs them.
#[tactic(auto, unfolding(crate::specs::Head::following))]
fn following(width: usize, least: u64, rest: &[u8]) -> Option<Argument>
    requires { width ≤ 8 }
    ensures { argument_told result ≡ following width least rest.now }
{
    let digits = rest.get(..width)?;
    let mut bytes = [0; 8];
    bytes[8 - width..].copy_from_slice(digits);
    let value = u64::from_be_bytes(bytes);
    (least <= value).then_some(Argument { value, width })
}

/// The argument that the low five bits of the initial byte announce, in shortest form.
#[tactic(auto, unfolding(crate::specs::Head::argument))]
fn read_argument(info: u8, rest: &[u8]) -> Option<Argument>
    ensures { argument_told result ≡ argument info rest.now }
{
    match info {
        0..=23 => Some(Argument {
            value: u64::from(info),
            width: 0,
        }),
        24 => following(1, 24, rest),
        25 => following(2, 0x100, rest),
        26 => following(4, 0x1_0000, rest),
        27 => following(8, 0x1_0000_0000, rest),
        _ => None,
    }
}

/// A string of `len` bytes, if it is there whole.
fn read_string(bytes: &[u8], len: u64) -> Option<&[u8]>
    ensures { option_map (λ x. x.now) result ≡ (if nat_le len (length bytes.now) then Some (take len bytes.now) else None) }
{
    bytes.get(..usize::try_from(len).ok()?)
}

/// One of the simple values that are read, by the low five bits of its initial byte.
#[tactic(auto, unfolding(crate::specs::Reader::simple_at))]
fn simple_item(info: u8) -> Option<Item<'static>>
    ensures { option_map meant result ≡ simple_at info }
{
    match info {
        20 => Some(Item::False),
        21 => Some(Item::True),
        22 => Some(Item::Null),
        _ => None,
    }
}

/// An item by its initial byte, its argument and the bytes behind its head.
#[tactic(auto, unfolding(crate::specs::Reader::by_major, crate::specs::Reader::string))]
fn by_major(initial: u8, value: u64, behind: &[u8]) -> Option<Item<'_>>
    ensures { option_map meant result ≡ by_major (initial / 32) (initial % 32) value behind.now }
{
    match initial / 32 {
        0 => Some(Item::Number(value)),
        1 => Some(Item::Negative(value)),
        2 => Some(Item::Bytes(read_string(behind, value)?)),
        3 => Some(Item::Text(read_string(behind, value)?)),
        4 => Some(Item::Array(value)),
        5 => Some(Item::Map(value)),
        7 => simple_item(initial % 32),
        _ => None,
    }
}

/// How many bytes of a string lie behind the item's head.
fn string_len(item: &Item) -> usize
    ensures { result ≡ string_size (meant item.now) }
{
    match item {
        Item::Bytes(string) | Item::Text(string) => string.len(),
        _ => 0,
    }
}

/// The item that the unread bytes begin with.
// Inlined: its three parts are large to hand back.
#[inline(always)]
#[tactic(auto, unfolding(crate::specs::Reader::token, crate::specs::Steps::given))]
pub(crate) fn read_token(bytes: &[u8]) -> Option<Token<'_>>
    ensures { option_map token_told result ≡ option_map (token_of bytes.now) (token bytes.now) }
{
    let (initial, rest) = bytes.split_first()?;
    let Argument { value, width } = read_argument(*initial % 32, rest)?;
    let item = by_major(*initial, value, &rest[width..])?;
    let (spelled, behind) = bytes.split_at(1 + width + string_len(&item));
    Some(Token {
        item,
        spelled,
        behind,
    })
}

/// The item at a place: its head in shortest form, and its string whole.
// `message` and `at` stay two arguments: places are what callers have, here and in `find`.
#[tactic(auto, unfolding(crate::specs::Reader::read_at, crate::specs::Steps::or_fail))]
pub fn read(message: &[u8], at: usize) -> Result<Part<'_>, Fault>
    ensures answer { read_told result ≡ read_at message.now at }
    ensures within { IfOk result (λ p. (at < p.end) × (p.end ≤ length message.now)) }
{
    let Token { item, behind, .. } = read_token(unread(message, at)).ok_or(Fault {
        place: at.min(message.len()),
    })?;
    Ok(Part {
        item,
        place: at,
        end: place_of(message, behind),
    })
}
