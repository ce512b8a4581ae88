//! Whether a message is one canonical item, and where it first breaks a rule.

ghost use Rattle.std.specs.Prelude.{◌≡◌, ◌+◌, ◌<◌, length, [], MatchResult};
ghost use Rattle.std.specs.Option.{option_map};
ghost use Rattle.cbor.specs.Reader.{precedes, may_be_key, key, items, entries, item, checked};
ghost use Rattle.cbor.specs.Fault.{Placed};
ghost use Rattle.cbor.specs.Laws.{Exactly, First};
ghost use Rattle.cbor.specs.Meaning.{meant, told};
ghost use Rattle.cbor.specs.Unread.{told_rest, earlier, major_of, token_told, token_of};

use crate::item::{Fault, Item};
use crate::reading::{Token, place_of, read_token, unread};

/// How many maps and arrays may lie inside one another, the outer one among them.
pub(crate) const LEVELS: u8 = 4;

/// A rule is broken; what is held are the bytes from the first faulty item on.
#[derive(Clone, Copy)]
pub(crate) struct FaultyRest<'a>(&'a [u8]);

/// What encoded map keys are ordered by: major type, then length, then byte order.
fn rank(key: &[u8]) -> (Option<u8>, usize, &[u8])
    ensures major { result.0 ≡ major_of key.now }
    ensures len { result.1 ≡ length key.now }
    ensures bytes { result.2.now ≡ key.now }
{
    (key.first().map(|initial| *initial / 32), key.len(), key)
}

/// Whether a map key comes after the one before it, where there is one.
// `is_none_or` here, and `filter` in `read_key`, are no plainer: their closures would need clauses of their own.
fn comes_after(key: &[u8], before: Option<&[u8]>) -> bool
    requires { 0 < length key.now }
    ensures { result ≡ precedes (earlier before.entry) key.now }
{
    match before {
        None => true,
        // By `cmp`, and no `<`: that asks at each byte whether the two can be compared, and takes half as long again.
        Some(before) => rank(before).cmp(&rank(key)).is_lt(),
    }
}

/// A map key is a number, a negative number or a string.
fn may_be_key(key: &Item) -> bool
    ensures { result ≡ may_be_key (meant key.now) }
{
    matches!(
        key,
        Item::Number(_) | Item::Negative(_) | Item::Bytes(_) | Item::Text(_)
    )
}

/// The key that the bytes begin with, if it may be one and comes after the one before it.
#[tactic(auto, unfolding(crate::specs::Reader::key, crate::specs::Steps::given))]
fn read_key<'a>(bytes: &'a [u8], before: Option<&[u8]>) -> Option<Token<'a>>
    ensures { option_map token_told result ≡ option_map (token_of bytes.now) (key (earlier before.entry) bytes.now) }
{
    let key = read_token(bytes)?;
    if may_be_key(&key.item) && comes_after(key.spelled, before) {
        Some(key)
    } else {
        None
    }
}

/// One item with all that lies inside it, where so many levels of maps and arrays are left.
#[cycle(check_entries_check_item_check_items)]
#[tactic(auto, unfolding(crate::specs::Reader::item, crate::specs::Reader::inside, crate::specs::Steps::or_fail))]
pub(crate) fn check_item(bytes: &[u8], levels: u8) -> Result<&[u8], FaultyRest<'_>>
    ensures { told_rest result ≡ item levels bytes.now }
{
    let Token { item, behind, .. } = read_token(bytes).ok_or(FaultyRest(bytes))?;
    match item {
        Item::Array(count) => check_items(behind, count, deeper(levels, bytes)?),
        Item::Map(count) => check_entries(behind, count, deeper(levels, bytes)?),
        _ => Ok(behind),
    }
}

/// One level less for what lies inside the map or array that the bytes begin with, which is a fault where no level is left.
fn deeper(levels: u8, bytes: &[u8]) -> Result<u8, FaultyRest<'_>>
    ensures { MatchResult result (λ less. less + 1 ≡ levels) (λ broken. (levels ≡ 0) × (broken.0.now ≡ bytes.now)) }
{
    levels.checked_sub(1).ok_or(FaultyRest(bytes))
}

/// So many items in a row.
// The loop counts items, and no index. `try_fold` is no plainer: in a cycle of calls its closure needs clauses of its own.
#[cycle(check_entries_check_item_check_items)]
#[tactic(auto, unfolding(crate::specs::Reader::items, crate::specs::Steps::and_then))]
fn check_items(start: &[u8], count: u64, levels: u8) -> Result<&[u8], FaultyRest<'_>>
    ensures { told_rest result ≡ items (item levels) count start.now }
{
    let mut rest = start;
    for _i in 0..count {
        rest = check_item(rest, levels)?;
    }
    Ok(rest)
}

/// So many keys in ascending order, each with its value.
// A loop, as in `check_items` and for the same reason.
#[cycle(check_entries_check_item_check_items)]
#[tactic(auto, unfolding(crate::specs::Reader::entries, crate::specs::Steps::and_then, crate::specs::Steps::or_fail))]
fn check_entries(start: &[u8], count: u64, levels: u8) -> Result<&[u8], FaultyRest<'_>>
    ensures { told_rest result ≡ entries (item levels) [] count start.now }
{
    let mut rest = start;
    let mut before = None;
    for _i in 0..count {
        let Token {
            spelled,
            behind,
            ..
        } = read_key(rest, before).ok_or(FaultyRest(rest))?;
        before = Some(spelled);
        rest = check_item(behind, levels)?;
    }
    Ok(rest)
}

/// Whether the message from `start` on is exactly one canonical item: its end, or where it first breaks a rule.
#[tactic(auto, unfolding(crate::specs::Reader::checked, crate::specs::Reader::whole, crate::specs::Reader::placed, crate::specs::Reader::ended, crate::specs::Steps::and_then))]
pub fn check(message: &[u8], start: usize) -> Result<usize, Fault>
    ensures answer { told result ≡ checked message.now start }
    ensures exactly { Exactly message.now start }
    ensures first { First message.now start }
    ensures place { Placed message.now start }
{
    match check_item(unread(message, start), LEVELS) {
        Ok([]) => Ok(message.len()),
        // Two arms: with `|` the bound that `place_of` asks for is reached only by a name that is the prover's own.
        Ok(surplus) => Err(Fault {
            place: place_of(message, surplus),
        }),
        Err(FaultyRest(rest)) => Err(Fault {
            place: place_of(message, rest),
        }),
    }
}
