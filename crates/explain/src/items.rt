//! The items of a message up to a place, in the order they lie, with the level of each.

ghost use Rattle.std.specs.Prelude.{◌≡◌, min, reverse, length, IfOk, OnOk};
ghost use Rattle.cbor.specs.Meaning.{meant};
ghost use Rattle.explain.specs.Outlined.{Outlined, Chained, entered, held};

use cbor::{Item, Part, read};
use std::alloc::{AllocError, Global};

const MAX_LEVELS: usize = 4;

/// An item, where it lies, and how many containers it lies in.
#[derive(Clone, Copy)]
pub struct Entry<'a> {
    pub place: usize,
    pub level: usize,
    pub item: Item<'a>,
}

/// The items of `message` that lie before `stop`, from the one after the command byte.
pub fn outline(heap: Global, message: &[u8], stop: usize) -> Result<Vec<Entry<'_>>, AllocError>
    ensures listed { IfOk result (λ v. Outlined v.items (min stop (length message.now))) }
    ensures chained { IfOk result (λ v. Chained message.now v.items (min stop (length message.now))) }
{
    let stop = stop.min(message.len());
    let mut entries = Vec::new(heap);
    // How many items each open container still awaits, the innermost last.
    let mut awaited = Vec::new(heap);
    let mut at = 1;
    // A loop with a test: where the next item begins is known when this one is read.
    while at < stop && awaited.len() <= MAX_LEVELS {
        let Ok(Part { item, end, .. }) = read(message, at) else {
            break;
        };
        let level = awaited.len();
        entries.push(Entry {
            place: at,
            level,
            item,
        })?;
        enter(&mut awaited, held_by(&item))?;
        at = end;
    }
    Ok(entries)
}

/// How many items an item holds: a map holds keys and values.
fn held_by(item: &Item) -> u128
    ensures { result ≡ held (meant item.now) }
{
    match item {
        Item::Array(count) => u128::from(*count),
        Item::Map(pairs) => 2 * u128::from(*pairs),
        _ => 0,
    }
}

/// An item that holds `inside` items has been read.
fn enter(awaited: &mut Vec<u128>, inside: u128) -> Result<(), AllocError>
    ensures after { OnOk result (reverse awaited.new.items ≡ entered inside (reverse awaited.old.items)) }
{
    if inside > 0 {
        awaited.push(inside)?;
        return Ok(());
    }
    while let Some(count) = awaited.pop() {
        if count > 1 {
            awaited.push(count - 1)?;
            break;
        }
    }
    Ok(())
}
