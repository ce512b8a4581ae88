//! The words of `add`, read as the parts of a record.

ghost use Rattle.std.specs.Prelude.{◌≡◌};
ghost use Rattle.lines.specs.Line.{words_of};
ghost use Rattle.bench.specs.Answered.{Answers};
ghost use Rattle.steps.specs.Asked.{store_meant, whole, add_of};
ghost use Rattle.steps.specs.Eight.{eight, recorded, told_eight, eight_of};

use crate::step::{Parts, StoreStep};
use bench::{Wrong, byte, bytes, last, next};
use lines::Words;
use std::alloc::Global;

/// A word for each part of a record.
#[derive(Clone, Copy)]
struct PartWords<'a> {
    protect: &'a [u8],
    rp_id: &'a [u8],
    user_id: &'a [u8],
    name: &'a [u8],
    display_name: &'a [u8],
    credential_id: &'a [u8],
    x: &'a [u8],
    y: &'a [u8],
}

pub(crate) fn add(heap: Global, rest: Option<&[u8]>) -> Result<StoreStep, Wrong>
    ensures answer { Answers store_meant result (add_of (words_of rest.entry)) }
{
    let words = part_words(rest)?;
    Ok(StoreStep::Add(parts(heap, words)?))
}

/// The next eight words, where they are the last.
#[tactic(auto, unfolding(crate::specs::Eight::eight))]
fn part_words(rest: Option<&[u8]>) -> Result<PartWords<'_>, Wrong>
    ensures answer { told_eight result ≡ eight (words_of rest.entry) }
{
    let Words {
        first: protect,
        rest,
    } = next(rest)?;
    let Words { first: rp_id, rest } = next(rest)?;
    let Words {
        first: user_id,
        rest,
    } = next(rest)?;
    let Words { first: name, rest } = next(rest)?;
    let Words {
        first: display_name,
        rest,
    } = next(rest)?;
    let Words {
        first: credential_id,
        rest,
    } = next(rest)?;
    let Words { first: x, rest } = next(rest)?;
    let y = last(rest)?;
    Ok(PartWords {
        protect,
        rp_id,
        user_id,
        name,
        display_name,
        credential_id,
        x,
        y,
    })
}

/// The parts that words spell.
#[tactic(auto, unfolding(crate::specs::Eight::recorded))]
fn parts(heap: Global, words: PartWords<'_>) -> Result<Parts, Wrong>
    ensures answer { Answers whole result (recorded (eight_of words.entry)) }
{
    Ok(Parts {
        protect: byte(words.protect, Wrong::Protect)?,
        rp_id: bytes(heap, words.rp_id)?,
        user_id: bytes(heap, words.user_id)?,
        name: bytes(heap, words.name)?,
        display_name: bytes(heap, words.display_name)?,
        credential_id: bytes(heap, words.credential_id)?,
        x: bytes(heap, words.x)?,
        y: bytes(heap, words.y)?,
    })
}
