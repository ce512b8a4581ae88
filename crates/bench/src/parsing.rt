//! The step that a line asks for.

ghost use Rattle.std.specs.Prelude.{◌≡◌, vec_items};
ghost use Rattle.lines.specs.Line.{words, words_of};
ghost use Rattle.bench.specs.Answered.{Answers};
ghost use Rattle.bench.specs.Asked.{asked, meant, names, word_of, values_of, bytes_of, hmac_of, tag_of};

use crate::naming::Named;
use crate::step::Step;
use crate::values::{byte, bytes, end, last, next};
use crate::wrong::Wrong;
use lines::{Words, cut};
use std::alloc::Global;

/// The word that a step begins with.
#[derive(Clone, Copy)]
pub enum Name {
    Digest,
    Hmac,
    Tag,
    Read,
    Explain,
    Help,
}

/// The step that a line asks for.
pub fn parse(heap: Global, line: &[u8]) -> Result<Step, Wrong>
    ensures answer { Answers meant result (asked (words line.now)) }
{
    let Words { first, rest } = cut(line);
    Name::of(first).ok_or(Wrong::Step)?.step(heap, rest)
}

impl Named for Name {
    ghost spelling = { word_of };

    ghost all = { names };

    fn word(&self) -> &'static [u8] {
        match self {
            Name::Digest => b"digest",
            Name::Hmac => b"hmac",
            Name::Tag => b"tag",
            Name::Read => b"read",
            Name::Explain => b"explain",
            Name::Help => b"help",
        }
    }

    fn all() -> &'static [Name] {
        &[
            Name::Digest,
            Name::Hmac,
            Name::Tag,
            Name::Read,
            Name::Explain,
            Name::Help,
        ]
    }
}

impl Name {
    /// The step of this name, with its values read from the words that follow it.
    pub fn step(self, heap: Global, rest: Option<&[u8]>) -> Result<Step, Wrong>
        ensures answer { Answers meant result (values_of self (words_of rest.entry)) }
    {
        match self {
            Name::Digest => Ok(Step::Digest(only(heap, rest)?)),
            Name::Hmac => hmac(heap, rest),
            Name::Tag => tag(heap, rest),
            Name::Read => Ok(Step::Read(only(heap, rest)?)),
            Name::Explain => Ok(Step::Explain(only(heap, rest)?)),
            Name::Help => {
                end(rest)?;
                Ok(Step::Help)
            }
        }
    }
}

// `rest` goes from step to step of a parser as it is: a struct round one `Option` would only give `words_of` another name.

/// The bytes of the one word that is left.
fn only(heap: Global, rest: Option<&[u8]>) -> Result<Vec<u8>, Wrong>
    ensures answer { Answers vec_items result (bytes_of (words_of rest.entry)) }
{
    let text = last(rest)?;
    bytes(heap, text)
}

fn hmac(heap: Global, rest: Option<&[u8]>) -> Result<Step, Wrong>
    ensures answer { Answers meant result (hmac_of (words_of rest.entry)) }
{
    let Words { first, rest } = next(rest)?;
    let text = last(rest)?;
    let key = bytes(heap, first)?;
    let message = bytes(heap, text)?;
    Ok(Step::Hmac { key, message })
}

fn tag(heap: Global, rest: Option<&[u8]>) -> Result<Step, Wrong>
    ensures answer { Answers meant result (tag_of (words_of rest.entry)) }
{
    let Words { first, rest } = next(rest)?;
    let Words {
        first: number,
        rest,
    } = next(rest)?;
    let text = last(rest)?;
    let token = bytes(heap, first)?;
    let sub = byte(number, Wrong::Sub)?;
    let params = bytes(heap, text)?;
    Ok(Step::Tag { token, sub, params })
}
