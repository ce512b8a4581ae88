//! The step that a line asks for.

ghost use Rattle.std.specs.Prelude.{◌≡◌};
ghost use Rattle.lines.specs.Line.{words, words_of};
ghost use Rattle.bench.specs.Answered.{Answers};
ghost use Rattle.steps.specs.Asked.{asked, meant, store_meant, names, word_of, values_of, blank_of, open_of, remove_of};

use crate::adding::add;
use crate::kinds::kind;
use crate::step::{Step, StoreStep};
use bench::{Named, Wrong, bytes, end, last, next, number};
use lines::{Words, cut};
use std::alloc::Global;

/// The word that a step over a store begins with.
#[derive(Clone, Copy)]
pub enum Name {
    Blank,
    Open,
    Add,
    Remove,
    List,
    Image,
}

/// The step that a line asks for.
pub fn parse(heap: Global, line: &[u8]) -> Result<Step, Wrong>
    ensures answer { Answers meant result (asked (words line.now)) }
{
    let Words { first, rest } = cut(line);
    if let Some(name) = bench::Name::of(first) {
        return Ok(Step::Plain(name.step(heap, rest)?));
    }
    let name = Name::of(first).ok_or(Wrong::Step)?;
    Ok(Step::Store(name.step(heap, rest)?))
}

impl Named for Name {
    ghost spelling = { word_of };

    ghost all = { names };

    fn word(&self) -> &'static [u8] {
        match self {
            Name::Blank => b"blank",
            Name::Open => b"open",
            Name::Add => b"add",
            Name::Remove => b"remove",
            Name::List => b"list",
            Name::Image => b"image",
        }
    }

    fn all() -> &'static [Name] {
        &[
            Name::Blank,
            Name::Open,
            Name::Add,
            Name::Remove,
            Name::List,
            Name::Image,
        ]
    }
}

impl Name {
    /// The step of this name, with its values read from the words that follow it.
    pub fn step(self, heap: Global, rest: Option<&[u8]>) -> Result<StoreStep, Wrong>
        ensures answer { Answers store_meant result (values_of self (words_of rest.entry)) }
    {
        match self {
            Name::Blank => blank(rest),
            Name::Open => open(heap, rest),
            Name::Add => add(heap, rest),
            Name::Remove => remove(rest),
            Name::List => {
                end(rest)?;
                Ok(StoreStep::List)
            }
            Name::Image => {
                end(rest)?;
                Ok(StoreStep::Image)
            }
        }
    }
}

// `rest` goes from step to step of a parser as it is: a struct round one `Option` would only give `words_of` another name.

fn blank(rest: Option<&[u8]>) -> Result<StoreStep, Wrong>
    ensures answer { Answers store_meant result (blank_of (words_of rest.entry)) }
{
    let Words { first, rest } = next(rest)?;
    let text = last(rest)?;
    let kind = kind(first)?;
    let slots = number(text, Wrong::Slots)?;
    Ok(StoreStep::Blank { kind, slots })
}

fn open(heap: Global, rest: Option<&[u8]>) -> Result<StoreStep, Wrong>
    ensures answer { Answers store_meant result (open_of (words_of rest.entry)) }
{
    let Words { first, rest } = next(rest)?;
    let text = last(rest)?;
    let kind = kind(first)?;
    let image = bytes(heap, text)?;
    Ok(StoreStep::Open { kind, image })
}

fn remove(rest: Option<&[u8]>) -> Result<StoreStep, Wrong>
    ensures answer { Answers store_meant result (remove_of (words_of rest.entry)) }
{
    let text = last(rest)?;
    let place = number(text, Wrong::Place)?;
    Ok(StoreStep::Remove(place))
}
