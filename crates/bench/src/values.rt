//! The words of a line, read as values.

ghost use Rattle.std.specs.Prelude.{◌≡◌, vec_items};
ghost use Rattle.lines.specs.Line.{words_of};
ghost use Rattle.bench.specs.Answered.{Answers};
ghost use Rattle.bench.specs.Values.{spelled, byte as byte_of, number as number_of, headed, single, ended, told_words, told_word};

use crate::wrong::Wrong;
use lines::{Words, decimal, hex};
use std::alloc::Global;

/// The next word, where there is one.
pub fn next(rest: Option<&[u8]>) -> Result<Words<'_>, Wrong>
    ensures answer { told_words result ≡ headed (words_of rest.entry) }
{
    lines::next(rest).ok_or(Wrong::Words)
}

/// The next word, where it is the last.
pub fn last(rest: Option<&[u8]>) -> Result<&[u8], Wrong>
    ensures answer { told_word result ≡ single (words_of rest.entry) }
{
    lines::last(rest).ok_or(Wrong::Words)
}

/// Refuses a word that is left.
pub fn end(rest: Option<&[u8]>) -> Result<(), Wrong>
    ensures answer { result ≡ ended (words_of rest.entry) }
{
    match rest {
        Some(_) => Err(Wrong::Words),
        None => Ok(()),
    }
}

/// The bytes that a word spells in hex.
pub fn bytes(heap: Global, word: &[u8]) -> Result<Vec<u8>, Wrong>
    ensures answer { Answers vec_items result (spelled word.now) }
{
    hex::decode(heap, word)?.ok_or(Wrong::Hex)
}

/// The number that a word spells in decimal.
pub fn number(word: &[u8], otherwise: Wrong) -> Result<u64, Wrong>
    ensures answer { result ≡ number_of word.now otherwise }
{
    decimal::number(word, u64::MAX).ok_or(otherwise)
}

/// The byte that a word spells in decimal.
pub fn byte(word: &[u8], otherwise: Wrong) -> Result<u8, Wrong>
    ensures answer { result ≡ byte_of word.now otherwise }
{
    let value = decimal::number(word, 255).ok_or(otherwise)?;
    // The bound makes the cast exact.
    Ok(value as u8)
}
