//! The words of the kinds of store.

ghost use Rattle.std.specs.Prelude.{◌≡◌};
ghost use Rattle.steps.specs.Kinds.{kinded};

use bench::Wrong;
use image::Kind;

/// The kind of store that a word names.
pub(crate) fn kind(word: &[u8]) -> Result<Kind, Wrong>
    ensures answer { result ≡ kinded word.now }
{
    // Not a `match` on the word, whose proof has a case for each byte that may differ, and no `Named`: it and `Kind` are
    // both of other crates, so that it cannot be written for `Kind` here.
    if word == b"table".as_slice() {
        Ok(Kind::Table)
    } else if word == b"log".as_slice() {
        Ok(Kind::Log)
    } else {
        Err(Wrong::Kind)
    }
}
