//! The text of an outline's entry: its place, and the kind and the value of its item.

ghost use Rattle.std.specs.Prelude.{◌≡◌, ℕ, ◌<◌, ◌≤◌, true, length, slice_index, Some};
ghost use Rattle.std.specs.List.{flat_map};
ghost use Rattle.cbor.specs.Meaning.{meant};
ghost use Rattle.explain.specs.Shown.{is_plain, character, quoted, item_text, item_line};

use crate::items::Entry;
use cbor::Item;
use lines::hex::Hex;
use std::{fmt, str};

impl fmt::Display for Entry<'_> {
    ghost output = { λ e. Some (item_line e.place e.level (meant e.item)) };

    fn fmt<W: fmt::Write>(&self, f: &mut fmt::Formatter<W>) -> fmt::Result {
        // A count of levels, and no index: there is no item to iterate over.
        for _level in 0..self.level {
            write!(f, "  ")?;
        }
        let place = self.place;
        let shown = Shown(self.item);
        writeln!(f, "@{place} {shown}")
    }
}

/// The kind and the value of an item.
#[derive(Clone, Copy)]
struct Shown<'a>(Item<'a>);

impl fmt::Display for Shown<'_> {
    ghost output = { λ s. Some (item_text (meant s.0)) };

    fn fmt<W: fmt::Write>(&self, f: &mut fmt::Formatter<W>) -> fmt::Result {
        match self.0 {
            Item::Number(n) => write!(f, "number {n}"),
            Item::Negative(n) => {
                let size = u128::from(n) + 1;
                write!(f, "negative -{size}")
            }
            Item::Bytes(bytes) => write!(f, "bytes {}", Hex(bytes)),
            Item::Text(bytes) => write!(f, "text {}", Quoted(bytes)),
            Item::Array(count) => write!(f, "array {count}"),
            Item::Map(pairs) => write!(f, "map {pairs}"),
            Item::False => write!(f, "false"),
            Item::True => write!(f, "true"),
            Item::Null => write!(f, "null"),
        }
    }
}

/// Text in quotes.
#[derive(Clone, Copy)]
struct Quoted<'a>(&'a [u8]);

impl fmt::Display for Quoted<'_> {
    ghost output = { λ q. Some (quoted q.0.now) };

    fn fmt<W: fmt::Write>(&self, f: &mut fmt::Formatter<W>) -> fmt::Result {
        write!(f, "\"")?;
        let mut rest = self.0;
        // Plain bytes by one write, as far as they go: a write for each takes longer.
        while !rest.is_empty() {
            let (plain, behind) = rest.split_at(plain_len(rest));
            let (others, behind) = behind.split_at(others_len(behind));
            f.write_str(str::from_utf8(plain).unwrap())?;
            let others = Characters(others);
            write!(f, "{others}")?;
            rest = behind;
        }
        write!(f, "\"")
    }
}

/// How many bytes at the front are printed as they are.
fn plain_len(bytes: &[u8]) -> usize
    ensures within { result ≤ length bytes.now }
    ensures plain { (i : ℕ) → i < result → is_plain (slice_index bytes.now i) ≡ true }
{
    let first = bytes.iter().position(|b| !is_plain(*b));
    first.unwrap_or(bytes.len())
}

/// How many bytes at the front are shown one by one: the first, and those behind it up to one that is plain.
fn others_len(bytes: &[u8]) -> usize
    ensures within { result ≤ length bytes.now }
    ensures some { 0 < length bytes.now → 0 < result }
{
    let Some((_, behind)) = bytes.split_first() else {
        return 0;
    };
    let more = behind.iter().position(|b| is_plain(*b));
    1 + more.unwrap_or(behind.len())
}

/// Bytes of a text, one by one.
#[derive(Clone, Copy)]
struct Characters<'a>(&'a [u8]);

impl fmt::Display for Characters<'_> {
    ghost output = { λ cs. Some (flat_map character cs.0.now) };

    fn fmt<W: fmt::Write>(&self, f: &mut fmt::Formatter<W>) -> fmt::Result {
        for &byte in self.0 {
            let character = Character(byte);
            write!(f, "{character}")?;
        }
        Ok(())
    }
}

/// A byte of a text, as it is, or by its number if it is not plain.
#[derive(Clone, Copy)]
struct Character(u8);

impl fmt::Display for Character {
    ghost output = { λ c. Some (character c.0) };

    fn fmt<W: fmt::Write>(&self, f: &mut fmt::Formatter<W>) -> fmt::Result {
        let byte = self.0;
        if is_plain(byte) {
            write!(f, "{}", char::from(byte))
        } else {
            write!(f, "\\x{byte:02x}")
        }
    }
}

/// A byte that is printed as it is.
fn is_plain(b: u8) -> bool
    ensures { result ≡ is_plain b }
{
    match b {
        b'"' | b'\\' => false,
        b' '..=b'~' => true,
        _ => false,
    }
}
