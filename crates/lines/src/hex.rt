//! Bytes as lower-case hex text, with `-` for none.

ghost use Rattle.std.specs.Prelude.{◌≡◌, ◌*◌, ◌%◌, ◌≤◌, length, take, IfSome, IfOk, Some, vec_items, string_bytes};
ghost use Rattle.std.specs.Option.{option_map};
ghost use Rattle.std.specs.Str.{IsAscii};
ghost use Rattle.lines.specs.Hex.{digit, digits, value, encoded, decoded, bytes_line};

use std::alloc::{AllocError, Global};
use std::{fmt, str};

/// How many bytes are shown by one write, and how many digits they have.
const PART: usize = 32;

const DIGITS: usize = 64;

/// Bytes, shown as two hex digits each, the high one first, or as a dash where there are none.
#[derive(Clone, Copy)]
pub struct Hex<'a>(pub &'a [u8]);

impl fmt::Display for Hex<'_> {
    ghost output = { λ h. Some (encoded h.0.now) };

    fn fmt<W: fmt::Write>(&self, f: &mut fmt::Formatter<W>) -> fmt::Result {
        if self.0.is_empty() {
            return write!(f, "-");
        }
        // Part by part: a write for each byte takes several times as long.
        for part in self.0.chunks(PART) {
            let digits = digits_of(part);
            f.write_str(str::from_utf8(&digits[..2 * part.len()]).unwrap())?;
        }
        Ok(())
    }
}

/// The digits of a part, and zeros behind them.
fn digits_of(part: &[u8]) -> [u8; DIGITS]
    requires { length part.now ≤ 32 }
    ensures answer { take (2 * length part.now) result ≡ digits part.now }
    ensures ascii { IsAscii (digits part.now) }
{
    let mut digits = [0; DIGITS];
    // By index: of values that are written through `iter_mut` and `zip`, nothing would be known after.
    for (i, byte) in part.iter().enumerate() {
        digits[2 * i] = digit_of(*byte / 16);
        digits[2 * i + 1] = digit_of(*byte);
    }
    digits
}

/// The digit of the low four bits.
fn digit_of(byte: u8) -> u8
    ensures { result ≡ digit (byte % 16) }
{
    match byte % 16 {
        low @ 0..=9 => b'0' + low,
        low => b'a' + (low - 10),
    }
}

/// The text of `bytes`.
pub fn encode(heap: Global, bytes: &[u8]) -> Result<String, AllocError>
    ensures text { IfOk result (λ s. string_bytes s ≡ encoded bytes.now) }
    ensures back { IfOk result (λ s. decoded (string_bytes s) ≡ Some bytes.now) }
{
    Hex(bytes).to_string(heap)
}

/// The bytes that `text` spells, if it spells any.
pub fn decode(heap: Global, text: &[u8]) -> Result<Option<Vec<u8>>, AllocError>
    ensures answer { IfOk result (λ o. option_map vec_items o ≡ decoded text.now) }
    ensures exact { IfOk result (λ o. IfSome o (λ v. encoded v.items ≡ text.now)) }
{
    let mut bytes = Vec::new(heap);
    if text == b"-".as_slice() {
        return Ok(Some(bytes));
    }
    if text.is_empty() || text.len() % 2 != 0 {
        return Ok(None);
    }
    // By hand, and not by a library of hex, which takes capitals too.
    let (pairs, _) = text.as_chunks::<2>();
    for [high, low] in pairs {
        let Some(high) = value_of(*high) else {
            return Ok(None);
        };
        let Some(low) = value_of(*low) else {
            return Ok(None);
        };
        bytes.push(16 * high + low)?;
    }
    Ok(Some(bytes))
}

/// A line of a name and bytes.
pub fn line(heap: Global, name: &str, bytes: &[u8]) -> Result<String, AllocError>
    ensures text { IfOk result (λ s. string_bytes s ≡ bytes_line name.now bytes.now) }
{
    let bytes = Hex(bytes);
    format!(in heap; "{name}: {bytes}\n")
}

/// What a digit stands for; by hand, since the library's digits of base 16 are capitals too.
fn value_of(digit: u8) -> Option<u8>
    ensures { result ≡ value digit }
{
    match digit {
        b'0'..=b'9' => Some(digit - b'0'),
        b'a'..=b'f' => Some(digit - b'a' + 10),
        _ => None,
    }
}
