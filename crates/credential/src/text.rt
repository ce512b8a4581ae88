//! Bytes of a length between two limits.

ghost use Rattle.std.specs.Prelude.{◌≡◌, ◌≤◌, length, is_ok, IfOk};
ghost use Rattle.credential.specs.Rec.{between};
ghost use Rattle.credential.specs.Slot.{field};

use crate::limits::OutsideLimits;
use std::marker::Model;

/// From `MIN` to `MAX` bytes; what lies behind them is zero.
// An array and a length, and no `ArrayVec`: with the zeros in place a slot is written by copies of fixed sizes, twice as fast.
#[derive(Drop)]
pub struct Text<const MIN: usize, const MAX: usize> {
    bytes: [u8; MAX],
    len: usize,
}

impl<const MIN: usize, const MAX: usize> Model for Text<MIN, MAX> {
    ghost use Rattle.std.specs.Prelude.{◌≡◌, ◌-◌, ◌≤◌, ℕ, List, length, take, drop, replicate, true};
    ghost use Rattle.credential.specs.Rec.{between};

    ghost Value = { List ℕ };

    ghost view = { λ t. take t.len t.bytes };

    ghost invariant = { λ t. (length t.bytes ≡ MAX) × (t.len ≤ MAX) × (between MIN MAX t.len ≡ true) × (drop t.len t.bytes ≡ replicate (MAX - t.len) 0) };
}

impl<const MIN: usize, const MAX: usize> TryFrom<&[u8]> for Text<MIN, MAX> {
    type Error = OutsideLimits;

    ghost try_from_gives = { λ text r. (is_ok r ≡ between MIN MAX (length text.now)) × IfOk r (λ t. t ≡ text.now) };

    fn try_from(text: &[u8]) -> Result<Self, OutsideLimits> {
        let len = text.len();
        if len < MIN || len > MAX {
            return Err(OutsideLimits);
        }
        let mut bytes = [0; MAX];
        bytes[..len].copy_from_slice(text);
        Ok(Text { bytes, len })
    }
}

impl<const MIN: usize, const MAX: usize> Text<MIN, MAX> {
    /// The bytes of the text.
    pub(crate) fn as_slice(&self) -> &[u8]
        ensures bytes { result.now ≡ self.now }
        ensures fits { length result.now ≤ MAX }
    {
        &self.bytes[..self.len]
    }

    /// The bytes of the text, and zeros behind them.
    pub(crate) fn padded(&self) -> &[u8; MAX]
        ensures { result.now ≡ field MAX self.now }
    {
        &self.bytes
    }

    /// How many bytes there are.
    pub(crate) fn len(&self) -> usize
        ensures answer { result ≡ length self.now }
        ensures fits { result ≤ MAX }
    {
        self.len
    }
}
