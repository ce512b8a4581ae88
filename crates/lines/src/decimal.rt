//! Decimal numbers.

ghost use Rattle.std.specs.Prelude.{◌≡◌, ◌≤◌, IfSome};
ghost use Rattle.lines.specs.Decimal.{numbered};

/// The number that `text` spells, where it is at most `largest`.
pub fn number(text: &[u8], largest: u64) -> Option<u64>
    ensures answer { result ≡ numbered largest text.now }
    ensures within { IfSome result (λ n. n ≤ largest) }
{
    if text.is_empty() {
        return None;
    }
    let mut total: u64 = 0;
    // By hand, and not by `parse`, which takes a `+` in front of the digits.
    for c in text {
        if !c.is_ascii_digit() {
            return None;
        }
        total = total.checked_mul(10)?.checked_add(u64::from(*c - b'0'))?;
        if total > largest {
            return None;
        }
    }
    Some(total)
}
