//! The comparison of byte strings that looks at every byte.

ghost use Rattle.std.specs.Prelude.{◌≡◌, Decides};
ghost use Rattle.std.specs.Str.{bytes_eq};

/// Whether two byte strings are equal. It looks at every byte of strings of one length, whatever it finds.
pub fn same(a: &[u8], b: &[u8]) -> bool
    ensures answer { result ≡ bytes_eq a.now b.now }
    ensures exactly { Decides result (a.now ≡ b.now) }
{
    if a.len() != b.len() {
        return false;
    }
    // No `==`: it may stop at the first difference.
    let difference = a.iter().zip(b).fold(0, |so_far, (x, y)| so_far | (x ^ y));
    difference == 0
}
