//! The hash value.

ghost use Rattle.std.specs.Prelude.{◌≡◌};
ghost use Rattle.sha256.specs.Sha256.{H0, digest_of, plus};

/// Eight words: a hash value, or the working variables of the rounds.
// Eight fields and no array: these are the standard's letters.
#[derive(Clone, Copy)]
pub(crate) struct State {
    pub(crate) a: u32,
    pub(crate) b: u32,
    pub(crate) c: u32,
    pub(crate) d: u32,
    pub(crate) e: u32,
    pub(crate) f: u32,
    pub(crate) g: u32,
    pub(crate) h: u32,
}

impl State {
    /// The initial hash value.
    // A function and no `Default`: the standard's name says more than "default".
    pub(crate) fn initial() -> State
        ensures { result ≡ H0 }
    {
        State {
            a: 0x6a09e667,
            b: 0xbb67ae85,
            c: 0x3c6ef372,
            d: 0xa54ff53a,
            e: 0x510e527f,
            f: 0x9b05688c,
            g: 0x1f83d9ab,
            h: 0x5be0cd19,
        }
    }

    /// The sum of two hash values, word by word.
    // A method and no `Add`: `+` would hide that the sums wrap.
    pub(crate) fn plus(self, other: State) -> State
        ensures { result ≡ plus self other }
    {
        State {
            a: self.a.wrapping_add(other.a),
            b: self.b.wrapping_add(other.b),
            c: self.c.wrapping_add(other.c),
            d: self.d.wrapping_add(other.d),
            e: self.e.wrapping_add(other.e),
            f: self.f.wrapping_add(other.f),
            g: self.g.wrapping_add(other.g),
            h: self.h.wrapping_add(other.h),
        }
    }

    /// The bytes of the hash value, each word's most significant byte first.
    // A method and no `From`: the name says which bytes, as std's `to_be_bytes`.
    pub(crate) fn to_bytes(self) -> [u8; 32]
        ensures { result ≡ digest_of self }
    {
        let words = [
            self.a, self.b, self.c, self.d, self.e, self.f, self.g, self.h,
        ];
        let bytes = words.map(u32::to_be_bytes);
        let mut out = [0; 32];
        out.copy_from_slice(bytes.as_flattened());
        out
    }
}
