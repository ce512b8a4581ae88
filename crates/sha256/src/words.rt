//! The functions on 32-bit words.

ghost use Rattle.std.specs.Prelude.{◌≡◌, ◌<◌};
ghost use Rattle.sha256.specs.Sha256.{Ch, Maj, ROTR, SHR, ◌⊕◌};

/// Chooses the bits of `y` where `x` is set, and those of `z` elsewhere.
pub(crate) fn choose(x: u32, y: u32, z: u32) -> u32
    ensures { result ≡ Ch x y z }
{
    (x & y) ^ (!x & z)
}

/// The bits that most of the three words have.
pub(crate) fn majority(x: u32, y: u32, z: u32) -> u32
    ensures { result ≡ Maj x y z }
{
    (x & y) ^ (x & z) ^ (y & z)
}

/// Σ of the rounds: three rotations.
#[tactic(auto, using(crate::proofs::Rotations::rotated))]
pub(crate) fn big_sigma<const A: u32, const B: u32, const C: u32>(x: u32) -> u32
    requires a_fits { A < 32 }
    requires b_fits { B < 32 }
    requires c_fits { C < 32 }
    ensures { result ≡ ROTR A x ⊕ ROTR B x ⊕ ROTR C x }
{
    x.rotate_right(A) ^ x.rotate_right(B) ^ x.rotate_right(C)
}

/// σ of the schedule: two rotations and a shift.
#[tactic(auto, using(crate::proofs::Rotations::rotated))]
pub(crate) fn small_sigma<const A: u32, const B: u32, const C: u32>(x: u32) -> u32
    requires a_fits { A < 32 }
    requires b_fits { B < 32 }
    requires c_fits { C < 32 }
    ensures { result ≡ ROTR A x ⊕ ROTR B x ⊕ SHR C x }
{
    x.rotate_right(A) ^ x.rotate_right(B) ^ (x >> C)
}
