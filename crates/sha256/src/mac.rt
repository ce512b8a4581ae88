//! HMAC-SHA-256, and the tag that is made of it.

ghost use Rattle.std.specs.Prelude.{◌≡◌, ◌≤◌, ◌∷◌, ◌++◌, length, replicate, IfOk, Decides};
ghost use Rattle.sha256.specs.Sha256.{sha256};
ghost use Rattle.sha256.specs.Hmac.{B, OkAtBlock, ZeroedOnOk, agreed, filled, hmac, shortened, tag, xor};

use crate::bytes::same;
use crate::compression::BLOCK;
use crate::hasher::{Hasher, digest};

/// The byte of the inner pad.
const INNER: u8 = 0x36;

/// The byte of the outer pad.
const OUTER: u8 = 0x5c;

/// The refusal: the work place does not have 64 bytes.
#[derive(Clone, Copy, PartialEq, Eq, Debug)]
pub struct WorkSize;

/// The HMAC-SHA-256 of `first` and then `rest` under a key. The work place holds the key's pads meanwhile, and zeros after.
// `first` and `rest` are two parameters, here and in the functions below: a caller has the two parts apart.
// `size` and `work` stand in three contracts: a `&mut [u8; 64]` has them in its type, and would ask more of callers.
pub fn hmac(key: &[u8], first: &[u8], rest: &[u8], work: &mut [u8]) -> Result<[u8; 32], WorkSize>
    ensures answer { IfOk result (λ d. d ≡ hmac key.now (first.now ++ rest.now)) }
    ensures size { OkAtBlock result work.old }
    ensures work { ZeroedOnOk result work.old work.new }
{
    let pad = work.as_mut_array::<BLOCK>().ok_or(WorkSize)?;
    Ok(hmac_with_pad(key, first, rest, pad))
}

/// The first 16 bytes of the HMAC of `first` and then `rest`.
pub fn tag(token: &[u8], first: u8, rest: &[u8], work: &mut [u8]) -> Result<[u8; 16], WorkSize>
    ensures answer { IfOk result (λ t. t ≡ tag token.now (first ∷ rest.now)) }
    ensures size { OkAtBlock result work.old }
    ensures work { ZeroedOnOk result work.old work.new }
{
    let whole = hmac(token, &[first], rest, work)?;
    Ok(*whole.first_chunk().unwrap())
}

/// Whether `given` is exactly the tag of `first` and then `rest`. Another length is a mismatch.
pub fn agrees(
    token: &[u8],
    first: u8,
    rest: &[u8],
    given: &[u8],
    work: &mut [u8],
) -> Result<bool, WorkSize>
    ensures answer { IfOk result (λ b. b ≡ agreed token.now (first ∷ rest.now) given.now) }
    ensures exactly { IfOk result (λ b. Decides b (given.now ≡ tag token.now (first ∷ rest.now))) }
    ensures size { OkAtBlock result work.old }
    ensures work { ZeroedOnOk result work.old work.new }
{
    let expected = tag(token, first, rest, work)?;
    Ok(same(&expected, given))
}

/// Owns the work place while it holds a key's pad, and clears it at its end.
struct PadGuard<'a>(&'a mut [u8; BLOCK]);

impl Drop for PadGuard<'_> {
    fn drop(self)
        ensures { self.exit.0.now ≡ replicate B 0 }
    {
        self.0.fill(0);
        let PadGuard(_) = self;
    }
}

/// The HMAC, with the key's pads in a place that holds zeros after.
fn hmac_with_pad(key: &[u8], first: &[u8], rest: &[u8], pad: &mut [u8; BLOCK]) -> [u8; 32]
    ensures answer { result ≡ hmac key.now (first.now ++ rest.now) }
    ensures cleared { pad.new ≡ replicate B 0 }
{
    let guard = PadGuard(pad);
    copy_key(key, guard.0);
    xor_each(guard.0, INNER);
    let inner = digest_parts(guard.0, first, rest);
    xor_each(guard.0, INNER ^ OUTER);
    digest_parts(guard.0, &inner, &[])
}

/// Copies a key into the pad: its digest where it is longer than a block, and zeros after it.
fn copy_key(key: &[u8], pad: &mut [u8; BLOCK])
    ensures { pad.new ≡ filled (shortened key.now) }
{
    if key.len() > BLOCK {
        copy_and_fill(&digest(key), pad);
    } else {
        copy_and_fill(key, pad);
    }
}

/// Copies bytes into the pad, and zeros after them.
fn copy_and_fill(bytes: &[u8], pad: &mut [u8; BLOCK])
    requires { length bytes.now ≤ B }
    ensures { pad.new ≡ filled bytes.now }
{
    pad.fill(0);
    pad[0..bytes.len()].copy_from_slice(bytes);
}

/// Combines each byte of the pad with a byte by exclusive or.
fn xor_each(pad: &mut [u8; BLOCK], by: u8)
    ensures { pad.new ≡ xor by pad.old }
{
    for x in pad.iter_mut() {
        *x ^= by;
    }
}

/// The digest of a pad, and then two parts.
fn digest_parts(pad: &[u8], first: &[u8], rest: &[u8]) -> [u8; 32]
    ensures { result ≡ sha256 (pad.now ++ (first.now ++ rest.now)) }
{
    let mut hasher = Hasher::new();
    hasher.update(pad);
    hasher.update(first);
    hasher.update(rest);
    hasher.finish()
}
