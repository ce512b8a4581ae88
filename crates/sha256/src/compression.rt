//! The compression of one block into the hash value.

ghost use Rattle.std.specs.Prelude.{◌≡◌};
ghost use Rattle.sha256.specs.Sha256.{compress, round, rounds, schedule};

use crate::constants::ROUND_CONSTANTS;
use crate::state::State;
use crate::words::{big_sigma, choose, majority, small_sigma};

/// The byte length of a block.
pub(crate) const BLOCK: usize = 64;

/// The hash value after one more block.
pub(crate) fn compress_block(state: State, block: &[u8; BLOCK]) -> State
    ensures { result ≡ compress state block.now }
{
    let words = message_schedule(block);
    let v = all_rounds(state, &ROUND_CONSTANTS, &words);
    v.plus(state)
}

/// The message schedule of a block.
fn message_schedule(block: &[u8; BLOCK]) -> [u32; 64]
    ensures { result ≡ schedule block.now }
{
    let mut w = [0; 64];
    let (chunks, _) = block.as_chunks::<4>();
    // By `enumerate`: of values that are written through `w.iter_mut().zip(..)`, nothing would be known after.
    for (t, bytes) in chunks.iter().enumerate() {
        w[t] = u32::from_be_bytes(*bytes);
    }
    // By index: a word follows from four earlier words of the array that it is written to.
    for t in 16..64 {
        w[t] = small_sigma::<17, 19, 10>(w[t - 2])
            .wrapping_add(w[t - 7])
            .wrapping_add(small_sigma::<7, 18, 3>(w[t - 15]))
            .wrapping_add(w[t - 16]);
    }
    w
}

/// A round for each constant and word.
fn all_rounds(state: State, constants: &[u32; 64], words: &[u32; 64]) -> State
    ensures { result ≡ rounds constants.now words.now state }
{
    constants
        .iter()
        .zip(words)
        .fold(state, |v, (k, w)| one_round(v, *k, *w))
}

/// One round on the working variables.
fn one_round(v: State, k: u32, w: u32) -> State
    ensures { result ≡ round k w v }
{
    let t1 = v
        .h
        .wrapping_add(big_sigma::<6, 11, 25>(v.e))
        .wrapping_add(choose(v.e, v.f, v.g))
        .wrapping_add(k)
        .wrapping_add(w);
    let t2 = big_sigma::<2, 13, 22>(v.a).wrapping_add(majority(v.a, v.b, v.c));
    State {
        a: t1.wrapping_add(t2),
        b: v.a,
        c: v.b,
        d: v.c,
        e: v.d.wrapping_add(t1),
        f: v.e,
        g: v.f,
        h: v.g,
    }
}
