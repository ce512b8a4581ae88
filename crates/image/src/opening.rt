//! Opening an image.

ghost use Rattle.std.specs.Prelude.{◌≡◌, length, drop};
ghost use Rattle.credential.specs.Slot.{content_of, free};
ghost use Rattle.image.specs.Cut.{cells};
ghost use Rattle.image.specs.Kinds.{room};
ghost use Rattle.image.specs.Opening.{opened, entries, unused, at_slot, counts, code, place_of};
ghost use Rattle.image.specs.Laws.{Exactly, First};
ghost use Rattle.image.specs.Scan.{told, held, tallied, verdict_of, first_used};

use crate::image::Image;
use crate::kind::Kind;
use credential::{SLOT, Slot};
use sha256::same;

/// Why an image is refused.
#[derive(Clone, Copy, Debug, PartialEq, Eq)]
pub enum Refusal {
    /// Its size fits no store of the kind.
    Size,
    /// The first slot that breaks a rule.
    Slot(usize),
}

// Numbers: docs/STATUS.md fixes both, and 0 for no place.
impl Refusal {
    /// The status number of the refusal.
    pub fn status(&self) -> u8
        ensures answer { result ≡ code self.now }
    {
        match self {
            Refusal::Size => 0xf2,
            Refusal::Slot(_) => 0xf3,
        }
    }

    /// The number of the bad slot, 0 for the size.
    pub fn place(&self) -> usize
        ensures answer { result ≡ place_of self.now }
    {
        match self {
            Refusal::Size => 0,
            Refusal::Slot(k) => *k,
        }
    }
}

/// A refused image: its bytes, given back, and why.
#[derive(Drop)]
pub struct Refused {
    pub bytes: Vec<u8>,
    pub why: Refusal,
}

/// How many slots are used, from the first on, and how many records they list.
#[derive(Clone, Copy, Debug, PartialEq, Eq)]
pub struct Counts {
    pub used: usize,
    pub listed: usize,
}

/// An accepted image, and its counts.
#[derive(Drop)]
pub struct Opened {
    pub image: Image,
    pub counts: Counts,
}

/// Opens an image as a store of a kind. Nothing is written.
#[tactic(auto, using(crate::proofs::Accepted::exactly, crate::proofs::Prefixes::first))]
pub fn open(kind: Kind, bytes: Vec<u8>) -> Result<Opened, Refused>
    ensures answer { told result ≡ counts (opened kind bytes.items) }
    ensures image { held result ≡ bytes }
    ensures exactly { Exactly kind bytes.items }
    ensures first { First kind bytes.items }
{
    if !kind.fits(&bytes) {
        return Err(Refused {
            bytes,
            why: Refusal::Size,
        });
    }
    let image = Image { bytes };
    match scan(kind, &image) {
        Ok(counts) => Ok(Opened { image, counts }),
        Err(why) => Err(Refused {
            bytes: image.into_bytes(),
            why,
        }),
    }
}

/// The counts of an image, or the first slot that breaks a rule.
fn scan(kind: Kind, image: &Image) -> Result<Counts, Refusal>
    ensures { tallied result ≡ counts (at_slot (entries kind (room kind (length (cells image.now))) 0 0 (cells image.now))) }
{
    let capacity = kind.capacity(image.len());
    let mut listed = 0;
    for (k, slot) in image.slots().enumerate() {
        match judge(kind, capacity, listed, k, slot)? {
            Some(next) => listed = next,
            None => {
                if let Some(bad) = first_used(image, k + 1) {
                    return Err(Refusal::Slot(bad));
                }
                return Ok(Counts { used: k, listed });
            }
        }
    }
    Ok(Counts {
        used: image.len(),
        listed,
    })
}

/// What slot `k` is where so many records are listed before it: refused where it breaks a rule,
/// nothing where it is free, and otherwise how many records are listed after it.
// Five parameters: three of them change with each slot, so a struct of them would be made anew at every call.
fn judge(
    kind: Kind,
    capacity: usize,
    listed: usize,
    k: usize,
    slot: &[u8],
) -> Result<Option<usize>, Refusal>
    ensures { result ≡ verdict_of kind capacity listed k (content_of slot.now) }
{
    match Slot::from_bytes(slot) {
        Some(Slot::Free) => Ok(None),
        Some(Slot::Record(_)) if listed < capacity => Ok(Some(listed + 1)),
        Some(Slot::Withdrawal(place)) if kind == Kind::Log && usize::from(place) < listed => {
            Ok(Some(listed - 1))
        }
        _ => Err(Refusal::Slot(k)),
    }
}

/// The first slot from a number on that is not free.
fn first_used(image: &Image, from: usize) -> Option<usize>
    ensures { first_used result ≡ unused from (drop from (cells image.now)) }
{
    let behind = image
        .slots()
        .skip(from)
        .position(|slot| !same(slot, &[0; SLOT]))?;
    Some(from + behind)
}
