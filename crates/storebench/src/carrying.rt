//! The steps over the store that is open: what each does and prints.
// `heap` stays a parameter of its own: a struct of `heap` and `held` would keep an allocator between calls.
// `state_of held` stands in each contract: the state is what these calls are about.

ghost use Rattle.std.specs.Prelude.{◌≡◌, ◌⊎◌, IfOk, string_bytes, OnOk};
ghost use Rattle.image.specs.Opening.{listing};
ghost use Rattle.bench.specs.Answered.{Answers};
ghost use Rattle.steps.specs.Asked.{whole};
ghost use Rattle.storebench.specs.State.{state_of, blank_image, after_open, after_add, after_remove};
ghost use Rattle.storebench.specs.Said.{filled, fills};
ghost use Rattle.storebench.specs.Printed.{open_text, add_text, remove_text, listed, image_text};

use crate::fill::Fill;
use crate::held::Held;
use crate::text::{add_line, open_line, remove_line};
use bench::Wrong;
use credential::SLOT;
use image::{Kind, MOST, Refusal};
use lines::hex;
use std::alloc::{AllocError, Global};
use steps::Parts;

/// One slot more than any store has.
const TOO_MANY: u64 = MOST as u64 + 1;

/// Opens an image; where it is refused, the store that was open stays.
#[tactic(auto, unfolding(crate::specs::Printed::open_text))]
pub fn open(
    heap: Global,
    held: &mut Option<Held>,
    kind: Kind,
    image: Vec<u8>,
) -> Result<String, AllocError>
    ensures text { IfOk result (λ s. string_bytes s ≡ open_text kind image.items) }
    ensures state { state_of held.new ≡ after_open kind image.items (state_of held.old) }
{
    let opening = reopen(held, kind, image);
    open_line(heap, opening)
}

/// Opens an image; where it is refused, the store that was open stays.
#[tactic(auto, unfolding(crate::specs::State::after_open))]
fn reopen(held: &mut Option<Held>, kind: Kind, image: Vec<u8>) -> Result<Fill, Refusal>
    ensures answer { filled result ≡ fills kind image.items (listing kind image.items) }
    ensures state { state_of held.new ≡ after_open kind image.items (state_of held.old) }
{
    let store = Held::open(kind, image).map_err(|refused| refused.why)?;
    let fill = store.fill();
    *held = Some(store);
    Ok(fill)
}

/// Opens an image of so many free slots.
pub fn blank(
    heap: Global,
    held: &mut Option<Held>,
    kind: Kind,
    slots: u64,
) -> Result<String, AllocError>
    ensures text { IfOk result (λ s. string_bytes s ≡ open_text kind (blank_image slots)) }
    ensures state { OnOk result (state_of held.new ≡ after_open kind (blank_image slots) (state_of held.old)) }
    ensures either { (state_of held.new ≡ state_of held.old) ⊎ (state_of held.new ≡ after_open kind (blank_image slots) (state_of held.old)) }
{
    // More slots are refused as one too many is, and take no memory.
    let slots = slots.min(TOO_MANY) as usize;
    let image = vec![in heap; 0; SLOT * slots]?;
    open(heap, held, kind, image)
}

/// Adds the record of these parts.
#[tactic(auto, unfolding(crate::specs::Said::add_answer, crate::specs::State::after_add))]
pub fn add(heap: Global, held: &mut Option<Held>, parts: &Parts) -> Result<String, Wrong>
    ensures text { Answers string_bytes result (add_text (state_of held.old) (whole parts.now)) }
    ensures state { state_of held.new ≡ after_add (state_of held.old) (whole parts.now) }
{
    let store = held.as_mut().ok_or(Wrong::NoStore)?;
    let added = store.add(parts);
    Ok(add_line(heap, added)?)
}

/// Removes the record at a place.
#[tactic(auto, unfolding(crate::specs::Said::remove_answer, crate::specs::State::after_remove))]
pub fn remove(heap: Global, held: &mut Option<Held>, place: u64) -> Result<String, Wrong>
    ensures text { Answers string_bytes result (remove_text (state_of held.old) place) }
    ensures state { state_of held.new ≡ after_remove (state_of held.old) place }
{
    let store = held.as_mut().ok_or(Wrong::NoStore)?;
    let removed = store.remove(place as usize);
    Ok(remove_line(heap, removed)?)
}

/// The records of the store that is open.
#[tactic(auto, unfolding(crate::specs::Printed::listed))]
pub fn list(heap: Global, held: &Option<Held>) -> Result<String, Wrong>
    ensures text { Answers string_bytes result (listed (state_of held.now)) }
{
    let store = held.as_ref().ok_or(Wrong::NoStore)?;
    Ok(store.text(heap)?)
}

/// The image of the store that is open.
#[tactic(auto, unfolding(crate::specs::Printed::image_text))]
pub fn image(heap: Global, held: &Option<Held>) -> Result<String, Wrong>
    ensures text { Answers string_bytes result (image_text (state_of held.now)) }
{
    let store = held.as_ref().ok_or(Wrong::NoStore)?;
    Ok(hex::line(heap, "image", store.bytes())?)
}
