//! How the slots of the listed records are found.

ghost use Rattle.std.specs.Prelude.{◌≡◌, ◌<◌, [], length};
ghost use Rattle.credential.specs.Model.{told};
ghost use Rattle.image.specs.Cut.{cells};
ghost use Rattle.logstore.specs.Places.{seen, places_from};

use arrayvec::ArrayVec;
use credential::Slot;
use image::{Image, MOST};

/// The slots of the records that an image lists, one for each.
pub(crate) fn places(image: &Image) -> ArrayVec<usize, MOST>
    ensures { result.items ≡ places_from 0 [] (cells image.now) }
{
    let mut places = ArrayVec::new();
    for (k, slot) in image.slots().enumerate() {
        follow(&mut places, k, Slot::from_bytes(slot));
    }
    places
}

/// What slot `k` does to the list, by what it was read as.
fn follow(places: &mut ArrayVec<usize, MOST>, k: usize, slot: Option<Slot>)
    requires { length places.old.items < 64 }
    ensures { places.new.items ≡ seen k places.old.items (told slot) }
{
    match slot {
        Some(Slot::Record(_)) => places.push(k),
        Some(Slot::Withdrawal(place)) => {
            places.pop_at(usize::from(place));
        }
        Some(Slot::Free) | None => {}
    }
}
