//! A store over an image: how it is opened, seen and given back.

ghost use Rattle.std.specs.Prelude.{◌≡◌, ℕ, ◌/◌, true, Vec, length, is_ok};
ghost use Rattle.std.specs.declared.alloc.Global.{Global};
ghost use Rattle.image.specs.Cut.{bytes_of};
ghost use Rattle.image.specs.declared.kind.Kind.{Kind};
ghost use Rattle.image.specs.Kinds.{capacity_of};
ghost use Rattle.image.specs.Laws.{imaged as laid, Exactly, First};
ghost use Rattle.image.specs.Opening.{opened, listing, entries_of, records_of};
ghost use Rattle.image.specs.Stores.{told, held};

use crate::opening::Refused;
use credential::Store;

/// A store that keeps its records in the slots of an image.
pub trait ImageStore: Store {
    /// The kind of the store.
    ghost kind: { Kind };

    /// The image, as the buffer that was opened.
    ghost buffer: { Self → Vec ℕ Global };

    /// Opens an image as a store of the kind. Nothing is written, and a refused image is given back.
    fn open(bytes: Vec<u8>) -> Result<Self, Refused>
    where
        Self: Sized,
        ensures answer { told kind buffer result ≡ listing kind bytes.items }
        ensures image { held buffer result ≡ bytes }
        ensures exactly { Exactly kind bytes.items }
        ensures first { First kind bytes.items };

    /// The image.
    fn bytes(&self) -> &[u8]
        ensures answer { result.now ≡ bytes_of (buffer self.now) }
        ensures entries { result.now ≡ laid (length result.now / 512) (entries_of kind result.now) }
        ensures opens { is_ok (opened kind result.now) ≡ true };

    /// The image, and no more a store.
    fn into_bytes(self) -> Vec<u8>
    where
        Self: Sized,
        ensures answer { result ≡ buffer self }
        ensures opens { is_ok (opened kind result.items) ≡ true };

    ghost imaged: { (s : Self) → Self.image s ≡ bytes_of (buffer s) };

    ghost listed: { (s : Self) → Self.records s ≡ records_of kind (bytes_of (buffer s)) };

    ghost sized: { (s : Self) → Self.room s ≡ capacity_of kind (bytes_of (buffer s)) };
}
