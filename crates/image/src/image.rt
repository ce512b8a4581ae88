//! An image of whole slots, and how its slots are read and written.

ghost use Rattle.std.specs.Prelude.{◌≡◌, ◌+◌, ◌*◌, ◌≤◌, [], length, slice_index_or, slice_set};
ghost use Rattle.std.specs.Slice.Iter.{chunks_exact_size};
ghost use Rattle.credential.specs.Slot.{free};
ghost use Rattle.image.specs.Cut.{bytes_of, cells, copied, moved, cleared, GivesSlots};
ghost use Rattle.image.specs.Kinds.{IsWhole};

use credential::SLOT;
use std::marker::Model;
use std::ops::Range;
use std::slice::ChunksExact;

/// At most 64 whole slots of 512 bytes. A clause sees the bytes.
#[derive(Drop)]
pub struct Image {
    pub(crate) bytes: Vec<u8>,
}

impl Model for Image {
    ghost use Rattle.std.specs.Prelude.{ℕ, Vec, length};
    ghost use Rattle.std.specs.declared.alloc.Global.{Global};

    ghost Value = { Vec ℕ Global };

    ghost use Rattle.image.specs.Kinds.{IsWhole};

    // The buffer and not its slots, so that `open` can say that it comes back; as many slots is then a clause, `kept`.
    ghost view = { λ im. im.bytes };

    ghost invariant = { λ im. IsWhole im.bytes.items };
}

impl Image {
    /// The number of slots.
    #[tactic(auto, using(crate::proofs::Cells::length_slots))]
    pub fn len(&self) -> usize
        ensures answer { result ≡ length (cells self.now) }
        ensures few { result ≤ 64 }
    {
        self.bytes.len() / SLOT
    }

    /// The slots, in their order.
    #[tactic(auto, using(crate::proofs::Cells::length_slots))]
    pub fn slots(&self) -> ChunksExact<'_, u8>
        ensures answer { GivesSlots result (cells self.now) }
        ensures size { chunks_exact_size result ≡ 512 }
        ensures few { length (cells self.now) ≤ 64 }
    {
        self.bytes.chunks_exact(SLOT)
    }

    /// The bytes of a slot; none past the last.
    #[tactic(auto, using(crate::proofs::Cells::length_slots))]
    pub fn slot(&self, k: usize) -> &[u8]
        ensures answer { result.now ≡ slice_index_or (cells self.now) k [] }
    {
        if k >= self.len() {
            return &[];
        }
        &self.bytes[SLOT * k..SLOT * k + SLOT]
    }

    /// Writes a slot; past the last, nothing.
    #[tactic(auto, using(crate::proofs::Cells::length_slots))]
    pub fn write(&mut self, k: usize, slot: &[u8; SLOT])
        ensures written { cells self.new ≡ slice_set (cells self.old) k slot.now }
        ensures kept { length (bytes_of self.new) ≡ length (bytes_of self.old) }
    {
        if k < self.len() {
            self.bytes[SLOT * k..SLOT * k + SLOT].copy_from_slice(slot);
        }
    }

    /// Writes a slot over another; where one of them is past the last, nothing.
    #[tactic(auto, using(crate::proofs::Cells::length_slots))]
    pub fn copy(&mut self, from: usize, to: usize)
        ensures written { cells self.new ≡ copied (cells self.old) from to }
        ensures kept { length (bytes_of self.new) ≡ length (bytes_of self.old) }
    {
        if from < self.len() {
            self.copy_within(from..from + 1, to);
        }
    }

    /// Writes the slots of a range over those from another on;
    /// nothing where it ends before it starts, or one of the two runs past the last.
    #[tactic(auto, using(crate::proofs::Cells::length_slots))]
    pub fn copy_within(&mut self, from: Range<usize>, to: usize)
        ensures written { cells self.new ≡ moved (cells self.old) from.start from.end to }
        ensures kept { length (bytes_of self.new) ≡ length (bytes_of self.old) }
    {
        let Range { start, end } = from;
        let slots = self.len();
        if start <= end && end <= slots && to <= slots - (end - start) {
            self.bytes.copy_within(SLOT * start..SLOT * end, SLOT * to);
        }
    }

    /// Makes a slot free; past the last, nothing.
    #[tactic(auto, unfolding(credential::specs::Slot::free))]
    pub fn clear(&mut self, k: usize)
        ensures written { cells self.new ≡ slice_set (cells self.old) k free }
        ensures kept { length (bytes_of self.new) ≡ length (bytes_of self.old) }
    {
        self.write(k, &[0; SLOT]);
    }

    /// Makes the slots from a number on free.
    #[tactic(auto, using(crate::proofs::Cells::length_slots))]
    pub fn clear_from(&mut self, k: usize)
        ensures written { cells self.new ≡ cleared (cells self.old) k }
        ensures kept { length (bytes_of self.new) ≡ length (bytes_of self.old) }
    {
        if k < self.len() {
            self.bytes[SLOT * k..].fill(0);
        }
    }

    /// The bytes of all slots.
    pub fn bytes(&self) -> &[u8]
        ensures answer { result.now ≡ bytes_of self.now }
        ensures whole { IsWhole (bytes_of self.now) }
    {
        self.bytes.as_slice()
    }

    // A method with a name and no `From`, as std's `into_bytes`.
    /// The bytes of all slots, and no more an image.
    pub fn into_bytes(self) -> Vec<u8>
        ensures answer { result ≡ self }
        ensures whole { IsWhole result.items }
    {
        let Image { bytes } = self;
        bytes
    }
}
