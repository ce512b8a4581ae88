//! The two kinds of store, and their sizes.

ghost use Rattle.std.specs.Prelude.{◌≡◌};
ghost use Rattle.image.specs.Kinds.{fewest, room, fits};

use credential::SLOT;

/// The most slots of a store.
pub const MOST: usize = 64;

/// How a store keeps its records: one slot for each, or a log of what came and went.
#[derive(Clone, Copy, Debug, PartialEq, Eq)]
pub enum Kind {
    Table,
    Log,
}

impl Kind {
    /// How many records a store of so many slots lists at most. A log keeps a slot to spare.
    pub fn capacity(self, slots: usize) -> usize
        ensures answer { result ≡ room self slots }
    {
        match self {
            Kind::Table => slots,
            Kind::Log => slots.saturating_sub(1),
        }
    }

    /// The fewest slots of a store.
    fn fewest(self) -> usize
        ensures { result ≡ fewest self }
    {
        match self {
            Kind::Table => 1,
            Kind::Log => 2,
        }
    }

    /// Whether an image has whole slots, and as many as a store of the kind.
    #[tactic(auto, using(std::proofs::lemmas::Bool::Decides::nat_tests), unfolding(crate::specs::Kinds::fits))]
    pub(crate) fn fits(self, bytes: &[u8]) -> bool
        ensures { result ≡ fits self bytes.now }
    {
        let slots = bytes.len() / SLOT;
        bytes.len() % SLOT == 0 && self.fewest() <= slots && slots <= MOST
    }
}
