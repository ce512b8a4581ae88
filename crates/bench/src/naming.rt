//! Values that a word names.

ghost use Rattle.std.specs.Prelude.{◌≡◌, ℕ, List};
ghost use Rattle.bench.specs.Named.{named};

/// A value that a word names.
pub trait Named: Copy + 'static {
    ghost spelling: { Self → List ℕ };

    ghost all: { List Self };

    /// The word.
    fn word(&self) -> &'static [u8]
        ensures answer { result.now ≡ spelling self.now };

    /// All such values.
    fn all() -> &'static [Self]
        ensures answer { result.now ≡ all };

    /// The first value that a word names, if it names one.
    #[tactic(auto, unfolding(crate::specs::Named::named))]
    fn of(word: &[u8]) -> Option<Self>
        ensures answer { result ≡ named spelling all word.now }
    {
        Self::all().iter().copied().find(|n| n.word() == word)
    }
}
