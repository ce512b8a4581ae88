//! What can be wrong with a line.

ghost use Rattle.std.specs.Prelude.{◌≡◌, Some, IfOk, string_bytes};
ghost use Rattle.bench.specs.declared.wrong.Wrong.TheVariants.{Memory};
ghost use Rattle.bench.specs.Worded.{wording, error_line};

use std::alloc::{AllocError, Global};
use std::fmt;

/// What is wrong.
// One enum for both programs, so that `?` needs no conversion; which of them a line can meet, `asked` says.
#[derive(Clone, Copy, Debug, PartialEq, Eq)]
pub enum Wrong {
    Step,
    Words,
    Hex,
    Sub,
    Protect,
    Slots,
    Place,
    Kind,
    NoStore,
    Memory,
}

impl Wrong {
    /// The words of the error line.
    pub fn words(&self) -> &'static str
        ensures answer { result.now ≡ wording self.now }
    {
        match self {
            Wrong::Step => "no such step, try help",
            Wrong::Words => "wrong number of words for this step",
            Wrong::Hex => "bytes must be pairs of lower-case hex digits, or -",
            Wrong::Sub => "SUB must be a decimal number from 0 to 255",
            Wrong::Protect => "PROTECT must be a decimal number from 0 to 255",
            Wrong::Slots => "N must be a decimal number from 0 to 18446744073709551615",
            Wrong::Place => "I must be a decimal number from 0 to 18446744073709551615",
            Wrong::Kind => "KIND must be table or log",
            Wrong::NoStore => "no store is open",
            Wrong::Memory => "out of memory",
        }
    }

    /// The error line.
    pub fn line(self, heap: Global) -> Result<String, AllocError>
        ensures text { IfOk result (λ s. string_bytes s ≡ error_line self) }
    {
        format!(in heap; "error: {self}\n")
    }
}

impl fmt::Display for Wrong {
    ghost output = { λ w. Some (wording w) };

    fn fmt<W: fmt::Write>(&self, f: &mut fmt::Formatter<W>) -> fmt::Result {
        f.write_str(self.words())
    }
}

impl From<AllocError> for Wrong {
    ghost from_gives = { λ _ r. r ≡ Memory };

    fn from(_e: AllocError) -> Wrong {
        Wrong::Memory
    }
}
