//! Why a record is not added.

ghost use Rattle.std.specs.Prelude.{◌≡◌, Some};
ghost use Rattle.storebench.specs.Text.{refusal_word};
ghost use Rattle.storebench.specs.declared.adding.AddError.TheVariants as why;

use credential::{Full, OutsideLimits};
use lines::hex::Hex;
use std::fmt;

/// Why a record is not added.
#[derive(Clone, Copy, Debug, PartialEq, Eq)]
pub(crate) enum AddError {
    Full,
    /// A part is outside its limits.
    OutsideLimits,
}

impl From<Full> for AddError {
    ghost from_gives = { λ _ e. e ≡ why.Full };

    fn from(_: Full) -> AddError {
        AddError::Full
    }
}

impl From<OutsideLimits> for AddError {
    ghost from_gives = { λ _ e. e ≡ why.OutsideLimits };

    fn from(_: OutsideLimits) -> AddError {
        AddError::OutsideLimits
    }
}

impl fmt::Display for AddError {
    ghost output = { λ e. Some (refusal_word e) };

    #[tactic(auto, unfolding(lines::specs::Hex::digits, lines::specs::Hex::encoded))]
    fn fmt<W: fmt::Write>(&self, f: &mut fmt::Formatter<W>) -> fmt::Result {
        match self {
            AddError::Full => write!(f, "no"),
            AddError::OutsideLimits => write!(f, "0x{}", Hex(&[OutsideLimits.status()])),
        }
    }
}
