//! The refusal of what is outside its limits.

ghost use Rattle.std.specs.Prelude.{◌≡◌};
ghost use Rattle.credential.specs.Model.{code};

use arrayvec::CapacityError;
use std::array::TryFromSliceError;

/// The refusal: a field is outside its limits.
#[derive(Clone, Copy, Debug, PartialEq, Eq)]
pub struct OutsideLimits;

impl OutsideLimits {
    /// The status number.
    pub fn status(&self) -> u8
        ensures answer { result ≡ code self.now }
    {
        // the protocol's number on the wire
        0x02
    }
}

// Two impls that answer alike: `?` needs one for each error.
impl From<TryFromSliceError> for OutsideLimits {
    fn from(_: TryFromSliceError) -> OutsideLimits {
        OutsideLimits
    }
}

impl From<CapacityError> for OutsideLimits {
    fn from(_: CapacityError) -> OutsideLimits {
        OutsideLimits
    }
}
