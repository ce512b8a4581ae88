//! The protection of a credential, and its number.

ghost use Rattle.std.specs.Prelude.{◌≡◌, is_ok, IfOk};
ghost use Rattle.credential.specs.Rec.{between};
ghost use Rattle.credential.specs.Model.{protection};

use crate::limits::OutsideLimits;

/// When a credential may be used without verifying its user.
#[derive(Clone, Copy, Debug, PartialEq, Eq)]
pub enum CredProtect {
    UserVerificationOptional = 1,
    UserVerificationOptionalWithCredentialIdList = 2,
    UserVerificationRequired = 3,
}

impl TryFrom<u8> for CredProtect {
    type Error = OutsideLimits;

    ghost try_from_gives = { λ number r. (is_ok r ≡ between 1 3 number) × IfOk r (λ p. protection p ≡ number) };

    fn try_from(number: u8) -> Result<CredProtect, OutsideLimits> {
        match number {
            1 => Ok(CredProtect::UserVerificationOptional),
            2 => Ok(CredProtect::UserVerificationOptionalWithCredentialIdList),
            3 => Ok(CredProtect::UserVerificationRequired),
            _ => Err(OutsideLimits),
        }
    }
}

impl From<CredProtect> for u8 {
    ghost from_gives = { λ protect number. number ≡ protection protect };

    fn from(protect: CredProtect) -> u8 {
        protect as u8
    }
}
