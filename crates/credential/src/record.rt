//! A credential record, the fields from which one is made, and how it is made and seen.

ghost use Rattle.std.specs.Prelude.{◌≡◌, true, is_ok, IfOk};
ghost use Rattle.credential.specs.Rec.{is_within, party, blank};
ghost use Rattle.credential.specs.Model.{given};

use crate::limits::OutsideLimits;
use crate::protection::CredProtect;
use crate::text::Text;
use std::marker::Model;

/// The longest RP ID.
const RP_ID_MAX: usize = 128;

/// The longest user ID, name and display name.
const NAME_MAX: usize = 64;

/// The size of a credential ID and of a coordinate.
pub(crate) const ID: usize = 32;

/// A discoverable credential. Its fields keep their limits: there is no other value.
#[derive(Drop)]
pub struct Record {
    pub(crate) rp_id: Text<1, RP_ID_MAX>,
    pub(crate) user_id: Text<1, NAME_MAX>,
    pub(crate) name: Text<0, NAME_MAX>,
    pub(crate) display_name: Text<0, NAME_MAX>,
    pub(crate) credential_id: [u8; ID],
    pub(crate) x: [u8; ID],
    pub(crate) y: [u8; ID],
    pub(crate) cred_protect: CredProtect,
}

impl Model for Record {
    ghost use Rattle.std.specs.Prelude.{◌≡◌, true};
    ghost use Rattle.credential.specs.Rec.{Rec, is_within};

    ghost Value = { Rec };

    ghost use Rattle.credential.specs.Model.{model};

    ghost view = { model };

    ghost invariant = { λ r. is_within (model r) ≡ true };
}

/// The fields of a record, of any length.
// no model: a struct with a lifetime and a model is not `Copy`
#[derive(Clone, Copy)]
pub struct Fields<'a> {
    pub rp_id: &'a [u8],
    pub user_id: &'a [u8],
    pub name: &'a [u8],
    pub display_name: &'a [u8],
    pub credential_id: &'a [u8],
    pub x: &'a [u8],
    pub y: &'a [u8],
    // A number and no `CredProtect`: a narrower type would ask more of callers.
    pub cred_protect: u8,
}

impl Record {
    /// The record of these fields, if each is within its limits.
    #[tactic(auto, unfolding(crate::specs::Rec::is_within))]
    pub fn new(fields: Fields<'_>) -> Result<Record, OutsideLimits>
        ensures answer { is_ok result ≡ is_within (given fields.entry) }
        ensures record { IfOk result (λ r. r ≡ given fields.entry) }
    {
        let rp_id = Text::try_from(fields.rp_id)?;
        let user_id = Text::try_from(fields.user_id)?;
        let name = Text::try_from(fields.name)?;
        let display_name = Text::try_from(fields.display_name)?;
        let credential_id = <[u8; ID]>::try_from(fields.credential_id)?;
        let x = <[u8; ID]>::try_from(fields.x)?;
        let y = <[u8; ID]>::try_from(fields.y)?;
        let cred_protect = CredProtect::try_from(fields.cred_protect)?;
        Ok(Record {
            rp_id,
            user_id,
            name,
            display_name,
            credential_id,
            x,
            y,
            cred_protect,
        })
    }

    /// The smallest record: a place to read into.
    #[tactic(auto, unfolding(crate::specs::Rec::is_within))]
    pub fn blank() -> Record
        ensures answer { result ≡ blank }
    {
        let zeros = [0; ID];
        let fields = Fields {
            rp_id: &[0],
            user_id: &[0],
            name: &[],
            display_name: &[],
            credential_id: &zeros,
            x: &zeros,
            y: &zeros,
            cred_protect: u8::from(CredProtect::UserVerificationOptional),
        };
        Record::new(fields).unwrap()
    }

    /// The fields of the record.
    pub fn fields(&self) -> Fields<'_>
        ensures answer { given result ≡ self.now }
        ensures within { is_within (given result) ≡ true }
    {
        Fields {
            rp_id: self.rp_id.as_slice(),
            user_id: self.user_id.as_slice(),
            name: self.name.as_slice(),
            display_name: self.display_name.as_slice(),
            credential_id: &self.credential_id,
            x: &self.x,
            y: &self.y,
            cred_protect: u8::from(self.cred_protect),
        }
    }

    /// The RP ID hash: the record's party.
    #[tactic(auto, unfolding(crate::specs::Rec::party))]
    pub fn rp_id_hash(&self) -> [u8; 32]
        ensures answer { result ≡ party self.now }
        ensures within { is_within self.now ≡ true }
    {
        sha256::digest(self.rp_id.as_slice())
    }
}
