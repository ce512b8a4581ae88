//! A step, with its values.

ghost use Rattle.std.specs.Prelude.{◌≡◌};
ghost use Rattle.credential.specs.Model.{given};
ghost use Rattle.steps.specs.Asked.{whole};

use credential::Fields;
use image::Kind;

/// A step: one that every bench has, or one over a store.
#[derive(Drop)]
pub enum Step {
    Plain(bench::Step),
    Store(StoreStep),
}

#[derive(Drop)]
pub enum StoreStep {
    Blank { kind: Kind, slots: u64 },
    Open { kind: Kind, image: Vec<u8> },
    Add(Parts),
    Remove(u64),
    List,
    Image,
}

/// The parts of a record, of any length.
#[derive(Drop)]
pub struct Parts {
    pub protect: u8,
    pub rp_id: Vec<u8>,
    pub user_id: Vec<u8>,
    pub name: Vec<u8>,
    pub display_name: Vec<u8>,
    pub credential_id: Vec<u8>,
    pub x: Vec<u8>,
    pub y: Vec<u8>,
}

impl<'a> From<&'a Parts> for Fields<'a> {
    ghost from_gives = { λ parts fields. given fields ≡ whole parts.now };

    fn from(parts: &'a Parts) -> Fields<'a> {
        Fields {
            rp_id: &parts.rp_id,
            user_id: &parts.user_id,
            name: &parts.name,
            display_name: &parts.display_name,
            credential_id: &parts.credential_id,
            x: &parts.x,
            y: &parts.y,
            cred_protect: parts.protect,
        }
    }
}
