//! Credential records, their slots, and what a store of records means.

#![tactic(auto)]

mod limits;
mod protection;
mod record;
mod slot;
mod store;
#[cfg(test)]
mod tests;
mod text;

pub use limits::OutsideLimits;
pub use protection::CredProtect;
pub use record::{Fields, Record};
pub use slot::{SLOT, Slot, withdrawal};
pub use store::{Full, NoRecord, Store};
