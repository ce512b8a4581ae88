//! Canonical CBOR, read as borrowed parts of a message, each with its place.

#![tactic(auto)]

mod checking;
mod examples;
mod finding;
mod item;
mod reading;
#[cfg(test)]
mod tests;

pub use checking::check;
pub use examples::examples_hold;
pub use finding::{Field, Key, find};
pub use item::{Fault, Item, Part};
pub use reading::read;
