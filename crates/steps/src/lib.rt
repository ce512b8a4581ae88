//! All steps, those of `bench` and those over a store: the lines that ask for them.

#![tactic(auto)]

mod adding;
mod kinds;
mod parsing;
mod step;
#[cfg(test)]
mod tests;

pub use parsing::{Name, parse};
pub use step::{Parts, Step, StoreStep};
