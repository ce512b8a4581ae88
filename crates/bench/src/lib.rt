//! The steps of a bench: the lines that ask for them, what they print, what can be wrong with a line, and the loop
//! that serves the lines of an input.

#![tactic(auto)]

mod carrying;
mod naming;
mod parsing;
mod serving;
mod step;
#[cfg(test)]
mod tests;
mod values;
mod wrong;

pub use naming::Named;
pub use parsing::{Name, parse};
pub use serving::{Bench, serve};
pub use step::Step;
pub use values::{byte, bytes, end, last, next, number};
pub use wrong::Wrong;
