//! The verdict on a message, and its items up to where it breaks.

#![tactic(auto)]

mod explaining;
mod items;
#[cfg(test)]
mod tests;
mod text;
mod verdict;

pub use explaining::explanation;
pub use items::{Entry, outline};
pub use verdict::{Broken, Verdict, judge};
