//! Lines of plain text: their words, bytes as hex, and decimal numbers.

#![tactic(auto)]

pub mod decimal;
pub mod hex;
mod line;
#[cfg(test)]
mod tests;

pub use line::{Words, content, cut, is_skipped, last, next};
