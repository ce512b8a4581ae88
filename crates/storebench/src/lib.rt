//! The store that the bench keeps open: what the steps over it do and print.

#![tactic(auto)]

mod adding;
mod carrying;
mod fill;
mod held;
mod text;

pub use carrying::{add, blank, image, list, open, remove};
pub use held::Held;
