//! SHA-256, HMAC-SHA-256 and the comparison of byte strings that looks at every byte.

#![tactic(auto)]

mod bytes;
mod compression;
mod constants;
mod hasher;
mod mac;
mod state;
#[cfg(test)]
mod tests;
mod vectors;
mod words;

pub use bytes::same;
pub use hasher::digest;
pub use mac::{WorkSize, agrees, hmac, tag};
pub use vectors::vectors_hold;
