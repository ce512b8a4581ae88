//! A store of credential records that logs what came and went.

#![tactic(auto)]

mod compaction;
mod listing;
mod log;
#[cfg(test)]
mod tests;

pub use image::ImageStore;
pub use log::Log;
