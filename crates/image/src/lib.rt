//! Images of 512-byte slots, from which a store of records is opened.

#![tactic(auto)]

mod image;
mod kind;
mod opening;
mod store;

pub use image::Image;
pub use kind::{Kind, MOST};
pub use opening::{Counts, Opened, Refusal, Refused, open};
pub use store::ImageStore;
