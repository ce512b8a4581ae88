//! The table store: one slot for each record, records in front and free slots behind them.

#![tactic(auto)]

mod closing;
mod table;
#[cfg(test)]
mod tests;

pub use image::ImageStore;
pub use table::Table;
