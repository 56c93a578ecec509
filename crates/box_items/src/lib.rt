//! The items of a box as rows of numbers.
//!
//! A box and everything in it become rows, in the order of TeX's `show_box`: a box before its items, and an item one level below its box. Each row
//! has its place from the reference point of the outermost box, exact. The rows and the texts of specials go into the buffers of a caller, whole or
//! not at all, and take no memory.
#![tactic(auto)]

pub mod laws;
pub mod place;
pub mod row;
mod row_building;
mod writing;

pub use place::WideDimen;
pub use row::{BoxItem, ItemKind};
pub use writing::{ItemSizes, count_items, write_items};
