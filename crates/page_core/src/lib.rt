//! Pages: a box with ten counts and a reference point, the marks that it makes, and the numbers that have to fit.
//!
//! A job makes pages; a writer spells them, and a reader sees their marks. The walk over the items of a box gives each item its place, with its mark,
//! and stops at the first number that does not fit. The walk gives the marks to a sink. The crate knows nothing of DVI: the sink of `ship_core` draws
//! them by instructions.
#![tactic(auto)]

pub mod huge;
mod item_walk;
mod list_drawing;
mod offsets;
pub mod placing;
pub mod sink;
pub mod summary;

pub use huge::is_huge;
pub use list_drawing::draw_list;
pub use offsets::Offsets;
pub use placing::{PagePoint, PagePosition, Point};
pub use sink::{MarkSink, NoMarks};
pub use summary::Summary;
