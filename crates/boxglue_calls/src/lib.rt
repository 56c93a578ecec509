//! The calls of the library for C, as safe functions over slices and a handle. `boxglue_c` exports each of them to C.
//!
//! A script is run, a DVI file is listed, its marks are read, a page of it is painted, its fonts are read; `jobs` has the calls on a job that is kept
//! between two calls, and those whose replies are rows of numbers. A call writes into buffers of its caller and returns a status.
#![tactic(auto)]

pub mod buffers;
mod checks;
mod edition;
mod faults;
mod font_bytes;
mod font_metrics;
mod font_rows;
mod font_table;
mod given;
pub mod jobs;
pub mod laws;
mod listings;
mod mark_rows;
mod mark_table;
mod metric_places;
mod page_bits;
mod pages;
pub mod run_status;
mod runs;
pub mod status;

pub use box_items::{BoxItem, ItemSizes, WideDimen};
pub use checks::check;
pub use edition::{is_proved, version};
pub use faults::Fault;
pub use font_metrics::metrics;
pub use font_rows::{FontParameters, FontStep, Glyph, GlyphTable, Measure};
pub use font_table::{DviFont, FontSizes, fonts};
pub use given::{Font, are_named, font_files};
pub use mark_table::{DviMark, DviPage, MarkSizes, marks};
pub use page_bits::paint_bits;
pub use pages::{list, paint};
pub use runs::{Lengths, run};
