//! Vertical lists: the glue between boxes, the lines of a paragraph, and splits.
//!
//! `interline_glue` is the glue that a box gets in a vertical list, and `append_with_glue` puts both at its end. `append_paragraph` finishes the list
//! of a paragraph, breaks it by the counted breaker, packs its lines, and appends them to a vertical list, with the glue and the penalties between
//! them. `split_list` makes of a vertical list a front of a given height and a rest. `append_box`, `lines` and `split` do these steps for callers who
//! have a vector or a slice of nodes. Sizes are dimensions: whole numbers of scaled points.
#![tactic(auto)]

mod append;
mod appending;
mod cut;
mod filling;
mod finishing;
pub mod glue_laws;
mod interline;
pub mod laws;
mod levels;
mod line_boxes;
mod measuring;
mod paragraph;
pub mod paragraph_laws;
mod parts;
mod penalties;
mod plan;
mod planning;
mod rest;
mod stacking;
mod sums;
mod tails;
mod trials;

pub use append::{UnappendedBox, append_box, append_with_glue};
pub use appending::{AppendedParagraph, UnappendedLines, append_paragraph};
pub use cut::{split, split_list};
pub use finishing::{finish_paragraph, unfinish_paragraph};
pub use interline::{DimensionTooLarge, interline_glue};
pub use paragraph::ParagraphFault;
pub use parts::{Split, SplitFault, UnsplitList};
pub use stacking::{VerticalItems, lines};
pub use tails::Tails;
pub use trials::split_place;
