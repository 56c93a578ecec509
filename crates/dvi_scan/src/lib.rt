//! The reader of DVI files, cut in two for the prover: the end of a file, its chain of pages, its instructions one by one, and its fonts. `dvi_read`
//! has the loop over the bytes of a file.
//!
//! From the end: `find_postamble` finds the bytes 223, post_post and post, `page_offsets` the pages from the last one back to the first, and
//! `preamble` checks the first instruction. From the start: `execute` takes one instruction in the state of the pass, with a stack of positions for
//! push and pop, or returns which rule it breaks.
//!
//! Fonts are definitions, also those between post and post_post, and the widths that the metric files of their names give. Whether a definition
//! agrees with those before it, which one a selection means, and the font itself are found by the number, in a search tree.
#![tactic(auto)]

mod after_post;
mod at_place;
pub mod chain_laws;
mod closing;
pub mod closing_laws;
mod definitions;
mod drawing;
mod ending;
mod executing;
pub mod fault;
pub mod file_laws;
pub mod font_laws;
mod front_matter;
mod known;
mod page;
mod page_chain;
pub mod pass_laws;
pub mod step_laws;
mod widths;

pub use after_post::{NumbersAfterPost, is_after_post, prescan_definitions};
pub use at_place::read_at;
pub use closing::read_trailing_definitions;
pub use definitions::{FontNumber, KnownFonts};
pub use ending::{FileEnd, find_postamble};
pub use executing::{OpenPage, PassFault, PassState, execute};
pub use fault::{BadDvi, DviCause, FrameFault};
pub use front_matter::preamble;
pub use known::define;
pub use page::{DviState, Mark, Page, Position};
pub use page_chain::page_offsets;
pub use widths::{FontRefusal, read_font};
