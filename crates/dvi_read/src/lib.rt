//! The reader of DVI files, the half over `dvi_scan` (one idea, cut for the prover), in five modules.
//!
//! `check` walks over the instructions of all pages and so checks a whole file: `Dvi::open` keeps the file, its fonts and the places of its pages,
//! which are those of the file definition, and no mark. `seen_items` walks over a checked file once more, and hands out what is seen; or it reads one
//! page from its place. `listings` has the text of what is seen, in pieces; `fonts` the fonts that were read; `fault` why a file is refused.
#![tactic(auto)]

mod check;
mod fault;
mod fonts;
mod listings;
mod seen_items;

pub use check::{
    BeforePages, CheckedFile, Dvi, ShownPages, Source, Walk, find_front, pages_end, step,
    walk_pages,
};
pub use dvi_scan::{Mark, Page};
pub use fault::{
    DviFault, StepFault, no_fault_is_in_a_file, no_walk_fault_is_in_a_file, pointers_are_wrong,
};
pub use fonts::{CharCode, ReadFonts, select, width_asked, width_of};
pub use listings::{Lines, PART, hexadecimal_digit};
pub use seen_items::{SeenItem, SeenItems};
