//! The parts of a checked file that are read again when its pages are shown.

use crate::fonts::ReadFonts;

/// A file that was checked as a whole: its bytes, its fonts, and the places of its pages. No mark of it is kept.
#[derive(Drop)]
pub struct CheckedFile<'a> {
    pub(crate) bytes: &'a [u8],
    /// The place after the preamble.
    pub(crate) from: usize,
    /// The place of post, where the pages end.
    pub(crate) post: usize,
    /// The greatest number of pushes that may be open at once.
    pub(crate) most: usize,
    /// The fonts that the pages select. Which of them was selected last, whoever reads the pages knows.
    pub(crate) fonts: ReadFonts,
    /// The places of the pages, the last one first.
    pub(crate) places: Vec<usize>,
}
