//! The texts that `fonts` and `paint` print for a DVI file, and the one line of a refusal, also for `list`: its fonts, or a page as a bitmap in plain
//! PBM. What `list` prints is the listing of `dvi_read`, piece by piece. The program reads the files and writes the texts; `paint_text` is for a
//! caller who wants the text of a bitmap at once.
//!
//! `round_trip_laws` has the laws of reading back: the file of a job is opened with exactly the pages of the job, and that of a typeset script is
//! listed with exactly their marks.
#![tactic(auto)]

mod faults;
mod font_lines;
mod fonts;
mod output;
pub mod print_laws;
pub mod round_trip_laws;

pub use dvi_read::{Dvi, DviFault, Lines, PART};
pub use fonts::{DefinedFonts, defined_fonts, fonts_text};
pub use output::{Output, PaintFault, Painting, page_bitmap, paint_text, refusal};
pub use raster_core::{Bitmap, PaintOptions, PbmText, ROW_TEXT};
pub use tfm_core::FontFile;
