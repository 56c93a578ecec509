//! Bitmaps: the rules of a page painted black, and the plain text of a bitmap.
//!
//! A bitmap is seen as its rows of pixels, from the top. A row is machine words: `blacken` puts the mask of a row into many rows, by lanes.
#![tactic(auto)]

mod lanes;
pub mod laws;
mod masks;
mod packing;
mod paint_options;
mod painting;
mod pixels;
mod printing;
mod rows;
mod text;
mod word_rows;

pub use paint_options::PaintOptions;
pub use painting::Bitmap;
pub use text::{PbmText, ROW_TEXT};
pub use word_rows::{blacken, is_set};
