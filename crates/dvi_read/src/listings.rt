//! The listing of pages: lines, and the parts that they are written into.

pub(crate) mod glyph_head;
pub(crate) mod line_text;
pub(crate) mod lines;
pub(crate) mod part;

pub use line_text::hexadecimal_digit;
pub use lines::Lines;
pub use part::PART;
