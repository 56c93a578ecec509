//! Shaping: words become glyphs, font kerns and ligatures (TeX: The Program, part 46, §1029 to §1045; TFtoPL, 13).
#![tactic(auto)]

pub mod fault;
pub mod laws;
pub mod metrics;
pub mod text;
mod text_front;
pub mod word;

pub use fault::ShapeFault;
pub use metrics::Metrics;
pub use text::{shape_character, shape_text};
pub use word::{Missing, shape};
