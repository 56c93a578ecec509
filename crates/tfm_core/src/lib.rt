//! Font metric files, and fonts at a size (TFtoPL; TeX: The Program, part 30).
#![tactic(auto)]

mod character_set;
mod entries;
pub mod fault;
pub mod font;
pub mod font_file;
pub mod laws;
mod places;
mod program;
mod reading;
pub mod record;
mod rules;
pub mod scaling;
mod sized_file;
pub mod slots;
pub mod tfm;

pub use fault::{FontFault, TfmCause, TfmFault};
pub use font::{Font, GlyphSize, Space, Step};
pub use font_file::{FontFile, FontName, file_named};
pub use reading::FontReadFault;
pub use scaling::{FontSize, scaled};
pub use slots::{FONT_SLOTS, Fonts, LoadedFont};
pub use tfm::Tfm;
