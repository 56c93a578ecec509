//! The check of a whole file, in one walk: what is before the pages, each instruction, the pages and the part after them. `Dvi` is the checked file.

pub(crate) mod before_pages;
pub(crate) mod checked_file;
pub(crate) mod dvi;
pub(crate) mod instruction;
pub(crate) mod pages;
pub(crate) mod shown_pages;
pub(crate) mod walk;

pub use before_pages::{BeforePages, find_front};
pub use checked_file::CheckedFile;
pub use dvi::Dvi;
pub use instruction::step;
pub use shown_pages::ShownPages;
pub use walk::{Source, Walk, pages_end, walk_pages};
