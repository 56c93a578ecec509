//! The writer of DVI files: it lays out pages, font definitions and the end, and sends each page to a device as it comes.
//!
//! `Progress` is the layout without a device: the bytes of a page, with the definitions of its new fonts, and of the end, and the numbers that the
//! writer keeps from page to page. `DviWriter` sends these bytes, and keeps its new numbers once a device took them.
#![tactic(auto)]

mod defined;
mod dvi_writer;
mod fault;
pub mod laws;
mod layout;
mod page;
pub mod progress;

pub use dvi_device::{Device, DeviceFault, Fuse, Memory, Rest};
pub use dvi_writer::DviWriter;
pub use fault::WriteFault;
pub use node_core::limits::{MAX_DEPTH, MAX_PAGES, MAX_SHIPPED_NODES};
pub use page::{AdmittedPage, PageLoad};
pub use page_core::{Offsets, Summary};
pub use progress::{NextPage, Progress};
pub use tfm_core::{Fonts, LoadedFont};
