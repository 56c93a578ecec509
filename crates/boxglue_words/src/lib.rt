//! The command line, and what the program asks of its host: words become a task, and a host has files, standard input, and one file that it creates
//! and writes. The crates above this one perform the task.
//!
//! Words: the command line for the kit's clap, the words NAME=TFM that give fonts, and the task that a whole line asks for. Host: a trait, a host in
//! memory, the reading of the font files that a command line names, and the device that writes a DVI file at a path. The program, above this crate,
//! has the real host.
#![tactic(auto)]

mod command;
mod created_paths;
mod failure_count;
mod file_device;
mod font_files;
mod fonts;
mod host;
mod input_fault;
pub mod laws;
mod memory_host;
mod pairs;
mod reading;
mod task;
mod words;
mod writing;

pub use command::command_line;
pub use created_paths::CreatedPaths;
pub use failure_count::FailureCount;
pub use file_device::FileDevice;
pub use font_files::read_fonts;
pub use fonts::{NamedPath, WordFault};
pub use host::{
    FileHost, Host, HostParts, OutputFault, READ_LIMIT, ReadFault, StandardInput,
    limit_of_a_reading,
};
pub use input_fault::InputFault;
pub use memory_host::{HeldFile, MemoryFiles, MemoryHost};
pub use pairs::read_pairs;
pub use raster_core::PaintOptions;
pub use reading::{read_all, read_within};
pub use task::{Task, VERSION_LINE};
pub use tfm_core::FontName;
pub use words::read_words;
pub use writing::write_some;
