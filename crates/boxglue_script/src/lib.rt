//! The script: a text is read into lines that give commands.
//!
//! A text with a bad line is refused whole, with the number of its first bad line, from 1, and a cause that holds of it. A bad line is a mistake in
//! writing; a command that a job refuses is another thing, and the other commands still run.
#![tactic(auto)]

mod amounts;
mod blocks;
mod cause;
mod commands;
mod field_value;
mod fields;
pub mod laws;
mod line_content;
mod lines;
mod name;
mod parameter;
mod script;
mod values;

pub use blocks::LineBlocks;
pub use cause::Cause;
pub use line_content::{LineContent, read_line};
pub use lines::first_line;
pub use script::{Line, ScriptFault, read_blocks, read_script};
