//! The running of scripts, for every caller and without a command line: a script's text is read, run on a device, and answered in texts; with a
//! device in memory the bytes of the file are written after the answers.
//!
//! Its users read the files and write the texts: the program `boxglue`, which has standard input and output, `rows_scripts`, which runs files of
//! cases, and other callers.
#![tactic(auto)]

mod dialog;
mod hexadecimal;
pub mod laws;
mod memory_run;
mod numbered_line;
mod outcome;
mod refusals;
mod run;
mod session;
mod texts;
mod writing;

pub use boxglue_script::{Cause, Line, LineBlocks, ScriptFault, read_blocks, read_script};
pub use job_core::{Device, DeviceFault, FontFile, FontName, Fuse, Memory, Rest};
pub use memory_run::run_memory;
pub use outcome::Outcome;
pub use refusals::{push_number, push_refusal_line, push_text, refusal_row};
pub use run::{LinesRun, RunFault, WholeRun, run_lines, run_rest, run_script, run_whole};
pub use session::{Reading, Session, SessionEnd, SessionFault, run_session};
pub use texts::{push_end_line, push_script_refusal, push_signed, script_refusal_text};
pub use writing::{UnwrittenText, refuse_memory, write_text};
