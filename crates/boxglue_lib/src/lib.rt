//! The tasks of the program: a command line is read, its task is done with the files of a host, and answers and messages are written to an output and
//! to errors. Every caller has `typeset`, `session`, `list`, `fonts` and `paint` as single calls, and the whole program. The crate `boxglue`, above
//! this one, adds the real host, standard output and the exit status.
#![tactic(auto)]

mod font_listing;
mod inputs;
pub mod laws;
mod printing;
mod running;
mod sessions;
mod task_fault;
mod tasks;
mod telling;
mod typesetting;

pub use boxglue_print::fonts_text;
pub use boxglue_program::{
    Cause, Device, DeviceFault, FontFile, FontName, Line, Memory, RunFault, ScriptFault,
    UnwrittenText, read_script, refuse_memory, run_memory, run_script, write_text,
};
pub use boxglue_words::{
    CreatedPaths, FailureCount, FileDevice, FileHost, HeldFile, Host, HostParts, InputFault,
    MemoryFiles, MemoryHost, NamedPath, OutputFault, PaintOptions, READ_LIMIT, ReadFault,
    StandardInput, Task, VERSION_LINE, WordFault, read_all, read_fonts, read_words, write_some,
};
pub use inputs::{Inputs, read_dvi_inputs, read_script_inputs};
pub use printing::{PrintFault, list_file, paint_file};
pub use running::program;
pub use sessions::session_file;
pub use task_fault::TaskFault;
pub use typesetting::{TypesetEnd, typeset_file};
