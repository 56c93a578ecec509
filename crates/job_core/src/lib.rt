//! The job, cut in three for the prover: here, over `job_state`, it runs a list of commands, and what is shipped goes to a device. This crate exports
//! the types of commands and answers too, so that a caller needs no other crate for them. The program's crates are above it.
#![tactic(auto)]

mod device_job;
pub mod laws;
mod resuming;
mod whole_job;

pub use device_job::Job;
pub use dvi_device::{Device, DeviceFault, Fuse, Memory, Rest};
pub use job_machine::{
    Answer, AppendBox, BoxForm, Characters, Command, CountNumber, Counting, FontLoad, HeapFontLoad,
    NumberParameter, Opening, Parameter, Refusal, Register, Reply, SizeParameter, Sizes,
    SkipParameter, Summary, Transfer, Unboxing, run_laws, totality_laws,
};
pub use pack_core::Target;
pub use resuming::finish_rest;
pub use tfm_core::{FontFile, FontName, FontSize, TfmCause};
pub use whole_job::{JobRun, run_commands};
