//! The job, cut in three for the prover: its state and its commands, each as the abstract machine of `job_machine` defines it, with the box registers
//! and how the boxes in them are split. It calls `job_lists`; `job_core`, above this crate, adds the file and the device.
#![tactic(auto)]

pub mod job_state;
pub mod registers;
mod splits;
mod table;
