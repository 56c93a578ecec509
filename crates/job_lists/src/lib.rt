//! The job, cut in three for the prover: its open lists, the ends of its paragraphs, shaped text in a list, and the reading of a font.
//!
//! `job_machine` defines what each of these does. `job_state` calls them for the commands of a job, together with its box registers.
#![tactic(auto)]

pub mod fonts;
pub mod nest;
pub mod open_lists;
mod paragraphs;
pub mod texts;
