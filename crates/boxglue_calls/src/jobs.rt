//! The calls on a job that is kept between two calls, by a handle, and the calls whose replies are rows of numbers.

mod handle;
pub mod item_laws;
mod jobs;
mod kept_job;
pub mod laws;
mod numbering;
mod raw_box;
mod replied;
pub mod reply_kind;
mod rows;
pub mod status;
mod whole;

pub use handle::JobHandle;
pub use jobs::{answers, commands, end, finish, free, items, new, run, take};
pub use kept_job::KeptJob;
pub(crate) use rows::refusal_cause;
pub use rows::{BoxSizes, ReplyRow};
pub use whole::{ReplySizes, run_replies};
