//! The statuses of these calls alone, the same numbers as in `include/boxglue.h`.

/// The handle is null: there is no job.
pub const NO_JOB: u32 = 8;
/// The handle is not null: there is a job already.
pub const JOB_EXISTS: u32 = 9;
/// The commands were run, or the job was finished, and memory was refused for the text of the answers.
pub const ANSWERS_LOST: u32 = 10;
