//! The kinds of replies, the same numbers as in `include/boxglue.h`.

/// The command was done, and has nothing to report.
pub const OK: u32 = 0;
/// The command, or the end of the job, was refused.
pub const REFUSED: u32 = 1;
/// The piece or the script was refused for a bad line, and nothing of it was run.
pub const BAD_LINE: u32 = 2;
/// A box was packed.
pub const PACKED: u32 = 3;
/// A box was measured.
pub const MEASURED: u32 = 4;
/// The register that was measured is void.
pub const MEASURED_VOID: u32 = 5;
/// Items of a text were added.
pub const SHAPED: u32 = 6;
/// Items were added.
pub const ADDED: u32 = 7;
/// A paragraph was broken.
pub const PARAGRAPH: u32 = 8;
/// A box was split.
pub const SPLIT: u32 = 9;
/// The register whose box was to be split is void.
pub const SPLIT_VOID: u32 = 10;
/// A page was shipped.
pub const SHIPPED: u32 = 11;
/// The job was ended.
pub const END: u32 = 12;
