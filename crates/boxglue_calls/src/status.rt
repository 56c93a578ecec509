//! The statuses of the calls, the same numbers as in `include/boxglue.h`.

/// All was accepted, and the outputs are written.
pub const ACCEPTED: u32 = 0;
/// Something was refused, and the outputs are written; the text says why.
pub const REFUSED: u32 = 1;
/// Memory was refused, and nothing is written.
pub const OUT_OF_MEMORY: u32 = 2;
/// The name of a font has not 1 to 255 bytes, and nothing is written.
pub const BAD_FONT_NAME: u32 = 3;
/// A buffer is too small. The sizes are written, and nothing else.
pub const BUFFER_TOO_SMALL: u32 = 4;
/// The file is good and has no such page, and nothing is written.
pub const NO_SUCH_PAGE: u32 = 5;
/// A number is out of its range, and nothing is written.
pub const OUT_OF_RANGE: u32 = 6;
/// A script was run, and the reply to a line of it, or its end, is OutOfMemory. The outputs are written.
pub const REFUSED_MEMORY: u32 = 7;
