//! Why no instruction begins at the start of some bytes.

use thiserror::Error;

/// Why no instruction begins at the start of some bytes.
#[derive(Clone, Copy, Debug, PartialEq, Eq, Error)]
pub enum OpFault {
    /// The first byte is 250 to 255, and no instruction has this code.
    #[error("no instruction has this operation code")]
    Opcode,
    /// The bytes end inside an instruction, or there are no bytes.
    #[error("the bytes end within an instruction")]
    Truncated,
}
