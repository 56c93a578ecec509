//! The instructions of a DVI file: their table, definitions of a page body and of a whole file, and the calls that spell and read one instruction.
#![tactic(auto)]

pub mod body_op;
mod body_spelling;
pub mod dvi_file_laws;
mod fault;
pub mod laws;
pub mod op;
pub mod opcodes;
mod operand;
pub mod page_body_laws;
mod page_runs;
mod reading;
mod run_spelling;
mod spelling;

pub use body_op::BodyOp;
pub use body_spelling::spell_body;
pub use fault::OpFault;
pub use op::{FontDefinition, Op, Postamble, Units};
pub use page_runs::PageRuns;
pub use reading::next;
pub use spelling::spell;
