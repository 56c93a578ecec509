//! Movement registers: the body of a page in fewer bytes. `reuse` takes a body whose movements use no register, removes the groups with nothing in
//! them, and writes movements whose amounts come again with w, x, y and z (DVItype, 14 and 15), so that the page shows the same. `is_plain_body`
//! tests whether instructions are such a body.
#![tactic(auto)]

mod amount_set;
mod later;
pub mod laws;
pub mod page;
mod passes;
pub mod plain;
mod registers;

pub use page::{reuse, reuse_runs};
pub use plain::is_plain_body;
