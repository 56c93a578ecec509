//! Shipping: from a box to the instructions that draw its page (TeX: The Program, part 32, §619 to §641).
#![tactic(auto)]

mod drawing;
pub mod laws;
pub mod page_plan;
mod pushes;

pub use page_core::{PagePoint, is_huge};
pub use page_plan::{ShipFault, plan, plan_runs};
pub use pushes::pushed_after;
