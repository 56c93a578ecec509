//! Scaled arithmetic: dimensions and their texts, badness, and exact fractions; and what all crates above share.
//!
//! All quantities are whole numbers of scaled points (sp); 65,536 sp make a printer's point.
#![tactic(auto)]

pub mod counts;
pub mod dimen;
pub mod fault;
mod glue_badness;
pub mod laws;
mod printing;
pub mod ratio;
mod reading;
mod rounding;
pub mod sizes;
mod units;

pub use counts::COUNTS;
pub use dimen::Dimen;
pub use fault::{DimenFault, SizeFault};
pub use glue_badness::badness;
pub use printing::print_dimen;
pub use ratio::Ratio;
pub use reading::{parse_dimen, parse_points};
pub use rounding::rounded;
pub use sizes::Sizes;
