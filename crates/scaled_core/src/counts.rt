//! The counts of a page.

/// The number of counts of a page.
pub const COUNTS: usize = 10;
