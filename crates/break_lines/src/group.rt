//! The entries of a place.

/// The entries of a table for one place: numbers `start` to `end`, without `end`.
#[derive(Clone, Copy, Debug, PartialEq, Eq)]
pub struct ActiveGroup {
    pub place: usize,
    pub start: usize,
    pub end: usize,
}
