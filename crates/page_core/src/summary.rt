//! What is reported of the file of all pages.

/// The number of pages that were shipped, and the number of bytes of their whole file, 0 without pages.
#[derive(Clone, Copy, Debug, PartialEq, Eq)]
pub struct Summary {
    pub pages: u32,
    pub bytes: u64,
}
