//! A changed byte.

use anyhow::{Context, Result};

/// A place, and the byte that is put there.
#[derive(Clone, Copy)]
pub struct Change {
    pub place: usize,
    pub byte: u8,
}

impl Change {
    /// Changes the byte at that place.
    pub fn make(&self, bytes: &mut [u8]) -> Result<()> {
        *bytes.get_mut(self.place).context("there are fewer bytes")? = self.byte;
        Ok(())
    }
}
