//! The text of a special.

ghost use Rattle.std.specs.Prelude.{◌≡◌, ◌≤◌, length, IfOk};
ghost use Rattle.node_core.specs.declared.limits.TheConstants.{MAX_SPECIAL_TEXT};

use std::alloc::{AllocError, Global};
use std::marker::Model;

/// The text of a special: at most `MAX_SPECIAL_TEXT` bytes, which are also its value in contracts (TeX: The Program, part 53; the limit is own).
#[derive(Debug, Drop)]
pub struct SpecialText {
    bytes: Vec<u8>,
}

impl Model for SpecialText {
    ghost use Rattle.std.specs.Prelude.{List, ℕ, ◌≤◌, length};
    ghost use Rattle.node_core.specs.declared.limits.TheConstants.{MAX_SPECIAL_TEXT};

    ghost Value = { List ℕ };

    ghost view = { λ text. text.bytes.items };

    ghost invariant = { λ text. length text.bytes.items ≤ MAX_SPECIAL_TEXT };
}

impl SpecialText {
    /// The text with these bytes, at most `MAX_SPECIAL_TEXT`. Does not allocate.
    pub fn from_vec(bytes: Vec<u8>) -> SpecialText
        requires text_bounded { length bytes.items ≤ MAX_SPECIAL_TEXT }
        ensures { result ≡ bytes.items }
    {
        SpecialText { bytes }
    }

    /// The bytes of the text.
    pub fn as_bytes(&self) -> &[u8]
        ensures bytes { result.now ≡ self.now }
        ensures text_bounded { length self.now ≤ MAX_SPECIAL_TEXT }
    {
        &self.bytes
    }

    /// A copy of the text. The error is that memory was refused.
    pub fn copy(&self, alloc: Global) -> Result<SpecialText, AllocError>
        ensures { IfOk result (λ copy. copy ≡ self.now) }
    {
        let bytes = self.bytes.to_vec(alloc)?;
        Ok(SpecialText { bytes })
    }
}
