//! The slots of the fonts that a file defines.

ghost use Rattle.std.specs.Prelude.{◌≡◌, ◌<◌, ◌≤◌, ◌+◌, ◌++◌, [], ◌∷◌, length};

use std::marker::Model;
use tfm_core::FONT_SLOTS;

/// The slots of the fonts that are defined, in the order of their definitions: at most `FONT_SLOTS` of them. They are bytes of the writer itself, so
/// `DviWriter::new` takes no memory.
#[derive(Drop)]
pub struct DefinedSlots {
    slots: [u8; FONT_SLOTS],
    count: usize,
}

impl Model for DefinedSlots {
    ghost use Rattle.std.specs.Prelude.{◌≤◌, ℕ, List, take};
    ghost use Rattle.tfm_core.specs.declared.slots.TheConstants.{FONT_SLOTS};

    ghost Value = { List ℕ };

    ghost view = { λ defined. take defined.count defined.slots };

    ghost invariant = { λ defined. defined.count ≤ FONT_SLOTS };
}

impl DefinedSlots {
    /// An empty list of slots.
    pub fn new() -> DefinedSlots
        ensures { result ≡ [] }
    {
        DefinedSlots {
            slots: [0; FONT_SLOTS],
            count: 0,
        }
    }

    /// The slots, in the order of their definitions.
    pub fn as_slice(&self) -> &[u8]
        ensures { result.now ≡ self.now }
    {
        &self.slots[..self.count]
    }

    /// A copy of the slots.
    pub fn copy(&self) -> DefinedSlots
        ensures { result ≡ self.now }
    {
        DefinedSlots { ..*self }
    }

    /// Adds a slot after the others.
    fn push(&mut self, slot: u8)
        requires { length self.old < FONT_SLOTS }
        ensures { self.new ≡ self.old ++ slot ∷ [] }
    {
        self.slots[self.count] = slot;
        self.count += 1;
    }

    /// Adds slots after the others, in order.
    pub fn append(&mut self, slots: &[u8])
        requires { length self.old + length slots.now ≤ FONT_SLOTS }
        ensures { self.new ≡ self.old ++ slots.now }
    {
        for slot in slots {
            self.push(*slot);
        }
    }
}
