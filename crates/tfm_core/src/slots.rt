//! The fonts of a job, by slot.

ghost use Rattle.std.specs.Prelude.{◌≡◌, List, Option, Some, None, IfOk, OnOk, option_copied, replicate, slice_set};
ghost use Rattle.tfm_core.specs.Slots.{font_in, IsDefinable, AreDefinable};

use crate::font::Font;
use crate::font_file::FontName;
use std::alloc::{AllocError, Global};
use std::marker::Model;

/// The number of font slots.
pub const FONT_SLOTS: usize = 256;

/// A font that was read, with the name of its file.
#[derive(Debug, Drop)]
pub struct LoadedFont {
    pub name: FontName,
    pub font: Font,
}

impl LoadedFont {
    /// The font can be defined in a file, since names and sizes of fonts always can. This is a fact for the proofs, and the call does nothing.
    fn can_be_defined(&self)
        ensures { IsDefinable self.now }
    {
        let _name = self.name.as_bytes();
        let _size = self.font.size().get();
        let _design_size = self.font.design_size().get();
        let _check_sum = self.font.check_sum();
    }
}

/// The slots: each has a font, or none.
#[derive(Debug, Drop)]
pub struct Fonts {
    slots: Vec<Option<LoadedFont>>,
}

impl Model for Fonts {
    ghost use Rattle.std.specs.Prelude.{List, Option};
    ghost use Rattle.std.specs.Coded.{coded_list, coded_option};
    ghost use Rattle.tfm_core.specs.declared.slots.LoadedFont.{LoadedFont};
    ghost use Rattle.tfm_core.specs.Slots.{AreDefinable};
    ghost use Rattle.tfm_core.specs.contracts.slots.LoadedFont as loaded_font;

    ghost Value = { List (Option LoadedFont) };

    ghost coded = { coded_list (coded_option loaded_font.the_row.coded) };

    ghost view = { λ fonts. fonts.slots.items };

    ghost invariant = { λ fonts. AreDefinable fonts.slots.items };
}

impl Fonts {
    /// Slots without fonts. It takes memory for all slots; the result is an Err where this is refused.
    pub fn new(alloc: Global) -> Result<Fonts, AllocError>
        ensures { IfOk result (λ fonts. fonts ≡ replicate FONT_SLOTS None) }
    {
        let mut slots = Vec::with_capacity(alloc, FONT_SLOTS)?;
        for _ in 0..FONT_SLOTS {
            slots.push(None)?;
        }
        Ok(Fonts { slots })
    }

    /// The font of a slot; None where the slot has no font.
    pub fn get(&self, slot: u8) -> Option<&LoadedFont>
        ensures { option_copied result ≡ font_in self.now slot }
    {
        self.slots[usize::from(slot)].as_ref()
    }

    /// The font of each slot can be defined in a file. This is a fact for the proofs, and the call does nothing.
    pub fn can_be_defined(&self)
        ensures { AreDefinable self.now }
    {
        let _slots = &self.slots;
    }

    /// Puts a font into a slot, in place of an earlier one.
    pub fn put(&mut self, slot: u8, loaded: LoadedFont)
        ensures { self.new ≡ slice_set self.old slot (Some loaded) }
    {
        loaded.can_be_defined();
        self.slots[usize::from(slot)] = Some(loaded);
    }
}

/// A job has 256 font slots.
pub fn number_of_font_slots()
    ensures slots { FONT_SLOTS ≡ 256 }
{}
