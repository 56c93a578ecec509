//! Fonts: metric files at a size (TeX: The Program, part 30).

ghost use Rattle.std.specs.Prelude.{◌≡◌, ◌↔◌, Err, None, Some, IfOk, IfSome, IsSome, OnOk, false, true, if◌then◌else◌, is_some};
ghost use Rattle.scaled_core.specs.declared.fault.SizeFault.TheVariants.{DimensionTooLarge};
ghost use Rattle.tfm_core.specs.Fonts.{HasNumbers, chosen_size, fits_at, font_at, glyph_of, matching_step, step_of};
ghost use Rattle.tfm_core.specs.Private.FontView.{AreRows};
ghost use Rattle.tfm_core.specs.Private.Rules.{KeepsRules};

use crate::character_set::CharacterSet;
use crate::entries::Entries;
use crate::fault::FontFault;
use crate::scaling::FontSize;
use crate::sized_file::{SizedFile, fits_at};
use crate::tfm::Tfm;
use scaled_core::{Dimen, Sizes};
use std::alloc::{AllocError, Global};
use std::marker::Model;

/// The sizes of a character, in scaled points (TFtoPL, 11).
pub type GlyphSize = Sizes;

/// The space between words: parameters 2, 3 and 4 of a metric file, in scaled points (TFtoPL, 15).
#[derive(Clone, Copy, Debug, PartialEq, Eq)]
pub struct Space {
    pub width: Dimen,
    pub stretch: Dimen,
    pub shrink: Dimen,
}

/// What a font puts between two characters (TFtoPL, 13).
#[derive(Clone, Copy, Debug, PartialEq, Eq)]
pub enum Step {
    /// A kern of this width, in scaled points.
    Kern(Dimen),
    /// This character, in place of both.
    Ligature(u8),
}

/// The facts about a character of a font, computed once when the font is built.
#[derive(Clone, Copy, Debug)]
struct FontRow {
    /// The sizes of the character, if the font has it.
    glyph: Option<GlyphSize>,
    /// The step at which the character's program begins, if it has one.
    start: Option<u16>,
    /// The following characters for which the program has a step. Most pairs of characters have none, so this set answers them at once.
    followers: CharacterSet,
}

/// A font at a size: a metric file, and the facts about each of the 256 characters.
#[derive(Debug, Drop)]
pub struct Font {
    file: SizedFile,
    rows: Vec<FontRow>,
}

impl Model for Font {
    ghost use Rattle.tfm_core.specs.Fonts.{SizedFont};

    ghost Value = { SizedFont };

    ghost use Rattle.tfm_core.specs.Private.FontView.{font_view, font_is_whole};

    ghost view = { font_view };

    ghost invariant = { font_is_whole };
}

/// The requested size, or the design size if none is requested.
fn chosen_size(tfm: &Tfm, size: Option<FontSize>) -> FontSize
    ensures { result ≡ chosen_size tfm.now size }
{
    match size {
        Some(size) => size,
        None => tfm.design_size(),
    }
}

/// The facts about each of the 256 characters.
fn rows(alloc: Global, file: &SizedFile) -> Result<Vec<FontRow>, AllocError>
    ensures { IfOk result (λ rows. AreRows file.now rows.items) }
{
    let mut rows = Vec::with_capacity(alloc, 256)?;
    for code in 0..256usize {
        let glyph = file.glyph(code as u8);
        let start = file.start(code as u8);
        let followers = file.followers(code as u8, start);
        rows.push(FontRow {
            glyph,
            start,
            followers,
        })?;
    }
    Ok(rows)
}

/// The font at a size at which its dimensions fit.
fn font_at(alloc: Global, file: &Entries, size: FontSize) -> Result<Font, AllocError>
    requires kept { KeepsRules file.now }
    requires fits { fits_at file.now size ≡ true }
    ensures value { IfOk result (λ font. font ≡ font_at file.now size) }
    ensures numbers { IfOk result HasNumbers }
{
    let file = SizedFile::new(alloc, file, size)?;
    let rows = rows(alloc, &file)?;
    Ok(Font { file, rows })
}

impl Font {
    /// The font of a metric file at this size, or at its design size (TeX: The Program, part 30). Allocates its tables.
    ///
    /// `DimensionTooLarge` is returned exactly when the absolute value of a width, height, depth, kern or size of the space is 2^30 scaled points or
    /// more. All sizes are tested before the font is built; otherwise this error could come after memory was refused. `OutOfMemory` is returned if an
    /// allocation is refused.
    pub fn at_size(alloc: Global, tfm: &Tfm, size: Option<FontSize>) -> Result<Font, FontFault>
        ensures ok { IfOk result (λ font. font ≡ font_at tfm.now (chosen_size tfm.now size)) }
        ensures fits { OnOk result (fits_at tfm.now (chosen_size tfm.now size) ≡ true) }
        ensures numbers { IfOk result HasNumbers }
        ensures refused { (result ≡ Err DimensionTooLarge) ↔ (fits_at tfm.now (chosen_size tfm.now size) ≡ false) }
    {
        let size = chosen_size(tfm, size);
        if !fits_at(tfm.entries(), size) {
            return Err(FontFault::DimensionTooLarge);
        }
        Ok(font_at(alloc, tfm.entries(), size)?)
    }

    /// The size of the font, in scaled points.
    pub fn size(&self) -> FontSize
        ensures { result ≡ self.now.size }
    {
        self.file.size()
    }

    /// The checksum of its metric file (TFtoPL, 10).
    pub fn check_sum(&self) -> i32
        ensures { result ≡ self.now.check_sum }
    {
        self.file.check_sum()
    }

    /// The design size of its metric file, in scaled points (TFtoPL, 10).
    pub fn design_size(&self) -> FontSize
        ensures { result ≡ self.now.design_size }
    {
        self.file.design_size()
    }

    /// The space between words. Does not allocate.
    pub fn space(&self) -> Space
        ensures { result ≡ self.now.space }
    {
        self.file.space()
    }

    /// The sizes of a character, or `None` exactly when the font does not have it (TFtoPL, 11). Does not allocate.
    pub fn glyph(&self, code: u8) -> Option<GlyphSize>
        ensures { result ≡ glyph_of self.now code }
    {
        self.rows[usize::from(code)].glyph
    }

    /// The sizes of a character that the font has, if its program has no step for the following one; otherwise `None`. One look at what is known of
    /// the character answers both, and most characters of a text are so. Does not allocate.
    #[inline(always)]
    pub fn alone(&self, code: u8, following: u8) -> Option<GlyphSize>
        ensures value { result ≡ (if is_some (matching_step self.now code following) then None else glyph_of self.now code) }
        ensures alone { IfSome result (λ size. (glyph_of self.now code ≡ Some size) × (step_of self.now code following ≡ None)) }
    {
        let row = &self.rows[usize::from(code)];
        if row.followers.contains(following) {
            return None;
        }
        row.glyph
    }

    /// The kern or ligature between a character and the following one: the first step of the character's program for the following character, or
    /// `None` if there is none (TFtoPL, 13). Does not allocate.
    #[tactic(auto, unfolding(crate::specs::Fonts::step_of))]
    pub fn step(&self, code: u8, following: u8) -> Option<Step>
        ensures value { result ≡ step_of self.now code following }
        ensures found { IsSome result ↔ IsSome (matching_step self.now code following) }
    {
        let row = &self.rows[usize::from(code)];
        if !row.followers.contains(following) {
            return None;
        }
        let step = self.file.step_from(code, row.start?, following)?;
        self.file.action(step)
    }
}
