//! The contents of a metric file at a size (TeX: The Program, part 30).

ghost use Rattle.std.specs.Prelude.{◌≡◌, ◌≤◌, ◌<◌, ℕ, map, IfOk, IfSome, is_some, true};
ghost use Rattle.tfm_core.specs.Fonts.{HasNumbers, action_of, are_dimens_at, fits_at, font_at, glyph_of, is_dimen_at, is_space_at, matching_step};
ghost use Rattle.tfm_core.specs.Fonts.{parameter, sizes_of, space_at};
ghost use Rattle.tfm_core.specs.Private.Fonts.{HasAction, IsInTables};
ghost use Rattle.tfm_core.specs.Private.FontView.{is_in, start_of};
ghost use Rattle.tfm_core.specs.Rules.{character_at};
ghost use Rattle.tfm_core.specs.Private.Rules.{KeepsRules};
ghost use Rattle.tfm_core.specs.Scaling.{scaled as scaled_by};

use crate::character_set::CharacterSet;
use crate::entries::Entries;
use crate::font::{GlyphSize, Space, Step};
use crate::program::{first_from, followers_from, start};
use crate::record::{CharInfo, KERN_FLAG, LigKernStep};
use crate::rules::character_at;
use crate::scaling::{FontSize, scaled_fix};
use scaled_core::Dimen;
use std::alloc::{AllocError, Global};
use std::marker::Model;

/// A metric file at a size.
#[derive(Debug, Drop)]
pub struct SizedFile {
    size: FontSize,
    check_sum: i32,
    design_size: FontSize,
    first: u16,
    characters: Vec<CharInfo>,
    widths: Vec<Dimen>,
    heights: Vec<Dimen>,
    depths: Vec<Dimen>,
    steps: Vec<LigKernStep>,
    kerns: Vec<Dimen>,
    space: Space,
}

impl Model for SizedFile {
    ghost use Rattle.tfm_core.specs.Fonts.{SizedFont};

    ghost Value = { SizedFont };

    ghost use Rattle.tfm_core.specs.Private.FontView.{file_view, file_is_whole};

    ghost view = { file_view };

    ghost invariant = { file_is_whole };
}

/// Whether the size of a word fits as a dimension.
#[tactic(auto, unfolding(crate::specs::Fonts::is_dimen_at))]
fn is_dimen_at(size: FontSize, word: i32) -> bool
    ensures { result ≡ is_dimen_at size word }
{
    Dimen::try_new(scaled_fix(word, size)).is_some()
}

/// Whether the size of each of these words fits as a dimension.
#[tactic(auto, unfolding(crate::specs::Fonts::are_dimens_at))]
fn are_dimens_at(size: FontSize, words: &[i32]) -> bool
    ensures { result ≡ are_dimens_at size words.now }
{
    words.iter().all(|word| is_dimen_at(size, *word))
}

/// Parameter n, which counts from 1, or 0 if the file does not have it (TeX: The Program, part 30, §575).
fn parameter(n: usize, parameters: &[i32]) -> i32
    requires { 1 ≤ n }
    ensures { result ≡ parameter n parameters.now }
{
    parameters.get(n - 1).copied().unwrap_or(0)
}

/// Whether the sizes of the space at a size fit as dimensions.
#[tactic(auto, unfolding(crate::specs::Fonts::is_space_at))]
fn is_space_at(size: FontSize, parameters: &[i32]) -> bool
    ensures { result ≡ is_space_at size parameters.now }
{
    is_dimen_at(size, parameter(2, parameters))
        && is_dimen_at(size, parameter(3, parameters))
        && is_dimen_at(size, parameter(4, parameters))
}

/// Whether all sizes of the font fit as dimensions.
#[tactic(auto, unfolding(crate::specs::Fonts::fits_at))]
pub fn fits_at(file: &Entries, size: FontSize) -> bool
    ensures { result ≡ fits_at file.now size }
{
    are_dimens_at(size, &file.widths)
        && are_dimens_at(size, &file.heights)
        && are_dimens_at(size, &file.depths)
        && are_dimens_at(size, &file.kerns)
        && is_space_at(size, &file.parameters)
}

/// The size of a word that fits.
#[tactic(auto, using(crate::proofs::SizeLemmas::dimensions))]
fn dimension(size: FontSize, word: i32) -> Dimen
    requires { is_dimen_at size word ≡ true }
    ensures { result ≡ scaled_by size word }
{
    Dimen::new(scaled_fix(word, size))
}

/// The sizes of words that all fit.
fn dimensions(alloc: Global, size: FontSize, words: &[i32]) -> Result<Vec<Dimen>, AllocError>
    requires { are_dimens_at size words.now ≡ true }
    ensures { IfOk result (λ dimensions. dimensions.items ≡ map (scaled_by size) words.now) }
{
    let mut dimensions = Vec::with_capacity(alloc, words.len())?;
    for word in words {
        dimensions.push(dimension(size, *word))?;
    }
    Ok(dimensions)
}

/// The size of parameter n, which fits.
#[tactic(auto, using(crate::proofs::SizeLemmas::tables))]
fn parameter_at(size: FontSize, n: usize, parameters: &[i32]) -> Dimen
    requires number { 1 ≤ n }
    requires fits { is_dimen_at size (parameter n parameters.now) ≡ true }
    ensures { result ≡ scaled_by size (parameter n parameters.now) }
{
    dimension(size, parameter(n, parameters))
}

/// The space at a size at which it fits.
#[tactic(auto, using(crate::proofs::SizeLemmas::spaces), unfolding(crate::specs::Fonts::space_at))]
fn space_at(size: FontSize, parameters: &[i32]) -> Space
    requires { is_space_at size parameters.now ≡ true }
    ensures { result ≡ space_at size parameters.now }
{
    Space {
        width: parameter_at(size, 2, parameters),
        stretch: parameter_at(size, 3, parameters),
        shrink: parameter_at(size, 4, parameters),
    }
}

impl SizedFile {
    /// The file at a size at which its dimensions fit.
    #[tactic(auto, using(crate::proofs::WholeLemmas::whole), unfolding(crate::specs::Fonts::font_at))]
    pub fn new(alloc: Global, file: &Entries, size: FontSize) -> Result<SizedFile, AllocError>
        requires kept { KeepsRules file.now }
        requires fits { fits_at file.now size ≡ true }
        ensures value { IfOk result (λ font. font ≡ font_at file.now size) }
        ensures numbers { IfOk result HasNumbers }
    {
        Ok(SizedFile {
            size,
            check_sum: file.check_sum,
            design_size: FontSize::from_design_word(file.design_word),
            first: file.counts.first,
            characters: file.characters.to_vec(alloc)?,
            widths: dimensions(alloc, size, &file.widths)?,
            heights: dimensions(alloc, size, &file.heights)?,
            depths: dimensions(alloc, size, &file.depths)?,
            steps: file.steps.to_vec(alloc)?,
            kerns: dimensions(alloc, size, &file.kerns)?,
            space: space_at(size, &file.parameters),
        })
    }

    /// The size of the font, in scaled points.
    pub fn size(&self) -> FontSize
        ensures { result ≡ self.now.size }
    {
        self.size
    }

    /// The checksum (TFtoPL, 10).
    pub fn check_sum(&self) -> i32
        ensures { result ≡ self.now.check_sum }
    {
        self.check_sum
    }

    /// The design size, in scaled points (TFtoPL, 10).
    pub fn design_size(&self) -> FontSize
        ensures { result ≡ self.now.design_size }
    {
        self.design_size
    }

    /// The space between words.
    pub fn space(&self) -> Space
        ensures { result ≡ self.now.space }
    {
        self.space
    }

    /// The entry of a character, if the font has it.
    #[tactic(auto, using(crate::proofs::FontLemmas::glyphs))]
    fn character(&self, code: u8) -> Option<CharInfo>
        ensures value { result ≡ character_at self.now.first self.now.characters code }
        ensures sizes { IfSome result (IsInTables self.now) }
    {
        character_at(self.first, &self.characters, code)
    }

    /// The sizes that the entry of a character names.
    fn sizes(&self, info: CharInfo) -> GlyphSize
        requires { IsInTables self.now info }
        ensures { result ≡ sizes_of self.now info }
    {
        GlyphSize {
            width: self.widths[usize::from(info.width)],
            height: self.heights[usize::from(info.height)],
            depth: self.depths[usize::from(info.depth)],
        }
    }

    /// The sizes of a character, or `None` exactly when the font does not have it (TFtoPL, 11).
    #[tactic(auto, unfolding(crate::specs::Fonts::glyph_of))]
    pub fn glyph(&self, code: u8) -> Option<GlyphSize>
        ensures { result ≡ glyph_of self.now code }
    {
        let info = self.character(code)?;
        Some(self.sizes(info))
    }

    /// The step at which a character's program begins, if it has a program (TFtoPL, 13).
    #[tactic(auto, unfolding(crate::specs::Private::FontView::start_of))]
    pub fn start(&self, code: u8) -> Option<u16>
        ensures { result ≡ start_of self.now code }
    {
        let info = self.character(code)?;
        start(&self.steps, info.tag)
    }

    /// The following characters for which a character's program, which begins at step `start`, has a step.
    pub fn followers(&self, code: u8, start: Option<u16>) -> CharacterSet
        requires { start ≡ start_of self.now code }
        ensures { (f : ℕ) → f < 256 → is_in result f ≡ is_some (matching_step self.now code f) }
    {
        match start {
            Some(start) => followers_from(&self.steps, usize::from(start)),
            None => CharacterSet::new(),
        }
    }

    /// The first step for the following character in a character's program, which begins at step `start`.
    pub fn step_from(&self, code: u8, start: u16, following: u8) -> Option<LigKernStep>
        requires { Some start ≡ start_of self.now code }
        ensures value { result ≡ matching_step self.now code following }
        ensures action { IfSome result (HasAction self.now) }
    {
        first_from(&self.steps, usize::from(start), following)
    }

    /// The kern or ligature of a step.
    #[tactic(auto, unfolding(crate::specs::Fonts::action_of))]
    pub fn action(&self, step: LigKernStep) -> Option<Step>
        ensures { result ≡ action_of self.now step }
    {
        if KERN_FLAG <= step.op {
            let kern = 256 * usize::from(step.op - KERN_FLAG) + usize::from(step.remainder);
            return Some(Step::Kern(*self.kerns.get(kern)?));
        }
        if character_at(self.first, &self.characters, step.remainder).is_none() {
            return None;
        }
        Some(Step::Ligature(step.remainder))
    }
}
