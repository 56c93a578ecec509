//! A font in rows of numbers: its characters, its parameters, and what it puts between two characters.

ghost use Rattle.std.specs.Prelude.{◌≡◌, ◌++◌, Option, ℤ, IfOk, OnOk};
ghost use Rattle.boxglue_calls.specs.Metrics.{character_steps, font_steps, measure_of, no_glyph, pair_steps, step_row, word_measure};

use scaled_core::Dimen;
use std::alloc::{AllocError, Global};
use tfm_core::{Font, FontSize, Step, scaled};

/// A number of scaled points, or 0 where there is none.
#[repr(C)]
#[derive(Clone, Copy, Debug, PartialEq, Eq)]
pub struct Measure {
    pub value: i32,
    /// 1 where the number in the metric file is too large, and `value` is 0.
    pub is_unfit: u32,
}

/// A character of a font, in scaled points. What is not there has zeros.
#[repr(C)]
#[derive(Clone, Copy, Debug, PartialEq, Eq)]
pub struct Glyph {
    /// 1 where the font has the character.
    pub is_there: u32,
    pub width: i32,
    pub height: i32,
    pub depth: i32,
    /// The italic correction.
    pub italic: Measure,
}

/// The characters of a font: the row with the number of each.
#[repr(C)]
#[derive(Clone, Copy, Debug)]
pub struct GlyphTable {
    pub rows: [Glyph; 256],
}

/// The numbers of a font beside its characters, in scaled points.
#[repr(C)]
#[derive(Clone, Copy, Debug, PartialEq, Eq)]
pub struct FontParameters {
    /// The size at which the font was measured.
    pub size: i32,
    /// The design size in the metric file.
    pub design_size: i32,
    /// The check sum in the metric file: four bytes, the highest first.
    pub check_sum: u32,
    /// Parameter 1, the slant, as it stands in the file: a ratio in units of 1 / 2^20.
    pub slant: i32,
    /// Parameters 2 to 4: the width, stretch and shrink of a space.
    pub space: i32,
    pub stretch: i32,
    pub shrink: i32,
    /// Parameters 5 to 7.
    pub x_height: Measure,
    pub quad: Measure,
    pub extra_space: Measure,
}

/// What a font puts between two characters, or in their place.
#[repr(C)]
#[derive(Clone, Copy, Debug, PartialEq, Eq)]
pub struct FontStep {
    pub character: u32,
    pub following: u32,
    /// 1 for a kern, 2 for a ligature.
    pub kind: u32,
    /// The width of the kern, in scaled points; 0 for a ligature.
    pub kern: i32,
    /// The character that stands for both; 0 for a kern.
    pub ligature: u32,
}

/// A number that fits, or none.
fn measure_of(value: Option<Dimen>) -> Measure
    ensures { result ≡ measure_of value }
{
    match value {
        Some(value) => Measure {
            value: value.get(),
            is_unfit: 0,
        },
        None => Measure {
            value: 0,
            is_unfit: 1,
        },
    }
}

/// The measure of a word of a metric file at a size.
pub(crate) fn word_measure(size: FontSize, word: i32) -> Measure
    ensures { result ≡ word_measure size word }
{
    match scaled(word, size) {
        Some(value) => measure_of(Dimen::try_new(value)),
        None => measure_of(None),
    }
}

/// The row of a character that the font does not have.
pub(crate) fn no_glyph() -> Glyph
    ensures { result ≡ no_glyph }
{
    Glyph {
        is_there: 0,
        width: 0,
        height: 0,
        depth: 0,
        italic: Measure {
            value: 0,
            is_unfit: 0,
        },
    }
}

/// The row of what a font puts between two characters.
fn step_row(character: u8, following: u8, step: Step) -> FontStep
    ensures { result ≡ step_row character following step }
{
    let row = FontStep {
        character: u32::from(character),
        following: u32::from(following),
        kind: 0,
        kern: 0,
        ligature: 0,
    };
    match step {
        Step::Kern(width) => FontStep {
            kind: 1,
            kern: width.get(),
            ..row
        },
        Step::Ligature(other) => FontStep {
            kind: 2,
            ligature: u32::from(other),
            ..row
        },
    }
}

/// Appends the row of two characters, if the font has a step for them.
fn push_pair(
    font: &Font,
    character: u8,
    following: u8,
    steps: &mut Vec<FontStep>,
) -> Result<(), AllocError>
    ensures { OnOk result (steps.new.items ≡ steps.old.items ++ pair_steps font.now character following) }
{
    let Some(step) = font.step(character, following) else {
        return Ok(());
    };
    steps.push(step_row(character, following, step))?;
    Ok(())
}

/// Appends the rows of a character and each following one.
fn push_character(font: &Font, character: u8, steps: &mut Vec<FontStep>) -> Result<(), AllocError>
    ensures { OnOk result (steps.new.items ≡ steps.old.items ++ character_steps font.now character) }
{
    for following in 0..256_u32 {
        push_pair(font, character, following as u8, steps)?;
    }
    Ok(())
}

/// The rows of all pairs of characters for which a font has a step.
pub(crate) fn font_steps(alloc: Global, font: &Font) -> Result<Vec<FontStep>, AllocError>
    ensures { IfOk result (λ steps. steps.items ≡ font_steps font.now) }
{
    let mut steps = Vec::new(alloc);
    for character in 0..256_u32 {
        push_character(font, character as u8, &mut steps)?;
    }
    Ok(steps)
}
