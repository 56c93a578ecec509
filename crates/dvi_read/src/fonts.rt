//! The fonts that were read, the selection of a font, and the widths of characters (DVItype, 18; TFtoPL, 11).

ghost use Rattle.std.specs.Prelude.{◌≡◌, ◌++◌, ◌∷◌, [], false, length, option_map, true, ℕ, None, OnErr, OnOk, Some, ◌⊎◌, IfErr, IfOk, IfSome};
ghost use Rattle.std.specs.BTreeMap.{IsEmpty, Updates};
ghost use Rattle.std.specs.Ordering.{int_cmp};
ghost use Rattle.dvi_scan.specs.Widths.{HasBytes};
ghost use Rattle.dvi_scan.specs.declared.widths.FontRefusal.TheVariants.{NoFont};
ghost use Rattle.dvi_ops.specs.View.{view, definition};
ghost use Rattle.dvi_read.specs.PageMarks.{read_width};
ghost use Rattle.dvi_read.specs.ReadFonts.{AreSound, AreUnchanged, HaveByteCodes};
ghost use Rattle.dvi_read.specs.Private.ReadFonts.{IsIndexOfSame};
ghost use Rattle.dvi_read.specs.ReadFonts.{asked_width, code_in, font_index, read_font_at, width_in, with_current};
ghost use Rattle.tfm_core.specs.FileWidths.{width_at, file_widths};
ghost use Rattle.tfm_core.specs.NamedBytes.{file_named};
ghost use Rattle.std.specs.List.{AllByRecursion};
ghost use Rattle.dvi_ops.specs.Fonts.{IsFontSize, first_definition_of};
ghost use Rattle.dvi_scan.specs.Reached.{has_number};
ghost use Rattle.dvi_read.specs.Steps.{IsSelectFault, Selects};

use crate::check::walk::Source;
use crate::fault::StepFault;
use dvi_ops::{BodyOp, FontDefinition, Op};
use dvi_scan::{
    DviCause, FontNumber, FontRefusal, KnownFonts, NumbersAfterPost, PassFault, is_after_post,
    read_font,
};
use std::alloc::{AllocError, Global};
use std::collections::BTreeMap;
use tfm_core::{Font, FontFile, file_named};

/// The fonts that were read, in the order of their first selections; the index of each number among them; and the index of the font that was selected
/// last. Numbers with the same name and size have one font: a file may define thousands of them.
///
/// A number is searched only at a selection, in time logarithmic in the count of fonts. A character takes its width from the font at `current`,
/// without a search. Whoever reads the pages of a checked file again has a `current` of its own.
#[derive(Drop)]
pub struct ReadFonts {
    pub all: Vec<Font>,
    pub indices: BTreeMap<i32, usize>,
    pub current: usize,
    /// A number that was read, by the key of its font. It only leads to a definition that is then compared: no clause depends on it.
    numbers: BTreeMap<u64, i32>,
}

/// A number for each pair of one of the first 2^37 metric files and a size, if the font has a file.
fn key_of(files: &[FontFile], font: &FontDefinition<'_>) -> Option<u64> {
    let index = files
        .iter()
        .position(|file| file.name().as_bytes() == font.name)?;
    let size = u64::try_from(font.size).ok()?;
    (index as u64).checked_mul(1 << 27)?.checked_add(size)
}

/// The number of a character.
#[derive(Clone, Copy, Debug, PartialEq, Eq)]
pub struct CharCode {
    pub value: i32,
}

/// The width of a character in scaled points; None exactly where the font has no such character (TFtoPL, 11). It takes no memory.
pub fn width_of(font: &Font, code: CharCode) -> Option<i32>
    requires { HasBytes font.now }
    ensures { result ≡ width_at font.now code.value }
{
    let code = u8::try_from(code.value).ok()?;
    let size = font.glyph(code)?;
    Some(size.width.get())
}

impl ReadFonts {
    /// No fonts.
    pub(crate) fn new(alloc: Global) -> ReadFonts
        ensures all { result.all.items ≡ [] }
        ensures indices { IsEmpty result.indices }
    {
        ReadFonts {
            all: Vec::new(alloc),
            indices: BTreeMap::new(alloc),
            current: 0,
            numbers: BTreeMap::new(alloc),
        }
    }

    /// The index of the font of a number, if it was read. It takes no memory.
    pub(crate) fn index_of(&self, number: FontNumber) -> Option<usize>
        ensures { result ≡ font_index number.value self.now }
    {
        let index = self.indices.get(&number.value)?;
        Some(*index)
    }

    /// Selects the font of a number, if it was read before, and returns whether it was. It takes no memory.
    fn choose(&mut self, number: FontNumber) -> bool
        ensures yes { result ≡ true → (index : ℕ) × (font_index number.value self.old ≡ Some index)
            × (self.new ≡ record self.old { current = index }) }
        ensures no { result ≡ false → (font_index number.value self.old ≡ None) × (self.new ≡ self.old) }
    {
        match self.index_of(number) {
            Some(index) => {
                self.current = index;
                true
            }
            None => false,
        }
    }

    /// The index of a font that was read for another number with the same name and size, if one was. It takes no memory.
    fn index_of_same(
        &self,
        key: Option<u64>,
        known: &KnownFonts<'_>,
        font: &FontDefinition<'_>,
    ) -> Option<usize>
        ensures { IfSome result (IsIndexOfSame known.now (definition font.now) self.now) }
    {
        let number = FontNumber {
            value: *self.numbers.get(&key?)?,
        };
        let other = known.get(number)?;
        if other.size != font.size {
            return None;
        }
        if other.name != font.name {
            return None;
        }
        self.index_of(number)
    }

    /// Gives a number the font at an index, and selects it. It takes memory for the number.
    fn share(&mut self, number: FontNumber, index: usize) -> Result<(), AllocError>
        ensures indices { OnOk result (Updates int_cmp self.old.indices self.new.indices number.value (Some index)) }
        ensures all { self.new.all.items ≡ self.old.all.items }
        ensures current { OnOk result (self.new.current ≡ index) }
        ensures err { OnErr result (AreUnchanged self.old self.new) }
    {
        self.indices.insert(number.value, index)?;
        self.current = index;
        Ok(())
    }

    /// Keeps the number of a font that is read next, by the font's key. It takes memory.
    fn keep_number(&mut self, key: Option<u64>, number: FontNumber) -> Result<(), AllocError>
        ensures { AreUnchanged self.old self.new }
    {
        if let Some(key) = key {
            self.numbers.insert(key, number.value)?;
        }
        Ok(())
    }

    /// Adds the font of a number, and selects it. It takes memory for both.
    pub(crate) fn add(&mut self, number: FontNumber, font: Font) -> Result<(), AllocError>
        ensures indices { OnOk result (Updates int_cmp self.old.indices self.new.indices number.value (Some (length self.old.all.items))) }
        ensures all { OnOk result (self.new.all.items ≡ self.old.all.items ++ font ∷ []) }
        ensures current { OnOk result (self.new.current ≡ length self.old.all.items) }
        ensures err { OnErr result (AreUnchanged self.old self.new) }
    {
        self.all.reserve(1)?;
        let index = self.all.len();
        self.indices.insert(number.value, index)?;
        self.all.push(font).unwrap();
        self.current = index;
        Ok(())
    }

    /// The width of a character in the font of a number; None where that font was not read, or has no such character. It takes no memory, and time
    /// logarithmic in the count of fonts.
    pub fn width_by(&self, number: FontNumber, code: CharCode) -> Option<i32>
        requires { HaveByteCodes self.now }
        ensures { result ≡ read_width self.now number.value code.value }
    {
        let index = self.index_of(number)?;
        self.width_at(index, code)
    }

    /// The width of a character in the font at an index; None where there is no font or no such character. It takes no memory.
    pub(crate) fn width_at(&self, index: usize, code: CharCode) -> Option<i32>
        requires { HaveByteCodes self.now }
        ensures { result ≡ width_in (read_font_at self.now index) code.value }
    {
        let font = self.all.get(index)?;
        width_of(font, code)
    }
}

/// The character that an instruction sets or puts, if it does one of both.
fn code_of(op: &Op<'_>) -> Option<CharCode>
    ensures { option_map (λ code. code.value) result ≡ code_in (view op.now) }
{
    match *op {
        Op::Body(BodyOp::SetChar(value)) => Some(CharCode { value }),
        Op::Body(BodyOp::PutChar(value)) => Some(CharCode { value }),
        _ => None,
    }
}

/// The width of the character that an instruction sets or puts, in the font at `current`, which was selected last. It takes no memory. A new page
/// leaves `current` as it is: the page begins without a font, and no width is needed before its first selection.
pub fn width_asked(fonts: &ReadFonts, current: usize, op: &Op<'_>) -> Option<i32>
    requires { HaveByteCodes fonts.now }
    ensures { result ≡ asked_width (with_current fonts.now current) (code_in (view op.now)) }
{
    let code = code_of(op)?;
    fonts.width_at(current, code)
}

/// The first definition of a number, where the number is also defined after post.
fn definition_in<'f, 'a>(
    after_post: &NumbersAfterPost,
    known: &'f KnownFonts<'a>,
    number: FontNumber,
) -> Option<&'f FontDefinition<'a>>
    ensures font_defined { IfSome result (λ font. (has_number after_post.now.keys number.value ≡ true)
        × (first_definition_of number.value known.now ≡ Some (definition font.now))) }
    ensures none { result ≡ None → (first_definition_of number.value known.now ≡ None) ⊎ (has_number after_post.now.keys number.value ≡ false) }
{
    if !is_after_post(after_post, number) {
        return None;
    }
    known.get(number)
}

/// The metric file of a font, which is the first one with the name in its definition. The refusal is NoFont, with this name.
fn font_file<'f, 'a>(
    files: &'f [FontFile],
    font: &FontDefinition<'a>,
) -> Result<&'f FontFile, FontRefusal<'a>>
    ensures found { IfOk result (λ file. file_named font.now.name.now files.now ≡ Some file.now) }
    // The refusal has the name, and none of the files has it.
    ensures name { IfErr result (λ refusal. refusal ≡ NoFont font.now.name) }
    ensures none { OnErr result (file_named font.now.name.now files.now ≡ None) }
{
    file_named(files, font.name).ok_or(FontRefusal::NoFont(font.name))
}

/// The number of a definition.
fn number_of(font: &FontDefinition<'_>) -> FontNumber
    ensures { result.value ≡ font.now.number }
{
    FontNumber { value: font.number }
}

/// Reads the font of the first definition of a number, which was not read before, and selects it; or gives the number a font that was read for the
/// same name and size. The faults are those of `select`. A file has few such selections, and `select` stays small without them.
fn select_first<'a>(
    alloc: Global,
    source: &Source<'_, 'a>,
    known: &KnownFonts<'a>,
    fonts: &mut ReadFonts,
    font: &FontDefinition<'a>,
) -> Result<(), StepFault<'a>>
    requires sizes { AllByRecursion (λ d. IsFontSize d.size) known.now }
    requires sound { AreSound (file_widths source.now.files.now) known.now fonts.old }
    requires first { first_definition_of font.now.number known.now ≡ Some (definition font.now) }
    requires after_post { has_number source.now.after_post.now.keys font.now.number ≡ true }
    requires new { font_index font.now.number fonts.old ≡ None }
    ensures ok { OnOk result (Selects (file_widths source.now.files.now) source.now.after_post.now.keys known.now font.now.number
        fonts.old fonts.new) }
    ensures bad { IfErr result (IsSelectFault source.now.files.now source.now.after_post.now.keys known.now fonts.old font.now.number) }
    ensures unchanged { OnErr result (AreUnchanged fonts.old fonts.new) }
{
    let number = number_of(font);
    let key = key_of(source.files, font);
    if let Some(index) = fonts.index_of_same(key, known, font) {
        fonts.share(number, index)?;
        return Ok(());
    }
    let file = font_file(source.files, font)?;
    let read = match read_font(alloc, file.bytes(), font) {
        Ok(read) => read,
        Err(fault) => return Err(StepFault::of_read(font.number, fault)),
    };
    fonts.keep_number(key, number)?;
    fonts.add(number, read)?;
    Ok(())
}

/// Selects the font of a number, and reads it where it was not read before. The fault is Font where no definition of the number is before the
/// selection, or none is after post. It is a refusal of the font where no metric file with the name in its first definition is given, or the first
/// such file is bad; or OutOfMemory.
pub fn select<'a>(
    alloc: Global,
    source: &Source<'_, 'a>,
    known: &KnownFonts<'a>,
    fonts: &mut ReadFonts,
    number: FontNumber,
) -> Result<(), StepFault<'a>>
    requires sizes { AllByRecursion (λ d. IsFontSize d.size) known.now }
    requires sound { AreSound (file_widths source.now.files.now) known.now fonts.old }
    ensures ok { OnOk result (Selects (file_widths source.now.files.now) source.now.after_post.now.keys known.now number.value fonts.old fonts.new) }
    // Memory is refused only for a font that was not read before and whose file exists and breaks no rule that needs no table.
    ensures bad { IfErr result (IsSelectFault source.now.files.now source.now.after_post.now.keys known.now fonts.old number.value) }
    ensures unchanged { OnErr result (AreUnchanged fonts.old fonts.new) }
{
    let Some(font) = definition_in(source.after_post, known, number) else {
        return Err(StepFault::Pass(PassFault::Broken(DviCause::Font)));
    };
    if fonts.choose(number) {
        return Ok(());
    }
    select_first(alloc, source, known, fonts, font)
}
