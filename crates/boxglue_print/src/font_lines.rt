//! The lines of the fonts of a DVI file. If memory is refused, a beginning of a text may have been appended.

ghost use Rattle.std.specs.Prelude.{◌≡◌, ◌++◌, map, OnOk};
ghost use Rattle.std.specs.List.{flat_map};
ghost use Rattle.boxglue_print.specs.FontLines.{area_word, check_sum_text, font_line, fonts_lines, hexadecimal_byte, is_plain, number_and_name};
ghost use Rattle.boxglue_print.specs.FontLines.{sizes, space_and_number, units_line, word, word_byte};
ghost use Rattle.dvi_ops.specs.View.{definition, units as units_of};

use boxglue_program::{push_signed, push_text};
use dvi_ops::{FontDefinition, Units};
use dvi_read::hexadecimal_digit;
use std::alloc::AllocError;

/// Appends a byte as two hexadecimal digits.
fn push_hexadecimal(byte: u8, out: &mut Vec<u8>) -> Result<(), AllocError>
    ensures { OnOk result (out.new.items ≡ out.old.items ++ hexadecimal_byte byte) }
{
    out.push(hexadecimal_digit(byte / 16))?;
    out.push(hexadecimal_digit(byte % 16))?;
    Ok(())
}

/// Whether a byte of a word is printed unchanged.
fn is_plain(byte: u8) -> bool
    ensures { result ≡ is_plain byte }
{
    byte >= 33 && byte <= 126 && byte != b'\\'
}

/// Appends a byte of a word.
#[tactic(auto, unfolding(crate::specs::FontLines::word_byte))]
fn push_word_byte(byte: u8, out: &mut Vec<u8>) -> Result<(), AllocError>
    ensures { OnOk result (out.new.items ≡ out.old.items ++ word_byte byte) }
{
    if is_plain(byte) {
        out.push(byte)?;
        return Ok(());
    }
    out.push(b'\\')?;
    push_hexadecimal(byte, out)
}

/// Appends a name as one word.
fn push_word(name: &[u8], out: &mut Vec<u8>) -> Result<(), AllocError>
    ensures { OnOk result (out.new.items ≡ out.old.items ++ word name.now) }
{
    if name.is_empty() {
        out.push(b'\\')?;
        return Ok(());
    }
    for byte in name {
        push_word_byte(*byte, out)?;
    }
    Ok(())
}

/// Appends a space and the area as one word, if it is not empty.
fn push_area(area: &[u8], out: &mut Vec<u8>) -> Result<(), AllocError>
    ensures { OnOk result (out.new.items ≡ out.old.items ++ area_word area.now) }
{
    if area.is_empty() {
        return Ok(());
    }
    push_text(" ", out)?;
    push_word(area, out)
}

/// Appends a check sum in eight hexadecimal digits.
#[tactic(auto, unfolding(crate::specs::FontLines::check_sum_text))]
fn push_check_sum(sum: i32, out: &mut Vec<u8>) -> Result<(), AllocError>
    ensures { OnOk result (out.new.items ≡ out.old.items ++ check_sum_text sum) }
{
    let bytes = sum.cast_unsigned().to_be_bytes();
    for byte in &bytes {
        push_hexadecimal(*byte, out)?;
    }
    Ok(())
}

/// Appends a space and a number.
#[tactic(auto, unfolding(crate::specs::FontLines::space_and_number))]
fn push_spaced(number: i32, out: &mut Vec<u8>) -> Result<(), AllocError>
    ensures { OnOk result (out.new.items ≡ out.old.items ++ space_and_number number) }
{
    push_text(" ", out)?;
    push_signed(i64::from(number), out)
}

/// Appends the number of a font and its name.
#[tactic(auto, unfolding(crate::specs::FontLines::number_and_name))]
fn push_name(font: &FontDefinition<'_>, out: &mut Vec<u8>) -> Result<(), AllocError>
    ensures { OnOk result (out.new.items ≡ out.old.items ++ number_and_name (definition font.now)) }
{
    push_text("font", out)?;
    push_spaced(font.number, out)?;
    push_text(" ", out)?;
    push_word(font.name, out)
}

/// Appends the sizes of a font and its check sum.
#[tactic(auto, unfolding(crate::specs::FontLines::sizes))]
fn push_sizes(font: &FontDefinition<'_>, out: &mut Vec<u8>) -> Result<(), AllocError>
    ensures { OnOk result (out.new.items ≡ out.old.items ++ sizes (definition font.now)) }
{
    push_spaced(font.size, out)?;
    push_spaced(font.design_size, out)?;
    push_text(" ", out)?;
    push_check_sum(font.check_sum, out)
}

/// Appends the line of a font.
#[tactic(auto, unfolding(crate::specs::FontLines::font_line))]
fn push_font(font: &FontDefinition<'_>, out: &mut Vec<u8>) -> Result<(), AllocError>
    ensures { OnOk result (out.new.items ≡ out.old.items ++ font_line (definition font.now)) }
{
    push_name(font, out)?;
    push_sizes(font, out)?;
    push_area(font.area, out)?;
    push_text("\n", out)
}

/// Appends the line of the units.
#[tactic(auto, unfolding(crate::specs::FontLines::units_line))]
fn push_units(units: Units, out: &mut Vec<u8>) -> Result<(), AllocError>
    ensures { OnOk result (out.new.items ≡ out.old.items ++ units_line (units_of units)) }
{
    push_text("units", out)?;
    push_spaced(units.num, out)?;
    push_spaced(units.den, out)?;
    push_spaced(units.mag, out)?;
    push_text("\n", out)
}

/// Appends the lines of fonts.
fn push_fonts(fonts: &[FontDefinition<'_>], out: &mut Vec<u8>) -> Result<(), AllocError>
    ensures { OnOk result (out.new.items ≡ out.old.items ++ flat_map font_line (map definition fonts.now)) }
{
    for font in fonts {
        push_font(font, out)?;
    }
    Ok(())
}

/// Appends the line of the units and those of the fonts.
pub(crate) fn push_lines(
    units: Units,
    fonts: &[FontDefinition<'_>],
    out: &mut Vec<u8>,
) -> Result<(), AllocError>
    ensures { OnOk result (out.new.items ≡ out.old.items ++ fonts_lines (units_of units) (map definition fonts.now)) }
{
    push_units(units, out)?;
    push_fonts(fonts, out)
}
