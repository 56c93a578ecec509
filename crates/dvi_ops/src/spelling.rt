//! The spelling of an instruction: the bytes that this writer chooses for it.

ghost use Rattle.std.specs.Prelude.{◌≡◌, ◌≤◌, ◌<◌, ◌+◌, ◌-◌, ◌++◌, ◌^◌, [], ◌∷◌, length, pos, OnOk, OnErr};
ghost use Rattle.std.specs.List.{AllByRecursion, flat_map};
ghost use Rattle.dvi_ops.specs.Instruction.{FontDef, Post};
ghost use Rattle.dvi_ops.specs.Spelling.{HasSpelling, LeafFits, NumberFits, NumbersFit, UnitsFit, char_spelling, code_size, code_and_number};
ghost use Rattle.dvi_ops.specs.Spelling.{coded_signed};
ghost use Rattle.dvi_ops.specs.Spelling.{definition_spelling, font_spelling, leaf_spelling, operand, post_bytes, signed_size, spelling};
ghost use Rattle.dvi_ops.specs.Spelling.{text_spelling, units_bytes};
ghost use Rattle.dvi_ops.specs.Table.{Spells};
ghost use Rattle.dvi_ops.specs.View.{definition, view_postamble, units as view_units, view};

use crate::body_spelling::spell_body;
use crate::op::{FontDefinition, Op, Postamble, Units};
use crate::opcodes;
use byteorder::{BigEndian, ByteOrder};
use scaled_core::COUNTS;
use std::alloc::AllocError;

/// Appends the parts in order. Where memory is refused, `out` is cut back to its old length, so a caller never sees half a spelling.
fn append(out: &mut Vec<u8>, parts: &[&[u8]]) -> Result<(), AllocError>
    ensures ok { OnOk result (out.new.items ≡ out.old.items ++ flat_map (λ part. part.now) parts.now) }
    ensures err { OnErr result (out.new.items ≡ out.old.items) }
{
    let held = out.len();
    for part in parts {
        if let Err(refused) = out.extend_from_slice(part) {
            out.truncate(held);
            return Err(refused);
        }
    }
    Ok(())
}

/// Appends a byte. The first case is a store without a call, and most bytes take it.
#[inline(always)]
pub fn append_byte(out: &mut Vec<u8>, byte: u8) -> Result<(), AllocError>
    ensures ok { OnOk result (out.new.items ≡ out.old.items ++ byte ∷ []) }
    ensures err { OnErr result (out.new.items ≡ out.old.items) }
{
    if out.len() < out.capacity() {
        out.push_reserved(byte);
        return Ok(());
    }
    out.push(byte)?;
    Ok(())
}

/// The four bytes of a number, the highest first.
#[tactic(auto, unfolding(crate::specs::Spelling::operand))]
fn word(value: i32) -> [u8; 4]
    ensures { result ≡ operand 4 value }
{
    let mut bytes = [0; 4];
    BigEndian::write_i32(&mut bytes, value);
    bytes
}

/// The fewest bytes that hold a signed number.
#[tactic(auto, unfolding(crate::specs::Spelling::signed_size))]
fn size_of_signed(value: i32) -> usize
    ensures size { result ≡ signed_size value }
    ensures low { 1 ≤ result }
    ensures high { result ≤ 4 }
{
    match value {
        -128..=127 => 1,
        -32_768..=32_767 => 2,
        -8_388_608..=8_388_607 => 3,
        _ => 4,
    }
}

/// The fewest bytes that hold the number of a character or of a font. Numbers of one to three bytes are unsigned, those of four bytes are signed.
#[tactic(auto, unfolding(crate::specs::Spelling::code_size))]
pub fn size_of_code(value: i32) -> usize
    ensures size { result ≡ code_size value }
    ensures low { 1 ≤ result }
    ensures high { result ≤ 4 }
{
    match value {
        0..=255 => 1,
        256..=65_535 => 2,
        65_536..=16_777_215 => 3,
        _ => 4,
    }
}

/// Appends the code for an operand of `size` bytes, and the `size` lowest bytes of a number. `first` is the code for an operand of one byte. Space is
/// made first, so each byte is a store without a call.
#[tactic(auto, using(crate::proofs::Operands::operands))]
pub fn append_coded(out: &mut Vec<u8>, first: u8, size: usize, value: i32) -> Result<(), AllocError>
    requires low { 1 ≤ size }
    requires high { size ≤ 4 }
    requires code { 1 ≤ first }
    requires space { first + 3 < 256 }
    ensures ok { OnOk result (out.new.items ≡ out.old.items ++ code_and_number (first - 1) size value) }
    ensures err { OnErr result (out.new.items ≡ out.old.items) }
{
    let word = word(value);
    let digits = &word[4 - size..];
    out.reserve(1 + size)?;
    out.push_reserved(first - 1 + size as u8);
    for digit in digits {
        out.push_reserved(*digit);
    }
    Ok(())
}

/// Appends a character: set_char or set1 to set4.
#[tactic(auto, unfolding(crate::specs::Spelling::char_spelling))]
#[inline(always)]
pub fn append_char(out: &mut Vec<u8>, character: i32) -> Result<(), AllocError>
    ensures ok { OnOk result (out.new.items ≡ out.old.items ++ char_spelling character) }
    ensures err { OnErr result (out.new.items ≡ out.old.items) }
{
    match character {
        0..=127 => append_byte(out, character as u8),
        _ => append_coded(out, opcodes::SET1, size_of_code(character), character),
    }
}

/// Appends the selection of a font: fnt_num or fnt1 to fnt4.
#[tactic(auto, unfolding(crate::specs::Spelling::font_spelling))]
pub fn append_font(out: &mut Vec<u8>, font: i32) -> Result<(), AllocError>
    ensures ok { OnOk result (out.new.items ≡ out.old.items ++ font_spelling font) }
    ensures err { OnErr result (out.new.items ≡ out.old.items) }
{
    match font {
        0..=63 => append_byte(out, opcodes::FNT_NUM_0 + font as u8),
        _ => append_coded(out, opcodes::FNT1, size_of_code(font), font),
    }
}

/// Appends a movement with an amount, in its shortest form. `first` is the code of the form with one byte.
pub fn append_signed(out: &mut Vec<u8>, first: u8, amount: i32) -> Result<(), AllocError>
    requires code { 1 ≤ first }
    requires space { first + 3 < 256 }
    ensures ok { OnOk result (out.new.items ≡ out.old.items ++ coded_signed (first - 1) amount) }
    ensures err { OnErr result (out.new.items ≡ out.old.items) }
{
    append_coded(out, first, size_of_signed(amount), amount)
}

/// Appends the code of a rule, its height and its width.
pub fn append_rule(out: &mut Vec<u8>, code: u8, height: i32, width: i32) -> Result<(), AllocError>
    ensures ok { OnOk result (out.new.items ≡ out.old.items ++ code ∷ (operand 4 height ++ operand 4 width)) }
    ensures err { OnErr result (out.new.items ≡ out.old.items) }
{
    append(out, &[&[code], &word(height), &word(width)])
}

/// The length of a text, in four bytes.
#[tactic(auto, unfolding(crate::specs::Spelling::operand))]
fn length_of(text: &[u8]) -> [u8; 4]
    requires { length text.now < 2 ^ 32 }
    ensures { result ≡ operand 4 (pos (length text.now)) }
{
    let mut bytes = [0; 4];
    BigEndian::write_u32(&mut bytes, text.len() as u32);
    bytes
}

/// Appends a special.
#[tactic(auto, unfolding(crate::specs::Spelling::text_spelling))]
pub fn append_text(out: &mut Vec<u8>, text: &[u8]) -> Result<(), AllocError>
    requires { length text.now < 2 ^ 32 }
    ensures ok { OnOk result (out.new.items ≡ out.old.items ++ text_spelling text.now) }
    ensures err { OnErr result (out.new.items ≡ out.old.items) }
{
    if text.len() < 256 {
        return append(out, &[&[opcodes::XXX1, text.len() as u8], text]);
    }
    append(out, &[&[opcodes::XXX4], &length_of(text), text])
}

/// The twelve bytes of num, den and mag.
#[tactic(auto, unfolding(crate::specs::Spelling::operand))]
fn units_of(units: &Units) -> [u8; 12]
    ensures bytes { result ≡ units_bytes (view_units units.now) }
    ensures fits { UnitsFit (view_units units.now) }
{
    let mut bytes = [0; 12];
    BigEndian::write_i32_into(&[units.num, units.den, units.mag], &mut bytes);
    bytes
}

/// The forty bytes of the counts of a page.
#[tactic(auto, unfolding(crate::specs::Spelling::operand))]
fn counts_of(counts: &[i32; COUNTS]) -> [u8; 40]
    ensures bytes { result ≡ flat_map (operand 4) counts.now }
    ensures ten { length counts.now ≡ 10 }
    ensures fits { AllByRecursion NumberFits counts.now }
{
    // A number behind a reference has the range of its type in a proof only once it is named.
    let [_c0, _c1, _c2, _c3, _c4, _c5, _c6, _c7, _c8, _c9] = *counts;
    let mut bytes = [0; 40];
    BigEndian::write_i32_into(counts, &mut bytes);
    bytes
}

/// Appends the beginning of a page.
fn append_bop(out: &mut Vec<u8>, counts: &[i32; COUNTS], pointer: i32) -> Result<(), AllocError>
    ensures ok { OnOk result (out.new.items ≡ out.old.items ++ 139 ∷ (flat_map (operand 4) counts.now ++ operand 4 pointer)) }
    ensures ten { length counts.now ≡ 10 }
    ensures fits { AllByRecursion NumberFits counts.now }
    ensures err { OnErr result (out.new.items ≡ out.old.items) }
{
    append(out, &[&[opcodes::BOP], &counts_of(counts), &word(pointer)])
}

/// Appends a font definition.
#[tactic(auto, using(crate::proofs::Operands::operands))]
fn append_definition(out: &mut Vec<u8>, font: &FontDefinition<'_>) -> Result<(), AllocError>
    requires area { length font.now.area.now < 256 }
    requires name { length font.now.name.now < 256 }
    ensures ok { OnOk result (out.new.items ≡ out.old.items ++ definition_spelling (definition font.now)) }
    ensures fits { LeafFits (FontDef (definition font.now)) }
    ensures err { OnErr result (out.new.items ≡ out.old.items) }
{
    let size = size_of_code(font.number);
    let lengths = [font.area.len() as u8, font.name.len() as u8];
    append(
        out,
        &[
            &[opcodes::FNT_DEF1 - 1 + size as u8],
            &word(font.number)[4 - size..],
            &word(font.check_sum),
            &word(font.size),
            &word(font.design_size),
            &lengths,
            font.area,
            font.name,
        ],
    )
}

/// Appends the preamble.
fn append_pre(out: &mut Vec<u8>, id: u8, units: &Units, comment: &[u8]) -> Result<(), AllocError>
    requires { length comment.now < 256 }
    ensures ok { OnOk result
        (out.new.items ≡ out.old.items ++ 247 ∷ id ∷ (units_bytes (view_units units.now) ++ (length comment.now ∷ comment.now))) }
    ensures fits { UnitsFit (view_units units.now) }
    ensures err { OnErr result (out.new.items ≡ out.old.items) }
{
    append(
        out,
        &[
            &[opcodes::PRE, id],
            &units_of(units),
            &[comment.len() as u8],
            comment,
        ],
    )
}

/// Two numbers of two bytes each.
#[tactic(auto, unfolding(crate::specs::Spelling::operand))]
fn two_halves(first: u16, second: u16) -> [u8; 4]
    ensures bytes { result ≡ operand 2 (pos first) ++ operand 2 (pos second) }
    ensures first_fits { first < 65536 }
    ensures second_fits { second < 65536 }
{
    let mut bytes = [0; 4];
    BigEndian::write_u16_into(&[first, second], &mut bytes);
    bytes
}

/// Appends the beginning of the postamble.
fn append_post(out: &mut Vec<u8>, post: &Postamble) -> Result<(), AllocError>
    ensures ok { OnOk result (out.new.items ≡ out.old.items ++ 248 ∷ post_bytes (view_postamble post.now)) }
    ensures fits { NumbersFit (Post (view_postamble post.now)) }
    ensures err { OnErr result (out.new.items ≡ out.old.items) }
{
    append(
        out,
        &[
            &[opcodes::POST],
            &word(post.last_bop),
            &units_of(&post.units),
            &word(post.height_plus_depth),
            &word(post.width),
            &two_halves(post.stack_depth, post.pages),
        ],
    )
}

/// Appends the spelling of an instruction: the shortest one wherever an operand may have several lengths. A special of up to 255 bytes is written
/// with xxx1, a longer one with xxx4 (DVItype, 15 to 20). Each length has to fit its field: areas, names and comments have up to 255 bytes, specials
/// fewer than 2^32. This is a premise and no error, since the caller knows the lengths. Where memory is refused, `out` is unchanged.
#[tactic(auto, unfolding(crate::specs::Spelling::spelling, crate::specs::Spelling::leaf_spelling))]
pub fn spell(op: &Op<'_>, out: &mut Vec<u8>) -> Result<(), AllocError>
    requires { HasSpelling (view op.now) }
    ensures ok { OnOk result (out.new.items ≡ out.old.items ++ spelling (view op.now)) }
    // The bytes that are written spell the instruction.
    ensures spelled { Spells (view op.now) (spelling (view op.now)) }
    // The numbers of an op fit their fields.
    ensures fits { NumbersFit (view op.now) }
    ensures err { OnErr result (out.new.items ≡ out.old.items) }
{
    match op {
        Op::Body(op) => spell_body(op, out),
        Op::FontDef(font) => append_definition(out, font),
        Op::Bop { counts, pointer } => append_bop(out, counts, *pointer),
        Op::Eop => append_byte(out, opcodes::EOP),
        Op::Pre { id, units, comment } => append_pre(out, *id, units, comment),
        Op::Post(post) => append_post(out, post),
        Op::PostPost { place, id } => append(out, &[&[opcodes::POST_POST], &word(*place), &[*id]]),
    }
}
