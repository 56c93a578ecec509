//! Reads the instruction at the start of some bytes.

ghost use Rattle.std.specs.Prelude.{◌≡◌, ◌≤◌, ◌-◌, length, option_map, slice_index, take, IfOk, OnErr, ◌↔◌, ℕ};
ghost use Rattle.dvi_ops.specs.Instruction.{Across, Downward, Instruction};
ghost use Rattle.dvi_ops.specs.Private.Reading.{bop_at, char_at, definition_at, font_at, frame_at, long_at, movement_at, plain_at, post_at};
ghost use Rattle.dvi_ops.specs.Private.Reading.{post_post_at, pre_at, read, text_at};
ghost use Rattle.dvi_ops.specs.Table.{Spells};
ghost use Rattle.dvi_ops.specs.View.{definition as view_definition, view};

use crate::body_op::BodyOp;
use crate::fault::OpFault;
use crate::op::{FontDefinition, Op, Postamble, Units};
use crate::opcodes;
use crate::operand::{
    code_number, comment, counts_of, halves, names, operand_size, signed_number, three, two,
};
use byteorder::{BigEndian, ByteOrder};

/// A character, with a code from 0 to 131.
#[tactic(auto, unfolding(crate::specs::Private::Reading::char_at))]
fn character(operation: u8, rest: &[u8]) -> Option<(Op<'_>, &[u8])>
    requires { operation ≤ 131 }
    ensures { option_map (λ found. (view found.0, found.1.now)) result ≡ char_at operation rest.now }
{
    if operation < opcodes::SET1 {
        return Some((Op::Body(BodyOp::SetChar(i32::from(operation))), rest));
    }
    let (number, rest) = code_number(rest, operand_size(operation, opcodes::SET1))?;
    Some((Op::Body(BodyOp::SetChar(number)), rest))
}

/// The operands of bop.
#[tactic(auto, unfolding(crate::specs::Private::Reading::bop_at))]
fn bop(bytes: &[u8]) -> Option<(Op<'_>, &[u8])>
    ensures { option_map (λ found. (view found.0, found.1.now)) result ≡ bop_at bytes.now }
{
    let (operand, rest) = bytes.split_at_checked(40)?;
    let counts = counts_of(operand);
    let (pointer, rest) = signed_number(rest, 4)?;
    Some((Op::Bop { counts, pointer }, rest))
}

/// Rules, put, nop, bop, eop, push and pop, with a code from 132 to 142.
#[tactic(auto, unfolding(crate::specs::Private::Reading::plain_at))]
fn plain(operation: u8, rest: &[u8]) -> Option<(Op<'_>, &[u8])>
    requires low { 132 ≤ operation }
    requires high { operation ≤ 142 }
    ensures { option_map (λ found. (view found.0, found.1.now)) result ≡ plain_at operation rest.now }
{
    match operation {
        opcodes::SET_RULE => {
            let ((height, width), rest) = two(rest)?;
            Some((Op::Body(BodyOp::SetRule { height, width }), rest))
        }
        opcodes::PUT1..=opcodes::PUT4 => {
            let (number, rest) = code_number(rest, operand_size(operation, opcodes::PUT1))?;
            Some((Op::Body(BodyOp::PutChar(number)), rest))
        }
        opcodes::PUT_RULE => {
            let ((height, width), rest) = two(rest)?;
            Some((Op::Body(BodyOp::PutRule { height, width }), rest))
        }
        opcodes::NOP => Some((Op::Body(BodyOp::Nop), rest)),
        opcodes::BOP => bop(rest),
        opcodes::EOP => Some((Op::Eop, rest)),
        opcodes::PUSH => Some((Op::Body(BodyOp::Push), rest)),
        _ => Some((Op::Body(BodyOp::Pop), rest)),
    }
}

/// Movements to the right, with a code from 143 to 156.
#[tactic(auto, unfolding(crate::specs::Private::Reading::movement_at))]
fn across(operation: u8, rest: &[u8]) -> Option<(Op<'_>, &[u8])>
    requires low { 143 ≤ operation }
    requires high { operation ≤ 156 }
    ensures { option_map (λ found. (view found.0, found.1.now)) result ≡ movement_at Across (operation - 142) rest.now }
{
    match operation {
        opcodes::RIGHT1..=opcodes::RIGHT4 => {
            let (amount, rest) = signed_number(rest, operand_size(operation, opcodes::RIGHT1))?;
            Some((Op::Body(BodyOp::Right(amount)), rest))
        }
        opcodes::W0 => Some((Op::Body(BodyOp::W0), rest)),
        opcodes::W1..=opcodes::W4 => {
            let (amount, rest) = signed_number(rest, operand_size(operation, opcodes::W1))?;
            Some((Op::Body(BodyOp::W(amount)), rest))
        }
        opcodes::X0 => Some((Op::Body(BodyOp::X0), rest)),
        _ => {
            let (amount, rest) = signed_number(rest, operand_size(operation, opcodes::X1))?;
            Some((Op::Body(BodyOp::X(amount)), rest))
        }
    }
}

/// Movements down, with a code from 157 to 170.
#[tactic(auto, unfolding(crate::specs::Private::Reading::movement_at))]
fn down(operation: u8, rest: &[u8]) -> Option<(Op<'_>, &[u8])>
    requires low { 157 ≤ operation }
    requires high { operation ≤ 170 }
    ensures { option_map (λ found. (view found.0, found.1.now)) result ≡ movement_at Downward (operation - 156) rest.now }
{
    match operation {
        opcodes::DOWN1..=opcodes::DOWN4 => {
            let (amount, rest) = signed_number(rest, operand_size(operation, opcodes::DOWN1))?;
            Some((Op::Body(BodyOp::Down(amount)), rest))
        }
        opcodes::Y0 => Some((Op::Body(BodyOp::Y0), rest)),
        opcodes::Y1..=opcodes::Y4 => {
            let (amount, rest) = signed_number(rest, operand_size(operation, opcodes::Y1))?;
            Some((Op::Body(BodyOp::Y(amount)), rest))
        }
        opcodes::Z0 => Some((Op::Body(BodyOp::Z0), rest)),
        _ => {
            let (amount, rest) = signed_number(rest, operand_size(operation, opcodes::Z1))?;
            Some((Op::Body(BodyOp::Z(amount)), rest))
        }
    }
}

/// The selection of a font, with a code from 171 to 238.
#[tactic(auto, unfolding(crate::specs::Private::Reading::font_at))]
fn font(operation: u8, rest: &[u8]) -> Option<(Op<'_>, &[u8])>
    requires low { 171 ≤ operation }
    requires high { operation ≤ 238 }
    ensures { option_map (λ found. (view found.0, found.1.now)) result ≡ font_at operation rest.now }
{
    if operation < opcodes::FNT1 {
        return Some((
            Op::Body(BodyOp::FontNum(i32::from(operation - opcodes::FNT_NUM_0))),
            rest,
        ));
    }
    let (number, rest) = code_number(rest, operand_size(operation, opcodes::FNT1))?;
    Some((Op::Body(BodyOp::FontNum(number)), rest))
}

/// A special whose length has `size` bytes.
#[tactic(auto, unfolding(crate::specs::Private::Reading::text_at))]
fn text(bytes: &[u8], size: usize) -> Option<(Op<'_>, &[u8])>
    requires low { 1 ≤ size }
    requires high { size ≤ 4 }
    ensures { option_map (λ found. (view found.0, found.1.now)) result ≡ text_at size bytes.now }
{
    let (count, rest) = bytes.split_at_checked(size)?;
    let count = BigEndian::read_uint(count, size) as usize;
    let (text, rest) = rest.split_at_checked(count)?;
    Some((Op::Body(BodyOp::Xxx(text)), rest))
}

/// A font definition whose number has `size` bytes.
#[tactic(auto, unfolding(crate::specs::Private::Reading::definition_at))]
fn definition(bytes: &[u8], size: usize) -> Option<(FontDefinition<'_>, &[u8])>
    requires low { 1 ≤ size }
    requires high { size ≤ 4 }
    ensures { option_map (λ found. (view_definition found.0, found.1.now)) result ≡ definition_at size bytes.now }
{
    let (number, rest) = code_number(bytes, size)?;
    let ((check_sum, size, design_size), rest) = three(rest)?;
    let ((area, name), rest) = names(rest)?;
    let font = FontDefinition {
        number,
        check_sum,
        size,
        design_size,
        area,
        name,
    };
    Some((font, rest))
}

/// A special or a font definition, with a code from 239 to 246.
#[tactic(auto, unfolding(crate::specs::Private::Reading::long_at))]
fn long(operation: u8, rest: &[u8]) -> Option<(Op<'_>, &[u8])>
    requires low { 239 ≤ operation }
    requires high { operation ≤ 246 }
    ensures { option_map (λ found. (view found.0, found.1.now)) result ≡ long_at operation rest.now }
{
    if operation < opcodes::FNT_DEF1 {
        return text(rest, operand_size(operation, opcodes::XXX1));
    }
    let (font, rest) = definition(rest, operand_size(operation, opcodes::FNT_DEF1))?;
    Some((Op::FontDef(font), rest))
}

/// The operands of pre.
#[tactic(auto, unfolding(crate::specs::Private::Reading::pre_at))]
fn pre(bytes: &[u8]) -> Option<(Op<'_>, &[u8])>
    ensures { option_map (λ found. (view found.0, found.1.now)) result ≡ pre_at bytes.now }
{
    let (id, rest) = bytes.split_first()?;
    let ((num, den, mag), rest) = three(rest)?;
    let (comment, rest) = comment(rest)?;
    Some((
        Op::Pre {
            id: *id,
            units: Units { num, den, mag },
            comment,
        },
        rest,
    ))
}

/// The operands of post.
#[tactic(auto, unfolding(crate::specs::Private::Reading::post_at))]
fn post(bytes: &[u8]) -> Option<(Op<'_>, &[u8])>
    ensures { option_map (λ found. (view found.0, found.1.now)) result ≡ post_at bytes.now }
{
    let (last_bop, rest) = signed_number(bytes, 4)?;
    let ((num, den, mag), rest) = three(rest)?;
    let ((height_plus_depth, width), rest) = two(rest)?;
    let ((stack_depth, pages), rest) = halves(rest)?;
    let units = Units { num, den, mag };
    Some((
        Op::Post(Postamble {
            last_bop,
            units,
            height_plus_depth,
            width,
            stack_depth,
            pages,
        }),
        rest,
    ))
}

/// The operands of post_post.
#[tactic(auto, unfolding(crate::specs::Private::Reading::post_post_at))]
fn post_post(bytes: &[u8]) -> Option<(Op<'_>, &[u8])>
    ensures { option_map (λ found. (view found.0, found.1.now)) result ≡ post_post_at bytes.now }
{
    let (place, rest) = signed_number(bytes, 4)?;
    let (id, rest) = rest.split_first()?;
    Some((Op::PostPost { place, id: *id }, rest))
}

/// The preamble and the instructions of the postamble, with a code from 247; the codes from 250 begin no instruction.
#[tactic(auto, unfolding(crate::specs::Private::Reading::frame_at))]
fn frame(operation: u8, rest: &[u8]) -> Option<(Op<'_>, &[u8])>
    requires { 247 ≤ operation }
    ensures { option_map (λ found. (view found.0, found.1.now)) result ≡ frame_at operation rest.now }
{
    match operation {
        opcodes::PRE => pre(rest),
        opcodes::POST => post(rest),
        opcodes::POST_POST => post_post(rest),
        _ => None,
    }
}

/// The instruction at the start of some bytes, and the rest of the bytes.
#[tactic(auto, unfolding(crate::specs::Private::Reading::read))]
#[inline(always)]
fn first_op(bytes: &[u8]) -> Option<(Op<'_>, &[u8])>
    ensures { option_map (λ found. (view found.0, found.1.now)) result ≡ read bytes.now }
{
    let (operation, rest) = bytes.split_first()?;
    match *operation {
        0..=opcodes::SET4 => character(*operation, rest),
        opcodes::SET_RULE..=opcodes::POP => plain(*operation, rest),
        opcodes::RIGHT1..=opcodes::X4 => across(*operation, rest),
        opcodes::DOWN1..=opcodes::Z4 => down(*operation, rest),
        opcodes::FNT_NUM_0..=opcodes::FNT4 => font(*operation, rest),
        opcodes::XXX1..=opcodes::FNT_DEF4 => long(*operation, rest),
        opcodes::PRE.. => frame(*operation, rest),
    }
}

/// The fault where no instruction begins at the start of some bytes.
fn fault_of(bytes: &[u8]) -> OpFault
    ensures { (result ≡ OpFault.Opcode) ↔ (250 ≤ slice_index bytes.now 0) }
{
    match bytes.first() {
        Some(operation) if opcodes::POST_POST < *operation => OpFault::Opcode,
        _ => OpFault::Truncated,
    }
}

/// Reads the instruction at the start of some bytes, and returns it with the number of bytes that spell it (DVItype, 15 to 20). Where no instruction
/// begins there, the fault is `Opcode` if the first byte is 250 to 255, and `Truncated` otherwise. It takes no memory.
// A caller that has it inside takes an instruction apart in registers, and not in memory.
#[inline(always)]
pub fn next(bytes: &[u8]) -> Result<(Op<'_>, usize), OpFault>
    ensures length { IfOk result (λ found. found.1 ≤ length bytes.now) }
    // The first bytes spell the instruction.
    ensures found { IfOk result (λ found. Spells (view found.0) (take found.1 bytes.now)) }
    // A fault is returned only where no beginning of the bytes spells an instruction.
    ensures none { OnErr result ((i : Instruction) (size : ℕ) → Spells i (take size bytes.now) → ⊥) }
    // The fault is `Opcode` exactly where the first byte is 250 to 255.
    ensures opcode { (result ≡ Err OpFault.Opcode) ↔ (250 ≤ slice_index bytes.now 0) }
{
    match first_op(bytes) {
        Some((op, rest)) => Ok((op, bytes.len() - rest.len())),
        None => Err(fault_of(bytes)),
    }
}
