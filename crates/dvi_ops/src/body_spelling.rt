//! The spelling of an instruction of a page body.

ghost use Rattle.std.specs.Prelude.{◌≡◌, ◌++◌, OnOk, OnErr};
ghost use Rattle.dvi_ops.specs.Spelling.{HasSpelling, NumbersFit, spelling};
ghost use Rattle.dvi_ops.specs.Table.{Spells};
ghost use Rattle.dvi_ops.specs.View.{body_view};

use crate::body_op::BodyOp;
use crate::opcodes;
use crate::spelling::{
    append_byte, append_char, append_coded, append_font, append_rule, append_signed, append_text,
    size_of_code,
};
use std::alloc::AllocError;

/// Appends the spelling of an instruction of a body, the same bytes as `spell` appends. The text of a special has fewer than 2^32 bytes. Where memory
/// is refused, `out` is unchanged.
#[tactic(auto, unfolding(crate::specs::Spelling::spelling, crate::specs::Spelling::leaf_spelling))]
#[inline(always)]
pub fn spell_body(op: &BodyOp<'_>, out: &mut Vec<u8>) -> Result<(), AllocError>
    requires { HasSpelling (body_view op.now) }
    ensures ok { OnOk result (out.new.items ≡ out.old.items ++ spelling (body_view op.now)) }
    // The bytes that are written spell the instruction.
    ensures spelled { Spells (body_view op.now) (spelling (body_view op.now)) }
    // The numbers of an op fit their fields.
    ensures fits { NumbersFit (body_view op.now) }
    ensures err { OnErr result (out.new.items ≡ out.old.items) }
{
    match op {
        BodyOp::SetChar(character) => append_char(out, *character),
        BodyOp::PutChar(character) => append_coded(
            out,
            opcodes::PUT1,
            size_of_code(*character),
            *character,
        ),
        BodyOp::SetRule { height, width } => append_rule(out, opcodes::SET_RULE, *height, *width),
        BodyOp::PutRule { height, width } => append_rule(out, opcodes::PUT_RULE, *height, *width),
        BodyOp::Nop => append_byte(out, opcodes::NOP),
        BodyOp::Push => append_byte(out, opcodes::PUSH),
        BodyOp::Pop => append_byte(out, opcodes::POP),
        BodyOp::Right(amount) => append_signed(out, opcodes::RIGHT1, *amount),
        BodyOp::W0 => append_byte(out, opcodes::W0),
        BodyOp::W(amount) => append_signed(out, opcodes::W1, *amount),
        BodyOp::X0 => append_byte(out, opcodes::X0),
        BodyOp::X(amount) => append_signed(out, opcodes::X1, *amount),
        BodyOp::Down(amount) => append_signed(out, opcodes::DOWN1, *amount),
        BodyOp::Y0 => append_byte(out, opcodes::Y0),
        BodyOp::Y(amount) => append_signed(out, opcodes::Y1, *amount),
        BodyOp::Z0 => append_byte(out, opcodes::Z0),
        BodyOp::Z(amount) => append_signed(out, opcodes::Z1, *amount),
        BodyOp::FontNum(font) => append_font(out, *font),
        BodyOp::Xxx(text) => append_text(out, text),
    }
}
