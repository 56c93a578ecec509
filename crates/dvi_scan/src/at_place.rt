//! The instruction at a place of a file.

ghost use Rattle.std.specs.Prelude.{◌≡◌, ◌≤◌, ◌<◌, ◌-◌, Err, length, drop, slice_index, take, IfOk, OnErr};
ghost use Rattle.dvi_ops.specs.Instruction.{Instruction};
ghost use Rattle.dvi_ops.specs.Table.{Spells};
ghost use Rattle.dvi_ops.specs.View.{view};
ghost use Rattle.dvi_scan.specs.Ends.{IsSpelledAt};

use dvi_ops::{BodyOp, Op, OpFault, next};

/// Reads the instruction at a place, where it ends at or before `bound`, and returns it with the place after it (DVItype, 15 to 20). The fault is
/// Opcode where the first byte is 250 to 255, and Truncated where the instruction is cut off or there is no byte. It takes no memory.
#[inline(always)]
pub fn read_at(bytes: &[u8], place: usize, bound: usize) -> Result<(Op<'_>, usize), OpFault>
    requires low { place ≤ bound }
    requires high { bound ≤ length bytes.now }
    // The bytes from the place to the place after it spell the instruction.
    ensures found { IfOk result (λ found. Spells (view found.0) (take (found.1 - place) (drop place bytes.now))) }
    ensures after { IfOk result (λ found. place < found.1) }
    ensures end_bounded { IfOk result (λ found. found.1 ≤ bound) }
    // A fault is returned only where no instruction is there.
    ensures none { OnErr result ((i : Instruction) → IsSpelledAt bytes.now place bound i → ⊥) }
    // The fault is Opcode only where the first byte begins no instruction.
    ensures opcode { result ≡ Err OpFault.Opcode → 250 ≤ slice_index bytes.now place }
    // There is a first byte then.
    ensures first { result ≡ Err OpFault.Opcode → place < bound }
    // The fault is Truncated only where the first byte begins an instruction, or there is none.
    ensures truncated { result ≡ Err OpFault.Truncated → place < bound → 250 ≤ slice_index bytes.now place → ⊥ }
{
    // Most instructions are characters of one byte, which is their code. They need no table.
    if place < bound && bytes[place] < 128 {
        return Ok((
            Op::Body(BodyOp::SetChar(i32::from(bytes[place]))),
            place + 1,
        ));
    }
    match next(&bytes[place..bound]) {
        Ok((op, size)) => Ok((op, place + size)),
        Err(fault) => Err(fault),
    }
}
