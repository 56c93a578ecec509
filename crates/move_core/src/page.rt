//! The body of a page in fewer bytes.

ghost use Rattle.std.specs.Prelude.{◌≡◌, ◌≤◌, length, map, IfOk};
ghost use Rattle.std.specs.List.{AllByRecursion};
ghost use Rattle.dvi_ops.specs.Instruction.{Axis};
ghost use Rattle.dvi_ops.specs.Forest.{Forest, flat};
ghost use Rattle.dvi_ops.specs.Layout.{IsWritable, bytes_of};
ghost use Rattle.dvi_ops.specs.Runs.{instructions_of};
ghost use Rattle.dvi_ops.specs.View.{body_view};
ghost use Rattle.move_core.specs.Reused.{reused_body};
ghost use Rattle.move_core.specs.SamePage.{AreBodies, HasNoHollow, IsPlainBody, MeansTheSame, NestsNoDeeper, PassesThroughNoOther, SetsBeforeUse};
ghost use Rattle.move_core.specs.SamePage.{UsesStored, leaves_in_order, unset_registers};

use crate::passes::{has_empty_group, with_registers, without_empty_groups};
use dvi_ops::{BodyOp, PageRuns};
use std::alloc::AllocError;

/// Writes the movements of a page body with w, x, y and z where their amounts come again, and removes empty groups. Where memory is refused, the list
/// is dropped.
///
/// The result is `reused_body` of the body; the law `reused_means_the_same` says the clauses below of every page body.
pub fn reuse<'a>(ops: Vec<BodyOp<'a>>) -> Result<Vec<BodyOp<'a>>, AllocError>
    // The instructions are the body of a page, and none sets or reads w, x, y or z.
    requires { IsPlainBody (map body_view ops.items) }
    // From every state: the same marks, the same place and font at the end, and no meaning where there was none.
    ensures meaning { IfOk result (λ written. AreBodies MeansTheSame (map body_view ops.entry.items) (map body_view written.items)) }
    // The written body passes through no place (h, v) that the given one does not.
    ensures points { IfOk result (λ written. AreBodies PassesThroughNoOther (map body_view ops.entry.items) (map body_view written.items)) }
    // The groups nest no deeper.
    ensures nesting { IfOk result (λ written. AreBodies NestsNoDeeper (map body_view ops.entry.items) (map body_view written.items)) }
    // The body has no more bytes.
    ensures bytes { IfOk result (λ written. length (bytes_of (map body_view written.items)) ≤ length (bytes_of (map body_view ops.entry.items))) }
    // All instructions but movements, push and pop are the same, in the same order.
    ensures order { IfOk result (λ written. leaves_in_order (map body_view written.items) ≡ leaves_in_order (map body_view ops.entry.items)) }
    // Instructions that could be written can still be written.
    ensures writable { IfOk result (λ written. AllByRecursion IsWritable (map body_view ops.entry.items)
        → AllByRecursion IsWritable (map body_view written.items)) }
    // No group is empty or consists of empty groups alone.
    ensures full { IfOk result (λ written. AreBodies (λ f g. HasNoHollow g) (map body_view ops.entry.items) (map body_view written.items)) }
    // No movement has an amount as its operand that a register was set to and still holds.
    ensures held { IfOk result (λ written. AreBodies (λ f g. (axis : Axis) → UsesStored axis unset_registers g) (map body_view ops.entry.items)
        (map body_view written.items)) }
    // No movement without a register goes as far as a later one of its group.
    ensures set_before_use { IfOk result
        (λ written. AreBodies (λ f g. (axis : Axis) → SetsBeforeUse axis unset_registers g) (map body_view ops.entry.items)
        (map body_view written.items)) }
    // The result is the reused body.
    ensures reused { IfOk result (λ written. (body : Forest) → map body_view ops.entry.items ≡ flat body
        → map body_view written.items ≡ flat (reused_body body)) }
{
    let trimmed = without_empty_groups(ops)?;
    with_registers(trimmed)
}

/// As `reuse_runs`, for a body that may have empty groups. Few pages have them, so the body is listed here.
fn reuse_list<'a>(runs: &PageRuns<'a>) -> Result<PageRuns<'a>, AllocError>
    requires { IsPlainBody (instructions_of runs.now) }
    ensures { IfOk result (λ written. (body : Forest) → instructions_of runs.now ≡ flat body → instructions_of written ≡ flat (reused_body body)) }
{
    let alloc = *runs.ops.allocator();
    let drawn = runs.instructions(alloc)?;
    let ops = reuse(drawn)?;
    let written = PageRuns::of(alloc, &ops)?;
    Ok(written)
}

/// As `reuse`, for a body whose characters stand apart. A character uses no register, so the movements are written as among the other instructions
/// alone. Where a pop comes directly after a push there, characters may stand between the two: then all instructions are listed first.
pub fn reuse_runs<'a>(runs: PageRuns<'a>) -> Result<PageRuns<'a>, AllocError>
    requires { IsPlainBody (instructions_of runs) }
    ensures { IfOk result (λ written. (body : Forest) → instructions_of runs.entry ≡ flat body → instructions_of written ≡ flat (reused_body body)) }
{
    if has_empty_group(&runs.ops) {
        return reuse_list(&runs);
    }
    let PageRuns { codes, places, ops } = runs;
    let ops = with_registers(ops)?;
    Ok(PageRuns { codes, places, ops })
}
