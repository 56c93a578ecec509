//! The plan of a page: its instructions, and whether its numbers fit.

ghost use Rattle.std.specs.Prelude.{◌≡◌, ◌↔◌, ℤ, List, true, false, map, is_none, IfOk, IfErr, OnOk, IfSome};
ghost use Rattle.dvi_ops.specs.Forest.{flat};
ghost use Rattle.dvi_ops.specs.Runs.{instructions_of};
ghost use Rattle.dvi_ops.specs.View.{body_view};
ghost use Rattle.scaled_core.specs.Dimensions.{fits};
ghost use Rattle.page_core.specs.Marks.{is_huge};
ghost use Rattle.page_core.specs.Pages.{page_at};
ghost use Rattle.ship_core.specs.Drawing.{body_of};

use crate::drawing::Drawing;
use dvi_ops::{BodyOp, PageRuns};
use node_core::BoxNode;
use page_core::huge::{ends_fit, is_huge};
use page_core::{PagePoint, draw_list};
use std::alloc::{AllocError, Global};
use thiserror::Error;

/// Why a page is not drawn.
#[derive(Clone, Copy, Debug, PartialEq, Eq, Error)]
pub enum ShipFault {
    /// A place or a size on the page, in an inner box too, is more than 2^30 - 1 sp or less than -(2^30 - 1) sp.
    #[error("a place or size of the page does not fit")]
    HugePage,
    /// Memory for the instructions was refused.
    #[error("a growth of memory was refused")]
    OutOfMemory,
}

/// The instructions that draw the page of a box with the reference point `at`: plain movements, font selections, characters, rules and specials, and
/// each inner box with items between push and pop. The result is None exactly where the page is huge.
#[tactic(auto, unfolding(crate::specs::Drawing::body_of, page_core::specs::Marks::is_huge))]
fn draw_page(
    alloc: Global,
    box_node: &BoxNode,
    at: PagePoint,
    capacity: usize,
) -> Result<Option<PageRuns<'_>>, AllocError>
    ensures body { IfOk result (λ drawn. IfSome drawn (λ runs. (counts : List ℤ)
        → instructions_of runs ≡ flat (body_of (page_at counts at.h at.v box_node.now)))) }
    ensures huge { IfOk result (λ drawn. (counts : List ℤ) → is_huge (page_at counts at.h at.v box_node.now) ≡ is_none drawn) }
{
    if !ends_fit(box_node, at) {
        return Ok(None);
    }
    let mut drawing = Drawing::new(alloc, capacity)?;
    let fit = draw_list(&mut drawing, box_node, at)?;
    if !fit {
        return Ok(None);
    }
    Ok(Some(drawing.ops))
}

/// Returns the instructions that draw the page of a box with the reference point `at`, in scaled points from the origin: plain movements, font
/// selections, characters, rules and specials, and each inner box with items between push and pop. The fault is HugePage exactly where a place or a
/// size on the page does not fit, even if memory is refused too, and OutOfMemory otherwise.
pub fn plan(alloc: Global, box_node: &BoxNode, at: PagePoint) -> Result<Vec<BodyOp<'_>>, ShipFault>
    ensures ok { IfOk result (λ ops. (counts : List ℤ) → map body_view ops.items ≡ flat (body_of (page_at counts at.h at.v box_node.now))) }
    ensures fits { OnOk result ((counts : List ℤ) → is_huge (page_at counts at.h at.v box_node.now) ≡ false) }
    ensures huge { IfErr result (λ fault. (counts : List ℤ)
        → (fault ≡ ShipFault.HugePage) ↔ (is_huge (page_at counts at.h at.v box_node.now) ≡ true)) }
{
    let runs = plan_runs(alloc, box_node, at, 0)?;
    match runs.instructions(alloc) {
        Ok(ops) => Ok(ops),
        Err(_) => Err(ShipFault::OutOfMemory),
    }
}

/// As `plan`, with the characters apart from the other instructions, and with capacity for `capacity` characters from the start. Drawing stops at the
/// first number that does not fit, so one walk is enough; only where memory was refused, `is_huge` walks over the page again to find whether HugePage
/// comes first.
pub fn plan_runs(
    alloc: Global,
    box_node: &BoxNode,
    at: PagePoint,
    capacity: usize,
) -> Result<PageRuns<'_>, ShipFault>
    ensures ok { IfOk result (λ runs. (counts : List ℤ) → instructions_of runs ≡ flat (body_of (page_at counts at.h at.v box_node.now))) }
    ensures fits { OnOk result ((counts : List ℤ) → is_huge (page_at counts at.h at.v box_node.now) ≡ false) }
    ensures huge { IfErr result (λ fault. (counts : List ℤ)
        → (fault ≡ ShipFault.HugePage) ↔ (is_huge (page_at counts at.h at.v box_node.now) ≡ true)) }
{
    match draw_page(alloc, box_node, at, capacity) {
        Ok(Some(runs)) => Ok(runs),
        Ok(None) => Err(ShipFault::HugePage),
        Err(_) => {
            if is_huge(box_node, at) {
                return Err(ShipFault::HugePage);
            }
            Err(ShipFault::OutOfMemory)
        }
    }
}
