//! A page that a file has space for: its reference point, its load, its edges, and its instructions as they are written.

ghost use Rattle.std.specs.Prelude.{◌≡◌, ◌≤◌, ◌+ℤ◌, true, false, if◌then◌else◌, OnOk, IfOk, IfErr};
ghost use Rattle.dvi_ops.specs.Forest.{flat};
ghost use Rattle.dvi_ops.specs.Runs.{instructions_of};
ghost use Rattle.scaled_core.specs.Dimensions.{fits};
ghost use Rattle.page_core.specs.Marks.{is_huge};
ghost use Rattle.dvi_write.specs.Admitted.{shipped_page};
ghost use Rattle.dvi_write.specs.FilePages.{written_body};

use crate::fault::WriteFault;
use dvi_ops::PageRuns;
use move_core::reuse_runs;
use node_core::BoxNode;
use page_core::PagePoint;
use scaled_core::{COUNTS, Dimen};
use ship_core::{ShipFault, plan_runs};
use std::alloc::Global;

/// The greatest capacity for characters of a page at the start. A page of a book has fewer characters.
const MAX_CAPACITY: u64 = 16_384;

/// The number of nodes of the box of a page, and the number of bytes in the texts of its specials.
#[derive(Clone, Copy, Debug, PartialEq, Eq)]
pub struct PageLoad {
    pub nodes: u64,
    pub text: u64,
}

/// A page that a file has space for: its box, the reference point of the box, its counts, and the load of the box.
#[derive(Clone, Copy)]
pub struct AdmittedPage<'a> {
    pub box_node: &'a BoxNode,
    pub at: PagePoint,
    pub counts: [i32; COUNTS],
    pub load: PageLoad,
}

/// The greatest number of nodes of a page that takes its space as it grows. Mostly such a page has no character.
const FEW_NODES: u64 = 3;

/// The capacity for characters of a page with that many nodes. A quarter of it is for the other instructions, so a page of few nodes gets more.
fn capacity_for(nodes: u64) -> usize
    // More space than the bound could be refused where the page itself finds memory.
    ensures { result ≤ 16384 }
{
    if nodes <= FEW_NODES {
        return 0;
    }
    nodes
        .saturating_add(nodes / 8)
        .saturating_add(16)
        .min(MAX_CAPACITY) as usize
}

/// The instructions of a page body as it is written. The fault is HugePage exactly where the page is huge, and OutOfMemory otherwise.
pub fn written_body<'a>(alloc: Global, page: &AdmittedPage<'a>) -> Result<PageRuns<'a>, WriteFault>
    ensures ok { IfOk result (λ runs. instructions_of runs ≡ flat (written_body (shipped_page page.now))) }
    ensures fits { OnOk result (is_huge (shipped_page page.now) ≡ false) }
    ensures err { IfErr result (λ fault. fault
        ≡ (if is_huge (shipped_page page.now) then WriteFault.HugePage else WriteFault.OutOfMemory)) }
{
    let capacity = capacity_for(page.load.nodes);
    match plan_runs(alloc, page.box_node, page.at, capacity) {
        Ok(drawn) => Ok(reuse_runs(drawn)?),
        Err(ShipFault::HugePage) => Err(WriteFault::HugePage),
        Err(ShipFault::OutOfMemory) => Err(WriteFault::OutOfMemory),
    }
}

/// The bottom of a page.
#[tactic(auto, using(scaled_core::proofs::Fitting::fits_within))]
pub fn reach_down(page: &AdmittedPage<'_>) -> Dimen
    requires { fits (page.now.at.v +ℤ page.now.box_node.now.depth) ≡ true }
    ensures { result ≡ page.now.at.v +ℤ page.now.box_node.now.depth }
{
    Dimen::new(i64::from(page.at.v) + i64::from(page.box_node.depth.get()))
}

/// The right edge of a page.
#[tactic(auto, using(scaled_core::proofs::Fitting::fits_within))]
pub fn reach_right(page: &AdmittedPage<'_>) -> Dimen
    requires { fits (page.now.at.h +ℤ page.now.box_node.now.width) ≡ true }
    ensures { result ≡ page.now.at.h +ℤ page.now.box_node.now.width }
{
    Dimen::new(i64::from(page.at.h) + i64::from(page.box_node.width.get()))
}
