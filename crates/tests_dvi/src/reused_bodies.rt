//! Bodies of pages, and the instructions that are written for them with registers.

use dvi_ops::BodyOp;
use dvi_ops::BodyOp::{Down, Pop, Push, Right, W, W0, Y, Y0, Z};
use move_core::{is_plain_body, reuse};
use std::alloc::Global;
use std::process::Abort;
use std::test::Fail;

const C: BodyOp<'static> = BodyOp::SetChar(99);

/// Asserts the instructions that are written for a body.
fn expect_reused(
    rt: &impl Abort,
    alloc: Global,
    body: &[BodyOp<'static>],
    written: &[BodyOp<'static>],
) -> Result<(), Fail> {
    let mut ops = Vec::new(alloc);
    ops.extend_from_slice(body)?;
    if !is_plain_body(&ops) {
        panic!(rt; "a register is named, or a group is not closed");
    }
    assert_eq!(rt; reuse(ops)?.as_slice(), written);
    Ok(())
}

#[test]
fn bodies_that_no_box_gives(rt: HostRuntime) -> Result<(), Fail> {
    let alloc = rt.alloc();
    expect_reused(&rt, alloc, &[], &[])?;
    expect_reused(
        &rt,
        alloc,
        &[Right(0), Down(0), Right(-3), Down(-3), Right(0), Down(-3)],
        &[W(0), Down(0), Right(-3), Y(-3), W0, Y0],
    )?;
    expect_reused(
        &rt,
        alloc,
        &[Push, Push, Pop, BodyOp::FontNum(1), Pop, C],
        &[Push, BodyOp::FontNum(1), Pop, C],
    )
}

#[test]
fn bodies_that_name_no_register(rt: HostRuntime) {
    assert!(rt; is_plain_body(&[]));
    assert!(rt; is_plain_body(&[Push, Right(5), Push, Pop, BodyOp::Nop, Pop, Down(1)]));
    assert!(rt; !is_plain_body(&[Push, Pop, Pop, Push]));
    assert!(rt; !is_plain_body(&[Push, C]));
    assert!(rt; !is_plain_body(&[W0]));
    assert!(rt; !is_plain_body(&[Push, Z(5), Pop]));
}
