//! Splits of vertical lists.

use node_core::{Glue, Node, Order, Rule, RuleSize, SplitParams};
use pack_core::PackedBox;
use scaled_core::Dimen;
use std::process::Abort;
use std::test::Fail;
use vert_core::{Split, split};

/// The dimension of a number of points.
fn points(rt: &impl Abort, number: i64) -> Dimen {
    if number > 16_383 {
        panic!(rt; "too many points");
    }
    if number < -16_383 {
        panic!(rt; "too many points");
    }
    Dimen::try_new(65_536 * number).expect(rt, "it fits")
}

/// A rule of this height in points, 10pt wide and without depth.
fn rule(rt: &impl Abort, height: i64) -> Node {
    Node::Rule(Rule {
        width: RuleSize::Fixed(points(rt, 10)),
        height: RuleSize::Fixed(points(rt, height)),
        depth: RuleSize::Fixed(Dimen::ZERO),
    })
}

/// Glue of this width in points, with a shrink of `shrink` times 1fil.
fn glue(rt: &impl Abort, width: i64, shrink: i64) -> Node {
    Node::Glue(Glue {
        width: points(rt, width),
        stretch: Dimen::ZERO,
        stretch_order: Order::Normal,
        shrink: points(rt, shrink),
        shrink_order: Order::Fil,
    })
}

/// Asserts the size and the badness of a box that is 10pt wide and has no depth.
fn expect_box(rt: &impl Abort, packed: &PackedBox, height: i64, badness: u32) {
    assert_eq!(rt; packed.box_node.width, points(rt, 10));
    assert_eq!(rt; packed.box_node.height, points(rt, height));
    assert_eq!(rt; packed.box_node.depth, Dimen::ZERO);
    assert_eq!(rt; packed.badness, badness);
}

/// Asserts the height and the badness of the front of a split, and the height of the rest, if there is a rest.
fn expect_split(rt: &impl Abort, parts: &Split, height: i64, badness: u32, rest: Option<i64>) {
    expect_box(rt, &parts.front, height, badness);
    match (&parts.rest, rest) {
        (None, None) => (),
        (Some(packed), Some(height)) => expect_box(rt, packed, height, 0),
        _ => panic!(rt; "another rest"),
    }
}

#[test]
fn lists_are_split(rt: HostRuntime) -> Result<(), Fail> {
    let alloc = rt.alloc();
    let params = SplitParams::first();
    let (a, b, c) = (rule(&rt, 5), rule(&rt, 5), rule(&rt, 5));
    let forced = Vec::from_array(alloc, [a, glue(&rt, 2, 0), b, Node::Penalty(-10_000), c])?;
    let parts = split(alloc, &forced, points(&rt, 20), &params);
    let parts = parts.expect(&rt, "its numbers fit");
    expect_split(&rt, &parts, 20, 10_000, Some(10));
    let ends = Vec::from_array(alloc, [rule(&rt, 5), glue(&rt, 2, 0)])?;
    let parts = split(alloc, &ends, points(&rt, 5), &params);
    let parts = parts.expect(&rt, "its numbers fit");
    expect_split(&rt, &parts, 5, 0, None);
    Ok(())
}
