//! Boxes in vertical lists, and the glue between them.

use node_core::{BoxNode, Glue, Kind, Node, NodeList, Order, Params, Setting};
use scaled_core::Dimen;
use std::alloc::Global;
use std::process::Abort;
use vert_core::append_box;

const POINT: i64 = 65536;

/// The dimension of a number of scaled points.
fn sp(rt: &impl Abort, value: i64) -> Dimen {
    Dimen::try_new(value).expect(rt, "it fits")
}

/// An empty hbox of this height and depth, 10pt wide.
fn hbox(rt: &impl Abort, alloc: Global, height: i64, depth: i64) -> BoxNode {
    BoxNode {
        kind: Kind::Horizontal,
        width: sp(rt, 10 * POINT),
        height: sp(rt, height),
        depth: sp(rt, depth),
        setting: Setting::Natural,
        list: NodeList::new(alloc),
    }
}

/// Glue of this width that stretches by 1fil.
fn glue(rt: &impl Abort, width: i64) -> Glue {
    Glue {
        width: sp(rt, width),
        stretch: sp(rt, POINT),
        stretch_order: Order::Fil,
        shrink: Dimen::ZERO,
        shrink_order: Order::Normal,
    }
}

/// The parameters of a new job, but with a baselineskip of this width.
fn baselines(rt: &impl Abort, width: i64) -> Params {
    let mut params = Params::first();
    params.baseline_skip = glue(rt, width);
    params
}

/// Asserts that a node is a box with this shift, height and depth.
fn expect_box(rt: &impl Abort, node: &Node, shift: i64, height: i64, depth: i64) {
    let Node::Box(by, box_node) = node else {
        panic!(rt; "not a box");
    };
    assert_eq!(rt; *by, sp(rt, shift));
    assert_eq!(rt; box_node.height, sp(rt, height));
    assert_eq!(rt; box_node.depth, sp(rt, depth));
}

#[test]
fn two_boxes_and_the_glue_between(rt: HostRuntime) {
    let params = baselines(&rt, 12 * POINT);
    let mut nodes = Vec::new(rt.alloc());
    let first = hbox(&rt, rt.alloc(), 5 * POINT, 2 * POINT);
    let depth = append_box(&mut nodes, first, Dimen::ZERO, Dimen::IGNORE_DEPTH, &params);
    let depth = depth.expect(&rt, "there is memory");
    assert_eq!(rt; depth, sp(&rt, 2 * POINT));
    let second = hbox(&rt, rt.alloc(), 6 * POINT, POINT);
    let depth = append_box(&mut nodes, second, sp(&rt, 3 * POINT), depth, &params);
    let depth = depth.expect(&rt, "there is memory");
    assert_eq!(rt; depth, sp(&rt, POINT));
    let [first, Node::Glue(between), second] = &nodes[..] else {
        panic!(rt; "not a box, glue and a box");
    };
    expect_box(&rt, first, 0, 5 * POINT, 2 * POINT);
    assert_eq!(rt; *between, glue(&rt, 4 * POINT));
    expect_box(&rt, second, 3 * POINT, 6 * POINT, POINT);
}
