//! Where the items of boxes begin.

use node_core::{Glue, Node, NodeList, Order};
use pack_core::{Target, hpack, offset};
use scaled_core::Dimen;
use std::alloc::Global;
use std::process::Abort;
use std::test::Fail;

const POINT: i64 = 65536;

/// The dimension of a number of scaled points.
fn sp(rt: &impl Abort, value: i64) -> Dimen {
    Dimen::try_new(value).expect(rt, "it fits")
}

/// Glue of no width, with this stretch of an order and this shrink of order normal.
fn glue(rt: &impl Abort, stretch: i64, stretch_order: Order, shrink: i64) -> Node {
    Node::Glue(Glue {
        width: Dimen::ZERO,
        stretch: sp(rt, stretch),
        stretch_order,
        shrink: sp(rt, shrink),
        shrink_order: Order::Normal,
    })
}

/// Asserts where the items of the hbox of a list begin, and at last where the box ends.
fn expect_places(rt: &impl Abort, nodes: Vec<Node>, target: Target, places: &[i128]) {
    assert!(rt; nodes.len() <= 131_072);
    let Ok(packed) = hpack(NodeList::from_vec(nodes), target) else {
        panic!(rt; "a number does not fit");
    };
    let count = packed.box_node.list.len();
    assert_eq!(rt; places.len(), count + 1);
    for (i, place) in places.iter().enumerate() {
        assert!(rt; i <= count);
        assert_eq!(rt; offset(&packed.box_node, i), *place);
    }
}

#[test]
fn shares_are_rounded_once(rt: HostRuntime) -> Result<(), Fail> {
    let alloc: Global = rt.alloc();
    let wide = || glue(&rt, 1, Order::Normal, 0);
    let three = Vec::from_array(alloc, [wide(), wide(), wide()])?;
    expect_places(&rt, three, Target::To(sp(&rt, 10)), &[0, 3, 7, 10]);
    let two = Vec::from_array(alloc, [wide(), wide()])?;
    expect_places(&rt, two, Target::Spread(sp(&rt, 1)), &[0, 1, 1]);
    let narrow = || glue(&rt, 0, Order::Normal, 1);
    let two = Vec::from_array(alloc, [narrow(), narrow()])?;
    expect_places(&rt, two, Target::Spread(sp(&rt, -1)), &[0, -1, -1]);
    Ok(())
}

#[test]
fn infinite_glue_takes_what_is_left(rt: HostRuntime) -> Result<(), Fail> {
    let kern = Node::Kern(sp(&rt, 5 * POINT));
    let normal = glue(&rt, 5 * POINT, Order::Normal, 0);
    let fil = glue(&rt, POINT, Order::Fil, 0);
    let list = Vec::from_array(rt.alloc(), [kern, normal, fil])?;
    let point = i128::from(POINT);
    let places = [0, 5 * point, 5 * point, 12 * point];
    expect_places(&rt, list, Target::To(sp(&rt, 12 * POINT)), &places);
    Ok(())
}
