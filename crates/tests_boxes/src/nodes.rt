//! Lists of nodes, and boxes.

use node_core::{BoxNode, HeapBox, Kind, Node, NodeList, Rule, RuleSize, Setting};
use scaled_core::Dimen;
use std::alloc::Global;
use std::process::Abort;

/// The hbox of a list, 1pt wide, high and deep.
fn hbox_around(list: NodeList) -> BoxNode {
    let point = Dimen::points(1);
    BoxNode {
        kind: Kind::Horizontal,
        width: point,
        height: point,
        depth: point,
        setting: Setting::Natural,
        list,
    }
}

/// The hbox of a list, as a node with this shift.
fn box_around(alloc: Global, shift: i64, list: NodeList) -> Option<Node> {
    let boxed = HeapBox::new(alloc, hbox_around(list)).ok()?;
    Some(Node::Box(Dimen::try_new(shift)?, boxed))
}

/// A kern of a number of scaled points.
fn kern(width: i64) -> Option<Node> {
    Some(Node::Kern(Dimen::try_new(width)?))
}

/// A list of a box that is shifted by -5sp, and a rule. The box contains a kern of 1sp, a box that is shifted by 3sp and contains a kern of 2sp, and
/// a penalty of 50.
fn boxes_in_boxes(alloc: Global) -> Option<NodeList> {
    let inner = Vec::from_array(alloc, [kern(2)?]).ok()?;
    let inner = box_around(alloc, 3, NodeList::from_vec(inner))?;
    let outer = Vec::from_array(alloc, [kern(1)?, inner, Node::Penalty(50)]).ok()?;
    let outer = box_around(alloc, -5, NodeList::from_vec(outer))?;
    let rule = Node::Rule(Rule {
        width: RuleSize::Running,
        height: RuleSize::Running,
        depth: RuleSize::Running,
    });
    let nodes = Vec::from_array(alloc, [outer, rule]).ok()?;
    Some(NodeList::from_vec(nodes))
}

/// Asserts that a box is the outer one of that list.
fn expect_outer_box(rt: &impl Abort, outer: &BoxNode) {
    let [Node::Kern(kern), Node::Box(shift, inner), Node::Penalty(50)] = outer.list.as_slice()
    else {
        panic!(rt; "not a kern, a box and a penalty");
    };
    assert_eq!(rt; kern.get(), 1);
    assert_eq!(rt; shift.get(), 3);
    let [Node::Kern(kern)] = inner.list.as_slice() else {
        panic!(rt; "not a kern alone");
    };
    assert_eq!(rt; kern.get(), 2);
}

/// Asserts that the nodes begin with that box, and its shift.
fn expect_shifted_box(rt: &impl Abort, nodes: &[Node]) {
    let [Node::Box(shift, outer), ..] = nodes else {
        panic!(rt; "not a box");
    };
    assert_eq!(rt; shift.get(), -5);
    expect_outer_box(rt, outer);
}

#[test]
fn boxes_in_boxes_are_copied_and_counted(rt: HostRuntime) {
    let list = boxes_in_boxes(rt.alloc()).expect(&rt, "there is memory");
    assert_eq!(rt; list.len(), 2);
    assert_eq!(rt; list.depth(), 2);
    assert_eq!(rt; list.count(), 6);
    let copy = list.copy(rt.alloc()).ok().expect(&rt, "there is memory");
    expect_shifted_box(&rt, list.as_slice());
    expect_shifted_box(&rt, copy.as_slice());
    let around = hbox_around(copy);
    assert_eq!(rt; around.depth(), 3);
    assert_eq!(rt; around.count(), 7);
    let boxed = HeapBox::new(rt.alloc(), around)
        .ok()
        .expect(&rt, "there is memory");
    let node = Node::Box(Dimen::ZERO, boxed);
    let copy = node.copy(rt.alloc()).ok().expect(&rt, "there is memory");
    let Node::Box(_, around) = copy else {
        panic!(rt; "not a box");
    };
    assert_eq!(rt; around.depth(), 3);
    expect_shifted_box(&rt, around.list.as_slice());
}
