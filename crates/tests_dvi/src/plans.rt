//! The instructions that draw a page, before they use movement registers.

use dvi_ops::BodyOp;
use node_core::{Node, NodeList, Rule, RuleSize};
use pack_core::{Target, hpack};
use scaled_core::Dimen;
use ship_core::{PagePoint, plan};
use std::process::Abort;
use std::test::Fail;

/// A rule that is 1pt wide and 1pt high, without depth.
fn square_rule() -> Node {
    Node::Rule(Rule {
        width: RuleSize::Fixed(Dimen::points(1)),
        height: RuleSize::Fixed(Dimen::points(1)),
        depth: RuleSize::Fixed(Dimen::ZERO),
    })
}

/// Four rules with a kern of 2pt between each two, on a page whose reference point is their height below the origin.
#[test]
fn page_of_three_kerns_is_drawn(rt: HostRuntime) -> Result<(), Fail> {
    let alloc = rt.alloc();
    let kern = || Node::Kern(Dimen::points(2));
    let nodes = Vec::from_array(
        alloc,
        [
            square_rule(),
            kern(),
            square_rule(),
            kern(),
            square_rule(),
            kern(),
            square_rule(),
        ],
    )?;
    let Ok(packed) = hpack(NodeList::from_vec(nodes), Target::Natural) else {
        panic!(&rt; "the sizes of the box fit");
    };
    let at = PagePoint { h: 0, v: 65_536 };
    let Ok(ops) = plan(alloc, &packed.box_node, at) else {
        panic!(&rt; "the page is not huge, and there is memory");
    };
    const RULE: BodyOp<'static> = BodyOp::SetRule {
        height: 65_536,
        width: 65_536,
    };
    const KERN: BodyOp<'static> = BodyOp::Right(131_072);
    let wanted = [
        BodyOp::Down(65_536),
        RULE,
        KERN,
        RULE,
        KERN,
        RULE,
        KERN,
        RULE,
    ];
    assert_eq!(&rt; ops.as_slice(), wanted.as_slice());
    Ok(())
}
