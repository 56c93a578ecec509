//! The values that the examples are run on.

ghost use Rattle.std.specs.Prelude.{IfOk};
ghost use Rattle.tfm_core.specs.Slots.{Slots};
ghost use Rattle.dvi_write.specs.Shippable.{IsShippable};

use crate::pages::hbox;
use anyhow::{Context, Result};
use job_core::{Command, FontName, Register};
use node_core::{BoxNode, Glue, Kind, Node, NodeList, Params, Rule, RuleSize, Setting};
use scaled_core::Dimen;
use std::alloc::{AllocError, Global};

/// A font of the characters 97 to 101 with a design size of 10pt: the file `tiny` of docs/COMMANDS.md.
const TINY: [u8; 116] = [
    0x00, 0x1d, 0x00, 0x02, 0x00, 0x61, 0x00, 0x65, 0x00, 0x03, 0x00, 0x02, 0x00, 0x02, 0x00, 0x01,
    0x00, 0x03, 0x00, 0x01, 0x00, 0x00, 0x00, 0x04, 0x00, 0x00, 0x00, 0x00, 0x00, 0xa0, 0x00, 0x00,
    0x01, 0x10, 0x01, 0x00, 0x01, 0x11, 0x00, 0x00, 0x01, 0x10, 0x00, 0x00, 0x02, 0x10, 0x01, 0x02,
    0x02, 0x10, 0x00, 0x00, 0x00, 0x00, 0x00, 0x00, 0x00, 0x08, 0x00, 0x00, 0x00, 0x10, 0x00, 0x00,
    0x00, 0x00, 0x00, 0x00, 0x00, 0x08, 0x00, 0x00, 0x00, 0x00, 0x00, 0x00, 0x00, 0x04, 0x00, 0x00,
    0x00, 0x00, 0x00, 0x00, 0x00, 0x61, 0x00, 0x64, 0x80, 0x63, 0x80, 0x00, 0x80, 0x62, 0x00, 0x65,
    0xff, 0xff, 0x00, 0x00, 0x00, 0x00, 0x00, 0x00, 0x00, 0x05, 0x00, 0x00, 0x00, 0x02, 0x00, 0x00,
    0x00, 0x01, 0x00, 0x00,
];

/// The metric file of the font.
pub fn tiny(alloc: Global) -> Result<Vec<u8>, AllocError> {
    Vec::from_slice(alloc, &TINY)
}

/// The name of the font.
pub fn tiny_name(alloc: Global) -> Result<FontName> {
    let name = FontName::try_new(Vec::from_slice(alloc, b"tiny")?);
    name.context("the name has a byte")
}

/// A rule of this width, 1pt high.
fn rule(width: Dimen) -> Rule {
    Rule {
        width: RuleSize::Fixed(width),
        height: RuleSize::Fixed(Dimen::points(1)),
        depth: RuleSize::Fixed(Dimen::ZERO),
    }
}

/// The commands of the page with one rule.
pub fn one_rule() -> [Command; 4] {
    [
        hbox(),
        Command::Rule(rule(Dimen::points(1))),
        Command::End,
        Command::Ship(Register::FIRST),
    ]
}

/// A horizontal box of a rule 1pt wide and high.
pub fn box_of_a_rule(alloc: Global) -> Result<BoxNode, AllocError>
    ensures { IfOk result (λ box_node. (fonts : Slots) → IsShippable fonts box_node) }
{
    let rule = Node::Rule(Rule {
        width: RuleSize::Fixed(Dimen::points(1)),
        height: RuleSize::Fixed(Dimen::points(1)),
        depth: RuleSize::Fixed(Dimen::ZERO),
    });
    Ok(BoxNode {
        kind: Kind::Horizontal,
        width: Dimen::points(1),
        height: Dimen::points(1),
        depth: Dimen::ZERO,
        setting: Setting::Natural,
        list: NodeList::from_vec(Vec::from_array(alloc, [rule])?),
    })
}

/// A finished list of two rules as wide as a line, with glue of no width between them.
pub fn two_rules(alloc: Global, params: &Params) -> Result<Vec<Node>, AllocError> {
    let mut between: Glue = params.par_fill_skip;
    between.stretch = Dimen::ZERO;
    let nodes = [
        Node::Rule(rule(params.hsize)),
        Node::Glue(between),
        Node::Rule(rule(params.hsize)),
        Node::Penalty(10_000),
        Node::Glue(params.par_fill_skip),
    ];
    Ok(Vec::from_array(alloc, nodes)?)
}
