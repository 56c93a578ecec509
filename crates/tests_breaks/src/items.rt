//! Items and parameters in points, and the nodes and parameters that the breaker takes.

use node_core::{
    BoxNode, FirstLines, Glue, Glyph, HeapBox, IntParameter, Kind, Node, NodeList, Order, Params,
    Rule, RuleSize, SpecialText,
};
use scaled_core::Dimen;
use std::alloc::Global;
use std::process::Abort;

pub(crate) const POINT: i64 = 65_536;

/// An item, with amounts in points; of a glyph, a box and a rule the width.
#[derive(Clone, Copy)]
pub(crate) enum Item {
    Glyph(i64),
    FontKern(i64),
    Box(i64),
    Rule(i64),
    Special,
    Glue(Amounts),
    Kern(i64),
    Penalty(i64),
}

/// A width, stretch, stretch of order fil, and shrink.
#[derive(Clone, Copy)]
pub(crate) struct Amounts {
    pub(crate) width: i64,
    pub(crate) stretch: i64,
    pub(crate) fil: i64,
    pub(crate) shrink: i64,
}

/// The parameters of the breaker, with sizes in points.
#[derive(Clone, Copy)]
pub(crate) struct Setting {
    pub(crate) hsize: i64,
    pub(crate) first_lines: i64,
    pub(crate) first_size: i64,
    pub(crate) pretolerance: i64,
    pub(crate) tolerance: i64,
    pub(crate) line_penalty: i64,
    pub(crate) adj_demerits: i64,
}

/// The dimension of a number of points.
pub(crate) fn points(rt: &impl Abort, number: i64) -> Dimen {
    Dimen::try_new(number.saturating_mul(POINT)).expect(rt, "it fits")
}

/// A number for a parameter.
fn number(rt: &impl Abort, value: i64) -> IntParameter {
    IntParameter::try_new(value).expect(rt, "it fits")
}

/// Amounts as glue.
fn glue_of(rt: &impl Abort, glue: &Amounts) -> Glue {
    let (stretch, stretch_order) = if glue.fil == 0 {
        (glue.stretch, Order::Normal)
    } else {
        (glue.fil, Order::Fil)
    };
    Glue {
        width: points(rt, glue.width),
        stretch: points(rt, stretch),
        stretch_order,
        shrink: points(rt, glue.shrink),
        shrink_order: Order::Normal,
    }
}

/// A character of this width.
fn glyph_of(rt: &impl Abort, width: i64) -> Glyph {
    Glyph {
        slot: 0,
        code: 97,
        width: points(rt, width),
        height: points(rt, 1),
        depth: Dimen::ZERO,
    }
}

/// An empty box of this width.
fn box_of(rt: &impl Abort, alloc: Global, width: i64) -> BoxNode {
    BoxNode {
        kind: Kind::Horizontal,
        width: points(rt, width),
        height: points(rt, 1),
        depth: Dimen::ZERO,
        setting: node_core::Setting::Natural,
        list: NodeList::new(alloc),
    }
}

/// An item as a node.
pub(crate) fn node(rt: &impl Abort, alloc: Global, item: &Item) -> Node {
    match item {
        Item::Glyph(width) => Node::Glyph(glyph_of(rt, *width)),
        Item::FontKern(width) => Node::FontKern(points(rt, *width)),
        Item::Box(width) => {
            let boxed = HeapBox::new(alloc, box_of(rt, alloc, *width));
            Node::Box(Dimen::ZERO, boxed.ok().expect(rt, "there is memory"))
        }
        Item::Special => Node::Special(SpecialText::from_vec(Vec::new(alloc))),
        Item::Rule(width) => Node::Rule(Rule {
            width: RuleSize::Fixed(points(rt, *width)),
            height: RuleSize::Fixed(points(rt, 1)),
            depth: RuleSize::Fixed(Dimen::ZERO),
        }),
        Item::Glue(glue) => Node::Glue(glue_of(rt, glue)),
        Item::Kern(width) => Node::Kern(points(rt, *width)),
        Item::Penalty(penalty) => Node::Penalty(i32::try_from(*penalty).ok().expect(rt, "it fits")),
    }
}

/// The parameters for the breaker.
pub(crate) fn params_of(rt: &impl Abort, setting: &Setting) -> Params {
    let mut params = Params::first();
    params.hsize = points(rt, setting.hsize);
    params.first_lines = FirstLines::try_new(usize::try_from(setting.first_lines).unwrap_or(
        0,
    )).expect(rt, "they are few");
    params.first_size = points(rt, setting.first_size);
    params.pretolerance = number(rt, setting.pretolerance);
    params.tolerance = number(rt, setting.tolerance);
    params.line_penalty = number(rt, setting.line_penalty);
    params.adj_demerits = number(rt, setting.adj_demerits);
    params
}
