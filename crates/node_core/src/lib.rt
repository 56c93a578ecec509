//! Nodes: the items of TeX's lists, boxes of them, and their trees.
//!
//! A copy of a list or a box is an equal tree. Sizes are dimensions: whole numbers of scaled points.
#![tactic(auto)]

pub mod class;
mod copying;
pub mod limits;
mod measures;
pub mod params;
mod slots;
pub mod special;
pub mod tree;

pub use class::ItemClass;
pub use params::{FirstLines, IntParameter, Params, SplitParams};
pub use special::SpecialText;
pub use tree::{
    BoxNode, Glue, Glyph, HeapBox, Kind, Node, NodeList, Order, Rule, RuleSize, Setting,
    any_has_content, push_box,
};
