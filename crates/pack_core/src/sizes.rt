//! What an item adds to the list that contains it (TeX: The Program, part 33, §651 to §656 and §669 to §671).

ghost use Rattle.std.specs.Prelude.{◌≡◌, ◌^◌};
ghost use Rattle.scaled_core.specs.Dimensions.{Within};
ghost use Rattle.pack_core.specs.Items.{own_size, item_width, height_above_baseline, depth_below_baseline, downward, breadth, advance, stretch_in};
ghost use Rattle.pack_core.specs.Items.{shrink_in};
ghost use Rattle.pack_core.specs.Items.{item_height, item_depth, first_above};
ghost use Rattle.pack_core.specs.Places.{share};

use node_core::{Kind, Node, Order, RuleSize, Setting};
use scaled_core::Dimen;

/// The size of a rule that counts when its list is packed, in scaled points: a running size counts as 0.
pub fn own_size(size: RuleSize) -> Dimen
    ensures { result ≡ own_size size }
{
    match size {
        RuleSize::Running => Dimen::ZERO,
        RuleSize::Fixed(size) => size,
    }
}

/// The width of an item.
pub fn width_of(node: &Node) -> Dimen
    ensures { result ≡ item_width node.now }
{
    match node {
        Node::Glyph(glyph) => glyph.width,
        Node::FontKern(width) => *width,
        Node::Kern(width) => *width,
        Node::Glue(glue) => glue.width,
        Node::Penalty(_) | Node::Special(_) => Dimen::ZERO,
        Node::Rule(rule) => own_size(rule.width),
        Node::Box(_, inner) => inner.width,
    }
}

/// The height of an item above the baseline; for a box, minus its shift down.
pub fn height_of(node: &Node) -> i64
    ensures value { result ≡ height_above_baseline node.now }
    ensures value_bounded { Within (2 ^ 31) result }
{
    match node {
        Node::Glyph(glyph) => i64::from(glyph.height.get()),
        Node::Rule(rule) => i64::from(own_size(rule.height).get()),
        Node::Box(shift, inner) => inner.height.exact_sub(*shift),
        _ => 0,
    }
}

/// The depth of an item below the baseline; for a box, plus its shift down.
pub fn depth_of(node: &Node) -> i64
    ensures value { result ≡ depth_below_baseline node.now }
    ensures value_bounded { Within (2 ^ 31) result }
{
    match node {
        Node::Glyph(glyph) => i64::from(glyph.depth.get()),
        Node::Rule(rule) => i64::from(own_size(rule.depth).get()),
        Node::Box(shift, inner) => inner.depth.exact_add(*shift),
        _ => 0,
    }
}

/// The distance to the right edge of an item of a vertical list; for a box, plus its shift to the right.
pub fn breadth_of(node: &Node) -> i64
    ensures value { result ≡ breadth node.now }
    ensures value_bounded { Within (2 ^ 31) result }
{
    match node {
        Node::Rule(rule) => i64::from(own_size(rule.width).get()),
        Node::Box(shift, inner) => inner.width.exact_add(*shift),
        _ => 0,
    }
}

/// The height of an item, without a shift.
fn height_by_itself(node: &Node) -> Dimen
    ensures { result ≡ item_height node.now }
{
    match node {
        Node::Glyph(glyph) => glyph.height,
        Node::Rule(rule) => own_size(rule.height),
        Node::Box(_, inner) => inner.height,
        _ => Dimen::ZERO,
    }
}

/// The depth of an item, without a shift.
pub fn depth_by_itself(node: &Node) -> Dimen
    ensures { result ≡ item_depth node.now }
{
    match node {
        Node::Glyph(glyph) => glyph.depth,
        Node::Rule(rule) => own_size(rule.depth),
        Node::Box(_, inner) => inner.depth,
        _ => Dimen::ZERO,
    }
}

/// The height of an item if it is a rule or a box, and otherwise 0.
pub fn first_height_of(node: &Node) -> Dimen
    ensures { result ≡ first_above node.now }
{
    if node.class().is_box_or_rule() {
        return height_by_itself(node);
    }
    Dimen::ZERO
}

/// The advance of an item of a horizontal list: how far it moves what follows it.
pub fn across_of(node: &Node) -> i64
    ensures value { result ≡ item_width node.now }
    ensures value_bounded { Within (2 ^ 31) result }
{
    i64::from(width_of(node).get())
}

/// The advance of an item of a vertical list: how far it moves what follows it.
fn downward_of(node: &Node) -> i64
    ensures value { result ≡ downward node.now }
    ensures value_bounded { Within (2 ^ 31) result }
{
    match node {
        Node::Glyph(_) => 0,
        Node::FontKern(width) => i64::from(width.get()),
        Node::Kern(width) => i64::from(width.get()),
        Node::Glue(glue) => i64::from(glue.width.get()),
        Node::Penalty(_) | Node::Special(_) => 0,
        Node::Rule(rule) => own_size(rule.height).exact_add(own_size(rule.depth)),
        Node::Box(_, inner) => inner.height.exact_add(inner.depth),
    }
}

/// The advance of an item of a list of this kind, in scaled points: how far it moves what follows it.
pub fn advance_of(kind: Kind, node: &Node) -> i64
    ensures value { result ≡ advance kind node.now }
    ensures value_bounded { Within (2 ^ 31) result }
{
    match kind {
        Kind::Horizontal => across_of(node),
        Kind::Vertical => downward_of(node),
    }
}

/// How much an item can stretch in an order: only glue of this order can.
pub fn stretch_of(order: Order, node: &Node) -> Dimen
    ensures { result ≡ stretch_in order node.now }
{
    match node {
        Node::Glue(glue) => {
            if order == glue.stretch_order {
                glue.stretch
            } else {
                Dimen::ZERO
            }
        }
        _ => Dimen::ZERO,
    }
}

/// How much an item can shrink in an order: only glue of this order can.
pub fn shrink_of(order: Order, node: &Node) -> Dimen
    ensures { result ≡ shrink_in order node.now }
{
    match node {
        Node::Glue(glue) => {
            if order == glue.shrink_order {
                glue.shrink
            } else {
                Dimen::ZERO
            }
        }
        _ => Dimen::ZERO,
    }
}

/// The share of an item in a setting, in scaled points: its stretch in the order of the setting, or its shrink as a negative number.
pub fn share_of(setting: &Setting, node: &Node) -> i64
    ensures value { result ≡ share setting.now node.now }
    ensures value_bounded { Within (2 ^ 31) result }
{
    match setting {
        Setting::Natural => 0,
        Setting::Stretch { order, .. } => i64::from(stretch_of(*order, node).get()),
        Setting::Shrink { order, .. } => -i64::from(shrink_of(*order, node).get()),
    }
}
