//! The row of an item at a place.

ghost use Rattle.std.specs.Prelude.{◌≡◌, ◌≤◌, ◌+◌, ◌+ℤ◌, ◌^◌, ℕ, ℤ, pos};
ghost use Rattle.std.specs.Int.{int_wrap, w128};
ghost use Rattle.scaled_core.specs.Dimensions.{Within};
ghost use Rattle.node_core.specs.Nodes.{frame_of};
ghost use Rattle.page_core.specs.Marks.{size_in, rule_below, rule_wide};
ghost use Rattle.box_items.specs.Rows.{ItemPlace, box_kind, box_row, empty_row, glue_row, glyph_row, if_running, kern_row, order_number, penalty_row};
ghost use Rattle.box_items.specs.Rows.{rule_depth, rule_height, rule_row, setting_order, setting_ratio, setting_sign, special_row, wide_of};
ghost use Rattle.box_items.specs.Private.Written.{IsPlace, row_of_node};

use crate::place::{RowPlace, WideDimen, wide_of};
use crate::row::{BoxItem, ItemKind};
use node_core::{BoxNode, Glue, Glyph, Kind, Node, Order, Rule, RuleSize, Setting, SpecialText};
use pack_core::own_size;
use scaled_core::{Dimen, Ratio};

/// A number of scaled points that is 0.
const NOTHING: WideDimen = WideDimen { low: 0, high: 0 };

/// A row with 0 for all.
const EMPTY: BoxItem = BoxItem {
    level: 0,
    kind: 0,
    right: NOTHING,
    down: NOTHING,
    set_width: NOTHING,
    width: 0,
    height: 0,
    depth: 0,
    shift: 0,
    stretch: 0,
    stretch_order: 0,
    shrink: 0,
    shrink_order: 0,
    setting: 0,
    setting_order: 0,
    ratio_num: 0,
    ratio_den: 0,
    slot: 0,
    code: 0,
    penalty: 0,
    running: 0,
    text_start: 0,
    text_size: 0,
};

/// The number of an order.
fn order_number(order: Order) -> u32
    ensures { result ≡ order_number order }
{
    match order {
        Order::Normal => 0,
        Order::Fil => 1,
        Order::Fill => 2,
        Order::Filll => 3,
    }
}

/// Makes a row one of this kind at a place, with 0 for all else. A row is large, so it is written where it stays.
#[inline(always)]
fn clear(row: &mut BoxItem, kind: ItemKind, at: &RowPlace)
    ensures { (exact : ItemPlace) → IsPlace at.now exact → row.new ≡ empty_row kind exact }
{
    let right = wide_of(at.h);
    let down = wide_of(at.v);
    let number = kind.number();
    *row = BoxItem {
        level: at.level,
        kind: number,
        right,
        down,
        ..EMPTY
    };
}

/// Writes the row of a glyph. Most rows are glyphs, so it is written at once.
#[inline(always)]
fn write_glyph(row: &mut BoxItem, at: &RowPlace, glyph: &Glyph)
    ensures { (exact : ItemPlace) → IsPlace at.now exact → row.new ≡ glyph_row exact glyph.now }
{
    let right = wide_of(at.h);
    let down = wide_of(at.v);
    let number = ItemKind::Glyph.number();
    *row = BoxItem {
        level: at.level,
        kind: number,
        right,
        down,
        width: glyph.width.get(),
        height: glyph.height.get(),
        depth: glyph.depth.get(),
        slot: u32::from(glyph.slot),
        code: u32::from(glyph.code),
        ..EMPTY
    };
}

/// Writes the row of glue that has the distance `set_width` to the next item.
#[inline(always)]
fn write_glue(row: &mut BoxItem, at: &RowPlace, set_width: i128, glue: &Glue)
    ensures { (exact : ItemPlace) (distance : ℤ) → IsPlace at.now exact → set_width ≡ int_wrap w128 distance
        → row.new ≡ glue_row exact distance glue.now }
{
    clear(row, ItemKind::Glue, at);
    let set_width = wide_of(set_width);
    row.set_width = set_width;
    row.width = glue.width.get();
    row.stretch = glue.stretch.get();
    row.stretch_order = order_number(glue.stretch_order);
    row.shrink = glue.shrink.get();
    row.shrink_order = order_number(glue.shrink_order);
}

/// Writes the row of a kern of either kind.
fn write_kern(row: &mut BoxItem, kind: ItemKind, at: &RowPlace, width: Dimen)
    ensures { (exact : ItemPlace) → IsPlace at.now exact → row.new ≡ kern_row kind exact width }
{
    clear(row, kind, at);
    row.width = width.get();
}

/// Writes the row of a penalty.
fn write_penalty(row: &mut BoxItem, at: &RowPlace, number: i32)
    ensures { (exact : ItemPlace) → IsPlace at.now exact → row.new ≡ penalty_row exact number }
{
    clear(row, ItemKind::Penalty, at);
    row.penalty = number;
}

/// A size of a rule in a box.
fn size_in(whole: Dimen, size: RuleSize) -> Dimen
    ensures { result ≡ size_in whole size }
{
    match size {
        RuleSize::Running => whole,
        RuleSize::Fixed(size) => size,
    }
}

/// The number for a size of a rule if it runs, and otherwise 0.
fn if_running(number: u32, size: RuleSize) -> u32
    ensures value { result ≡ if_running number size }
    ensures most { result ≤ number }
{
    match size {
        RuleSize::Running => number,
        RuleSize::Fixed(_) => 0,
    }
}

/// The height of a rule in the list of a box.
fn rule_height(box_node: &BoxNode, rule: &Rule) -> Dimen
    ensures { result ≡ rule_height box_node.now.kind box_node.now rule.now }
{
    match box_node.kind {
        Kind::Horizontal => size_in(box_node.height, rule.height),
        Kind::Vertical => own_size(rule.height),
    }
}

/// The depth of a rule in the list of a box.
fn rule_depth(box_node: &BoxNode, rule: &Rule) -> Dimen
    ensures { result ≡ rule_depth box_node.now.kind box_node.now rule.now }
{
    match box_node.kind {
        Kind::Horizontal => size_in(box_node.depth, rule.depth),
        Kind::Vertical => own_size(rule.depth),
    }
}

/// The width of a rule in the list of a box.
fn rule_width(box_node: &BoxNode, rule: &Rule) -> Dimen
    ensures { result ≡ rule_wide box_node.now.kind box_node.now rule.now }
{
    match box_node.kind {
        Kind::Horizontal => own_size(rule.width),
        Kind::Vertical => size_in(box_node.width, rule.width),
    }
}

/// How far the lower left corner of a rule is below its place in the list of a box.
fn rule_below(box_node: &BoxNode, rule: &Rule) -> i64
    ensures { result ≡ rule_below box_node.now.kind box_node.now rule.now }
{
    match box_node.kind {
        Kind::Horizontal => i64::from(size_in(box_node.depth, rule.depth).get()),
        Kind::Vertical => own_size(rule.height).exact_add(own_size(rule.depth)),
    }
}

/// Writes the row of a rule in the list of a box.
fn write_rule(row: &mut BoxItem, box_node: &BoxNode, at: &RowPlace, rule: &Rule)
    ensures { (exact : ItemPlace) → IsPlace at.now exact → row.new ≡ rule_row box_node.now exact rule.now }
{
    let below = rule_below(box_node, rule);
    let corner = at.at_offset(0, i128::from(below));
    clear(row, ItemKind::Rule, &corner);
    let width = if_running(1, rule.width);
    let height = if_running(2, rule.height);
    let depth = if_running(4, rule.depth);
    row.width = rule_width(box_node, rule).get();
    row.height = rule_height(box_node, rule).get();
    row.depth = rule_depth(box_node, rule).get();
    row.running = width + height + depth;
}

/// The kind of the row of a box.
fn box_kind(kind: Kind) -> ItemKind
    ensures { result ≡ box_kind kind }
{
    match kind {
        Kind::Horizontal => ItemKind::Hbox,
        Kind::Vertical => ItemKind::Vbox,
    }
}

/// Writes the row of a special.
fn write_special(row: &mut BoxItem, at: &RowPlace, text: &SpecialText)
    ensures { (exact : ItemPlace) → IsPlace at.now exact → row.new ≡ special_row exact text.now }
{
    clear(row, ItemKind::Special, at);
    row.text_start = at.text;
    row.text_size = text.as_bytes().len() as u64;
}

/// The setting of a box: its sign, its order, and its ratio `num / den`.
#[derive(Clone, Copy, Debug)]
struct SettingNumbers {
    sign: u32,
    order: u32,
    num: i64,
    den: i64,
}

/// The numbers of a setting of this sign.
fn numbers_with(sign: u32, order: Order, ratio: &Ratio) -> SettingNumbers
    ensures sign { result.sign ≡ sign }
    ensures order { result.order ≡ order_number order }
    ensures num { result.num ≡ ratio.now.num }
    ensures den { result.den ≡ ratio.now.den }
{
    SettingNumbers {
        sign,
        order: order_number(order),
        num: ratio.num,
        den: ratio.den,
    }
}

/// The numbers of a setting.
fn setting_numbers(setting: &Setting) -> SettingNumbers
    ensures sign { result.sign ≡ setting_sign setting.now }
    ensures order { result.order ≡ order_number (setting_order setting.now) }
    ensures num { result.num ≡ (setting_ratio setting.now).num }
    ensures den { result.den ≡ (setting_ratio setting.now).den }
{
    match setting {
        Setting::Natural => numbers_with(0, Order::Normal, &Ratio::new(0, 1)),
        Setting::Stretch { order, ratio } => numbers_with(1, *order, ratio),
        Setting::Shrink { order, ratio } => numbers_with(2, *order, ratio),
    }
}

/// Writes the row of a box with its reference point at a place.
pub(crate) fn write_box(row: &mut BoxItem, at: &RowPlace, shift: Dimen, box_node: &BoxNode)
    ensures { (exact : ItemPlace) → IsPlace at.now exact → row.new ≡ box_row exact shift (frame_of box_node.now) }
{
    clear(row, box_kind(box_node.kind), at);
    row.width = box_node.width.get();
    row.height = box_node.height.get();
    row.depth = box_node.depth.get();
    row.shift = shift.get();
    let setting = setting_numbers(&box_node.setting);
    row.setting = setting.sign;
    row.setting_order = setting.order;
    row.ratio_num = setting.num;
    row.ratio_den = setting.den;
}

/// Writes the row of an item of a box at a place, which for a box is that of its reference point. The item has the distance `set_width` to the next
/// one.
#[inline(always)]
pub(crate) fn write_row(
    row: &mut BoxItem,
    box_node: &BoxNode,
    at: &RowPlace,
    set_width: i128,
    node: &Node,
)
    ensures { (exact : ItemPlace) (distance : ℤ) → IsPlace at.now exact → set_width ≡ int_wrap w128 distance
        → row.new ≡ row_of_node box_node.now exact distance node.now }
{
    match node {
        Node::Glyph(glyph) => write_glyph(row, at, glyph),
        Node::FontKern(width) => write_kern(row, ItemKind::FontKern, at, *width),
        Node::Kern(width) => write_kern(row, ItemKind::Kern, at, *width),
        Node::Glue(glue) => write_glue(row, at, set_width, glue),
        Node::Penalty(number) => write_penalty(row, at, *number),
        Node::Rule(rule) => write_rule(row, box_node, at, rule),
        Node::Special(text) => write_special(row, at, text),
        Node::Box(shift, inner) => write_box(row, at, *shift, inner),
    }
}
