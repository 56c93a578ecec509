//! Sums over the items of a line.
//!
//! These are not the `Totals` of `pack_core`, because a line is a difference of two sums, and `Totals` has no differences. The sums of a line stay
//! below 2^49 and fit in 64 bits. The law `sums_are_totals` of `break_core` says that they agree with `Totals`.

ghost use Rattle.std.specs.Prelude.{◌≡◌, ◌+◌, ◌^◌, ℕ, IfSome};
ghost use Rattle.scaled_core.specs.Dimensions.{Within};
ghost use Rattle.node_core.specs.declared.tree.Node.TheVariants as nodes;
ghost use Rattle.node_core.specs.Nodes.{max_nodes};
ghost use Rattle.break_lines.specs.LineItems.{minus, IsSmallSums};
ghost use Rattle.break_lines.specs.Private.Marks.{amounts_of, plus, sizes_in_run, stretch_alone, shrink_alone};
ghost use Rattle.break_lines.specs.Private.SmallMarks.{IsPrefix};

pub use crate::sums::Sums;
use node_core::{Glue, Kind, Node, Order};
use pack_core::advance_of;

/// The width, the height and the depth of a glyph or a font kern, in scaled points.
#[derive(Clone, Copy, Debug)]
pub struct RunSizes {
    pub width: i64,
    pub height: i32,
    pub depth: i32,
}

/// The sizes of a glyph or a font kern: its width is all that it adds to the sums. None for other items.
#[tactic(auto, unfolding(crate::specs::Private::Marks::sizes_in_run))]
pub fn sizes_in_run(node: &Node) -> Option<RunSizes>
    ensures value { result ≡ sizes_in_run node.now }
    ensures width_bounded { IfSome result (λ sizes. Within (2 ^ 31) sizes.width) }
{
    match node {
        Node::Glyph(glyph) => Some(RunSizes {
            width: i64::from(glyph.width.get()),
            height: glyph.height.get(),
            depth: glyph.depth.get(),
        }),
        Node::FontKern(width) => Some(RunSizes {
            width: i64::from(width.get()),
            height: 0,
            depth: 0,
        }),
        _ => None,
    }
}

/// Adds stretch in an order to the sums.
#[inline(always)]
fn add_stretch(sums: &mut Sums, order: Order, amount: i64)
    requires sums_bounded { IsPrefix (max_nodes + 1) sums.old }
    requires amount_bounded { Within (2 ^ 30) amount }
    ensures { sums.new ≡ plus sums.old (stretch_alone order amount) }
{
    match order {
        Order::Normal => sums.stretch += amount,
        Order::Fil => sums.fil += amount,
        Order::Fill => sums.fill += amount,
        Order::Filll => sums.filll += amount,
    }
}

/// Adds shrink in an order to the sums: only that in the normal order counts.
#[inline(always)]
fn add_shrink(sums: &mut Sums, order: Order, amount: i64)
    requires shrink_bounded { Within (2 ^ 48) sums.old.shrink }
    requires amount_bounded { Within (2 ^ 30) amount }
    ensures { sums.new ≡ plus sums.old (shrink_alone order amount) }
{
    match order {
        Order::Normal => sums.shrink += amount,
        Order::Fil | Order::Fill | Order::Filll => {}
    }
}

/// Adds glue to the sums. Its stretch has one order, and so has its shrink; so at most three of the sums change.
#[inline(always)]
fn add_glue(sums: &mut Sums, glue: &Glue)
    requires { IsPrefix max_nodes sums.old }
    ensures value { sums.new ≡ plus sums.old (amounts_of (nodes.Glue glue.now)) }
    ensures amounts_bounded { IsPrefix 1 (amounts_of (nodes.Glue glue.now)) }
{
    sums.width += i64::from(glue.width.get());
    add_stretch(sums, glue.stretch_order, i64::from(glue.stretch.get()));
    add_shrink(sums, glue.shrink_order, i64::from(glue.shrink.get()));
}

/// Adds an item to the sums. An item that is not glue changes only the width.
#[inline(always)]
pub fn add_item(sums: &mut Sums, node: &Node)
    requires { IsPrefix max_nodes sums.old }
    ensures value { sums.new ≡ plus sums.old (amounts_of node.now) }
    ensures sums_bounded { (n : ℕ) → IsPrefix n sums.old → IsPrefix (n + 1) sums.new }
{
    match node {
        Node::Glue(glue) => add_glue(sums, glue),
        _ => sums.width += advance_of(Kind::Horizontal, node),
    }
}

/// The difference of two sums.
#[inline]
pub fn minus(all: &Sums, rest: &Sums) -> Sums
    requires all { IsPrefix max_nodes all.now }
    requires rest_bounded { IsPrefix max_nodes rest.now }
    ensures value { result ≡ minus all.now rest.now }
    ensures sums_bounded { IsSmallSums result }
{
    Sums {
        width: all.width - rest.width,
        stretch: all.stretch - rest.stretch,
        fil: all.fil - rest.fil,
        fill: all.fill - rest.fill,
        filll: all.filll - rest.filll,
        shrink: all.shrink - rest.shrink,
    }
}
