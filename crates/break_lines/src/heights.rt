//! The heights and the depths of items. They fit in 32 bits.

ghost use Rattle.std.specs.Prelude.{◌≡◌};
ghost use Rattle.pack_core.specs.Items.{height_above_baseline, depth_below_baseline};

use node_core::Node;
use pack_core::own_size;

/// The height of an item above the baseline; for a box, minus its shift down.
pub fn height_of(node: &Node) -> i32
    ensures { result ≡ height_above_baseline node.now }
{
    match node {
        Node::Glyph(glyph) => glyph.height.get(),
        Node::Rule(rule) => own_size(rule.height).get(),
        Node::Box(shift, inner) => inner.height.get() - shift.get(),
        _ => 0,
    }
}

/// The depth of an item below the baseline; for a box, plus its shift down.
pub fn depth_of(node: &Node) -> i32
    ensures { result ≡ depth_below_baseline node.now }
{
    match node {
        Node::Glyph(glyph) => glyph.depth.get(),
        Node::Rule(rule) => own_size(rule.depth).get(),
        Node::Box(shift, inner) => inner.depth.get() + shift.get(),
        _ => 0,
    }
}
