//! How deep boxes nest in the lines of a paragraph, before the lines have their items.

ghost use Rattle.std.specs.Prelude.{◌≡◌, ◌-◌, true, drop, flat_map, map, min, take};
ghost use Rattle.node_core.specs.Items.{items_depth};
ghost use Rattle.node_core.specs.Nodes.{IsPlain, items_of};
ghost use Rattle.vert_core.specs.Private.Planned.{copied_line, stacked_nodes};

use crate::filling::rest_of;
use crate::planning::PlannedLine;
use node_core::Node;

/// The depth to which boxes nest in these items, or `u64::MAX` if it is greater. `plain` says that it is known that no item is a box or a special.
fn levels(nodes: &[Node], plain: bool) -> u64
    requires { plain ≡ true → IsPlain nodes.now }
    ensures { result ≡ min (items_depth (items_of nodes.now)) u64.MAX }
{
    if plain {
        return 0;
    }
    let mut deepest: u64 = 0;
    for node in nodes {
        if let Node::Box(_, inner) = node {
            deepest = deepest.max(inner.depth());
        }
    }
    deepest
}

/// The items of a line without the one at its end.
fn items_before_end<'a>(nodes: &'a [Node], line: &PlannedLine) -> &'a [Node]
    ensures { result.now ≡ take (line.now.end - line.now.begin) (drop line.now.begin nodes.now) }
{
    let rest = rest_of(nodes, line.begin);
    let count = line.end.saturating_sub(line.begin);
    if count >= rest.len() {
        return rest;
    }
    &rest[..count]
}

/// The depth to which boxes will nest in these lines of a finished list, or `u64::MAX` if it is greater. `plain` says that it is known that no item
/// of the list is a box or a special.
pub(crate) fn levels_of_lines(nodes: &[Node], lines: &[PlannedLine], plain: bool) -> u64
    requires { plain ≡ true → IsPlain nodes.now }
    ensures { result ≡ min (items_depth (items_of (flat_map stacked_nodes (map (copied_line nodes.now) lines.now)))) u64.MAX }
{
    let mut deepest: u64 = 0;
    for line in lines {
        let own = levels(items_before_end(nodes, line), plain);
        deepest = deepest.max(own.saturating_add(1));
    }
    deepest
}
