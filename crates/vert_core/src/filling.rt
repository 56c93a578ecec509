//! The items of a finished list go into the boxes of its lines: they are moved, or copied.

ghost use Rattle.std.specs.Prelude.{◌≡◌, ◌≤◌, ◌+◌, ◌++◌, ◌∷◌, [], length, map, drop, reverse, flat_map, vec_len, vec_capacity, IfOk, OnOk, OnErr};
ghost use Rattle.node_core.specs.Nodes.{max_nodes};
ghost use Rattle.vert_core.specs.Private.Planned.{AreInOrder, copied_line, items_in, moved_lines, part_of, with_part};

use crate::planning::PlannedLine;
use node_core::{Node, NodeList};
use std::alloc::{AllocError, Global};

/// A line with these items.
fn with_part(mut line: PlannedLine, part: Vec<Node>) -> PlannedLine
    requires { length part.items ≤ max_nodes }
    ensures { result ≡ with_part part.items line }
{
    line.box_node.replace_list(NodeList::from_vec(part));
    line
}

/// Puts the items of lines, of which the last one comes first, back to the end of the list from which they were cut off.
fn rejoin(nodes: &mut Vec<Node>, mut lines: Vec<PlannedLine>)
    requires { vec_len nodes.old + length (flat_map items_in (reverse lines.items)) ≤ vec_capacity nodes.old }
    ensures { nodes.new.items ≡ nodes.old.items ++ flat_map items_in (reverse lines.items) }
{
    while let Some(line) = lines.pop() {
        let mut part = line.box_node.into_inner().list.into_vec();
        // There is space for them: they were there before.
        let _ = nodes.append(&mut part);
    }
}

/// Moves the items of a list into its lines, from the last line on: each gets what there is from its beginning to that of the next line. Returns the
/// lines, of which the last one comes first. Where memory is refused, the list is as it was before the call.
pub(crate) fn move_items(
    nodes: &mut Vec<Node>,
    mut lines: Vec<PlannedLine>,
) -> Result<Vec<PlannedLine>, AllocError>
    requires list_bounded { length nodes.old.items ≤ max_nodes }
    requires in_order { AreInOrder (length nodes.old.items + 1) lines.items }
    ensures ok { IfOk result (λ filled. reverse filled.items ≡ moved_lines nodes.old.items (length nodes.old.items) lines.items) }
    ensures emptied { OnOk result (nodes.new.items ≡ []) }
    ensures err { OnErr result (nodes.new.items ≡ nodes.old.items) }
{
    let mut filled = Vec::with_capacity(*nodes.allocator(), lines.len())?;
    while let Some(line) = lines.pop() {
        match nodes.split_off(line.begin) {
            Ok(part) => filled.push_reserved(with_part(line, part)),
            Err(AllocError) => {
                rejoin(nodes, filled);
                return Err(AllocError);
            }
        }
    }
    nodes.clear();
    Ok(filled)
}

/// Appends a copy of a node. The items that are most frequent in lines are copied here, without a call.
fn push_copy(alloc: Global, nodes: &mut Vec<Node>, node: &Node) -> Result<(), AllocError>
    ensures { OnOk result (nodes.new.items ≡ nodes.old.items ++ node.now ∷ []) }
{
    match node {
        Node::Glyph(glyph) => nodes.push(Node::Glyph(*glyph))?,
        Node::FontKern(width) => nodes.push(Node::FontKern(*width))?,
        Node::Glue(glue) => nodes.push(Node::Glue(*glue))?,
        _ => nodes.push(node.copy(alloc)?)?,
    }
    Ok(())
}

/// Copies of the nodes.
fn copies(alloc: Global, nodes: &[Node]) -> Result<Vec<Node>, AllocError>
    ensures { IfOk result (λ copies. copies.items ≡ nodes.now) }
{
    let mut copies = Vec::with_capacity(alloc, nodes.len())?;
    for node in nodes {
        push_copy(alloc, &mut copies, node)?;
    }
    Ok(copies)
}

/// The items from a place on.
pub(crate) fn rest_of(nodes: &[Node], place: usize) -> &[Node]
    ensures { result.now ≡ drop place nodes.now }
{
    if place >= nodes.len() {
        return &[];
    }
    &nodes[place..]
}

/// The items of a line, and the item at its end if there is one.
fn part_of<'a>(nodes: &'a [Node], line: &PlannedLine) -> &'a [Node]
    ensures { result.now ≡ part_of nodes.now line.now }
{
    let rest = rest_of(nodes, line.begin);
    let count = line.end.saturating_sub(line.begin);
    if count >= rest.len() {
        return rest;
    }
    &rest[..count + 1]
}

/// Copies the items of a list into its lines: each gets its own, and the item at its end. Returns the lines, of which the last one comes first.
pub(crate) fn copy_items(
    alloc: Global,
    nodes: &[Node],
    mut lines: Vec<PlannedLine>,
) -> Result<Vec<PlannedLine>, AllocError>
    requires list_bounded { length nodes.now ≤ max_nodes }
    ensures { IfOk result (λ filled. reverse filled.items ≡ map (copied_line nodes.now) lines.items) }
{
    let mut filled = Vec::with_capacity(alloc, lines.len())?;
    while let Some(line) = lines.pop() {
        let part = copies(alloc, part_of(nodes, &line))?;
        filled.push_reserved(with_part(line, part));
    }
    Ok(filled)
}
