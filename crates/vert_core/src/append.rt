//! Appending boxes to a vertical list.

ghost use Rattle.std.specs.Prelude.{◌≡◌, ◌≤◌, ◌+◌, ◌++◌, [], ◌∷◌, is_ok, if◌then◌else◌, IsOk, OnOk, OnErr, IfOk, IfErr, length};
ghost use Rattle.node_core.specs.Nodes.{max_nodes, items_of, nodes_of};
ghost use Rattle.vert_core.specs.Interline.{interline, glue_of, appended_nodes};

use crate::interline::{DimensionTooLarge, interline_glue};
use node_core::{BoxNode, Glue, Node, NodeList, Params, push_box};
use scaled_core::{Dimen, SizeFault};
use thiserror::Error;

/// The box was not appended. It is returned. `DimensionTooLarge` says that the width of the glue before it does not fit.
#[derive(Debug, Drop, Error)]
#[error("the box was not appended: {fault}")]
pub struct UnappendedBox {
    pub box_node: BoxNode,
    pub fault: SizeFault,
}

/// Appends a box to a vertical list, with the interline glue before it, and returns the new previous depth, which is the depth of the box.
/// `previous_depth` is the depth of the last box of the list. If there is an error, it has the box, and the list is as it was before the call:
/// `DimensionTooLarge` exactly if the width of the glue does not fit, and otherwise `OutOfMemory`.
pub fn append_box(
    nodes: &mut Vec<Node>,
    box_node: BoxNode,
    shift: Dimen,
    previous_depth: Dimen,
    params: &Params,
) -> Result<Dimen, UnappendedBox>
    ensures ok { OnOk result (nodes.new.items ≡
        nodes.old.items ++ appended_nodes (glue_of (interline params.now previous_depth box_node.height)) shift box_node) }
    ensures depth { IfOk result (λ depth. depth ≡ box_node.depth) }
    // The glue fits; otherwise this is the fault, even if memory would be refused too.
    ensures fits { OnOk result (IsOk (interline params.now previous_depth box_node.height)) }
    ensures fault { IfErr result (λ e. e.fault ≡
        (if is_ok (interline params.now previous_depth box_node.height) then SizeFault.OutOfMemory else SizeFault.DimensionTooLarge)) }
    ensures err { OnErr result (nodes.new.items ≡ nodes.old.items) }
    ensures box_returned { IfErr result (λ e. e.box_node ≡ box_node) }
{
    let depth = box_node.depth;
    match interline_glue(previous_depth, box_node.height, params) {
        Err(DimensionTooLarge) => Err(UnappendedBox {
            box_node,
            fault: SizeFault::DimensionTooLarge,
        }),
        Ok(glue) => match push_with_glue(nodes, glue, shift, box_node) {
            Ok(()) => Ok(depth),
            Err(box_node) => Err(UnappendedBox {
                box_node,
                fault: SizeFault::OutOfMemory,
            }),
        },
    }
}

/// Appends glue, if there is any, and a box to a list that has space for two more nodes. If memory is refused, the error is the box, and the list is
/// as it was before the call. Glue whose box could not follow is removed with `truncate`, since a list has no `pop` for nodes other than boxes.
#[tactic(auto, using(node_core::proofs::NodeLemmas::nodes))]
pub fn append_with_glue(
    list: &mut NodeList,
    glue: Option<Glue>,
    shift: Dimen,
    box_node: BoxNode,
) -> Result<(), BoxNode>
    requires list_bounded { length (nodes_of list.old) + 2 ≤ max_nodes }
    ensures ok { OnOk result (list.new ≡ items_of (nodes_of list.old ++ appended_nodes glue shift box_node)) }
    ensures err { OnErr result (list.new ≡ list.old) }
    ensures box_returned { IfErr result (λ back. back ≡ box_node) }
{
    let Some(glue) = glue else {
        return list.push_box(shift, box_node);
    };
    let count = list.len();
    if list.push(Node::Glue(glue)).is_err() {
        return Err(box_node);
    }
    match list.push_box(shift, box_node) {
        Ok(()) => Ok(()),
        Err(box_node) => {
            list.truncate(count);
            Err(box_node)
        }
    }
}

/// Appends glue, if there is any, and a box to some nodes. If memory is refused, the error is the box, and the nodes are as they were before the
/// call.
pub(crate) fn push_with_glue(
    nodes: &mut Vec<Node>,
    glue: Option<Glue>,
    shift: Dimen,
    box_node: BoxNode,
) -> Result<(), BoxNode>
    ensures ok { OnOk result (nodes.new.items ≡ nodes.old.items ++ appended_nodes glue shift box_node) }
    ensures err { OnErr result (nodes.new.items ≡ nodes.old.items) }
    ensures box_returned { IfErr result (λ back. back ≡ box_node) }
{
    let Some(glue) = glue else {
        return push_box(nodes, shift, box_node);
    };
    if nodes.push(Node::Glue(glue)).is_err() {
        return Err(box_node);
    }
    match push_box(nodes, shift, box_node) {
        Ok(()) => Ok(()),
        Err(box_node) => {
            nodes.pop();
            Err(box_node)
        }
    }
}
