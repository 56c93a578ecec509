//! Finishing the list of a paragraph, before it is broken into lines (TeX: The Program, part 38, §816).

ghost use Rattle.std.specs.Prelude.{◌≡◌, ◌<◌, ◌≤◌, ◌++◌, ◌∷◌, [], List, length, slice_set, OnOk, OnErr, IfOk};
ghost use Rattle.node_core.specs.declared.tree.Glue.{Glue};
ghost use Rattle.node_core.specs.declared.tree.Node.{Node};
ghost use Rattle.node_core.specs.Nodes.{max_nodes};
ghost use Rattle.break_lines.specs.Facts.{refusal};
ghost use Rattle.vert_core.specs.Finished.{final_glue, without_glue, finished_list};

use break_lines::{BreakFault, refusal};
use node_core::{Glue, Node};
use std::alloc::AllocError;

/// The penalty at the end of a paragraph, at which no line can end.
const NO_BREAK: i32 = 10_000;

/// The glue at the end of a list, if its last item is glue.
fn final_glue(nodes: &[Node]) -> Option<Glue>
    ensures { result ≡ final_glue nodes.now }
{
    match nodes.last() {
        Some(Node::Glue(glue)) => Some(*glue),
        _ => None,
    }
}

/// The items of a list without glue at its end.
fn without_final_glue(nodes: &[Node]) -> &[Node]
    ensures { result.now ≡ without_glue (final_glue nodes.now) nodes.now }
{
    match final_glue(nodes) {
        Some(_) => &nodes[..nodes.len() - 1],
        None => nodes,
    }
}

/// Why the finished list of a paragraph cannot be broken, found from the list before it is finished. The items that finishing would append add no
/// legal place, and of them only parfillskip can shrink in an infinite order. Does not allocate.
#[tactic(auto, using(crate::proofs::Unbroken::refused_by_glue, crate::proofs::Unbroken::refused_by_text))]
pub fn refusal_of_finished(nodes: &[Node], par_fill_skip: Glue) -> Option<BreakFault>
    requires { length nodes.now ≤ max_nodes }
    ensures { result ≡ refusal (finished_list nodes.now par_fill_skip) }
{
    if Node::Glue(par_fill_skip).shrinks_infinitely() {
        return Some(BreakFault::InfiniteShrink);
    }
    refusal(without_final_glue(nodes))
}

/// Appends a node. If memory is refused, the nodes are as they were before the call.
fn push_one(nodes: &mut Vec<Node>, node: Node) -> Result<(), AllocError>
    ensures ok { OnOk result (nodes.new.items ≡ nodes.old.items ++ node ∷ []) }
    ensures err { OnErr result (nodes.new.items ≡ nodes.old.items) }
{
    nodes.push(node)?;
    Ok(())
}

/// Appends two nodes. If memory is refused, the nodes are as they were before the call.
fn push_two(nodes: &mut Vec<Node>, first: Node, second: Node) -> Result<(), AllocError>
    ensures ok { OnOk result (nodes.new.items ≡ nodes.old.items ++ first ∷ second ∷ []) }
    ensures err { OnErr result (nodes.new.items ≡ nodes.old.items) }
{
    push_one(nodes, first)?;
    match push_one(nodes, second) {
        Ok(()) => Ok(()),
        Err(AllocError) => {
            nodes.pop();
            Err(AllocError)
        }
    }
}

/// Replaces the node at an index.
fn put_at(nodes: &mut Vec<Node>, index: usize, node: Node)
    requires { index < length nodes.old.items }
    ensures { nodes.new.items ≡ slice_set nodes.old.items index node }
{
    nodes[index] = node;
}

/// Finishes the list of a paragraph that is not empty: glue at its end is replaced by a penalty of 10000, or else this penalty is appended; then
/// parfillskip is appended. Returns the glue that was replaced, if there was any. If memory is refused, the list is as it was before the call.
pub fn finish_paragraph(
    nodes: &mut Vec<Node>,
    par_fill_skip: Glue,
) -> Result<Option<Glue>, AllocError>
    ensures ok { OnOk result (nodes.new.items ≡ finished_list nodes.old.items par_fill_skip) }
    ensures replaced { IfOk result (λ glue. glue ≡ final_glue nodes.old.items) }
    ensures err { OnErr result (nodes.new.items ≡ nodes.old.items) }
{
    let count = nodes.len();
    let Some(glue) = final_glue(nodes) else {
        push_two(nodes, Node::Penalty(NO_BREAK), Node::Glue(par_fill_skip))?;
        return Ok(None);
    };
    push_one(nodes, Node::Glue(par_fill_skip))?;
    put_at(nodes, count - 1, Node::Penalty(NO_BREAK));
    Ok(Some(glue))
}

/// Turns a finished list back into the list from which it was made; `replaced` is the result of `finish_paragraph`.
pub fn unfinish_paragraph(nodes: &mut Vec<Node>, replaced: Option<Glue>)
    requires { (list : List Node) × (par_fill_skip : Glue) × (nodes.old.items ≡ finished_list list par_fill_skip) × (replaced ≡ final_glue list) }
    ensures { (list : List Node) → (par_fill_skip : Glue) → nodes.old.items ≡ finished_list list par_fill_skip → replaced ≡ final_glue list
        → nodes.new.items ≡ list }
{
    let count = nodes.len();
    match replaced {
        None => nodes.truncate(count.saturating_sub(2)),
        Some(glue) => {
            nodes.truncate(count.saturating_sub(1));
            put_at(nodes, count - 2, Node::Glue(glue));
        }
    }
}
