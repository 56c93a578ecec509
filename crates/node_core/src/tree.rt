//! Nodes, lists of nodes and boxes.
//!
//! In contracts the value of a list is the tree of its items, without pointers and capacities. So two lists, nodes or boxes are equal in a clause
//! exactly when they are the same tree. `nodes_of` gives the nodes of a list in order.

ghost use Rattle.std.specs.Prelude.{◌≡◌, ◌==◌, ◌≢◌, ◌<◌, ◌≤◌, ◌+◌, true, [], ◌∷◌, ◌++◌, length, take, drop, OnOk, OnErr, IfOk, IfErr};
ghost use Rattle.std.specs.List.{list_any};
ghost use Rattle.std.specs.Option.{option_to_list};
ghost use Rattle.node_core.specs.Classes.{has_content};
ghost use Rattle.node_core.specs.Items.{Items, none};
ghost use Rattle.node_core.specs.Nodes.{max_nodes, IsPlain, items_of, nodes_of, last_box, without_last_box};

use crate::slots::{drop_free_slots, replace_nodes, take_nodes};
use crate::special::SpecialText;
use scaled_core::{Dimen, Ratio};
use std::alloc::{AllocError, AllocFailed, Global};
use std::marker::Model;
use std::mem::replace;
use std::ops::Deref;

/// An item of a list (TeX: The Program, part 10).
#[cycle(tree)]
#[derive(Debug, Drop)]
pub enum Node {
    /// A character of a font.
    Glyph(Glyph),
    /// A kern between two characters of a font, in scaled points.
    FontKern(Dimen),
    /// An explicit kern: this much space, in scaled points; a negative kern moves back.
    Kern(Dimen),
    /// Glue: space that can stretch and shrink.
    Glue(Glue),
    /// A penalty: how undesirable a break is here.
    Penalty(i32),
    /// A rule: a filled rectangle.
    Rule(Rule),
    /// A special: a text for the program that reads the pages. It has no size.
    Special(SpecialText),
    /// A box and its shift, in scaled points: down in a horizontal list, to the right in a vertical list.
    Box(Dimen, HeapBox),
}

/// A character of a font: the slot of the font, the code, and the sizes in scaled points.
#[derive(Clone, Copy, Debug, PartialEq, Eq)]
pub struct Glyph {
    pub slot: u8,
    pub code: u8,
    pub width: Dimen,
    pub height: Dimen,
    pub depth: Dimen,
}

/// The order of the stretch or shrink of glue: higher orders are infinitely stronger (TeX: The Program, part 10).
#[derive(Clone, Copy, Debug, PartialEq, Eq)]
pub enum Order {
    Normal,
    Fil,
    Fill,
    Filll,
}

/// Glue: its natural width, and how much it can stretch and shrink, in scaled points, each in an order (TeX: The Program, part 10).
#[derive(Clone, Copy, Debug, PartialEq, Eq)]
pub struct Glue {
    pub width: Dimen,
    pub stretch: Dimen,
    pub stretch_order: Order,
    pub shrink: Dimen,
    pub shrink_order: Order,
}

/// A size of a rule.
#[derive(Clone, Copy, Debug, PartialEq, Eq)]
pub enum RuleSize {
    /// The size of the box that contains the rule.
    Running,
    /// A size of its own, in scaled points.
    Fixed(Dimen),
}

/// A rule (TeX: The Program, part 10).
#[derive(Clone, Copy, Debug, PartialEq, Eq)]
pub struct Rule {
    pub width: RuleSize,
    /// The distance from the baseline to the top of the rule.
    pub height: RuleSize,
    /// The distance from the baseline to the bottom of the rule.
    pub depth: RuleSize,
}

/// The direction of a list.
#[derive(Clone, Copy, Debug, PartialEq, Eq)]
pub enum Kind {
    /// From left to right, as in an hbox.
    Horizontal,
    /// From top to bottom, as in a vbox.
    Vertical,
}

/// How the glue of a box is set: glue of the given order stretches or shrinks by the ratio times its stretch or shrink, and other glue keeps its
/// natural width (TeX: The Program, part 10; the ratio is exact).
#[derive(Clone, Copy, Debug, PartialEq, Eq)]
pub enum Setting {
    /// All glue has its natural width.
    Natural,
    /// Glue stretches.
    Stretch { order: Order, ratio: Ratio },
    /// Glue shrinks.
    Shrink { order: Order, ratio: Ratio },
}

/// A box: its sizes, in scaled points, and the list in it (TeX: The Program, part 10).
#[cycle(tree)]
#[derive(Debug, Drop)]
pub struct BoxNode {
    pub kind: Kind,
    pub width: Dimen,
    /// The distance from the reference point to the top of the box.
    pub height: Dimen,
    /// The distance from the reference point to the bottom of the box.
    pub depth: Dimen,
    pub setting: Setting,
    pub list: NodeList,
}

/// A box on the heap. In contracts its value is the box: so a node is small, and a clause sees no pointer.
#[cycle(tree)]
#[derive(Debug, Drop)]
pub struct HeapBox {
    pub(crate) content: Box<BoxNode>,
}

impl Model for HeapBox {
    ghost use Rattle.node_core.specs.declared.tree.BoxNode.{BoxNode};
    ghost use Rattle.node_core.specs.Private.BoxCodes.{coded_box};

    ghost Value = { BoxNode };

    ghost coded = { coded_box };

    ghost view = { λ b. b.content.value };

    ghost use Rattle.node_core.specs.Private.Nodes.{box_size};

    ghost size = { box_size };

    ghost use Rattle.std.proofs.Common.{arith};

    ghost size_decreases = { λ b h. Prim.omega arith };
}

impl HeapBox {
    /// The box, on the heap. If memory is refused, the error is the box.
    pub fn new(alloc: Global, box_node: BoxNode) -> Result<HeapBox, BoxNode>
        ensures ok { IfOk result (λ boxed. boxed ≡ box_node) }
        ensures err { IfErr result (λ back. back ≡ box_node) }
    {
        match Box::new(alloc, box_node) {
            Ok(content) => Ok(HeapBox { content }),
            Err(failed) => Err(failed.value),
        }
    }

    /// The box, no longer on the heap.
    pub fn into_inner(self) -> BoxNode
        ensures { result ≡ self }
    {
        let HeapBox { content } = self;
        Box::into_inner(content)
    }

    /// Puts another list into the box, and returns the list that was there. Does not allocate.
    pub fn replace_list(&mut self, list: NodeList) -> NodeList
        ensures value { result ≡ self.old.list }
        ensures after { self.new ≡ record self.old { list = list } }
    {
        replace(&mut self.content.list, list)
    }
}

impl Deref for HeapBox {
    type Target = BoxNode;

    ghost deref_gives = { λ boxed inner. inner ≡ boxed };

    #[inline]
    fn deref(&self) -> &BoxNode
        ensures { result.now ≡ self.now }
    {
        &self.content
    }
}

/// A list of at most `MAX_NODES` nodes, in order.
#[cycle(tree)]
#[derive(Debug, Drop)]
pub struct NodeList {
    /// Free slots, and then the nodes of the list. So nodes can leave at the front, and the nodes after them do not move.
    pub(crate) nodes: Vec<Node>,
    /// The number of free slots. A free slot holds a penalty, which owns nothing.
    pub(crate) first: u32,
    /// Whether it is known that no node is a box or a special: then no measure needs a walk.
    pub(crate) plain: bool,
}

impl Model for NodeList {
    ghost use Rattle.node_core.specs.Items.{Items};
    ghost use Rattle.node_core.specs.Private.Codes.{coded_items};

    ghost Value = { Items };

    ghost coded = { coded_items };

    ghost use Rattle.node_core.specs.Nodes.{items_of};
    ghost use Rattle.std.specs.Prelude.{drop};

    ghost view = { λ list. items_of (drop list.first list.nodes.items) };

    ghost use Rattle.std.specs.Prelude.{◌≡◌, ◌≤◌, true, length, take};
    ghost use Rattle.node_core.specs.Nodes.{max_nodes, IsPlain};
    ghost use Rattle.node_core.specs.Private.Nodes.{list_size};

    ghost invariant = { λ list. (length list.nodes.items ≤ max_nodes) × (list.first ≤ length list.nodes.items)
        × IsPlain (take list.first list.nodes.items) × (list.plain ≡ true → IsPlain (drop list.first list.nodes.items)) };

    ghost size = { list_size };

    ghost use Rattle.node_core.specs.Private.Falls.{slots_le-list_size};

    ghost size_decreases = { λ list h. slots_le-list_size list.first list.nodes.items h.2 };
}

impl NodeList {
    /// The empty list. Does not allocate.
    pub fn new(alloc: Global) -> NodeList
        ensures { result ≡ none }
    {
        NodeList {
            nodes: Vec::new(alloc),
            first: 0,
            plain: false,
        }
    }

    /// The list of these nodes, at most `MAX_NODES`. Does not allocate.
    #[tactic(auto, using(crate::proofs::NodeLemmas::nodes))]
    pub fn from_vec(nodes: Vec<Node>) -> NodeList
        requires list_bounded { length nodes.items ≤ max_nodes }
        ensures items { result ≡ items_of nodes.items }
        ensures nodes { nodes_of result ≡ nodes.items }
    {
        // An open list is put together again after each text: a look at each node would then cost too much.
        let plain = false;
        NodeList {
            nodes,
            first: 0,
            plain,
        }
    }

    /// The list of these nodes, at most `MAX_NODES`. `is_plain` says that it is known that none of them is a box or a special: then the measures of
    /// the list need no walk. Does not allocate.
    #[tactic(auto, using(crate::proofs::NodeLemmas::nodes))]
    pub fn with_plainness(nodes: Vec<Node>, is_plain: bool) -> NodeList
        requires list_bounded { length nodes.items ≤ max_nodes }
        requires plain { is_plain ≡ true → IsPlain nodes.items }
        ensures items { result ≡ items_of nodes.items }
        ensures nodes { nodes_of result ≡ nodes.items }
    {
        NodeList {
            nodes,
            first: 0,
            plain: is_plain,
        }
    }

    /// The nodes of the list, in the vector that held them.
    #[tactic(auto, using(crate::proofs::NodeLemmas::nodes))]
    pub fn into_vec(self) -> Vec<Node>
        ensures { result.items ≡ nodes_of self }
    {
        let NodeList {
            mut nodes,
            mut first,
            ..
        } = self;
        drop_free_slots(&mut nodes, &mut first);
        nodes
    }

    /// The nodes of the list.
    #[inline]
    #[tactic(auto, using(crate::proofs::NodeLemmas::nodes))]
    pub fn as_slice(&self) -> &[Node]
        ensures nodes { result.now ≡ nodes_of self.now }
        ensures list_bounded { length (nodes_of self.now) ≤ max_nodes }
    {
        &self.nodes[self.first as usize..]
    }

    /// The number of nodes, without those in inner boxes.
    #[tactic(auto, using(crate::proofs::NodeLemmas::nodes))]
    pub fn len(&self) -> usize
        ensures count { result ≡ length (nodes_of self.now) }
        ensures list_bounded { length (nodes_of self.now) ≤ max_nodes }
    {
        self.nodes.len() - self.first as usize
    }

    /// Whether the list is empty.
    #[tactic(auto, using(crate::proofs::NodeLemmas::nodes))]
    pub fn is_empty(&self) -> bool
        ensures { result ≡ (length (nodes_of self.now) == 0) }
    {
        self.len() == 0
    }

    /// Appends a node to a list of fewer than `MAX_NODES` nodes. If memory is refused, the error returns the node, and the list is as it was before
    /// the call.
    #[inline]
    #[tactic(auto, using(crate::proofs::NodeLemmas::nodes))]
    pub fn push(&mut self, node: Node) -> Result<(), AllocFailed<Node>>
        requires list_bounded { length (nodes_of self.old) < max_nodes }
        ensures ok { OnOk result (self.new ≡ items_of (nodes_of self.old ++ node ∷ [])) }
        ensures nodes { OnOk result (nodes_of self.new ≡ nodes_of self.old ++ node ∷ []) }
        ensures err { OnErr result (self.new ≡ self.old) }
        ensures node_returned { IfErr result (λ failed. failed.value ≡ node) }
    {
        self.plain = false;
        drop_free_slots(&mut self.nodes, &mut self.first);
        self.nodes.push(node)
    }

    /// Appends a box to a list of fewer than `MAX_NODES` nodes. If memory is refused, the error is the box, and the list is as it was before the
    /// call.
    #[tactic(auto, using(crate::proofs::NodeLemmas::nodes))]
    pub fn push_box(&mut self, shift: Dimen, box_node: BoxNode) -> Result<(), BoxNode>
        requires list_bounded { length (nodes_of self.old) < max_nodes }
        ensures ok { OnOk result (self.new ≡ items_of (nodes_of self.old ++ Node.Box shift box_node ∷ [])) }
        ensures err { OnErr result (self.new ≡ self.old) }
        ensures box_returned { IfErr result (λ back. back ≡ box_node) }
    {
        self.plain = false;
        drop_free_slots(&mut self.nodes, &mut self.first);
        push_box(&mut self.nodes, shift, box_node)
    }

    /// Moves the nodes of another list to the end of this one, in order; together they are at most `MAX_NODES`. If memory is refused, both lists are
    /// as they were before the call.
    #[tactic(auto, using(crate::proofs::NodeLemmas::nodes))]
    pub fn append(&mut self, other: &mut NodeList) -> Result<(), AllocError>
        requires list_bounded { length (nodes_of self.old) + length (nodes_of other.old) ≤ max_nodes }
        ensures ok { OnOk result (self.new ≡ items_of (nodes_of self.old ++ nodes_of other.old)) }
        ensures emptied { OnOk result (other.new ≡ none) }
        ensures err { OnErr result (self.new ≡ self.old) }
        ensures list_returned { OnErr result (other.new ≡ other.old) }
    {
        self.plain = false;
        drop_free_slots(&mut self.nodes, &mut self.first);
        drop_free_slots(&mut other.nodes, &mut other.first);
        self.nodes.append(&mut other.nodes)
    }

    /// Keeps the first `count` nodes, or all if there are fewer, and drops the others.
    #[tactic(auto, using(crate::proofs::NodeLemmas::nodes))]
    pub fn truncate(&mut self, count: usize)
        ensures { self.new ≡ items_of (take count (nodes_of self.old)) }
    {
        self.plain = false;
        drop_free_slots(&mut self.nodes, &mut self.first);
        self.nodes.truncate(count);
    }

    /// Removes and returns the last node if it is a box; its shift is dropped. Otherwise the list does not change.
    #[tactic(auto, using(crate::proofs::NodeLemmas::nodes))]
    pub fn pop_box(&mut self) -> Option<BoxNode>
        ensures value { result ≡ last_box (nodes_of self.old) }
        ensures remaining { self.new ≡ items_of (without_last_box (last_box (nodes_of self.old)) (nodes_of self.old)) }
        ensures nodes { nodes_of self.new ≡ without_last_box (last_box (nodes_of self.old)) (nodes_of self.old) }
    {
        self.plain = false;
        drop_free_slots(&mut self.nodes, &mut self.first);
        match self.nodes.last() {
            Some(Node::Box(..)) => match self.nodes.pop() {
                Some(Node::Box(_, boxed)) => Some(boxed.into_inner()),
                _ => unreachable!(),
            },
            _ => None,
        }
    }

    /// Moves the first `count` nodes out of the list. The nodes after them do not move. If memory is refused, the list is as it was before the call.
    /// Without nodes to move it takes no memory.
    #[tactic(auto, using(crate::proofs::NodeLemmas::nodes))]
    pub fn take_front(&mut self, count: usize) -> Result<Vec<Node>, AllocError>
        requires count_bounded { count ≤ length (nodes_of self.old) }
        ensures front { IfOk result (λ front. front.items ≡ take count (nodes_of self.old)) }
        ensures ok { OnOk result (self.new ≡ items_of (drop count (nodes_of self.old))) }
        ensures nodes { OnOk result (nodes_of self.new ≡ drop count (nodes_of self.old)) }
        ensures err { OnErr result (self.new ≡ self.old) }
        ensures growth { OnErr result (count ≢ 0) }
    {
        let first = self.first as usize;
        let end = first + count;
        let front = take_nodes(&mut self.nodes, first, end)?;
        self.first = end as u32;
        Ok(front)
    }

    /// Replaces the first `count` nodes, at least one, by this node, or drops them. The nodes after them do not move. Does not allocate.
    #[tactic(auto, using(crate::proofs::NodeLemmas::nodes))]
    pub fn replace_front(&mut self, count: usize, node: Option<Node>)
        requires count_positive { 0 < count }
        requires count_bounded { count ≤ length (nodes_of self.old) }
        ensures items { self.new ≡ items_of (option_to_list node ++ drop count (nodes_of self.old)) }
        ensures nodes { nodes_of self.new ≡ option_to_list node ++ drop count (nodes_of self.old) }
    {
        self.plain = false;
        let first = self.first as usize;
        self.first = replace_nodes(&mut self.nodes, first, first + count, node) as u32;
    }
}

/// Whether there is a box or a special. The loop has no way out, since without one the compiler tests 32 items at once.
pub fn any_has_content(nodes: &[Node]) -> bool
    ensures { result ≡ list_any has_content nodes.now }
{
    let mut found = false;
    for node in nodes {
        found |= node.has_content();
    }
    found
}

/// Appends a box to the nodes. If memory is refused, the error is the box, and the nodes are as they were before the call.
pub fn push_box(nodes: &mut Vec<Node>, shift: Dimen, box_node: BoxNode) -> Result<(), BoxNode>
    ensures ok { OnOk result (nodes.new.items ≡ nodes.old.items ++ Node.Box shift box_node ∷ []) }
    ensures err { OnErr result (nodes.new.items ≡ nodes.old.items) }
    ensures box_returned { IfErr result (λ back. back ≡ box_node) }
{
    let boxed = HeapBox::new(*nodes.allocator(), box_node)?;
    match nodes.push(Node::Box(shift, boxed)) {
        Ok(()) => Ok(()),
        Err(failed) => match failed.value {
            Node::Box(_, boxed) => Err(boxed.into_inner()),
            _ => unreachable!(),
        },
    }
}
