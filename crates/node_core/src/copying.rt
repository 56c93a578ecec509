//! Copies of nodes, lists and boxes.

ghost use Rattle.std.specs.Prelude.{◌≡◌, IfOk};

use crate::tree::{BoxNode, HeapBox, Node, NodeList};
use std::alloc::{AllocError, Global};

impl NodeList {
    /// A copy of the list. The error is that memory was refused.
    #[cycle(copying)]
    #[tactic(auto, using(crate::proofs::NodeLemmas::nodes))]
    pub fn copy(&self, alloc: Global) -> Result<NodeList, AllocError>
        ensures { IfOk result (λ copy. copy ≡ self.now) }
    {
        let mut nodes = Vec::with_capacity(alloc, self.len())?;
        for node in self.as_slice() {
            nodes.push(node.copy(alloc)?)?;
        }
        Ok(NodeList {
            nodes,
            first: 0,
            plain: self.plain,
        })
    }
}

impl Node {
    /// A copy of the node. The error is that memory was refused.
    #[cycle(copying)]
    pub fn copy(&self, alloc: Global) -> Result<Node, AllocError>
        ensures { IfOk result (λ copy. copy ≡ self.now) }
    {
        Ok(match self {
            Node::Glyph(glyph) => Node::Glyph(*glyph),
            Node::FontKern(width) => Node::FontKern(*width),
            Node::Kern(width) => Node::Kern(*width),
            Node::Glue(glue) => Node::Glue(*glue),
            Node::Penalty(penalty) => Node::Penalty(*penalty),
            Node::Rule(rule) => Node::Rule(*rule),
            Node::Special(text) => Node::Special(text.copy(alloc)?),
            Node::Box(shift, boxed) => Node::Box(*shift, boxed.copy(alloc)?),
        })
    }
}

impl HeapBox {
    /// A copy of the box, on the heap. The error is that memory was refused.
    #[cycle(copying)]
    pub fn copy(&self, alloc: Global) -> Result<HeapBox, AllocError>
        ensures { IfOk result (λ copy. copy ≡ self.now) }
    {
        let copied = self.content.copy(alloc)?;
        HeapBox::new(alloc, copied).map_err(|_| AllocError)
    }
}

impl BoxNode {
    /// A copy of the box. The error is that memory was refused.
    #[cycle(copying)]
    pub fn copy(&self, alloc: Global) -> Result<BoxNode, AllocError>
        ensures { IfOk result (λ copy. copy ≡ self.now) }
    {
        let list = self.list.copy(alloc)?;
        Ok(BoxNode {
            kind: self.kind,
            width: self.width,
            height: self.height,
            depth: self.depth,
            setting: self.setting,
            list,
        })
    }
}
