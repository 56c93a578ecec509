//! The measures of lists and boxes: how deep their boxes nest, how many items they have, and how long the texts of their specials are.

ghost use Rattle.std.specs.Prelude.{◌≡◌, min};
ghost use Rattle.node_core.specs.Items.{items_depth, items_count, items_text};
ghost use Rattle.node_core.specs.Nodes.{box_depth, box_count, box_text};

use crate::tree::{BoxNode, Node, NodeList};

impl NodeList {
    /// The depth to which boxes nest in the list, 0 for a list without boxes, or `u64::MAX` if it is greater. Does not allocate.
    #[tactic(auto, using(crate::proofs::NodeLemmas::nodes))]
    pub fn depth(&self) -> u64
        ensures { result ≡ min (items_depth self.now) u64.MAX }
    {
        if self.plain {
            return 0;
        }
        let mut deepest: u64 = 0;
        for node in self.as_slice() {
            if let Node::Box(_, inner) = node {
                deepest = deepest.max(inner.list.depth().saturating_add(1));
            }
        }
        deepest
    }

    /// The number of items, including boxes and the items in inner boxes, or `u64::MAX` if it is greater. Does not allocate.
    #[tactic(auto, using(crate::proofs::NodeLemmas::nodes))]
    pub fn count(&self) -> u64
        ensures { result ≡ min (items_count self.now) u64.MAX }
    {
        let mut count = self.len() as u64;
        if self.plain {
            return count;
        }
        for node in self.as_slice() {
            if let Node::Box(_, inner) = node {
                count = count.saturating_add(inner.list.count());
            }
        }
        count
    }

    /// The number of bytes in the texts of the specials, including those in inner boxes, or `u64::MAX` if it is greater. Does not allocate.
    #[tactic(auto, using(crate::proofs::NodeLemmas::nodes))]
    pub fn text_size(&self) -> u64
        ensures { result ≡ min (items_text self.now) u64.MAX }
    {
        if self.plain {
            return 0;
        }
        let mut size: u64 = 0;
        for node in self.as_slice() {
            match node {
                Node::Box(_, inner) => size = size.saturating_add(inner.list.text_size()),
                Node::Special(text) => size = size.saturating_add(text.as_bytes().len() as u64),
                _ => {}
            }
        }
        size
    }
}

impl BoxNode {
    /// The depth to which boxes nest, 1 for a box without inner boxes, or `u64::MAX` if it is greater. Does not allocate.
    pub fn depth(&self) -> u64
        ensures { result ≡ min (box_depth self.now) u64.MAX }
    {
        self.list.depth().saturating_add(1)
    }

    /// The number of nodes: the box itself and every item in it, including those in inner boxes, or `u64::MAX` if it is greater. Does not allocate.
    pub fn count(&self) -> u64
        ensures { result ≡ min (box_count self.now) u64.MAX }
    {
        self.list.count().saturating_add(1)
    }

    /// The number of bytes in the texts of the specials in the box, including those in inner boxes, or `u64::MAX` if it is greater. Does not
    /// allocate.
    pub fn text_size(&self) -> u64
        ensures { result ≡ min (box_text self.now) u64.MAX }
    {
        self.list.text_size()
    }
}
