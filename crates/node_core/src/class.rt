//! The class of an item: what matters about it when lists are broken and packed.

ghost use Rattle.std.specs.Prelude.{◌≡◌};
ghost use Rattle.node_core.specs.Classes.{class_of, is_discardable, precedes_break, is_box_or_rule, shrinks_infinitely, has_content};

use crate::tree::{Kind, Node, Order};

/// The class of an item: what matters about it when lists are broken and packed (TeX: The Program, part 10).
#[derive(Clone, Copy, Debug, PartialEq, Eq)]
pub enum ItemClass {
    /// A box or a rule.
    BoxOrRule,
    /// A character of a font, or a kern between two of them.
    GlyphOrFontKern,
    /// Glue.
    Glue,
    /// An explicit kern.
    Kern,
    /// A penalty.
    Penalty,
    /// A special.
    Special,
}

impl ItemClass {
    /// Whether items of the class are dropped at the start of a line and at the top of a page.
    pub fn is_discardable(self) -> bool
        ensures { result ≡ is_discardable self }
    {
        match self {
            ItemClass::BoxOrRule | ItemClass::GlyphOrFontKern | ItemClass::Special => false,
            ItemClass::Glue | ItemClass::Kern | ItemClass::Penalty => true,
        }
    }

    /// Whether glue directly after an item of the class is a legal break, in a list of this kind.
    pub fn precedes_break(self, kind: Kind) -> bool
        ensures { result ≡ precedes_break kind self }
    {
        match self {
            ItemClass::BoxOrRule | ItemClass::Special => true,
            ItemClass::GlyphOrFontKern => kind == Kind::Horizontal,
            ItemClass::Glue | ItemClass::Kern | ItemClass::Penalty => false,
        }
    }

    /// Whether items of the class are boxes or rules.
    pub fn is_box_or_rule(self) -> bool
        ensures { result ≡ is_box_or_rule self }
    {
        match self {
            ItemClass::BoxOrRule => true,
            _ => false,
        }
    }
}

impl Node {
    /// The class of an item.
    pub fn class(&self) -> ItemClass
        ensures { result ≡ class_of self.now }
    {
        match self {
            Node::Glyph(_) | Node::FontKern(_) => ItemClass::GlyphOrFontKern,
            Node::Kern(_) => ItemClass::Kern,
            Node::Glue(_) => ItemClass::Glue,
            Node::Penalty(_) => ItemClass::Penalty,
            Node::Rule(_) | Node::Box(..) => ItemClass::BoxOrRule,
            Node::Special(_) => ItemClass::Special,
        }
    }

    /// Whether an item is glue that shrinks in an infinite order.
    pub fn shrinks_infinitely(&self) -> bool
        ensures { result ≡ shrinks_infinitely self.now }
    {
        match self {
            Node::Glue(glue) => glue.shrink_order != Order::Normal && glue.shrink.get() != 0,
            _ => false,
        }
    }

    /// Whether the measures of a list count more of an item than the item itself: the items of a box, the text of a special.
    pub fn has_content(&self) -> bool
        ensures { result ≡ has_content self.now }
    {
        match self {
            Node::Box(..) | Node::Special(_) => true,
            _ => false,
        }
    }
}
