//! What takes the marks of a page, one after the other, and how a walk sees the boxes of a page.

use crate::placing::{PagePosition, PlacedMark};
use node_core::{BoxNode, Glyph, Kind, Node};
use scaled_core::Dimen;
use std::convert::Infallible;

/// A reference to a box of a tree. A walk is generic over it, since a recursive function whose bound names a lifetime has no proof yet: in place of
/// the lifetime of the tree, a sink then knows the type of its references.
pub trait BoxRef: Copy {
    ghost use Rattle.std.specs.Prelude.{◌≡◌, ◌≢◌, ◌<◌, ℕ, ℤ, List, length, slice_get, Some, None, IfSome};
    ghost use Rattle.node_core.specs.declared.tree.BoxNode.{BoxNode};
    ghost use Rattle.node_core.specs.declared.tree.Node.TheVariants.{Box, Special};
    ghost use Rattle.node_core.specs.Nodes.{nodes_of};

    /// A reference to the text of a special.
    type Text: Drop;

    /// The box.
    ghost box_node: { Self → BoxNode };

    /// The bytes of a text.
    ghost bytes: { Self.Text → List ℕ };

    /// The box.
    fn as_box(&self) -> &BoxNode
        ensures { result.now ≡ box_node self.now };

    /// The inner box at an index of the list, where the item there is a box.
    fn inner(&self, index: usize) -> Option<Self>
        requires within { index < length (nodes_of (box_node self.now).list) }
        ensures some { IfSome result (λ inner. (shift : ℤ)
            × (slice_get (nodes_of (box_node self.now).list) index ≡ Some (Box shift (box_node inner)))) }
        ensures none { result ≡ None → (shift : ℤ) (inner : BoxNode) → slice_get (nodes_of (box_node self.now).list) index ≢ Some (Box shift inner) };

    /// The text of the special at an index of the list, where the item there is a special.
    fn text(&self, index: usize) -> Option<Self::Text>
        requires within { index < length (nodes_of (box_node self.now).list) }
        ensures some { IfSome result (λ text. slice_get (nodes_of (box_node self.now).list) index ≡ Some (Special (bytes text))) }
        ensures none { result ≡ None → (text : List ℕ) → slice_get (nodes_of (box_node self.now).list) index ≢ Some (Special text) };
}

impl<'a> BoxRef for &'a BoxNode {
    type Text = &'a [u8];

    ghost box_node = { λ here. here.now };

    ghost bytes = { λ text. text.now };

    #[inline(always)]
    fn as_box(&self) -> &BoxNode {
        self
    }

    #[inline(always)]
    fn inner(&self, index: usize) -> Option<&'a BoxNode> {
        match &self.list.as_slice()[index] {
            Node::Box(_, inner) => Some(inner),
            _ => None,
        }
    }

    #[inline(always)]
    fn text(&self, index: usize) -> Option<&'a [u8]> {
        match &self.list.as_slice()[index] {
            Node::Special(text) => Some(text.as_bytes()),
            _ => None,
        }
    }
}

/// A sink takes the marks of a page in order. The marks of an inner box with items are a group, which is opened before them and closed after them.
pub trait MarkSink<B: BoxRef> {
    ghost use Rattle.std.specs.Prelude.{◌≡◌, ◌+ℤ◌, ℕ, ℤ, pos, true, false, IfOk, OnOk, IfSome};
    ghost use Rattle.node_core.specs.declared.tree.Kind.{Kind};
    ghost use Rattle.scaled_core.specs.Mark as marks;
    ghost use Rattle.scaled_core.specs.Mark.{Special};
    ghost use Rattle.page_core.specs.DrawnPages.{DrawnPage, blank, marked, group};
    ghost use Rattle.page_core.specs.Placing.{IsMarkEnd, marked_in};

    /// What the sink keeps of its state where a group begins, for the end of that group.
    type Place: Drop;

    /// Why the sink does not take a mark.
    type Fault;

    /// What the marks come to.
    ghost Drawn: { Type 0 };

    /// What the marks that the sink was given come to, with what is drawn after them in a list of that kind.
    ghost drawn_with: { Kind → Self → DrawnPage → Drawn };

    /// The second sink is the first one after a group was opened, which returned the place.
    ghost Opens: { Self → Self → Self.Place → Type 0 };

    /// The last mark was a glyph of the font in this slot, and ended at (h, v).
    ghost IsAt: { Self → (h v : ℤ) → (slot : ℕ) → Type 0 };

    /// Takes the mark of an item in a list of that kind, if the item has one.
    fn draw(&mut self, kind: Kind, mark: Option<PlacedMark>) -> Result<(), Self::Fault>
        requires end { IfSome mark (IsMarkEnd kind) }
        ensures mark { OnOk result ((rest : DrawnPage) → drawn_with kind self.old (marked_in mark rest) ≡ drawn_with kind self.new rest) };

    /// Takes a glyph of a horizontal list at a position, with the value of h after it.
    fn draw_glyph(&mut self, at: PagePosition, glyph: Glyph, end: Dimen) -> Result<(), Self::Fault>
        requires { end ≡ at.h +ℤ glyph.width }
        ensures mark { OnOk result ((rest : DrawnPage) → drawn_with Kind.Horizontal self.old
            (marked (marks.Glyph (pos glyph.slot) (pos glyph.code) at.h at.v) glyph.width rest) ≡ drawn_with Kind.Horizontal self.new rest) }
        ensures is_at { OnOk result (IsAt self.new end at.v glyph.slot) };

    /// Takes a glyph that stands where the last one ended, of the same font, where that takes no memory; and returns whether it did.
    fn draw_next(&mut self, at: PagePosition, glyph: Glyph, end: Dimen) -> bool
        requires end { end ≡ at.h +ℤ glyph.width }
        requires is_at { IsAt self.old at.h at.v glyph.slot }
        ensures mark { result ≡ true → (rest : DrawnPage) → drawn_with Kind.Horizontal self.old
            (marked (marks.Glyph (pos glyph.slot) (pos glyph.code) at.h at.v) glyph.width rest) ≡ drawn_with Kind.Horizontal self.new rest }
        ensures is_at { result ≡ true → IsAt self.new end at.v glyph.slot }
        ensures same { result ≡ false → (rest : DrawnPage) → drawn_with Kind.Horizontal self.old rest ≡ drawn_with Kind.Horizontal self.new rest };

    /// Takes a special at a position.
    fn draw_special(&mut self, at: PagePosition, text: B::Text) -> Result<(), Self::Fault>
        ensures special { OnOk result ((kind : Kind) (rest : DrawnPage)
            → drawn_with kind self.old (marked (Special at.h at.v (B.bytes text)) (pos 0) rest) ≡ drawn_with kind self.new rest) };

    /// Opens a group, and returns what `close_group` needs.
    fn open_group(&mut self) -> Result<Self::Place, Self::Fault>
        ensures opens { IfOk result (λ place. Opens self.old self.new place) };

    /// Closes the group that was opened at a place: where the sink inside it was given a drawn box, the sink around it has got this group.
    fn close_group(&mut self, place: Self::Place) -> Result<(), Self::Fault>
        ensures group { OnOk result ((kind own : Kind) (outer inside : Self) (inner rest : DrawnPage) → Opens outer inside place
            → drawn_with own inside inner ≡ drawn_with own self.old blank
            → drawn_with kind outer (group own inner rest) ≡ drawn_with kind self.new rest) };
}

/// A sink that drops all marks, for a walk that only finds whether the numbers of a page fit. It takes no memory and never fails.
#[derive(Clone, Copy, Debug)]
pub struct NoMarks;

impl<B: BoxRef> MarkSink<B> for NoMarks {
    type Place = ();

    type Fault = Infallible;

    ghost Drawn = { Unit {0} };

    ghost drawn_with = { λ kind sink rest. tt };

    ghost Opens = { λ outer inside place. Unit {0} };

    ghost IsAt = { λ sink h v slot. Unit {0} };

    #[inline(always)]
    fn draw(&mut self, _kind: Kind, _mark: Option<PlacedMark>) -> Result<(), Infallible> {
        Ok(())
    }

    #[inline(always)]
    fn draw_glyph(
        &mut self,
        _at: PagePosition,
        _glyph: Glyph,
        _end: Dimen,
    ) -> Result<(), Infallible> {
        Ok(())
    }

    #[inline(always)]
    fn draw_next(&mut self, _at: PagePosition, _glyph: Glyph, _end: Dimen) -> bool {
        true
    }

    #[inline(always)]
    fn draw_special(&mut self, _at: PagePosition, _text: B::Text) -> Result<(), Infallible> {
        Ok(())
    }

    #[inline(always)]
    fn open_group(&mut self) -> Result<(), Infallible> {
        Ok(())
    }

    #[inline(always)]
    fn close_group(&mut self, _place: ()) -> Result<(), Infallible> {
        Ok(())
    }
}
