//! The instructions that draw marks.

ghost use Rattle.std.specs.Prelude.{◌≡◌, ◌+ℤ◌, ◌-ℤ◌, ◌++◌, [], ◌∷◌, pos, true, false, None, Some, Option, IfOk, OnOk};
ghost use Rattle.std.specs.Option.{option_map};
ghost use Rattle.node_core.specs.declared.tree.Kind.{Kind};
ghost use Rattle.dvi_ops.specs.Forest.{flat};
ghost use Rattle.dvi_ops.specs.Instruction.{Across, Downward, Do, Push, Pop};
ghost use Rattle.dvi_ops.specs.Runs.{instructions_of};
ghost use Rattle.dvi_ops.specs.View.{body_view};
ghost use Rattle.scaled_core.specs.Mark as body;
ghost use Rattle.scaled_core.specs.Mark.{Special};
ghost use Rattle.ship_core.specs.Drawing.{rule_leaf, body_of_drawn};
ghost use Rattle.page_core.specs.DrawnPages.{DrawnPage, marked};
ghost use Rattle.page_core.specs.Placing.{IsMarkEnd, marked_in};
ghost use Rattle.ship_core.specs.Private.MarkInstructions.{mark_instructions, instructions_made, font_left, movement, selection};

use dvi_ops::{BodyOp, PageRuns};
use node_core::{BoxNode, Glyph, Kind};
use page_core::MarkSink;
use page_core::placing::{MarkKind, PagePosition, PlacedMark, Point};
use scaled_core::Dimen;
use std::alloc::{AllocError, Global};

/// The instructions so far, the values of h and v after them, and the slot of the font that is selected after them.
#[derive(Debug, Drop)]
pub struct Drawing<'a> {
    pub ops: PageRuns<'a>,
    pub h: Dimen,
    pub v: Dimen,
    pub font: Option<u8>,
}

/// Appends a movement to the right, unless its amount is 0.
#[inline(always)]
fn append_right(ops: &mut PageRuns<'_>, from: Dimen, to: Dimen) -> Result<(), AllocError>
    ensures { OnOk result (instructions_of ops.new ≡ instructions_of ops.old ++ movement Across (to -ℤ from)) }
{
    let amount = to.get() - from.get();
    if amount == 0 {
        return Ok(());
    }
    ops.push(BodyOp::Right(amount))
}

/// Appends a movement down, unless its amount is 0.
#[inline(always)]
fn append_down(ops: &mut PageRuns<'_>, from: Dimen, to: Dimen) -> Result<(), AllocError>
    ensures { OnOk result (instructions_of ops.new ≡ instructions_of ops.old ++ movement Downward (to -ℤ from)) }
{
    let amount = to.get() - from.get();
    if amount == 0 {
        return Ok(());
    }
    ops.push(BodyOp::Down(amount))
}

/// The instruction for a rule: set_rule in a horizontal list, since the next item is to its right. In a vertical list the next item is at the left
/// edge, where h still is after put_rule.
fn rule_op(kind: Kind, height: i32, width: i32) -> BodyOp<'static>
    ensures { body_view result ≡ Do (rule_leaf kind height width) }
{
    match kind {
        Kind::Horizontal => BodyOp::SetRule { height, width },
        Kind::Vertical => BodyOp::PutRule { height, width },
    }
}

/// Appends a rule or a character of a list of that kind.
#[inline(always)]
fn append_mark(
    ops: &mut PageRuns<'_>,
    kind: Kind,
    width: Dimen,
    mark_kind: MarkKind,
) -> Result<(), AllocError>
    ensures { OnOk result (instructions_of ops.new ≡ instructions_of ops.old ++ mark_instructions kind width mark_kind) }
{
    match mark_kind {
        MarkKind::Glyph { code, .. } => ops.push_character(code),
        MarkKind::Rule(height) => ops.push(rule_op(kind, height.get(), width.get())),
    }
}

impl<'a> Drawing<'a> {
    /// A drawing without instructions, with capacity for `capacity` of them. The place is (0, 0), and no font is selected.
    pub fn new(alloc: Global, capacity: usize) -> Result<Drawing<'a>, AllocError>
        ensures { IfOk result (λ drawing. (kind : Kind) (rest : DrawnPage)
            → instructions_made kind drawing rest ≡ flat (body_of_drawn kind (pos 0) (pos 0) None rest)) }
    {
        Ok(Drawing {
            ops: PageRuns::new(alloc, capacity)?,
            h: Dimen::ZERO,
            v: Dimen::ZERO,
            font: None,
        })
    }

    /// Moves to a place: first right, then down.
    #[tactic(auto, using(crate::proofs::Drawings::movements))]
    #[inline(always)]
    fn move_to(&mut self, h: Dimen, v: Dimen) -> Result<(), AllocError>
        ensures h { OnOk result (self.new.h ≡ h) }
        ensures v { OnOk result (self.new.v ≡ v) }
        ensures font { OnOk result (self.new.font ≡ self.old.font) }
        ensures ops { OnOk result (instructions_of self.new.ops
            ≡ (instructions_of self.old.ops ++ movement Across (h -ℤ self.old.h)) ++ movement Downward (v -ℤ self.old.v)) }
    {
        append_right(&mut self.ops, self.h, h)?;
        self.h = h;
        append_down(&mut self.ops, self.v, v)?;
        self.v = v;
        Ok(())
    }

    /// Selects the font of a slot, unless it is the current one.
    #[inline(always)]
    fn select(&mut self, slot: u8) -> Result<(), AllocError>
        ensures h { OnOk result (self.new.h ≡ self.old.h) }
        ensures v { OnOk result (self.new.v ≡ self.old.v) }
        ensures font { OnOk result (self.new.font ≡ Some slot) }
        ensures ops { OnOk result (instructions_of self.new.ops ≡ instructions_of self.old.ops
            ++ selection (option_map pos self.old.font) (pos slot)) }
    {
        if self.font == Some(slot) {
            return Ok(());
        }
        self.ops.push(BodyOp::FontNum(i32::from(slot)))?;
        self.font = Some(slot);
        Ok(())
    }

    /// Draws a mark of a list of that kind: moves to it, selects the font of a glyph, and appends the mark.
    #[tactic(auto, using(crate::proofs::Drawings::movements))]
    #[inline(always)]
    fn draw_mark(&mut self, kind: Kind, mark: PlacedMark) -> Result<(), AllocError>
        requires { IsMarkEnd kind mark }
        ensures ops { OnOk result ((rest : DrawnPage)
            → instructions_made kind self.old (marked_in (Some mark) rest) ≡ instructions_made kind self.new rest) }
        ensures font { OnOk result ((rest : DrawnPage) → font_left self.old (marked_in (Some mark) rest) ≡ font_left self.new rest) }
    {
        self.move_to(mark.h, mark.v)?;
        if let MarkKind::Glyph { slot, .. } = mark.mark_kind {
            self.select(slot)?;
        }
        append_mark(&mut self.ops, kind, mark.width, mark.mark_kind)?;
        self.h = mark.end;
        Ok(())
    }

    /// Draws a glyph of a horizontal list at a place, with the value of h after it.
    #[tactic(auto, using(crate::proofs::Drawings::movements))]
    #[inline(always)]
    fn append_glyph(&mut self, at: PagePosition, glyph: Glyph, end: Dimen) -> Result<(), AllocError>
        requires { end ≡ at.h +ℤ glyph.width }
        ensures ops { OnOk result ((rest : DrawnPage) → instructions_made Kind.Horizontal self.old
            (marked (body.Glyph (pos glyph.slot) (pos glyph.code) at.h at.v) glyph.width rest) ≡ instructions_made Kind.Horizontal self.new rest) }
        ensures left { OnOk result ((rest : DrawnPage) → font_left self.old
            (marked (body.Glyph (pos glyph.slot) (pos glyph.code) at.h at.v) glyph.width rest) ≡ font_left self.new rest) }
        ensures h { OnOk result (self.new.h ≡ end) }
        ensures v { OnOk result (self.new.v ≡ at.v) }
        ensures font { OnOk result (self.new.font ≡ Some glyph.slot) }
    {
        let Point { h, v } = at;
        self.move_to(h, v)?;
        self.select(glyph.slot)?;
        self.ops.push_character(glyph.code)?;
        self.h = end;
        Ok(())
    }

    /// Draws a glyph of the selected font at a place where the drawing is, where there is space for it; and returns whether it did.
    #[tactic(auto, using(crate::proofs::Drawings::movements))]
    #[inline(always)]
    fn append_next(&mut self, at: PagePosition, glyph: Glyph, end: Dimen) -> bool
        requires end { end ≡ at.h +ℤ glyph.width }
        requires h { self.old.h ≡ at.h }
        requires v { self.old.v ≡ at.v }
        requires font { self.old.font ≡ Some glyph.slot }
        ensures ops { result ≡ true → (rest : DrawnPage) → instructions_made Kind.Horizontal self.old
            (marked (body.Glyph (pos glyph.slot) (pos glyph.code) at.h at.v) glyph.width rest) ≡ instructions_made Kind.Horizontal self.new rest }
        ensures left { result ≡ true → (rest : DrawnPage) → font_left self.old
            (marked (body.Glyph (pos glyph.slot) (pos glyph.code) at.h at.v) glyph.width rest) ≡ font_left self.new rest }
        ensures h { result ≡ true → self.new.h ≡ end }
        ensures v { result ≡ true → self.new.v ≡ at.v }
        ensures font { result ≡ true → self.new.font ≡ Some glyph.slot }
        ensures full { result ≡ false → self.new ≡ self.old }
    {
        // A fact for the proofs: the bound of the place.
        let _h = at.h;
        if !self.ops.push_in_space(glyph.code) {
            return false;
        }
        self.h = end;
        true
    }

    /// Draws a special at a place. It leaves h and v there, since a special has no width.
    #[tactic(auto, using(crate::proofs::Drawings::movements))]
    fn append_special(&mut self, at: PagePosition, text: &'a [u8]) -> Result<(), AllocError>
        ensures ops { OnOk result
            ((kind : Kind) (rest : DrawnPage) → instructions_made kind self.old (marked (Special at.h at.v text.now) (pos 0) rest)
            ≡ instructions_made kind self.new rest) }
        ensures font { OnOk result ((rest : DrawnPage)
            → font_left self.old (marked (Special at.h at.v text.now) (pos 0) rest) ≡ font_left self.new rest) }
    {
        self.move_to(at.h, at.v)?;
        self.ops.push(BodyOp::Xxx(text))?;
        Ok(())
    }

    /// Appends a push, and returns the place before it.
    fn push(&mut self) -> Result<PagePosition, AllocError>
        ensures h { OnOk result (self.new.h ≡ self.old.h) }
        ensures v { OnOk result (self.new.v ≡ self.old.v) }
        ensures font { OnOk result (self.new.font ≡ self.old.font) }
        ensures ops { OnOk result (instructions_of self.new.ops ≡ instructions_of self.old.ops ++ Push ∷ []) }
        ensures place { IfOk result (λ before. before ≡ record { h = self.old.h; v = self.old.v }) }
    {
        self.ops.push(BodyOp::Push)?;
        Ok(Point {
            h: self.h,
            v: self.v,
        })
    }

    /// Appends a pop for the push at the place `before`: h and v are there again. The selected font stays, since pop does not restore it.
    fn pop(&mut self, before: PagePosition) -> Result<(), AllocError>
        ensures h { OnOk result (self.new.h ≡ before.h) }
        ensures v { OnOk result (self.new.v ≡ before.v) }
        ensures font { OnOk result (self.new.font ≡ self.old.font) }
        ensures ops { OnOk result (instructions_of self.new.ops ≡ instructions_of self.old.ops ++ Pop ∷ []) }
    {
        self.ops.push(BodyOp::Pop)?;
        self.h = before.h;
        self.v = before.v;
        Ok(())
    }
}

impl<'a> MarkSink<&'a BoxNode> for Drawing<'a> {
    ghost use Rattle.std.specs.Prelude.{◌≡◌, List, Option, Some, ℤ};
    ghost use Rattle.dvi_ops.specs.Instruction.{Instruction};
    ghost use Rattle.ship_core.specs.Private.MarkInstructions.{instructions_made, font_left, IsOpened};

    type Place = PagePosition;

    type Fault = AllocError;

    ghost Drawn = { List Instruction × Option ℤ };

    ghost drawn_with = { λ kind drawing rest. (instructions_made kind drawing rest, font_left drawing rest) };

    ghost Opens = { IsOpened };

    ghost IsAt = { λ drawing h v slot. (drawing.h ≡ h) × (drawing.v ≡ v) × (drawing.font ≡ Some slot) };

    #[inline(always)]
    fn draw(&mut self, kind: Kind, mark: Option<PlacedMark>) -> Result<(), AllocError> {
        match mark {
            None => Ok(()),
            Some(mark) => self.draw_mark(kind, mark),
        }
    }

    #[inline(always)]
    fn draw_glyph(&mut self, at: PagePosition, glyph: Glyph, end: Dimen) -> Result<(), AllocError> {
        self.append_glyph(at, glyph, end)
    }

    #[inline(always)]
    fn draw_next(&mut self, at: PagePosition, glyph: Glyph, end: Dimen) -> bool {
        self.append_next(at, glyph, end)
    }

    fn draw_special(&mut self, at: PagePosition, text: &'a [u8]) -> Result<(), AllocError> {
        self.append_special(at, text)
    }

    /// No movement comes before the push: the first mark inside moves from there.
    fn open_group(&mut self) -> Result<PagePosition, AllocError> {
        self.push()
    }

    fn close_group(&mut self, place: PagePosition) -> Result<(), AllocError> {
        self.pop(place)?;
        Ok(())
    }
}
