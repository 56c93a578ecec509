//! The effect of an instruction of a body in an open page: the place and the font after it, and the mark that it makes (DVItype, 14 and 15).

ghost use Rattle.std.specs.Prelude.{◌≡◌, [], List, Some, option_map, ℕ};
ghost use Rattle.dvi_ops.specs.Body.{Position as PositionView, Widths, instruction_acts, glyph as seen_glyph, kept_in, state_without_mark};
ghost use Rattle.dvi_ops.specs.Body.{place_after};
ghost use Rattle.dvi_ops.specs.Body.{rule_at};
ghost use Rattle.scaled_core.specs.Mark.{Special};
ghost use Rattle.dvi_ops.specs.File.{MarkedPage};
ghost use Rattle.dvi_ops.specs.Instruction.{Across, Downward, By, PutChar, PutRule, SetChar, SetRule, Xxx};
ghost use Rattle.dvi_scan.specs.Execution.{KeepsSpace};
ghost use Rattle.dvi_scan.specs.Drawing.{constant_width, reached_position};
ghost use Rattle.dvi_scan.specs.Private.Drawing.{Draws, meaning_towards};
ghost use Rattle.dvi_scan.specs.View.{mark_of, spot_position, dvi_state};
ghost use Rattle.dvi_scan.specs.Private.View.{marks_in};

use crate::executing::{OpenPage, PassFault};
use crate::fault::DviCause;
use crate::page::{DviState, Mark, Position};

/// The height and the width of a rule.
#[derive(Clone, Copy, Debug, PartialEq)]
pub(crate) struct Size {
    pub height: i32,
    pub width: i32,
}

impl Position {
    /// The place moved to the right by an amount; None where h leaves signed 32 bits.
    pub fn right(self, by: i32) -> Option<Position>
        ensures { option_map spot_position result ≡ reached_position (place_after Across (By by) (spot_position self)) }
    {
        let h = self.h.checked_add(by)?;
        Some(Position { h, ..self })
    }

    /// The place moved down by an amount; None where v leaves signed 32 bits.
    pub(crate) fn down(self, by: i32) -> Option<Position>
        ensures { option_map spot_position result ≡ reached_position (place_after Downward (By by) (spot_position self)) }
    {
        let v = self.v.checked_add(by)?;
        Some(Position { v, ..self })
    }

    /// The place itself, which is always in range.
    pub(crate) fn here(self) -> Option<Position>
        ensures { option_map spot_position result ≡ reached_position (spot_position self) }
    {
        Some(self)
    }

    /// The mark of a rule at the place; None where it shows nothing.
    fn rule<'a>(self, size: Size) -> Option<Mark<'a>>
        ensures { marks_in result ≡ rule_at size.height size.width (spot_position self) }
    {
        if size.height <= 0 || size.width <= 0 {
            return None;
        }
        Some(Mark::Rule {
            h: self.h,
            v: self.v,
            height: size.height,
            width: size.width,
        })
    }

    /// A special at the place.
    fn special<'a>(self, text: &'a [u8]) -> Mark<'a>
        ensures { mark_of result ≡ Special self.h self.v text.now }
    {
        Mark::Special {
            h: self.h,
            v: self.v,
            text,
        }
    }
}

impl DviState {
    /// The state with this font selected.
    pub(crate) fn with_font(self, font: i32) -> DviState
        ensures { kept_in (state_without_mark (record { place = spot_position self.place; font = Some font }))
            ≡ state_without_mark (dvi_state result) }
    {
        DviState {
            font: Some(font),
            ..self
        }
    }
}

impl<'a> OpenPage<'a> {
    /// Makes a mark, if there is one, and moves to a place; the fault is Range where there is no place.
    #[inline(always)]
    fn mark_and_go(
        &mut self,
        mark: Option<Mark<'a>>,
        place: Option<Position>,
    ) -> Result<(), PassFault>
        ensures turns { (pages : List MarkedPage) (to : PositionView) → option_map spot_position place ≡ reached_position to
            → Draws (meaning_towards (marks_in mark.entry) to self.old) pages self.old self.new result }
        ensures space { (most : ℕ) → KeepsSpace most self.old self.new result }
    {
        let place = place.ok_or(DviCause::Range)?;
        if let Some(mark) = mark {
            self.marks.push(mark)?;
        }
        self.state.place = place;
        Ok(())
    }

    /// Moves to a place; the fault is Range where there is none.
    #[inline(always)]
    pub(crate) fn go(&mut self, place: Option<Position>) -> Result<(), PassFault>
        ensures turns { (pages : List MarkedPage) (to : PositionView) → option_map spot_position place ≡ reached_position to
            → Draws (meaning_towards [] to self.old) pages self.old self.new result }
        ensures space { (most : ℕ) → KeepsSpace most self.old self.new result }
    {
        self.mark_and_go(None, place)
    }

    /// A glyph of the current font at the place, and its width; None without a font or a width.
    fn glyph(&self, code: i32, width: Option<i32>) -> Option<(Mark<'a>, i32)>
        ensures { option_map (λ found. (mark_of found.0, found.1)) result
            ≡ seen_glyph (constant_width width) code (spot_position self.now.state.place) self.now.state.font }
    {
        let mark = Mark::Glyph {
            font: self.state.font?,
            code,
            h: self.state.place.h,
            v: self.state.place.v,
        };
        Some((mark, width?))
    }

    /// Sets a character: makes a mark, and moves right by its width.
    #[inline(always)]
    pub(crate) fn set_char(&mut self, code: i32, width: Option<i32>) -> Result<(), PassFault>
        ensures turns { (pages : List MarkedPage)
            → Draws (instruction_acts (constant_width width) (SetChar code) (dvi_state self.old.state)) pages self.old self.new result }
        ensures space { (most : ℕ) → KeepsSpace most self.old self.new result }
    {
        let (mark, width) = self.glyph(code, width).ok_or(DviCause::Glyph)?;
        let place = self.state.place;
        self.mark_and_go(Some(mark), place.right(width))
    }

    /// Puts a character: makes a mark, without moving.
    pub(crate) fn put_char(&mut self, code: i32, width: Option<i32>) -> Result<(), PassFault>
        ensures turns { (pages : List MarkedPage)
            → Draws (instruction_acts (constant_width width) (PutChar code) (dvi_state self.old.state)) pages self.old self.new result }
        ensures space { (most : ℕ) → KeepsSpace most self.old self.new result }
    {
        let (mark, _) = self.glyph(code, width).ok_or(DviCause::Glyph)?;
        let place = self.state.place;
        self.mark_and_go(Some(mark), place.here())
    }

    /// Sets a rule: makes a mark, if it shows something, and moves right by its width in any case.
    pub(crate) fn set_rule(&mut self, size: Size) -> Result<(), PassFault>
        ensures turns { (widths : Widths) (pages : List MarkedPage)
            → Draws (instruction_acts widths (SetRule size.height size.width) (dvi_state self.old.state)) pages self.old self.new result }
        ensures space { (most : ℕ) → KeepsSpace most self.old self.new result }
    {
        let place = self.state.place;
        self.mark_and_go(place.rule(size), place.right(size.width))
    }

    /// Puts a rule, without moving.
    pub(crate) fn put_rule(&mut self, size: Size) -> Result<(), PassFault>
        ensures turns { (widths : Widths) (pages : List MarkedPage)
            → Draws (instruction_acts widths (PutRule size.height size.width) (dvi_state self.old.state)) pages self.old self.new result }
        ensures space { (most : ℕ) → KeepsSpace most self.old self.new result }
    {
        let place = self.state.place;
        self.mark_and_go(place.rule(size), place.here())
    }

    /// Puts a special, which is a text at the place, without moving.
    pub(crate) fn put_special(&mut self, text: &'a [u8]) -> Result<(), PassFault>
        ensures turns { (widths : Widths) (pages : List MarkedPage)
            → Draws (instruction_acts widths (Xxx text.now) (dvi_state self.old.state)) pages self.old self.new result }
        ensures space { (most : ℕ) → KeepsSpace most self.old self.new result }
    {
        let place = self.state.place;
        self.mark_and_go(Some(place.special(text)), place.here())
    }
}
