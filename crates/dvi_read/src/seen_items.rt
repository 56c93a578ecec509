//! The pages of a checked file, seen one mark at a time (DVItype, 15).

ghost use Rattle.std.specs.Prelude.{◌≡◌, ◌≢◌, ◌≤◌, ◌<◌, ◌-◌, ◌^◌, ◌++◌, ◌∷◌, [], false, length, true, IfOk, IfSome, IsSome, List, None, Some, ℕ, ℤ};
ghost use Rattle.dvi_ops.specs.Body.{Acts, instruction_acts, bounded_acts, start};
ghost use Rattle.dvi_ops.specs.File.{MarkedPage};
ghost use Rattle.dvi_ops.specs.Fonts.{selection_of};
ghost use Rattle.dvi_ops.specs.Instruction.{Bop, Do, Eop, SetChar};
ghost use Rattle.dvi_ops.specs.View.{view};
ghost use Rattle.scaled_core.specs.Mark.{Mark as MarkSeen};
ghost use Rattle.dvi_scan.specs.Execution.{HasPageSpace};
ghost use Rattle.dvi_scan.specs.Pass.{Between, PassStateView, execute};
ghost use Rattle.dvi_scan.specs.View.{dvi_state, mark_of};
ghost use Rattle.dvi_scan.specs.Private.View.{marks_in};
ghost use Rattle.dvi_read.specs.PageMarks.{read_width, text_place};
ghost use Rattle.dvi_read.specs.ReadFonts.{HasCurrent, HaveByteCodes, with_current};
ghost use Rattle.dvi_read.specs.Private.ReadFonts.{Chooses};
ghost use Rattle.dvi_read.specs.Private.SeenTexts.{ShowsTextOf};
ghost use Rattle.dvi_read.specs.Seen.{SeenItemView, seen_of};
ghost use Rattle.dvi_read.specs.ItemsLeft.{AreTextsLeft, EndsText, HasCheckedPages, IsReady, IsSeenAfter, AreItemsLeft};
ghost use Rattle.dvi_read.specs.ItemsLeft.{PassesNextText, PassesText, ShowsFirst, ShowsNext, pass_with, text_seen};
ghost use Rattle.dvi_read.specs.Steps.{FontsAreRead};

pub(crate) mod one_page;

use crate::check::checked_file::CheckedFile;
use crate::fonts::{CharCode, ReadFonts, width_asked};
use dvi_ops::{BodyOp, Op};
use dvi_scan::{DviState, FontNumber, Mark, OpenPage, Position, read_at};
use scaled_core::COUNTS;
use smallvec::SmallVec;
use std::alloc::{AllocError, Global};

/// What is seen of a page: its counts, and then each of its marks.
#[derive(Clone, Copy, Debug, PartialEq)]
pub enum SeenItem<'a> {
    /// A page begins, with these counts.
    Page([i32; COUNTS]),
    /// A mark of the page whose counts came last.
    Mark(Mark<'a>),
}

/// What is still to be seen of the pages of a checked file. The file is walked once more, and each mark is handed out where it is met.
#[derive(Drop)]
pub struct SeenItems<'d, 'a> {
    pub(crate) file: &'d CheckedFile<'a>,
    /// The place of the next instruction.
    pub(crate) at: usize,
    /// Whether the place is inside a page.
    pub(crate) inside: bool,
    /// The place among the fonts of the file of the one that was selected last.
    pub(crate) current: usize,
    /// The page, with space for one mark and for the places that pushes save.
    pub(crate) page: OpenPage<'a>,
}

/// A page without marks, with space for one mark and for the places that pushes save.
pub(crate) fn page_space<'a>(alloc: Global, most: usize) -> Result<OpenPage<'a>, AllocError>
    ensures none { IfOk result (λ page. page.marks.items ≡ []) }
    ensures space { IfOk result (HasPageSpace most) }
    ensures font { IfOk result (λ page. page.state.font ≡ None) }
    ensures places { IfOk result (λ page. page.stack.items ≡ []) }
    ensures state { IfOk result (λ page. dvi_state page.state ≡ start) }
{
    let marks = Vec::with_capacity(alloc, 1)?;
    let stack = SmallVec::with_capacity(alloc, most)?;
    Ok(OpenPage {
        counts: [0; COUNTS],
        marks,
        stack,
        state: DviState {
            place: Position::START,
            font: None,
        },
    })
}

/// Begins a page, if the instruction is a bop. Returns whether it is.
fn begin(op: &Op<'_>, page: &mut OpenPage<'_>) -> bool
    ensures yes { result ≡ true → (does : Acts) (most : ℕ) (pages : List MarkedPage)
        → execute does most (view op.now) (Between pages) ≡ Some (pass_with true pages [] page.new) }
    ensures no { result ≡ false → (counts : List ℤ) (pointer : ℤ) → view op.now ≢ Bop counts pointer }
    ensures same { result ≡ false → page.new ≡ page.old }
    ensures none { page.new.marks ≡ page.old.marks }
    ensures places { page.new.stack.capacity ≡ page.old.stack.capacity }
    ensures font { result ≡ true → page.new.state.font ≡ None }
{
    let Op::Bop { counts, .. } = *op else {
        return false;
    };
    page.counts = counts;
    page.stack.clear();
    page.state = DviState {
        place: Position::START,
        font: None,
    };
    true
}

/// Selects the font of an instruction, if it selects one. The font was read before.
fn choose_font(op: &Op<'_>, fonts: &ReadFonts, current: &mut usize)
    requires { FontsAreRead fonts.now (selection_of (view op.now)) }
    ensures { Chooses (view op.now) (with_current fonts.now current.old) (with_current fonts.now current.new) }
{
    let Op::Body(body) = *op else {
        return;
    };
    if let BodyOp::FontNum(value) = body {
        if let Some(index) = fonts.index_of(FontNumber { value }) {
            *current = index;
        }
    }
}

/// The character that an instruction sets, if it sets one.
fn character_set(op: &Op<'_>) -> Option<i32>
    ensures { IfSome result (λ code. view op.now ≡ Do (SetChar code)) }
{
    match *op {
        Op::Body(BodyOp::SetChar(code)) => Some(code),
        _ => None,
    }
}

/// Sets a character of an open page, and returns its mark, which needs no space in the page.
#[inline(always)]
fn set_character<'a>(
    code: i32,
    fonts: &ReadFonts,
    current: usize,
    page: &mut OpenPage<'a>,
) -> Mark<'a>
    requires codes { HaveByteCodes fonts.now }
    requires current { (f : ℤ) → page.old.state.font ≡ Some f → HasCurrent f (with_current fonts.now current) }
    requires goes_on { (most : ℕ) × (pages : List MarkedPage) × (marks : List MarkSeen) × (after : PassStateView)
        × (execute (bounded_acts (instruction_acts (read_width fonts.now))) most (Do (SetChar code)) (pass_with true pages marks page.old)
        ≡ Some after) }
    ensures draws { (most : ℕ) (pages : List MarkedPage) (marks : List MarkSeen) (after : PassStateView)
        → execute (bounded_acts (instruction_acts (read_width fonts.now))) most (Do (SetChar code)) (pass_with true pages marks page.old) ≡ Some after
        → after ≡ pass_with true pages (marks ++ mark_of result ∷ []) page.new }
    ensures counts { page.new.counts ≡ page.old.counts }
    ensures marks { page.new.marks ≡ page.old.marks }
    ensures stack { page.new.stack ≡ page.old.stack }
    ensures font { page.new.state.font ≡ page.old.state.font }
{
    let Some(font) = page.state.font else {
        unreachable!()
    };
    let Some(width) = fonts.width_at(current, CharCode { value: code }) else {
        unreachable!()
    };
    let place = page.state.place;
    let Some(next) = place.right(width) else {
        unreachable!()
    };
    page.state.place = next;
    Mark::Glyph {
        font,
        code,
        h: place.h,
        v: place.v,
    }
}

/// Takes an instruction of an open page that does not end it, and returns the mark that it makes.
#[inline(always)]
pub(crate) fn draw<'a>(
    most: usize,
    op: &Op<'a>,
    fonts: &ReadFonts,
    current: &mut usize,
    page: &mut OpenPage<'a>,
) -> Option<Mark<'a>>
    requires ready { IsReady most (with_current fonts.now current.old) page.old }
    requires codes { HaveByteCodes fonts.now }
    requires read { FontsAreRead fonts.now (selection_of (view op.now)) }
    requires stays { view op.now ≢ Eop }
    requires goes_on { (pages : List MarkedPage) × (marks : List MarkSeen) × (after : PassStateView)
        × (execute (bounded_acts (instruction_acts (read_width fonts.now))) most (view op.now) (pass_with true pages marks page.old) ≡ Some after) }
    ensures draws { (pages : List MarkedPage) (marks : List MarkSeen) (after : PassStateView)
        → execute (bounded_acts (instruction_acts (read_width fonts.now))) most (view op.now) (pass_with true pages marks page.old) ≡ Some after
        → after ≡ pass_with true pages (marks ++ marks_in result) page.new }
    ensures counts { page.new.counts ≡ page.old.counts }
    ensures ready { IsReady most (with_current fonts.now current.new) page.new }
{
    if let Some(code) = character_set(op) {
        return Some(set_character(code, fonts, *current, page));
    }
    let width = width_asked(fonts, *current, op);
    let Ok(()) = page.take(most, op, width) else {
        unreachable!()
    };
    choose_font(op, fonts, current);
    page.marks.pop()
}

impl<'d, 'a> SeenItems<'d, 'a> {
    /// Takes an instruction, and returns what is seen of it.
    fn take(&mut self, op: &Op<'a>) -> Option<SeenItem<'a>>
        requires { (seen : List SeenItemView) × IsSeenAfter (view op.now ∷ []) self.old seen }
        ensures next { (seen : List SeenItemView) → IsSeenAfter (view op.now ∷ []) self.old seen → ShowsFirst seen self.new result }
        ensures text { ShowsTextOf (view op.now) result }
        ensures begins { (end : ℕ) → text_seen end result ≡ text_place end (view op.now) }
        ensures place { self.new.at ≡ self.old.at }
        ensures same { self.new.file ≡ self.old.file }
    {
        if !self.inside {
            if !begin(op, &mut self.page) {
                return None;
            }
            self.inside = true;
            return Some(SeenItem::Page(self.page.counts));
        }
        if let Op::Eop = *op {
            self.inside = false;
            return None;
        }
        let drawn = draw(
            self.file.most,
            op,
            &self.file.fonts,
            &mut self.current,
            &mut self.page,
        );
        match drawn {
            Some(mark) => Some(SeenItem::Mark(mark)),
            None => None,
        }
    }

    /// Takes the next instruction, and returns what is seen of it.
    fn step(&mut self) -> Option<SeenItem<'a>>
        requires remaining { (seen : List SeenItemView) × AreItemsLeft self.old seen }
        requires more { self.old.at < self.old.file.now.post }
        ensures next { (seen : List SeenItemView) → AreItemsLeft self.old seen → ShowsFirst seen self.new result }
        ensures text { EndsText self.old.file.now.bytes.now self.new.at result }
        ensures texts { (places : List ℕ) → AreTextsLeft self.old places → PassesText places self.new result }
        ensures forward { self.old.at < self.new.at }
        ensures fits { self.new.at < 2 ^ 64 }
        ensures same { self.new.file ≡ self.old.file }
    {
        let Ok((op, next)) = read_at(self.file.bytes, self.at, self.file.post) else {
            unreachable!()
        };
        self.at = next;
        self.take(&op)
    }

    /// What is seen next; None after all marks of all pages. It takes no memory.
    pub fn next_item(&mut self) -> Option<SeenItem<'a>>
        requires { (seen : List SeenItemView) × AreItemsLeft self.old seen }
        // It is the first of what is still to be seen; or nothing is.
        ensures next { (seen : List SeenItemView) → AreItemsLeft self.old seen → ShowsNext seen self.new result }
        // The text of a special ends in the file where the walk has come to.
        ensures text { EndsText self.old.file.now.bytes.now self.new.at result }
        // It is that of the next special among the instructions.
        ensures texts { (places : List ℕ) → AreTextsLeft self.old places → PassesNextText places self.new result }
        ensures forward { IsSome result → self.old.at < self.new.at }
        ensures stays { self.old.at ≤ self.new.at }
        ensures fits { self.new.at < 2 ^ 64 }
        ensures same { self.new.file ≡ self.old.file }
    {
        // A fact for the proofs: the bound of the place where the walk begins.
        let _at = self.at;
        while self.at < self.file.post {
            if let Some(item) = self.step() {
                return Some(item);
            }
        }
        None
    }

    /// Where the text of the special that was seen last begins in the file.
    pub fn text_start(&self, text: &[u8]) -> usize
        ensures { result ≡ self.now.at - length text.now }
    {
        self.at.saturating_sub(text.len())
    }

    /// The width of a character in the font of a number; None where no page selects that font, or it has no such character. It takes no memory.
    pub fn width(&self, number: FontNumber, code: CharCode) -> Option<i32>
        requires { (seen : List SeenItemView) × AreItemsLeft self.now seen }
        ensures { result ≡ read_width self.now.file.now.fonts number.value code.value }
    {
        self.file.fonts.width_by(number, code)
    }

    /// Begins again before the first page: all that was seen will be seen once more. It takes no memory.
    pub fn rewind(&mut self)
        requires { (seen : List SeenItemView) × AreItemsLeft self.old seen }
        ensures remaining { (pages : List MarkedPage) → HasCheckedPages self.old.file.now pages → AreItemsLeft self.new (seen_of pages) }
        ensures place { self.new.at ≡ self.new.file.now.from }
        ensures same { self.new.file ≡ self.old.file }
    {
        self.at = self.file.from;
        self.inside = false;
    }
}
