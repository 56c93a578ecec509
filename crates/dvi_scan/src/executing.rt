//! One instruction, in the state of the pass (DVItype, 15).

ghost use Rattle.std.specs.Prelude.{◌≡◌, ◌≢◌, List, OnErr, map, ℕ};
ghost use Rattle.dvi_ops.specs.Body.{Acts, instruction_acts};
ghost use Rattle.dvi_ops.specs.File.{MarkedPage};
ghost use Rattle.dvi_ops.specs.Instruction.{Eop, Pop, Push};
ghost use Rattle.dvi_ops.specs.View.{view};
ghost use Rattle.dvi_scan.specs.Drawing.{constant_width};
ghost use Rattle.dvi_scan.specs.Pass.{Between};
ghost use Rattle.dvi_scan.specs.Execution.{Executes, KeepsSpace, TurnsPage, fault_at, inside_of, pass_at};
ghost use Rattle.dvi_scan.specs.View.{marked_page};
ghost use Rattle.dvi_scan.specs.declared.executing.PassFault.TheVariants.{OutOfMemory, Broken};

use crate::drawing::Size;
use crate::fault::{BadDvi, DviCause, FrameFault};
use crate::page::{DviState, Mark, Page, Position};
use dvi_ops::{BodyOp, Op};
use scaled_core::COUNTS;
use smallvec::SmallVec;
use std::alloc::{AllocError, AllocFailed, Global};
use std::mem;
use thiserror::Error;

/// A page before its eop: its counts and its marks so far, the saved places with the last one at the end, and the state.
#[derive(Drop)]
pub struct OpenPage<'a> {
    pub counts: [i32; COUNTS],
    pub marks: Vec<Mark<'a>>,
    pub stack: SmallVec<Position, 2>,
    pub state: DviState,
}

/// The state of the pass: between pages, or inside a page.
#[derive(Drop)]
pub enum PassState<'a> {
    Between,
    Inside(OpenPage<'a>),
}

/// Why the pass over a page does not accept an instruction, or a font definition is not kept.
#[derive(Clone, Copy, Debug, PartialEq, Eq, Error)]
pub enum PassFault {
    /// A growth of memory was refused.
    #[error("out of memory")]
    OutOfMemory,
    /// The instruction breaks this rule.
    #[error("{0}")]
    Broken(DviCause),
}

impl From<AllocError> for PassFault {
    ghost from_gives = { λ _ fault. fault ≡ OutOfMemory };

    fn from(_error: AllocError) -> PassFault {
        PassFault::OutOfMemory
    }
}

impl<T: Drop> From<AllocFailed<T>> for PassFault {
    ghost from_gives = { λ _ fault. fault ≡ OutOfMemory };

    fn from(_error: AllocFailed<T>) -> PassFault {
        PassFault::OutOfMemory
    }
}

impl From<DviCause> for PassFault {
    ghost from_gives = { λ cause fault. fault ≡ Broken cause };

    fn from(cause: DviCause) -> PassFault {
        PassFault::Broken(cause)
    }
}

impl PassFault {
    /// The fault of the instruction at a place.
    pub fn at(self, place: usize) -> FrameFault
        ensures { result ≡ fault_at place self }
    {
        match self {
            PassFault::OutOfMemory => FrameFault::OutOfMemory,
            PassFault::Broken(cause) => FrameFault::Bad(BadDvi { place, cause }),
        }
    }
}

impl<'a> OpenPage<'a> {
    /// Saves the place, if fewer than `most` pushes are open.
    fn push(&mut self, most: usize) -> Result<(), PassFault>
        ensures turns { (does : Acts) (pages : List MarkedPage) → TurnsPage does most Push pages self.old self.new result }
        ensures space { KeepsSpace most self.old self.new result }
    {
        if most <= self.stack.len() {
            return Err(PassFault::Broken(DviCause::Stack));
        }
        let place = self.state.place;
        self.stack.push(place)?;
        Ok(())
    }

    /// Restores the place that was saved last. The font stays.
    fn pop(&mut self) -> Result<(), PassFault>
        ensures turns { (does : Acts) (most : ℕ) (pages : List MarkedPage) → TurnsPage does most Pop pages self.old self.new result }
        ensures space { (most : ℕ) → KeepsSpace most self.old self.new result }
    {
        let place = self.stack.pop().ok_or(DviCause::Stack)?;
        self.state = DviState {
            place,
            ..self.state
        };
        Ok(())
    }

    /// Processes an instruction that does not end the page. `width` is as for `execute`. It takes memory for a mark or a saved place alone, and none
    /// where the page has space for it.
    #[inline(always)]
    pub fn take(&mut self, most: usize, op: &Op<'a>, width: Option<i32>) -> Result<(), PassFault>
        requires { view op.now ≢ Eop }
        ensures turns { (pages : List MarkedPage)
            → TurnsPage (instruction_acts (constant_width width)) most (view op.now) pages self.old self.new result }
        // Memory is not refused where the page has space, and the space does not shrink.
        ensures space { KeepsSpace most self.old self.new result }
    {
        let place = self.state.place;
        match *op {
            Op::Body(body) => match body {
                BodyOp::SetChar(code) => self.set_char(code, width),
                BodyOp::PutChar(code) => self.put_char(code, width),
                BodyOp::SetRule { height, width } => self.set_rule(Size { height, width }),
                BodyOp::PutRule { height, width } => self.put_rule(Size { height, width }),
                BodyOp::Push => self.push(most),
                BodyOp::Pop => self.pop(),
                BodyOp::Right(by) => self.go(place.right(by)),
                BodyOp::W0 => self.go(place.right(place.w)),
                BodyOp::W(w) => self.go(Position { w, ..place }.right(w)),
                BodyOp::X0 => self.go(place.right(place.x)),
                BodyOp::X(x) => self.go(Position { x, ..place }.right(x)),
                BodyOp::Down(by) => self.go(place.down(by)),
                BodyOp::Y0 => self.go(place.down(place.y)),
                BodyOp::Y(y) => self.go(Position { y, ..place }.down(y)),
                BodyOp::Z0 => self.go(place.down(place.z)),
                BodyOp::Z(z) => self.go(Position { z, ..place }.down(z)),
                BodyOp::FontNum(font) => {
                    self.state = self.state.with_font(font);
                    Ok(())
                }
                BodyOp::Nop => self.go(place.here()),
                BodyOp::Xxx(text) => self.put_special(text),
            },
            Op::FontDef(_) => self.go(place.here()),
            Op::Bop { .. } | Op::Eop | Op::Pre { .. } | Op::Post(_) | Op::PostPost { .. } => {
                Err(PassFault::Broken(DviCause::Opcode))
            }
        }
    }

    /// Ends the page, and adds it to the other pages.
    fn end(&mut self, alloc: Global, done: &mut Vec<Page<'a>>) -> Result<(), PassFault>
        ensures turns { (does : Acts) (most : ℕ)
            → Executes does most Eop (inside_of (map marked_page done.old.items) self.old) (Between (map marked_page done.new.items)) result }
        ensures err { OnErr result ((self.new ≡ self.old) × (done.new.items ≡ done.old.items)) }
    {
        if !self.stack.is_empty() {
            return Err(PassFault::Broken(DviCause::Stack));
        }
        done.reserve(1)?;
        let page = Page {
            counts: self.counts,
            marks: mem::replace(&mut self.marks, Vec::new(alloc)),
        };
        done.push(page).unwrap();
        Ok(())
    }
}

/// Processes an instruction between two pages.
fn begin<'a>(alloc: Global, pass_state: &mut PassState<'a>, op: &Op<'a>) -> Result<(), PassFault>
    requires { pass_state.old ≡ PassState.Between }
    ensures turns { (does : Acts) (most : ℕ) (pages : List MarkedPage)
        → Executes does most (view op.now) (Between pages) (pass_at pages pass_state.new) result }
    ensures err { OnErr result (pass_state.new ≡ pass_state.old) }
{
    match *op {
        Op::Body(BodyOp::Nop) | Op::FontDef(_) => Ok(()),
        Op::Bop { counts, .. } => {
            *pass_state = PassState::Inside(OpenPage {
                counts,
                marks: Vec::new(alloc),
                stack: SmallVec::new(alloc),
                state: DviState {
                    place: Position::START,
                    font: None,
                },
            });
            Ok(())
        }
        _ => Err(PassFault::Broken(DviCause::Opcode)),
    }
}

/// Processes an instruction in the state of the pass, where at most `most` pushes may be open, and adds a page that ends to `done` (DVItype, 15).
/// `width` is the width of the character that the instruction sets or puts, in the current font; None where the font has no such character. The
/// pointer of a bop is not tested here: `dvi_read` compares the place of each bop with the chain. It takes memory for marks, pages and saved places.
///
/// The fault is Opcode for an instruction that is not allowed in this state; Stack where pushes and pops do not match or too many are open; Glyph for
/// a missing character or font; Range where h or v leaves signed 32 bits; or OutOfMemory. A fault changes nothing.
pub fn execute<'a>(
    alloc: Global,
    pass_state: &mut PassState<'a>,
    done: &mut Vec<Page<'a>>,
    most: usize,
    op: &Op<'a>,
    width: Option<i32>,
) -> Result<(), PassFault>
    // The pass goes on as it is defined, or the rule that a fault names is broken.
    ensures turns { Executes (instruction_acts (constant_width width)) most (view op.now) (pass_at (map marked_page done.old.items) pass_state.old)
        (pass_at (map marked_page done.new.items) pass_state.new) result }
    // A fault changes nothing: the state of the pass and the pages are as before.
    ensures err { OnErr result
        ((done.new.items ≡ done.old.items) × ((pages : List MarkedPage) → pass_at pages pass_state.new ≡ pass_at pages pass_state.old)) }
{
    match pass_state {
        PassState::Between => begin(alloc, pass_state, op),
        PassState::Inside(page) => match *op {
            Op::Eop => {
                page.end(alloc, done)?;
                *pass_state = PassState::Between;
                Ok(())
            }
            _ => page.take(most, op, width),
        },
    }
}
