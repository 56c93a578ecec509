//! One instruction of the pages, with the fonts of the file (DVItype, 15 and 18).

ghost use Rattle.std.specs.Prelude.{◌≡◌, false, min, reverse, true, IfErr, None, OnOk, Some};
ghost use Rattle.std.specs.List.{AllByRecursion};
ghost use Rattle.dvi_ops.specs.File.{max_pushes};
ghost use Rattle.dvi_ops.specs.Fonts.{IsFontSize};
ghost use Rattle.dvi_ops.specs.View.{view};
ghost use Rattle.dvi_scan.specs.Reached.{after_bop};
ghost use Rattle.dvi_read.specs.ReadFonts.{AreSound, HaveByteCodes, IsCurrent};
ghost use Rattle.dvi_read.specs.Steps.{IsWalkStep, IsStepFault, known_of};
ghost use Rattle.dvi_read.specs.Private.Steps.{BreaksNote, BreaksPass, Notes, PassesOn};
ghost use Rattle.tfm_core.specs.FileWidths.{file_widths};

use crate::check::walk::{Source, Walk};
use crate::fault::StepFault;
use crate::fonts::{select, width_asked};
use dvi_ops::dvi_file_laws::MAX_PUSHES;
use dvi_ops::{BodyOp, Op};
use dvi_scan::{DviCause, FileEnd, FontNumber, PassFault, define, execute};
use std::alloc::Global;

/// Removes the place of a bop from the places that are still to come, and returns whether it was among them. Earlier places are missed. The places
/// have the last one first. A bop that is not in the chain is refused at its own place; a missed place is refused only at post, since no bop is at it
/// (it may be inside a special).
fn take_place(left: &mut &[usize], missed: &mut bool, at: usize) -> bool
    ensures yes { result ≡ true
        → after_bop at missed.old (reverse left.old.now) ≡ Some (record { missed = missed.new; places = reverse left.new.now }) }
    ensures no { result ≡ false → after_bop at missed.old (reverse left.old.now) ≡ None }
{
    while let Some((place, rest)) = left.split_last() {
        *left = rest;
        if *place == at {
            return true;
        }
        *missed = true;
    }
    false
}

/// Checks and records the effect of an instruction on pages and fonts: a bop is in the chain, a definition is right, a selected font has widths.
fn check_effect<'a>(
    alloc: Global,
    source: &Source<'_, 'a>,
    walk: &mut Walk<'_, 'a>,
    at: usize,
    op: &Op<'a>,
) -> Result<(), StepFault<'a>>
    requires sizes { AllByRecursion (λ d. IsFontSize d.size) (known_of walk.old) }
    requires sound { AreSound (file_widths source.now.files.now) (known_of walk.old) walk.old.fonts }
    ensures ok { OnOk result (Notes (file_widths source.now.files.now) source.now.after_post.now.keys at (view op.now) walk.old walk.new) }
    ensures bad { IfErr result (BreaksNote source.now.files.now source.now.after_post.now.keys at (view op.now) walk.old) }
{
    match *op {
        Op::Bop { .. } => {
            if take_place(&mut walk.left, &mut walk.missed, at) {
                Ok(())
            } else {
                Err(StepFault::Pass(PassFault::Broken(DviCause::Pointer)))
            }
        }
        Op::FontDef(font) => {
            define(&mut walk.known, &font)?;
            Ok(())
        }
        Op::Body(BodyOp::FontNum(value)) => {
            let number = FontNumber { value };
            select(alloc, source, &walk.known, &mut walk.fonts, number)
        }
        _ => Ok(()),
    }
}

/// Processes an instruction in the pass.
fn execute_in_walk<'a>(
    alloc: Global,
    most: usize,
    op: &Op<'a>,
    walk: &mut Walk<'_, 'a>,
) -> Result<(), PassFault>
    requires { HaveByteCodes walk.old.fonts }
    ensures ok { OnOk result (PassesOn most (view op.now) walk.old walk.new) }
    ensures bad { IfErr result (BreaksPass most (view op.now) walk.old) }
{
    let current = walk.fonts.current;
    let width = width_asked(&walk.fonts, current, op);
    execute(alloc, &mut walk.pass_state, &mut walk.done, most, op, width)
}

/// The greatest number of pushes that may be open at once: the depth in post, but at most `MAX_PUSHES`.
pub(crate) fn most_pushes(ending: &FileEnd) -> usize
    ensures { result ≡ min max_pushes ending.now.postamble.stack_depth }
{
    MAX_PUSHES.min(usize::from(ending.postamble.stack_depth))
}

/// Processes an instruction of the pages at a place (DVItype, 15 and 18). It takes memory for marks, pages, places, definitions and fonts. The fault
/// is the one of the pass, if there is one, and otherwise Pointer for a bop outside of the chain, Font for a wrong definition or selection, or the
/// refusal of a font. A walk is of no use after a fault.
pub fn step<'a>(
    alloc: Global,
    source: &Source<'_, 'a>,
    at: usize,
    op: &Op<'a>,
    walk: &mut Walk<'_, 'a>,
) -> Result<(), StepFault<'a>>
    requires sizes { AllByRecursion (λ d. IsFontSize d.size) (known_of walk.old) }
    requires sound { AreSound (file_widths source.now.files.now) (known_of walk.old) walk.old.fonts }
    requires current { IsCurrent walk.old.fonts walk.old.pass_state }
    ensures ok { OnOk result (IsWalkStep (file_widths source.now.files.now) source.now.after_post.now.keys
        (min max_pushes source.now.ending.now.postamble.stack_depth) at (view op.now) walk.old walk.new) }
    // The rule that a fault names is broken.
    ensures bad { IfErr result
        (IsStepFault source.now.files.now source.now.after_post.now.keys (min max_pushes source.now.ending.now.postamble.stack_depth) at
        (view op.now) walk.old) }
{
    execute_in_walk(alloc, most_pushes(source.ending), op, walk)?;
    check_effect(alloc, source, walk, at, op)
}
