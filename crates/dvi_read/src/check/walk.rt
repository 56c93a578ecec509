//! The walk over the pages of a file, from the preamble to post (DVItype, 15 and 18), and its state.

ghost use Rattle.std.specs.Prelude.{◌≡◌, ◌+◌, ◌≤◌, ◌<◌, false, length, map, min, pos, true, IfErr, IfOk, List, OnOk};
ghost use Rattle.std.specs.Prelude.{Some, ℕ, ℤ};
ghost use Rattle.std.specs.List.{AllByRecursion};
ghost use Rattle.dvi_ops.specs.Body.{place_after};
ghost use Rattle.dvi_ops.specs.File.{max_pushes};
ghost use Rattle.dvi_ops.specs.Fonts.{IsFontSize, WidthsByName};
ghost use Rattle.dvi_ops.specs.Instruction.{Across, By, Postamble};
ghost use Rattle.dvi_ops.specs.View.{view_postamble};
ghost use Rattle.dvi_scan.specs.Reached.{IsReached, before_pages};
ghost use Rattle.dvi_scan.specs.Drawing.{reached_position};
ghost use Rattle.dvi_scan.specs.View.{marked_page, spot_position};
ghost use Rattle.dvi_read.specs.ReadFonts.{AreSound, HaveByteCodes, IsCurrent, asked_width, selected_in};
ghost use Rattle.dvi_read.specs.Steps.{known_of, places_left, pass_state_of};
ghost use Rattle.dvi_read.specs.WalkFaults.{page_bytes, PagesHaveEnded, IsUnended, IsWalkFault};
ghost use Rattle.dvi_read.specs.Walks.{IsWalked, bare};
ghost use Rattle.dvi_read.specs.Private.Walks.{IsBegun, Reads, IsReadingFault};
ghost use Rattle.tfm_core.specs.FileWidths.{file_widths};

use crate::check::instruction::step;
use crate::fault::{DviFault, StepFault};
use crate::fonts::{CharCode, ReadFonts};
use dvi_scan::{
    BadDvi, DviCause, FileEnd, KnownFonts, NumbersAfterPost, OpenPage, Page, PassState, read_at,
};
use std::alloc::Global;
use tfm_core::FontFile;

/// The input of a walk.
#[derive(Clone, Copy)]
pub struct Source<'s, 'a> {
    /// The bytes of the file.
    pub bytes: &'a [u8],
    /// The metric files.
    pub files: &'s [FontFile],
    /// The numbers of fonts that are defined after post.
    pub after_post: &'s NumbersAfterPost,
    /// The places of the parts of the file, and the operands of post.
    pub ending: &'s FileEnd,
}

/// The state of a walk over the pages of a file: the state of the pass; the pages that have ended and were not dropped yet; the known definitions;
/// the fonts that were read; the places of the chain that are still to come, the last one first; and whether one before them was missed, because no
/// bop was there.
#[derive(Drop)]
pub struct Walk<'c, 'a> {
    pub pass_state: PassState<'a>,
    pub done: Vec<Page<'a>>,
    pub known: KnownFonts<'a>,
    pub fonts: ReadFonts,
    pub left: &'c [usize],
    pub missed: bool,
}

/// Reads the instruction at a place before post, processes it, and returns the place after it.
fn read_step<'a>(
    alloc: Global,
    source: &Source<'_, 'a>,
    at: usize,
    walk: &mut Walk<'_, 'a>,
) -> Result<usize, StepFault<'a>>
    requires low { at < source.now.ending.now.post }
    requires high { source.now.ending.now.post ≤ length source.now.bytes.now }
    requires sizes { AllByRecursion (λ d. IsFontSize d.size) (known_of walk.old) }
    requires sound { AreSound (file_widths source.now.files.now) (known_of walk.old) walk.old.fonts }
    requires current { IsCurrent walk.old.fonts walk.old.pass_state }
    ensures ok { IfOk result (Reads (file_widths source.now.files.now)
        (page_bytes source.now.after_post.now.keys source.now.bytes.now (min max_pushes (view_postamble source.now.ending.now.postamble).stack_depth)
        source.now.ending.now.post)
        at walk.old walk.new) }
    ensures bad { IfErr result (IsReadingFault source.now.files.now
        (page_bytes source.now.after_post.now.keys source.now.bytes.now (min max_pushes (view_postamble source.now.ending.now.postamble).stack_depth)
        source.now.ending.now.post)
        at walk.old) }
{
    let (op, next) = read_at(source.bytes, at, source.ending.post)?;
    step(alloc, source, at, &op, walk)?;
    Ok(next)
}

/// A walk before the first page.
fn walk_start<'c, 'a>(alloc: Global, left: &'c [usize]) -> Walk<'c, 'a>
    ensures { IsBegun left.now result }
{
    Walk {
        pass_state: PassState::Between,
        done: Vec::new(alloc),
        known: KnownFonts::new(alloc),
        fonts: ReadFonts::new(alloc),
        left,
        missed: false,
    }
}

/// Drops the pages that have ended and the marks so far.
fn release(walk: &mut Walk<'_, '_>)
    ensures pass_state { pass_state_of walk.new ≡ bare (pass_state_of walk.old) }
    ensures selected { selected_in walk.new.pass_state ≡ selected_in walk.old.pass_state }
    ensures fonts { walk.new.fonts ≡ walk.old.fonts }
    ensures known { known_of walk.new ≡ known_of walk.old }
    ensures left { places_left walk.new ≡ places_left walk.old }
{
    walk.done.clear();
    if let PassState::Inside(page) = &mut walk.pass_state {
        page.marks.clear();
    }
}

/// Moves an open page over a character of one byte, where its font has a width for it and the place stays in range. Its mark is not kept. Returns
/// whether it did.
fn pass_in_page(fonts: &ReadFonts, byte: u8, page: &mut OpenPage<'_>) -> bool
    requires { HaveByteCodes fonts.now }
    ensures passed { result ≡ true → (f : ℤ) × (width : ℤ) × (page.old.state.font ≡ Some f) × (asked_width fonts.now (Some (pos byte)) ≡ Some width)
        × (Some (spot_position page.new.state.place) ≡ reached_position (place_after Across (By width) (spot_position page.old.state.place))) }
    ensures rest { page.new ≡ record page.old { state = record page.old.state { place = page.new.state.place } } }
    ensures same { result ≡ false → page.new ≡ page.old }
{
    if page.state.font.is_none() {
        return false;
    }
    let code = CharCode {
        value: i32::from(byte),
    };
    let Some(width) = fonts.width_at(fonts.current, code) else {
        return false;
    };
    let Some(place) = page.state.place.right(width) else {
        return false;
    };
    page.state.place = place;
    true
}

/// Passes over a character of one byte in an open page. Returns whether it did.
fn pass_character(source: &Source<'_, '_>, at: usize, walk: &mut Walk<'_, '_>) -> bool
    requires low { at < source.now.ending.now.post }
    requires high { source.now.ending.now.post ≤ length source.now.bytes.now }
    requires codes { HaveByteCodes walk.old.fonts }
    ensures passed { result ≡ true → (metrics : WidthsByName) (after_post : List ℤ) (postamble : Postamble) (chain : List ℕ)
        → IsWalked metrics after_post source.now.bytes.now postamble chain at walk.old
        → IsWalked metrics after_post source.now.bytes.now postamble chain (at + 1) walk.new }
    ensures same { result ≡ false → walk.new ≡ walk.old }
{
    let byte = source.bytes[at];
    if byte >= 128 {
        return false;
    }
    match &mut walk.pass_state {
        PassState::Inside(page) => pass_in_page(&walk.fonts, byte, page),
        PassState::Between => false,
    }
}

/// Walks over the pages of a file, from the place after the preamble up to post, and drops their marks as they come. `left` has the places of the
/// pages, the last one first (DVItype, 15 and 18). The width of a character is that of the first definition of its font. It takes memory for a page,
/// its marks and places, for definitions and fonts.
///
/// The fault is Bad with the first broken rule and its place; Font with the refusal of a selected font without widths; or OutOfMemory.
pub fn walk_pages<'c, 'a>(
    alloc: Global,
    source: &Source<'_, 'a>,
    from: usize,
    left: &'c [usize],
) -> Result<Walk<'c, 'a>, DviFault<'a>>
    requires low { from ≤ source.now.ending.now.post }
    requires high { source.now.ending.now.post ≤ length source.now.bytes.now }
    requires reached { IsReached (file_widths source.now.files.now) source.now.after_post.now.keys source.now.bytes.now
        (view_postamble source.now.ending.now.postamble) left.now from (before_pages left.now) }
    // All instructions before post are right, and the walk has their fonts.
    ensures ok { IfOk result (IsWalked (file_widths source.now.files.now) source.now.after_post.now.keys source.now.bytes.now
        (view_postamble source.now.ending.now.postamble) left.now source.now.ending.now.post) }
    // All instructions before the place of a fault are right, and the rule that it names is broken there.
    ensures bad { IfErr result
        (IsWalkFault source.now.files.now source.now.after_post.now.keys source.now.bytes.now (view_postamble source.now.ending.now.postamble)
        left.now source.now.ending.now.post) }
{
    let mut walk = walk_start(alloc, left);
    let mut at = from;
    while at < source.ending.post {
        if pass_character(source, at, &mut walk) {
            at += 1;
        } else {
            at = match read_step(alloc, source, at, &mut walk) {
                Ok(next) => next,
                Err(fault) => return Err(fault.at(at)),
            };
            release(&mut walk);
        }
    }
    Ok(walk)
}

/// Tests that no page is open at the place of post, where the fault is Opcode, and that a bop was at each place of the chain, where the fault is
/// Pointer. Both faults are at the place of post.
pub fn pages_end(walk: &Walk<'_, '_>, post: usize) -> Result<(), BadDvi>
    ensures ok { OnOk result (PagesHaveEnded (pass_state_of walk.now) (places_left walk.now) (map marked_page walk.now.done.items)) }
    ensures bad { IfErr result (IsUnended (pass_state_of walk.now) (places_left walk.now) post) }
{
    if let PassState::Inside(_) = walk.pass_state {
        return Err(BadDvi {
            place: post,
            cause: DviCause::Opcode,
        });
    }
    if walk.missed || !walk.left.is_empty() {
        return Err(BadDvi {
            place: post,
            cause: DviCause::Pointer,
        });
    }
    Ok(())
}
