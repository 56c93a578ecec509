//! The places of the pages, from the last one back (DVItype, 15 and 19).

ghost use Rattle.std.specs.Prelude.{◌≡◌, ◌≢◌, ◌≤◌, ◌<◌, ◌+◌, ◌%◌, List, length, drop, ℤ, false, true, negsuc, IfOk, IfErr};
ghost use Rattle.dvi_ops.specs.Instruction.{Bop};
ghost use Rattle.dvi_ops.specs.Table.{signed};
ghost use Rattle.dvi_ops.specs.View.{view_postamble};
ghost use Rattle.dvi_scan.specs.Chain.{IsChainRefusal, Links};
ghost use Rattle.dvi_scan.specs.Private.Chain.{IsBrokenFrom, Names};
ghost use Rattle.dvi_scan.specs.Ends.{HasPostamble, IsSpelledAt};

use crate::at_place::read_at;
use crate::ending::{FileEnd, place_at};
use crate::fault::{BadDvi, DviCause, FrameFault};
use byteorder::{BigEndian, ByteOrder};
use dvi_ops::Op;
use std::alloc::Global;

/// The distance from the place of a bop to its pointer, in bytes: its code and its ten counts.
const BOP_POINTER: usize = 41;
/// The distance from the place of post to its pointer to the last bop, in bytes.
const POST_POINTER: usize = 1;
/// The number of pages in post is modulo this number.
const PAGES_MODULUS: usize = 65_536;

/// What a pointer names: the start before the first page, a bop, or nothing, with the place of the pointer.
#[derive(Clone, Copy, Debug, PartialEq)]
enum PointerTarget {
    Start,
    Page(usize),
    Nothing(usize),
}

/// Whether a bop is at a place and ends at or before `bound`.
fn is_page(bytes: &[u8], place: usize, bound: usize) -> bool
    requires { bound ≤ length bytes.now }
    ensures bop_found { result ≡ true → (counts : List ℤ) × (before : ℤ) × IsSpelledAt bytes.now place bound (Bop counts before) }
    ensures low { result ≡ true → place < bound }
    ensures none { result ≡ false → (counts : List ℤ) (before : ℤ) → IsSpelledAt bytes.now place bound (Bop counts before) → ⊥ }
{
    if bound < place {
        return false;
    }
    let Ok((op, _)) = read_at(bytes, place, bound) else {
        return false;
    };
    let Op::Bop { .. } = op else {
        return false;
    };
    true
}

/// Whether the pointer at a place is that of the first page, -1.
fn is_start(bytes: &[u8], at: usize) -> bool
    requires { at + 4 ≤ length bytes.now }
    ensures yes { result ≡ true → signed 4 (drop at bytes.now) ≡ negsuc 0 }
    ensures no { result ≡ false → signed 4 (drop at bytes.now) ≢ negsuc 0 }
{
    BigEndian::read_i32(&bytes[at..]) == -1
}

/// What the pointer at a place names, where only a bop before `bound` counts. The bound falls from page to page, so the walk ends.
fn what_it_names(bytes: &[u8], at: usize, bound: usize) -> PointerTarget
    requires space { at + 4 ≤ length bytes.now }
    requires high { bound ≤ length bytes.now }
    ensures { Names bytes.now at bound (signed 4 (drop at bytes.now)) result }
{
    if is_start(bytes, at) {
        return PointerTarget::Start;
    }
    let Some(place) = place_at(bytes, at) else {
        return PointerTarget::Nothing(at);
    };
    if is_page(bytes, place, bound) {
        return PointerTarget::Page(place);
    }
    PointerTarget::Nothing(at)
}

/// The places that a pointer leads to, the last page first.
fn walk(alloc: Global, bytes: &[u8], at: usize, bound: usize) -> Result<Vec<usize>, FrameFault>
    requires space { at + 4 ≤ length bytes.now }
    requires high { bound ≤ length bytes.now }
    ensures found { IfOk result (λ places. Links bytes.now bound (signed 4 (drop at bytes.now)) places.items) }
    ensures bad { IfErr result (IsBrokenFrom bytes.now at bound (signed 4 (drop at bytes.now))) }
{
    let mut places = Vec::new(alloc);
    let mut named = what_it_names(bytes, at, bound);
    while let PointerTarget::Page(place) = named {
        places.push(place)?;
        named = what_it_names(bytes, place + BOP_POINTER, place);
    }
    match named {
        PointerTarget::Nothing(place) => Err(FrameFault::Bad(BadDvi {
            place,
            cause: DviCause::Pointer,
        })),
        _ => Ok(places),
    }
}

/// Finds the places of the pages from the last one back, the last page first (DVItype, 15 and 19). It takes memory for them.
///
/// The fault is Pointer, at the place of a pointer that names no earlier page; or Count, at the place of post, where it gives another number of
/// pages; or OutOfMemory.
pub fn page_offsets(alloc: Global, bytes: &[u8], ending: &FileEnd) -> Result<Vec<usize>, FrameFault>
    requires { HasPostamble bytes.now ending.now.post ending.now.last (view_postamble ending.now.postamble) }
    // These are the pages that post leads to.
    ensures found { IfOk result (λ places. Links bytes.now ending.now.post ending.now.postamble.last_bop places.items) }
    // Their number is the one in post, modulo 65536.
    ensures count { IfOk result (λ places. ending.now.postamble.pages ≡ length places.items % 65536) }
    // The rule that a fault names is broken at its place, and the earlier rules hold. Memory is refused only where post names a page.
    ensures bad { IfErr result (IsChainRefusal bytes.now ending.now.post (view_postamble ending.now.postamble)) }
{
    let places = walk(alloc, bytes, ending.post + POST_POINTER, ending.post)?;
    if places.len() % PAGES_MODULUS != usize::from(ending.postamble.pages) {
        return Err(FrameFault::Bad(BadDvi {
            place: ending.post,
            cause: DviCause::Count,
        }));
    }
    Ok(places)
}
