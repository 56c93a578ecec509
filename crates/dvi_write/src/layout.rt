//! The instructions and the bytes of pages, of font definitions, and of the end of a file (DVItype, 13 to 20).

ghost use Rattle.std.specs.Prelude.{◌≡◌, ◌<◌, ◌+◌, ◌^◌, ◌++◌, ◌||◌, [], ◌∷◌, ℕ, pos, false, get_or, length, map, replicate, take, OnOk, OnErr, IfOk};
ghost use Rattle.std.specs.Prelude.{◌≤◌, filter};
ghost use Rattle.dvi_ops.specs.Instruction.{Bop, Do, Eop, FontDef};
ghost use Rattle.dvi_ops.specs.declared.op.Op.TheVariants as ops;
ghost use Rattle.dvi_ops.specs.Layout.{bytes_of, define, padding_after};
ghost use Rattle.dvi_ops.specs.Spelling.{HasSpelling, NumberFits};
ghost use Rattle.dvi_ops.specs.Runs.{instructions_of};
ghost use Rattle.dvi_ops.specs.View.{body_view, view};
ghost use Rattle.ship_core.specs.Private.Pushes.{max_pushed};
ghost use Rattle.std.specs.List.{AllByRecursion, list_any};
ghost use Rattle.std.specs.Ordering.{int_eq};
ghost use Rattle.dvi_write.specs.FilePages.{definition_of, definitions_of, fresh_slots, is_among, in_rising_order, numbers_below, selects};
ghost use Rattle.dvi_write.specs.Private.FilePages.{is_marked_fresh, slot_of};
ghost use Rattle.dvi_ops.specs.Forest.{Forest, flat, nests};

use dvi_ops::{BodyOp, FontDefinition, Op, PageRuns, Units, opcodes, spell};
use scaled_core::COUNTS;
use ship_core::pushed_after;
use std::alloc::{AllocError, Global};
use tfm_core::{FONT_SLOTS, Fonts, LoadedFont};

/// The units of a file: a scaled point.
pub const SCALED_POINTS: Units = Units {
    num: 25_400_000,
    den: 473_628_672,
    mag: 1000,
};

/// Appends the spellings of instructions. Where memory is refused, `bytes` is unchanged.
pub fn append_all(bytes: &mut Vec<u8>, ops: &[Op<'_>]) -> Result<(), AllocError>
    requires { AllByRecursion HasSpelling (map view ops.now) }
    ensures ok { OnOk result (bytes.new.items ≡ bytes.old.items ++ bytes_of (map view ops.now)) }
    ensures err { OnErr result (bytes.new.items ≡ bytes.old.items) }
{
    let held = bytes.len();
    for op in ops {
        if spell(op, bytes).is_err() {
            bytes.truncate(held);
            return Err(AllocError);
        }
    }
    Ok(())
}

/// Appends the spellings of a page with these counts and this body, from bop to eop. `last` is the place of the previous bop, or -1. Where memory is
/// refused, a beginning of the spellings may be there, after what was there before.
pub fn append_page(
    bytes: &mut Vec<u8>,
    counts: &[i32; COUNTS],
    body: &PageRuns<'_>,
    last: i32,
) -> Result<(), AllocError>
    requires { AllByRecursion HasSpelling (instructions_of body.now) }
    ensures ok { OnOk result (bytes.new.items ≡ bytes.old.items ++ bytes_of (Bop counts.now last ∷ (instructions_of body.now ++ Eop ∷ []))) }
    ensures counts { AllByRecursion NumberFits counts.now }
    ensures left { OnErr result (take (length bytes.old.items) bytes.new.items ≡ bytes.old.items) }
{
    let bop = Op::Bop {
        counts: *counts,
        pointer: last,
    };
    spell(&bop, bytes)?;
    body.append_to(bytes)?;
    spell(&Op::Eop, bytes)
}

/// The slot of the font that an instruction selects, if the font's number is that of a slot.
fn slot_of(op: &BodyOp<'_>) -> Option<u8>
    ensures { result ≡ slot_of (body_view op.now) }
{
    match op {
        BodyOp::FontNum(number) => u8::try_from(*number).ok(),
        _ => None,
    }
}

/// Marks a slot.
fn mark(marked: &mut [bool; FONT_SLOTS], slot: u8)
    ensures { (other : ℕ) → other < FONT_SLOTS → get_or marked.new other false ≡ (get_or marked.old other false || int_eq (pos slot) (pos other)) }
{
    marked[usize::from(slot)] = true;
}

/// The result of one pass over the instructions of a body: the slots of the fonts that they select, all of which are from `first` on and below
/// `limit`, and the greatest number of pushes that are open at once.
#[derive(Drop)]
struct FontsAndDepth {
    selected: [bool; FONT_SLOTS],
    first: usize,
    limit: usize,
    deepest: usize,
}

/// Passes over instructions of a body once.
fn pass_over(ops: &[BodyOp<'_>]) -> FontsAndDepth
    ensures selected { (slot : ℕ) → slot < FONT_SLOTS → get_or result.selected slot false ≡ list_any (selects slot) (map body_view ops.now) }
    ensures first { (slot : ℕ) → slot < FONT_SLOTS → slot < result.first → get_or result.selected slot false ≡ false }
    ensures first_bounded { result.first ≤ result.limit }
    ensures limit { (slot : ℕ) → slot < FONT_SLOTS → result.limit ≤ slot → get_or result.selected slot false ≡ false }
    ensures limit_bounded { result.limit ≤ FONT_SLOTS }
    ensures deepest { result.deepest ≡ max_pushed 0 (map body_view ops.now) }
{
    let mut selected = [false; FONT_SLOTS];
    let mut first: usize = FONT_SLOTS;
    let mut limit: usize = 0;
    let mut pushed: usize = 0;
    let mut deepest: usize = 0;
    for op in ops {
        pushed = pushed_after(pushed, op);
        deepest = deepest.max(pushed);
        match slot_of(op) {
            Some(slot) => {
                mark(&mut selected, slot);
                first = first.min(usize::from(slot));
                limit = limit.max(usize::from(slot) + 1);
            }
            None => {}
        }
    }
    FontsAndDepth {
        selected,
        first: first.min(limit),
        limit,
        deepest,
    }
}

/// Whether a slot is among others.
pub fn is_among(slot: u8, slots: &[u8]) -> bool
    ensures { result ≡ is_among slot slots.now }
{
    slots.iter().any(|other| *other == slot)
}

/// Whether the font of a slot is marked, is loaded, and is not defined yet.
#[tactic(auto, unfolding(crate::specs::Private::FilePages::is_marked_fresh))]
fn is_fresh(fonts: &Fonts, defined: &[u8], marked: &[bool; FONT_SLOTS], slot: u8) -> bool
    ensures { result ≡ is_marked_fresh fonts.now defined.now marked.now slot }
{
    if !marked[usize::from(slot)] {
        return false;
    }
    if fonts.get(slot).is_none() {
        return false;
    }
    !is_among(slot, defined)
}

/// The slots that are marked as selected, loaded and not defined yet, in rising order. A small page selects few fonts, and a test of all slots would
/// be an eighth of its work.
fn marked_fresh(
    alloc: Global,
    fonts: &Fonts,
    defined: &[u8],
    passed: &FontsAndDepth,
) -> Result<Vec<u8>, AllocError>
    requires first { (slot : ℕ) → slot < FONT_SLOTS → slot < passed.now.first → get_or passed.now.selected slot false ≡ false }
    requires first_bounded { passed.now.first ≤ passed.now.limit }
    requires limit { (slot : ℕ) → slot < FONT_SLOTS → passed.now.limit ≤ slot → get_or passed.now.selected slot false ≡ false }
    requires limit_bounded { passed.now.limit ≤ FONT_SLOTS }
    ensures { IfOk result
        (λ slots. slots.items ≡ filter (is_marked_fresh fonts.now defined.now passed.now.selected) (numbers_below FONT_SLOTS)) }
{
    let mut slots = Vec::new(alloc);
    for slot in passed.first..passed.limit {
        if is_fresh(fonts, defined, &passed.selected, slot as u8) {
            slots.push(slot as u8)?;
        }
    }
    Ok(slots)
}

/// What is new in a body: the slots of the fonts that it selects and that are not defined yet, in rising order; and its depth, the greatest number of
/// pushes that are open at once.
#[derive(Drop)]
pub struct FreshFonts {
    pub slots: Vec<u8>,
    pub deepest: usize,
}

/// The fresh fonts and the depth of a body. One pass over the instructions that are no characters gives both.
pub fn fresh_slots(
    alloc: Global,
    fonts: &Fonts,
    defined: &[u8],
    body: &PageRuns<'_>,
) -> Result<FreshFonts, AllocError>
    ensures slots { IfOk result (λ fresh. fresh.slots.items ≡ fresh_slots fonts.now defined.now (instructions_of body.now)) }
    ensures deepest { IfOk result (λ fresh. (forest : Forest) → instructions_of body.now ≡ flat forest → fresh.deepest ≡ nests forest) }
{
    let passed = pass_over(&body.ops);
    let slots = marked_fresh(alloc, fonts, defined, &passed)?;
    Ok(FreshFonts {
        slots,
        deepest: passed.deepest,
    })
}

/// The slots of the fonts that are defined, in rising order.
pub fn in_rising_order(alloc: Global, defined: &[u8]) -> Result<Vec<u8>, AllocError>
    ensures { IfOk result (λ slots. slots.items ≡ in_rising_order defined.now) }
{
    let mut slots = Vec::new(alloc);
    for slot in 0..FONT_SLOTS {
        if is_among(slot as u8, defined) {
            slots.push(slot as u8)?;
        }
    }
    Ok(slots)
}

/// The definition of the font in a slot. Its number is the slot, and its name has no area.
pub fn definition_of(slot: u8, loaded: &LoadedFont) -> FontDefinition<'_>
    ensures value { view (ops.FontDef result) ≡ Do (FontDef (definition_of slot loaded.now)) }
    ensures operands_fit { HasSpelling (view (ops.FontDef result)) }
{
    FontDefinition {
        number: i32::from(slot),
        check_sum: loaded.font.check_sum(),
        size: loaded.font.size().get(),
        design_size: loaded.font.design_size().get(),
        area: &[],
        name: loaded.name.as_bytes(),
    }
}

/// Appends the definitions of the fonts in these slots. Where memory is refused, a beginning of them may be there.
pub fn append_definitions<'a>(
    fonts: &'a Fonts,
    slots: &[u8],
    ops: &mut Vec<Op<'a>>,
) -> Result<(), AllocError>
    requires { AllByRecursion HasSpelling (map view ops.old.items) }
    ensures ok { OnOk result (map view ops.new.items ≡ map view ops.old.items ++ define (definitions_of fonts.now slots.now)) }
    ensures operands_fit { OnOk result (AllByRecursion HasSpelling (map view ops.new.items)) }
    ensures err { OnErr result ((n : ℕ) × (map view ops.new.items ≡ map view ops.old.items ++ define (definitions_of fonts.now (take n slots.now)))) }
{
    for slot in slots {
        if let Some(loaded) = fonts.get(*slot) {
            ops.push(Op::FontDef(definition_of(*slot, loaded)))?;
        }
    }
    Ok(())
}

/// Appends four to seven padding bytes, so that the length with the `before` earlier bytes is a multiple of 4. Where memory is refused, `bytes` is
/// unchanged.
pub fn append_padding(before: usize, bytes: &mut Vec<u8>) -> Result<(), AllocError>
    requires { before < 2 ^ 31 }
    ensures ok { OnOk result (bytes.new.items ≡ bytes.old.items ++ replicate (padding_after (before + length bytes.old.items)) 223) }
    ensures err { OnErr result (bytes.new.items ≡ bytes.old.items) }
{
    let padding = 7 - (before + bytes.len() + 3) % 4;
    bytes.extend_from_slice(&[opcodes::PADDING; 7][..padding])
}
