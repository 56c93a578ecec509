//! The numbers that the writer keeps of the pages that it has sent, and the bytes that it sends next (DVItype, 13 to 20).

ghost use Rattle.std.specs.Prelude.{◌≡◌, ◌<◌, ◌≤◌, ◌+◌, ◌^◌, ◌++◌, [], ◌∷◌, ℤ, List, None, Some, false, max, pos, length, map, if◌then◌else◌, OnOk};
ghost use Rattle.std.specs.Prelude.{OnErr, IfOk, IfErr};
ghost use Rattle.std.specs.Int.{int_max};
ghost use Rattle.std.specs.List.{AllByRecursion};
ghost use Rattle.dvi_ops.specs.Instruction.{Bop, Eop, Post};
ghost use Rattle.dvi_ops.specs.declared.op.Op.TheVariants as ops;
ghost use Rattle.dvi_ops.specs.Layout.{bytes_of, define};
ghost use Rattle.dvi_ops.specs.Spelling.{HasSpelling, NumberFits};
ghost use Rattle.dvi_ops.specs.Runs.{instructions_of};
ghost use Rattle.dvi_ops.specs.View.{view};
ghost use Rattle.tfm_core.specs.declared.slots.TheConstants.{FONT_SLOTS};
ghost use Rattle.node_core.specs.Nodes.{box_count, box_text};
ghost use Rattle.page_core.specs.Marks.{is_huge};
ghost use Rattle.page_core.specs.Pages.{page_at, reach_down, reach_right};
ghost use Rattle.dvi_write.specs.Admitted.{shipped_page};
ghost use Rattle.dvi_write.specs.FilePages.{definitions_of};
ghost use Rattle.dvi_write.specs.SoFar.{closing_so_far, last_bytes, next_bytes, nothing_so_far, opening_instructions, postamble_so_far, with_next};
ghost use Rattle.dvi_write.specs.Limits.{IsWithinLimits, limit_of};

use crate::defined::DefinedSlots;
use crate::fault::WriteFault;
use crate::layout::{
    SCALED_POINTS, append_all, append_definitions, append_padding, append_page, fresh_slots,
    in_rising_order,
};
use crate::page::{AdmittedPage, PageLoad, reach_down, reach_right, written_body};
use dvi_ops::{Op, PageRuns, Postamble, opcodes};
use node_core::BoxNode;
use node_core::limits::{MAX_PAGES, MAX_SHIPPED_NODES, MAX_SHIPPED_TEXT};
use scaled_core::{COUNTS, Dimen};
use std::alloc::{AllocError, Global};
use std::marker::Model;
use tfm_core::Fonts;

/// The number of bytes of the preamble.
const PREAMBLE: usize = 15;

/// The number of bytes of bop and of eop.
const AROUND_A_BODY: usize = 46;

/// The numbers that the writer keeps of the pages that it has sent.
#[derive(Drop)]
pub struct Progress {
    last: i32,
    size: usize,
    defined: DefinedSlots,
    tall: Dimen,
    wide: Dimen,
    deep: usize,
    pages: u32,
    nodes: u64,
    text: u64,
}

impl Model for Progress {
    ghost use Rattle.dvi_write.specs.SoFar.{ProgressView};

    ghost Value = { ProgressView };

    ghost view = { λ p. record {
      layout = record { last = p.last; size = p.size; depth = p.deep };
      defined = p.defined;
      tall = p.tall;
      wide = p.wide;
      pages = p.pages;
      load = record { nodes = p.nodes; text = p.text };
    } };
}

/// The bytes of a page, with what comes before it, and the numbers to keep once they are sent.
#[derive(Drop)]
pub struct NextPage {
    pub bytes: Vec<u8>,
    pub after: Progress,
}

/// The instructions before the definitions of a page that follows `pages` others: the preamble before the first page.
fn opening(alloc: Global, pages: u32) -> Result<Vec<Op<'static>>, AllocError>
    ensures ok { IfOk result (λ ops. map view ops.items ≡ opening_instructions pages) }
    ensures operands_fit { IfOk result (λ ops. AllByRecursion HasSpelling (map view ops.items)) }
{
    let mut ops = Vec::new(alloc);
    if pages == 0 {
        ops.push(Op::Pre {
            id: opcodes::FORMAT,
            units: SCALED_POINTS,
            comment: &[],
        })?;
    }
    Ok(ops)
}

/// The number of bytes of these instructions.
#[tactic(auto, unfolding(dvi_ops::specs::Spelling::spelling, dvi_ops::specs::Spelling::operand))]
fn opening_size(pages: u32) -> usize
    ensures { result ≡ length (bytes_of (opening_instructions pages)) }
{
    if pages == 0 { PREAMBLE } else { 0 }
}

/// A page as it is laid out: its bytes, with what comes before it; and, without the preamble, the place of its bop in them and their number.
#[derive(Drop)]
struct LaidOutPage {
    bytes: Vec<u8>,
    bop: usize,
    size: usize,
}

impl Progress {
    /// The numbers before any page.
    pub fn new() -> Progress
        ensures { result ≡ nothing_so_far }
    {
        Progress {
            last: -1,
            size: PREAMBLE,
            defined: DefinedSlots::new(),
            tall: Dimen::ZERO,
            wide: Dimen::ZERO,
            deep: 0,
            pages: 0,
            nodes: 0,
            text: 0,
        }
    }

    /// The number of pages.
    pub fn pages(&self) -> u32
        ensures { result ≡ self.now.pages }
    {
        self.pages
    }

    /// The number of bytes up to the last eop. The preamble counts before any page too, with which it is sent.
    pub fn size(&self) -> usize
        ensures { result ≡ self.now.layout.size }
    {
        self.size
    }

    /// A copy.
    fn copy(&self) -> Progress
        ensures { result ≡ self.now }
    {
        Progress {
            defined: self.defined.copy(),
            ..*self
        }
    }

    /// The load of the page of a box, where the limits of a file allow it. The fault is the first of TooManyPages, TooMuchShipped and TooMuchSpecial
    /// that holds; HugePage is found later, by `next_page`. It takes no memory.
    pub fn admit(&self, box_node: &BoxNode) -> Result<PageLoad, WriteFault>
        ensures nodes { IfOk result (λ load. load.nodes ≡ box_count box_node.now) }
        ensures text { IfOk result (λ load. load.text ≡ box_text box_node.now) }
        ensures ok { OnOk result ((counts : List ℤ) (h v : ℤ) → limit_of self.now (page_at counts h v box_node.now)
            ≡ (if is_huge (page_at counts h v box_node.now) then Some WriteFault.HugePage else None)) }
        ensures err { IfErr result (λ fault. (counts : List ℤ) (h v : ℤ) → limit_of self.now (page_at counts h v box_node.now) ≡ Some fault) }
    {
        if self.pages >= MAX_PAGES {
            return Err(WriteFault::TooManyPages);
        }
        let nodes = box_node.count();
        if self.nodes.saturating_add(nodes) > MAX_SHIPPED_NODES {
            return Err(WriteFault::TooMuchShipped);
        }
        let text = box_node.text_size();
        if self.text.saturating_add(text) > MAX_SHIPPED_TEXT {
            return Err(WriteFault::TooMuchSpecial);
        }
        Ok(PageLoad { nodes, text })
    }

    /// A page with this body, after the definitions of the fonts in these slots.
    fn lay_out(
        &self,
        alloc: Global,
        fonts: &Fonts,
        slots: &[u8],
        counts: &[i32; COUNTS],
        body: &PageRuns<'_>,
    ) -> Result<LaidOutPage, AllocError>
        requires { AllByRecursion HasSpelling (instructions_of body.now) }
        ensures bytes { IfOk result (λ page. page.bytes.items ≡ bytes_of (opening_instructions self.now.pages
            ++ (define (definitions_of fonts.now slots.now) ++ (Bop counts.now self.now.layout.last ∷ (instructions_of body.now ++ Eop ∷ []))))) }
        ensures bop { IfOk result (λ page. page.bop ≡ length (bytes_of (define (definitions_of fonts.now slots.now)))) }
        ensures size { IfOk result (λ page. page.size ≡ length (bytes_of
            (define (definitions_of fonts.now slots.now) ++ (Bop counts.now self.now.layout.last ∷ (instructions_of body.now ++ Eop ∷ []))))) }
        ensures counts { OnOk result (AllByRecursion NumberFits counts.now) }
    {
        let mut before = opening(alloc, self.pages)?;
        append_definitions(fonts, slots, &mut before)?;
        let movements = body.ops.len().saturating_mul(3);
        let capacity = body
            .codes
            .len()
            .saturating_add(movements)
            .saturating_add(AROUND_A_BODY);
        let mut bytes = Vec::with_capacity(alloc, capacity)?;
        append_all(&mut bytes, &before)?;
        let start = opening_size(self.pages);
        let bop = bytes.len() - start;
        append_page(&mut bytes, counts, body, self.last)?;
        let size = bytes.len() - start;
        Ok(LaidOutPage { bytes, bop, size })
    }

    /// Adds a page to the numbers: the slots of the fonts that it defines, the place of its bop, its size, and its load.
    fn keep_size(&mut self, slots: &[u8], bop: usize, size: usize, load: PageLoad)
        requires slots_bounded { length self.old.defined + length slots.now ≤ FONT_SLOTS }
        requires bop_bounded { bop ≤ size }
        requires space { self.old.layout.size + size < 2 ^ 31 }
        requires pages { self.old.pages < MAX_PAGES }
        requires nodes { self.old.load.nodes + load.nodes ≤ MAX_SHIPPED_NODES }
        requires text { self.old.load.text + load.text ≤ MAX_SHIPPED_TEXT }
        ensures { self.new ≡ record self.old {
          layout = record { last = pos (self.old.layout.size + bop); size = self.old.layout.size + size; depth = self.old.layout.depth };
          defined = self.old.defined ++ slots.now;
          pages = self.old.pages + 1;
          load = record { nodes = self.old.load.nodes + load.nodes; text = self.old.load.text + load.text };
        } }
    {
        self.defined.append(slots);
        self.last = (self.size + bop) as i32;
        self.size += size;
        self.pages += 1;
        self.nodes += load.nodes;
        self.text += load.text;
    }

    /// Adds the bottom and the right edge of a page to the numbers.
    fn keep_reach(&mut self, page: &AdmittedPage<'_>)
        requires { is_huge (shipped_page page.now) ≡ false }
        ensures { self.new ≡ record self.old {
          tall = int_max self.old.tall (reach_down (shipped_page page.now));
          wide = int_max self.old.wide (reach_right (shipped_page page.now));
        } }
    {
        self.tall = self.tall.max(reach_down(page));
        self.wide = self.wide.max(reach_right(page));
    }

    /// Adds the depth of a page to the numbers: the greatest number of pushes that are open at once.
    fn keep_depth(&mut self, deepest: usize)
        ensures { self.new ≡ record self.old { layout = record (self.old.layout) { depth = max self.old.layout.depth deepest } } }
    {
        self.deep = self.deep.max(deepest);
    }

    /// The page that is sent next. The fault is HugePage exactly where the page is huge, even if memory is refused too, and OutOfMemory otherwise.
    #[tactic(auto, unfolding(crate::specs::SoFar::with_next, crate::specs::SoFar::next_bytes))]
    pub fn next_page(
        &self,
        alloc: Global,
        page: &AdmittedPage<'_>,
        fonts: &Fonts,
    ) -> Result<NextPage, WriteFault>
        requires nodes { page.now.load.nodes ≡ box_count page.now.box_node.now }
        requires text { page.now.load.text ≡ box_text page.now.box_node.now }
        requires space { IsWithinLimits (with_next fonts.now self.now (shipped_page page.now)) }
        ensures bytes { IfOk result (λ next. next.bytes.items ≡ next_bytes fonts.now self.now (shipped_page page.now)) }
        ensures after { IfOk result (λ next. next.after ≡ with_next fonts.now self.now (shipped_page page.now)) }
        ensures fits { OnOk result (is_huge (shipped_page page.now) ≡ false) }
        ensures counts { OnOk result (AllByRecursion NumberFits page.now.counts) }
        ensures err { IfErr result (λ fault. fault
            ≡ (if is_huge (shipped_page page.now) then WriteFault.HugePage else WriteFault.OutOfMemory)) }
    {
        let body = written_body(alloc, page)?;
        let fresh = fresh_slots(alloc, fonts, self.defined.as_slice(), &body)?;
        let laid_out = self.lay_out(alloc, fonts, &fresh.slots, &page.counts, &body)?;
        let mut after = self.copy();
        after.keep_size(&fresh.slots, laid_out.bop, laid_out.size, page.load);
        after.keep_reach(page);
        after.keep_depth(fresh.deepest);
        Ok(NextPage {
            bytes: laid_out.bytes,
            after,
        })
    }

    /// The operands of post.
    fn postamble(&self) -> Postamble
        requires { self.now.layout.depth < 2 ^ 16 }
        ensures { view (ops.Post result) ≡ Post (postamble_so_far self.now) }
    {
        Postamble {
            last_bop: self.last,
            units: SCALED_POINTS,
            height_plus_depth: self.tall.get(),
            width: self.wide.get(),
            stack_depth: self.deep as u16,
            pages: (self.pages % 65536) as u16,
        }
    }

    /// The instructions of the postamble.
    fn closing_ops<'a>(&self, alloc: Global, fonts: &'a Fonts) -> Result<Vec<Op<'a>>, AllocError>
        requires space { self.now.layout.size < 2 ^ 31 }
        requires deep { self.now.layout.depth < 2 ^ 16 }
        ensures ok { IfOk result (λ ops. map view ops.items ≡ closing_so_far fonts.now self.now) }
        ensures operands_fit { IfOk result (λ ops. AllByRecursion HasSpelling (map view ops.items)) }
    {
        let slots = in_rising_order(alloc, self.defined.as_slice())?;
        let mut ops = Vec::new(alloc);
        ops.push(Op::Post(self.postamble()))?;
        append_definitions(fonts, &slots, &mut ops)?;
        ops.push(Op::PostPost {
            place: self.size as i32,
            id: opcodes::FORMAT,
        })?;
        Ok(ops)
    }

    /// The bytes from post to the end of the file. The result is an Err where memory is refused.
    #[tactic(auto, unfolding(crate::specs::SoFar::last_bytes))]
    pub fn last_bytes(&self, alloc: Global, fonts: &Fonts) -> Result<Vec<u8>, AllocError>
        requires space { self.now.layout.size < 2 ^ 31 }
        requires deep { self.now.layout.depth < 2 ^ 16 }
        ensures { IfOk result (λ bytes. bytes.items ≡ last_bytes fonts.now self.now) }
    {
        let ops = self.closing_ops(alloc, fonts)?;
        let mut bytes = Vec::new(alloc);
        append_all(&mut bytes, &ops)?;
        append_padding(self.size, &mut bytes)?;
        Ok(bytes)
    }
}
