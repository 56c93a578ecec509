//! Paragraphs are opened inside vertical lists, and end as lines in the list around them.

ghost use Rattle.std.specs.Prelude.{◌≡◌, ◌++◌, ◌∷◌, [], None, Some, Ok, IfOk, OnOk, OnErr};
ghost use Rattle.vert_core.specs.Paragraphs.{SetParagraph};
ghost use Rattle.job_lists.specs.Private.EndedParagraphs.{refusal_of};
ghost use Rattle.job_machine.specs.State.{innermost, outer, items_in};
ghost use Rattle.job_machine.specs.OpenLists.{opened_list};
ghost use Rattle.job_machine.specs.Checks.{par_checks, first_refusal};
ghost use Rattle.job_machine.specs.Machine.{reply_by, state_by};
ghost use Rattle.job_machine.specs.Paragraphs.{pass_number, paragraph_refusal, lines_checks, set_after, paragraph_checks, early_paragraph_checks};
ghost use Rattle.job_machine.specs.Paragraphs.{paragraph_answer, with_paragraph};

use crate::nest::Nest;
use break_core::Pass;
use job_machine::{Answer, ListPurpose, Refusal, Reply};
use node_core::limits::MAX_OPEN_LISTS;
use node_core::{Kind, Params};
use std::alloc::AllocError;
use vert_core::{AppendedParagraph, ParagraphFault, UnappendedLines};

/// The number of the pass that found the breaks: 0 for an empty paragraph, which has none.
fn pass_number(pass: Option<Pass>) -> u8
    ensures { result ≡ pass_number pass }
{
    match pass {
        None => 0,
        Some(Pass::First) => 1,
        Some(Pass::Second) => 2,
        Some(Pass::Third) => 3,
    }
}

/// The answer to `end` for a paragraph that was set.
fn answer_of(figures: &AppendedParagraph) -> Answer
    ensures { (set : SetParagraph) → figures.now.lines ≡ set.lines → figures.now.pass ≡ set.pass → figures.now.overhang ≡ set.overhang
        → figures.now.demerits ≡ set.demerits → result ≡ paragraph_answer (Ok set) }
{
    Answer::Paragraph {
        lines: figures.lines,
        pass: pass_number(figures.pass),
        overhang: figures.overhang,
        demerits: figures.demerits,
    }
}

/// The refusal of a paragraph that is not set. The error is a refused growth, which the machine's table does not have.
fn paragraph_refusal(fault: ParagraphFault) -> Result<Refusal, AllocError>
    ensures refusal { IfOk result (λ refusal. paragraph_refusal fault ≡ Some refusal) }
    ensures memory { OnErr result (paragraph_refusal fault ≡ None) }
{
    match fault {
        ParagraphFault::InfiniteShrink => Ok(Refusal::InfiniteShrink),
        ParagraphFault::TooManyBreaks => Ok(Refusal::TooManyBreaks),
        ParagraphFault::DimensionTooLarge => Ok(Refusal::DimensionTooLarge),
        ParagraphFault::OutOfMemory => Err(AllocError),
    }
}

/// The refusal of lines that are not appended. The error is a refused growth.
fn lines_refusal(unappended: UnappendedLines) -> Result<Refusal, AllocError>
    ensures refusal { IfOk result (λ refusal. refusal_of unappended ≡ Some refusal) }
    ensures memory { OnErr result (refusal_of unappended ≡ None) }
{
    match unappended {
        UnappendedLines::Unset(fault) => paragraph_refusal(fault),
        UnappendedLines::TooDeep => Ok(Refusal::TooDeep),
        UnappendedLines::TooLong => Ok(Refusal::ListTooLong),
    }
}

impl Nest {
    /// Opens a paragraph inside the innermost list.
    ///
    /// `NoOpenList` where no list is open, else `WrongMode` in a horizontal list, else `TooDeep` where `MAX_OPEN_LISTS` are open.
    /// Where it is refused, or memory is, nothing changes.
    pub fn open_paragraph(&mut self) -> Result<Reply, AllocError>
        ensures reply { IfOk result (λ reply. reply ≡ reply_by (first_refusal (par_checks self.old)) Answer.Done) }
        ensures state { OnOk result
            (self.new ≡ state_by (first_refusal (par_checks self.old)) self.old (self.old ++ opened_list ListPurpose.Paragraph ∷ [])) }
        ensures err { OnErr result (self.new ≡ self.old) }
        ensures admitted { OnErr result (first_refusal (par_checks self.old) ≡ None) }
    {
        let Some(innermost) = self.innermost() else {
            return Ok(Err(Refusal::NoOpenList));
        };
        if innermost.purpose.kind() == Kind::Horizontal {
            return Ok(Err(Refusal::WrongMode));
        }
        if self.len() >= MAX_OPEN_LISTS {
            return Ok(Err(Refusal::TooDeep));
        }
        self.begin(ListPurpose::Paragraph)?;
        Ok(Ok(Answer::Done))
    }

    /// Sets the paragraph of the innermost list, appends its lines to the list around it, and drops the innermost list.
    ///
    /// `NoOpenList` where no list is around it, else the fault of a paragraph that is not set, else `TooDeep` or `ListTooLong` for its lines.
    /// Where it is refused, or memory is, nothing changes. `AllocError` is returned only where a list is around it and it may be broken.
    #[tactic(auto, using(crate::proofs::ParagraphEnds::not_refused, crate::proofs::ParagraphEnds::ended_lists, crate::proofs::ParagraphEnds::refused_so, crate::proofs::ParagraphEnds::memory_refused))]
    pub fn end_paragraph(&mut self, params: &Params) -> Result<Reply, AllocError>
        ensures reply { IfOk result
            (λ reply. reply ≡ reply_by (first_refusal (paragraph_checks params.now (outer self.old) (items_in (innermost self.old))))
            (paragraph_answer (set_after params.now (outer self.old) (items_in (innermost self.old))))) }
        ensures state { OnOk result
            (self.new ≡ state_by (first_refusal (paragraph_checks params.now (outer self.old) (items_in (innermost self.old)))) self.old
            (with_paragraph params.now (outer self.old) (items_in (innermost self.old)))) }
        ensures err { OnErr result (self.new ≡ self.old) }
        ensures early { OnErr result (first_refusal (early_paragraph_checks params.now (outer self.old) (items_in (innermost self.old))) ≡ None) }
    {
        if self.around().is_none() {
            return Ok(Err(Refusal::NoOpenList));
        }
        match self.append_paragraph(params) {
            Ok(figures) => Ok(Ok(answer_of(&figures))),
            Err(unappended) => Ok(Err(lines_refusal(unappended)?)),
        }
    }
}
