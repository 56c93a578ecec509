//! One page of a checked file, read from its place.

ghost use Rattle.std.specs.Prelude.{◌≡◌, ◌++◌, [], ◌<◌, filter, length, map, vec_len, IfOk, List, OnOk};
ghost use Rattle.dvi_ops.specs.File.{MarkedPage};
ghost use Rattle.dvi_scan.specs.View.{mark_of, marked_page};
ghost use Rattle.dvi_scan.specs.Private.View.{marks_in};
ghost use Rattle.dvi_read.specs.ItemsLeft.{IsReady};
ghost use Rattle.dvi_read.specs.Private.OnePage.{IsOpenAt, IsPageStart, ShowsKept, is_kept};
ghost use Rattle.dvi_read.specs.Private.ShownPages.{ShowsPages};

use crate::check::checked_file::CheckedFile;
use crate::seen_items::{draw, page_space};
use dvi_ops::Op;
use dvi_scan::{Mark, OpenPage, Page, read_at};
use scaled_core::COUNTS;
use std::alloc::{AllocError, Global};

/// The beginning of a page: its counts, and the place after its bop.
#[derive(Clone, Copy, Debug)]
struct PageStart {
    counts: [i32; COUNTS],
    at: usize,
}

/// Which marks of a page are kept.
#[derive(Clone, Copy, Debug)]
pub(crate) enum MarkChoice {
    All,
    Rules,
}

impl MarkChoice {
    /// Whether a mark is kept.
    fn keeps(self, mark: &Mark<'_>) -> bool
        ensures { result ≡ is_kept self (mark_of mark.now) }
    {
        match self {
            MarkChoice::All => true,
            MarkChoice::Rules => match *mark {
                Mark::Rule { .. } => true,
                _ => false,
            },
        }
    }

    /// Appends the mark that an instruction made, if it made one that is kept. It takes memory for it.
    #[inline(always)]
    fn push<'a>(self, made: Option<Mark<'a>>, marks: &mut Vec<Mark<'a>>) -> Result<(), AllocError>
        ensures { OnOk result (map mark_of marks.new.items ≡ map mark_of marks.old.items ++ filter (is_kept self) (marks_in made.entry)) }
    {
        let Some(mark) = made else {
            return Ok(());
        };
        if !self.keeps(&mark) {
            return Ok(());
        }
        marks.push(mark)?;
        Ok(())
    }
}

impl<'a> CheckedFile<'a> {
    /// The beginning of the page with an index, from 0 on. It takes no memory.
    fn page_start(&self, index: usize) -> PageStart
        requires shown { (pages : List MarkedPage) × ShowsPages self.now pages }
        requires below { index < vec_len self.now.places }
        ensures { (pages : List MarkedPage) → ShowsPages self.now pages → IsPageStart self.now pages index result }
    {
        let place = self.places[self.places.len() - 1 - index];
        let Ok((op, at)) = read_at(self.bytes, place, self.post) else {
            unreachable!()
        };
        let Op::Bop { counts, .. } = op else {
            unreachable!()
        };
        PageStart { counts, at }
    }

    /// Takes the instructions of an open page up to its eop, and returns the marks that are kept. It takes memory for them alone.
    fn page_marks(
        &self,
        alloc: Global,
        kept: MarkChoice,
        from: usize,
        page: &mut OpenPage<'a>,
    ) -> Result<Vec<Mark<'a>>, AllocError>
        requires ready { IsReady self.now.most self.now.fonts page.old }
        requires remaining { (before : List MarkedPage) × (pages : List MarkedPage) × IsOpenAt self.now from before [] page.old pages }
        ensures { IfOk result (λ marks. (before : List MarkedPage) (pages : List MarkedPage)
            → IsOpenAt self.now from before [] page.old pages
            → ShowsKept kept (record { counts = page.old.counts; marks = map mark_of marks.items }) (length before) pages) }
    {
        let mut marks = Vec::new(alloc);
        let mut at = from;
        let mut current = self.fonts.current;
        while at < self.post {
            let Ok((op, next)) = read_at(self.bytes, at, self.post) else {
                unreachable!()
            };
            if let Op::Eop = op {
                return Ok(marks);
            }
            let made = draw(self.most, &op, &self.fonts, &mut current, page);
            kept.push(made, &mut marks)?;
            at = next;
        }
        unreachable!()
    }

    /// The page with an index, from 0 on, with the marks that are kept. It takes memory for these marks and for the places that pushes save.
    pub(crate) fn page(
        &self,
        alloc: Global,
        index: usize,
        kept: MarkChoice,
    ) -> Result<Page<'a>, AllocError>
        requires shown { (pages : List MarkedPage) × ShowsPages self.now pages }
        requires below { index < vec_len self.now.places }
        ensures { IfOk result (λ page. (pages : List MarkedPage) → ShowsPages self.now pages
            → ShowsKept kept (marked_page page) index pages) }
    {
        let begin = self.page_start(index);
        let mut page = page_space(alloc, self.most)?;
        let counts = begin.counts;
        page.counts = counts;
        let marks = self.page_marks(alloc, kept, begin.at, &mut page)?;
        Ok(Page { counts, marks })
    }
}
