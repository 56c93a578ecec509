//! The lines of a script in blocks.

ghost use Rattle.std.specs.Prelude.{◌≡◌, ◌<◌, ◌+◌, ◌∷◌, ◌++◌, [], OnOk, OnErr, vec_len};
ghost use Rattle.boxglue_script.specs.Blocks.{lines_of};

use crate::script::Line;
use std::alloc::{AllocError, Global};
use std::mem::replace;

/// How many lines of a script a block has at most.
pub(crate) const BLOCK_SIZE: usize = 8_192;

/// The lines of a script in blocks. The memory of a block can be given back once its lines were run.
#[derive(Debug, Drop)]
pub struct LineBlocks {
    /// The blocks before the last one.
    pub full: Vec<Vec<Line>>,
    pub last: Vec<Line>,
}

impl LineBlocks {
    /// No lines.
    pub(crate) fn new(alloc: Global) -> LineBlocks
        ensures full { result.full.items ≡ [] }
        ensures last { result.last.items ≡ [] }
        ensures len { vec_len result.last ≡ 0 }
    {
        LineBlocks {
            full: Vec::new(alloc),
            last: Vec::new(alloc),
        }
    }

    /// Appends a line to the last block, or to a new one if that block has `most` lines. Where memory is refused, no line is lost.
    pub(crate) fn push(&mut self, most: usize, line: Line) -> Result<(), AllocError>
        ensures ok { OnOk result (lines_of self.new ≡ lines_of self.old ++ line ∷ []) }
        ensures err { OnErr result (lines_of self.new ≡ lines_of self.old) }
        ensures full { vec_len self.old.last < most → self.new.full.items ≡ self.old.full.items }
        ensures last { vec_len self.old.last < most → OnOk result (vec_len self.new.last ≡ vec_len self.old.last + 1) }
    {
        if self.last.len() >= most {
            self.begin_block(most)?;
        }
        // `Vec::push` would call a function that tests the space again.
        if self.last.len() == self.last.capacity() {
            self.last.reserve(1)?;
        }
        self.last.push_reserved(line);
        Ok(())
    }

    /// Begins a block, with space for `most` lines at once. The space is taken before a block moves, so that no line is lost where memory is refused.
    #[tactic(auto, using(crate::proofs::BlockLemmas::one_block_more))]
    fn begin_block(&mut self, most: usize) -> Result<(), AllocError>
        ensures { lines_of self.new ≡ lines_of self.old }
    {
        self.full.reserve(1)?;
        let space = Vec::with_capacity(*self.last.allocator(), most)?;
        let block = replace(&mut self.last, space);
        Ok(self.full.push(block)?)
    }
}
