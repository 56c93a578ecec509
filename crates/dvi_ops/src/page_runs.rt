//! The body of a page with its characters apart from its other instructions.

ghost use Rattle.std.specs.Prelude.{◌≡◌, ◌<◌, ◌++◌, [], ◌∷◌, true, false, pos, length, map, vec_len, vec_capacity, IfOk, OnErr, OnOk};
ghost use Rattle.dvi_ops.specs.Private.Rising.{IsRising, IsRising-prop};

use crate::body_op::BodyOp;
use crate::spelling::append_byte;
use std::alloc::{AllocError, Global};

/// The body of a page: the codes of its characters, and its other instructions, each with the number of characters before it. Nearly all instructions
/// of a page are characters, which take a byte here.
#[derive(Debug, Drop)]
pub struct PageRuns<'a> {
    pub codes: Vec<u8>,
    pub places: Vec<usize>,
    pub ops: Vec<BodyOp<'a>>,
    ghost paired: { length places.items ≡ length ops.items },
    ghost rising: { IsRising 0 places.items (length codes.items) } by { IsRising-prop 0 places.items (length codes.items) },
}

/// Makes space for one more item where there is none. This is rare, and apart it does not fill the loops that append.
#[inline(never)]
fn grow<T>(list: &mut Vec<T>) -> Result<(), AllocError>
    ensures items { list.new.items ≡ list.old.items }
    ensures space { OnOk result (vec_len list.new < vec_capacity list.new) }
{
    list.reserve(1)
}

/// Makes space for one more item. Mostly it is there.
#[inline(always)]
fn make_space<T>(list: &mut Vec<T>) -> Result<(), AllocError>
    ensures items { list.new.items ≡ list.old.items }
    ensures space { OnOk result (vec_len list.new < vec_capacity list.new) }
{
    if list.len() < list.capacity() {
        return Ok(());
    }
    grow(list)
}

impl<'a> PageRuns<'a> {
    ghost use Rattle.dvi_ops.specs.Instruction.{Do, SetChar};
    ghost use Rattle.dvi_ops.specs.Runs.{instructions_of};
    ghost use Rattle.dvi_ops.specs.View.{body_view};

    /// A body without instructions, with capacity for `capacity` characters and a quarter of that of other instructions.
    #[tactic(auto, unfolding(crate::specs::Runs::instructions_of))]
    pub fn new(alloc: Global, capacity: usize) -> Result<PageRuns<'a>, AllocError>
        ensures { IfOk result (λ runs. instructions_of runs ≡ []) }
    {
        Ok(PageRuns {
            codes: Vec::with_capacity(alloc, capacity)?,
            places: Vec::with_capacity(alloc, capacity / 4)?,
            ops: Vec::with_capacity(alloc, capacity / 4)?,
        })
    }

    /// The body with these instructions.
    pub fn of(alloc: Global, ops: &[BodyOp<'a>]) -> Result<PageRuns<'a>, AllocError>
        ensures { IfOk result (λ runs. instructions_of runs ≡ map body_view ops.now) }
    {
        let mut runs = PageRuns::new(alloc, 0)?;
        for op in ops {
            runs.append(*op)?;
        }
        Ok(runs)
    }

    /// Appends an instruction. If memory is refused, the body is as it was before the call.
    fn append(&mut self, op: BodyOp<'a>) -> Result<(), AllocError>
        ensures ok { OnOk result (instructions_of self.new ≡ instructions_of self.old ++ body_view op.entry ∷ []) }
        ensures err { OnErr result (instructions_of self.new ≡ instructions_of self.old) }
    {
        match op {
            BodyOp::SetChar(code @ 0..=255) => self.push_character(code as u8),
            other => self.push(other),
        }
    }

    /// Appends a character. If memory is refused, the body is as it was before the call.
    #[tactic(auto, unfolding(crate::specs::Runs::instructions_of))]
    #[inline(always)]
    pub fn push_character(&mut self, code: u8) -> Result<(), AllocError>
        ensures ok { OnOk result (instructions_of self.new ≡ instructions_of self.old ++ Do (SetChar (pos code)) ∷ []) }
        ensures err { OnErr result (instructions_of self.new ≡ instructions_of self.old) }
    {
        append_byte(&mut self.codes, code)?;
        Ok(())
    }

    /// Appends a character where there is space for it, and returns whether it did. It takes no memory.
    #[tactic(auto, unfolding(crate::specs::Runs::instructions_of))]
    #[inline(always)]
    pub fn push_in_space(&mut self, code: u8) -> bool
        ensures pushed { result ≡ true → instructions_of self.new ≡ instructions_of self.old ++ Do (SetChar (pos code)) ∷ [] }
        ensures full { result ≡ false → self.new ≡ self.old }
        ensures space { vec_len self.old.codes < vec_capacity self.old.codes → result ≡ true }
    {
        if self.codes.len() >= self.codes.capacity() {
            return false;
        }
        self.codes.push_reserved(code);
        true
    }

    /// Appends an instruction that is no character. A character may be appended too, but takes more memory than by `push_character`. If memory is
    /// refused, the body is as it was before the call.
    #[tactic(auto, unfolding(crate::specs::Runs::instructions_of))]
    #[inline(always)]
    pub fn push(&mut self, op: BodyOp<'a>) -> Result<(), AllocError>
        ensures ok { OnOk result (instructions_of self.new ≡ instructions_of self.old ++ body_view op.entry ∷ []) }
        ensures err { OnErr result (instructions_of self.new ≡ instructions_of self.old) }
    {
        make_space(&mut self.places)?;
        make_space(&mut self.ops)?;
        self.places.push_reserved(self.codes.len());
        self.ops.push_reserved(op);
        Ok(())
    }
}
