//! The passes over the instructions of a page.

ghost use Rattle.std.specs.Prelude.{◌≡◌, ◌<◌, ◌≤◌, ◌+◌, [], ◌∷◌, List, false, length, map, reverse, vec_len, vec_capacity, IfOk, OnOk};
ghost use Rattle.dvi_ops.specs.Instruction.{Instruction};
ghost use Rattle.dvi_ops.specs.View.{body_view};
ghost use Rattle.move_core.specs.Private.Passes.{again_in, trimmed_instructions, ends_empty_group, is_push, has_empty_group, flags_of, is_move};
ghost use Rattle.move_core.specs.Private.Passes.{rewritten_instructions};
ghost use Rattle.move_core.specs.Private.Passes.{outside_groups, groups_entered, known_groups, RewritesOp};

use crate::later::Later;
use crate::registers::KnownRegisters;
use dvi_ops::BodyOp;
use std::alloc::{AllocError, Global};

/// Appends an instruction. A pop is not appended directly after a push, and removes it.
fn append_trimmed<'a>(out: &mut Vec<BodyOp<'a>>, op: BodyOp<'a>) -> Result<(), AllocError>
    ensures { OnOk result ((rest : List Instruction) →
        trimmed_instructions rest (reverse (map body_view out.new.items))
        ≡ trimmed_instructions (body_view op.entry ∷ rest) (reverse (map body_view out.old.items))) }
{
    if matches!(op, BodyOp::Pop) && matches!(out.last(), Some(BodyOp::Push)) {
        out.pop();
    } else {
        out.push(op)?;
    }
    Ok(())
}

/// Whether an instruction ends an empty group: it is a pop, and the one before it a push. Pops are rare, so they are looked for first.
#[inline(always)]
fn ends_empty_group(before: &BodyOp<'_>, op: &BodyOp<'_>) -> bool
    ensures { result ≡ ends_empty_group (is_push (body_view before.now)) (body_view op.now) }
{
    matches!(op, BodyOp::Pop) && matches!(before, BodyOp::Push)
}

/// Whether some pop comes directly after a push.
pub fn has_empty_group(ops: &[BodyOp<'_>]) -> bool
    ensures { result ≡ has_empty_group false (map body_view ops.now) }
{
    for index in 1..ops.len() {
        if ends_empty_group(&ops[index - 1], &ops[index]) {
            return true;
        }
    }
    false
}

/// The instructions without groups that are empty or consist of empty groups alone. Where there is none, the list is returned as it is, and takes no
/// memory.
pub fn without_empty_groups<'a>(ops: Vec<BodyOp<'a>>) -> Result<Vec<BodyOp<'a>>, AllocError>
    ensures { IfOk result (λ out. map body_view out.items ≡ trimmed_instructions (map body_view ops.entry.items) []) }
{
    if !has_empty_group(&ops) {
        return Ok(ops);
    }
    let mut out = Vec::with_capacity(*ops.allocator(), ops.len())?;
    for op in &ops {
        append_trimmed(&mut out, *op)?;
    }
    Ok(out)
}

/// Whether an instruction is a movement without a register.
fn is_move(op: &BodyOp<'_>) -> bool
    ensures { result ≡ is_move (body_view op.now) }
{
    matches!(op, BodyOp::Right(_) | BodyOp::Down(_))
}

/// Appends the flag of an instruction, if it is a movement without a register. There is space for it.
#[inline(always)]
fn push_flag(flags: &mut Vec<bool>, op: &BodyOp<'_>, again: bool)
    requires { vec_len flags.old < vec_capacity flags.old }
    ensures flags { (rest : List Instruction) → again ≡ again_in (body_view op.now) rest → reverse flags.old.items ≡ flags_of rest →
        reverse flags.new.items ≡ flags_of (body_view op.now ∷ rest) }
    ensures len { vec_len flags.new ≤ vec_len flags.old + 1 }
    ensures capacity { vec_capacity flags.new ≡ vec_capacity flags.old }
{
    if is_move(op) {
        flags.push_reserved(again);
    }
}

/// For each movement without a register, from the last to the first, whether its amount comes again.
fn which_come_again(alloc: Global, ops: &[BodyOp<'_>]) -> Result<Vec<bool>, AllocError>
    ensures { IfOk result (λ flags. reverse flags.items ≡ flags_of (map body_view ops.now)) }
{
    let mut later = Later::new(alloc);
    let mut flags = Vec::with_capacity(alloc, ops.len())?;
    for i in (0..ops.len()).rev() {
        let again = later.meet(alloc, ops[i])?;
        push_flag(&mut flags, &ops[i], again);
    }
    Ok(flags)
}

/// The state of the last pass: the known register values, those before each open group with the innermost last, and the flags of the movements to
/// come with the next one last.
#[derive(Debug, Drop)]
pub struct RegisterPass {
    pub known: KnownRegisters,
    pub outer: Vec<KnownRegisters>,
    pub flags: Vec<bool>,
}

impl RegisterPass {
    /// Saves the known values at a push, and restores them at a pop.
    fn enter(&mut self, op: BodyOp<'_>) -> Result<(), AllocError>
        ensures groups { OnOk result (known_groups self.new ≡ groups_entered (body_view op.entry) (known_groups self.old)) }
        ensures flags { OnOk result (self.new.flags ≡ self.old.flags) }
    {
        match op {
            BodyOp::Push => {
                self.outer.push(self.known)?;
                Ok(())
            }
            BodyOp::Pop => {
                self.known = self.outer.pop().unwrap_or(KnownRegisters::nothing());
                Ok(())
            }
            _ => Ok(()),
        }
    }

    /// Processes instruction i, and rewrites it in place where it is a movement.
    fn rewrite_op<'a>(&mut self, ops: &mut Vec<BodyOp<'a>>, i: usize) -> Result<(), AllocError>
        requires { i < length ops.old.items }
        ensures { OnOk result (RewritesOp self.old ops.old.items i self.new ops.new.items) }
    {
        let op = ops[i];
        if is_move(&op) {
            let again = self.flags.pop().unwrap_or(false);
            ops[i] = self.known.write(op, again);
            return Ok(());
        }
        self.enter(op)
    }
}

/// The instructions with their movements written with registers, each in its place.
pub fn with_registers<'a>(mut ops: Vec<BodyOp<'a>>) -> Result<Vec<BodyOp<'a>>, AllocError>
    ensures { IfOk result (λ written. map body_view written.items ≡ rewritten_instructions (map body_view ops.entry.items) outside_groups) }
{
    let alloc = *ops.allocator();
    let mut pass = RegisterPass {
        known: KnownRegisters::nothing(),
        outer: Vec::new(alloc),
        flags: which_come_again(alloc, &ops)?,
    };
    for i in 0..ops.len() {
        pass.rewrite_op(&mut ops, i)?;
    }
    Ok(ops)
}
