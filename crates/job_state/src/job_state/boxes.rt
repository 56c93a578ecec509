//! The boxes of the registers: they are appended, unboxed, split, measured and dropped.

ghost use Rattle.std.specs.Prelude.{◌≡◌, ◌≢◌, ◌≤◌, ◌+◌, [], None, IfOk, OnOk, OnErr, IsSome, length, option_copied, slice_set};
ghost use Rattle.job_machine.specs.declared.command.Command.TheVariants as commands;
ghost use Rattle.job_state.specs.JobStateView.{before_shipping};
ghost use Rattle.node_core.specs.Nodes.{nodes_of};
ghost use Rattle.job_machine.specs.State.{innermost, items_in, held_in, nodes_in};
ghost use Rattle.job_machine.specs.Checks.{checks, first_refusal, held_checks};
ghost use Rattle.job_machine.specs.Effects.{with_used, with_unboxed};
ghost use Rattle.job_machine.specs.Machine.{reply_to, state_after};
ghost use Rattle.job_machine.specs.Runs.{LeavesRest};

use super::JobState;
use crate::registers::sizes_of;
use job_lists::open_lists::{space_for_box, space_for_items};
use job_machine::{Answer, AppendBox, Refusal, Register, Reply, Splitting, Transfer, Unboxing};
use node_core::BoxNode;
use node_core::limits::MAX_ITEMS;
use scaled_core::Dimen;
use std::alloc::AllocError;

impl JobState {
    /// Appends the box of a register, moved or copied. A void register adds nothing.
    pub(super) fn append_register_box(&mut self, taken: &AppendBox) -> Result<Reply, AllocError>
        ensures reply { IfOk result (λ reply. reply ≡ reply_to (before_shipping self.old) (commands.Append taken.now)) }
        ensures state { OnOk result (before_shipping self.new ≡ state_after (before_shipping self.old) (commands.Append taken.now)) }
        ensures err { OnErr result (self.new ≡ self.old) }
        ensures admitted { OnErr result (first_refusal (checks (before_shipping self.old) (commands.Append taken.now)) ≡ None) }
        ensures takes { OnErr result (IsSome (held_in self.old.registers taken.now.register)) }
    {
        let Some(innermost) = self.nest.innermost() else {
            return Ok(Err(Refusal::NoOpenList));
        };
        let Some(box_node) = self.registers.get(taken.register) else {
            return Ok(Ok(Answer::Added(0)));
        };
        let count = match space_for_box(innermost, box_node, &self.params) {
            Ok(count) => count,
            Err(refusal) => return Ok(Err(refusal)),
        };
        match taken.taking {
            Transfer::Move => self.move_box(taken.register, taken.shift)?,
            Transfer::Copy => self.copy_box(taken.register, taken.shift)?,
        }
        Ok(Ok(Answer::Added(count)))
    }

    /// Moves the box of a register to the end of the innermost list, if the checks admit it there. The box is put back if memory is refused.
    fn move_box(&mut self, register: Register, shift: Dimen) -> Result<(), AllocError>
        requires { first_refusal (held_checks self.old.params (innermost self.old.nest) (held_in self.old.registers register)) ≡ None }
        ensures ok { OnOk result (before_shipping self.new ≡ with_used (before_shipping self.old) Transfer.Move register shift
            (held_in self.old.registers register)) }
        ensures err { OnErr result (self.new ≡ self.old) }
    {
        let Some(box_node) = self.registers.take(register) else {
            return Ok(());
        };
        match self.nest.append_to_innermost(box_node, shift, &self.params) {
            Ok(()) => Ok(()),
            Err(box_node) => {
                self.registers.put(register, Some(box_node));
                Err(AllocError)
            }
        }
    }

    /// Appends a copy of the box of a register to the innermost list, if the checks admit it there. The copy is made before anything else is touched.
    fn copy_box(&mut self, register: Register, shift: Dimen) -> Result<(), AllocError>
        requires { first_refusal (held_checks self.old.params (innermost self.old.nest) (held_in self.old.registers register)) ≡ None }
        ensures ok { OnOk result (before_shipping self.new ≡ with_used (before_shipping self.old) Transfer.Copy register shift
            (held_in self.old.registers register)) }
        ensures err { OnErr result (self.new ≡ self.old) }
    {
        let Some(box_node) = self.registers.get(register) else {
            return Ok(());
        };
        let copy = box_node.copy(*self.files.allocator())?;
        match self.nest.append_to_innermost(copy, shift, &self.params) {
            Ok(()) => Ok(()),
            Err(_) => Err(AllocError),
        }
    }

    /// Appends the items of the box of a register, moved or copied. If there are none, it takes no memory.
    pub(super) fn unbox(&mut self, taken: &Unboxing) -> Result<Reply, AllocError>
        ensures reply { IfOk result (λ reply. reply ≡ reply_to (before_shipping self.old) (commands.Unbox taken.now)) }
        ensures state { OnOk result (before_shipping self.new ≡ state_after (before_shipping self.old) (commands.Unbox taken.now)) }
        ensures err { OnErr result (self.new ≡ self.old) }
        ensures admitted { OnErr result (first_refusal (checks (before_shipping self.old) (commands.Unbox taken.now)) ≡ None) }
        ensures takes { OnErr result (nodes_in (held_in self.old.registers taken.now.register) ≢ []) }
    {
        let Some(innermost) = self.nest.innermost() else {
            return Ok(Err(Refusal::NoOpenList));
        };
        let held = self.registers.get(taken.register);
        let count = match space_for_items(innermost, taken.kind, held) {
            Ok(count) => count,
            Err(refusal) => return Ok(Err(refusal)),
        };
        match taken.taking {
            Transfer::Move => self.move_items(taken.register)?,
            Transfer::Copy => self.copy_items(taken.register)?,
        }
        Ok(Ok(Answer::Added(count)))
    }

    /// Moves the items of the box of a register to the end of the innermost list, which has space for them. The box is put back if memory is refused.
    fn move_items(&mut self, register: Register) -> Result<(), AllocError>
        requires { length (nodes_of (items_in (innermost self.old.nest))) + length (nodes_in (held_in self.old.registers register)) ≤ MAX_ITEMS }
        ensures ok { OnOk result (before_shipping self.new ≡ with_unboxed (before_shipping self.old) Transfer.Move register
            (held_in self.old.registers register)) }
        ensures err { OnErr result (self.new ≡ self.old) }
        ensures takes { OnErr result (nodes_in (held_in self.old.registers register) ≢ []) }
    {
        let Some(mut box_node) = self.registers.take(register) else {
            return Ok(());
        };
        match self.nest.append_list(&mut box_node.list) {
            Ok(()) => Ok(()),
            Err(AllocError) => {
                self.registers.put(register, Some(box_node));
                Err(AllocError)
            }
        }
    }

    /// Appends copies of the items of the box of a register to the innermost list, which has space for them.
    fn copy_items(&mut self, register: Register) -> Result<(), AllocError>
        requires { length (nodes_of (items_in (innermost self.old.nest))) + length (nodes_in (held_in self.old.registers register)) ≤ MAX_ITEMS }
        ensures ok { OnOk result (before_shipping self.new ≡ with_unboxed (before_shipping self.old) Transfer.Copy register
            (held_in self.old.registers register)) }
        ensures err { OnErr result (self.new ≡ self.old) }
        ensures takes { OnErr result (nodes_in (held_in self.old.registers register) ≢ []) }
    {
        let Some(box_node) = self.registers.get(register) else {
            return Ok(());
        };
        if box_node.list.is_empty() {
            return Ok(());
        }
        let mut copy = box_node.list.copy(*self.files.allocator())?;
        self.nest.append_list(&mut copy)
    }

    /// Takes the last item of the innermost list into a register, if it is a box. Otherwise the register becomes void. Interline glue before the box
    /// is an item of its own and stays, and the previous depth is still that of the last box that was appended (as in TeX).
    pub(super) fn last_box(&mut self, register: Register) -> Reply
        ensures reply { result ≡ reply_to (before_shipping self.old) (commands.LastBox register) }
        ensures state { before_shipping self.new ≡ state_after (before_shipping self.old) (commands.LastBox register) }
    {
        if self.nest.len() == 0 {
            return Err(Refusal::NoOpenList);
        }
        let last = self.nest.pop_box();
        self.registers.put(register, last);
        Ok(Answer::Done)
    }

    /// Splits the vbox of a register: the rest goes back into it, and then the front into the other one. Only a split that leaves a rest takes
    /// memory.
    pub(super) fn split(&mut self, splitting: &Splitting) -> Result<Reply, AllocError>
        ensures reply { IfOk result (λ reply. reply ≡ reply_to (before_shipping self.old) (commands.Split splitting.now)) }
        ensures state { OnOk result (before_shipping self.new ≡ state_after (before_shipping self.old) (commands.Split splitting.now)) }
        ensures err { OnErr result (self.new ≡ self.old) }
        ensures admitted { OnErr result (first_refusal (checks (before_shipping self.old) (commands.Split splitting.now)) ≡ None) }
        ensures takes { OnErr result (LeavesRest self.old.params.split splitting.now.height (held_in self.old.registers splitting.now.register)) }
    {
        self.registers.split(splitting, &self.params.split)
    }

    /// Reports the kind and the sizes of the box in a register.
    pub(super) fn measure(&self, register: Register) -> Reply
        ensures reply { result ≡ reply_to (before_shipping self.now) (commands.Measure register) }
        ensures state { before_shipping self.now ≡ state_after (before_shipping self.now) (commands.Measure register) }
    {
        match self.registers.get(register) {
            None => Ok(Answer::MeasuredVoid),
            Some(held) => Ok(Answer::Measured(held.kind, sizes_of(held))),
        }
    }

    /// Drops the box of a register, which is then void.
    pub fn empty(&mut self, register: Register)
        ensures { self.new ≡ record self.old { registers = slice_set self.old.registers register None } }
    {
        self.registers.put(register, None);
    }

    /// The command that makes a register void.
    pub(super) fn void(&mut self, register: Register) -> Reply
        ensures reply { result ≡ reply_to (before_shipping self.old) (commands.Void register) }
        ensures state { before_shipping self.new ≡ state_after (before_shipping self.old) (commands.Void register) }
    {
        self.empty(register);
        Ok(Answer::Done)
    }

    /// The box in a register; None if it is void.
    pub fn box_in(&self, register: Register) -> Option<&BoxNode>
        ensures { option_copied result ≡ held_in self.now.registers register }
    {
        self.registers.get(register)
    }
}
