//! The box registers of a job.

ghost use Rattle.std.specs.Prelude.{◌≡◌, ◌≢◌, None, IfOk, OnOk, OnErr, option_copied, replicate, slice_set};
ghost use Rattle.job_machine.specs.State.{held_in};
ghost use Rattle.job_machine.specs.Checks.{split_checks, first_refusal};
ghost use Rattle.job_machine.specs.Answers.{sizes_of, parts_answer, split_answer};
ghost use Rattle.job_machine.specs.Effects.{with_parts, with_split};
ghost use Rattle.job_machine.specs.Machine.{reply_by, state_by};
ghost use Rattle.job_machine.specs.Runs.{LeavesRest};
ghost use Rattle.vert_core.specs.Tails.{AreTailsOfRest};
ghost use Rattle.job_state.specs.Private.Registers.{HasTails};

use crate::splits::split_box;
use crate::table::Table;
use job_machine::{Answer, Register, Reply, Sizes, Splitting};
use node_core::limits::REGISTERS;
use node_core::{BoxNode, SplitParams};
use std::alloc::{AllocError, Global};
use std::marker::Model;
use vert_core::{Split, Tails};

/// What each register holds: a box, or nothing.
#[derive(Debug, Drop)]
pub struct Registers {
    table: Table,
    /// The number of the register with the rest of a split.
    split: usize,
    /// The tails of the list of the box in that register, if they are known. They are dropped as soon as the register gets another box.
    tails: Option<Tails>,
}

impl Model for Registers {
    ghost use Rattle.std.specs.Prelude.{List, Option};
    ghost use Rattle.std.specs.Coded.{coded_list, coded_option};
    ghost use Rattle.node_core.specs.declared.tree.BoxNode.{BoxNode};
    ghost use Rattle.node_core.specs.contracts.tree.BoxNode as box_node;
    ghost use Rattle.job_machine.specs.State.{held_in};
    ghost use Rattle.job_state.specs.Private.Registers.{HasTails};

    ghost Value = { List (Option BoxNode) };

    ghost coded = { coded_list (coded_option box_node.the_row.coded) };

    ghost view = { λ registers. registers.table };

    ghost invariant = { λ registers. HasTails registers.tails (held_in registers.table registers.split) };
}

impl Registers {
    /// Makes all registers void, and takes space for all of them. Its one error is a refused growth.
    pub fn new(alloc: Global) -> Result<Registers, AllocError>
        ensures { IfOk result (λ registers. registers ≡ replicate REGISTERS None) }
    {
        let table = Table::new(alloc)?;
        Ok(Registers {
            table,
            split: 0,
            tails: None,
        })
    }

    /// The box in a register; None if it is void.
    pub fn get(&self, register: Register) -> Option<&BoxNode>
        ensures { option_copied result ≡ held_in self.now register }
    {
        self.table.get(register)
    }

    /// Takes the box out of a register, which is then void.
    pub fn take(&mut self, register: Register) -> Option<BoxNode>
        ensures value { result ≡ held_in self.old register }
        ensures void { self.new ≡ slice_set self.old register None }
    {
        forget_tails(&mut self.tails, self.split, register);
        self.table.take(register)
    }

    /// Puts a box into a register, or makes it void.
    pub fn put(&mut self, register: Register, held: Option<BoxNode>)
        ensures { self.new ≡ slice_set self.old register held }
    {
        forget_tails(&mut self.tails, self.split, register);
        self.table.put(register, held);
    }

    /// Takes the tails of the list in a register, if they are known.
    fn take_tails(&mut self, register: Register) -> Option<Tails>
        ensures tails { HasTails result (held_in self.old register) }
        ensures state { self.new ≡ self.old }
    {
        if register.number() == self.split {
            self.tails.take()
        } else {
            None
        }
    }

    /// Puts a box back into the register that was split, or makes it void, with the tails of its list, if they are known.
    fn put_back(&mut self, register: Register, held: Option<BoxNode>, tails: Option<Tails>)
        requires { HasTails tails held }
        ensures { self.new ≡ slice_set self.old register held }
    {
        forget_tails(&mut self.tails, self.split, register);
        self.table.put(register, held);
        if tails.is_some() {
            self.split = register.number();
            self.tails = tails;
        }
    }

    /// Puts the rest of a split box back into its register, and then the front into the other one. In this order the front stays if both are the same
    /// register.
    fn put_parts(&mut self, splitting: &Splitting, parts: Split) -> Answer
        requires { AreTailsOfRest parts.tails parts.rest }
        ensures answer { result ≡ parts_answer parts.front parts.rest }
        ensures parts { self.new ≡ with_parts self.old splitting.now parts.front parts.rest }
    {
        let Split { front, rest, tails } = parts;
        let answer = Answer::Split {
            front: sizes_of(&front.box_node),
            badness: front.badness,
            rest: rest.as_ref().map(|rest| sizes_of(&rest.box_node)),
        };
        self.put_back(splitting.register, rest.map(|rest| rest.box_node), tails);
        self.put(splitting.into, Some(front.box_node));
        answer
    }

    /// Splits the vbox of a register: the rest goes back into it, and then the front into the other register. If the register is void, the other one
    /// becomes void too.
    ///
    /// Refusals: WrongKind for an hbox, InfiniteShrink for a list that has infinitely shrinkable glue, DimensionTooLarge for a size or total that
    /// does not fit. The error is a refused growth, which only a split that leaves a rest can meet. After a refusal or the error all registers are as
    /// before: both parts are planned before anything moves, and the front keeps the memory of the list.
    pub fn split(
        &mut self,
        splitting: &Splitting,
        params: &SplitParams,
    ) -> Result<Reply, AllocError>
        ensures reply { IfOk result
            (λ reply. reply ≡ reply_by (first_refusal (split_checks params.now splitting.now.height (held_in self.old splitting.now.register)))
            (split_answer params.now splitting.now.height (held_in self.old splitting.now.register))) }
        ensures state { OnOk result
            (self.new ≡ state_by (first_refusal (split_checks params.now splitting.now.height (held_in self.old splitting.now.register))) self.old
            (with_split params.now self.old splitting.now (held_in self.old splitting.now.register))) }
        ensures err { OnErr result (self.new ≡ self.old) }
        ensures admitted { OnErr result (first_refusal (split_checks params.now splitting.now.height (held_in self.old splitting.now.register))
            ≡ None) }
        ensures takes { OnErr result (LeavesRest params.now splitting.now.height (held_in self.old splitting.now.register)) }
    {
        let tails = self.take_tails(splitting.register);
        let Some(box_node) = self.take(splitting.register) else {
            self.put(splitting.into, None);
            return Ok(Ok(Answer::SplitVoid));
        };
        match split_box(box_node, tails, splitting.height, params) {
            Ok(parts) => Ok(Ok(self.put_parts(splitting, parts))),
            Err(unsplit) => {
                self.put_back(splitting.register, Some(unsplit.box_node), unsplit.tails);
                match unsplit.refusal {
                    Some(refusal) => Ok(Err(refusal)),
                    None => Err(AllocError),
                }
            }
        }
    }
}

/// Drops the tails if they are those of the list in this register.
fn forget_tails(tails: &mut Option<Tails>, split: usize, register: Register)
    ensures gone { split ≡ register → tails.new ≡ None }
    ensures kept { split ≢ register → tails.new ≡ tails.old }
{
    if register.number() == split {
        *tails = None;
    }
}

/// The sizes of a box, in scaled points.
pub fn sizes_of(box_node: &BoxNode) -> Sizes
    ensures { result ≡ sizes_of box_node.now }
{
    Sizes {
        width: box_node.width,
        height: box_node.height,
        depth: box_node.depth,
    }
}
