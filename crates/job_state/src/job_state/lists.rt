//! Lists and paragraphs are opened, and end as boxes or lines.

ghost use Rattle.std.specs.Prelude.{◌≡◌, ◌≤◌, None, Some, IfOk, IfErr, OnOk, OnErr, length};
ghost use Rattle.job_machine.specs.declared.command.Command.TheVariants as commands;
ghost use Rattle.job_state.specs.JobStateView.{before_shipping};
ghost use Rattle.node_core.specs.Nodes.{nodes_of};
ghost use Rattle.job_lists.specs.EmptiedNest.{refilled_nest};
ghost use Rattle.job_machine.specs.State.{innermost, outer};
ghost use Rattle.job_machine.specs.OpenLists.{GoesIntoList};
ghost use Rattle.job_machine.specs.Checks.{checks, first_refusal, home_checks, place_checks};
ghost use Rattle.job_machine.specs.Effects.{with_home};
ghost use Rattle.job_machine.specs.Machine.{reply_to, state_after};
ghost use Rattle.job_machine.specs.Runs.{early_checks};

use super::JobState;
use crate::registers::sizes_of;
use job_lists::open_lists::space_for_box;
use job_machine::{Answer, ListPurpose, Opening, Refusal, Register, Reply};
use node_core::BoxNode;
use node_core::limits::{MAX_DEPTH, MAX_ITEMS, MAX_OPEN_LISTS};
use pack_core::PackedBox;
use std::alloc::AllocError;

impl JobState {
    /// Opens a list. It is refused here if its box would have no list to go to, though that is needed only at its end.
    pub(super) fn open_list(&mut self, opening: Opening) -> Result<Reply, AllocError>
        ensures reply { IfOk result (λ reply. reply ≡ reply_to (before_shipping self.old) (commands.Open opening)) }
        ensures state { OnOk result (before_shipping self.new ≡ state_after (before_shipping self.old) (commands.Open opening)) }
        ensures err { OnErr result (self.new ≡ self.old) }
        ensures admitted { OnErr result (first_refusal (checks (before_shipping self.old) (commands.Open opening)) ≡ None) }
    {
        let count = self.nest.len();
        if opening.into.is_none() && count == 0 {
            return Ok(Err(Refusal::NoOpenList));
        }
        if count >= MAX_OPEN_LISTS {
            return Ok(Err(Refusal::TooDeep));
        }
        self.nest.begin(ListPurpose::Box(opening))?;
        Ok(Ok(Answer::Done))
    }

    /// Opens a paragraph inside a vertical list.
    pub(super) fn open_paragraph(&mut self) -> Result<Reply, AllocError>
        ensures reply { IfOk result (λ reply. reply ≡ reply_to (before_shipping self.old) commands.Paragraph) }
        ensures state { OnOk result (before_shipping self.new ≡ state_after (before_shipping self.old) commands.Paragraph) }
        ensures err { OnErr result (self.new ≡ self.old) }
        ensures admitted { OnErr result (first_refusal (checks (before_shipping self.old) commands.Paragraph) ≡ None) }
    {
        self.nest.open_paragraph()
    }

    /// Ends the innermost list: its box goes into its register or to the end of the enclosing list, or the lines of its paragraph go to the end of
    /// that list. After a refusal the list is open as before, with its items.
    pub(super) fn end(&mut self) -> Result<Reply, AllocError>
        ensures reply { IfOk result (λ reply. reply ≡ reply_to (before_shipping self.old) commands.End) }
        ensures state { OnOk result (before_shipping self.new ≡ state_after (before_shipping self.old) commands.End) }
        ensures err { OnErr result (self.new ≡ self.old) }
        ensures early { OnErr result (first_refusal (early_checks (before_shipping self.old) commands.End) ≡ None) }
        ensures takes { OnErr result (GoesIntoList (innermost self.old.nest)) }
    {
        let Some(innermost) = self.nest.innermost() else {
            return Ok(Err(Refusal::NoOpenList));
        };
        let into = match innermost.purpose {
            ListPurpose::Box(opening) => opening.into,
            ListPurpose::Paragraph => return self.nest.end_paragraph(&self.params),
        };
        let Some(packed) = self.nest.pack(&self.params) else {
            return Ok(Err(Refusal::DimensionTooLarge));
        };
        let PackedBox { box_node, badness } = packed;
        if let Err(refusal) = self.check_place(&into, &box_node) {
            self.nest.refill(box_node.list);
            return Ok(Err(refusal));
        }
        let sizes = sizes_of(&box_node);
        self.put_closed_box(into, box_node)?;
        Ok(Ok(Answer::Packed(sizes, badness)))
    }

    /// Whether the box of the innermost list may go into its register or to the end of the enclosing list; the error says why it may not. Depth is
    /// checked only at `end`, here and for the lines of a paragraph, so each box in a register, a list or a page is at most `MAX_DEPTH` deep.
    fn check_place(&self, into: &Option<Register>, box_node: &BoxNode) -> Result<(), Refusal>
        ensures ok { OnOk result (first_refusal (place_checks self.now.params (outer self.now.nest) into.now box_node.now) ≡ None) }
        ensures err { IfErr result
            (λ refusal. first_refusal (place_checks self.now.params (outer self.now.nest) into.now box_node.now) ≡ Some refusal) }
    {
        if box_node.depth() > MAX_DEPTH {
            return Err(Refusal::TooDeep);
        }
        if into.is_some() {
            return Ok(());
        }
        let Some(around) = self.nest.around() else {
            return Err(Refusal::NoOpenList);
        };
        space_for_box(around, box_node, &self.params)?;
        Ok(())
    }

    /// Closes the innermost list, and puts its box into a register or at the end of the enclosing list. If memory is refused, the list is open
    /// with the items of the box.
    fn put_closed_box(
        &mut self,
        into: Option<Register>,
        box_node: BoxNode,
    ) -> Result<(), AllocError>
        requires free { first_refusal (home_checks self.old.params (outer self.old.nest) into box_node) ≡ None }
        requires list_bounded { length (nodes_of box_node.list) ≤ MAX_ITEMS }
        ensures ok { OnOk result (before_shipping self.new ≡ with_home (before_shipping self.old) (outer self.old.nest) into box_node) }
        ensures err { OnErr result (self.new ≡ record self.old { nest = refilled_nest self.old.nest box_node.list (innermost self.old.nest) }) }
        ensures takes { OnErr result (into ≡ None) }
    {
        let Some(register) = into else {
            return match self.nest.close_into(box_node, &self.params) {
                Ok(()) => Ok(()),
                Err(box_node) => {
                    self.nest.refill(box_node.list);
                    Err(AllocError)
                }
            };
        };
        self.nest.leave();
        self.registers.put(register, Some(box_node));
        Ok(())
    }
}
