//! The open lists of a job: a stack, of which commands change the innermost list and, where one closes, the list around it.

ghost use Rattle.std.specs.Prelude.{◌≡◌, ◌<◌, ◌≤◌, ◌+◌, ◌++◌, ◌∷◌, [], pos, length, None, ◌≢◌, Ok, Err, OnOk, OnErr, IfOk, IfErr, IfSome, IsSome};
ghost use Rattle.std.specs.Prelude.{Some, option_copied};
ghost use Rattle.node_core.specs.Nodes.{nodes_of, last_box};
ghost use Rattle.job_machine.specs.State.{innermost, items_in, outer};
ghost use Rattle.job_machine.specs.OpenLists.{opened_list, packed_list};
ghost use Rattle.job_machine.specs.Checks.{box_checks, first_refusal};
ghost use Rattle.job_machine.specs.Effects.{with_nodes, with_rule, with_box, without_last};
ghost use Rattle.job_lists.specs.EmptiedNest.{emptied_nest, refilled_nest};
ghost use Rattle.job_lists.specs.Private.Lending.{LendsInnermost};
ghost use Rattle.job_lists.specs.Private.EndedParagraphs.{IsEnded, IsRefused};
ghost use Rattle.std.specs.Borrow.{sem};

use crate::open_lists::{append_lines, append_with_glue, pack};
use job_machine::{ListPurpose, OpenList};
use node_core::limits::{MAX_ITEMS, MAX_OPEN_LISTS};
use node_core::{BoxNode, Node, NodeList, Params, Rule};
use pack_core::PackedBox;
use scaled_core::Dimen;
use smallvec::SmallVec;
use std::alloc::{AllocError, Global};
use std::marker::Model;
use std::mem::replace;
use vert_core::{AppendedParagraph, UnappendedLines};

/// The innermost of these lists, mutably. It takes the lists and not the `Nest`, whose invariant a lent list would have to keep.
fn innermost_of(lists: &mut SmallVec<OpenList, 4>) -> Option<&mut OpenList>
    ensures* writes_back { sem 𝓛 (LendsInnermost lists.entry result) }
    ensures list_lent { IfSome result (λ lent. innermost lists.old.items ≡ Some lent.now) }
    ensures none { result ≡ None → innermost lists.old.items ≡ None }
{
    let last = lists.len().saturating_sub(1);
    lists.get_mut(last)
}

/// The open lists, the outermost first: at most `MAX_OPEN_LISTS`, and in each at most `MAX_ITEMS` items.
#[derive(Debug, Drop)]
pub struct Nest {
    /// Most jobs open few lists at once: four of them need no allocation.
    lists: SmallVec<OpenList, 4>,
    /// An empty list that has the allocation of the last closed paragraph, for the next one.
    spare: NodeList,
}

impl Model for Nest {
    ghost use Rattle.std.specs.Prelude.{List, ◌≡◌, ◌≤◌, length};
    ghost use Rattle.std.specs.Coded.{coded_list};
    ghost use Rattle.node_core.specs.Items.{none};
    ghost use Rattle.job_machine.specs.declared.OpenList.{OpenList};
    ghost use Rattle.job_machine.specs.contracts.OpenList as open_list;
    ghost use Rattle.node_core.specs.declared.limits.TheConstants.{MAX_OPEN_LISTS};
    ghost use Rattle.job_lists.specs.Private.BoundedLists.{AreBounded};

    ghost Value = { List OpenList };

    ghost coded = { coded_list open_list.the_row.coded };

    ghost view = { λ nest. nest.lists.items };

    ghost invariant = { λ nest. (length nest.lists.items ≤ MAX_OPEN_LISTS) × AreBounded nest.lists.items × (nest.spare ≡ none) };
}

impl Nest {
    /// A nest without an open list. It takes no memory.
    pub fn new(alloc: Global) -> Nest
        ensures { result ≡ [] }
    {
        Nest {
            lists: SmallVec::new(alloc),
            spare: NodeList::new(alloc),
        }
    }

    /// How many lists are open.
    pub fn len(&self) -> usize
        ensures value { result ≡ length self.now }
        ensures lists_bounded { length self.now ≤ MAX_OPEN_LISTS }
    {
        self.lists.len()
    }

    /// The innermost open list.
    #[tactic(auto, using(crate::proofs::BoundedLists::innermost_bounded))]
    pub fn innermost(&self) -> Option<&OpenList>
        ensures value { option_copied result ≡ innermost self.now }
        ensures items_bounded { length (nodes_of (items_in (innermost self.now))) ≤ MAX_ITEMS }
    {
        self.lists.last()
    }

    /// Opens an empty list inside the others. Where memory is refused, nothing changes.
    pub fn begin(&mut self, purpose: ListPurpose) -> Result<(), AllocError>
        requires { length self.old < MAX_OPEN_LISTS }
        ensures ok { OnOk result (self.new ≡ self.old ++ opened_list purpose ∷ []) }
        ensures err { OnErr result (self.new ≡ self.old) }
    {
        let mut list = NodeList::new(*self.lists.allocator());
        if purpose == ListPurpose::Paragraph {
            list = replace(&mut self.spare, list);
        }
        self.lists.push(OpenList {
            purpose,
            list,
            previous_depth: Dimen::IGNORE_DEPTH,
        })?;
        Ok(())
    }

    /// Appends a node to the innermost list. If no list is open, nothing changes, as `with_nodes` says: the machine refuses every such command with
    /// `NoOpenList`, and callers have tested that before. If memory is refused, nothing changes either.
    #[tactic(auto, using(job_machine::proofs::States::same_innermost))]
    pub fn append(&mut self, node: Node) -> Result<(), AllocError>
        requires { length (nodes_of (items_in (innermost self.old))) < MAX_ITEMS }
        ensures ok { OnOk result (self.new ≡ with_nodes self.old (node ∷ []) (innermost self.old)) }
        ensures err { OnErr result (self.new ≡ self.old) }
    {
        let Some(innermost) = innermost_of(&mut self.lists) else {
            return Ok(());
        };
        // Not `?`: the check stops at it here, as it "was not told which modules hold the type" of the error.
        match innermost.list.push(node) {
            Ok(()) => Ok(()),
            Err(_) => Err(AllocError),
        }
    }

    /// Appends a rule to the innermost list. No glue is computed for a box after a rule, so the previous depth is then ignored.
    /// If no list is open, nothing changes, as in `append`, or if memory is refused.
    #[tactic(auto, using(job_machine::proofs::States::same_innermost))]
    pub fn append_rule(&mut self, rule: Rule) -> Result<(), AllocError>
        requires { length (nodes_of (items_in (innermost self.old))) < MAX_ITEMS }
        ensures ok { OnOk result (self.new ≡ with_rule self.old rule (innermost self.old)) }
        ensures err { OnErr result (self.new ≡ self.old) }
    {
        let Some(innermost) = innermost_of(&mut self.lists) else {
            return Ok(());
        };
        match innermost.list.push(Node::Rule(rule)) {
            Ok(()) => {
                innermost.previous_depth = Dimen::IGNORE_DEPTH;
                Ok(())
            }
            Err(_) => Err(AllocError),
        }
    }

    /// Moves the nodes of another list, in order, to the end of the innermost one. Where a list is open, the other list is then empty. An empty list
    /// takes no memory. Where memory is refused, both lists are unchanged.
    #[tactic(auto, using(job_machine::proofs::States::same_innermost, job_machine::proofs::States::none_added, crate::proofs::Nests::some_nodes, crate::proofs::Nests::no_nodes))]
    pub fn append_list(&mut self, list: &mut NodeList) -> Result<(), AllocError>
        requires { length (nodes_of (items_in (innermost self.old))) + length (nodes_of list.old) ≤ MAX_ITEMS }
        ensures ok { OnOk result (self.new ≡ with_nodes self.old (nodes_of list.old) (innermost self.old)) }
        ensures emptied { OnOk result (IsSome (innermost self.old) → nodes_of list.new ≡ []) }
        ensures err { OnErr result (self.new ≡ self.old) }
        ensures list_returned { OnErr result (list.new ≡ list.old) }
        ensures takes { OnErr result (nodes_of list.old ≢ []) }
    {
        if list.is_empty() {
            return Ok(());
        }
        let Some(innermost) = innermost_of(&mut self.lists) else {
            return Ok(());
        };
        innermost.list.append(list)
    }

    /// Appends a box to the innermost list, after the glue before it. Where memory is refused, the box comes back and nothing changes.
    #[tactic(auto, using(job_machine::proofs::States::same_innermost, crate::proofs::BoundedLists::bounded_with_box))]
    pub fn append_to_innermost(
        &mut self,
        box_node: BoxNode,
        shift: Dimen,
        params: &Params,
    ) -> Result<(), BoxNode>
        requires { first_refusal (box_checks params.now (innermost self.old) box_node) ≡ None }
        ensures ok { OnOk result (self.new ≡ with_box params.now self.old shift box_node (innermost self.old)) }
        ensures err { OnErr result (self.new ≡ self.old) }
        ensures box_returned { IfErr result (λ back. back ≡ box_node) }
    {
        let Some(innermost) = innermost_of(&mut self.lists) else {
            unreachable!()
        };
        append_with_glue(innermost, box_node, shift, params)
    }

    /// Removes the last item of the innermost list and returns it, if it is a box. The glue before it stays, and so does the previous depth.
    pub fn pop_box(&mut self) -> Option<BoxNode>
        ensures value { result ≡ last_box (nodes_of (items_in (innermost self.old))) }
        ensures last_removed { self.new ≡ without_last self.old (innermost self.old) }
    {
        let Some(innermost) = innermost_of(&mut self.lists) else {
            return None;
        };
        innermost.list.pop_box()
    }

    /// The box of the innermost list, which is then empty. None where no list is open or a size does not fit, and then nothing changes.
    #[tactic(auto, using(job_machine::proofs::States::same_innermost))]
    pub fn pack(&mut self, params: &Params) -> Option<PackedBox>
        ensures value { result ≡ packed_list params.now (innermost self.old) }
        ensures emptied { IfSome result (λ packed. self.new ≡ emptied_nest self.old (innermost self.old)) }
        ensures none { result ≡ None → self.new ≡ self.old }
        ensures list { IfSome result (λ packed. packed.box_node.list ≡ items_in (innermost self.old)) }
        ensures list_bounded { IfSome result (λ packed. length (nodes_of packed.box_node.list) ≤ MAX_ITEMS) }
    {
        let alloc = *self.lists.allocator();
        let Some(innermost) = innermost_of(&mut self.lists) else {
            return None;
        };
        pack(innermost, alloc, params)
    }

    /// Takes the items of the innermost list, which is then empty, in the vector that it kept. It takes no memory.
    #[tactic(auto, using(crate::proofs::BoundedLists::innermost_bounded))]
    pub fn take_items(&mut self) -> Vec<Node>
        ensures items { result.items ≡ nodes_of (items_in (innermost self.old)) }
        ensures emptied { self.new ≡ emptied_nest self.old (innermost self.old) }
        ensures list_bounded { length result.items ≤ MAX_ITEMS }
    {
        let alloc = *self.lists.allocator();
        let Some(innermost) = innermost_of(&mut self.lists) else {
            return Vec::new(alloc);
        };
        replace(&mut innermost.list, NodeList::new(alloc)).into_vec()
    }

    /// Replaces the items of the innermost list.
    pub fn refill(&mut self, list: NodeList)
        requires { length (nodes_of list) ≤ MAX_ITEMS }
        ensures { self.new ≡ refilled_nest self.old list (innermost self.old) }
    {
        let Some(innermost) = innermost_of(&mut self.lists) else {
            return;
        };
        innermost.list = list;
    }

    /// Drops the innermost list.
    pub fn leave(&mut self)
        ensures { self.new ≡ outer self.old }
    {
        let _ = self.lists.pop();
    }

    /// The list around the innermost one.
    pub fn around(&self) -> Option<&OpenList>
        ensures { option_copied result ≡ innermost (outer self.now) }
    {
        let count = self.lists.len();
        if count < 2 {
            return None;
        }
        self.lists.get(count - 2)
    }

    /// Appends a box to the list around the innermost one, and drops the innermost one.
    /// Where memory is refused, the box comes back and nothing changes.
    #[tactic(auto, using(crate::proofs::BoundedLists::bounded_with_box))]
    pub fn close_into(&mut self, box_node: BoxNode, params: &Params) -> Result<(), BoxNode>
        requires { first_refusal (box_checks params.now (innermost (outer self.old)) box_node) ≡ None }
        ensures ok { OnOk result (self.new ≡ with_box params.now (outer self.old) (pos 0) box_node (innermost (outer self.old))) }
        ensures err { OnErr result (self.new ≡ self.old) }
        ensures box_returned { IfErr result (λ back. back ≡ box_node) }
    {
        let count = self.lists.len();
        if count < 2 {
            unreachable!()
        }
        let Some(around) = self.lists.get_mut(count - 2) else {
            unreachable!()
        };
        append_with_glue(around, box_node, Dimen::ZERO, params)?;
        let _ = self.lists.pop();
        Ok(())
    }

    /// Sets the paragraph of the innermost list, appends its lines to the list around it, and drops the innermost list, whose allocation is kept for
    /// the next paragraph. Where the lines are not appended, nothing changes.
    #[tactic(auto, using(crate::proofs::BoundedLists::innermost_bounded))]
    pub(crate) fn append_paragraph(
        &mut self,
        params: &Params,
    ) -> Result<AppendedParagraph, UnappendedLines>
        requires { IsSome (innermost (outer self.old)) }
        ensures ok { IfOk result (IsEnded params.now (outer self.old) (items_in (innermost self.old)) self.new) }
        ensures refused { IfErr result (IsRefused params.now (outer self.old) (items_in (innermost self.old))) }
        ensures err { OnErr result (self.new ≡ self.old) }
    {
        let alloc = *self.lists.allocator();
        let count = self.lists.len();
        if count < 2 {
            unreachable!()
        }
        let mut items = NodeList::from_vec(self.take_items());
        let Some(around) = self.lists.get_mut(count - 2) else {
            unreachable!()
        };
        match append_lines(around, &mut items, alloc, params) {
            Ok(appended) => {
                self.spare = items;
                let _ = self.lists.pop();
                Ok(appended)
            }
            Err(unappended) => {
                self.refill(items);
                Err(unappended)
            }
        }
    }
}
