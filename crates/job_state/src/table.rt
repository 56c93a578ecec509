//! The table of the box registers.

ghost use Rattle.std.specs.Prelude.{◌≡◌, ◌<◌, ◌≤◌, ◌-◌, ◌++◌, ◌∷◌, [], None, Some, IfOk, length, option_copied, replicate, slice_set};
ghost use Rattle.std.specs.Prelude.{vec_capacity};
ghost use Rattle.job_machine.specs.State.{held_in};

use job_machine::Register;
use node_core::BoxNode;
use node_core::limits::REGISTERS;
use std::alloc::{AllocError, Global};
use std::marker::Model;

/// What each register holds: a box, or nothing.
#[derive(Debug, Drop)]
pub struct Table {
    /// The registers up to the highest that has held a box: those above hold nothing. There is space for all, so that no call but `new` takes memory.
    used: Vec<Option<BoxNode>>,
}

impl Model for Table {
    ghost use Rattle.std.specs.Prelude.{◌≤◌, List, Option, vec_capacity};
    ghost use Rattle.std.specs.Coded.{coded_list, coded_option};
    ghost use Rattle.node_core.specs.declared.tree.BoxNode.{BoxNode};
    ghost use Rattle.node_core.specs.contracts.tree.BoxNode as box_node;
    ghost use Rattle.node_core.specs.declared.limits.TheConstants.{REGISTERS};
    ghost use Rattle.job_state.specs.Private.Registers.{filled_up};

    ghost Value = { List (Option BoxNode) };

    ghost coded = { coded_list (coded_option box_node.the_row.coded) };

    ghost view = { λ table. filled_up REGISTERS table.used.items };

    ghost invariant = { λ table. REGISTERS ≤ vec_capacity table.used };
}

impl Table {
    /// Makes all registers void. It takes space for all of them, 2.3 MB, once: a table that asks for more could run out of memory at each `end`.
    /// The space is not written before it is used, so that a job of few registers stays small.
    ///
    /// Its one error is a refused growth.
    pub fn new(alloc: Global) -> Result<Table, AllocError>
        ensures { IfOk result (λ table. table ≡ replicate REGISTERS None) }
    {
        let used = Vec::with_capacity(alloc, REGISTERS)?;
        Ok(Table { used })
    }

    /// The box in a register; None if it is void.
    pub fn get(&self, register: Register) -> Option<&BoxNode>
        ensures { option_copied result ≡ held_in self.now register }
    {
        let number = register.number();
        if number < self.used.len() {
            self.used[number].as_ref()
        } else {
            None
        }
    }

    /// Takes the box out of a register, which is then void.
    pub fn take(&mut self, register: Register) -> Option<BoxNode>
        ensures value { result ≡ held_in self.old register }
        ensures void { self.new ≡ slice_set self.old register None }
    {
        let number = register.number();
        if number < self.used.len() {
            self.used[number].take()
        } else {
            None
        }
    }

    /// Puts a box into a register, or makes it void.
    #[tactic(auto, using(crate::proofs::Tables::filled_long))]
    pub fn put(&mut self, register: Register, held: Option<BoxNode>)
        ensures table { self.new ≡ slice_set self.old register held }
        // The register is one of the table.
        ensures long { REGISTERS ≤ length self.new }
    {
        let number = register.number();
        if number < self.used.len() {
            self.used[number] = held;
        } else if let Some(box_node) = held {
            put_above(&mut self.used, number, box_node);
        }
    }
}

/// Puts a box above all used registers, in space that is there.
fn put_above(used: &mut Vec<Option<BoxNode>>, number: usize, box_node: BoxNode)
    requires above { length used.old.items ≤ number }
    requires space { number < vec_capacity used.old }
    ensures items { used.new.items ≡ used.old.items ++ (replicate (number - length used.old.items) None ++ Some box_node ∷ []) }
    ensures capacity { vec_capacity used.new ≡ vec_capacity used.old }
{
    for _ in used.len()..number {
        used.push_reserved(None);
    }
    used.push_reserved(Some(box_node));
}
