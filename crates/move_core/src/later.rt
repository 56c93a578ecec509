//! The amounts that come later, in a pass over the instructions of a page from the last to the first.

ghost use Rattle.std.specs.Prelude.{◌≡◌, ◌∷◌, [], List, ℤ, false, IfOk};
ghost use Rattle.dvi_ops.specs.Instruction.{Axis, Instruction};
ghost use Rattle.dvi_ops.specs.View.{body_view};
ghost use Rattle.move_core.specs.Private.Passes.{Knows, again_in, contains_amount};

use crate::amount_set::AmountSet;
use dvi_ops::BodyOp;
use std::alloc::{AllocError, Global};
use std::mem::replace;

/// The amounts of movements, to the right and down.
#[derive(Debug, Drop)]
pub struct Amounts {
    pub across: AmountSet,
    pub down: AmountSet,
}

impl Amounts {
    /// Empty sets.
    fn new(alloc: Global) -> Amounts
        ensures { (axis : Axis) (n : ℤ) → contains_amount result axis n ≡ false }
    {
        Amounts {
            across: AmountSet::new(alloc),
            down: AmountSet::new(alloc),
        }
    }
}

/// The amounts that come later in the current group, and those after it in each enclosing group, the innermost last. The pass goes backward, so a pop
/// enters a group and a push leaves it.
#[derive(Debug, Drop)]
pub struct Later {
    pub here: Amounts,
    pub outer: Vec<Amounts>,
}

impl Later {
    /// The state after all instructions.
    pub fn new(alloc: Global) -> Later
        ensures { Knows result [] }
    {
        Later {
            here: Amounts::new(alloc),
            outer: Vec::new(alloc),
        }
    }

    /// Passes one more instruction, from the end to the start, and returns whether it is a movement whose amount comes again in its group. The given
    /// body decides this, before any movement is written with a register; so flags do not depend on which registers are in use.
    pub fn meet(&mut self, alloc: Global, op: BodyOp<'_>) -> Result<bool, AllocError>
        ensures again { IfOk result (λ again. (rest : List Instruction) → Knows self.old rest → again ≡ again_in (body_view op.entry) rest) }
        ensures knows { IfOk result (λ again. (rest : List Instruction) → Knows self.old rest → Knows self.new (body_view op.entry ∷ rest)) }
    {
        match op {
            BodyOp::Right(amount) => Ok(!self.here.across.insert(amount)?),
            BodyOp::Down(amount) => Ok(!self.here.down.insert(amount)?),
            BodyOp::Pop => {
                let after = replace(&mut self.here, Amounts::new(alloc));
                self.outer.push(after)?;
                Ok(false)
            }
            BodyOp::Push => {
                self.here = self.outer.pop().unwrap_or(Amounts::new(alloc));
                Ok(false)
            }
            _ => Ok(false),
        }
    }
}
