//! The known values of the registers w, x, y and z, and the choice of an instruction for a movement.

ghost use Rattle.std.specs.Prelude.{◌≡◌};
ghost use Rattle.dvi_ops.specs.Instruction.{Across, Downward, Do, Move};
ghost use Rattle.dvi_ops.specs.View.{body_view};
ghost use Rattle.move_core.specs.Registers.{nothing_known, choose, other_register};
ghost use Rattle.move_core.specs.Private.Passes.{register_view, step_view, held_view, known_view, op_written, amounts_after};

use dvi_ops::BodyOp;

/// A register of a direction: w or y is the first, x or z the second (DVItype, 14).
#[derive(Clone, Copy, Debug, PartialEq, Eq)]
pub enum MoveRegister {
    First,
    Second,
}

/// The form in which a movement is written.
#[derive(Clone, Copy, Debug, PartialEq, Eq)]
pub enum Movement {
    /// By an amount: right, down.
    By(i32),
    /// By an amount that is stored in a register: w1..4, x1..4, y1..4, z1..4.
    Set(MoveRegister, i32),
    /// By the value of a register: w0, x0, y0, z0.
    Again(MoveRegister),
}

/// The known values of the two registers of a direction, and which register was used last.
#[derive(Clone, Copy, Debug, PartialEq, Eq)]
pub struct RegisterPair {
    pub first: Option<i32>,
    pub second: Option<i32>,
    pub last: MoveRegister,
}

/// The known values of w and x, and of y and z.
#[derive(Clone, Copy, Debug, PartialEq, Eq)]
pub struct KnownRegisters {
    pub across: RegisterPair,
    pub down: RegisterPair,
}

/// The instruction for a movement to the right in this form.
fn across_op(step: Movement) -> BodyOp<'static>
    ensures { body_view result ≡ Do (Move Across (step_view step)) }
{
    match step {
        Movement::By(amount) => BodyOp::Right(amount),
        Movement::Set(MoveRegister::First, amount) => BodyOp::W(amount),
        Movement::Set(MoveRegister::Second, amount) => BodyOp::X(amount),
        Movement::Again(MoveRegister::First) => BodyOp::W0,
        Movement::Again(MoveRegister::Second) => BodyOp::X0,
    }
}

/// The instruction for a movement down in this form.
fn down_op(step: Movement) -> BodyOp<'static>
    ensures { body_view result ≡ Do (Move Downward (step_view step)) }
{
    match step {
        Movement::By(amount) => BodyOp::Down(amount),
        Movement::Set(MoveRegister::First, amount) => BodyOp::Y(amount),
        Movement::Set(MoveRegister::Second, amount) => BodyOp::Z(amount),
        Movement::Again(MoveRegister::First) => BodyOp::Y0,
        Movement::Again(MoveRegister::Second) => BodyOp::Z0,
    }
}

impl MoveRegister {
    /// The other register of the direction.
    fn other(self) -> MoveRegister
        ensures { register_view result ≡ other_register (register_view self) }
    {
        match self {
            MoveRegister::First => MoveRegister::Second,
            MoveRegister::Second => MoveRegister::First,
        }
    }
}

impl RegisterPair {
    /// No value is known, and x or z counts as the register that was used last.
    const NOTHING: RegisterPair = RegisterPair {
        first: None,
        second: None,
        last: MoveRegister::Second,
    };

    /// Chooses the form of a movement by that amount, where `again` is whether the amount comes again in its group. To set a register counts as a use
    /// of it, so the other register is the next one to be set.
    fn choose(&mut self, amount: i32, again: bool) -> Movement
        ensures step { step_view result ≡ (choose (held_view self.old) amount again).step }
        ensures held { held_view self.new ≡ (choose (held_view self.old) amount again).held }
    {
        if self.first == Some(amount) {
            self.last = MoveRegister::First;
            return Movement::Again(MoveRegister::First);
        }
        if self.second == Some(amount) {
            self.last = MoveRegister::Second;
            return Movement::Again(MoveRegister::Second);
        }
        if !again {
            return Movement::By(amount);
        }
        let register = self.last.other();
        match register {
            MoveRegister::First => self.first = Some(amount),
            MoveRegister::Second => self.second = Some(amount),
        }
        self.last = register;
        Movement::Set(register, amount)
    }
}

impl KnownRegisters {
    /// No register value is known.
    pub fn nothing() -> KnownRegisters
        ensures { known_view result ≡ nothing_known }
    {
        KnownRegisters {
            across: RegisterPair::NOTHING,
            down: RegisterPair::NOTHING,
        }
    }

    /// The instruction that is written for an instruction, where `again` is whether it is a movement whose amount comes again.
    pub fn write<'a>(&mut self, op: BodyOp<'a>, again: bool) -> BodyOp<'a>
        ensures op { body_view result ≡ op_written (known_view self.old) (body_view op.entry) again }
        ensures known { known_view self.new ≡ amounts_after (known_view self.old) (body_view op.entry) again }
    {
        match op {
            BodyOp::Right(amount) => across_op(self.across.choose(amount, again)),
            BodyOp::Down(amount) => down_op(self.down.choose(amount, again)),
            other => other,
        }
    }
}
