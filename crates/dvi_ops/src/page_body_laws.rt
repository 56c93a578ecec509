//! The body of a page: instructions and groups between push and pop, and what they mean (DVItype, 14 and 15).
//!
//! The laws here are about the definitions that the writer and the reader share.

ghost use Rattle.std.specs.Prelude.{◌≡◌, ◌++◌, max, [], List};
ghost use Rattle.std.specs.List.{AllByRecursion};
ghost use Rattle.dvi_ops.specs.Instruction.{Instruction};
ghost use Rattle.dvi_ops.specs.Body.{Acts, DviState, Widths, instruction_acts, bounded_acts, start};
ghost use Rattle.scaled_core.specs.Mark.{Mark};
ghost use Rattle.dvi_ops.specs.Examples.{one_rule_body, one_rule_marks, saved_register_body, saved_register_marks, empty_rule_body, empty_rule_marks};
ghost use Rattle.dvi_ops.specs.Examples.{special_body, special_marks, too_far_body};
ghost use Rattle.dvi_ops.specs.Forest.{Forest, IsPoint, and_then, joined_bodies, flat, marks_of, meaning, nests, points};
ghost use Rattle.dvi_ops.specs.Walk.{walk};

/// A pass with a stack of places gives each body its meaning, and fails where the body has none.
pub fn pass_is_meaning()
    ensures { (does : Acts) (f : Forest) (s : DviState) → walk does (flat f) [] s ≡ meaning does f s }
{}

/// Where a pass with a stack succeeds, the instructions are a body, and its meaning is what the pass gives.
pub fn passed_is_body()
    ensures { (does : Acts) (is : List Instruction) (s : DviState) (out : List Mark × DviState) → walk does is [] s ≡ Some out
        → (f : Forest) × (is ≡ flat f) × (meaning does f s ≡ Some out) }
{}

/// A list of instructions is the list of one body at most.
pub fn one_body()
    ensures { (f g : Forest) → flat f ≡ flat g → f ≡ g }
{}

/// The concatenation of two bodies has the instructions of both in order. Its meaning is that of the first and then that of the second, from where
/// the first ends. Its depth of open pushes is the greater one of the two.
pub fn one_after_another()
    ensures instructions { (f g : Forest) → flat (joined_bodies f g) ≡ flat f ++ flat g }
    ensures marks { (does : Acts) (f g : Forest) (s : DviState)
        → meaning does (joined_bodies f g) s ≡ and_then (meaning does f s) (λ t. meaning does g t) }
    ensures depth { (f g : Forest) → nests (joined_bodies f g) ≡ max (nests f) (nests g) }
{}

/// The meaning with h and v restricted to signed 32 bits equals the meaning where all places on the way are in that range; elsewhere there is none.
pub fn kept_where_in_range()
    ensures kept_is_meaning { (does : Acts) (f : Forest) (s : DviState)
        → AllByRecursion IsPoint (points does f s) → meaning (bounded_acts does) f s ≡ meaning does f s }
    ensures meaning_is_kept { (does : Acts) (f : Forest) (s : DviState) (out : List Mark × DviState)
        → IsPoint (s.place.h, s.place.v) → meaning (bounded_acts does) f s ≡ Some out
        → (meaning does f s ≡ Some out) × AllByRecursion IsPoint (points does f s) }
{}

/// Bodies with known marks, whatever the widths of the fonts.
pub fn known_bodies()
    ensures one_rule { (widths : Widths) → marks_of (meaning (bounded_acts (instruction_acts widths)) one_rule_body start) ≡ Some one_rule_marks }
    ensures saved_register { (widths : Widths)
        → marks_of (meaning (bounded_acts (instruction_acts widths)) saved_register_body start) ≡ Some saved_register_marks }
    ensures empty_rule { (widths : Widths)
        → marks_of (meaning (bounded_acts (instruction_acts widths)) empty_rule_body start) ≡ Some empty_rule_marks }
    ensures special { (widths : Widths) → marks_of (meaning (bounded_acts (instruction_acts widths)) special_body start) ≡ Some special_marks }
    ensures too_far { (widths : Widths) → marks_of (meaning (bounded_acts (instruction_acts widths)) too_far_body start) ≡ None }
    ensures unbounded { (widths : Widths) → marks_of (meaning (instruction_acts widths) too_far_body start) ≡ Some [] }
{}
