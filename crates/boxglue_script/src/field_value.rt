//! The kinds of value that one field can have.
//!
//! All numbers have one form, an optional sign and digits; only their range differs.

ghost use Rattle.boxglue_script.specs.Grammar.{register_count, slot_count, counter_count, first_lines_count};
ghost use Rattle.boxglue_script.specs.Private.Reading.{number_field, count_field, penalty_field, dimension_field, size_of, amount_of};

use crate::amounts::{Amount, amount_of};
use crate::cause::Cause;
use crate::values::{
    byte_of, count_number_of, count_of, first_lines_of, penalty_of, register_of, size_of,
};
use job_machine::{CountNumber, Register};
use node_core::{FirstLines, IntParameter, RuleSize};
use scaled_core::{Dimen, parse_dimen};

/// A kind of value that a field can have.
pub(crate) trait FieldValue: Copy {
    ghost use Rattle.std.specs.Prelude.{◌≡◌, ℕ, List, Result};
    ghost use Rattle.boxglue_script.specs.declared.cause.Cause.{Cause};

    /// The value that a field has, or the cause why it has none.
    ghost reading: { List ℕ → Result Self Cause };

    /// Reads a field.
    fn of_field(field: &[u8]) -> Result<Self, Cause>
        ensures { result ≡ reading field.now };
}

/// The number of a box register.
impl FieldValue for Register {
    ghost reading = { number_field register_count };

    fn of_field(field: &[u8]) -> Result<Register, Cause> {
        register_of(field).ok_or(Cause::Number)
    }
}

/// The number of a slot for a font or the code of a character: there are 256 of both.
impl FieldValue for u8 {
    ghost reading = { number_field slot_count };

    fn of_field(field: &[u8]) -> Result<u8, Cause> {
        byte_of(field).ok_or(Cause::Number)
    }
}

/// The number of a count.
impl FieldValue for CountNumber {
    ghost reading = { number_field counter_count };

    fn of_field(field: &[u8]) -> Result<CountNumber, Cause> {
        count_number_of(field).ok_or(Cause::Number)
    }
}

/// The value of a count.
impl FieldValue for i32 {
    ghost reading = { count_field };

    fn of_field(field: &[u8]) -> Result<i32, Cause> {
        count_of(field).ok_or(Cause::Number)
    }
}

/// A number of first lines.
impl FieldValue for FirstLines {
    ghost reading = { number_field first_lines_count };

    fn of_field(field: &[u8]) -> Result<FirstLines, Cause> {
        first_lines_of(field).ok_or(Cause::Number)
    }
}

/// The number of a penalty.
impl FieldValue for IntParameter {
    ghost reading = { penalty_field };

    fn of_field(field: &[u8]) -> Result<IntParameter, Cause> {
        penalty_of(field).ok_or(Cause::Number)
    }
}

/// A dimension.
impl FieldValue for Dimen {
    ghost reading = { dimension_field };

    fn of_field(field: &[u8]) -> Result<Dimen, Cause> {
        Ok(parse_dimen(field)?)
    }
}

/// A size of a rule.
impl FieldValue for RuleSize {
    ghost reading = { size_of };

    fn of_field(field: &[u8]) -> Result<RuleSize, Cause> {
        size_of(field)
    }
}

/// An amount of stretch or shrink.
impl FieldValue for Amount {
    ghost reading = { amount_of };

    fn of_field(field: &[u8]) -> Result<Amount, Cause> {
        amount_of(field)
    }
}
