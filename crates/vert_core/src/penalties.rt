//! The penalties between the lines of a paragraph (TeX: The Program, part 39, §890).

ghost use Rattle.std.specs.Prelude.{◌≡◌, ◌<◌, ◌+◌, pos, if◌then◌else◌};
ghost use Rattle.scaled_core.specs.Dimensions.{Within};
ghost use Rattle.vert_core.specs.Lines.{penalty_after};
ghost use Rattle.vert_core.specs.Private.Planned.{penalty_between};

use node_core::{IntParameter, Params};

/// The number if it is wanted, and otherwise 0.
fn number_if(wanted: bool, number: IntParameter) -> i32
    ensures value { result ≡ (if wanted then number else pos 0) }
    ensures value_bounded { Within 500000000 result }
{
    if wanted { number.get() } else { 0 }
}

/// The penalty between line number `line` and the next one, of `count` lines: at most 1,500,000,000. The sum of the three parameters can be above the
/// range of numbers in scripts; it is not cut, since that would make it another penalty.
fn penalty_after(params: &Params, count: usize, line: usize) -> i32
    requires { line + 1 < count }
    ensures value { result ≡ penalty_after params.now count line }
    ensures value_bounded { Within 1500000000 result }
{
    let club = number_if(line == 0, params.club_penalty);
    let widow = number_if(line + 2 == count, params.widow_penalty);
    params.interline_penalty.get() + club + widow
}

/// The penalty after line number `line` of `count` lines, or 0 after the last one.
pub(crate) fn penalty_between(params: &Params, count: usize, line: usize) -> i32
    requires { line < count }
    ensures { result ≡ penalty_between params.now count line }
{
    if line + 1 == count {
        return 0;
    }
    penalty_after(params, count, line)
}
