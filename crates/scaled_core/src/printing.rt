//! Printing dimensions.

ghost use Rattle.std.specs.Prelude.{◌≡◌, ◌++◌, ◌^◌, ◌<◌, ◌≤◌, if◌then◌else◌, nat_lt, ◌-◌, OnOk, OnErr, length, take};
ghost use Rattle.scaled_core.specs.Spaces.{TakesSpace};
ghost use Rattle.scaled_core.specs.PrintedDimensions.{dimension_text, shortest_fraction, size_text};

use crate::dimen::Dimen;
use itoa::Buffer;
use std::alloc::AllocError;

/// Appends the text of a dimension in points, without a unit: the decimal with the fewest places, at least one, that reads back as the same number of
/// scaled points (TeX: The Program, part 7, §103, print_scaled). If memory is refused, `out` is as it was before the call, and had no space for 47
/// bytes.
pub fn print_dimen(dimension: Dimen, out: &mut Vec<u8>) -> Result<(), AllocError>
    ensures ok { OnOk result (out.new.items ≡ out.old.items ++ dimension_text dimension) }
    ensures err { OnErr result (out.new.items ≡ out.old.items) }
    ensures space { TakesSpace 47 out.old out.new result }
{
    let held = out.len();
    let printed = push_dimension(dimension.get(), out);
    if printed.is_err() {
        out.truncate(held);
    }
    printed
}

/// Appends the text of `value` scaled points; if memory is refused, only the beginning of it.
#[tactic(auto, unfolding(crate::specs::PrintedDimensions::dimension_text))]
fn push_dimension(value: i32, out: &mut Vec<u8>) -> Result<(), AllocError>
    ensures ok { OnOk result (out.new.items ≡ out.old.items ++ dimension_text value) }
    ensures front { take (length out.old.items) out.new.items ≡ out.old.items }
    ensures space { TakesSpace 47 out.old out.new result }
{
    if value < 0 {
        out.push(b'-')?;
    }
    push_size(value.unsigned_abs(), out)
}

/// Appends the text of `size` scaled points; if memory is refused, only the beginning of it.
#[tactic(auto, unfolding(crate::specs::PrintedDimensions::size_text))]
fn push_size(size: u32, out: &mut Vec<u8>) -> Result<(), AllocError>
    ensures ok { OnOk result (out.new.items ≡ out.old.items ++ size_text size) }
    ensures front { take (length out.old.items) out.new.items ≡ out.old.items }
    ensures space { TakesSpace 46 out.old out.new result }
{
    let mut buffer = Buffer::new();
    out.extend_from_slice(buffer.format(size / 65536).as_bytes())?;
    out.push(b'.')?;
    push_fraction(size % 65536, out)
}

/// Appends the digits after the point of `fraction` 65536ths, at most five, and stops once the remainder is within half a 65536th. If memory is
/// refused, only the first digits are appended.
fn push_fraction(fraction: u32, out: &mut Vec<u8>) -> Result<(), AllocError>
    requires { fraction < 65536 }
    ensures ok { OnOk result (out.new.items ≡ out.old.items ++ shortest_fraction fraction) }
    ensures front { take (length out.old.items) out.new.items ≡ out.old.items }
    ensures space { TakesSpace 5 out.old out.new result }
{
    let mut rest = 10 * fraction + 5;
    let mut unit = 10;
    for _ in 0..5u32 {
        let left = rounded_last(rest, unit);
        out.push(b'0' + (left / 65536) as u8)?;
        rest = 10 * (left % 65536);
        unit *= 10;
        if rest <= unit {
            return Ok(());
        }
    }
    Ok(())
}

/// The remainder with TeX's rounding, which applies only to the fifth and last digit.
fn rounded_last(rest: u32, unit: u32) -> u32
    requires rest_bounded { rest < 2 ^ 31 }
    requires space { 65536 < unit → 17232 ≤ rest }
    ensures { result ≡ (if nat_lt 65536 unit then rest - 17232 else rest) }
{
    if unit > 65536 {
        return rest + 32768 - 50000;
    }
    rest
}
