//! The preamble (DVItype, 17).

ghost use Rattle.std.specs.Prelude.{◌≡◌, ◌≢◌, ◌≤◌, false, true, length, IfOk, IfErr};
ghost use Rattle.dvi_ops.specs.File.{AreUnits};
ghost use Rattle.dvi_ops.specs.View.{view_postamble};
ghost use Rattle.dvi_ops.specs.View.{units as view_units};
ghost use Rattle.dvi_scan.specs.Preamble.{HasPreamble, IsPreambleFault};

use crate::at_place::read_at;
use crate::ending::FileEnd;
use crate::fault::{BadDvi, DviCause};
use dvi_ops::opcodes::FORMAT;
use dvi_ops::{Op, Units};

/// Whether num, den and mag are the same in both units.
fn are_same(one: &Units, other: &Units) -> bool
    ensures yes { result ≡ true → view_units one.now ≡ view_units other.now }
    ensures no { result ≡ false → view_units one.now ≢ view_units other.now }
{
    one.num == other.num && one.den == other.den && one.mag == other.mag
}

/// Whether num, den and mag are positive.
fn are_positive(units: &Units) -> bool
    ensures yes { result ≡ true → AreUnits (view_units units.now) }
    ensures no { result ≡ false → AreUnits (view_units units.now) → ⊥ }
{
    0 < units.num && 0 < units.den && 0 < units.mag
}

/// Returns the place after the preamble, which is of version 2 and has the units of the postamble, all positive (DVItype, 17). It takes no memory.
pub fn preamble(bytes: &[u8], ending: &FileEnd) -> Result<usize, BadDvi>
    requires { ending.now.post ≤ length bytes.now }
    ensures ok { IfOk result (HasPreamble bytes.now ending.now.post (view_postamble ending.now.postamble)) }
    // The fault is Preamble at place 0, and there is no such preamble.
    ensures bad { IfErr result (IsPreambleFault bytes.now ending.now.post (view_postamble ending.now.postamble)) }
{
    let fault = BadDvi {
        place: 0,
        cause: DviCause::Preamble,
    };
    let Ok((op, after)) = read_at(bytes, 0, ending.post) else {
        return Err(fault);
    };
    let Op::Pre { id, units, .. } = op else {
        return Err(fault);
    };
    if id != FORMAT {
        return Err(fault);
    }
    if !are_same(&units, &ending.postamble.units) {
        return Err(fault);
    }
    if !are_positive(&ending.postamble.units) {
        return Err(fault);
    }
    Ok(after)
}
