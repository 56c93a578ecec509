//! The number of pushes that are open at once.

ghost use Rattle.std.specs.Prelude.{◌≡◌, ◌<◌};
ghost use Rattle.dvi_ops.specs.View.{body_view};
ghost use Rattle.ship_core.specs.Pushes.{pushed_after};

use dvi_ops::BodyOp;

/// The number of open pushes after an instruction. A pop without an open push changes nothing.
#[inline(always)]
pub fn pushed_after(pushed: usize, op: &BodyOp<'_>) -> usize
    requires { pushed < usize.MAX }
    ensures { result ≡ pushed_after pushed (body_view op.now) }
{
    match op {
        BodyOp::Push => pushed + 1,
        BodyOp::Pop => pushed.saturating_sub(1),
        _ => pushed,
    }
}
