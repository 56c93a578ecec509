//! A test for bodies whose movements use no register.

ghost use Rattle.std.specs.Prelude.{◌≡◌, ◌<◌, ◌↔◌, IsTrue, map};
ghost use Rattle.dvi_ops.specs.View.{body_view};
ghost use Rattle.move_core.specs.SamePage.{IsPlainBody};
ghost use Rattle.move_core.specs.Private.Passes.{depth_after};

use dvi_ops::BodyOp;

/// The number of open groups after an instruction of a body; None where it pops without an open group or uses a register.
fn depth_after(depth: usize, op: &BodyOp<'_>) -> Option<usize>
    requires { depth < usize.MAX }
    ensures { result ≡ depth_after depth (body_view op.now) }
{
    match op {
        BodyOp::Push => Some(depth + 1),
        BodyOp::Pop => depth.checked_sub(1),
        BodyOp::W0
        | BodyOp::W(_)
        | BodyOp::X0
        | BodyOp::X(_)
        | BodyOp::Y0
        | BodyOp::Y(_)
        | BodyOp::Z0
        | BodyOp::Z(_) => None,
        _ => Some(depth),
    }
}

/// Whether the instructions are the body of a page, and none uses w, x, y or z.
pub fn is_plain_body(ops: &[BodyOp<'_>]) -> bool
    ensures { IsTrue result ↔ IsPlainBody (map body_view ops.now) }
{
    let mut depth: usize = 0;
    for op in ops {
        let Some(next) = depth_after(depth, op) else {
            return false;
        };
        depth = next;
    }
    depth == 0
}
