//! The glue between two boxes of a vertical list (TeX: The Program, part 33, §679, append_to_vlist).

ghost use Rattle.std.specs.Prelude.{◌≡◌};
ghost use Rattle.vert_core.specs.Interline.{distance, baseline_glue, interline};

use node_core::{Glue, Params};
use scaled_core::Dimen;
use thiserror::Error;

/// The distance between two boxes does not fit.
#[derive(Clone, Copy, Debug, PartialEq, Eq, Error)]
#[error("a size is too large")]
pub struct DimensionTooLarge;

/// The glue before a box of this height in a vertical list whose last box has the depth `previous_depth`; `None` if that depth is -1000pt or less.
/// The error is returned exactly when the glue is that of baselineskip and its width does not fit. Does not allocate.
#[tactic(auto, unfolding(crate::specs::Interline::interline))]
pub fn interline_glue(
    previous_depth: Dimen,
    height: Dimen,
    params: &Params,
) -> Result<Option<Glue>, DimensionTooLarge>
    ensures { result ≡ interline params.now previous_depth height }
{
    if previous_depth <= Dimen::IGNORE_DEPTH {
        return Ok(None);
    }
    let apart = distance(previous_depth, height, params);
    if apart < i64::from(params.line_skip_limit.get()) {
        return Ok(Some(params.line_skip));
    }
    baseline_glue(apart, params)
}

/// Glue of this width that stretches and shrinks as baselineskip does, if the width fits.
fn baseline_glue(width: i64, params: &Params) -> Result<Option<Glue>, DimensionTooLarge>
    ensures { result ≡ baseline_glue params.now width }
{
    match Dimen::try_new(width) {
        None => Err(DimensionTooLarge),
        Some(width) => Ok(Some(Glue {
            width,
            ..params.baseline_skip
        })),
    }
}

/// The distance between two boxes whose baselines are baselineskip apart. It is an exact number, which need not be a dimension, because it is
/// compared with lineskiplimit first; only the width of baselineskip glue has to fit.
fn distance(previous_depth: Dimen, height: Dimen, params: &Params) -> i64
    ensures { result ≡ distance params.now previous_depth height }
{
    params.baseline_skip.width.exact_sub(previous_depth) - i64::from(height.get())
}
