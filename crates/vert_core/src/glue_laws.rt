//! Laws of the definitions.

ghost use Rattle.std.specs.Prelude.{◌≡◌, ◌+ℤ◌, ℤ, pos, negsuc, Some, None, Ok, Err};
ghost use Rattle.node_core.specs.declared.params.Params.{Params};
ghost use Rattle.node_core.specs.Parameters.{rigid, first_params};
ghost use Rattle.vert_core.specs.Interline.{distance, interline, ignored_depth};

/// The depth of a box, the distance to the next one and the height of the next one add up to baselineskip.
pub fn baselines_are_apart()
    ensures { (params : Params) → (previous : ℤ) → (height : ℤ) →
        (previous +ℤ distance params previous height) +ℤ height ≡ params.baseline_skip.width }
{}

/// With the parameters of a new job the baselines of two boxes are 12pt apart, but the boxes are 1pt apart if they would otherwise come closer than
/// 0pt. There is no glue before the first box.
#[tactic(auto, unfolding(crate::specs::Interline::interline))]
pub fn first_interline_glue()
    ensures below_the_baseline { interline first_params (pos 0) (pos 327680) ≡ Ok (Some (rigid (pos 458752))) }
    ensures touching { interline first_params (pos 0) (pos 786432) ≡ Ok (Some (rigid (pos 0))) }
    ensures too_near { interline first_params (pos 0) (pos 983040) ≡ Ok (Some (rigid (pos 65536))) }
    ensures first_box { interline first_params ignored_depth (pos 327680) ≡ Ok None }
{}

/// After a depth of -0.5pt, the greatest baselineskip gives glue whose width does not fit.
#[tactic(auto, unfolding(crate::specs::Interline::interline))]
pub fn too_large_a_distance()
    ensures { interline (record first_params { baseline_skip = rigid (pos 1073741823) }) (negsuc 32767) (pos 0) ≡ Err (record {}) }
{}
