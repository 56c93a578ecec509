//! Laws of the definitions.

ghost use Rattle.std.specs.Prelude.{◌≡◌, ◌≤◌, ◌<ℤ◌, ◌≤ℤ◌, ℕ, ℤ, pos, true, false, ◌&&◌};
ghost use Rattle.node_core.specs.declared.params.Params.{Params};
ghost use Rattle.node_core.specs.Parameters.{first_params};
ghost use Rattle.break_lines.specs.declared.state.Fitness.TheVariants.{VeryLoose, Decent, Tight};
ghost use Rattle.break_lines.specs.declared.sums.Sums.{Sums};
ghost use Rattle.break_lines.specs.declared.state.Fitness.{Fitness};
ghost use Rattle.break_lines.specs.declared.cost.LineFit.{LineFit};
ghost use Rattle.break_lines.specs.declared.cost.Bound.{Bound};
ghost use Rattle.break_lines.specs.Costs.{line_fit, demerits_of, admitted_line, line_alone, after_class};
ghost use Rattle.break_lines.specs.Sizes.{line_size, greatest_size, fits_of_sums, fit_after};
ghost use Rattle.break_lines.specs.Examples.{line_of_points};
ghost use Rattle.break_lines.specs.Problems.{max_places};

use crate::list::MAX_PLACES;

/// A paragraph has at most 8,192 legal places, in code and in definitions.
pub fn most_legal_places()
    ensures code { MAX_PLACES ≡ max_places }
    ensures number { max_places ≡ 8192 }
{}

/// The badness of a line is at most 10000, whatever its sums are.
pub fn badness_is_bounded()
    ensures { (sums : Sums) → (size : ℤ) → (line_fit sums size).badness ≤ 10000 }
{}

/// A line has an overhang exactly when it is overfull.
pub fn overfull_lines_hang_over()
    ensures overfull { (sums : Sums) → (size : ℤ) → (line_fit sums size).overfull ≡ true → pos 0 <ℤ (line_fit sums size).overhang }
    ensures others { (sums : Sums) → (size : ℤ) → (line_fit sums size).overfull ≡ false → (line_fit sums size).overhang ≡ pos 0 }
{}

/// A line of 25pt that stretches by 15pt fills 40pt with badness 100. It is very loose and has 12100 demerits, and 10000 more as the first line.
pub fn very_loose_line()
    ensures badness { (line_of_points 25 15 0).badness ≡ 100 }
    ensures class { (line_of_points 25 15 0).class ≡ VeryLoose }
    ensures demerits { demerits_of first_params (pos 0) Decent (line_of_points 25 15 0) ≡ pos 22100 }
{}

/// A line that fits exactly has 100 demerits, and 10000 more after a very loose one.
pub fn line_that_fits()
    ensures badness { (line_of_points 40 15 0).badness ≡ 0 }
    ensures class { (line_of_points 40 15 0).class ≡ Decent }
    ensures demerits { demerits_of first_params (pos 0) VeryLoose (line_of_points 40 15 0) ≡ pos 10100 }
{}

/// The last line of a paragraph is filled by stretch of order fil.
pub fn last_line()
    ensures badness { (line_of_points 30 0 1).badness ≡ 0 }
    ensures demerits { demerits_of first_params (pos 0) Decent (line_of_points 30 0 1) ≡ pos 100 }
{}

/// A line of 50pt that cannot shrink has an overhang of 10pt at a width of 40pt, and 10 ^ 8 demerits.
pub fn overfull_line()
    ensures overfull { (line_of_points 50 0 0).overfull ≡ true }
    ensures class { (line_of_points 50 0 0).class ≡ Tight }
    ensures overhang { (line_of_points 50 0 0).overhang ≡ pos 655360 }
    ensures demerits { demerits_of first_params (pos 0) Decent (line_of_points 50 0 0) ≡ pos 100000000 }
{}

/// Without first lines every line has the width hsize, whatever firstsize is.
pub fn no_first_lines()
    ensures size { (params : Params) → (lines : ℕ) → params.first_lines ≡ 0 → line_size params lines ≡ params.hsize }
    ensures greatest { (params : Params) → params.first_lines ≡ 0 → greatest_size params ≡ params.hsize }
{}

/// One judgement holds for each number of lines before the line. Both parts of a judgement are overfull exactly when the line is overfull at the
/// greatest width of a line, and then it is overfull after any number of lines.
pub fn one_fit_serves_all()
    ensures after { (params : Params) → (sums : Sums) → (lines : ℕ) →
        fit_after params.first_lines lines (fits_of_sums params sums) ≡ line_fit sums (line_size params lines) }
    ensures greatest { (params : Params) → (sums : Sums) →
        ((fits_of_sums params sums).first.overfull && (fits_of_sums params sums).rest.overfull) ≡ (line_fit sums (greatest_size params)).overfull }
    ensures each { (params : Params) → (sums : Sums) → (lines : ℕ) →
        (line_fit sums (greatest_size params)).overfull ≡ true → (line_fit sums (line_size params lines)).overfull ≡ true }
    ensures most { (params : Params) → (lines : ℕ) → line_size params lines ≤ℤ greatest_size params }
{}

/// The line after a line of some class is the line without the demerits for that class, plus these demerits.
pub fn parts_of_a_line()
    ensures { (params : Params) → (bound : Bound) → (penalty : ℤ) → (before : Fitness) → (line : LineFit) →
        after_class params before (line_alone params bound penalty line) ≡ admitted_line params bound penalty before line }
{}
