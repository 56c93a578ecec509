//! Laws of the definitions. A law is a function that does nothing, whose `ensures` is the statement.

ghost use Rattle.std.specs.Prelude.{◌≡◌, ◌↔◌, ◌++◌, ◌+◌, ◌*◌, ◌<◌, ◌≤◌, ◌≤ℤ◌, ℕ, ℤ, pos, negsuc, List, Some, Ok, true, codes, length};
ghost use Rattle.scaled_core.specs.Dimensions.{Fits, fits};
ghost use Rattle.scaled_core.specs.DimensionTexts.{IsDimensionText, decimal_fraction};
ghost use Rattle.scaled_core.specs.ParsedTexts.{dimension_value, read_dimension};
ghost use Rattle.scaled_core.specs.PrintedDimensions.{dimension_text, print_scaled, shortest_fraction};
ghost use Rattle.scaled_core.specs.Rounding.{IsNearest, IsRounded, nearest, rounded};
ghost use Rattle.scaled_core.specs.Badness.{IsBadness, badness_of};

use crate::counts::COUNTS;
use crate::dimen::Dimen;

/// A page has ten counts.
pub fn counts_of_a_page()
    ensures { COUNTS ≡ 10 }
{}

/// The test `fits` holds exactly for the numbers that fit.
pub fn numbers_that_fit()
    ensures { (z : ℤ) → (fits z ≡ true ↔ Fits z) }
{}

/// The values of the named dimensions: 0 sp, the greatest dimension, and the previous depth that suppresses interline glue.
pub fn named_dimensions() -> (Dimen, Dimen, Dimen)
    ensures zero { result.0 ≡ pos 0 }
    ensures greatest { result.1 ≡ pos 1073741823 }
    ensures ignored { result.2 ≡ negsuc 65535999 }
{
    (Dimen::ZERO, Dimen::MAX, Dimen::IGNORE_DEPTH)
}

/// A text writes a dimension exactly when `dimension_value` gives one, and it is the same one: each text has at most one value.
pub fn value_of_a_text()
    ensures { (text : List ℕ) → (value : ℤ) →
        (IsDimensionText text value ↔ (dimension_value text ≡ Some value)) }
{}

/// A printed dimension, with `pt` after it, is a text of that dimension and reads back as it.
pub fn printed_reads_back()
    ensures text { (d : ℤ) → Fits d → IsDimensionText (dimension_text d ++ codes "pt") d }
    ensures read { (d : ℤ) → Fits d → read_dimension (dimension_text d ++ codes "pt") ≡ Ok d }
{}

/// The printed digits after the point are as few as possible: no shorter sequence of digits writes the same fraction.
pub fn printed_is_shortest()
    ensures { (f : ℕ) → (digits : List ℕ) → 0 < length digits → decimal_fraction digits ≡ f →
        length (shortest_fraction f) ≤ length digits }
{}

/// The printed digits after the point are those of TeX's own loop. Five turns are always enough for it (TeX: The Program, part 7, §103,
/// print_scaled).
pub fn print_scaled_digits()
    ensures { (turns f : ℕ) → 5 ≤ turns → f < 65536 → print_scaled turns (10 * f + 5) 10 ≡ shortest_fraction f }
{}

/// An inch is 4736286 scaled points.
pub fn one_inch()
    ensures { dimension_value (codes "1in") ≡ Some (pos 4736286) }
{}

/// The initial value of `hsize`, 6.5in.
pub fn six_and_a_half_inches()
    ensures { dimension_value (codes "6.5in") ≡ Some (pos 30785863) }
{}

/// The greatest dimension: 16383.99999pt rounds up to it, and its printed text ends with another digit.
pub fn greatest_dimension()
    ensures read { dimension_value (codes "16383.99999pt") ≡ Some (pos 1073741823) }
    ensures printed { dimension_text (pos 1073741823) ≡ codes "16383.99998" }
{}

/// A small number of scaled points is printed with five digits after the point, a whole number of points with one, and a minus comes first.
pub fn printed_texts()
    ensures five { dimension_text (pos 10) ≡ codes "0.00015" }
    ensures one { dimension_text (pos 65536) ≡ codes "1.0" }
    ensures minus { dimension_text (negsuc 65535) ≡ codes "-1.0" }
{}

/// A whole number is nearest to a fraction exactly when it is the one that `nearest` or `rounded` gives: there is exactly one, for each denominator
/// above 0.
pub fn nearest_number()
    ensures upward { (n : ℕ) → (d : ℕ) → (q : ℕ) → 0 < d → (IsNearest n d q ↔ (q ≡ nearest n d)) }
    ensures away_from_zero { (x : ℤ) → (d : ℕ) → (q : ℤ) → 0 < d → (IsRounded x d q ↔ (q ≡ rounded x d)) }
{}

/// Halves are rounded away from zero, and other fractions to the nearest whole number.
#[tactic(auto, unfolding(crate::specs::Rounding::rounded, crate::specs::Rounding::nearest))]
pub fn rounded_fractions()
    ensures half { rounded (pos 1) 2 ≡ pos 1 }
    ensures minus_half { rounded (negsuc 0) 2 ≡ negsuc 0 }
    ensures third { rounded (pos 1) 3 ≡ pos 0 }
    ensures two_thirds { rounded (pos 2) 3 ≡ pos 1 }
    ensures minus_two_thirds { rounded (negsuc 1) 3 ≡ negsuc 0 }
{}

/// A number is the badness of `t` for `s` exactly when it is the one that `badness_of` gives: there is exactly one, for each `t` not below 0.
pub fn one_badness()
    ensures { (t : ℤ) → (s : ℤ) → (b : ℕ) → pos 0 ≤ℤ t → (IsBadness t s b ↔ (b ≡ badness_of t s)) }
{}

/// Glue that is stretched by all that it can stretch has badness 100; if it cannot stretch, 10000. For `t` from 7230585 on, the ratio is a quotient
/// by `s / 297`, and if `s` is too small for that, it is `t` itself.
#[tactic(auto, unfolding(crate::specs::Badness::badness_of, crate::specs::Badness::badness_ratio, crate::specs::Badness::ratio_badness, crate::specs::Rounding::nearest))]
pub fn badness_values()
    ensures whole { badness_of (pos 65536) (pos 65536) ≡ 100 }
    ensures nothing { badness_of (pos 0) (pos 0) ≡ 0 }
    ensures rigid { badness_of (pos 1) (pos 0) ≡ 10000 }
    ensures small_stretch { badness_of (pos 7230585) (pos 1663496) ≡ 10000 }
    ensures large_stretch { badness_of (pos 7230585) (pos 1663497) ≡ 8189 }
{}
