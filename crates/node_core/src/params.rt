//! The parameters of lists and boxes, and the range of their numbers and of penalties (TeX: The Program, part 17).

ghost use Rattle.std.specs.Prelude.{◌≡◌, ◌≤◌};
ghost use Rattle.std.specs.Option.{SomeIff};
ghost use Rattle.scaled_core.specs.Dimensions.{Within};
ghost use Rattle.node_core.specs.Parameters.{rigid, first_params, first_split_params};

use crate::tree::{Glue, Order};
use scaled_core::Dimen;
use std::marker::Model;

/// A whole number with an absolute value of at most 500,000,000: the value of a penalty or of an integer parameter.
#[derive(Clone, Copy, Debug, PartialEq, Eq)]
pub struct IntParameter {
    value: i32,
}

impl Model for IntParameter {
    ghost use Rattle.std.specs.Prelude.{ℤ};
    ghost use Rattle.scaled_core.specs.Dimensions.{Within};

    ghost Value = { ℤ };

    ghost view = { λ n. n.value };

    ghost invariant = { λ n. Within 500000000 n.value };

    ghost inverse = { λ z. record { value = z } };
}

impl IntParameter {
    /// The number with this value, or `None` exactly when it is out of range.
    pub fn try_new(value: i64) -> Option<IntParameter>
        ensures { SomeIff result (Within 500000000 value) value }
    {
        if value < -500_000_000 {
            return None;
        }
        if value > 500_000_000 {
            return None;
        }
        Some(IntParameter {
            value: value as i32,
        })
    }

    /// The value of the number.
    pub fn get(self) -> i32
        ensures value { result ≡ self }
        ensures value_bounded { Within 500000000 result }
    {
        self.value
    }
}

/// The number of first lines of a paragraph that have a width of their own, at most 32.
#[derive(Clone, Copy, Debug, PartialEq, Eq)]
pub struct FirstLines {
    count: usize,
}

impl Model for FirstLines {
    ghost use Rattle.std.specs.Prelude.{ℕ, ◌≤◌};

    ghost Value = { ℕ };

    ghost view = { λ n. n.count };

    ghost invariant = { λ n. n.count ≤ 32 };

    ghost inverse = { λ n. record { count = n } };
}

impl FirstLines {
    /// This number of first lines, or `None` exactly when it is above 32.
    pub fn try_new(count: usize) -> Option<FirstLines>
        ensures { SomeIff result (count ≤ 32) count }
    {
        if count > 32 {
            return None;
        }
        Some(FirstLines { count })
    }

    /// The number of lines.
    pub fn get(self) -> usize
        ensures value { result ≡ self }
        ensures value_bounded { result ≤ 32 }
    {
        self.count
    }
}

/// The parameters of a job.
#[derive(Clone, Copy, Debug, PartialEq, Eq)]
pub struct Params {
    /// The greatest depth of a vbox, in scaled points: boxmaxdepth.
    pub box_max_depth: Dimen,
    /// The glue between two boxes of a vertical list; its width is the distance of their baselines: baselineskip.
    pub baseline_skip: Glue,
    /// The glue between boxes that would otherwise come too close: lineskip.
    pub line_skip: Glue,
    /// The smallest distance of boxes that are set apart by baselineskip, in scaled points: lineskiplimit.
    pub line_skip_limit: Dimen,
    /// The width of the lines of a paragraph, in scaled points: hsize.
    pub hsize: Dimen,
    /// The number of first lines of a paragraph that have a width of their own: firstlines.
    pub first_lines: FirstLines,
    /// The width of these first lines, in scaled points: firstsize.
    pub first_size: Dimen,
    /// The glue at the end of a paragraph: parfillskip.
    pub par_fill_skip: Glue,
    /// The greatest badness of a line in the first pass over a paragraph; below 0 that pass is skipped: pretolerance.
    pub pretolerance: IntParameter,
    /// The greatest badness of a line in the second pass: tolerance.
    pub tolerance: IntParameter,
    /// What is added to the badness of each line: linepenalty.
    pub line_penalty: IntParameter,
    /// The demerits for a line that is visually incompatible with the line before: adjdemerits.
    pub adj_demerits: IntParameter,
    /// The penalty after the first line of a paragraph: clubpenalty.
    pub club_penalty: IntParameter,
    /// The penalty after the last line but one: widowpenalty.
    pub widow_penalty: IntParameter,
    /// The penalty after each line but the last: interlinepenalty.
    pub interline_penalty: IntParameter,
    /// How far pages are shifted to the right, in scaled points: hoffset.
    pub hoffset: Dimen,
    /// How far pages are shifted down, in scaled points: voffset.
    pub voffset: Dimen,
    /// The parameters for splitting vertical lists.
    pub split: SplitParams,
}

/// Glue of this width that neither stretches nor shrinks.
fn rigid(width: Dimen) -> Glue
    ensures { result ≡ rigid width }
{
    Glue {
        width,
        stretch: Dimen::ZERO,
        stretch_order: Order::Normal,
        shrink: Dimen::ZERO,
        shrink_order: Order::Normal,
    }
}

impl Params {
    /// The parameters of a new job: a vbox can be as deep as a dimension allows, baselines are 12pt apart, and boxes that would come closer than 0pt
    /// are 1pt apart. All lines are 6.5in wide, the last one is filled with glue of order fil, and the numbers are those of plain TeX. Pages are not
    /// shifted.
    pub fn first() -> Params
        ensures { result ≡ first_params }
    {
        Params {
            box_max_depth: Dimen::MAX,
            baseline_skip: rigid(Dimen::points(12)),
            line_skip: rigid(Dimen::points(1)),
            line_skip_limit: Dimen::ZERO,
            hsize: Dimen::new(30_785_863),
            first_lines: FirstLines { count: 0 },
            first_size: Dimen::new(30_785_863),
            par_fill_skip: Glue {
                stretch: Dimen::points(1),
                stretch_order: Order::Fil,
                ..rigid(Dimen::ZERO)
            },
            pretolerance: IntParameter { value: 100 },
            tolerance: IntParameter { value: 200 },
            line_penalty: IntParameter { value: 10 },
            adj_demerits: IntParameter { value: 10_000 },
            club_penalty: IntParameter { value: 150 },
            widow_penalty: IntParameter { value: 150 },
            interline_penalty: IntParameter { value: 0 },
            hoffset: Dimen::ZERO,
            voffset: Dimen::ZERO,
            split: SplitParams::first(),
        }
    }
}

/// The parameters for splitting vertical lists.
#[derive(Clone, Copy, Debug, PartialEq, Eq)]
pub struct SplitParams {
    /// The greatest depth of the first part of a list that is split, in scaled points: splitmaxdepth.
    pub split_max_depth: Dimen,
    /// The glue at the top of the rest of a list that is split: splittopskip.
    pub split_top_skip: Glue,
}

impl SplitParams {
    /// The parameters of a new job: the first part can be as deep as a dimension allows, and the first baseline of the rest is 10pt below its top.
    pub fn first() -> SplitParams
        ensures { result ≡ first_split_params }
    {
        SplitParams {
            split_max_depth: Dimen::MAX,
            split_top_skip: rigid(Dimen::points(10)),
        }
    }
}
