//! The parameters of a job, by the kind of their values. Each has its variant and its place in `Params` here, and in scripts its name.

ghost use Rattle.std.specs.Prelude.{◌≡◌};
ghost use Rattle.job_machine.specs.Parameters.{with_size, with_skip, with_number, with_parameter};

use node_core::{FirstLines, Glue, IntParameter, Params};
use scaled_core::Dimen;

/// A parameter that is a dimension.
#[derive(Clone, Copy, Debug, PartialEq, Eq)]
pub enum SizeParameter {
    /// The greatest depth of a vbox: boxmaxdepth.
    BoxMaxDepth,
    /// The smallest distance between boxes at which baselineskip is used: lineskiplimit.
    LineSkipLimit,
    /// The greatest depth of the front of a split box: splitmaxdepth.
    SplitMaxDepth,
    /// The width of the lines of a paragraph: hsize.
    Hsize,
    /// The width of the first lines of a paragraph that have one of their own: firstsize.
    FirstSize,
    /// How far pages are moved to the right: hoffset.
    Hoffset,
    /// How far pages are moved down: voffset.
    Voffset,
}

/// A parameter that is glue.
#[derive(Clone, Copy, Debug, PartialEq, Eq)]
pub enum SkipParameter {
    /// The glue between the baselines of two boxes: baselineskip.
    BaselineSkip,
    /// The glue between boxes that would be closer than lineskiplimit: lineskip.
    LineSkip,
    /// The glue at the top of the rest of a split box: splittopskip.
    SplitTopSkip,
    /// The glue at the end of a paragraph: parfillskip.
    ParFillSkip,
}

/// A parameter that is a number.
#[derive(Clone, Copy, Debug, PartialEq, Eq)]
pub enum NumberParameter {
    /// The greatest badness of a line in the first pass over a paragraph; a negative value skips this pass: pretolerance.
    Pretolerance,
    /// The greatest badness of a line in the second pass: tolerance.
    Tolerance,
    /// What is added to the badness of each line before it is squared: linepenalty.
    LinePenalty,
    /// The demerits of a line whose fitness class differs by more than one from that of the line before: adjdemerits.
    AdjDemerits,
    /// The penalty after the first line of a paragraph: clubpenalty.
    ClubPenalty,
    /// The penalty before the last line of a paragraph: widowpenalty.
    WidowPenalty,
    /// The penalty after each line but the last: interlinepenalty.
    InterlinePenalty,
}

/// A parameter and a value for it, by the kind of the value.
#[derive(Clone, Copy, Debug, PartialEq, Eq)]
pub enum Parameter {
    /// A dimension, in scaled points.
    Size(SizeParameter, Dimen),
    /// Glue.
    Skip(SkipParameter, Glue),
    /// A number.
    Number(NumberParameter, IntParameter),
    /// How many of the first lines of a paragraph have the width firstsize: firstlines. It has a range of its own.
    FirstLines(FirstLines),
}

impl Parameter {
    /// Puts the value in its place.
    pub fn set_in(self, params: &mut Params)
        ensures { params.new ≡ with_parameter params.old self }
    {
        match self {
            Parameter::Size(name, size) => set_size(params, name, size),
            Parameter::Skip(name, glue) => set_skip(params, name, glue),
            Parameter::Number(name, number) => set_number(params, name, number),
            Parameter::FirstLines(lines) => params.first_lines = lines,
        }
    }
}

/// Puts a dimension in the place of its parameter.
fn set_size(params: &mut Params, name: SizeParameter, size: Dimen)
    ensures { params.new ≡ with_size params.old name size }
{
    match name {
        SizeParameter::BoxMaxDepth => params.box_max_depth = size,
        SizeParameter::LineSkipLimit => params.line_skip_limit = size,
        SizeParameter::SplitMaxDepth => params.split.split_max_depth = size,
        SizeParameter::Hsize => params.hsize = size,
        SizeParameter::FirstSize => params.first_size = size,
        SizeParameter::Hoffset => params.hoffset = size,
        SizeParameter::Voffset => params.voffset = size,
    }
}

/// Puts glue in the place of its parameter.
fn set_skip(params: &mut Params, name: SkipParameter, glue: Glue)
    ensures { params.new ≡ with_skip params.old name glue }
{
    match name {
        SkipParameter::BaselineSkip => params.baseline_skip = glue,
        SkipParameter::LineSkip => params.line_skip = glue,
        SkipParameter::SplitTopSkip => params.split.split_top_skip = glue,
        SkipParameter::ParFillSkip => params.par_fill_skip = glue,
    }
}

/// Puts a number in the place of its parameter.
fn set_number(params: &mut Params, name: NumberParameter, number: IntParameter)
    ensures { params.new ≡ with_number params.old name number }
{
    match name {
        NumberParameter::Pretolerance => params.pretolerance = number,
        NumberParameter::Tolerance => params.tolerance = number,
        NumberParameter::LinePenalty => params.line_penalty = number,
        NumberParameter::AdjDemerits => params.adj_demerits = number,
        NumberParameter::ClubPenalty => params.club_penalty = number,
        NumberParameter::WidowPenalty => params.widow_penalty = number,
        NumberParameter::InterlinePenalty => params.interline_penalty = number,
    }
}
