//! The names of parameters, by the kind of value that they take.

ghost use Rattle.std.specs.Prelude.{◌≡◌};
ghost use Rattle.boxglue_script.specs.ParameterNames.{size_name, skip_name, number_name};
ghost use Rattle.boxglue_script.specs.Private.ParameterNames.{names_first_lines};

use job_machine::{NumberParameter, SizeParameter, SkipParameter};

/// The parameter with a dimension that a word names; None if there is none.
#[tactic(auto, unfolding(crate::specs::ParameterNames::size_name))]
pub fn size_name(word: &[u8]) -> Option<SizeParameter>
    ensures { result ≡ size_name word.now }
{
    if word == b"boxmaxdepth".as_slice() {
        return Some(SizeParameter::BoxMaxDepth);
    }
    if word == b"lineskiplimit".as_slice() {
        return Some(SizeParameter::LineSkipLimit);
    }
    if word == b"splitmaxdepth".as_slice() {
        return Some(SizeParameter::SplitMaxDepth);
    }
    if word == b"hsize".as_slice() {
        return Some(SizeParameter::Hsize);
    }
    if word == b"firstsize".as_slice() {
        return Some(SizeParameter::FirstSize);
    }
    if word == b"hoffset".as_slice() {
        return Some(SizeParameter::Hoffset);
    }
    if word == b"voffset".as_slice() {
        return Some(SizeParameter::Voffset);
    }
    None
}

/// The parameter with glue that a word names; None if there is none.
#[tactic(auto, unfolding(crate::specs::ParameterNames::skip_name))]
pub fn skip_name(word: &[u8]) -> Option<SkipParameter>
    ensures { result ≡ skip_name word.now }
{
    if word == b"baselineskip".as_slice() {
        return Some(SkipParameter::BaselineSkip);
    }
    if word == b"lineskip".as_slice() {
        return Some(SkipParameter::LineSkip);
    }
    if word == b"splittopskip".as_slice() {
        return Some(SkipParameter::SplitTopSkip);
    }
    if word == b"parfillskip".as_slice() {
        return Some(SkipParameter::ParFillSkip);
    }
    None
}

/// The parameter with a number that a word names; None if there is none.
#[tactic(auto, unfolding(crate::specs::ParameterNames::number_name))]
pub fn number_name(word: &[u8]) -> Option<NumberParameter>
    ensures { result ≡ number_name word.now }
{
    if word == b"pretolerance".as_slice() {
        return Some(NumberParameter::Pretolerance);
    }
    if word == b"tolerance".as_slice() {
        return Some(NumberParameter::Tolerance);
    }
    if word == b"linepenalty".as_slice() {
        return Some(NumberParameter::LinePenalty);
    }
    if word == b"adjdemerits".as_slice() {
        return Some(NumberParameter::AdjDemerits);
    }
    if word == b"clubpenalty".as_slice() {
        return Some(NumberParameter::ClubPenalty);
    }
    if word == b"widowpenalty".as_slice() {
        return Some(NumberParameter::WidowPenalty);
    }
    if word == b"interlinepenalty".as_slice() {
        return Some(NumberParameter::InterlinePenalty);
    }
    None
}

/// Whether a word names the parameter that is a number of first lines. It has a range of its own.
#[tactic(auto, unfolding(crate::specs::Private::ParameterNames::names_first_lines))]
pub fn names_first_lines(word: &[u8]) -> bool
    ensures { result ≡ names_first_lines word.now }
{
    word == b"firstlines".as_slice()
}
