//! The breaks of a paragraph.

use break_lines::Fitness;

/// A pass over a paragraph. The first pass that admits a list of breaks decides (TeX: The Program, part 39, §863).
#[derive(Clone, Copy, Debug, PartialEq, Eq)]
pub enum Pass {
    /// Lines are not overfull, and their badness is at most pretolerance.
    First,
    /// Lines are not overfull, and their badness is at most tolerance.
    Second,
    /// Every line is admitted.
    Third,
}

/// The end of a line: its place in the list, from 0 to the number of items, and the fitness class of the line.
#[derive(Clone, Copy, Debug, PartialEq, Eq)]
pub struct LineEnd {
    pub place: usize,
    pub class: Fitness,
}

/// The breaks of a paragraph: the ends of its lines in order, the pass that admitted them, and their costs.
#[derive(Debug, Drop)]
pub struct Breaks {
    pub lines: Vec<LineEnd>,
    pub pass: Pass,
    /// The total overhang of the overfull lines, in scaled points.
    pub overhang: i64,
    pub demerits: i64,
}
