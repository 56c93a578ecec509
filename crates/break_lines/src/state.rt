//! Ends of lines, and lines.

ghost use Rattle.std.specs.Prelude.{◌≡◌, ◌<◌, ◌≤◌, ◌*◌, ◌+◌};
ghost use Rattle.break_lines.specs.Problems.{class_index, start, end_after};
ghost use Rattle.break_lines.specs.Tables.{slot, slots, IsFirst};

use std::cmp::Ordering;

/// The fitness class of a line: how loosely or tightly it is set (TeX: The Program, part 38, §817).
#[derive(Clone, Copy, Debug, PartialEq, Eq)]
pub enum Fitness {
    VeryLoose,
    Loose,
    Decent,
    Tight,
}

impl Fitness {
    /// The class as a number, from 0 for a very loose line to 3 for a tight one.
    #[inline]
    pub fn class_index(self) -> usize
        ensures rank { result ≡ class_index self }
        ensures rank_bounded { result < 4 }
    {
        match self {
            Fitness::VeryLoose => 0,
            Fitness::Loose => 1,
            Fitness::Decent => 2,
            Fitness::Tight => 3,
        }
    }
}

/// The end of a line: a legal place, the number of lines up to it, which counts no further than a limit, and the class of the line.
#[derive(Clone, Copy, Debug, PartialEq, Eq)]
pub struct BreakState {
    pub place: u32,
    pub lines: u16,
    pub class: Fitness,
}

/// The cost of a line: its class, its overhang in scaled points, and its demerits.
#[derive(Clone, Copy, Debug, PartialEq, Eq)]
pub struct LineCost {
    pub class: Fitness,
    pub overhang: i64,
    pub demerits: i64,
}

impl BreakState {
    /// The start of a paragraph: there is no line yet, and the class is decent.
    pub fn start() -> BreakState
        ensures { result ≡ start }
    {
        BreakState {
            place: 0,
            lines: 0,
            class: Fitness::Decent,
        }
    }

    /// The end of a line from here to a place; `cut` is the number of lines that are counted.
    #[inline]
    pub fn after(self, place: u32, line: LineCost, cut: usize) -> BreakState
        requires cut_bounded { cut < 1000 }
        requires counted { self.lines ≤ cut }
        ensures { result ≡ end_after cut self place line }
    {
        let lines = if usize::from(self.lines) < cut {
            self.lines + 1
        } else {
            // If no lines are counted, `cut` is the constant 0, and so is this value.
            cut as u16
        };
        BreakState {
            place,
            lines,
            class: line.class,
        }
    }

    /// The slot of the state in the row of its place.
    #[inline]
    pub fn slot(self, cut: usize) -> usize
        requires cut_bounded { cut < 1000 }
        requires counted { self.lines ≤ cut }
        ensures slot { result ≡ slot self }
        ensures slot_bounded { result < slots cut }
    {
        4 * usize::from(self.lines) + self.class.class_index()
    }
}

/// The order of two ends of lines if all else is equal: first the later place, then the one with fewer lines, then the lower class.
#[inline]
pub fn order(a: BreakState, b: BreakState) -> Ordering
    ensures less { result ≡ Ordering.Less → IsFirst a b }
    ensures greater { result ≡ Ordering.Greater → IsFirst b a }
    ensures equal { result ≡ Ordering.Equal → a ≡ b }
{
    if a.place > b.place {
        return Ordering::Less;
    }
    if a.place < b.place {
        return Ordering::Greater;
    }
    if a.lines < b.lines {
        return Ordering::Less;
    }
    if a.lines > b.lines {
        return Ordering::Greater;
    }
    if a.class.class_index() < b.class.class_index() {
        return Ordering::Less;
    }
    if a.class.class_index() > b.class.class_index() {
        return Ordering::Greater;
    }
    Ordering::Equal
}
