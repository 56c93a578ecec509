//! The sizes of lines, found without a walk over their items.

ghost use Rattle.std.specs.Prelude.{◌≡◌, ◌<◌, ◌≤◌, ◌+◌, ℕ, true, false, List, Some, length, reverse, slice_get};
ghost use Rattle.node_core.specs.declared.tree.Node.{Node};
ghost use Rattle.break_lines.specs.declared.line_sizes.PlaceSizes.{PlaceSizes};
ghost use Rattle.break_lines.specs.Legal.{legal_places};
ghost use Rattle.break_lines.specs.Facts.{position_of};
ghost use Rattle.break_lines.specs.Spans.{AreSizesOf, IsSpan};

/// A legal place, or the start: its position, the position at which a line from it begins, and the greatest height and depth, at least 0, of the
/// items between it and the next place. The greatest ones of the places that a line passes over are those of the line.
#[derive(Clone, Copy, Debug)]
pub struct PlaceSizes {
    pub position: usize,
    pub begin: usize,
    pub height: i32,
    pub depth: i32,
}

/// What the sizes of the lines of a list follow from: the places, the last one first, as the walk that measures a list finds them, and whether it is
/// known that none of its items is a box or a special.
#[derive(Debug, Drop)]
pub struct LineSizes {
    pub(crate) places: Vec<PlaceSizes>,
    pub(crate) plain: bool,
}

/// A line between two places: the number of the place where it ends, the index of its first item, and its greatest height and depth, at least 0. If
/// it begins at its end, it has no items before that.
#[derive(Clone, Copy, Debug)]
pub struct MeasuredSpan {
    pub to: usize,
    pub begin: usize,
    pub height: i32,
    pub depth: i32,
}

impl LineSizes {
    /// Whether it is known that no item of the list is a box or a special.
    pub fn is_plain(&self) -> bool
        ensures { result ≡ self.now.plain }
    {
        self.plain
    }

    /// The place with a number; the start is 0.
    #[inline(always)]
    fn place(&self, number: usize) -> &PlaceSizes
        requires { number < length self.now.places.items }
        ensures { slice_get (reverse self.now.places.items) number ≡ Some result.now }
    {
        &self.places[self.places.len() - 1 - number]
    }

    /// Whether a place is before a position, and not the last one.
    #[inline(always)]
    fn is_before(&self, number: usize, position: usize) -> bool
        requires { number < length self.now.places.items }
        ensures last { result ≡ true → number + 1 < length self.now.places.items }
        ensures before { result ≡ true → (place : PlaceSizes) → slice_get (reverse self.now.places.items) number ≡ Some place →
            place.position < position }
        ensures after { result ≡ false → number + 1 < length self.now.places.items → (place : PlaceSizes) →
            slice_get (reverse self.now.places.items) number ≡ Some place → position ≤ place.position }
    {
        if number + 1 >= self.places.len() {
            return false;
        }
        if self.place(number).position < position {
            return true;
        }
        false
    }

    /// The line from a place, or from the start, which is 0, to the place at a later position.
    pub fn line_between(&self, from: usize, position: usize) -> MeasuredSpan
        requires { from + 1 < length self.now.places.items }
        ensures { (list : List Node) → AreSizesOf list self.now → (to : ℕ) → from < to → to ≤ length (legal_places list) →
            position ≡ position_of list to → IsSpan list from to result }
    {
        let first = self.place(from);
        let mut number = from + 1;
        let mut height = first.height;
        let mut depth = first.depth;
        while self.is_before(number, position) {
            let place = self.place(number);
            height = height.max(place.height);
            depth = depth.max(place.depth);
            number += 1;
        }
        MeasuredSpan {
            to: number,
            begin: first.begin.min(self.place(number).position),
            height,
            depth,
        }
    }
}
