//! Sums over the items of a line.

ghost use Rattle.std.specs.Prelude.{◌≡◌};
ghost use Rattle.break_lines.specs.Sizes.{least_width};
ghost use Rattle.break_lines.specs.SmallCosts.{IsSmallSums};

/// The sums over the items of a line, in scaled points: their widths, their stretch in each order, and their shrink in the normal order.
#[derive(Clone, Copy, Debug, PartialEq, Eq)]
pub struct Sums {
    pub width: i64,
    pub stretch: i64,
    pub fil: i64,
    pub fill: i64,
    pub filll: i64,
    pub shrink: i64,
}

impl Sums {
    /// The sums over no items.
    pub const ZERO: Sums = Sums {
        width: 0,
        stretch: 0,
        fil: 0,
        fill: 0,
        filll: 0,
        shrink: 0,
    };

    /// The width of the line when it shrinks as far as it can.
    #[inline]
    pub fn least_width(&self) -> i64
        requires sums_bounded { IsSmallSums self.now }
        ensures { result ≡ least_width self.now }
    {
        self.width - self.shrink
    }
}
