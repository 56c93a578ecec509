//! How a page is painted.

ghost use Rattle.std.specs.Prelude.{◌≡◌, ◌≤◌, IsTrue, SomeIff};
ghost use Rattle.raster_core.specs.PaintOptions.{is_paintable, options_of};

use std::marker::Model;

/// How a page is painted: its number, from 1 on; at most 10,000 pixels an inch; and the width and the height of the bitmap, 1 to 10,000 pixels each.
#[derive(Clone, Copy, Debug, PartialEq, Eq)]
pub struct PaintOptions {
    page: u32,
    dpi: u32,
    width: u32,
    height: u32,
}

impl Model for PaintOptions {
    ghost use Rattle.std.specs.Prelude.{IsTrue};
    ghost use Rattle.raster_core.specs.PaintOptions.{PaintOptionsView, is_paintable, options_of};

    ghost Value = { PaintOptionsView };

    ghost view = { λ options. options_of options.page options.dpi options.width options.height };

    ghost invariant = { λ options. IsTrue (is_paintable (options_of options.page options.dpi options.width options.height)) };

    ghost inverse = { λ options. record { page = options.page; dpi = options.dpi; width = options.width; height = options.height } };
}

/// Whether numbers are in their ranges.
fn is_paintable(page: u32, dpi: u32, width: u32, height: u32) -> bool
    ensures { result ≡ is_paintable (options_of page dpi width height) }
{
    1 <= page && dpi <= 10_000 && 1 <= width && width <= 10_000 && 1 <= height && height <= 10_000
}

impl PaintOptions {
    /// Options with these numbers: the page, pixels an inch, and the width and the height in pixels. None if one of them is out of its range.
    pub fn try_new(page: u32, dpi: u32, width: u32, height: u32) -> Option<PaintOptions>
        ensures { SomeIff result (IsTrue (is_paintable (options_of page dpi width height))) (options_of page dpi width height) }
    {
        if !is_paintable(page, dpi, width, height) {
            return None;
        }
        Some(PaintOptions {
            page,
            dpi,
            width,
            height,
        })
    }

    /// The page, from 1 on.
    pub fn page(self) -> u32
        ensures value { result ≡ self.page }
        ensures from_one { 1 ≤ result }
    {
        self.page
    }

    /// Pixels an inch: at most 10,000.
    pub fn dpi(self) -> u32
        ensures value { result ≡ self.dpi }
        ensures dpi_bounded { result ≤ 10000 }
    {
        self.dpi
    }

    /// Pixels across: 1 to 10,000.
    pub fn width(self) -> u32
        ensures value { result ≡ self.width }
        ensures width_bounded { (1 ≤ result) × (result ≤ 10000) }
    {
        self.width
    }

    /// Pixels down: 1 to 10,000.
    pub fn height(self) -> u32
        ensures value { result ≡ self.height }
        ensures height_bounded { (1 ≤ result) × (result ≤ 10000) }
    {
        self.height
    }
}
