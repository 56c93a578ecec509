//! The rows of a bitmap.

ghost use Rattle.std.specs.Prelude.{◌≡◌, ◌*◌, ◌≤◌, length};
ghost use Rattle.raster_core.specs.Private.RowPieces.{row_size};

/// The rows of a bitmap as words: the pixels of a row are the first `width` bits of `stride` words.
#[derive(Clone, Copy, Debug)]
pub struct Rows<'a> {
    pub words: &'a [u64],
    pub stride: usize,
    pub width: usize,
    pub height: usize,
    ghost columns: { width ≤ 64 * stride },
    ghost rows: { height * stride ≤ length words.now },
    ghost stride_bounded: { stride ≤ 157 },
    ghost width_bounded: { width ≤ 10000 },
    ghost height_bounded: { height ≤ 10000 },
}

impl Rows<'_> {
    /// The size of the text of a row in bytes.
    pub fn row_size(&self) -> usize
        ensures exact { result ≡ row_size self.now.width }
        ensures value_bounded { result ≤ 10143 }
    {
        self.width + self.width.div_ceil(70)
    }
}
