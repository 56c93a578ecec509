//! The beginning of the line of a glyph.

ghost use Rattle.std.specs.Prelude.{◌≡◌, ◌≤◌, ◌-◌, drop};
ghost use Rattle.dvi_read.specs.Private.GlyphHeads.{head_text};

/// The greatest size of the beginning of a line in bytes.
pub(crate) const HEAD: usize = 56;

/// The beginning of the line of a glyph: its word, its font and its character. Its bytes are the last ones.
#[derive(Clone, Copy, Debug)]
pub(crate) struct GlyphHead {
    pub font: i32,
    pub code: i32,
    pub size: usize,
    pub bytes: [u8; HEAD],
    pub ghost short: { size ≤ 56 },
    pub ghost text: { drop (56 - size) bytes ≡ head_text font code },
}
