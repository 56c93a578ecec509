//! An instruction of a DVI file as a value, without the lengths of its operands (DVItype, 13 to 20).
//!
//! All distances and sizes are in DVI units. Names and texts are slices of the file. Each field admits every value of its type; a file restricts some
//! of them.

use crate::body_op::BodyOp;
use scaled_core::COUNTS;

/// A font definition (DVItype, 18).
#[derive(Clone, Copy, Debug, PartialEq)]
pub struct FontDefinition<'a> {
    /// The number by which the font is selected.
    pub number: i32,
    /// The check sum of its metric file.
    pub check_sum: i32,
    /// The size at which the font is used, in DVI units. In a file it is 1 to 2^27 - 1.
    pub size: i32,
    /// The design size of the font, in DVI units.
    pub design_size: i32,
    /// The first part of the name, of up to 255 bytes: the area.
    pub area: &'a [u8],
    /// The second part of the name, of up to 255 bytes.
    pub name: &'a [u8],
}

/// How DVI units are measured: num / den times 10^-7 metres, enlarged by mag / 1000 (DVItype, 17). In a file all three are positive.
#[derive(Clone, Copy, Debug, PartialEq)]
pub struct Units {
    pub num: i32,
    pub den: i32,
    pub mag: i32,
}

/// The operands of `post`, which describe the whole file (DVItype, 19).
#[derive(Clone, Copy, Debug, PartialEq)]
pub struct Postamble {
    /// The place of the last bop, in bytes from the start of the file, or -1.
    pub last_bop: i32,
    /// The units, as in the preamble.
    pub units: Units,
    /// The greatest height plus depth of a page, in DVI units.
    pub height_plus_depth: i32,
    /// The greatest width of a page, in DVI units.
    pub width: i32,
    /// The greatest number of pushes that are open at once.
    pub stack_depth: u16,
    /// The number of pages, modulo 65536.
    pub pages: u16,
}

/// An instruction, without the length of its operands (DVItype, 15 to 20).
#[derive(Clone, Copy, Debug, PartialEq)]
pub enum Op<'a> {
    /// An instruction of a page body that defines no font.
    Body(BodyOp<'a>),
    /// Defines a font. It may stand in a page body, between pages and after post.
    FontDef(FontDefinition<'a>),
    /// Begins a page, with its ten counts and the place of the previous bop, or -1.
    Bop {
        counts: [i32; COUNTS],
        pointer: i32,
    },
    /// Ends a page.
    Eop,
    /// Begins the file, with a comment of up to 255 bytes.
    Pre {
        id: u8,
        units: Units,
        comment: &'a [u8],
    },
    /// Begins the postamble, with a description of the file.
    Post(Postamble),
    /// Ends the postamble and names its place. The bytes 223 after it are not part of it.
    PostPost {
        place: i32,
        id: u8,
    },
}
