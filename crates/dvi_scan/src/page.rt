//! Pages as a reader sees them, and the state of a pass inside a page.

use scaled_core::COUNTS;
use smallvec::SmallVec;
use std::alloc::Global;
use std::default::MadeWith;

/// A mark on a page, in DVI units (DVItype, 15).
#[derive(Clone, Copy, Debug, PartialEq)]
pub enum Mark<'a> {
    /// A character of a font, with its reference point at (h, v).
    Glyph {
        font: i32,
        code: i32,
        h: i32,
        v: i32,
    },
    /// A rule with its bottom left corner at (h, v); both of its sizes are positive.
    Rule {
        h: i32,
        v: i32,
        height: i32,
        width: i32,
    },
    /// A special: a text at (h, v), which is a slice of the file.
    Special {
        h: i32,
        v: i32,
        text: &'a [u8],
    },
}

/// A page: its ten counts, and its marks in order.
#[derive(Debug, Drop)]
pub struct Page<'a> {
    pub counts: [i32; COUNTS],
    pub marks: Vec<Mark<'a>>,
}

/// The values h, v, w, x, y and z, which push saves and pop restores (DVItype, 14).
#[derive(Clone, Copy, Debug, PartialEq)]
pub struct Position {
    pub h: i32,
    pub v: i32,
    pub w: i32,
    pub x: i32,
    pub y: i32,
    pub z: i32,
}

impl Position {
    /// Six zeros, as bop sets them.
    pub const START: Position = Position {
        h: 0,
        v: 0,
        w: 0,
        x: 0,
        y: 0,
        z: 0,
    };
}

impl MadeWith<Global> for Position {
    fn made_with(_alloc: Global) -> Position {
        Position::START
    }
}

/// The place, and the number of the current font, if one is selected (DVItype, 14).
#[derive(Clone, Copy, Debug, PartialEq)]
pub struct DviState {
    pub place: Position,
    pub font: Option<i32>,
}
