//! The instructions of the bodies of pages. A body that is drawn is a list of these: an `Op` holds every instruction of a file, and is larger.

/// An instruction of a page body that defines no font, without the length of its operand (DVItype, 15 and 16).
#[derive(Clone, Copy, Debug, PartialEq)]
pub enum BodyOp<'a> {
    /// Sets the character with this number in the current font and moves right by its width.
    SetChar(i32),
    /// Sets the character with this number in the current font, without moving.
    PutChar(i32),
    /// Sets a rule with its bottom left corner at (h, v) and moves right by its width.
    SetRule { height: i32, width: i32 },
    /// Sets a rule with its bottom left corner at (h, v), without moving.
    PutRule { height: i32, width: i32 },
    /// Does nothing.
    Nop,
    /// Saves h, v, w, x, y and z.
    Push,
    /// Restores h, v, w, x, y and z, as the matching push saved them.
    Pop,
    /// Moves right.
    Right(i32),
    /// Moves right by w.
    W0,
    /// Sets w and moves right by it.
    W(i32),
    /// Moves right by x.
    X0,
    /// Sets x and moves right by it.
    X(i32),
    /// Moves down.
    Down(i32),
    /// Moves down by y.
    Y0,
    /// Sets y and moves down by it.
    Y(i32),
    /// Moves down by z.
    Z0,
    /// Sets z and moves down by it.
    Z(i32),
    /// Selects the font with this number.
    FontNum(i32),
    /// A special: a text for another program, of fewer than 2^32 bytes.
    Xxx(&'a [u8]),
}
