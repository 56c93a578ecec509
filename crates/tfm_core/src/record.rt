//! The entries of a metric file (TFtoPL, 8 to 15).

/// The twelve numbers at the front of a metric file (TFtoPL, 8).
#[derive(Clone, Copy, Debug, PartialEq, Eq)]
pub struct Counts {
    /// lf: the number of words in the file, of four bytes each.
    pub file: u16,
    /// lh: the number of words in the header.
    pub header: u16,
    /// bc: the code of the first character.
    pub first: u16,
    /// ec: the code of the last character.
    pub last: u16,
    /// nw: the number of widths.
    pub widths: u16,
    /// nh: the number of heights.
    pub heights: u16,
    /// nd: the number of depths.
    pub depths: u16,
    /// ni: the number of italic corrections.
    pub italics: u16,
    /// nl: the number of steps in the ligature/kern program.
    pub steps: u16,
    /// nk: the number of kerns.
    pub kerns: u16,
    /// ne: the number of extensible recipes.
    pub recipes: u16,
    /// np: the number of parameters.
    pub parameters: u16,
}

/// What a character has besides its sizes (TFtoPL, 11 and 12).
#[derive(Clone, Copy, Debug, PartialEq, Eq)]
pub enum Tag {
    /// Nothing.
    Plain,
    /// A ligature/kern program, with its first step.
    Program(u8),
    /// A larger character.
    Larger(u8),
    /// An extensible recipe.
    Recipe(u8),
}

/// The entry of a character in a metric file: indices into its tables. If the width index is 0, the font does not have the character (TFtoPL, 11).
#[derive(Clone, Copy, Debug, PartialEq, Eq)]
pub struct CharInfo {
    pub width: u8,
    pub height: u8,
    pub depth: u8,
    pub italic: u8,
    pub tag: Tag,
}

/// The last step of a program has this skip. A step with a higher skip only redirects to another step (TFtoPL, 13; TeX: The Program, part 30, §545,
/// `stop_flag`).
pub const STOP_FLAG: u8 = 128;

/// A step with this operation or a higher one is a kern (TFtoPL, 13; TeX: The Program, part 30, §545, `kern_flag`).
pub const KERN_FLAG: u8 = 128;

/// A step of the ligature/kern program (TFtoPL, 13).
#[derive(Clone, Copy, Debug, PartialEq, Eq)]
pub struct LigKernStep {
    /// The number of steps to pass over before the next one. The program ends at `STOP_FLAG` or more; above that, the step only redirects to another
    /// step.
    pub skip: u8,
    /// The following character to which the step applies.
    pub next: u8,
    /// 0 for a ligature, `KERN_FLAG` or more for a kern; other values give nothing.
    pub op: u8,
    /// The character of the ligature, or the low byte of the kern's index.
    pub remainder: u8,
}
