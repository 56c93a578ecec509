//! The operation codes of the instructions, and the two other fixed bytes of a file (DVItype, 15 to 20).
//!
//! An instruction with an operand of one to four bytes has four codes, of which the first and the last have names where they are needed. The
//! definitions in `specs/` have the numbers of the standard themselves and do not cite these constants, so the proofs refuse a wrong number here.

/// The first of set1 to set4: a character whose number follows the code. Characters 0 to 127 are their own codes.
pub const SET1: u8 = 128;
/// The last of set1 to set4.
pub const SET4: u8 = 131;
/// A rule that moves right by its width.
pub const SET_RULE: u8 = 132;
/// The first of put1 to put4: a character without a movement.
pub const PUT1: u8 = 133;
/// The last of put1 to put4.
pub const PUT4: u8 = 136;
/// A rule without a movement.
pub const PUT_RULE: u8 = 137;
/// No operation.
pub const NOP: u8 = 138;
/// The beginning of a page.
pub const BOP: u8 = 139;
/// The end of a page.
pub const EOP: u8 = 140;
/// Saves the place and the registers.
pub const PUSH: u8 = 141;
/// Restores the place and the registers that were saved last.
pub const POP: u8 = 142;
/// The first of right1 to right4.
pub const RIGHT1: u8 = 143;
/// The last of right1 to right4.
pub const RIGHT4: u8 = 146;
/// The instruction w0, which moves right by w.
pub const W0: u8 = 147;
/// The first of w1 to w4.
pub const W1: u8 = 148;
/// The last of w1 to w4.
pub const W4: u8 = 151;
/// The instruction x0, which moves right by x.
pub const X0: u8 = 152;
/// The first of x1 to x4.
pub const X1: u8 = 153;
/// The last of x1 to x4.
pub const X4: u8 = 156;
/// The first of down1 to down4.
pub const DOWN1: u8 = 157;
/// The last of down1 to down4.
pub const DOWN4: u8 = 160;
/// The instruction y0, which moves down by y.
pub const Y0: u8 = 161;
/// The first of y1 to y4.
pub const Y1: u8 = 162;
/// The last of y1 to y4.
pub const Y4: u8 = 165;
/// The instruction z0, which moves down by z.
pub const Z0: u8 = 166;
/// The first of z1 to z4.
pub const Z1: u8 = 167;
/// The last of z1 to z4.
pub const Z4: u8 = 170;
/// The instruction fnt_num_0, which selects font 0. Fonts 1 to 63 have the next 63 codes.
pub const FNT_NUM_0: u8 = 171;
/// The first of fnt1 to fnt4: a font whose number follows the code.
pub const FNT1: u8 = 235;
/// The last of fnt1 to fnt4.
pub const FNT4: u8 = 238;
/// The first of xxx1 to xxx4: a special whose length follows the code.
pub const XXX1: u8 = 239;
/// The last of xxx1 to xxx4.
pub const XXX4: u8 = 242;
/// The first of fnt_def1 to fnt_def4.
pub const FNT_DEF1: u8 = 243;
/// The last of fnt_def1 to fnt_def4.
pub const FNT_DEF4: u8 = 246;
/// The preamble.
pub const PRE: u8 = 247;
/// The beginning of the postamble.
pub const POST: u8 = 248;
/// The end of the postamble. No instruction has a higher code.
pub const POST_POST: u8 = 249;

/// The version of the format, an operand of pre and post_post.
pub const FORMAT: u8 = 2;
/// The padding byte; a file ends with four or more of them after post_post.
pub const PADDING: u8 = 223;
