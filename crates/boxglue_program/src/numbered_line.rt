//! The line `N: ok` of an answer, and the number of any other one.

ghost use Rattle.std.specs.Prelude.{◌≡◌, ◌++◌, ◌+◌, ◌<◌, length, codes, decimal, drop, OnOk, OnErr};
ghost use Rattle.scaled_core.specs.Spaces.{TakesSpace};
ghost use Rattle.boxglue_program.specs.Texts.{line_feed};
ghost use Rattle.boxglue_program.specs.Private.NumberedLines.{HoldsTens, digits_before_last, line_end};

use itoa::write_digits;
use std::alloc::AllocError;

/// The line `N: ok` for the number of a line, kept for the lines after it: most lines follow one another, so that only the last digit changes.
#[derive(Drop)]
pub(crate) struct NumberedLine {
    /// The digits, the last of them at 19, then `: ok` and a line feed, and space for a copy of the longest line.
    pub(crate) text: [u8; 45],
    /// Where the digits begin.
    pub(crate) start: usize,
    /// The number without its last digit.
    pub(crate) tens: u64,
}

/// Writes the digits of a number before its last one, which are those of this number of tens, and returns where they begin. A number of 64 bits has
/// at most nineteen of them. The function is not inlined, since nine of ten lines do not call it.
#[inline(never)]
fn write_tens(tens: u64, text: &mut [u8; 45]) -> usize
    requires { tens < 1844674407370955162 }
    ensures start { result + length (digits_before_last tens) ≡ 19 }
    ensures written { drop result text.new ≡ digits_before_last tens ++ drop 19 text.old }
{
    if tens == 0 {
        return 19;
    }
    write_digits(tens, text, 19)
}

impl NumberedLine {
    /// The line of the number 0.
    pub(crate) fn new() -> NumberedLine
        ensures { HoldsTens result }
    {
        NumberedLine {
            text: *b"00000000000000000000: ok\n                    ",
            start: 19,
            tens: 0,
        }
    }

    /// Writes the number of a line.
    #[inline(always)]
    fn set(&mut self, number: u64)
        requires { HoldsTens self.old }
        ensures holds { HoldsTens self.new }
        ensures start { self.new.start + length (decimal number) ≡ 20 }
        ensures written { drop self.new.start self.new.text ≡ decimal number ++ line_end }
    {
        let tens = number / 10;
        if tens != self.tens {
            self.start = write_tens(tens, &mut self.text);
            self.tens = tens;
        }
        self.text[19] = b'0' + (number % 10) as u8;
    }

    /// Appends the line `N: ok` as one piece. As many bytes are copied as the longest such line has, since a copy of a size that is known here is a
    /// few moves, where another one is a call.
    #[inline(always)]
    pub(crate) fn push_done(&mut self, number: u64, out: &mut Vec<u8>) -> Result<(), AllocError>
        requires { HoldsTens self.old }
        ensures holds { HoldsTens self.new }
        ensures ok { OnOk result (out.new.items ≡ out.old.items ++ (decimal number ++ (codes ": ok" ++ line_feed))) }
        ensures err { OnErr result (out.new.items ≡ out.old.items) }
        ensures space { TakesSpace 25 out.old out.new result }
    {
        self.set(number);
        let end = out.len() + (25 - self.start);
        out.extend_from_slice(&self.text[self.start..self.start + 25])?;
        out.truncate(end);
        Ok(())
    }

    /// Appends the number of a line with what follows it, also as one piece.
    pub(crate) fn push_number(&mut self, number: u64, out: &mut Vec<u8>) -> Result<(), AllocError>
        requires { HoldsTens self.old }
        ensures holds { HoldsTens self.new }
        ensures ok { OnOk result (out.new.items ≡ out.old.items ++ (decimal number ++ codes ": ")) }
        ensures err { OnErr result (out.new.items ≡ out.old.items) }
        ensures space { TakesSpace 22 out.old out.new result }
    {
        self.set(number);
        let end = out.len() + (22 - self.start);
        out.extend_from_slice(&self.text[self.start..self.start + 22])?;
        out.truncate(end);
        Ok(())
    }
}
