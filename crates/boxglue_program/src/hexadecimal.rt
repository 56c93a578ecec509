//! Bytes in hexadecimal digits.

ghost use Rattle.std.specs.Prelude.{◌≡◌, ◌++◌, ◌<◌, OnOk};
ghost use Rattle.boxglue_program.specs.Texts.{ends_line, byte_text, hexadecimal_text};

use dvi_read::hexadecimal_digit;
use std::alloc::AllocError;

/// Appends bytes as two lower case hexadecimal digits each, sixteen bytes on a line. If memory is refused, a beginning of that text may have been
/// appended.
#[tactic(auto, unfolding(crate::specs::Texts::hexadecimal_text))]
pub fn push_hexadecimal(bytes: &[u8], text: &mut Vec<u8>) -> Result<(), AllocError>
    ensures { OnOk result (text.new.items ≡ text.old.items ++ hexadecimal_text bytes.now) }
{
    for (index, byte) in bytes.iter().enumerate() {
        push_byte(bytes.len(), index, *byte, text)?;
    }
    Ok(())
}

/// Appends the digits of a byte, and a line feed if it ends a line.
#[tactic(auto, unfolding(crate::specs::Texts::byte_text))]
fn push_byte(count: usize, index: usize, byte: u8, text: &mut Vec<u8>) -> Result<(), AllocError>
    requires { index < count }
    ensures { OnOk result (text.new.items ≡ text.old.items ++ byte_text count index byte) }
{
    text.push(hexadecimal_digit(byte / 16))?;
    text.push(hexadecimal_digit(byte % 16))?;
    if ends_line(count, index) {
        text.push(b'\n')?;
    }
    Ok(())
}

/// Whether a line ends after the byte at an index: it is the sixteenth of its line, or the last of `count` bytes.
fn ends_line(count: usize, index: usize) -> bool
    requires { index < count }
    ensures { result ≡ ends_line count index }
{
    index % 16 == 15 || index + 1 == count
}
