//! The numbers of lines, which count on over the pieces of a script.

ghost use Rattle.std.specs.Prelude.{◌≡◌};
ghost use Rattle.boxglue_calls.specs.Numbers.{is_whole, line_count, line_feeds, number_after, numbered_lines};

use boxglue_program::Line;

/// The number of a line of a piece, where the pieces before it have this many lines. The greatest number of the machine is the last.
pub(crate) fn number_after(before: usize, number: usize) -> usize
    ensures { result ≡ number_after before number }
{
    before.saturating_add(number)
}

/// Gives the lines of a piece their numbers in the whole script.
pub(crate) fn number_on(before: usize, lines: &mut [Line])
    ensures { lines.new ≡ numbered_lines before lines.old }
{
    for line in lines.iter_mut() {
        line.number = number_after(before, line.number);
    }
}

/// The line feeds of a text.
fn line_feeds(text: &[u8]) -> usize
    ensures { result ≡ line_feeds text.now }
{
    text.iter().filter(|byte| **byte == b'\n').count()
}

/// Whether a text is empty or ends in a line feed.
fn is_whole(text: &[u8]) -> bool
    ensures { result ≡ is_whole text.now }
{
    text.is_empty() || text[text.len() - 1] == b'\n'
}

/// How many lines a text has: its line feeds, and one more where it does not end in one.
pub(crate) fn line_count(text: &[u8]) -> usize
    ensures { result ≡ line_count text.now }
{
    let more = if is_whole(text) { 0 } else { 1 };
    number_after(line_feeds(text), more)
}
