//! What goes into the buffers of a caller.

ghost use Rattle.std.specs.Prelude.{◌≡◌, ◌≤◌, ◌+◌, ◌++◌, drop, length, take};
ghost use Rattle.boxglue_calls.specs.Buffers.{Holds, HandsOver, HandsOverBoth};

use crate::status::BUFFER_TOO_SMALL;

/// Puts items at the front of a buffer that has space for them.
pub(crate) fn put<T: Copy>(items: &[T], buffer: &mut [T])
    requires { length items.now ≤ length buffer.old }
    ensures { Holds buffer.old buffer.new items.now }
{
    buffer[..items.len()].copy_from_slice(items);
}

/// Puts items into a buffer, after this number of others. It has space for all of them.
pub(crate) fn put_after<T: Copy>(count: usize, items: &[T], buffer: &mut [T])
    requires { count + length items.now ≤ length buffer.old }
    ensures { buffer.new ≡ take count buffer.old ++ (items.now ++ drop (count + length items.now) buffer.old) }
{
    buffer[count..count + items.len()].copy_from_slice(items);
}

/// Hands an output over: it goes into the buffer, and the status is this one; or the buffer is too small, and nothing is written.
pub fn hand_over(output: &[u8], buffer: &mut [u8], done: u32) -> u32
    ensures { HandsOver buffer.old buffer.new output.now done result }
{
    if output.len() > buffer.len() {
        return BUFFER_TOO_SMALL;
    }
    put(output, buffer);
    done
}

/// Hands two outputs over: each goes into its buffer, and the status is this one; or a buffer is too small, and nothing is written.
pub fn hand_over_both<T: Copy>(
    items: &[T],
    buffer: &mut [T],
    text: &[u8],
    text_buffer: &mut [u8],
    done: u32,
) -> u32
    ensures { HandsOverBoth (record { old = buffer.old; new = buffer.new; items = items.now })
        (record { old = text_buffer.old; new = text_buffer.new; items = text.now }) done result }
{
    if items.len() > buffer.len() {
        return BUFFER_TOO_SMALL;
    }
    if text.len() > text_buffer.len() {
        return BUFFER_TOO_SMALL;
    }
    put(items, buffer);
    put(text, text_buffer);
    done
}
