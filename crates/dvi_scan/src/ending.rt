//! Post and post_post, from the end of a file (DVItype, 19 and 20).

ghost use Rattle.std.specs.Prelude.{◌≡◌, ◌≢◌, ◌≤◌, ◌<◌, ◌+◌, ◌-◌, None, length, drop, slice_index, take, ℕ, pos, IfOk, IfErr, IfSome};
ghost use Rattle.dvi_ops.specs.Instruction.{Post, Postamble};
ghost use Rattle.dvi_ops.specs.Table.{Spells, signed};
ghost use Rattle.dvi_ops.specs.View.{view_postamble};
ghost use Rattle.dvi_scan.specs.Ends.{HasPostamble, IsClosed, IsEndFault, IsTrailed, IsSpelledAt};

use crate::at_place::read_at;
use crate::fault::{BadDvi, DviCause};
use byteorder::{BigEndian, ByteOrder};
use dvi_ops::Op;
use dvi_ops::opcodes::{FORMAT, PADDING, POST_POST};

/// The least number of bytes 223 at the end of a file.
const LEAST_PADDING: usize = 4;
/// The size of post_post in bytes: its code, a place and the version.
const POST_POST_SIZE: usize = 6;

/// The places of the parts that a file names at its end, in bytes from its start.
#[derive(Clone, Copy, Debug, PartialEq)]
pub struct FileEnd {
    /// The place of post.
    pub post: usize,
    /// The place after post.
    pub after: usize,
    /// The place of the version in post_post. After it there are only bytes 223.
    pub last: usize,
    /// The operands of post.
    pub postamble: dvi_ops::Postamble,
}

/// The number of bytes before the bytes 223 at the end.
fn size_before_padding(bytes: &[u8]) -> usize
    ensures high { result ≤ length bytes.now }
    ensures after { (k : ℕ) → result ≤ k → k < length bytes.now → slice_index bytes.now k ≡ 223 }
    ensures last { 0 < result → slice_index bytes.now (result - 1) ≢ 223 }
{
    let mut end = bytes.len();
    while 0 < end && bytes[end - 1] == PADDING {
        end -= 1;
    }
    end
}

/// The place of the last byte before the bytes 223 at the end; None where there are too few bytes of either kind.
fn end_before_padding(bytes: &[u8]) -> Option<usize>
    ensures is_trailed { IfSome result (IsTrailed bytes.now) }
    ensures none { result ≡ None → (e : ℕ) → IsTrailed bytes.now e → ⊥ }
{
    let end = size_before_padding(bytes);
    if end < POST_POST_SIZE || bytes.len() - end < LEAST_PADDING {
        return None;
    }
    Some(end - 1)
}

/// The place that four bytes at `at` give; None where they are a negative number.
pub(crate) fn place_at(bytes: &[u8], at: usize) -> Option<usize>
    requires { at + 4 ≤ length bytes.now }
    ensures place_read { IfSome result (λ place. signed 4 (drop at bytes.now) ≡ pos place) }
    ensures none { result ≡ None → (place : ℕ) → signed 4 (drop at bytes.now) ≡ pos place → ⊥ }
{
    usize::try_from(BigEndian::read_i32(&bytes[at..])).ok()
}

/// Post and the place after it, where post is at a place and ends at or before `bound`.
fn post_at(bytes: &[u8], place: usize, bound: usize) -> Option<(dvi_ops::Postamble, usize)>
    requires { bound ≤ length bytes.now }
    ensures post_read { IfSome result (λ found. Spells (Post (view_postamble found.0)) (take (found.1 - place) (drop place bytes.now))) }
    ensures low { IfSome result (λ found. place ≤ found.1) }
    ensures high { IfSome result (λ found. found.1 ≤ bound) }
    ensures none { result ≡ None → (postamble : Postamble) → IsSpelledAt bytes.now place bound (Post postamble) → ⊥ }
{
    if bound < place {
        return None;
    }
    let Ok((op, after)) = read_at(bytes, place, bound) else {
        return None;
    };
    let Op::Post(postamble) = op else {
        return None;
    };
    Some((postamble, after))
}

/// Post, at the place that post_post names.
fn post_of(bytes: &[u8], last: usize) -> Result<FileEnd, BadDvi>
    requires { IsClosed bytes.now last }
    ensures ok { IfOk result (λ ends. HasPostamble bytes.now ends.post ends.last (view_postamble ends.postamble)) }
    ensures after { IfOk result (λ ends. Spells (Post (view_postamble ends.postamble)) (take (ends.after - ends.post) (drop ends.post bytes.now))) }
    ensures low { IfOk result (λ ends. ends.post ≤ ends.after) }
    ensures high { IfOk result (λ ends. ends.after + 5 ≤ ends.last) }
    ensures bad { IfErr result (IsEndFault bytes.now) }
{
    let fault = BadDvi {
        place: last - 4,
        cause: DviCause::Pointer,
    };
    let Some(post) = place_at(bytes, last - 4) else {
        return Err(fault);
    };
    let Some((postamble, after)) = post_at(bytes, post, last - 5) else {
        return Err(fault);
    };
    Ok(FileEnd {
        post,
        after,
        last,
        postamble,
    })
}

/// Finds post_post and post from the end of a file (DVItype, 19 and 20). It takes no memory.
///
/// The faults are, in the order of the checks: Trailer, at the end of the file; Version, at its place; Opcode, at the place of post_post; and
/// Pointer, at the place of its operand.
pub fn find_postamble(bytes: &[u8]) -> Result<FileEnd, BadDvi>
    // The instructions post and post_post are where they have to be.
    ensures ok { IfOk result (λ ends. HasPostamble bytes.now ends.post ends.last (view_postamble ends.postamble)) }
    // The bytes from post to the place after it spell it.
    ensures after { IfOk result (λ ends. Spells (Post (view_postamble ends.postamble)) (take (ends.after - ends.post) (drop ends.post bytes.now))) }
    ensures low { IfOk result (λ ends. ends.post ≤ ends.after) }
    ensures high { IfOk result (λ ends. ends.after + 5 ≤ ends.last) }
    // The rule that a fault names is broken at its place, and the earlier rules hold.
    ensures bad { IfErr result (IsEndFault bytes.now) }
{
    let Some(last) = end_before_padding(bytes) else {
        return Err(BadDvi {
            place: bytes.len(),
            cause: DviCause::Trailer,
        });
    };
    if bytes[last] != FORMAT {
        return Err(BadDvi {
            place: last,
            cause: DviCause::Version,
        });
    }
    if bytes[last - 5] != POST_POST {
        return Err(BadDvi {
            place: last - 5,
            cause: DviCause::Opcode,
        });
    }
    post_of(bytes, last)
}
