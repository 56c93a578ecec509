//! The instructions of a body whose characters stand apart, as a list and as bytes.

ghost use Rattle.std.specs.Prelude.{◌≡◌, ◌<◌, ◌≤◌, ◌+◌, ◌++◌, ◌-◌, pos, length, map, take, drop, vec_len, vec_capacity, IfOk, OnOk, OnErr};
ghost use Rattle.std.specs.List.{AllByRecursion};
ghost use Rattle.dvi_ops.specs.Instruction.{SetChar, Do};
ghost use Rattle.dvi_ops.specs.Layout.{bytes_of};
ghost use Rattle.dvi_ops.specs.Runs.{characters, instructions_of};
ghost use Rattle.dvi_ops.specs.Spelling.{HasSpelling, spelling};
ghost use Rattle.dvi_ops.specs.View.{body_view};

use crate::body_op::BodyOp;
use crate::body_spelling::spell_body;
use crate::page_runs::PageRuns;
use crate::spelling::append_char;
use std::alloc::{AllocError, Global};

/// The first `count` codes, or all of them where there are fewer; and the rest.
#[inline(always)]
fn split_codes(codes: &[u8], count: usize) -> (&[u8], &[u8])
    ensures run { result.0.now ≡ take count codes.now }
    ensures rest { result.1.now ≡ drop count codes.now }
{
    codes.split_at(count.min(codes.len()))
}

/// Appends a character whose code is its spelling, where there is space.
#[tactic(auto, unfolding(crate::specs::Spelling::spelling, crate::specs::Spelling::leaf_spelling, crate::specs::Spelling::char_spelling))]
#[inline(always)]
fn append_plain_character(out: &mut Vec<u8>, code: u8)
    requires space { vec_len out.old < vec_capacity out.old }
    requires plain { code < 128 }
    ensures items { out.new.items ≡ out.old.items ++ spelling (Do (SetChar (pos code))) }
    ensures len { vec_len out.new ≡ vec_len out.old + 1 }
    ensures capacity { vec_capacity out.new ≡ vec_capacity out.old }
{
    out.push_reserved(code);
}

/// Appends the spellings of the first characters, as far as their codes are their spellings, where there is space for as many bytes as there are
/// characters; and returns the number of these. Nearly all characters are such, and each is a store without another test.
#[inline(always)]
fn append_plain(out: &mut Vec<u8>, codes: &[u8]) -> usize
    ensures count { result ≤ length codes.now }
    ensures bytes { out.new.items ≡ out.old.items ++ bytes_of (characters (take result codes.now)) }
{
    if codes.len() > out.capacity() - out.len() {
        return 0;
    }
    for index in 0..codes.len() {
        let code = codes[index];
        if code >= 128 {
            return index;
        }
        append_plain_character(out, code);
    }
    codes.len()
}

/// Appends the spellings of characters one by one. Where memory is refused, a beginning of them may be there.
#[tactic(auto, unfolding(crate::specs::Spelling::spelling, crate::specs::Spelling::leaf_spelling))]
fn append_each(out: &mut Vec<u8>, codes: &[u8]) -> Result<(), AllocError>
    ensures ok { OnOk result (out.new.items ≡ out.old.items ++ bytes_of (characters codes.now)) }
    ensures left { OnErr result (take (length out.old.items) out.new.items ≡ out.old.items) }
{
    for code in codes {
        append_char(out, i32::from(*code))?;
    }
    Ok(())
}

/// Appends the spellings of characters. Where memory is refused, a beginning of them may be there.
#[inline(always)]
fn append_characters(out: &mut Vec<u8>, codes: &[u8]) -> Result<(), AllocError>
    ensures ok { OnOk result (out.new.items ≡ out.old.items ++ bytes_of (characters codes.now)) }
    ensures left { OnErr result (take (length out.old.items) out.new.items ≡ out.old.items) }
{
    let plain = append_plain(out, codes);
    if plain == codes.len() {
        return Ok(());
    }
    append_each(out, &codes[plain..])?;
    Ok(())
}

/// Appends characters.
fn push_characters(out: &mut Vec<BodyOp<'_>>, codes: &[u8]) -> Result<(), AllocError>
    ensures { OnOk result (map body_view out.new.items ≡ map body_view out.old.items ++ characters codes.now) }
{
    for code in codes {
        out.push(BodyOp::SetChar(i32::from(*code)))?;
    }
    Ok(())
}

impl<'a> PageRuns<'a> {
    /// The instructions in order.
    #[tactic(auto, unfolding(crate::specs::Runs::instructions_of))]
    pub fn instructions(&self, alloc: Global) -> Result<Vec<BodyOp<'a>>, AllocError>
        ensures { IfOk result (λ ops. map body_view ops.items ≡ instructions_of self.now) }
    {
        let mut out = Vec::new(alloc);
        let mut rest = self.codes.as_slice();
        let mut from = 0;
        for index in 0..self.ops.len() {
            let place = self.places[index];
            let (run, after) = split_codes(rest, place.saturating_sub(from));
            push_characters(&mut out, run)?;
            out.push(self.ops[index])?;
            rest = after;
            from = place;
        }
        push_characters(&mut out, rest)?;
        Ok(out)
    }

    /// Appends the spellings of the instructions. If memory is refused, a beginning of the spellings may be there, after what was there before.
    #[tactic(auto, unfolding(crate::specs::Runs::instructions_of))]
    fn append_spellings(&self, out: &mut Vec<u8>) -> Result<(), AllocError>
        requires { AllByRecursion HasSpelling (instructions_of self.now) }
        ensures ok { OnOk result (out.new.items ≡ out.old.items ++ bytes_of (instructions_of self.now)) }
        ensures left { OnErr result (take (length out.old.items) out.new.items ≡ out.old.items) }
    {
        let mut rest = self.codes.as_slice();
        let mut from = 0;
        for index in 0..self.ops.len() {
            let place = self.places[index];
            let (run, after) = split_codes(rest, place.saturating_sub(from));
            append_characters(out, run)?;
            spell_body(&self.ops[index], out)?;
            rest = after;
            from = place;
        }
        append_characters(out, rest)
    }

    /// Appends the spellings of the instructions. If memory is refused, `out` is as it was before the call.
    pub fn append_to(&self, out: &mut Vec<u8>) -> Result<(), AllocError>
        requires { AllByRecursion HasSpelling (instructions_of self.now) }
        ensures ok { OnOk result (out.new.items ≡ out.old.items ++ bytes_of (instructions_of self.now)) }
        ensures err { OnErr result (out.new.items ≡ out.old.items) }
    {
        let before = out.len();
        let appended = self.append_spellings(out);
        if appended.is_err() {
            out.truncate(before);
        }
        appended
    }
}
