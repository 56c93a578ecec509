//! The numbers of fonts that are defined after post, found before the pages are read (DVItype, 18 and 19).

ghost use Rattle.std.specs.Prelude.{◌≡◌, ◌≤◌, ◌<◌, false, length, IfNone, IfOk, IfSome, OnErr};
ghost use Rattle.std.specs.BTreeSet.{IsUnchanged};
ghost use Rattle.dvi_scan.specs.Reached.{has_number};
ghost use Rattle.dvi_scan.specs.AfterPost.{AreAfterPost, LacksNumber, NothingIdle};
ghost use Rattle.dvi_scan.specs.Private.AfterPost.{LooksOne, MeetsNumber};

use crate::definitions::FontNumber;
use crate::read_at;
use dvi_ops::{BodyOp, Op};
use std::alloc::{AllocError, Global};
use std::collections::BTreeSet;

/// The numbers of fonts that are defined after post, in a search tree.
pub type NumbersAfterPost = BTreeSet<i32>;

/// Whether a number is defined after post. It takes no memory, and time logarithmic in the count of numbers.
pub fn is_after_post(numbers: &NumbersAfterPost, number: FontNumber) -> bool
    ensures { result ≡ has_number numbers.now.keys number.value }
{
    numbers.contains(&number.value)
}

/// Keeps the number of a definition, and returns the place after the instruction, if it is a nop or a definition. The size and the name of a
/// definition are not tested here.
fn look_one(
    bytes: &[u8],
    at: usize,
    to: usize,
    numbers: &mut NumbersAfterPost,
) -> Result<Option<usize>, AllocError>
    requires low { at < to }
    requires high { to ≤ length bytes.now }
    ensures definition_found { IfOk result (λ found. IfSome found (LooksOne bytes.now at to numbers.old.keys numbers.new.keys)) }
    ensures none { IfOk result (λ found. IfNone found (NothingIdle bytes.now at to × IsUnchanged numbers.old numbers.new)) }
    ensures memory { OnErr result (MeetsNumber bytes.now at to numbers.old.keys) }
{
    let (op, next) = match read_at(bytes, at, to) {
        Ok(found) => found,
        Err(_) => return Ok(None),
    };
    match op {
        Op::Body(BodyOp::Nop) => Ok(Some(next)),
        Op::FontDef(font) => {
            numbers.insert(font.number)?;
            Ok(Some(next))
        }
        _ => Ok(None),
    }
}

/// Returns the numbers that are defined between two places: from the first place up to the first instruction that is cut off, or is neither a nop nor
/// a definition. The definitions after post only give numbers here, and a wrong one is reported at its own place later. It takes memory for the
/// numbers; the result is an Err where this is refused.
pub fn prescan_definitions(
    alloc: Global,
    bytes: &[u8],
    from: usize,
    to: usize,
) -> Result<NumbersAfterPost, AllocError>
    requires low { from ≤ to }
    requires high { to ≤ length bytes.now }
    ensures ok { IfOk result (λ numbers. AreAfterPost bytes.now from to numbers.keys) }
    // Memory is refused only for a number that was not met before.
    ensures memory { OnErr result (LacksNumber bytes.now from to) }
{
    let mut numbers = BTreeSet::new(alloc);
    let mut at = from;
    while at < to {
        at = match look_one(bytes, at, to, &mut numbers)? {
            Some(next) => next,
            None => return Ok(numbers),
        };
    }
    Ok(numbers)
}
