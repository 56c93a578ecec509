//! The instructions between post and post_post (DVItype, 18 and 19).

ghost use Rattle.std.specs.Prelude.{◌≡◌, ◌≤◌, ◌<◌, length, OnOk, IfErr, IfOk};
ghost use Rattle.dvi_scan.specs.Closing.{ClosesTo, IsClosingFault};
ghost use Rattle.dvi_scan.specs.Private.Closing.{ClosesOne, IsFaultAt};

use crate::definitions::KnownFonts;
use crate::known::define;
use crate::{BadDvi, DviCause, FrameFault, read_at};
use dvi_ops::{BodyOp, Op};

/// Processes one instruction, which has to be a nop or a right definition, and returns the place after it.
fn close_one<'a>(
    bytes: &'a [u8],
    at: usize,
    to: usize,
    known: &mut KnownFonts<'a>,
) -> Result<usize, FrameFault>
    requires low { at < to }
    requires high { to ≤ length bytes.now }
    ensures ok { IfOk result (ClosesOne bytes.now at to known.old known.new) }
    ensures bad { IfErr result (IsFaultAt bytes.now at to known.old known.new) }
{
    let (op, next) = match read_at(bytes, at, to) {
        Ok(found) => found,
        Err(fault) => {
            return Err(FrameFault::Bad(BadDvi {
                place: at,
                cause: DviCause::from(fault),
            }));
        }
    };
    match op {
        Op::Body(BodyOp::Nop) => Ok(next),
        Op::FontDef(font) => match define(known, &font) {
            Ok(()) => Ok(next),
            Err(fault) => Err(fault.at(at)),
        },
        _ => Err(FrameFault::Bad(BadDvi {
            place: at,
            cause: DviCause::Opcode,
        })),
    }
}

/// Adds the definitions between two places to the known ones. Only nops and right definitions may be there (DVItype, 18 and 19). It takes memory for
/// the definitions.
///
/// A fault names the place of the first instruction that is wrong: Truncated, Opcode or Font. The definitions before it are added, and also where
/// memory is refused for a definition.
pub fn read_trailing_definitions<'a>(
    bytes: &'a [u8],
    from: usize,
    to: usize,
    known: &mut KnownFonts<'a>,
) -> Result<(), FrameFault>
    requires low { from ≤ to }
    requires high { to ≤ length bytes.now }
    ensures ok { OnOk result (ClosesTo bytes.now from to known.old known.new) }
    ensures bad { IfErr result (IsClosingFault bytes.now from to known.old known.new) }
{
    let mut at = from;
    while at < to {
        at = close_one(bytes, at, to, known)?;
    }
    Ok(())
}
