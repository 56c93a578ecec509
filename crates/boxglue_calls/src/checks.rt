//! The check of a DVI file, whose fault is given in numbers.

ghost use Rattle.std.specs.Prelude.{◌≡◌, ◌≢◌, true, IfOk, OnErr, OnOk};
ghost use Rattle.boxglue_calls.specs.Calls.{Checks, KeepsUndone, KeepsUnnamed, MayLackMemory, RefusesNames};
ghost use Rattle.boxglue_calls.specs.Buffers.{HandsOver};
ghost use Rattle.boxglue_calls.specs.FileFaults.{ChecksFile, fault_numbers, missing_name};
ghost use Rattle.boxglue_calls.specs.Fonts.{are_named, files_of};
ghost use Rattle.dvi_read.specs.declared.fault.DviFault.TheVariants.{OutOfMemory};

use crate::buffers::hand_over;
use crate::faults::{Fault, fault_numbers, missing_name, no_fault};
use crate::given::{Font, are_named, font_files};
use crate::status::{ACCEPTED, BAD_FONT_NAME, OUT_OF_MEMORY, REFUSED};
use boxglue_print::{Dvi, DviFault};
use std::alloc::{AllocError, Global};

/// Hands the fault of a file over, with the name of the font that is missing.
fn hand_over_fault(
    fault: DviFault<'_>,
    numbers: &mut Fault,
    name: &mut [u8],
) -> Result<u32, AllocError>
    ensures other { OnOk result (fault.entry ≢ OutOfMemory) }
    ensures numbers { OnOk result (numbers.new ≡ fault_numbers fault.entry) }
    ensures handed { IfOk result (HandsOver name.old name.new (missing_name fault.entry) 1) }
    ensures memory { OnErr result (fault.entry ≡ OutOfMemory) }
    ensures name { OnErr result (name.new ≡ name.old) }
{
    if let DviFault::OutOfMemory = fault {
        return Err(AllocError);
    }
    *numbers = fault_numbers(fault);
    Ok(hand_over(missing_name(fault), name, REFUSED))
}

/// Checks a DVI file with these fonts, which have names.
fn check_named(
    alloc: Global,
    dvi: &[u8],
    fonts: &[Font<'_>],
    fault: &mut Fault,
    name: &mut [u8],
) -> Result<u32, AllocError>
    requires { are_named fonts.now ≡ true }
    ensures checked { IfOk result (ChecksFile (files_of fonts.now) dvi.now (name.old, name.new) fault.new) }
    ensures memory { OnErr result (MayLackMemory dvi.now fonts.now) }
    ensures name { OnErr result (name.new ≡ name.old) }
{
    let files = font_files(alloc, fonts)?;
    match Dvi::open(alloc, dvi, &files) {
        Ok(_) => {
            *fault = no_fault();
            Ok(ACCEPTED)
        }
        Err(refused) => hand_over_fault(refused, fault, name),
    }
}

/// Checks a DVI file with these fonts, as `list` does. Why it is refused goes into `fault`, as numbers, and the name of a font that is missing into
/// `name`.
///
/// Returns ACCEPTED or REFUSED, and then both are written; BUFFER_TOO_SMALL, where the name does not fit, and OUT_OF_MEMORY, and then `fault` alone
/// is written; or BAD_FONT_NAME, and then nothing is.
pub fn check(
    alloc: Global,
    dvi: &[u8],
    fonts: &[Font<'_>],
    fault: &mut Fault,
    name: &mut [u8],
) -> u32
    ensures named { RefusesNames fonts.now result }
    ensures done { Checks dvi.now fonts.now (name.old, name.new) fault.new result }
    ensures fault { KeepsUnnamed result fault.old fault.new }
    ensures name { KeepsUndone result name.old name.new }
{
    if !are_named(fonts) {
        return BAD_FONT_NAME;
    }
    match check_named(alloc, dvi, fonts, fault, name) {
        Ok(status) => status,
        Err(AllocError) => {
            *fault = fault_numbers(DviFault::OutOfMemory);
            OUT_OF_MEMORY
        }
    }
}
