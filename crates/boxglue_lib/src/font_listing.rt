//! `fonts`: the units of a DVI file and the fonts that it defines.

ghost use Rattle.std.specs.Prelude.{◌≡◌, Err};
ghost use Rattle.boxglue_words.specs.Readings.{IsReadableFile};
ghost use Rattle.boxglue_lib.specs.Ends.{EndsTask};
ghost use Rattle.boxglue_lib.specs.FontListings.{font_rules};

use crate::task_fault::TaskFault;
use boxglue_print::{Output, fonts_text};
use boxglue_program::write_text;
use boxglue_words::FileHost;
use std::alloc::Global;
use std::io::Write;

/// Prints the units of the DVI file at a path and the fonts that it defines. All memory is taken before anything is written.
#[tactic(auto, using(crate::proofs::FontLemmas::was_readable_file))]
pub fn list_fonts<'a, H: FileHost, W: Write>(
    alloc: Global,
    host: &H,
    dvi: &'a str,
    output: &mut W,
) -> Result<bool, TaskFault<'a>>
    ensures ended { EndsTask (font_rules (H.file host.now) dvi.entry.now) result (W.contents output.old) (W.contents output.new) }
    ensures memory { result ≡ Err TaskFault.OutOfMemory → IsReadableFile (H.file host.now dvi.entry.now) }
{
    let bytes = host.read_file(alloc, dvi).map_err(|fault| fault.at(dvi))?;
    let Output { text, accepted } = fonts_text(alloc, &bytes)?;
    write_text(output, &text)?;
    Ok(accepted)
}
