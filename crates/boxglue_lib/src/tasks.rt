//! The tasks, with the files of a host.

ghost use Rattle.std.specs.Prelude.{◌≡◌, None, Err};
ghost use Rattle.boxglue_program.specs.Reports.{written_bytes};
ghost use Rattle.boxglue_words.specs.Readings.{IsReadable};
ghost use Rattle.boxglue_lib.specs.Ends.{EndsTask};
ghost use Rattle.boxglue_lib.specs.Printed.{LacksMemoryForDvi, listing_rules, painting_rules};
ghost use Rattle.boxglue_lib.specs.Programs.{input_rules};
ghost use Rattle.boxglue_lib.specs.Sessions.{HasSession};
ghost use Rattle.boxglue_lib.specs.Typesets.{HasTypeset, TellsUnwritten};
ghost use Rattle.boxglue_lib.specs.Views.{streams_of, view_of};

use crate::inputs::{read_dvi_inputs, read_script_inputs};
use crate::printing::{list_file, paint_file};
use crate::sessions::session_file;
use crate::task_fault::TaskFault;
use crate::telling::{report_end, tell};
use crate::typesetting::{TypesetEnd, typeset_file};
use boxglue_program::run_memory;
use boxglue_words::{FileHost, HostParts, NamedPath, PaintOptions, StandardInput, read_fonts};
use std::alloc::Global;
use std::io::Write;

/// Runs the script of standard input on a device in memory, and writes its answers and the bytes of the device. It has no fonts.
#[tactic(auto, using(crate::proofs::EndLemmas::memory))]
pub fn run_input<'a, I: StandardInput, W: Write>(
    alloc: Global,
    input: I,
    output: &mut W,
) -> Result<bool, TaskFault<'a>>
    ensures ended { EndsTask (input_rules written_bytes (I.remaining input)) result (W.contents output.old) (W.contents output.new) }
    ensures memory { result ≡ Err TaskFault.OutOfMemory → IsReadable (I.remaining input) }
{
    let text = input.read_whole(alloc).map_err(|fault| fault.at("-"))?;
    let accepted = run_memory(alloc, &text, &[], output)?;
    Ok(accepted)
}

/// Lists the DVI file at a path.
#[tactic(auto, using(crate::proofs::EndLemmas::memory))]
pub fn list<'a, H: FileHost, W: Write>(
    alloc: Global,
    host: &H,
    dvi: &'a str,
    fonts: &[NamedPath<'a>],
    output: &mut W,
) -> Result<bool, TaskFault<'a>>
    ensures ended { EndsTask (listing_rules (H.file host.now) dvi.entry.now fonts.now) result (W.contents output.old) (W.contents output.new) }
    ensures memory { result ≡ Err TaskFault.OutOfMemory → LacksMemoryForDvi (H.file host.now) dvi.entry.now fonts.now }
{
    let inputs = read_dvi_inputs(alloc, host, dvi, fonts)?;
    let accepted = list_file(alloc, &inputs.bytes, &inputs.files, output)?;
    Ok(accepted)
}

/// Paints a page of the DVI file at a path.
#[tactic(auto, using(crate::proofs::EndLemmas::memory))]
pub fn paint<'a, H: FileHost, W: Write>(
    alloc: Global,
    host: &H,
    options: PaintOptions,
    dvi: &'a str,
    fonts: &[NamedPath<'a>],
    output: &mut W,
) -> Result<bool, TaskFault<'a>>
    ensures ended { EndsTask (painting_rules (H.file host.now) options dvi.entry.now fonts.now) result (W.contents output.old)
        (W.contents output.new) }
    ensures memory { result ≡ Err TaskFault.OutOfMemory → LacksMemoryForDvi (H.file host.now) dvi.entry.now fonts.now }
{
    let inputs = read_dvi_inputs(alloc, host, dvi, fonts)?;
    let accepted = paint_file(alloc, &inputs.bytes, &inputs.files, options, output)?;
    Ok(accepted)
}

/// Reports a file that did not take all bytes.
fn tell_unwritten<E: Write>(alloc: Global, written: bool, out: &str, errors: &mut E)
    ensures { TellsUnwritten written out.now (E.contents errors.old) (E.contents errors.new) }
{
    if !written {
        tell(alloc, errors, "boxglue: cannot write ", out);
    }
}

/// Runs the script of standard input, and writes its pages to the file `out`. Returns the status and the files.
pub fn typeset<H: FileHost, I: StandardInput + Drop, W: Write, E: Write>(
    alloc: Global,
    host: HostParts<I, H>,
    out: &str,
    fonts: &[NamedPath<'_>],
    output: &mut W,
    errors: &mut E,
) -> (u8, H)
    ensures { let seen = view_of H.file H.created H.written H.failures in let took = streams_of W.contents E.contents in
        HasTypeset written_bytes out.now fonts.now (seen (I.remaining host.input) host.files) (seen None result.1)
        (took output.old errors.old) (took output.new errors.new) result.0 }
{
    let HostParts { input, files } = host;
    let inputs = match read_script_inputs(alloc, &files, input, fonts) {
        Ok(inputs) => inputs,
        Err(fault) => {
            let end = Err(TaskFault::from(fault));
            return (report_end(alloc, end, output, errors), files);
        }
    };
    let TypesetEnd {
        end,
        written,
        host,
        ..
    } = typeset_file(alloc, files, out, &inputs, output);
    tell_unwritten(alloc, written, out, errors);
    (report_end(alloc, end, output, errors), host)
}

/// Runs the lines of standard input as they come, and writes the pages to the file `out`. Returns the status and the files.
pub fn session<H: FileHost, I: StandardInput + Drop, W: Write, E: Write>(
    alloc: Global,
    host: HostParts<I, H>,
    out: &str,
    fonts: &[NamedPath<'_>],
    output: &mut W,
    errors: &mut E,
) -> (u8, H)
    ensures { let seen = view_of H.file H.created H.written H.failures in let took = streams_of W.contents E.contents in
        HasSession written_bytes out.now fonts.now (seen (I.remaining host.input) host.files) (seen None result.1)
        (took output.old errors.old) (took output.new errors.new) result.0 }
{
    let HostParts { mut input, files } = host;
    let font_files = match read_fonts(alloc, &files, fonts) {
        Ok(font_files) => font_files,
        Err(unread) => {
            let end = Err(TaskFault::from(unread));
            return (report_end(alloc, end, output, errors), files);
        }
    };
    let TypesetEnd {
        end,
        written,
        host,
        ..
    } = session_file(alloc, files, out, &font_files, &mut input, output);
    tell_unwritten(alloc, written, out, errors);
    (report_end(alloc, end, output, errors), host)
}
