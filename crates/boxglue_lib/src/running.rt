//! The program: it reads words and does the task that they ask for.

ghost use Rattle.std.specs.Prelude.{None, map, string_bytes};
ghost use Rattle.boxglue_program.specs.Reports.{any_bytes, written_bytes};
ghost use Rattle.boxglue_lib.specs.Programs.{HasDone, HasRun, RefusesWords};
ghost use Rattle.boxglue_lib.specs.Views.{streams_of, view_of};

use crate::font_listing::list_fonts;
use crate::tasks::{list, paint, run_input, session, typeset};
use crate::telling::{print_version, report_end, say, say_out_of_memory, tell};
use boxglue_words::{FileHost, Host, HostParts, StandardInput, Task, WordFault, read_words};
use std::alloc::Global;
use std::io::Write;

/// Writes why words are refused, and returns the status.
fn refuse_words<W: Write, E: Write>(
    alloc: Global,
    fault: &WordFault<'_>,
    output: &mut W,
    errors: &mut E,
) -> u8
    ensures { let took = streams_of W.contents E.contents in
        RefusesWords fault.now (took output.old errors.old) (took output.new errors.new) result }
{
    match fault {
        WordFault::Memory => {
            say_out_of_memory(output);
            return 1;
        }
        WordFault::Line(text) => say(errors, text.as_bytes()),
        WordFault::NotPair(word) => tell(alloc, errors, "boxglue: not NAME=TFM: ", word),
        WordFault::NameTwice(name) => tell(alloc, errors, "boxglue: name given twice: ", name),
    }
    2
}

/// Does a task, and returns the status and the files.
fn do_task<H: FileHost, I: StandardInput + Drop, W: Write, E: Write>(
    alloc: Global,
    task: Task<'_>,
    host: HostParts<I, H>,
    output: &mut W,
    errors: &mut E,
) -> (u8, H)
    ensures { let seen = view_of H.file H.created H.written H.failures in let took = streams_of W.contents E.contents in
        HasDone written_bytes task.entry (seen (I.remaining host.input) host.files) (seen None result.1)
        (took output.old errors.old) (took output.new errors.new) result.0 }
{
    match task {
        Task::Version => (print_version(output), host.files),
        Task::Memory => {
            let end = run_input(alloc, host.input, output);
            (report_end(alloc, end, output, errors), host.files)
        }
        Task::Typeset { out, fonts } => typeset(alloc, host, out, &fonts, output, errors),
        Task::Session { out, fonts } => session(alloc, host, out, &fonts, output, errors),
        Task::Listing { dvi, fonts } => {
            let end = list(alloc, &host.files, dvi, &fonts, output);
            (report_end(alloc, end, output, errors), host.files)
        }
        Task::Fonts { dvi } => {
            let end = list_fonts(alloc, &host.files, dvi, output);
            (report_end(alloc, end, output, errors), host.files)
        }
        Task::Painting {
            options,
            dvi,
            fonts,
        } => {
            let end = paint(alloc, &host.files, options, dvi, &fonts, output);
            (report_end(alloc, end, output, errors), host.files)
        }
    }
}

/// Reads words and does the task that they ask for, with the files and the standard input of a host. The host's files are returned: as they were,
/// except for the file that `typeset` or `session` writes. Answers, listings, bitmaps and what is wrong with a script or a DVI file go to the output,
/// messages to the errors.
///
/// The status is 0 if all was accepted and written; 2 if the words are wrong, or the file does not have the page that is asked for; and otherwise 1,
/// also where memory for the words was refused.
pub fn program<H: Host, W: Write, E: Write>(
    alloc: Global,
    words: &[String],
    host: H,
    output: &mut W,
    errors: &mut E,
) -> (u8, H::Files)
    ensures ran { let seen = view_of H.Files.file H.Files.created H.Files.written H.Files.failures in let took = streams_of W.contents E.contents in
        HasRun any_bytes (map string_bytes words.now) (seen (H.input host) (H.files host)) (seen None result.1)
        (took output.old errors.old) (took output.new errors.new) result.0 }

    // The same with the bytes that went to the file by the rules of its writer, also if something failed.
    ensures sent { let seen = view_of H.Files.file H.Files.created H.Files.written H.Files.failures in let took = streams_of W.contents E.contents in
        HasRun written_bytes (map string_bytes words.now) (seen (H.input host) (H.files host)) (seen None result.1)
        (took output.old errors.old) (took output.new errors.new) result.0 }
{
    let host = host.into_parts();
    match read_words(alloc, words) {
        Ok(task) => do_task(alloc, task, host, output, errors),
        Err(fault) => (refuse_words(alloc, &fault, output, errors), host.files),
    }
}
