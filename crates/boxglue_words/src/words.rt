//! Reading the words of a command line.

ghost use Rattle.std.specs.Prelude.{◌≡◌, ◌≢◌, ℕ, None, Some, IfOk, IfErr, IfSome, codes, map, string_bytes};
ghost use Rattle.clap.specs.Words.{first_of, found_of, kind_of, rows_of, subcommand_rows_of};
ghost use Rattle.clap.specs.declared.error.kind.ErrorKind.TheVariants.{DisplayVersion, OutOfMemory};
ghost use Rattle.raster_core.specs.PaintOptions.{PaintOptionsView};
ghost use Rattle.boxglue_words.specs.Pairs.{AreFonts, IsFaulty};
ghost use Rattle.boxglue_words.specs.Private.Steps.{IsFileFault, IsLine, IsTaskBy};
ghost use Rattle.boxglue_words.specs.Tasks.{Asks, AsksBy, IsNumber, IsRefused, IsRefusedBy, AreOptions, IsTask, IsTaskOf, Request, font_words};

use crate::command::command_line;
use crate::fonts::{NamedPath, WordFault};
use crate::pairs::read_pairs;
use crate::task::Task;
use clap::error::ErrorKind;
use clap::{ArgMatches, Error};
use raster_core::PaintOptions;
use std::alloc::Global;

/// The number of an option, if it is given and from 1 to `most`.
fn number(matches: &ArgMatches<'_>, id: &str, most: u32) -> Option<u32>
    ensures number_in_range { IfSome result (IsNumber most (rows_of (found_of matches.now)) id.now) }
    ensures none { result ≡ None → (number : ℕ) → IsNumber most (rows_of (found_of matches.now)) id.now number → ⊥ }
{
    let number = matches.get_one::<u32>(id)?;
    if number < 1 || number > most {
        return None;
    }
    Some(number)
}

/// The four numbers of `paint`.
fn options(matches: &ArgMatches<'_>) -> Option<PaintOptions>
    ensures options_returned { IfSome result (AreOptions (rows_of (found_of matches.now))) }
    ensures none { result ≡ None → (options : PaintOptionsView) → AreOptions (rows_of (found_of matches.now)) options → ⊥ }
{
    let page = number(matches, "page", u32::MAX)?;
    let dpi = number(matches, "dpi", 10_000)?;
    let width = number(matches, "width", 10_000)?;
    let height = number(matches, "height", 10_000)?;
    PaintOptions::try_new(page, dpi, width, height)
}

/// The fonts of a subcommand.
fn fonts<'a>(alloc: Global, matches: &ArgMatches<'a>) -> Result<Vec<NamedPath<'a>>, WordFault<'a>>
    ensures ok { IfOk result (λ fonts. AreFonts (font_words (rows_of (found_of matches.now))) fonts.items) }
    ensures err { IfErr result (IsFaulty (font_words (rows_of (found_of matches.now)))) }
{
    match matches.get_strs("NAME=TFM") {
        Some(words) => read_pairs(alloc, words),
        None => read_pairs(alloc, &[]),
    }
}

/// The file of a subcommand, and its fonts.
#[derive(Drop)]
struct FileWords<'a> {
    path: &'a str,
    fonts: Vec<NamedPath<'a>>,
}

/// The file of a subcommand, which is the argument `id`, and its fonts.
fn file_words<'a>(
    alloc: Global,
    matches: &ArgMatches<'a>,
    id: &str,
) -> Result<FileWords<'a>, WordFault<'a>>
    ensures path { IfOk result (λ file. first_of id.now (rows_of (found_of matches.now)) ≡ Some file.path.now) }
    ensures fonts { IfOk result (λ file. AreFonts (font_words (rows_of (found_of matches.now))) file.fonts.items) }
    ensures err { IfErr result (IsFileFault id.now (rows_of (found_of matches.now))) }
{
    let Some(path) = matches.get_str(id) else {
        return Err(no_line(alloc));
    };
    let fonts = fonts(alloc, matches)?;
    Ok(FileWords { path, fonts })
}

/// The task of `typeset`.
fn typesets<'a>(alloc: Global, matches: &ArgMatches<'a>) -> Result<Task<'a>, WordFault<'a>>
    ensures ok { IfOk result (IsTaskBy (codes "typeset") (rows_of (found_of matches.now))) }
    ensures err { IfErr result (IsRefusedBy (AsksBy (codes "typeset") (rows_of (found_of matches.now)))) }
{
    let file = file_words(alloc, matches, "OUT")?;
    Ok(Task::Typeset {
        out: file.path,
        fonts: file.fonts,
    })
}

/// The task of `session`.
fn holds_session<'a>(alloc: Global, matches: &ArgMatches<'a>) -> Result<Task<'a>, WordFault<'a>>
    ensures ok { IfOk result (IsTaskBy (codes "session") (rows_of (found_of matches.now))) }
    ensures err { IfErr result (IsRefusedBy (AsksBy (codes "session") (rows_of (found_of matches.now)))) }
{
    let file = file_words(alloc, matches, "OUT")?;
    Ok(Task::Session {
        out: file.path,
        fonts: file.fonts,
    })
}

/// The task of `list`.
fn lists<'a>(alloc: Global, matches: &ArgMatches<'a>) -> Result<Task<'a>, WordFault<'a>>
    ensures ok { IfOk result (IsTaskBy (codes "list") (rows_of (found_of matches.now))) }
    ensures err { IfErr result (IsRefusedBy (AsksBy (codes "list") (rows_of (found_of matches.now)))) }
{
    let file = file_words(alloc, matches, "DVI")?;
    Ok(Task::Listing {
        dvi: file.path,
        fonts: file.fonts,
    })
}

/// The task of `fonts`.
fn names_fonts<'a>(alloc: Global, matches: &ArgMatches<'a>) -> Result<Task<'a>, WordFault<'a>>
    ensures ok { IfOk result (IsTaskBy (codes "fonts") (rows_of (found_of matches.now))) }
    ensures err { IfErr result (IsRefusedBy (AsksBy (codes "fonts") (rows_of (found_of matches.now)))) }
{
    match matches.get_str("DVI") {
        Some(dvi) => Ok(Task::Fonts { dvi }),
        None => Err(no_line(alloc)),
    }
}

/// The task of `paint`.
fn paints<'a>(alloc: Global, matches: &ArgMatches<'a>) -> Result<Task<'a>, WordFault<'a>>
    ensures ok { IfOk result (IsTaskBy (codes "paint") (rows_of (found_of matches.now))) }
    ensures err { IfErr result (IsRefusedBy (AsksBy (codes "paint") (rows_of (found_of matches.now)))) }
{
    let Some(options) = options(matches) else {
        return Err(no_line(alloc));
    };
    let file = file_words(alloc, matches, "DVI")?;
    Ok(Task::Painting {
        options,
        dvi: file.path,
        fonts: file.fonts,
    })
}

/// The task of the subcommand with this name.
fn read_subcommand<'a>(
    alloc: Global,
    name: &str,
    matches: &ArgMatches<'a>,
) -> Result<Task<'a>, WordFault<'a>>
    ensures ok { IfOk result (IsTaskBy name.now (rows_of (found_of matches.now))) }
    ensures err { IfErr result (IsRefusedBy (AsksBy name.now (rows_of (found_of matches.now)))) }
{
    match name {
        "typeset" => typesets(alloc, matches),
        "session" => holds_session(alloc, matches),
        "list" => lists(alloc, matches),
        "fonts" => names_fonts(alloc, matches),
        "paint" => paints(alloc, matches),
        _ => Err(no_line(alloc)),
    }
}

/// The task of the matches of a command line.
fn read_matches<'a>(alloc: Global, matches: &ArgMatches<'a>) -> Result<Task<'a>, WordFault<'a>>
    ensures ok { IfOk result (λ task. (request : Request) × Asks (subcommand_rows_of matches.now) request × IsTaskOf request task) }
    ensures err { IfErr result (IsRefusedBy (Asks (subcommand_rows_of matches.now))) }
{
    match matches.subcommand() {
        Some((name, inner)) => read_subcommand(alloc, name, inner),
        None => Ok(Task::Memory),
    }
}

/// The fault of a line that has no valid form.
fn no_line<'a>(alloc: Global) -> WordFault<'a>
    ensures { IsLine result }
{
    match String::from_str(alloc, "error: the words are no command line\n") {
        Ok(text) => WordFault::Line(text),
        Err(_) => WordFault::Memory,
    }
}

/// The fault of a line that clap refuses: clap's text, or Memory if clap ran out of memory.
fn line_fault<'a>(alloc: Global, error: &Error) -> WordFault<'a>
    ensures line { IsLine result }
    ensures memory { kind_of error.now ≡ OutOfMemory → result ≡ WordFault.Memory }
{
    if error.kind() == ErrorKind::OutOfMemory {
        return WordFault::Memory;
    }
    match format!(in alloc; "{error}") {
        Ok(text) => WordFault::Line(text),
        Err(_) => WordFault::Memory,
    }
}

/// The task of a line for which clap gives no matches: the version, if that is clap's answer; otherwise the line is refused.
fn read_error<'a>(alloc: Global, error: &Error) -> Result<Task<'a>, WordFault<'a>>
    ensures ok { IfOk result (λ task. (task ≡ Task.Version) × (kind_of error.now ≡ DisplayVersion)) }
    ensures line { IfErr result IsLine }
    ensures other { IfErr result (λ fault. kind_of error.now ≢ DisplayVersion) }
    ensures memory { IfErr result (λ fault. kind_of error.now ≡ OutOfMemory → fault ≡ WordFault.Memory) }
{
    if error.kind() == ErrorKind::DisplayVersion {
        return Ok(Task::Version);
    }
    Err(line_fault(alloc, error))
}

/// Reads a command line, and returns its task with the fonts of its words NAME=TFM.
///
/// Errors: Line if the words are no command line, with the text for the user, which may be help; NotPair and NameTwice with the first faulty word
/// NAME=TFM; Memory if a growth was refused.
pub fn read_words<'a>(alloc: Global, words: &'a [String]) -> Result<Task<'a>, WordFault<'a>>
    ensures ok { IfOk result (IsTask (map string_bytes words.now)) }
    ensures err { IfErr result (IsRefused (map string_bytes words.now)) }
{
    let line = command_line(alloc)?;
    match line.try_get_matches_from(words) {
        Ok(matches) => read_matches(alloc, &matches),
        Err(error) => read_error(alloc, &error),
    }
}
