//! The command line, built for clap.

ghost use Rattle.std.specs.Prelude.{◌≡◌, ◌≤◌, false, pos, IfOk};
ghost use Rattle.clap.specs.Words.{app_of, new_app, rule_of};
ghost use Rattle.clap.specs.declared.builder.Command.TheViews.{out-Command};
ghost use Rattle.clap.specs.declared.builder.value_parser.ValueParser.TheVariants.{Signed};
ghost use Rattle.boxglue_words.specs.CommandLine.{plain_program, boxglue, fonts_rule, lists, names_fonts, number_rule, paint, path_rule, session};
ghost use Rattle.boxglue_words.specs.CommandLine.{typeset};

use crate::task::VERSION_LINE;
use clap::builder::ValueParser;
use clap::{Arg, ArgAction, Command, value_parser};
use std::alloc::{AllocError, Global};

/// A text, and after it what a reader of a help reads next.
macro_rules! with_read_next {
    ($text:literal) => {
        concat!(
            $text,
            "The manual page boxglue(1) describes every command, and docs/REFUSALS.md explains every refusal."
        )
    };
}

/// The six uses, each with an example; clap prints them at the end of the help.
const USES: &str = with_read_next!(
    "\
Uses:
  boxglue < page.box
      runs a script; prints its answers, and then the bytes of its DVI file
  boxglue typeset page.dvi cmr10=cmr10.tfm < page.box
      runs a script that uses the font cmr10; writes page.dvi and prints the answers
  boxglue session page.dvi cmr10=cmr10.tfm
      runs each line of standard input as it comes, and answers it at once; writes page.dvi
  boxglue list page.dvi cmr10=cmr10.tfm
      prints the glyphs, rules and specials of each page of a DVI file
  boxglue fonts page.dvi
      prints the units of a DVI file, and the fonts that it defines
  boxglue paint --page 1 --dpi 100 --width 850 --height 1100 page.dvi cmr10=cmr10.tfm > page.pbm
      prints page 1 as a bitmap: its rules, without the shapes of glyphs

"
);

/// What a reader of a subcommand's help reads next; clap prints it at the end of that help.
const READ_NEXT: &str = with_read_next!("");

/// A required path.
fn path<'a>(alloc: Global, id: &'static str, help: &'static str) -> Arg<'a>
    ensures rule { rule_of result ≡ path_rule id.now }
    ensures local { result.global ≡ false }
{
    Arg::new(alloc, id).help(help).required(true)
}

/// The words NAME=TFM, none or more.
fn fonts<'a>(alloc: Global) -> Arg<'a>
    ensures rule { rule_of result ≡ fonts_rule }
    ensures local { result.global ≡ false }
{
    Arg::new(alloc, "NAME=TFM")
        .help("the name of a font, and the path of its metric file")
        .action(ArgAction::Append)
        .num_args(0..)
}

/// Accepts the numbers from 1 to this one.
fn numbers<'a>(most: u32) -> ValueParser<'a>
    ensures { result ≡ Signed (pos 1) (pos most) }
{
    value_parser!(u32).range(1..=i64::from(most))
}

/// A required option with a number from 1 to this one.
fn number<'a>(alloc: Global, id: &'static str, most: u32, help: &'static str) -> Arg<'a>
    ensures rule { rule_of result ≡ number_rule id.now most }
    ensures local { result.global ≡ false }
{
    Arg::new(alloc, id)
        .long(id)
        .value_name("N")
        .help(help)
        .value_parser(numbers(most))
        .required(true)
}

/// A subcommand without arguments, whose help ends by what to read next.
fn subcommand<'a>(alloc: Global, name: &'static str, about: &'static str) -> Command<'a>
    ensures shape { app_of result ≡ new_app name.now }
    ensures local { (out-Command result).has_globals ≡ false }
{
    Command::new(alloc, name).about(about).after_help(READ_NEXT)
}

/// The subcommand `typeset`.
fn typeset<'a>(alloc: Global) -> Result<Command<'a>, AllocError>
    ensures shape { IfOk result (λ command. app_of command ≡ typeset) }
    ensures local { IfOk result (λ command. (out-Command command).has_globals ≡ false) }
{
    subcommand(
        alloc,
        "typeset",
        "runs the script on standard input and writes the DVI file OUT",
    )
    .arg(path(alloc, "OUT", "the DVI file to write"))?
    .arg(fonts(alloc))
}

/// The subcommand `session`.
fn session<'a>(alloc: Global) -> Result<Command<'a>, AllocError>
    ensures shape { IfOk result (λ command. app_of command ≡ session) }
    ensures local { IfOk result (λ command. (out-Command command).has_globals ≡ false) }
{
    subcommand(
        alloc,
        "session",
        "runs each line of standard input as it comes and writes the DVI file OUT",
    )
    .arg(path(alloc, "OUT", "the DVI file to write"))?
    .arg(fonts(alloc))
}

/// The subcommand `list`.
fn lists<'a>(alloc: Global) -> Result<Command<'a>, AllocError>
    ensures shape { IfOk result (λ command. app_of command ≡ lists) }
    ensures local { IfOk result (λ command. (out-Command command).has_globals ≡ false) }
{
    subcommand(
        alloc,
        "list",
        "prints the glyphs, rules and specials of each page of a DVI file",
    )
    .arg(path(alloc, "DVI", "the DVI file to read"))?
    .arg(fonts(alloc))
}

/// The subcommand `fonts`.
fn names_fonts<'a>(alloc: Global) -> Result<Command<'a>, AllocError>
    ensures shape { IfOk result (λ command. app_of command ≡ names_fonts) }
    ensures local { IfOk result (λ command. (out-Command command).has_globals ≡ false) }
{
    subcommand(
        alloc,
        "fonts",
        "prints the units of a DVI file and the fonts that it defines",
    )
    .arg(path(alloc, "DVI", "the DVI file to read"))
}

/// The subcommand `paint`.
fn paint<'a>(alloc: Global) -> Result<Command<'a>, AllocError>
    ensures shape { IfOk result (λ command. app_of command ≡ paint) }
    ensures local { IfOk result (λ command. (out-Command command).has_globals ≡ false) }
{
    subcommand(
        alloc,
        "paint",
        "prints the rules of a page as a bitmap in plain PBM",
    )
    .arg(number(alloc, "page", u32::MAX, "the page, counted from 1"))?
    .arg(number(alloc, "dpi", 10_000, "the resolution, in pixels per inch"))?
    .arg(number(alloc, "width", 10_000, "the width of the bitmap, in pixels"))?
    .arg(number(
        alloc,
        "height",
        10_000,
        "the height of the bitmap, in pixels",
    ))?
    .arg(path(alloc, "DVI", "the DVI file to read"))?
    .arg(fonts(alloc))
}

/// The command line without its subcommands.
fn alone<'a>(alloc: Global) -> Result<Command<'a>, AllocError>
    ensures { IfOk result (λ command. app_of command ≡ plain_program) }
{
    let command = Command::new(alloc, "boxglue").bin_name("boxglue")?;
    Ok(
        command
            .about("typesets scripts of boxes and glue into DVI files, and reads such files")
            .version(VERSION_LINE)
            .after_help(USES)
            .no_binary_name(true)
            .disable_help_subcommand(true),
    )
}

/// The command line of boxglue, for clap: no words, or `typeset`, `session`, `list`, `fonts` or `paint` with its own words. It has a version, so that
/// clap knows `--version` and `-V`. The error is a refused growth of memory.
pub fn command_line<'a>(alloc: Global) -> Result<Command<'a>, AllocError>
    ensures { IfOk result (λ command. app_of command ≡ boxglue) }
{
    alone(alloc)?
        .subcommand(typeset(alloc)?)?
        .subcommand(session(alloc)?)?
        .subcommand(lists(alloc)?)?
        .subcommand(names_fonts(alloc)?)?
        .subcommand(paint(alloc)?)
}
