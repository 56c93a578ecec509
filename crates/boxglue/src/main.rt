//! Boxglue: a typesetter of command scripts with TeX's model of boxes and glue.
#![tactic(auto)]

mod blocking_stream;
mod later_words;
mod system_host;

use blocking_stream::BlockingStream;
use boxglue_lib::{program, refuse_memory, write_text};
use later_words::LaterWords;
use std::fs::{File, OpenOptions};
use std::io::ErrorKind;
use std::os::fd::AsRawFd;
use std::process::ExitCode;
use system_host::SystemHost;

/// The message for an argument that is not UTF-8. It is that of `clap`, which never gets such an argument.
const NOT_UTF8_MESSAGE: &str = "\
error: invalid UTF-8 was detected in one or more arguments

Usage: boxglue [COMMAND]

For more information, try '--help'.
";

/// Folders of which one is opened three times before anything else. The number of a closed standard stream goes to the next file that is opened. What
/// is meant for the stream would then go into that file, and what is read of the stream would be its bytes. So the numbers of all three are taken
/// first. A folder can be neither read nor written as a stream, so each use of a closed stream fails, whichever stream it is. The user may lack the
/// right to read the first one.
const FOLDERS: [&str; 2] = ["/", "."];

/// The file that stands in where no folder can be opened. It can be read and written, so it is opened only for reading or only for writing.
const NULL: &str = "/dev/null";

/// The number of standard input.
const INPUT: i32 = 0;

/// Opens `NULL` for reading, so that a write to it fails, or where it has the number of standard input for writing, so that a reading fails.
fn null_file(rt: &HostRuntime) -> Option<File> {
    let file = File::open(rt, NULL).ok()?;
    if file.as_raw_fd() != INPUT {
        return Some(file);
    }
    drop(file);
    OpenOptions::new().write(true).open(rt, NULL).ok()
}

/// A file that is open while the program runs, if there is one that can be opened.
fn placeholder(rt: &HostRuntime) -> Option<File> {
    for path in FOLDERS {
        if let Ok(file) = File::open(rt, path) {
            return Some(file);
        }
    }
    null_file(rt)
}

/// The program takes no words, or a task with its own: a script from standard input, answers to standard output.
///
/// Its status is 0 if nothing was refused; 2 if the words are refused, or the file does not have the page that is asked for; and otherwise 1.
fn main(rt: HostRuntime) -> ExitCode {
    let alloc = rt.alloc();
    let _input = placeholder(&rt);
    let _output = placeholder(&rt);
    let _errors = placeholder(&rt);
    let mut output = BlockingStream::new(&rt, rt.stdout());
    let mut errors = BlockingStream::new(&rt, rt.stderr());
    let words: Vec<String> = match std::env::args(&LaterWords::of(&rt)) {
        Ok(words) => match words.collect(alloc) {
            Ok(words) => words,
            Err(_) => {
                let _ = refuse_memory(&mut output);
                return ExitCode::from(1);
            }
        },
        Err(fault) if fault.kind() == ErrorKind::OutOfMemory => {
            let _ = refuse_memory(&mut output);
            return ExitCode::from(1);
        }
        Err(_) => {
            let _ = write_text(&mut errors, NOT_UTF8_MESSAGE.as_bytes());
            return ExitCode::from(2);
        }
    };
    let (status, _) = program(
        alloc,
        &words,
        SystemHost::new(&rt),
        &mut output,
        &mut errors,
    );
    ExitCode::from(status)
}
