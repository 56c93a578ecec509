//! The task that a command line asks for.

use crate::fonts::NamedPath;
use raster_core::PaintOptions;

/// The line that `--version` prints: the program, its version, and the logic of the kit that proves it. No other place in the code has them.
pub const VERSION_LINE: &str = "boxglue 1.2.0 (rattle logic dac8208d650f15bf)\n";

/// The task that a command line asks for.
#[derive(Debug, Drop)]
pub enum Task<'a> {
    /// Prints the version.
    Version,
    /// No words: runs the script of standard input on a device in memory.
    Memory,
    /// Runs the script of standard input, and writes the DVI file at this path.
    Typeset {
        out: &'a str,
        fonts: Vec<NamedPath<'a>>,
    },
    /// Runs the lines of standard input as they come, and writes the DVI file at this path.
    Session {
        out: &'a str,
        fonts: Vec<NamedPath<'a>>,
    },
    /// Lists the pages of the DVI file at this path.
    Listing {
        dvi: &'a str,
        fonts: Vec<NamedPath<'a>>,
    },
    /// Prints the fonts that the DVI file at this path defines.
    Fonts {
        dvi: &'a str,
    },
    /// Paints a page of the DVI file at this path.
    Painting {
        options: PaintOptions,
        dvi: &'a str,
        fonts: Vec<NamedPath<'a>>,
    },
}
