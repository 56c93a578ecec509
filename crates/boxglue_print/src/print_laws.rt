//! Laws that compare the definitions of lines with known lines.

ghost use Rattle.boxglue_print.specs.Faults.{KnownLines};
ghost use Rattle.boxglue_print.specs.FontLines.{KnownFontLines};

/// The known lines of refusals that a job has too.
pub fn lines_of_refusals()
    ensures { KnownLines }
{}

/// The known lines of units and fonts.
pub fn lines_of_fonts()
    ensures { KnownFontLines }
{}
