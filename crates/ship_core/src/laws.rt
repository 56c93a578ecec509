//! Laws of the plan of a page.

ghost use Rattle.ship_core.specs.Shown.{ShowsItsMarks, CanBeWritten, IsDrawnPlainly, NestsAsItsBox};

/// The plan of a page that is not huge shows, by the meaning of DVI instructions, exactly the marks of the page, those of inner boxes included. It
/// does so from (0, 0), without a font, and whatever the values of w, x, y and z are. Each glyph needs the width that its font gives.
pub fn a_plan_shows_its_marks()
    ensures { ShowsItsMarks }
{}

/// Each instruction of the plan of a page that is not huge can be written, where each glyph has the width that its font gives. For every page, no
/// instruction sets or reads w, x, y or z, and the groups nest less deep than the box.
pub fn a_plan_can_be_written()
    ensures written { CanBeWritten }
    ensures plain { IsDrawnPlainly }
    ensures nests { NestsAsItsBox }
{}
