//! Laws of the definitions, and known scripts that the definitions are compared with.

ghost use Rattle.std.specs.Prelude.{◌≡◌, ◌++◌, ℕ, true, List};
ghost use Rattle.std.specs.Str.Lines.{lines};
ghost use Rattle.boxglue_script.specs.declared.line_content.LineContent.{LineContent};
ghost use Rattle.boxglue_script.specs.declared.script.Line.{Line};
ghost use Rattle.boxglue_script.specs.Script.{IsScript};
ghost use Rattle.boxglue_script.specs.LineContents.{SayEach, SayOne, IsWhole, lines_of_contents, has_no_bad};
ghost use Rattle.boxglue_script.specs.declared.cause.Cause.{Cause};
ghost use Rattle.boxglue_script.specs.declared.cause.Cause.TheVariants as causes;
ghost use Rattle.boxglue_script.specs.Causes.{IsFieldCause, IsCause};
ghost use Rattle.boxglue_script.specs.Rows.{OneRuleScript, UnitlessRow, TextScript, SpecialScript, NoSuchRegisterRow, NoSizeRow, SlashInNameRow};
ghost use Rattle.boxglue_script.specs.Rows.{TallBoxScript, NoRegisterRow, LateStretchRow};

/// The script of the one-rule page gives its four commands.
pub fn one_rule_script()
    ensures { OneRuleScript }
{}

/// If the second line of a script has a dimension without a unit, it is the first bad line, with the cause Dimension.
pub fn dimension_without_unit()
    ensures { UnitlessRow }
{}

/// A script with a font at a size, a comment, a text with spaces at its beginning and its end, and a character gives its four commands.
pub fn text_script()
    ensures { TextScript }
{}

/// A script with a special that has spaces at its beginning and its end, one without a text, and the last register gives its three commands.
pub fn special_script()
    ensures { SpecialScript }
{}

/// After a special, a register after the last one has the cause Number.
pub fn register_that_is_refused()
    ensures { NoSuchRegisterRow }
{}

/// A font of size 0 has the cause Number, and a name with a byte that is not allowed the cause Name.
pub fn fonts_that_are_refused()
    ensures size { NoSizeRow }
    ensures name { SlashInNameRow }
{}

/// A script with a vertical box of a given size, with a stretch of order fil, a penalty and a parameter, gives its five commands.
pub fn tall_box_script()
    ensures { TallBoxScript }
{}

/// `into` without its register has the cause Missing, and glue with its stretch after its shrink the cause Extra.
pub fn boxes_and_glue_that_are_refused()
    ensures register { NoRegisterRow }
    ensures stretch { LateStretchRow }
{}

/// If the cause Name holds of some fields, no other cause does.
pub fn name_is_the_one_cause()
    ensures { (fields : List (List ℕ)) → (cause : Cause) → IsFieldCause causes.Name fields → IsFieldCause cause fields → cause ≡ causes.Name }
{}

/// Of a line one cause holds at most: the byte that is not printable, or that of the first bad field from the left.
pub fn a_line_has_one_cause()
    ensures { (line : List ℕ) (cause other : Cause) → IsCause cause line → IsCause other line → cause ≡ other }
{}

/// The lines of a text whose lines are whole, and of what follows it, are those of the one and then those of the other.
pub fn lines_of_two_texts()
    ensures { (text more : List ℕ) → IsWhole text → lines (text ++ more) ≡ lines text ++ lines more }
{}

/// What the lines of an input say is one.
pub fn lines_say_one_thing()
    ensures { (all : List (List ℕ)) → SayOne all }
{}

/// What the lines of an input say in pieces is what they say at once.
pub fn reading_in_pieces()
    ensures { (text more : List ℕ) (first second : List LineContent) → IsWhole text → SayEach (lines text) first → SayEach (lines more) second
        → SayEach (lines (text ++ more)) (first ++ second) }
{}

/// The lines of a good script say just its commands, and no line is bad. An input without a bad line is a good script.
pub fn a_good_script_has_no_bad_line()
    ensures commands { (text : List ℕ) (found : List Line) (contents : List LineContent) → IsScript text found → SayEach (lines text) contents
        → lines_of_contents 1 contents ≡ found }
    ensures none { (text : List ℕ) (found : List Line) (contents : List LineContent) → IsScript text found → SayEach (lines text) contents
        → has_no_bad contents ≡ true }
    ensures good { (text : List ℕ) (contents : List LineContent) → SayEach (lines text) contents → has_no_bad contents ≡ true
        → IsScript text (lines_of_contents 1 contents) }
{}
