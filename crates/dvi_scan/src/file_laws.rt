//! Laws of the pass over a whole file: it is the definition of a file of these pages, read from the start to the end.

ghost use Rattle.std.specs.Prelude.{◌≡◌, ◌%◌, List, length, ℕ};
ghost use Rattle.std.specs.List.{AllByRecursion};
ghost use Rattle.dvi_ops.specs.File.{IsFile, MarkedPage};
ghost use Rattle.dvi_ops.specs.Fonts.{WidthsByName, first_definition_of, definitions, selections};
ghost use Rattle.dvi_ops.specs.Instruction.{Postamble};
ghost use Rattle.dvi_ops.specs.Tokens.{token_instructions};
ghost use Rattle.dvi_scan.specs.Passed.{file_framing, IsFramed, IsPassed};

/// Bytes that the pass accepts are a file of the pages that it gives.
pub fn passed_is_file()
    ensures { (metrics : WidthsByName) (bytes : List ℕ) (post after last : ℕ) (postamble : Postamble) (chain : List ℕ) (pages : List MarkedPage)
        → IsFramed bytes post after last postamble chain → postamble.pages ≡ length chain % 65536
        → IsPassed metrics bytes (file_framing post after last postamble chain) pages → IsFile metrics bytes pages }
{}

/// The pass accepts each file, and gives its pages.
pub fn file_is_passed()
    ensures { (metrics : WidthsByName) (bytes : List ℕ) (post after last : ℕ) (postamble : Postamble) (chain : List ℕ) (pages : List MarkedPage)
        → IsFramed bytes post after last postamble chain
        → IsFile metrics bytes pages → IsPassed metrics bytes (file_framing post after last postamble chain) pages }
{}

/// In a file, a selected font has one definition: the first one of its number in the file, which is before the selection, equals the first one after
/// post. So the widths may be taken from either.
pub fn selected_fonts_have_one_definition()
    ensures { (metrics : WidthsByName) (bytes : List ℕ) (pages : List MarkedPage) (f : IsFile metrics bytes pages)
        → AllByRecursion (λ n. first_definition_of n (definitions (token_instructions f.frame.front))
        ≡ first_definition_of n (definitions (token_instructions f.frame.tail)))
        (selections (token_instructions f.frame.front)) }
{}
