//! Laws about DVI files, for the definition that the writer and the reader share (DVItype, 13 to 20).

ghost use Rattle.std.specs.Prelude.{◌≡◌, ◌++◌, ◌<◌, ◌≤◌, ◌+◌, ◌%◌, ◌^◌, [], ◌∷◌, List, length, ℕ, ℤ};
ghost use Rattle.dvi_ops.specs.Examples.{one_rule_file, one_rule_pages, two_page_file, two_pages, fonts_in_nested_boxes_file};
ghost use Rattle.dvi_ops.specs.Examples.{fonts_in_nested_boxes_pages, self_naming_file, stray_pop_file, short_file, miscounted_file};
ghost use Rattle.dvi_ops.specs.Examples.{undefined_font_file, shallow_file, GivesTiny};
ghost use Rattle.dvi_ops.specs.File.{IsFile, MarkedPage, max_pushes};
ghost use Rattle.dvi_ops.specs.Fonts.{WidthsByName};
ghost use Rattle.dvi_ops.specs.Instruction.{Definition};
ghost use Rattle.dvi_ops.specs.Layout.{AreGood, IsClosing, IsGood, FilePage, Table, WriterKnowledge, knowledge_after, after_all, after_preamble};
ghost use Rattle.dvi_ops.specs.Layout.{bytes_of, front_of, known_in, padding_after, file_page_from, whole_of};
ghost use Rattle.dvi_ops.specs.Spelling.{NumberFits};

/// The greatest number of pushes that may be open at once on a page, whatever post allows (own).
pub const MAX_PUSHES: usize = 1024;

/// The limit of open pushes is the one of the definitions.
pub fn limit_of_pushes()
    ensures { MAX_PUSHES ≡ max_pushes }
{}

/// Bytes are a file of at most one list of pages.
pub fn one_file()
    ensures { (metrics : WidthsByName) (bytes : List ℕ) (pages others : List MarkedPage)
        → IsFile metrics bytes pages → IsFile metrics bytes others → pages ≡ others }
{}

/// What this writer writes for good pages, and then the postamble, is a file of these pages, for any number of pages and fonts and any greatest
/// sizes.
pub fn whole_is_file()
    ensures { (metrics : WidthsByName) (table : Table) (file_pages : List FilePage) (pages : List MarkedPage)
        (tall wide : ℤ) (closing : List Definition) (padding : ℕ)
        → AreGood metrics table [] file_pages pages
        → IsClosing table (known_in [] file_pages) closing
        → NumberFits tall → NumberFits wide → (after_all after_preamble file_pages).size < 2 ^ 31 → 4 ≤ padding
        → IsFile metrics (whole_of file_pages tall wide closing padding) pages }
{}

/// A page adds its own bytes after those that were written before it. A good page after good ones makes good pages.
pub fn pages_are_added()
    ensures bytes { (file_pages : List FilePage) (p : FilePage)
        → front_of (file_pages ++ p ∷ []) ≡ front_of file_pages ++ bytes_of (file_page_from (after_all after_preamble file_pages).last p) }
    ensures state { (s : WriterKnowledge) (file_pages : List FilePage) (p : FilePage)
        → after_all s (file_pages ++ p ∷ []) ≡ knowledge_after (after_all s file_pages) p }
    ensures size { (file_pages : List FilePage) → (after_all after_preamble file_pages).size ≡ length (front_of file_pages) }
    ensures good { (metrics : WidthsByName) (table : Table) (known : List Definition) (file_pages : List FilePage) (pages : List MarkedPage)
        (p : FilePage) (page : MarkedPage)
        → AreGood metrics table known file_pages pages → page.counts ≡ p.counts
        → IsGood metrics table (known_in known file_pages) p page.marks
        → AreGood metrics table known (file_pages ++ p ∷ []) (pages ++ page ∷ []) }
{}

/// The end has four to seven bytes 223, so that the length is a multiple of four.
pub fn padding_is_right()
    ensures low { (size : ℕ) → 4 ≤ padding_after size }
    ensures high { (size : ℕ) → padding_after size ≤ 7 }
    ensures fills { (size : ℕ) → (size + padding_after size) % 4 ≡ 0 }
{}

/// A file with one more byte 223 at its end is a file of the same pages.
pub fn padding_may_grow()
    ensures { (metrics : WidthsByName) (bytes : List ℕ) (pages : List MarkedPage)
        → IsFile metrics bytes pages → IsFile metrics (bytes ++ 223 ∷ []) pages }
{}

/// The 116 bytes of the file of one rule are a file of one page with that rule.
pub fn one_rule_file_is_a_file()
    ensures { (metrics : WidthsByName) → IsFile metrics one_rule_file one_rule_pages }
{}

/// The 172 bytes of two such pages are a file of two pages with their counts.
pub fn two_page_file_is_a_file()
    ensures { (metrics : WidthsByName) → IsFile metrics two_page_file two_pages }
{}

/// The 196 bytes of a page with two fonts and a group are a file of one page with three glyphs.
pub fn fonts_in_nested_boxes_is_a_file()
    ensures { (metrics : WidthsByName) → GivesTiny metrics → IsFile metrics fonts_in_nested_boxes_file fonts_in_nested_boxes_pages }
{}

/// Bytes that are not a file of any pages: a first page that names itself as the previous page, a pop without a push, only three bytes 223, a wrong
/// number of pages, a selected font without a definition, and more open pushes than post allows.
pub fn what_is_no_file()
    ensures pointer { (metrics : WidthsByName) (pages : List MarkedPage) → ¬ IsFile metrics self_naming_file pages }
    ensures pop { (metrics : WidthsByName) (pages : List MarkedPage) → ¬ IsFile metrics stray_pop_file pages }
    ensures padding { (metrics : WidthsByName) (pages : List MarkedPage) → ¬ IsFile metrics short_file pages }
    ensures count { (metrics : WidthsByName) (pages : List MarkedPage) → ¬ IsFile metrics miscounted_file pages }
    ensures font { (metrics : WidthsByName) (pages : List MarkedPage) → ¬ IsFile metrics undefined_font_file pages }
    ensures depth { (metrics : WidthsByName) (pages : List MarkedPage) → ¬ IsFile metrics shallow_file pages }
{}
