//! Laws about what was written.

ghost use Rattle.std.specs.Prelude.{◌≡◌, ◌≢◌, ◌++◌, [], ◌∷◌, ℕ, List, Option, length};
ghost use Rattle.dvi_device.specs.Written.{GrowsByFront};
ghost use Rattle.dvi_ops.specs.Layout.{after_all, after_preamble};
ghost use Rattle.page_core.specs.Marks.{ShippedPage};
ghost use Rattle.tfm_core.specs.Slots.{Slots};
ghost use Rattle.dvi_write.specs.Layout.{file_pages_of, unfinished_file, whole};
ghost use Rattle.dvi_write.specs.MoreFonts.{Extends};
ghost use Rattle.dvi_write.specs.SoFar.{last_bytes, next_bytes, so_far_of, with_next};
ghost use Rattle.dvi_write.specs.Writing.{HasWritten, Writing};

/// The numbers that the writer keeps are those of the layout of its pages, and what it sends for one more page makes their file.
pub fn kept_numbers_are_those_of_the_file()
    ensures layout { (fonts : Slots) (pages : List ShippedPage)
        → (so_far_of fonts pages).layout ≡ after_all after_preamble (file_pages_of fonts [] pages) }
    ensures size { (fonts : Slots) (pages : List ShippedPage) → pages ≢ []
        → (so_far_of fonts pages).layout.size ≡ length (unfinished_file fonts pages) }
    ensures kept { (fonts : Slots) (pages : List ShippedPage) (page : ShippedPage)
        → so_far_of fonts (pages ++ page ∷ []) ≡ with_next fonts (so_far_of fonts pages) page }
    ensures sent { (fonts : Slots) (pages : List ShippedPage) (page : ShippedPage)
        → unfinished_file fonts (pages ++ page ∷ []) ≡ unfinished_file fonts pages ++ next_bytes fonts (so_far_of fonts pages) page }
{}

/// A device that failed has taken a beginning of the file: in a page, of the file up to that page; at the end, of the whole file.
pub fn a_failed_device_has_a_beginning()
    ensures page { (fonts : Slots) (before new : Option (List ℕ)) (w : Writing) (pages : List ShippedPage) (page : ShippedPage)
        → HasWritten fonts before w pages → GrowsByFront w.bytes_written new (next_bytes fonts w.so_far page)
        → GrowsByFront before new (unfinished_file fonts (pages ++ page ∷ [])) }
    ensures end { (fonts : Slots) (before new : Option (List ℕ)) (w : Writing) (pages : List ShippedPage)
        → HasWritten fonts before w pages → w.so_far.pages ≢ 0 → GrowsByFront w.bytes_written new (last_bytes fonts w.so_far)
        → GrowsByFront before new (whole fonts pages) }
{}

/// Fonts may be loaded between two pages: what was written is the same with more fonts.
pub fn more_fonts_keep_what_was_written()
    ensures { (fonts more : Slots) (before : Option (List ℕ)) (w : Writing) (pages : List ShippedPage) → Extends fonts more
        → HasWritten fonts before w pages → HasWritten more before w pages }
{}
