//! Laws of the rows.

ghost use Rattle.std.specs.Prelude.{◌≡◌, ◌^◌, ℤ, List, false};
ghost use Rattle.scaled_core.specs.Dimensions.{Within};
ghost use Rattle.node_core.specs.declared.tree.BoxNode.{BoxNode};
ghost use Rattle.page_core.specs.Marks.{is_huge, marks_of_box};
ghost use Rattle.page_core.specs.Pages.{page_at};
ghost use Rattle.box_items.specs.Rows.{rows_of_box, texts_in};
ghost use Rattle.box_items.specs.Shown.{HasGlyphsAcross, marks_of_rows};

/// If the page of a box is not huge, the rows and the texts of the box show the marks of the page, in order and place. No vertical list has a glyph,
/// which a page would not show.
pub fn rows_show_the_page()
    ensures { (box_node : BoxNode) → (counts : List ℤ) → (h : ℤ) → (v : ℤ) → Within (2 ^ 64) h → Within (2 ^ 64) v
        → HasGlyphsAcross box_node.kind box_node.list → is_huge (page_at counts h v box_node) ≡ false
        → marks_of_rows h v (texts_in box_node.list) (rows_of_box box_node) ≡ marks_of_box box_node h v }
{}
