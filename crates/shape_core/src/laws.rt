//! Laws of the definitions.

ghost use Rattle.std.specs.Prelude.{◌≡◌, ◌↔◌, ℕ, List, Option};
ghost use Rattle.std.specs.List.{AllByRecursion};
ghost use Rattle.node_core.specs.declared.tree.Glue.{Glue};
ghost use Rattle.node_core.specs.declared.tree.Node.{Node};
ghost use Rattle.shape_core.specs.Shaping.{IsGlyphOf, Shaping, shaped_items, shaped_missing};
ghost use Rattle.shape_core.specs.Texts.{HasParts, TextPart, parts_of, text_items};
ghost use Rattle.scaled_core.specs.declared.sizes.Sizes.{Sizes};
ghost use Rattle.tfm_core.specs.declared.font.Step.{Step};

/// `shaped_items` and `shaped_missing` give the only shaping of a word.
pub fn words_have_one_shaping()
    ensures { (slot : ℕ) (sizes : ℕ → Option Sizes) (steps : ℕ → ℕ → Option Step) (word : List ℕ) (items : List Node) (n : ℕ) →
        (Shaping slot sizes steps word items n ↔ ((items ≡ shaped_items slot sizes steps word) × (n ≡ shaped_missing sizes steps word))) }
{}

/// `parts_of` gives the only way to cut a text into its parts.
pub fn texts_are_cut_in_one_way()
    ensures { (text : List ℕ) (parts : List TextPart) → (HasParts text parts ↔ (parts ≡ parts_of text)) }
{}

/// Each glyph among the items of a word or a text has the slot of the font, and the sizes that the font gives to its character.
pub fn glyphs_have_their_sizes()
    ensures words { (slot : ℕ) (sizes : ℕ → Option Sizes) (steps : ℕ → ℕ → Option Step) (word : List ℕ) →
        AllByRecursion (IsGlyphOf slot sizes) (shaped_items slot sizes steps word) }
    ensures texts { (slot : ℕ) (sizes : ℕ → Option Sizes) (steps : ℕ → ℕ → Option Step) (blank : Glue) (text : List ℕ) →
        AllByRecursion (IsGlyphOf slot sizes) (text_items slot sizes steps blank text) }
{}
