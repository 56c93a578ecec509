//! What shaping needs from a font.

use node_core::{Glue, Order};
use tfm_core::{Font, GlyphSize, Step};

/// The metrics of a font: the sizes of its characters, the kern or ligature between two of them, and its space. The character of a ligature is always
/// in the font.
pub trait Metrics {
    ghost use Rattle.std.specs.Prelude.{◌≡◌, ℕ, Option, Some, None, IfSome, IsSome};
    ghost use Rattle.node_core.specs.declared.tree.Glue.{Glue};
    ghost use Rattle.scaled_core.specs.declared.sizes.Sizes.{Sizes};
    ghost use Rattle.tfm_core.specs.declared.font.Step.{Step};
    ghost use Rattle.tfm_core.specs.declared.font.Step.TheVariants.{Ligature};

    ghost sizes: { Self → ℕ → Option Sizes };

    ghost steps: { Self → ℕ → ℕ → Option Step };

    ghost blank: { Self → Glue };

    /// The sizes of a character, or `None` if the font does not have it. Does not allocate.
    fn glyph(&self, code: u8) -> Option<GlyphSize>
        ensures { result ≡ sizes self.now code };

    /// The kern or ligature between a character and the one that follows it. Does not allocate.
    fn step(&self, code: u8, following: u8) -> Option<Step>
        ensures { result ≡ steps self.now code following };

    /// The sizes of a character between which and the following one there is neither a kern nor a ligature. It may be answered at one look, and saves
    /// shaping the others. `None` says nothing: a font that has no such look leaves this out. Does not allocate.
    fn alone(&self, code: u8, following: u8) -> Option<GlyphSize>
        ensures { IfSome result (λ size. (sizes self.now code ≡ Some size) × (steps self.now code following ≡ None)) }
    {
        None
    }

    /// The glue for a run of spaces. Does not allocate.
    fn space(&self) -> Glue
        ensures { result ≡ blank self.now };

    ghost ligatures: { (metrics : Self) (code following character : ℕ) → steps metrics code following ≡ Some (Ligature character)
        → IsSome (sizes metrics character) };
}

impl Metrics for Font {
    ghost use Rattle.tfm_core.specs.Fonts.{glyph_of, step_of};
    ghost use Rattle.tfm_core.proofs.LawLemmas.{ligature-there};
    ghost use Rattle.shape_core.specs.Spaces.{space_glue};

    ghost sizes = { glyph_of };

    ghost steps = { step_of };

    ghost blank = { λ font. space_glue font.space };

    ghost ligatures = { ligature-there };

    fn glyph(&self, code: u8) -> Option<GlyphSize> {
        Font::glyph(self, code)
    }

    fn step(&self, code: u8, following: u8) -> Option<Step> {
        Font::step(self, code, following)
    }

    #[inline(always)]
    fn alone(&self, code: u8, following: u8) -> Option<GlyphSize> {
        Font::alone(self, code, following)
    }

    fn space(&self) -> Glue {
        let space = Font::space(self);
        Glue {
            width: space.width,
            stretch: space.stretch,
            stretch_order: Order::Normal,
            shrink: space.shrink,
            shrink_order: Order::Normal,
        }
    }
}
