//! Laws of the steps of the pass over a file: right instructions take it forward, and in a file each instruction is right.

ghost use Rattle.std.specs.Prelude.{◌≡◌, ◌≤◌, ◌<◌, ◌-◌, ◌∷◌, [], List, None, drop, length, reverse, take, ℕ, ℤ};
ghost use Rattle.dvi_ops.specs.Fonts.{WidthsByName, definitions};
ghost use Rattle.dvi_ops.specs.Instruction.{Instruction, Postamble, Pre};
ghost use Rattle.dvi_ops.specs.Table.{Spells};
ghost use Rattle.dvi_ops.specs.File.{AreUnits, MarkedPage};
ghost use Rattle.dvi_ops.specs.Tokens.{Token, places, token_instructions};
ghost use Rattle.dvi_scan.specs.Chain.{Links};
ghost use Rattle.dvi_scan.specs.Passed.{file_framing, IsPassed};
ghost use Rattle.dvi_scan.specs.Pass.{Between};
ghost use Rattle.dvi_scan.specs.Reached.{AreNumbersOf, HasRight, IsIn, IsReached, IsRightAt, IsTail, PlacesLeft, ReadSoFar, all_left, before_pages};
ghost use Rattle.dvi_scan.specs.Reached.{after_bops};

/// A right instruction takes the pass forward.
pub fn right_goes_on()
    ensures { (metrics : WidthsByName) (after_post : List ℤ) (bytes : List ℕ) (postamble : Postamble) (chain : List ℕ) (at next : ℕ)
        (old new : ReadSoFar) (i : Instruction)
        → at ≤ next → next ≤ length bytes → IsReached metrics after_post bytes postamble chain at old
        → Spells i (take (next - at) (drop at bytes)) → IsRightAt metrics after_post postamble at old i new
        → IsReached metrics after_post bytes postamble chain next new }
{}

/// A preamble of version 2, with the units of the postamble, begins the pass: it is between pages, no font is known, and all pages are still to come.
pub fn preamble_begins()
    ensures { (metrics : WidthsByName) (after_post : List ℤ) (bytes : List ℕ) (postamble : Postamble) (chain : List ℕ) (next : ℕ) (comment : List ℕ)
        → next ≤ length bytes → Spells (Pre 2 postamble.units comment) (take next bytes)
        → IsReached metrics after_post bytes postamble chain next (before_pages chain) }
{}

/// The places that are left of a chain are those that are not before the place of the pass. So a bop that is not among them is not in the chain; and
/// where all bops are the places of the chain, none was missed and none is left.
pub fn later_places_are_left()
    ensures left { (metrics : WidthsByName) (after_post : List ℤ) (bytes : List ℕ) (postamble : Postamble) (chain : List ℕ) (at : ℕ) (s : ReadSoFar)
        (r : IsReached metrics after_post bytes postamble chain at s) (bound : ℕ) (pointer : ℤ) (place : ℕ)
        → at ≤ length bytes → Links bytes bound pointer chain → IsIn place (reverse chain) → at ≤ place → IsIn place s.left.places }
    ensures stray { (at : ℕ) (left : PlacesLeft) → after_bops (at ∷ []) left ≡ None → IsIn at left.places → ⊥ }
    ensures met { (metrics : WidthsByName) (after_post : List ℤ) (bytes : List ℕ) (postamble : Postamble) (chain : List ℕ) (at : ℕ) (s : ReadSoFar)
        (r : IsReached metrics after_post bytes postamble chain at s) → places 0 r.before ≡ reverse chain → s.left ≡ all_left [] }
{}

/// The pass ends at the place of post: between pages, with no page still to come, and with a right tail.
pub fn pass_ends()
    ensures { (metrics : WidthsByName) (bytes : List ℕ) (post after last : ℕ) (postamble : Postamble) (chain : List ℕ) (pages : List MarkedPage)
        (after_post : List ℤ) (s : ReadSoFar) (tail : List Token)
        → AreUnits postamble.units → AreNumbersOf after_post (definitions (token_instructions tail))
        → IsReached metrics after_post bytes postamble chain post s
        → s.pass ≡ Between pages → s.left ≡ all_left []
        → IsTail bytes after last s.known tail → IsPassed metrics bytes (file_framing post after last postamble chain) pages }
{}

/// In a file the pass goes on: a right instruction is at each place before post; at the place of post the pass is between pages, and no page is still
/// to come; and the tail is right.
pub fn files_are_right()
    ensures next { (metrics : WidthsByName) (bytes : List ℕ) (post after last : ℕ) (postamble : Postamble) (chain : List ℕ) (pages : List MarkedPage)
        (f : IsPassed metrics bytes (file_framing post after last postamble chain) pages) (small : post ≤ length bytes)
        (after_post : List ℤ) (numbers : AreNumbersOf after_post (definitions (token_instructions f.tail))) (at : ℕ) (s : ReadSoFar) (low : at ≤ post)
        (r : IsReached metrics after_post bytes postamble chain at s)
        → at < post → HasRight metrics after_post bytes postamble at post s }
    ensures end { (metrics : WidthsByName) (bytes : List ℕ) (post after last : ℕ) (postamble : Postamble) (chain : List ℕ) (pages : List MarkedPage)
        (f : IsPassed metrics bytes (file_framing post after last postamble chain) pages) (small : post ≤ length bytes)
        (after_post : List ℤ) (numbers : AreNumbersOf after_post (definitions (token_instructions f.tail))) (at : ℕ) (s : ReadSoFar) (low : at ≤ post)
        (r : IsReached metrics after_post bytes postamble chain at s)
        → at ≡ post → (s.pass ≡ Between pages) × (s.left ≡ all_left []) }
    ensures tail { (metrics : WidthsByName) (bytes : List ℕ) (post after last : ℕ) (postamble : Postamble) (chain : List ℕ) (pages : List MarkedPage)
        (f : IsPassed metrics bytes (file_framing post after last postamble chain) pages) → post ≤ length bytes
        → (after_post : List ℤ) (s : ReadSoFar)
        → IsReached metrics after_post bytes postamble chain post s → IsTail bytes after last s.known f.tail }
{}
