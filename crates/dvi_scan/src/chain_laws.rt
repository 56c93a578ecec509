//! Laws about the end of a file and its chain of pages, in relation to the whole file.

ghost use Rattle.std.specs.Prelude.{◌≡◌, ◌++◌, ◌%◌, [], ◌∷◌, List, length, map, negsuc, pos, reverse, ℕ, ℤ};
ghost use Rattle.std.specs.List.{AllByRecursion};
ghost use Rattle.dvi_ops.specs.File.{Frame, IsFile, MarkedPage};
ghost use Rattle.dvi_ops.specs.Fonts.{WidthsByName};
ghost use Rattle.dvi_ops.specs.Instruction.{Postamble};
ghost use Rattle.dvi_ops.specs.Tokens.{IsSpelled, Token, places, pointers, token_instructions, token_bytes};
ghost use Rattle.dvi_scan.specs.Chain.{BreaksChain, Links};
ghost use Rattle.dvi_scan.specs.Ends.{BreaksEnd, HasPostamble};
ghost use Rattle.dvi_scan.specs.declared.fault.DviCause.{DviCause};

/// The end of the bytes is unique: the place of the version, and post.
pub fn one_end()
    ensures { (bytes : List ℕ) (post e post' e' : ℕ) (postamble postamble' : Postamble)
        → HasPostamble bytes post e postamble → HasPostamble bytes post' e' postamble' → (e ≡ e') × (post ≡ post') × (postamble ≡ postamble') }
{}

/// Each file has an end, which names its post. So bytes that break a rule of the end are no file.
pub fn files_have_ends()
    ensures end { (bytes : List ℕ) (f : Frame bytes) → (e : ℕ) × HasPostamble bytes (length (token_bytes f.front)) e f.postamble }
    ensures none { (bytes : List ℕ) (place : ℕ) (cause : DviCause) → BreaksEnd bytes place cause → Frame bytes → ⊥ }
{}

/// A pointer leads to at most one list of places. It leads to the places of all bops exactly where each bop names the one before it and the pointer
/// names the last.
pub fn chain_is_linked()
    ensures one { (bytes : List ℕ) (bound other : ℕ) (pointer : ℤ) (c d : List ℕ) → Links bytes bound pointer c → Links bytes other pointer d
        → c ≡ d }
    ensures linked { (bytes : List ℕ) (front : List Token) (rest : List ℕ) (last : ℤ) → bytes ≡ token_bytes front ++ rest
        → AllByRecursion IsSpelled front
        → pointers (token_instructions front) ++ last ∷ [] ≡ negsuc 0 ∷ map pos (places 0 front)
        → Links bytes (length (token_bytes front)) last (reverse (places 0 front)) }
    ensures chained { (bytes : List ℕ) (front : List Token) (rest : List ℕ) (bound : ℕ) (last : ℤ) → bytes ≡ token_bytes front ++ rest
        → AllByRecursion IsSpelled front
        → Links bytes bound last (reverse (places 0 front))
        → pointers (token_instructions front) ++ last ∷ [] ≡ negsuc 0 ∷ map pos (places 0 front) }
{}

/// In each file, post leads to all pages, and their number is the one in post. So bytes that break a rule of the chain are no file.
pub fn files_have_chains()
    ensures chain { (metrics : WidthsByName) (bytes : List ℕ) (pages : List MarkedPage) (f : IsFile metrics bytes pages)
        → Links bytes (length (token_bytes f.frame.front)) f.frame.postamble.last_bop (reverse (places 0 f.frame.front)) }
    ensures count { (metrics : WidthsByName) (bytes : List ℕ) (pages : List MarkedPage) (f : IsFile metrics bytes pages)
        → f.frame.postamble.pages ≡ length (places 0 f.frame.front) % 65536 }
    ensures none { (metrics : WidthsByName) (bytes : List ℕ) (pages : List MarkedPage) (post e place : ℕ) (postamble : Postamble) (cause : DviCause)
        → HasPostamble bytes post e postamble → BreaksChain bytes post postamble place cause → IsFile metrics bytes pages → ⊥ }
{}
