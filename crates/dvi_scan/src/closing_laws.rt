//! Laws about the definitions after post, in relation to a file.

ghost use Rattle.std.specs.Prelude.{◌≤◌, List, length, ℕ, ℤ};
ghost use Rattle.dvi_ops.specs.Fonts.{definitions};
ghost use Rattle.dvi_ops.specs.Instruction.{Definition};
ghost use Rattle.dvi_ops.specs.Tokens.{Token, token_instructions};
ghost use Rattle.dvi_scan.specs.declared.fault.BadDvi.{BadDvi};
ghost use Rattle.dvi_scan.specs.declared.fault.FrameFault.TheVariants.{Bad};
ghost use Rattle.dvi_scan.specs.Reached.{AreNumbersOf};
ghost use Rattle.dvi_scan.specs.AfterPost.{AreAfterPost};
ghost use Rattle.dvi_scan.specs.Closing.{Closes, IsClosingFault};
ghost use Rattle.dvi_scan.specs.Known.{HasSame};

/// Where only nops and definitions are between two places, the numbers of all these definitions are found.
pub fn all_are_after_post()
    ensures { (bytes : List ℕ) (from to : ℕ) (after_post : List ℤ) (known : List Definition) (tail : List Token) → to ≤ length bytes
        → AreAfterPost bytes from to after_post
        → Closes bytes from to known tail → AreNumbersOf after_post (definitions (token_instructions tail)) }
{}

/// Where a fault is found, the instructions between the two places are not all right.
pub fn faults_are_true()
    ensures { (bytes : List ℕ) (from to : ℕ) (old new known : List Definition) (fault : BadDvi) (tail : List Token) → to ≤ length bytes
        → HasSame old known
        → IsClosingFault bytes from to old new (Bad fault) → Closes bytes from to known tail → ⊥ }
{}
