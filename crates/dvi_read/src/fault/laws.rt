//! Laws of faults: where a file or a walk is refused for another reason than memory, the bytes are no file.

ghost use Rattle.std.specs.Prelude.{◌≢◌, List, ℕ, ◌≡◌, ◌≤◌, length, reverse, ℤ};
ghost use Rattle.dvi_ops.specs.File.{IsFile, MarkedPage};
ghost use Rattle.dvi_read.specs.Opening.{IsDviFault};
ghost use Rattle.dvi_read.specs.declared.fault.DviFault.{DviFault};
ghost use Rattle.dvi_read.specs.declared.fault.DviFault.TheVariants.{OutOfMemory, Bad};
ghost use Rattle.tfm_core.specs.FileWidths.{file_widths};
ghost use Rattle.tfm_core.specs.NamedBytes.{NamedBytes};
ghost use Rattle.dvi_scan.specs.Chain.{IsPageAt, Links};
ghost use Rattle.dvi_scan.specs.declared.fault.BadDvi.{BadDvi};
ghost use Rattle.dvi_scan.specs.declared.fault.DviCause.TheVariants.{Pointer};
ghost use Rattle.dvi_ops.specs.Fonts.{WidthsByName, definitions};
ghost use Rattle.dvi_ops.specs.Instruction.{Postamble};
ghost use Rattle.dvi_ops.specs.Tokens.{places, token_instructions};
ghost use Rattle.dvi_scan.specs.Passed.{file_framing, IsPassed};
ghost use Rattle.dvi_scan.specs.Reached.{AreNumbersOf, IsIn, IsReached, ReadSoFar};
ghost use Rattle.dvi_read.specs.WalkFaults.{IsUnended, IsWalkFault};

/// Where the rule that a fault names is broken, the bytes are no file with these font files, whatever the pages.
pub fn no_fault_is_in_a_file()
    ensures { (files : List NamedBytes) (bytes : List ℕ) (fault : DviFault) (pages : List MarkedPage) → fault ≢ OutOfMemory
        → IsDviFault files bytes fault
        → IsFile (file_widths files) bytes pages → ⊥ }
{}

/// Where a walk stops for another reason than memory, the bytes are no file with these font files.
pub fn no_walk_fault_is_in_a_file()
    ensures { (files : List NamedBytes) (after_post : List ℤ) (bytes : List ℕ) (post after last : ℕ) (postamble : Postamble) (chain : List ℕ)
        (pages : List MarkedPage) (fault : DviFault)
        → post ≤ length bytes → fault ≢ OutOfMemory → IsWalkFault files after_post bytes postamble chain post fault
        → (f : IsPassed (file_widths files) bytes (file_framing post after last postamble chain) pages)
        → AreNumbersOf after_post (definitions (token_instructions f.tail)) → ⊥ }
{}

/// Where a walk stops at a pointer, a bop that is not in the chain is there. Where the fault is at the place of post, the bops are not at the places
/// of the chain.
pub fn pointers_are_wrong()
    ensures bop { (files : List NamedBytes) (after_post : List ℤ) (bytes : List ℕ) (postamble : Postamble) (chain : List ℕ) (post : ℕ) (bad : BadDvi)
        → bad.cause ≡ Pointer → IsWalkFault files after_post bytes postamble chain post (Bad bad) → IsPageAt bytes bad.place post }
    ensures stray { (files : List NamedBytes) (after_post : List ℤ) (bytes : List ℕ) (postamble : Postamble) (chain : List ℕ) (post bound : ℕ)
        (pointer : ℤ) (bad : BadDvi)
        → post ≤ length bytes → Links bytes bound pointer chain → bad.cause ≡ Pointer
        → IsWalkFault files after_post bytes postamble chain post (Bad bad)
        → IsIn bad.place (reverse chain) → ⊥ }
    ensures unmet { (metrics : WidthsByName) (after_post : List ℤ) (bytes : List ℕ) (postamble : Postamble) (chain : List ℕ) (post : ℕ)
        (s : ReadSoFar) (bad : BadDvi)
        (r : IsReached metrics after_post bytes postamble chain post s) → bad.cause ≡ Pointer → IsUnended s.pass s.left post bad
        → places 0 r.before ≢ reverse chain }
{}
