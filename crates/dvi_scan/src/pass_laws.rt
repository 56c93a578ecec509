//! Laws of the pass and the pages of a file.

ghost use Rattle.std.specs.Prelude.{◌≡◌, ◌≤◌, ◌++◌, [], List, Option, Some, None, ℕ, ℤ};
ghost use Rattle.std.specs.List.{AllByRecursion, flat_map};
ghost use Rattle.dvi_ops.specs.Body.{Acts, Widths, instruction_acts, bounded_acts};
ghost use Rattle.dvi_ops.specs.File.{MarkedPage, FilePart, push_depth_of, instructions, pages_of};
ghost use Rattle.dvi_ops.specs.Instruction.{Instruction};
ghost use Rattle.dvi_scan.specs.Pass.{Between, PassStateView, passes, execute};
ghost use Rattle.dvi_scan.specs.Execution.{BreaksTurn, IsAsked};
ghost use Rattle.dvi_scan.specs.Drawing.{constant_width};
ghost use Rattle.dvi_scan.specs.declared.fault.DviCause.{DviCause};

/// The pass accepts all parts of a file whose pages have a meaning and are not too deep, and gives their pages.
pub fn parts_are_passed()
    ensures { (does : Acts) (most : ℕ) (parts : List FilePart) (pages : List MarkedPage)
        → pages_of does parts ≡ Some pages → AllByRecursion (λ part. push_depth_of part ≤ most) parts
        → passes does most (flat_map instructions parts) (Between []) ≡ Some (Between pages) }
{}

/// The instructions that the pass accepts are parts whose pages have a meaning and are not too deep, and it gives their pages.
pub fn passed_are_parts()
    ensures { (does : Acts) (most : ℕ) (is : List Instruction) (pages : List MarkedPage)
        → passes does most is (Between []) ≡ Some (Between pages)
        → (parts : List FilePart) × (is ≡ flat_map instructions parts) × (pages_of does parts ≡ Some pages)
        × AllByRecursion (λ part. push_depth_of part ≤ most) parts }
{}

/// The pass over two lists is the pass over the first and then over the second.
pub fn one_after_the_other()
    ensures both { (does : Acts) (most : ℕ) (is js : List Instruction) (p q : PassStateView)
        → passes does most is p ≡ Some q → passes does most (is ++ js) p ≡ passes does most js q }
    ensures none { (does : Acts) (most : ℕ) (is js : List Instruction) (p : PassStateView)
        → passes does most is p ≡ None → passes does most (is ++ js) p ≡ None }
{}

/// Where an instruction breaks a rule, the pass stops.
pub fn broken_rules_end_the_pass()
    ensures { (does : Acts) (most : ℕ) (i : Instruction) (p : PassStateView) (cause : DviCause) → BreaksTurn does most i p cause
        → execute (bounded_acts does) most i p ≡ None }
{}

/// The pass needs at most one width at each instruction: that of the character in the current font.
pub fn one_width_is_asked()
    ensures { (widths : Widths) (width : Option ℤ) (most : ℕ) (i : Instruction) (p : PassStateView) → IsAsked widths i p width
        → execute (bounded_acts (instruction_acts (constant_width width))) most i p ≡ execute (bounded_acts (instruction_acts widths)) most i p }
{}
