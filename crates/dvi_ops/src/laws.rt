//! Laws of the table of instructions and of the spellings that are written.

ghost use Rattle.std.specs.Prelude.{◌≡◌, ◌≤◌, ◌<◌, ◌+◌, ◌++◌, List, length, slice_index, ℕ, ℤ};
ghost use Rattle.dvi_ops.specs.Instruction.{Axis, Bop, Definition, Do, Eop, FontDef, Instruction, BodyLeaf, Move, Pop, Post, PostPost, Postamble};
ghost use Rattle.dvi_ops.specs.Instruction.{Pre, Push, Movement, Units, Xxx};
ghost use Rattle.dvi_ops.specs.Spelling.{HasShortText, HasSpelling, IsBrief, NumbersFit, spelling};
ghost use Rattle.dvi_ops.specs.Table.{Spells};

/// No spelling is the beginning of another: at most one instruction begins at the start of some bytes, and its length is unique.
pub fn one_reading()
    ensures { (i j : Instruction) (a b x y : List ℕ) → Spells i a → Spells j b → a ++ x ≡ b ++ y → (i ≡ j) × (a ≡ b) }
{}

/// The bytes that are written for an instruction spell it, where each length and each number fits its field.
pub fn written_is_spelled()
    ensures { (i : Instruction) → HasSpelling i → NumbersFit i → Spells i (spelling i) }
{}

/// No spelling of a movement (right, down, w, x, y and z) is shorter than the one that is written.
pub fn movements_are_shortest()
    ensures { (axis : Axis) (step : Movement) (bytes : List ℕ) → ((k : ℕ) → slice_index bytes k < 256)
        → Spells (Do (Move axis step)) bytes → length (spelling (Do (Move axis step))) ≤ length bytes }
{}

/// No spelling of any instruction is shorter than the one that is written. Specials of more than 255 bytes are left out, since they are written with
/// xxx4.
pub fn written_is_shortest()
    ensures { (i : Instruction) (bytes : List ℕ) → HasShortText i → ((k : ℕ) → slice_index bytes k < 256)
        → Spells i bytes → length (spelling i) ≤ length bytes }
{}

/// The greatest lengths of what is written for instructions of a body, in bytes.
pub fn lengths_in_a_body()
    ensures brief { (leaf : BodyLeaf) → IsBrief leaf → length (spelling (Do leaf)) ≤ 9 }
    ensures movement { (axis : Axis) (step : Movement) → length (spelling (Do (Move axis step))) ≤ 5 }
    ensures special { (text : List ℕ) → length (spelling (Do (Xxx text))) ≤ 5 + length text }
    ensures definition { (d : Definition) → length (spelling (Do (FontDef d))) ≤ 19 + length d.area + length d.name }
    ensures one { (length (spelling Push) ≡ 1) × (length (spelling Pop) ≡ 1) }
{}

/// The lengths of what is written around the bodies of pages, in bytes.
pub fn lengths_around_bodies()
    ensures bop { (counts : List ℤ) (pointer : ℤ) → length counts ≡ 10 → length (spelling (Bop counts pointer)) ≡ 45 }
    ensures eop { length (spelling Eop) ≡ 1 }
    ensures pre { (id : ℕ) (units : Units) (comment : List ℕ) → length (spelling (Pre id units comment)) ≡ 15 + length comment }
    ensures post { (postamble : Postamble) → length (spelling (Post postamble)) ≡ 29 }
    ensures post_post { (place : ℤ) (id : ℕ) → length (spelling (PostPost place id)) ≡ 6 }
{}
