//! Laws of the definitions.

ghost use Rattle.std.specs.Prelude.{◌≡◌, ℕ, List};
ghost use Rattle.break_lines.specs.Problems.{Problem, Path, places_of, ends_of};
ghost use Rattle.break_lines.specs.Chosen.{IsChosen};

/// At most one list of breaks is chosen: two chosen lists are the same, with the same lines.
pub fn one_list_is_chosen()
    ensures { (p : Problem) → (q : Path) → (r : Path) →
        IsChosen p (places_of (ends_of q)) q → IsChosen p (places_of (ends_of r)) r → q ≡ r }
{}
