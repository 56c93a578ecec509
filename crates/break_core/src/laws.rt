//! Laws of the definitions.

ghost use Rattle.std.specs.Prelude.{◌≡◌, ◌<◌, ◌≤◌, ◌∷◌, ℕ, pos, negsuc, min, true, List, [], take, Option, None, Some, if◌then◌else◌};
ghost use Rattle.node_core.specs.declared.params.Params.{Params};
ghost use Rattle.node_core.specs.declared.tree.Node.{Node};
ghost use Rattle.node_core.specs.declared.tree.Node.TheVariants.{Kern, Penalty};
ghost use Rattle.node_core.specs.declared.tree.Kind.TheVariants.{Horizontal};
ghost use Rattle.pack_core.specs.ListTotals.{totals_of};
ghost use Rattle.break_lines.specs.declared.state.BreakState.{BreakState};
ghost use Rattle.break_lines.specs.Chosen.{AdmitsNone};
ghost use Rattle.break_lines.specs.declared.cost.Bound.{Bound};
ghost use Rattle.break_lines.specs.Costs.{line_fit, admitted_line};
ghost use Rattle.break_lines.specs.Examples.{sums_of_points};
ghost use Rattle.break_lines.specs.Facts.{Facts};
ghost use Rattle.break_lines.specs.Legal.{is_forced, legal_places};
ghost use Rattle.break_lines.specs.Steady.{IsSteady};
ghost use Rattle.break_lines.specs.LineItems.{BeginsBefore, kept_items, first_item_kept, sums_of, minus};
ghost use Rattle.break_core.specs.declared.broken.Pass.{Pass};
ghost use Rattle.break_core.specs.declared.broken.Breaks.{Breaks};
ghost use Rattle.break_core.specs.Passes.{problem_of, bound_of, IsBroken};
ghost use Rattle.break_core.specs.Trials.{is_overfull, is_bounded, places_up_to, AreBounded, AreSame};
ghost use Rattle.break_core.specs.Examples.{rule, space, special, five_rules, kern_and_glue, glue_among_penalties, special_between_glue};
ghost use Rattle.break_core.specs.Examples.{special_alone};

/// The sums over the items of a line are a difference of sums over the first items of the list: those before the end of the line, minus those before
/// its first item that is not dropped.
pub fn sums_of_lines_are_differences()
    ensures { (list : List Node) → (from : Option ℕ) → (b : ℕ) → BeginsBefore from b →
        sums_of (kept_items list from b) ≡ minus (sums_of (take b list)) (sums_of (take (min b (first_item_kept list from)) list)) }
{}

/// The sums over items are the totals with which they are packed into an hbox.
pub fn sums_are_totals()
    ensures width { (items : List Node) → (sums_of items).width ≡ (totals_of Horizontal items).advance }
    ensures stretch { (items : List Node) → (sums_of items).stretch ≡ (totals_of Horizontal items).stretch.normal }
    ensures fil { (items : List Node) → (sums_of items).fil ≡ (totals_of Horizontal items).stretch.fil }
    ensures fill { (items : List Node) → (sums_of items).fill ≡ (totals_of Horizontal items).stretch.fill }
    ensures filll { (items : List Node) → (sums_of items).filll ≡ (totals_of Horizontal items).stretch.filll }
    ensures shrink { (items : List Node) → (sums_of items).shrink ≡ (totals_of Horizontal items).shrink.normal }
{}

/// Five rules with glue between them can be broken at the glue and at the end. The lines to places 3, 7 and 11 are 25pt, 40pt and 30pt wide.
pub fn lines_of_five_rules()
    ensures places { legal_places five_rules ≡ 1 ∷ 3 ∷ 5 ∷ 7 ∷ 11 ∷ [] }
    ensures second { kept_items five_rules (Some 3) 7 ≡ rule 10 ∷ space ∷ rule 25 ∷ [] }
    ensures first_sums { sums_of (kept_items five_rules None 3) ≡ sums_of_points 25 15 0 }
    ensures second_sums { sums_of (kept_items five_rules (Some 3) 7) ≡ sums_of_points 40 15 0 }
    ensures last_sums { sums_of (kept_items five_rules (Some 7) 11) ≡ sums_of_points 30 0 1 }
{}

/// A kern before glue is a legal place, and the glue after it is not. The kern stays at the end of the line without its width.
pub fn break_at_a_kern()
    ensures places { legal_places kern_and_glue ≡ 1 ∷ 6 ∷ [] }
    ensures first { kept_items kern_and_glue None 1 ≡ rule 40 ∷ Kern (pos 0) ∷ [] }
{}

/// A line whose items are all dropped keeps only the penalty at its end.
pub fn line_of_dropped_items()
    ensures places { legal_places glue_among_penalties ≡ 1 ∷ 3 ∷ 7 ∷ [] }
    ensures kept { kept_items glue_among_penalties (Some 1) 3 ≡ Penalty (negsuc 9999) ∷ [] }
    ensures sums { sums_of (kept_items glue_among_penalties (Some 1) 3) ≡ sums_of_points 0 0 0 }
{}

/// Glue after a special is a legal place, and a line that begins with the special keeps it. A paragraph that consists of a special has one line.
pub fn line_of_a_special()
    ensures places { legal_places special_between_glue ≡ 1 ∷ 3 ∷ 7 ∷ [] }
    ensures kept { kept_items special_between_glue (Some 1) 3 ≡ special ∷ [] }
    ensures sums { sums_of (kept_items special_between_glue (Some 1) 3) ≡ sums_of_points 0 0 0 }
    ensures alone { legal_places special_alone ≡ 3 ∷ [] }
    ensures whole { take 1 (kept_items special_alone None 3) ≡ special ∷ [] }
{}

/// Without first lines no lines are counted, and each line is measured against hsize.
pub fn no_line_is_counted()
    ensures cut { (facts : Facts) → (params : Params) → (bound : Bound) → params.first_lines ≡ 0 → (problem_of facts params bound).cut ≡ 0 }
    ensures line { (facts : Facts) → (params : Params) → (bound : Bound) → (before : BreakState) → (place : ℕ) → params.first_lines ≡ 0 →
        (problem_of facts params bound).line before place ≡
        admitted_line params bound (facts.penalty place) before.class (line_fit (facts.sums before.place place) params.hsize) }
{}

/// The last pass admits a list of breaks for every paragraph. So one of the three passes chooses a list.
pub fn the_last_pass_admits_a_list()
    ensures { (facts : Facts) → (params : Params) → AdmitsNone (problem_of facts params (bound_of params Pass.Third)) → ⊥ }
{}

/// A paragraph has only one list of breaks: `breaks` for a list and `active_breaks` for its meter return the same.
pub fn one_list_is_broken()
    ensures { (facts : Facts) → (params : Params) → (a : Breaks) → (b : Breaks) → IsBroken facts params a → IsBroken facts params b → AreSame a b }
{}

/// Bounded trials are few: in no pass that was run is a line tried that passes over a forced break.
pub fn trials_up_to_a_forced_place()
    ensures { (facts : Facts) → (params : Params) → (passes : List Pass) → (trials : ℕ → ℕ) → AreBounded facts params passes trials →
        (a : ℕ) → (l : ℕ) → a < l → l ≤ facts.places → is_forced (facts.penalty l) ≡ true → trials a ≤ places_up_to a (λ pass. l) passes }
{}

/// In a steady paragraph with bounded trials, in passes with a bound on badness, no line is tried that passes over a place to which it is overfull.
pub fn trials_up_to_an_overfull_line()
    ensures { (facts : Facts) → (params : Params) → (passes : List Pass) → (trials : ℕ → ℕ) → AreBounded facts params passes trials → IsSteady facts →
        (a : ℕ) → (b : ℕ) → (l : ℕ) → a < b → b ≤ facts.places → is_overfull facts params a b ≡ true →
        a < l → l ≤ facts.places → is_forced (facts.penalty l) ≡ true → trials a ≤ places_up_to a (λ pass. if is_bounded pass then b else l) passes }
{}
