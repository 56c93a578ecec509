//! Laws of the definitions.

ghost use Rattle.std.specs.Prelude.{◌≡◌, ◌↔◌, ◌++◌, ◌∷◌, [], ℕ, ℤ, pos, negsuc, List, Some, None, Ok, Err, if◌then◌else◌};
ghost use Rattle.std.specs.List.{list_all};
ghost use Rattle.scaled_core.specs.Dimensions.{fits};
ghost use Rattle.node_core.specs.declared.params.SplitParams.{SplitParams};
ghost use Rattle.node_core.specs.declared.tree.Node.{Node};
ghost use Rattle.node_core.specs.Nodes.{items_of};
ghost use Rattle.node_core.specs.Parameters.{first_split_params};
ghost use Rattle.pack_core.specs.declared.pack.Target.{Target};
ghost use Rattle.pack_core.specs.Boxes.{vbox_numbers, vpack_result};
ghost use Rattle.vert_core.specs.declared.parts.SplitFault.TheVariants.{InfiniteShrink, DimensionTooLarge};
ghost use Rattle.vert_core.specs.Split.{split_place, front_of, refusal, packed_vbox};
ghost use Rattle.vert_core.specs.Chosen.{IsSplitPlace};
ghost use Rattle.vert_core.specs.Laws.{points, rule, space, shrinking_glue, front_height, badness_of_front, rest_height, rest_nodes};
ghost use Rattle.vert_core.specs.Laws.{forced_split, spaced_rules, high, sunken_rules, hanging_rules, mixed_items, places, stretching_top, special};
ghost use Rattle.vert_core.specs.Laws.{marked_rules, marked_end, rest_sizes};

/// A list is split at a penalty of -10000, however bad the front is there. Above the rest, which begins with a rule 5pt high, there are 5pt of glue.
pub fn forced_place()
    ensures place { split_place first_split_params (points 20) forced_split ≡ 3 }
    ensures height { front_height first_split_params (points 20) forced_split ≡ points 20 }
    ensures badness { badness_of_front first_split_params (points 20) forced_split ≡ 10000 }
    ensures rest_height { rest_height first_split_params (points 20) forced_split ≡ Some (points 10) }
{}

/// Of two places with the same cost the later one is taken. The end is awful, and costs more.
pub fn later_of_two_places()
    ensures place { split_place first_split_params (points 15) spaced_rules ≡ 3 }
    ensures badness { badness_of_front first_split_params (points 15) spaced_rules ≡ 10000 }
    ensures rest_height { rest_height first_split_params (points 15) spaced_rules ≡ Some (points 10) }
{}

/// If the first place is awful, it is taken. Above a rule that is higher than splittopskip the glue has width 0.
pub fn awful_first_place()
    ensures place { split_place first_split_params (points 20) high ≡ 1 }
    ensures badness { badness_of_front first_split_params (points 20) high ≡ 1000000 }
    ensures rest_height { rest_height first_split_params (points 20) high ≡ Some (points 30) }
{}

/// A list without another place is split at its end, and there is no rest. If only glue is left, there is no rest either.
pub fn nothing_is_left()
    ensures end { rest_height first_split_params (points 20) (rule (points 5) ∷ []) ≡ None }
    ensures glue { rest_height first_split_params (points 5) (rule (points 5) ∷ space (points 2) ∷ []) ≡ None }
{}

/// A list with glue that shrinks in an infinite order is not split, even if the glue is after the place, and even if other glue makes the total 0.
pub fn infinite_shrink_refuses()
    ensures after { refusal first_split_params (points 20) (forced_split ++ shrinking_glue (pos 1) ∷ []) ≡ Some InfiniteShrink }
    ensures no_total { refusal first_split_params (points 20) (shrinking_glue (pos 1) ∷ shrinking_glue (negsuc 0) ∷ []) ≡ Some InfiniteShrink }
    ensures none { refusal first_split_params (points 20) (shrinking_glue (pos 0) ∷ []) ≡ None }
{}

/// Above a rule whose height is below 0, the glue is wider than splittopskip. It can be too wide even if all sizes of the rest fit.
pub fn too_large_a_top_skip()
    ensures place { split_place first_split_params (points 5) sunken_rules ≡ 1 }
    ensures refused { refusal first_split_params (points 5) sunken_rules ≡ Some DimensionTooLarge }
{}

/// A split is allowed before glue that follows a box or a rule, before a kern that glue follows, before a penalty below 10000, and at the end.
pub fn allowed_places()
    ensures { places mixed_items ≡ 4 ∷ 8 ∷ 10 ∷ 11 ∷ [] }
{}

/// A split is allowed before glue that follows a special.
pub fn place_after_a_special()
    ensures { places (rule (points 5) ∷ special 97 ∷ space (points 2) ∷ special 98 ∷ []) ≡ 2 ∷ 4 ∷ [] }
{}

/// The specials among the dropped items stay, above the glue of the rest.
pub fn specials_stay()
    ensures { rest_nodes first_split_params (points 20) marked_rules ≡
        Some (special 97 ∷ special 98 ∷ space (points 5) ∷ rule (points 5) ∷ special 99 ∷ []) }
{}

/// If only specials are left, the rest has no glue and no size.
pub fn specials_alone_are_left()
    ensures nodes { rest_nodes first_split_params (points 20) marked_end ≡ Some (special 97 ∷ []) }
    ensures sizes { rest_sizes first_split_params (points 20) marked_end ≡ Some (pos 0 ∷ pos 0 ∷ pos 0 ∷ []) }
{}

/// The part of the depth of the last rule above splitmaxdepth counts as height.
pub fn depth_counts_as_height()
    ensures cut { badness_of_front (record first_split_params { split_max_depth = pos 0 }) (points 8) hanging_rules ≡ 0 }
    ensures whole { badness_of_front first_split_params (points 8) hanging_rules ≡ 10000 }
    ensures depth { ((front_of (record first_split_params { split_max_depth = pos 0 }) (points 8) hanging_rules).box_node).depth ≡ pos 0 }
{}

/// The glue above the rest stretches as splittopskip does.
pub fn top_skip_stretches()
    ensures { rest_nodes (stretching_top (points 10)) (points 20) forced_split ≡
        Some (Node.Glue (stretching_top (points 5)).split_top_skip ∷ rule (points 5) ∷ []) }
{}

/// The place of a split is the chosen one: none of the places that are tried costs less, and those that are tried after it cost more.
pub fn chosen_place()
    ensures { (params : SplitParams) → (goal : ℤ) → (items : List Node) → (place : ℕ) →
        ((split_place params goal items ≡ place) ↔ IsSplitPlace params goal items place) }
{}

/// The parts of a split are what `vpack` makes of their items.
pub fn parts_are_packed()
    ensures { (target : Target) → (limit : ℤ) → (items : List Node) → vpack_result target limit (items_of items) ≡
        (if list_all fits (vbox_numbers target limit items) then Ok (packed_vbox target limit items) else Err (record { list = items_of items })) }
{}
