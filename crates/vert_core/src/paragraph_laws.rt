//! Laws of the definitions.

ghost use Rattle.std.specs.Prelude.{◌≡◌, ◌≢◌, ◌+ℤ◌, ◌++◌, ℕ, ℤ, pos, false, List, [], ◌∷◌, flat_map, length, None, Ok, Err};
ghost use Rattle.node_core.specs.declared.params.Params.{Params};
ghost use Rattle.node_core.specs.declared.tree.Node.{Node};
ghost use Rattle.node_core.specs.declared.tree.Node.TheVariants.{Glue, Penalty};
ghost use Rattle.node_core.specs.Parameters.{first_params};
ghost use Rattle.vert_core.specs.Interline.{interline, glue_of, appended_nodes};
ghost use Rattle.vert_core.specs.Lines.{line_box, penalty_nodes, vertical_items, last_depth};
ghost use Rattle.break_lines.specs.Facts.{position_of, begins_at, facts_of, refusal};
ghost use Rattle.break_lines.specs.LineItems.{kept_items};
ghost use Rattle.break_lines.specs.Costs.{line_fit};
ghost use Rattle.break_lines.specs.Sizes.{line_size};
ghost use Rattle.pack_core.specs.declared.pack.PackedBox.{PackedBox};
ghost use Rattle.pack_core.specs.declared.pack.Target.TheVariants.{To};
ghost use Rattle.pack_core.specs.Boxes.{hpack_result};
ghost use Rattle.node_core.specs.Nodes.{items_of};
ghost use Rattle.vert_core.specs.declared.paragraph.ParagraphFault.{ParagraphFault};
ghost use Rattle.vert_core.specs.declared.paragraph.ParagraphFault.TheVariants.{OutOfMemory};
ghost use Rattle.vert_core.specs.Finished.{finished_list};
ghost use Rattle.vert_core.specs.Paragraphs.{SetParagraph, break_fault, IsSetParagraph, IsUnset};
ghost use Rattle.vert_core.specs.Setting.{setting};
ghost use Rattle.vert_core.specs.Rows.{penalties_of, with_penalties, greatest_penalties, in_two, two_short_lines, narrow, special, special_line};
ghost use Rattle.vert_core.specs.Rows.{numbers_in};

/// Of two lines, the first is followed by the sum of all three penalties. With more lines, clubpenalty is added after the first one and widowpenalty
/// after the last but one. There is no penalty after the last line, nor where the sum is 0.
pub fn penalties_between_lines()
    ensures one { penalties_of with_penalties 1 ≡ [] }
    ensures two { penalties_of with_penalties 2 ≡ pos 111 ∷ [] }
    ensures three { penalties_of with_penalties 3 ≡ pos 11 ∷ pos 101 ∷ [] }
    ensures four { penalties_of with_penalties 4 ≡ pos 11 ∷ pos 1 ∷ pos 101 ∷ [] }
    ensures first { penalties_of first_params 4 ≡ pos 150 ∷ pos 150 ∷ [] }
    ensures greatest { penalties_of greatest_penalties 2 ≡ pos 1500000000 ∷ [] }
{}

/// Two lines: each box comes after glue that depends on the previous depth, which for the first box is that of the enclosing list, and the penalty is
/// between them.
#[tactic(auto, unfolding(crate::specs::Lines::vertical_items, crate::specs::Lines::brought_by, crate::specs::Lines::last_depth))]
pub fn two_lines()
    ensures items { (list : List Node) → (first last : ℕ) → (params : Params) → (previous : ℤ) →
        vertical_items (in_two list first last params previous) ≡
        appended_nodes (glue_of (interline params previous (line_box (in_two list first last params previous) 0).height)) (pos 0)
        (line_box (in_two list first last params previous) 0)
        ++ (penalty_nodes ((params.interline_penalty +ℤ params.club_penalty) +ℤ params.widow_penalty)
        ++ appended_nodes (glue_of (interline params (line_box (in_two list first last params previous) 0).depth
        (line_box (in_two list first last params previous) 1).height)) (pos 0)
        (line_box (in_two list first last params previous) 1)) }
    ensures depth { (list : List Node) → (first last : ℕ) → (params : Params) → (previous : ℤ) →
        last_depth (in_two list first last params previous) ≡ (line_box (in_two list first last params previous) 1).depth }
{}

/// A paragraph of three rules in two lines of 40pt: two boxes, each 1pt high, whose baselines are 12pt apart, and between them the penalties for a
/// first line and for the last line but one.
#[tactic(auto, unfolding(crate::specs::Lines::last_depth, crate::specs::Lines::line_box, crate::specs::Lines::boxed_line, pack_core::specs::Boxes::hbox))]
pub fn two_lines_of_rules()
    ensures items { flat_map numbers_in (vertical_items two_short_lines) ≡
        pos 2621440 ∷ pos 65536 ∷ pos 0 ∷ pos 300 ∷ pos 720896 ∷ pos 2621440 ∷ pos 65536 ∷ pos 0 ∷ [] }
    ensures depth { last_depth two_short_lines ≡ pos 0 }
    ensures finished { length two_short_lines.nodes ≡ 8 }
{}

/// A special at the end of a paragraph stays there. A paragraph that consists of a special is a line: a box with the width of the line and no height.
#[tactic(auto, unfolding(crate::specs::Lines::line_box, crate::specs::Lines::boxed_line, pack_core::specs::Boxes::hbox))]
pub fn line_of_a_special()
    ensures finished { finished_list (special ∷ []) narrow.par_fill_skip ≡ special ∷ Penalty (pos 10000) ∷ Glue narrow.par_fill_skip ∷ [] }
    ensures items { flat_map numbers_in (vertical_items special_line) ≡ pos 2621440 ∷ pos 0 ∷ pos 0 ∷ [] }
{}

/// There is only one way to set a paragraph that is set, or only one reason why it is not; but memory can be refused even if the paragraph can be
/// broken. In the other direction, a paragraph with a setting can be broken and is set so, and otherwise the fault is why it is not set, and is never
/// that memory was refused.
pub fn one_setting()
    ensures set { (list : List Node) → (params : Params) → (previous : ℤ) → (set : SetParagraph) →
        break_fault list params.par_fill_skip ≡ None → IsSetParagraph list params previous set → setting list params previous ≡ Ok set }
    ensures unset { (list : List Node) → (params : Params) → (previous : ℤ) → (fault : ParagraphFault) → fault ≢ OutOfMemory →
        IsUnset list params previous fault → setting list params previous ≡ Err fault }
    ensures breakable { (list : List Node) → (params : Params) → (previous : ℤ) → (set : SetParagraph) →
        setting list params previous ≡ Ok set → break_fault list params.par_fill_skip ≡ None }
    ensures is_set { (list : List Node) → (params : Params) → (previous : ℤ) → (set : SetParagraph) →
        setting list params previous ≡ Ok set → IsSetParagraph list params previous set }
    ensures is_unset { (list : List Node) → (params : Params) → (previous : ℤ) → (fault : ParagraphFault) →
        setting list params previous ≡ Err fault → IsUnset list params previous fault }
    ensures has_memory { (list : List Node) → (params : Params) → (previous : ℤ) → setting list params previous ≢ Err OutOfMemory }
{}

/// If a line that keeps items is packed to its width and is not overfull, its box has the badness of the line, from which its demerits are computed.
pub fn boxes_are_as_bad_as_lines()
    ensures { (list : List Node) → (params : Params) → (a : ℕ) → (b : ℕ) → (lines : ℕ) → (packed : PackedBox) → refusal list ≡ None →
        kept_items list (begins_at list a) (position_of list b) ≢ [] →
        (line_fit ((facts_of list).sums a b) (line_size params lines)).overfull ≡ false →
        hpack_result (To (line_size params lines)) (items_of (kept_items list (begins_at list a) (position_of list b))) ≡ Ok packed →
        packed.badness ≡ (line_fit ((facts_of list).sums a b) (line_size params lines)).badness }
{}
