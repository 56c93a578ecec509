//! Laws of the definitions.

ghost use Rattle.std.specs.Prelude.{◌≡◌, ◌≢◌, ◌↔◌, ◌+ℤ◌, ◌-ℤ◌, ◌++◌, ◌∷◌, ℤ, pos, negsuc, List, Some, None, IsTrue, false};
ghost use Rattle.std.specs.Int.{int_max};
ghost use Rattle.std.specs.List.{list_all};
ghost use Rattle.node_core.specs.Items.{BoxFrame, Items, box};
ghost use Rattle.node_core.specs.Nodes.{nodes_of};
ghost use Rattle.node_core.specs.declared.tree.Kind.{Kind};
ghost use Rattle.node_core.specs.declared.tree.Node.{Node};
ghost use Rattle.node_core.specs.declared.tree.Order.{Order};
ghost use Rattle.node_core.specs.declared.tree.Setting.TheVariants.{Natural};
ghost use Rattle.pack_core.specs.declared.pack.Target.{Target};
ghost use Rattle.pack_core.specs.declared.pack.Target.TheVariants as targets;
ghost use Rattle.pack_core.specs.Items.{advance, is_sizeless, last_below};
ghost use Rattle.pack_core.specs.Totals.{total, pending_depth};
ghost use Rattle.pack_core.specs.Glue.{highest, IsHighest, setting_of, setting_badness};
ghost use Rattle.pack_core.specs.Boxes.{hbox, hbox_badness, vbox, vbox_frame, vbox_badness, vbox_numbers, vbox_shell, packed_of, vtop_box};
ghost use Rattle.pack_core.specs.Places.{place, place_in};
ghost use Rattle.pack_core.specs.Laws.{three_stretching, two_shrinking, kern_and_fil};

/// A list whose glue is set, and which is not overfull, ends exactly at the edge of its box.
pub fn list_fills_its_box()
    ensures { (kind : Kind) → (nodes : List Node) → (excess : ℤ) → setting_of excess nodes ≢ Natural → setting_badness excess nodes ≢ 1000000 →
        place kind (setting_of excess nodes) nodes ≡ total (advance kind) nodes +ℤ excess }
{}

/// The glue that is set is that of the highest order whose total is not 0; if all totals are 0, none is set.
pub fn highest_order_is_set()
    ensures highest_order { (totals : Order → ℤ) → (order : Order) → ((highest totals ≡ Some order) ↔ IsHighest totals order) }
    ensures none { (totals : Order → ℤ) → ((highest totals ≡ None) ↔ ((order : Order) → totals order ≡ pos 0)) }
{}

/// The pending depth at the end of a list is that of the last item that is neither a penalty nor a special, if that item is a rule or a box, and
/// otherwise 0.
pub fn depth_of_the_last_rule()
    ensures last { (front : List Node) → (item : Node) → (penalties : List Node) → is_sizeless item ≡ false → IsTrue (list_all is_sizeless penalties)
        →
        pending_depth (front ++ item ∷ penalties) ≡ last_below item }
    ensures none { (penalties : List Node) → IsTrue (list_all is_sizeless penalties) → pending_depth penalties ≡ pos 0 }
{}

/// A box at the front of a horizontal list adds its width. Its shift moves it down: its height above the baseline is less by the shift, and its depth
/// is greater by the shift.
pub fn box_in_an_hbox()
    ensures width { (shift : ℤ) → (frame : BoxFrame) → (inner rest : Items) →
        (hbox targets.Natural (box shift frame inner rest)).width ≡ frame.width +ℤ (hbox targets.Natural rest).width }
    ensures height { (target : Target) → (shift : ℤ) → (frame : BoxFrame) → (inner rest : Items) →
        (hbox target (box shift frame inner rest)).height ≡ int_max (frame.height -ℤ shift) (hbox target rest).height }
    ensures depth { (target : Target) → (shift : ℤ) → (frame : BoxFrame) → (inner rest : Items) →
        (hbox target (box shift frame inner rest)).depth ≡ int_max (frame.depth +ℤ shift) (hbox target rest).depth }
{}

/// A box at the front of a vertical list is moved to the right by its shift, and the vtop of the list has the baseline of the box.
pub fn box_in_a_vbox()
    ensures width { (target : Target) → (limit shift : ℤ) → (frame : BoxFrame) → (inner rest : Items) →
        (vbox target limit (box shift frame inner rest)).width ≡ int_max (frame.width +ℤ shift) (vbox target limit rest).width }
    ensures baseline { (target : Target) → (limit shift : ℤ) → (frame : BoxFrame) → (inner rest : Items) →
        (vtop_box target limit (box shift frame inner rest)).height ≡ frame.height }
{}

/// Penalties and specials at the front of a vertical list change neither the numbers that have to fit nor the frame of its vbox. They do not change
/// the badness of the vbox if another item follows them, and a vbox of its natural height has badness 0.
pub fn sizeless_items_in_front()
    ensures numbers { (target : Target) → (limit : ℤ) → (front rest : List Node) → IsTrue (list_all is_sizeless front) →
        vbox_numbers target limit (front ++ rest) ≡ vbox_numbers target limit rest }
    ensures frame { (target : Target) → (limit : ℤ) → (front rest : List Node) → IsTrue (list_all is_sizeless front) →
        vbox_frame target limit (front ++ rest) ≡ vbox_frame target limit rest }
    ensures badness { (target : Target) → (limit : ℤ) → (front : List Node) → (item : Node) → (rest : List Node) → IsTrue (list_all is_sizeless front)
        →
        vbox_badness target limit (front ++ item ∷ rest) ≡ vbox_badness target limit (item ∷ rest) }
    ensures natural { (limit : ℤ) → (nodes : List Node) → vbox_badness targets.Natural limit nodes ≡ 0 }
{}

/// Putting a list into the shell of its vbox gives its vbox.
pub fn list_in_its_vbox()
    ensures box_node { (target : Target) → (limit : ℤ) → (items : Items) →
        (packed_of items (vbox_shell target limit (nodes_of items))).box_node ≡ vbox target limit items }
    ensures badness { (target : Target) → (limit : ℤ) → (items : Items) →
        (packed_of items (vbox_shell target limit (nodes_of items))).badness ≡ vbox_badness target limit (nodes_of items) }
{}

/// Ten scaled points are divided among three equal glues as 3, 4 and 3.
pub fn ten_among_three()
    ensures first { place_in (hbox (targets.To (pos 10)) three_stretching) 1 ≡ pos 3 }
    ensures second { place_in (hbox (targets.To (pos 10)) three_stretching) 2 ≡ pos 7 }
    ensures third { place_in (hbox (targets.To (pos 10)) three_stretching) 3 ≡ pos 10 }
{}

/// Halves are rounded away from zero: the first of two glues takes all of -1sp.
pub fn one_taken_from_two()
    ensures first { place_in (hbox (targets.Spread (negsuc 0)) two_shrinking) 1 ≡ negsuc 0 }
    ensures second { place_in (hbox (targets.Spread (negsuc 0)) two_shrinking) 2 ≡ negsuc 0 }
{}

/// Next to glue of an infinite order, glue of normal order keeps its width, and the box has badness 0.
pub fn infinite_glue_takes_all()
    ensures normal { place_in (hbox (targets.To (pos 786432)) kern_and_fil) 2 ≡ pos 327680 }
    ensures fil { place_in (hbox (targets.To (pos 786432)) kern_and_fil) 3 ≡ pos 786432 }
    ensures badness { hbox_badness (targets.To (pos 786432)) (nodes_of kern_and_fil) ≡ 0 }
{}
