//! Laws of the boxes of a job, and of the items that `items` hands over.

ghost use Rattle.std.specs.Prelude.{◌≡◌, ◌^◌, ℕ, ℤ, List, Some, false};
ghost use Rattle.scaled_core.specs.Dimensions.{Within};
ghost use Rattle.tfm_core.specs.NamedBytes.{NamedBytes};
ghost use Rattle.node_core.specs.declared.tree.BoxNode.{BoxNode};
ghost use Rattle.page_core.specs.Marks.{is_huge, marks_of_box};
ghost use Rattle.page_core.specs.Pages.{page_at};
ghost use Rattle.box_items.specs.Shown.{HasGlyphsAcross, marks_of_rows};
ghost use Rattle.job_machine.specs.declared.command.Command.{Command};
ghost use Rattle.job_machine.specs.Reply.{Reply};
ghost use Rattle.job_machine.specs.State.{held_in};
ghost use Rattle.job_machine.specs.Machine.{Machine, first_machine};
ghost use Rattle.job_machine.specs.Runs.{Run};
ghost use Rattle.job_core.specs.Jobs.{Represents};
ghost use Rattle.boxglue_calls.specs.Items.{box_held, rows_held, texts_held};
ghost use Rattle.boxglue_calls.specs.Jobs.{KeptState};

/// Whatever the commands of a new job are, and whatever its memory and its device refuse, no box in a register has a glyph in a vertical list.
pub fn job_boxes_have_glyphs_across()
    ensures { (files : List NamedBytes) (n k : ℕ) (commands : List Command) (replies : List Reply) (m : Machine) (register : ℕ) (b : BoxNode)
        → Run (first_machine files) n commands replies m k → held_in m.state.registers register ≡ Some b → HasGlyphsAcross b.kind b.list }
{}

/// The rows and the texts that `items` hands over of a box in a register of a job show the marks of each page of the box that is not huge, in order
/// and place.
pub fn items_show_the_page()
    ensures { (files : List NamedBytes) (n k : ℕ) (commands : List Command) (replies : List Reply) (m : Machine) (kept : KeptState) (register : ℕ)
        (b : BoxNode) (counts : List ℤ) (h v : ℤ) → Run (first_machine files) n commands replies m k → Represents kept.job m
        → box_held kept register ≡ Some b → Within (2 ^ 64) h → Within (2 ^ 64) v → is_huge (page_at counts h v b) ≡ false
        → marks_of_rows h v (texts_held (box_held kept register)) (rows_held (box_held kept register)) ≡ marks_of_box b h v }
{}
