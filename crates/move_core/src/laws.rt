//! Laws of the reused body: what it has in common with the given one, and what it is for known bodies.

ghost use Rattle.std.specs.Prelude.{◌≡◌, ◌≤◌, length};
ghost use Rattle.std.specs.List.{AllByRecursion};
ghost use Rattle.dvi_ops.specs.Instruction.{Axis};
ghost use Rattle.dvi_ops.specs.Forest.{Forest, flat};
ghost use Rattle.dvi_ops.specs.Layout.{IsWritable, bytes_of};
ghost use Rattle.dvi_ops.specs.Plain.{NamesNoRegister};
ghost use Rattle.move_core.specs.Reused.{reused_body};
ghost use Rattle.move_core.specs.SamePage.{HasNoHollow, MeansTheSame, NestsNoDeeper, PassesThroughNoOther, SetsBeforeUse, UsesStored};
ghost use Rattle.move_core.specs.SamePage.{leaves_in_order};
ghost use Rattle.move_core.specs.SamePage.{unset_registers};
ghost use Rattle.move_core.specs.Examples.{apart_amounts, empty_groups, empty_groups_reused, fonts_in_nested_boxes, kerned_rules};
ghost use Rattle.move_core.specs.Examples.{kerned_rules_reused, nested_movements, nested_reused, set_in_a_group, set_in_a_group_reused};
ghost use Rattle.move_core.specs.Examples.{three_amounts};
ghost use Rattle.move_core.specs.Examples.{three_amounts_reused, three_depths, three_depths_reused, two_directions};

/// The reused body of every page body that names no register, also of one with font definitions and with numbers of fonts and characters above 255,
/// which `reuse` does not take: it has the same marks, the same end and the same font, passes through no other place, nests no deeper and is never
/// longer.
pub fn reused_means_the_same()
    ensures meaning { (body : Forest) → AllByRecursion NamesNoRegister (flat body) → MeansTheSame body (reused_body body) }
    ensures points { (body : Forest) → AllByRecursion NamesNoRegister (flat body) → PassesThroughNoOther body (reused_body body) }
    ensures nesting { (body : Forest) → NestsNoDeeper body (reused_body body) }
    ensures bytes { (body : Forest) → length (bytes_of (flat (reused_body body))) ≤ length (bytes_of (flat body)) }
    ensures order { (body : Forest) → leaves_in_order (flat (reused_body body)) ≡ leaves_in_order (flat body) }
    ensures writable { (body : Forest) → AllByRecursion IsWritable (flat body) → AllByRecursion IsWritable (flat (reused_body body)) }
    ensures full { (body : Forest) → HasNoHollow (reused_body body) }
    ensures held { (body : Forest) (axis : Axis) → AllByRecursion NamesNoRegister (flat body) → UsesStored axis unset_registers (reused_body body) }
    ensures set_before_use { (body : Forest) (axis : Axis) → AllByRecursion NamesNoRegister (flat body)
        → SetsBeforeUse axis unset_registers (reused_body body) }
{}

/// What `reused_body` gives for known bodies.
#[tactic(auto, unfolding(crate::specs::Reused::reused_body))]
pub fn known_bodies()
    ensures nested { reused_body nested_movements ≡ nested_reused }
    ensures three_amounts { reused_body three_amounts ≡ three_amounts_reused }
    ensures three_depths { reused_body three_depths ≡ three_depths_reused }
    ensures two_directions { reused_body two_directions ≡ two_directions }
    ensures empty_groups { reused_body empty_groups ≡ empty_groups_reused }
    ensures set_in_a_group { reused_body set_in_a_group ≡ set_in_a_group_reused }
    ensures apart_amounts { reused_body apart_amounts ≡ apart_amounts }
    ensures fonts { reused_body fonts_in_nested_boxes ≡ fonts_in_nested_boxes }
    ensures kerned_rules { reused_body kerned_rules ≡ kerned_rules_reused }
{}
