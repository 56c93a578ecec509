//! The plan of a split, found before any item is moved.

ghost use Rattle.std.specs.Prelude.{◌≡◌, ◌≤◌, ◌<◌, ◌++◌, ◌∷◌, Some, None, IfOk, IfErr, OnOk, if◌then◌else◌};
ghost use Rattle.std.specs.Prelude.{true, false, is_ok, is_some, length, take, drop};
ghost use Rattle.std.specs.List.{list_all, list_any, slice_get};
ghost use Rattle.std.specs.Option.{IfSome};
ghost use Rattle.scaled_core.specs.Dimensions.{fits};
ghost use Rattle.node_core.specs.Nodes.{max_nodes};
ghost use Rattle.node_core.specs.Classes.{shrinks_infinitely};
ghost use Rattle.pack_core.specs.Boxes.{some_if, vbox_numbers, vbox_shell};
ghost use Rattle.vert_core.specs.Places.{is_some_before_break};
ghost use Rattle.vert_core.specs.Split.{from_box_or_rule, specials_above, from_first_box, left_of, items_after, top_widths, rest_numbers};
ghost use Rattle.vert_core.specs.Split.{split_place};
ghost use Rattle.vert_core.specs.Split.{refusal, top_width, top_glue, no_limit};
ghost use Rattle.vert_core.specs.Tails.{AreTails, MeasureEnds};
ghost use Rattle.vert_core.specs.Private.Steps.{glued_items, rest_list, left_items, IsInside, PlanFits};

use crate::parts::SplitFault;
use crate::tails::{Tails, entries_of, known_end};
use crate::trials::{is_box_or_rule, precedes_break, split_place};
use node_core::{Glue, Node, SplitParams};
use pack_core::{Shell, Tail, Target, first_height_of, vbox_below, vbox_shell};
use scaled_core::Dimen;

/// The plan of a split.
#[derive(Clone, Copy, Debug, PartialEq, Eq)]
pub struct Plan {
    /// The index of the item before which the list is split, or the number of items for the end.
    pub place: usize,
    /// The box of the items before the place.
    pub front: Shell,
    /// The rest, if anything is left.
    pub rest: Option<SplitRest>,
}

/// The rest of a list that is split.
#[derive(Clone, Copy, Debug, PartialEq, Eq)]
pub struct SplitRest {
    /// The first item that stays: a special, a box or a rule.
    pub first: usize,
    /// The first box or rule, before which only specials stay, or the number of items if there is none.
    pub start: usize,
    /// The glue above the first box or rule, if there is one.
    pub glue: Option<Glue>,
    /// The box of the rest.
    pub shell: Shell,
}

/// The glue above some items, if there are any, and the vbox of both.
#[derive(Clone, Copy, Debug, PartialEq, Eq)]
struct Top {
    glue: Option<Glue>,
    shell: Shell,
}

/// Whether the first of these items shrinks in an infinite order.
fn begins_with_infinite_shrink(nodes: &[Node]) -> bool
    requires { list_any shrinks_infinitely (drop 1 nodes.now) ≡ false }
    ensures { result ≡ list_any shrinks_infinitely nodes.now }
{
    match nodes {
        [first, ..] => first.shrinks_infinitely(),
        [] => false,
    }
}

/// Whether some glue of a list shrinks in an infinite order. The whole list is tested, including the items after the place, so this refusal does not
/// depend on the height. Splittopskip is not tested, since it is not part of the list; it is then the first item of the rest. If the tails of a list
/// are known, its other items were tested before.
fn has_infinite_shrink(nodes: &[Node], tails: &Option<Tails>) -> bool
    requires { IfSome tails.now (λ known. AreTails known nodes.now) }
    ensures { result ≡ list_any shrinks_infinitely nodes.now }
{
    if tails.is_some() {
        return begins_with_infinite_shrink(nodes);
    }
    nodes.iter().any(|node| node.shrinks_infinitely())
}

/// The first item from a place on that stays, or the number of items if there is none.
fn first_kept(nodes: &[Node], place: usize) -> usize
    requires { place ≤ length nodes.now }
    ensures specials { specials_above (drop result nodes.now) ≡ specials_above (drop place nodes.now) }
    ensures solid { from_box_or_rule (drop result nodes.now) ≡ from_box_or_rule (drop place nodes.now) }
    ensures kept { result < length nodes.now → is_some_before_break (slice_get nodes.now result) ≡ true }
    ensures after { place ≤ result }
    ensures place_bounded { result ≤ length nodes.now }
{
    for first in place..nodes.len() {
        if precedes_break(&nodes[first]) {
            return first;
        }
    }
    nodes.len()
}

/// The index of the first box or rule from a place on, or the number of items if there is none.
fn rest_start(nodes: &[Node], place: usize) -> usize
    requires { place ≤ length nodes.now }
    ensures value { drop result nodes.now ≡ from_box_or_rule (drop place nodes.now) }
    ensures after { place ≤ result }
    ensures place_bounded { result ≤ length nodes.now }
{
    for start in place..nodes.len() {
        if is_box_or_rule(&nodes[start]) {
            return start;
        }
    }
    nodes.len()
}

/// The glue above a box or a rule of this height, if its width fits.
#[tactic(auto, unfolding(scaled_core::specs::Dimensions::dimension_of))]
fn top_glue(height: Dimen, params: &SplitParams) -> Option<Glue>
    ensures { result ≡ (if fits (top_width params.now height) then Some (top_glue params.now height) else None) }
{
    let left = params.split_top_skip.width.exact_sub(height);
    let width = Dimen::try_new(left.max(0))?;
    Some(Glue {
        width,
        ..params.split_top_skip
    })
}

/// The vbox of some glue and the items that are left below it, if its numbers fit. Only the items above the longest end whose measures are known are
/// measured here.
fn vbox_of_rest(glue: &Glue, left: &[Node], entries: &[Tail]) -> Option<Shell>
    requires list_bounded { length left.now ≤ max_nodes }
    requires ends { MeasureEnds entries.now left.now }
    ensures value { result ≡ some_if (list_all fits (vbox_numbers Target.Natural no_limit (Node.Glue glue.now ∷ left.now)))
        (vbox_shell Target.Natural no_limit (Node.Glue glue.now ∷ left.now)) }
    ensures fits { is_some result ≡ list_all fits (vbox_numbers Target.Natural no_limit (Node.Glue glue.now ∷ left.now)) }
    ensures shell { IfSome result (λ shell. shell ≡ vbox_shell Target.Natural no_limit (Node.Glue glue.now ∷ left.now)) }
{
    let end = known_end(entries, left);
    vbox_below(Dimen::MAX, glue, &left[..left.len() - end.count], &end.tail)
}

/// The glue above the items that are left, the first of which is a box or a rule, and the vbox of both, if their numbers fit. Without items there is
/// no glue, and the vbox is empty.
fn top_of(left: &[Node], params: &SplitParams, entries: &[Tail]) -> Result<Top, SplitFault>
    requires list_bounded { length left.now ≤ max_nodes }
    requires ends { MeasureEnds entries.now left.now }
    ensures glue { IfOk result (λ top. glued_items top.glue left.now ≡ from_first_box params.now left.now) }
    ensures shell { IfOk result (λ top. top.shell ≡ vbox_shell Target.Natural no_limit (from_first_box params.now left.now)) }
    ensures fits { is_ok result
        ≡ list_all fits (top_widths params.now left.now ++ vbox_numbers Target.Natural no_limit (from_first_box params.now left.now)) }
    ensures fault { IfErr result (λ e. e ≡ SplitFault.DimensionTooLarge) }
{
    let [first, ..] = left else {
        return match vbox_shell(Target::Natural, Dimen::MAX, left) {
            None => Err(SplitFault::DimensionTooLarge),
            Some(shell) => Ok(Top { glue: None, shell }),
        };
    };
    let Some(glue) = top_glue(first_height_of(first), params) else {
        return Err(SplitFault::DimensionTooLarge);
    };
    match vbox_of_rest(&glue, left, entries) {
        None => Err(SplitFault::DimensionTooLarge),
        Some(shell) => Ok(Top {
            glue: Some(glue),
            shell,
        }),
    }
}

/// The rest of a list after a place, if its numbers fit. The specials above the glue do not change its box.
fn plan_rest(
    nodes: &[Node],
    place: usize,
    params: &SplitParams,
    entries: &[Tail],
) -> Result<Option<SplitRest>, SplitFault>
    requires list_bounded { length nodes.now ≤ max_nodes }
    requires ends { MeasureEnds entries.now (drop 1 nodes.now) }
    requires place_bounded { place ≤ length nodes.now }
    requires dropped { is_some_before_break (slice_get nodes.now place) ≡ false }
    ensures ok { IfOk result (λ rest. left_items rest nodes.now ≡ left_of params.now (drop place nodes.now)) }
    ensures after { IfOk result (λ rest. IfSome rest (λ r. place < r.first)) }
    ensures inside { IfOk result (λ rest. IfSome rest (λ r. IsInside r nodes.now)) }
    ensures shell { IfOk result (λ rest. IfSome rest (λ r. r.shell ≡ vbox_shell Target.Natural no_limit (rest_list r nodes.now))) }
    ensures fits { is_ok result ≡ list_all fits (rest_numbers params.now (drop place nodes.now)) }
    ensures fault { IfErr result (λ e. e ≡ SplitFault.DimensionTooLarge) }
{
    let first = first_kept(nodes, place);
    if first == nodes.len() {
        return Ok(None);
    }
    let start = rest_start(nodes, first);
    let top = top_of(&nodes[start..], params, entries)?;
    Ok(Some(SplitRest {
        first,
        start,
        glue: top.glue,
        shell: top.shell,
    }))
}

/// The plan for splitting a list to this height. It fails exactly when the split does, except for lack of memory. If the tails are known, it looks at
/// the items of the front, and at few below them. Does not allocate.
pub fn plan_split(
    nodes: &[Node],
    tails: &Option<Tails>,
    height: Dimen,
    params: &SplitParams,
) -> Result<Plan, SplitFault>
    requires list_bounded { length nodes.now ≤ max_nodes }
    requires tails { IfSome tails.now (λ known. AreTails known nodes.now) }
    ensures place { IfOk result (λ p. p.place ≡ split_place params.now height nodes.now) }
    ensures rest_planned { IfOk result (λ p. left_items p.rest nodes.now ≡ left_of params.now (items_after params.now height nodes.now)) }
    ensures front { IfOk result (λ p. p.front ≡ vbox_shell (Target.To height) params.now.split_max_depth (take p.place nodes.now)) }
    ensures shell { IfOk result (λ p. IfSome p.rest (λ r. r.shell ≡ vbox_shell Target.Natural no_limit (rest_list r nodes.now))) }
    ensures sound { IfOk result (λ p. PlanFits nodes.now p) }
    ensures ok { OnOk result (refusal params.now height nodes.now ≡ None) }
    ensures finite { OnOk result (list_any shrinks_infinitely nodes.now ≡ false) }
    ensures err { IfErr result (λ e. refusal params.now height nodes.now ≡ Some e) }
{
    if has_infinite_shrink(nodes, tails) {
        return Err(SplitFault::InfiniteShrink);
    }
    let place = split_place(nodes, height, params);
    let before = &nodes[..place];
    let Some(front) = vbox_shell(Target::To(height), params.split_max_depth, before) else {
        return Err(SplitFault::DimensionTooLarge);
    };
    let rest = plan_rest(nodes, place, params, entries_of(tails))?;
    Ok(Plan { place, front, rest })
}
