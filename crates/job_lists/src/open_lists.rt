//! One open list: whether a box or its items fit at its end, how they are appended, and how it is packed.

ghost use Rattle.std.specs.Prelude.{◌≡◌, ◌<◌, ◌≤◌, ◌+◌, ◌++◌, pos, max, length, None, OnOk, OnErr, IfOk, IfErr, IfSome, IsOk, Some, option_copied};
ghost use Rattle.node_core.specs.Items.{none};
ghost use Rattle.node_core.specs.Nodes.{max_nodes, items_of, nodes_of};
ghost use Rattle.vert_core.specs.Interline.{interline, glue_of, appended_nodes};
ghost use Rattle.vert_core.specs.Appended.{IsAppended, IsUnappended};
ghost use Rattle.vert_core.specs.Paragraphs.{break_fault, IsUnset};
ghost use Rattle.vert_core.specs.Setting.{setting};
ghost use Rattle.job_machine.specs.State.{nodes_in};
ghost use Rattle.job_machine.specs.OpenLists.{glue_in, box_items, packed_as, packed_list};
ghost use Rattle.job_machine.specs.Checks.{box_checks, inner_checks, first_refusal};
ghost use Rattle.job_machine.specs.Effects.{list_with_box};

use job_machine::{BoxForm, ListPurpose, OpenList, Refusal};
use node_core::limits::MAX_ITEMS;
use node_core::{BoxNode, Glue, Kind, NodeList, Params};
use pack_core::{PackedBox, Target, TooLarge, hpack, vpack, vtop};
use scaled_core::Dimen;
use std::alloc::Global;
use std::mem::replace;
use vert_core::{
    AppendedParagraph, DimensionTooLarge, UnappendedLines, append_paragraph,
    append_with_glue as append_to_items, interline_glue,
};

/// The box of a form and a target that a list becomes, or the list where a size does not fit.
fn pack_as(
    form: BoxForm,
    target: Target,
    params: &Params,
    list: NodeList,
) -> Result<PackedBox, TooLarge>
    ensures value { result ≡ packed_as form params.now target list }
    ensures list_returned { IfErr result (λ large. large.list ≡ list) }
{
    match form {
        BoxForm::Hbox => hpack(list, target),
        BoxForm::Vbox => vpack(list, target, params.box_max_depth),
        BoxForm::Vtop => vtop(list, target, params.box_max_depth),
    }
}

/// The box of a list, which is then empty. None where a size does not fit, or the list is a paragraph, which becomes no box; the list is then
/// unchanged.
pub(crate) fn pack(open_list: &mut OpenList, alloc: Global, params: &Params) -> Option<PackedBox>
    ensures value { result ≡ packed_list params.now (Some open_list.old) }
    ensures emptied { IfSome result (λ packed. open_list.new ≡ record open_list.old { list = none }) }
    ensures none { result ≡ None → open_list.new ≡ open_list.old }
    ensures list { IfSome result (λ packed. packed.box_node.list ≡ open_list.old.list) }
{
    let ListPurpose::Box(opening) = open_list.purpose else {
        return None;
    };
    // Packing takes the list itself, so an empty one holds its place.
    let list = replace(&mut open_list.list, NodeList::new(alloc));
    match pack_as(opening.form, opening.target, params, list) {
        Ok(packed) => Some(packed),
        Err(large) => {
            open_list.list = large.list;
            None
        }
    }
}

/// The glue before a box of that height at the end of a list. None in a horizontal list, and in a vertical one without a previous depth.
fn glue_before(
    open_list: &OpenList,
    height: Dimen,
    params: &Params,
) -> Result<Option<Glue>, DimensionTooLarge>
    ensures { result ≡ glue_in params.now open_list.now height }
{
    match open_list.purpose.kind() {
        Kind::Horizontal => Ok(None),
        Kind::Vertical => interline_glue(open_list.previous_depth, height, params),
    }
}

/// How many items a box adds to a list: 1, or 2 with the glue before it.
///
/// `DimensionTooLarge` where that glue does not fit, and else `ListTooLong` where the list would have more than `MAX_ITEMS` items.
pub fn space_for_box(
    open_list: &OpenList,
    box_node: &BoxNode,
    params: &Params,
) -> Result<usize, Refusal>
    ensures ok { OnOk result (first_refusal (box_checks params.now (Some open_list.now) box_node.now) ≡ None) }
    ensures count { IfOk result (λ count. count ≡ length (box_items params.now open_list.now (pos 0) box_node.now)) }
    ensures err { IfErr result (λ refusal. first_refusal (box_checks params.now (Some open_list.now) box_node.now) ≡ Some refusal) }
{
    let count = match glue_before(open_list, box_node.height, params) {
        Err(_) => return Err(Refusal::DimensionTooLarge),
        Ok(None) => 1,
        Ok(Some(_)) => 2,
    };
    if open_list.list.len() + count > MAX_ITEMS {
        return Err(Refusal::ListTooLong);
    }
    Ok(count)
}

/// How many items unboxing adds to a list, without the box itself. A void register adds none.
///
/// `WrongMode` where the list is not of the command's kind, else `WrongKind` where the box is not, else `ListTooLong` where the list would have
/// more than `MAX_ITEMS` items.
#[tactic(auto, using(job_machine::proofs::OtherKinds::other_kinds))]
pub fn space_for_items(
    open_list: &OpenList,
    kind: Kind,
    held: Option<&BoxNode>,
) -> Result<usize, Refusal>
    ensures ok { OnOk result (first_refusal (inner_checks kind (Some open_list.now) (option_copied held.entry)) ≡ None) }
    ensures count { IfOk result (λ count. count ≡ length (nodes_in (option_copied held.entry))) }
    ensures err { IfErr result (λ refusal. first_refusal (inner_checks kind (Some open_list.now) (option_copied held.entry)) ≡ Some refusal) }
    ensures list_bounded { IfOk result (λ count. length (nodes_of open_list.now.list) + count
        ≤ max MAX_ITEMS (length (nodes_of open_list.now.list))) }
{
    let length = open_list.list.len();
    if kind != open_list.purpose.kind() {
        return Err(Refusal::WrongMode);
    }
    let Some(box_node) = held else {
        return Ok(0);
    };
    if kind != box_node.kind {
        return Err(Refusal::WrongKind);
    }
    let items = box_node.list.len();
    if length + items > MAX_ITEMS {
        return Err(Refusal::ListTooLong);
    }
    Ok(items)
}

/// Appends a box to a horizontal list.
fn append_across(open_list: &mut OpenList, box_node: BoxNode, shift: Dimen) -> Result<(), BoxNode>
    requires { length (nodes_of open_list.old.list) < max_nodes }
    ensures ok { OnOk result (open_list.new
        ≡ record open_list.old {
          list = items_of
              (nodes_of open_list.old.list ++ appended_nodes None shift box_node);
          previous_depth = box_node.depth;
        }) }
    ensures err { OnErr result (open_list.new ≡ open_list.old) }
    ensures box_returned { IfErr result (λ back. back ≡ box_node) }
{
    let depth = box_node.depth;
    open_list.list.push_box(shift, box_node)?;
    open_list.previous_depth = depth;
    Ok(())
}

/// Appends a box to a vertical list, after the glue before it.
fn append_down(
    open_list: &mut OpenList,
    box_node: BoxNode,
    shift: Dimen,
    params: &Params,
) -> Result<(), BoxNode>
    requires list_bounded { length (nodes_of open_list.old.list) + 2 ≤ max_nodes }
    requires fits { IsOk (interline params.now open_list.old.previous_depth box_node.height) }
    ensures ok { OnOk result (open_list.new ≡ record open_list.old {
      list = items_of
          (nodes_of open_list.old.list ++ appended_nodes
          (glue_of (interline params.now open_list.old.previous_depth box_node.height)) shift box_node);
      previous_depth = box_node.depth;
    }) }
    ensures err { OnErr result (open_list.new ≡ open_list.old) }
    ensures box_returned { IfErr result (λ back. back ≡ box_node) }
{
    let depth = box_node.depth;
    let Ok(glue) = interline_glue(open_list.previous_depth, box_node.height, params) else {
        unreachable!()
    };
    append_to_items(&mut open_list.list, glue, shift, box_node)?;
    open_list.previous_depth = depth;
    Ok(())
}

/// Appends a box to a list, after the glue before it. The shift moves the box down in a horizontal list, right in a vertical one.
///
/// Where memory is refused the box comes back, and the list is unchanged.
pub fn append_with_glue(
    open_list: &mut OpenList,
    box_node: BoxNode,
    shift: Dimen,
    params: &Params,
) -> Result<(), BoxNode>
    requires { first_refusal (box_checks params.now (Some open_list.old) box_node) ≡ None }
    ensures ok { OnOk result (open_list.new ≡ list_with_box params.now shift box_node open_list.old) }
    ensures err { OnErr result (open_list.new ≡ open_list.old) }
    ensures box_returned { IfErr result (λ back. back ≡ box_node) }
{
    match open_list.purpose.kind() {
        Kind::Horizontal => append_across(open_list, box_node, shift),
        Kind::Vertical => append_down(open_list, box_node, shift, params),
    }
}

/// Appends the lines of a paragraph of these items, which go into the lines, with their glue and penalties. The previous depth is then that of the
/// last line. Where the lines are not appended, both lists are unchanged.
pub(crate) fn append_lines(
    open_list: &mut OpenList,
    items: &mut NodeList,
    alloc: Global,
    params: &Params,
) -> Result<AppendedParagraph, UnappendedLines>
    requires items_bounded { length (nodes_of items.old) ≤ MAX_ITEMS }
    requires list_bounded { length (nodes_of open_list.old.list) ≤ MAX_ITEMS }
    ensures ok { IfOk result (IsAppended (setting (nodes_of items.old) params.now open_list.old.previous_depth) (nodes_of open_list.old.list)
        (nodes_of open_list.new.list)) }
    ensures fits { OnOk result (break_fault (nodes_of items.old) params.now.par_fill_skip ≡ None) }
    ensures changed { IfOk result (λ figures. open_list.new ≡ record open_list.old { list = open_list.new.list; previous_depth = figures.depth }) }
    ensures emptied { OnOk result (items.new ≡ none) }
    ensures refused { IfErr result (IsUnappended (setting (nodes_of items.old) params.now open_list.old.previous_depth)
        (IsUnset (nodes_of items.old) params.now open_list.old.previous_depth) (nodes_of open_list.old.list)) }
    ensures err { OnErr result (open_list.new ≡ open_list.old) }
    ensures same { OnErr result (items.new ≡ items.old) }
{
    let previous_depth = open_list.previous_depth;
    match append_paragraph(alloc, items, &mut open_list.list, params, previous_depth) {
        Ok(appended) => {
            open_list.previous_depth = appended.depth;
            Ok(appended)
        }
        Err(unappended) => Err(unappended),
    }
}
