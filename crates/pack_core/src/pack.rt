//! Packed boxes (TeX: The Program, part 33, §649 to §678).

ghost use Rattle.std.specs.Prelude.{◌≡◌, ◌≢◌, ◌+ℤ◌, ◌-ℤ◌, ◌^◌, ◌≤◌, ◌==◌, IfOk, IfErr, List, None, is_some, length};
ghost use Rattle.std.specs.Option.{IfSome};
ghost use Rattle.std.specs.Result.{is_ok};
ghost use Rattle.std.specs.List.{list_all};
ghost use Rattle.std.specs.Int.{int_min};
ghost use Rattle.scaled_core.specs.Dimensions.{Fits, fits, dimension_of};
ghost use Rattle.node_core.specs.Nodes.{max_nodes, nodes_of};
ghost use Rattle.node_core.specs.declared.tree.Node.{Node};
ghost use Rattle.pack_core.specs.Totals.{first_height};
ghost use Rattle.pack_core.specs.Boxes.{target_size, hbox, hbox_badness, hbox_numbers, hpack_result, vbox, vbox_badness, vbox_numbers, vpack_result};
ghost use Rattle.pack_core.specs.Boxes.{vtop_box};
ghost use Rattle.pack_core.specs.Boxes.{vtop_numbers, vtop_result, some_if, hbox_shell, vbox_shell, packed_of};
ghost use Rattle.pack_core.specs.ListTotals.{IsAcross};
ghost use Rattle.pack_core.specs.Places.{place_in};
ghost use Rattle.pack_core.specs.Private.Steps.{vtop_shell, boxed_list};
ghost use Rattle.pack_core.specs.Tails.{AreMeasuresOf, HasGoneDown};

use crate::across::Across;
use crate::down::Down;
use crate::setting::set_glue;
use crate::sizes::first_height_of;
use node_core::{BoxNode, Kind, Node, NodeList, Setting};
use scaled_core::Dimen;
use thiserror::Error;

/// The size to which a list is packed, in scaled points.
#[derive(Clone, Copy, Debug, PartialEq, Eq)]
pub enum Target {
    /// The natural size.
    Natural,
    /// This size.
    To(Dimen),
    /// The natural size plus this amount.
    Spread(Dimen),
}

/// A packed box.
#[derive(Debug, Drop)]
pub struct PackedBox {
    pub box_node: BoxNode,
    /// How badly its glue is stretched or shrunk: 0 to 10000, or 1000000 if the box is overfull.
    pub badness: u32,
}

/// One of the numbers of a list does not fit. The list is returned.
#[derive(Debug, Drop, Error)]
#[error("a size of the box is too large")]
pub struct TooLarge {
    pub list: NodeList,
}

/// Packs a horizontal list into an hbox: its width is given by the target, and its height and depth are those of its highest and its deepest item
/// (TeX: The Program, part 33, §649, hpack). `TooLarge` is returned exactly when one of its numbers does not fit (own), with the list unchanged. Does
/// not allocate.
#[tactic(auto, using(crate::proofs::Packing::packing))]
pub fn hpack(list: NodeList, target: Target) -> Result<PackedBox, TooLarge>
    ensures value { result ≡ hpack_result target list }
    ensures ok { IfOk result (λ p. (p.box_node ≡ hbox target list) × (p.badness ≡ hbox_badness target (nodes_of list))) }
    ensures fits { is_ok result ≡ list_all fits (hbox_numbers target (nodes_of list)) }
    ensures list_returned { IfErr result (λ e. e.list ≡ list) }
    ensures edge { IfOk result (λ p. p.box_node.setting ≢ Setting.Natural → p.badness ≢ 1000000 →
        place_in p.box_node (length (nodes_of p.box_node.list)) ≡ p.box_node.width) }
{
    let shell = hbox_shell(target, list.as_slice());
    boxed_list(list, shell)
}

/// Packs a vertical list into a vbox: its height is given by the target, and its baseline is that of the last rule or box, but its depth is at most
/// the limit (TeX: The Program, part 33, §668, vpackage). `TooLarge` is returned exactly when one of its numbers does not fit (own), with the list
/// unchanged. Does not allocate.
#[tactic(auto, using(crate::proofs::Packing::packing))]
pub fn vpack(list: NodeList, target: Target, depth_limit: Dimen) -> Result<PackedBox, TooLarge>
    ensures value { result ≡ vpack_result target depth_limit list }
    ensures ok { IfOk result (λ p. (p.box_node ≡ vbox target depth_limit list) × (p.badness ≡ vbox_badness target depth_limit (nodes_of list))) }
    ensures fits { is_ok result ≡ list_all fits (vbox_numbers target depth_limit (nodes_of list)) }
    ensures list_returned { IfErr result (λ e. e.list ≡ list) }
    ensures edge { IfOk result (λ p. p.box_node.setting ≢ Setting.Natural → p.badness ≢ 1000000 →
        place_in p.box_node (length (nodes_of p.box_node.list)) ≡ p.box_node.height +ℤ p.box_node.depth) }
{
    let shell = vbox_shell(target, depth_limit, list.as_slice());
    boxed_list(list, shell)
}

/// Packs a vertical list into a vtop: the vbox with its baseline at that of its first item, if it is a rule or a box, and otherwise at its top (TeX:
/// The Program, part 47, §1087). `TooLarge` is returned exactly when one of its numbers does not fit, with the list unchanged. Does not allocate.
#[tactic(auto, using(crate::proofs::Packing::packing))]
pub fn vtop(list: NodeList, target: Target, depth_limit: Dimen) -> Result<PackedBox, TooLarge>
    ensures value { result ≡ vtop_result target depth_limit list }
    ensures ok { IfOk result (λ p. (p.box_node ≡ vtop_box target depth_limit list) × (p.badness ≡ vbox_badness target depth_limit (nodes_of list))) }
    ensures fits { is_ok result ≡ list_all fits (vtop_numbers target depth_limit (nodes_of list)) }
    ensures list_returned { IfErr result (λ e. e.list ≡ list) }
    ensures edge { IfOk result (λ p. p.box_node.setting ≢ Setting.Natural → p.badness ≢ 1000000 →
        place_in p.box_node (length (nodes_of p.box_node.list)) ≡ p.box_node.height +ℤ p.box_node.depth) }
{
    let shell = vtop_shell_of(target, depth_limit, list.as_slice());
    boxed_list(list, shell)
}

/// A box without its list, and its badness.
#[derive(Clone, Copy, Debug, PartialEq, Eq)]
pub struct Shell {
    pub kind: Kind,
    pub width: Dimen,
    pub height: Dimen,
    pub depth: Dimen,
    pub setting: Setting,
    pub badness: u32,
}

/// The target size of a list of this natural size, if it fits.
#[tactic(auto, using(scaled_core::proofs::Fitting::some_dimension))]
fn wanted_size(target: Target, natural: Dimen) -> Option<Dimen>
    ensures { result ≡ dimension_of (target_size target natural) }
{
    match target {
        Target::Natural => Some(natural.known_to_fit()),
        Target::To(size) => Some(size.known_to_fit()),
        Target::Spread(more) => natural.checked_add(more),
    }
}

/// The depth of a vbox: at most the limit.
fn at_most(depth: Dimen, limit: Dimen) -> Dimen
    ensures value { result ≡ int_min depth limit }
    ensures fits { Fits result }
{
    depth.min(limit).known_to_fit()
}

/// The natural height of a vertical list whose box has this depth, if it fits.
fn height_above(depth: Dimen, down: &Down) -> Option<Dimen>
    requires { HasGoneDown (2 ^ 64) down.now }
    ensures { result ≡ dimension_of (down.now.advance -ℤ depth) }
{
    Dimen::from_wide(down.advance - i128::from(depth.get()))
}

/// The box that `hpack` would make of these nodes, without the list; `None` exactly when one of their numbers does not fit. Does not allocate.
pub fn hbox_shell(target: Target, nodes: &[Node]) -> Option<Shell>
    requires { length nodes.now ≤ max_nodes }
    ensures { result ≡ some_if (list_all fits (hbox_numbers target nodes.now)) (hbox_shell target nodes.now) }
{
    let across = Across::of(nodes);
    measured_shell(target, nodes.is_empty(), &across)
}

/// The box that `hpack` would make of a list with these measures, without the list, if the numbers of the list fit. Who knows the measures of a line
/// need not walk over its items. Does not allocate.
#[tactic(auto, using(crate::proofs::Steps::steps))]
#[inline(always)]
pub fn measured_shell(target: Target, empty: bool, across: &Across) -> Option<Shell>
    ensures { (nodes : List Node) → IsAcross nodes across.now → empty ≡ (length nodes == 0) →
        result ≡ some_if (list_all fits (hbox_numbers target nodes)) (hbox_shell target nodes) }
{
    let natural = Dimen::try_new(across.width)?;
    let width = wanted_size(target, natural)?;
    let height = Dimen::try_new(across.height)?;
    let depth = Dimen::try_new(across.depth)?;
    let set = set_glue(width, natural, empty, across.stretch, across.shrink)?;
    Some(Shell {
        kind: Kind::Horizontal,
        width,
        height,
        depth,
        setting: set.setting,
        badness: set.badness,
    })
}

/// The vbox of a list with these measures, without the list, if the numbers of the list fit.
#[tactic(auto, using(crate::proofs::Steps::steps))]
pub(crate) fn vertical_shell(
    target: Target,
    limit: Dimen,
    empty: bool,
    down: &Down,
) -> Option<Shell>
    requires { HasGoneDown (2 ^ 64) down.now }
    ensures { (nodes : List Node) → AreMeasuresOf nodes down.now → empty ≡ (length nodes == 0) →
        result ≡ some_if (list_all fits (vbox_numbers target limit nodes)) (vbox_shell target limit nodes) }
{
    let depth = at_most(down.pending_depth, limit);
    let natural = height_above(depth, down)?;
    let height = wanted_size(target, natural)?;
    let width = Dimen::try_new(down.breadth)?;
    let set = set_glue(height, natural, empty, down.stretch, down.shrink)?;
    Some(Shell {
        kind: Kind::Vertical,
        width,
        height,
        depth,
        setting: set.setting,
        badness: set.badness,
    })
}

/// The box that `vpack` would make of these nodes, without the list; `None` exactly when one of their numbers does not fit. Does not allocate.
#[tactic(auto, using(crate::proofs::Steps::steps))]
pub fn vbox_shell(target: Target, depth_limit: Dimen, nodes: &[Node]) -> Option<Shell>
    ensures value { result ≡ some_if (list_all fits (vbox_numbers target depth_limit nodes.now)) (vbox_shell target depth_limit nodes.now) }
    ensures fits { is_some result ≡ list_all fits (vbox_numbers target depth_limit nodes.now) }
    ensures shell { IfSome result (λ shell. shell ≡ vbox_shell target depth_limit nodes.now) }
{
    let down = Down::new().followed_by(nodes);
    vertical_shell(target, depth_limit, nodes.is_empty(), &down)
}

/// A box without its list, if there is one, with this height in place of its own, if the depth then fits. Height and depth together stay the same.
#[tactic(auto, using(crate::proofs::Steps::steps))]
fn with_height(shell: Option<Shell>, height: Dimen) -> Option<Shell>
    ensures value { IfSome shell (λ own. result ≡ some_if (fits ((vtop_shell own height).depth)) (vtop_shell own height)) }
    ensures none { shell ≡ None → result ≡ None }
    ensures height { Fits height }
{
    let above = i64::from(height.get());
    let Some(own) = shell else {
        return None;
    };
    let depth = Dimen::try_new(own.depth.exact_add(own.height) - above)?;
    Some(Shell {
        kind: own.kind,
        width: own.width,
        height,
        depth,
        setting: own.setting,
        badness: own.badness,
    })
}

/// The height of the first item if it is a rule or a box, and otherwise 0.
fn first_height(nodes: &[Node]) -> Dimen
    ensures { result ≡ first_height nodes.now }
{
    match nodes {
        [node, ..] => first_height_of(node),
        [] => Dimen::ZERO,
    }
}

/// The vtop of a list, without the list, if its numbers fit.
fn vtop_shell_of(target: Target, limit: Dimen, nodes: &[Node]) -> Option<Shell>
    ensures { result ≡ some_if (list_all fits (vtop_numbers target limit nodes.now))
        (vtop_shell (vbox_shell target limit nodes.now) (first_height nodes.now)) }
{
    let height = first_height(nodes);
    let shell = vbox_shell(target, limit, nodes);
    with_height(shell, height)
}

/// The list in its box, or the list itself if there is no box for it.
#[tactic(auto, unfolding(crate::specs::Private::Steps::boxed_list))]
fn boxed_list(list: NodeList, shell: Option<Shell>) -> Result<PackedBox, TooLarge>
    ensures { result ≡ boxed_list list shell }
{
    match shell {
        None => Err(TooLarge { list }),
        Some(shell) => Ok(packed_of(list, &shell)),
    }
}

/// Puts a list into a box that was computed without it. Does not allocate.
#[tactic(auto, unfolding(crate::specs::Boxes::packed_of))]
pub fn packed_of(list: NodeList, shell: &Shell) -> PackedBox
    ensures { result ≡ packed_of list shell.now }
{
    let box_node = BoxNode {
        kind: shell.kind,
        width: shell.width,
        height: shell.height,
        depth: shell.depth,
        setting: shell.setting,
        list,
    };
    PackedBox {
        box_node,
        badness: shell.badness,
    }
}
