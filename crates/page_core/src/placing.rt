//! The places of the items of a box on a page, and their marks.

ghost use Rattle.std.specs.Prelude.{◌≡◌, ◌+ℤ◌, ◌+◌, ◌^◌, [], ◌∷◌, pos, true, Some, None, is_some, IfSome};
ghost use Rattle.std.specs.List.{list_all};
ghost use Rattle.scaled_core.specs.Dimensions.{Within, fits, dimension_of};
ghost use Rattle.page_core.specs.Marks.{size_in, right_at, down_at, rule_below, rule_tall, rule_wide, rule_mark, box_h, box_v, points_and_sizes};
ghost use Rattle.page_core.specs.DrawnPages.{DrawnPage, in_front};
ghost use Rattle.page_core.specs.Placing.{fitting_point, Reaches, IsMarkEnd, marked_in, marked_of, reference_h, reference_v};
ghost use Rattle.node_core.specs.declared.tree.Kind.{Kind};
ghost use Rattle.node_core.specs.declared.tree.Node.TheVariants as nodes;

use node_core::{BoxNode, Glyph, Kind, Node, Rule, RuleSize};
use pack_core::own_size;
use scaled_core::Dimen;

/// A point of a page, in scaled points to the right of its origin and below it.
#[derive(Clone, Copy, Debug, PartialEq, Eq)]
pub struct Point<T> {
    pub h: T,
    pub v: T,
}

/// A point whose numbers need not fit as dimensions: each is a dimension or a sum of two.
pub type PagePoint = Point<i32>;

/// A point that fits.
pub type PagePosition = Point<Dimen>;

impl Point<Dimen> {
    /// The point of the page at a position.
    pub fn point(self) -> PagePoint
        ensures h { result.h ≡ self.h }
        ensures v { result.v ≡ self.v }
    {
        Point {
            h: self.h.get(),
            v: self.v.get(),
        }
    }

    /// Both numbers of a position fit, since each dimension fits. This is a fact for the proofs, and the call does nothing.
    #[tactic(auto, using(scaled_core::proofs::Fitting::dimension_fits))]
    #[inline(always)]
    pub fn numbers_fit(&self)
        ensures h { fits self.now.h ≡ true }
        ensures v { fits self.now.v ≡ true }
    {
        let _h = self.h.get();
        let _v = self.v.get();
    }
}

/// The kind of a mark: a rule of this height, or a character of the font in this slot.
#[derive(Clone, Copy, Debug)]
pub enum MarkKind {
    Rule(Dimen),
    Glyph { slot: u8, code: u8 },
}

/// A mark on a page: its corner or reference point, its width, and the value of h after it.
#[derive(Clone, Copy, Debug)]
pub struct PlacedMark {
    pub h: Dimen,
    pub v: Dimen,
    pub width: Dimen,
    pub end: Dimen,
    pub mark_kind: MarkKind,
}

/// An item on a page: its mark, if it has one, and its position; for a box its reference point.
#[derive(Clone, Copy, Debug)]
pub struct PlacedItem {
    pub mark: Option<PlacedMark>,
    pub at: PagePosition,
}

/// The position with these numbers, where both fit.
fn fitting_point(h: i128, v: i128) -> Option<PagePosition>
    ensures { result ≡ fitting_point h v }
{
    let h = Dimen::from_wide(h)?;
    let v = Dimen::from_wide(v)?;
    Some(Point { h, v })
}

/// A number plus a distance.
#[inline(always)]
pub(crate) fn coordinate_after(from: i64, distance: i128) -> i128
    requires { Within (2 ^ 126 + 2 ^ 63) distance }
    ensures { result ≡ from +ℤ distance }
{
    i128::from(from) + distance
}

/// The position at a distance from the start (h, v) of a list of that kind.
pub fn point_at(kind: Kind, h: i64, v: i64, distance: i128) -> Option<PagePosition>
    requires { Within (2 ^ 126 + 2 ^ 63) distance }
    ensures { result ≡ fitting_point (right_at kind h distance) (down_at kind v distance) }
{
    match kind {
        Kind::Horizontal => fitting_point(coordinate_after(h, distance), i128::from(v)),
        Kind::Vertical => fitting_point(i128::from(h), coordinate_after(v, distance)),
    }
}

/// A dimension plus a distance, where the sum fits.
#[inline(always)]
pub fn dimension_after(from: Dimen, distance: i64) -> Option<Dimen>
    requires distance_bounded { Within (2 ^ 31) distance }
    ensures { result ≡ dimension_of (from +ℤ distance) }
{
    Dimen::try_new(i64::from(from.get()) + distance)
}

/// The position at a distance from another one, in a list of that kind.
#[tactic(auto, using(scaled_core::proofs::Fitting::dimension_fits), unfolding(scaled_core::specs::Dimensions::dimension_of))]
#[inline(always)]
pub fn position_after(kind: Kind, at: &PagePosition, distance: i64) -> Option<PagePosition>
    requires distance_bounded { Within (2 ^ 31) distance }
    ensures { result ≡ fitting_point (right_at kind at.now.h distance) (down_at kind at.now.v distance) }
{
    let (h, v) = match kind {
        Kind::Horizontal => (dimension_after(at.h, distance), Some(at.v)),
        Kind::Vertical => (Some(at.h), dimension_after(at.v, distance)),
    };
    Some(Point { h: h?, v: v? })
}

/// A size of a rule in a box, where a running size is the box's own.
fn size_where(whole: Dimen, size: RuleSize) -> Dimen
    ensures { result ≡ size_in whole size }
{
    match size {
        RuleSize::Running => whole,
        RuleSize::Fixed(size) => size,
    }
}

/// The sizes of a rule in a box.
#[derive(Clone, Copy, Debug)]
struct RuleSizes {
    below: Dimen,
    tall: Dimen,
    wide: Dimen,
}

/// The sizes of a rule in the list of a box; None exactly where its height plus depth does not fit.
#[tactic(auto, unfolding(scaled_core::specs::Dimensions::dimension_of))]
fn sizes_of(box_node: &BoxNode, rule: Rule) -> Option<RuleSizes>
    ensures fits { is_some result ≡ fits (rule_tall box_node.now.kind box_node.now rule) }
    ensures below { IfSome result (λ s. s.below ≡ rule_below box_node.now.kind box_node.now rule) }
    ensures tall { IfSome result (λ s. s.tall ≡ rule_tall box_node.now.kind box_node.now rule) }
    ensures wide { IfSome result (λ s. s.wide ≡ rule_wide box_node.now.kind box_node.now rule) }
{
    match box_node.kind {
        Kind::Horizontal => {
            let below = size_where(box_node.depth, rule.depth);
            let tall = size_where(box_node.height, rule.height).checked_add(below)?;
            let wide = own_size(rule.width);
            Some(RuleSizes { below, tall, wide })
        }
        Kind::Vertical => {
            let tall = own_size(rule.height).checked_add(own_size(rule.depth))?;
            let wide = size_where(box_node.width, rule.width);
            Some(RuleSizes {
                below: tall,
                tall,
                wide,
            })
        }
    }
}

/// The mark of a rule; None exactly where its height or its width is not positive, since such a rule shows nothing.
fn visible_rule(height: Dimen, h: Dimen, v: Dimen, width: Dimen, end: Dimen) -> Option<PlacedMark>
    ensures mark { (rest : DrawnPage) → marked_in result rest ≡ in_front (rule_mark h v height width) width rest }
    ensures end { IfSome result (λ m. m ≡ record { h = h; v = v; width = width; end = end; mark_kind = MarkKind.Rule height }) }
{
    if height.get() <= 0 {
        return None;
    }
    if width.get() <= 0 {
        return None;
    }
    Some(PlacedMark {
        h,
        v,
        width,
        end,
        mark_kind: MarkKind::Rule(height),
    })
}

/// The reference point of a box at a position in a list of that kind, where it fits.
#[tactic(auto, using(scaled_core::proofs::Fitting::dimension_fits), unfolding(scaled_core::specs::Dimensions::dimension_of))]
fn reference_of(kind: Kind, at: PagePosition, shift: Dimen, height: Dimen) -> Option<PagePosition>
    ensures { result ≡ fitting_point (box_h kind at.h shift) (box_v kind at.v shift height) }
{
    let (h, v) = match kind {
        Kind::Horizontal => (Some(at.h), at.v.checked_add(shift)),
        Kind::Vertical => (at.h.checked_add(shift), at.v.checked_add(height)),
    };
    Some(Point { h: h?, v: v? })
}

/// A box at a position in the list of another box; None exactly where its reference point does not fit.
fn place_box(
    kind: Kind,
    at: PagePosition,
    next: PagePosition,
    shift: Dimen,
    inner: &BoxNode,
) -> Option<PlacedItem>
    ensures fits { is_some result ≡ list_all fits (at.h ∷ at.v ∷ next.h ∷ next.v ∷ box_h kind at.h shift ∷ box_v kind at.v shift inner.now.height
        ∷ []) }
    ensures mark { IfSome result (λ s. s.mark ≡ None) }
    ensures h { IfSome result (λ s. s.at.h ≡ box_h kind at.h shift) }
    ensures v { IfSome result (λ s. s.at.v ≡ box_v kind at.v shift inner.now.height) }
{
    let reference = reference_of(kind, at, shift, inner.height)?;
    Some(PlacedItem {
        mark: None,
        at: reference,
    })
}

/// A rule at a position in the list of a box; None exactly where one of its numbers does not fit.
#[tactic(auto, unfolding(scaled_core::specs::Dimensions::dimension_of))]
fn place_rule(
    box_node: &BoxNode,
    at: PagePosition,
    next: PagePosition,
    rule: Rule,
) -> Option<PlacedItem>
    requires { Reaches box_node.now.kind at.h next.h (nodes.Rule rule) }
    ensures fits { is_some result ≡ list_all fits (points_and_sizes box_node.now at.h at.v next.h next.v (nodes.Rule rule)) }
    ensures mark { IfSome result (λ s. (rest : DrawnPage) → marked_in s.mark rest ≡ marked_of box_node.now at.h at.v (nodes.Rule rule) rest) }
    ensures end { IfSome result (λ s. IfSome s.mark (IsMarkEnd box_node.now.kind)) }
    ensures at { IfSome result (λ s. s.at ≡ at) }
{
    let sizes = sizes_of(box_node, rule)?;
    let v = at.v.checked_add(sizes.below)?;
    Some(PlacedItem {
        mark: visible_rule(sizes.tall, at.h, v, sizes.wide, next.h),
        at,
    })
}

/// The mark of a glyph at a position in the horizontal list of a box.
#[inline(always)]
pub fn glyph_mark(
    box_node: &BoxNode,
    at: PagePosition,
    next: PagePosition,
    glyph: Glyph,
) -> PlacedMark
    requires kind { box_node.now.kind ≡ Kind.Horizontal }
    requires reaches { Reaches box_node.now.kind at.h next.h (nodes.Glyph glyph) }
    ensures mark { (rest : DrawnPage) → marked_in (Some result) rest ≡ marked_of box_node.now at.h at.v (nodes.Glyph glyph) rest }
    ensures end { IsMarkEnd Kind.Horizontal result }
{
    // A fact for the proofs: the kind of the box.
    let _kind = box_node.kind;
    PlacedMark {
        h: at.h,
        v: at.v,
        width: glyph.width,
        end: next.h,
        mark_kind: MarkKind::Glyph {
            slot: glyph.slot,
            code: glyph.code,
        },
    }
}

/// The mark of a glyph at a position in the list of a box. In a vertical list there is none.
#[inline(always)]
pub fn place_glyph(
    box_node: &BoxNode,
    at: PagePosition,
    next: PagePosition,
    glyph: Glyph,
) -> Option<PlacedMark>
    requires { Reaches box_node.now.kind at.h next.h (nodes.Glyph glyph) }
    ensures mark { (rest : DrawnPage) → marked_in result rest ≡ marked_of box_node.now at.h at.v (nodes.Glyph glyph) rest }
    ensures end { IfSome result (IsMarkEnd box_node.now.kind) }
{
    match box_node.kind {
        Kind::Vertical => None,
        Kind::Horizontal => Some(glyph_mark(box_node, at, next, glyph)),
    }
}

/// An item at a position in the list of a box; None exactly where one of its numbers does not fit. The items of an inner box are not tested.
#[inline(always)]
pub fn place_item(
    box_node: &BoxNode,
    at: PagePosition,
    next: PagePosition,
    node: &Node,
) -> Option<PlacedItem>
    requires { Reaches box_node.now.kind at.h next.h node.now }
    ensures fits { is_some result ≡ list_all fits (points_and_sizes box_node.now at.h at.v next.h next.v node.now) }
    ensures mark { IfSome result (λ s. (rest : DrawnPage) → marked_in s.mark rest ≡ marked_of box_node.now at.h at.v node.now rest) }
    ensures end { IfSome result (λ s. IfSome s.mark (IsMarkEnd box_node.now.kind)) }
    ensures h { IfSome result (λ s. s.at.h ≡ reference_h box_node.now.kind at.h node.now) }
    ensures v { IfSome result (λ s. s.at.v ≡ reference_v box_node.now.kind at.v node.now) }
{
    at.numbers_fit();
    next.numbers_fit();
    match node {
        Node::Box(shift, inner) => place_box(box_node.kind, at, next, *shift, inner),
        Node::Rule(rule) => place_rule(box_node, at, next, *rule),
        Node::Glyph(glyph) => Some(PlacedItem {
            mark: place_glyph(box_node, at, next, *glyph),
            at,
        }),
        _ => Some(PlacedItem { mark: None, at }),
    }
}
