//! The walk over the items of a box and of its inner boxes, which gives each mark to a sink and stops at the first number that does not fit.

ghost use Rattle.std.specs.Prelude.{◌≡◌, ◌<◌, ◌≤◌, ◌+ℤ◌, ◌-ℤ◌, [], pos, length, take, drop, true, false, Some, None, is_some};
ghost use Rattle.std.specs.Prelude.{IfOk, IfSome, OnOk, OnSome};
ghost use Rattle.std.specs.List.{list_all};
ghost use Rattle.node_core.specs.Nodes.{max_nodes, items_of};
ghost use Rattle.scaled_core.specs.Dimensions.{fits, dimension_of};
ghost use Rattle.scaled_core.specs.Mark as body;
ghost use Rattle.pack_core.specs.Items.{advance};
ghost use Rattle.pack_core.specs.Cursors.{sums_after, one_more, place_at};
ghost use Rattle.page_core.specs.Marks.{right_at, down_at, list_v, numbers_after, points_and_sizes};
ghost use Rattle.node_core.specs.declared.tree.Kind.{Kind};
ghost use Rattle.page_core.specs.DrawnPages.{DrawnPage, blank, marked, grouped_page, drawn_after};
ghost use Rattle.page_core.specs.Placing.{Reaches, marked_of, reference_h, reference_v};
ghost use Rattle.page_core.specs.Private.Placing.{is_rigid, is_blank, level_with, point_in, numbers_between, numbers_left, marked_at, drawn_left};

use crate::item_walk::{ItemWalk, ListOrigin, begin_of, is_rigid};
use crate::placing::{
    PagePoint, PagePosition, Point, coordinate_after, dimension_after, place_item,
};
use crate::sink::{BoxRef, MarkSink};
use node_core::{BoxNode, Glyph, Kind, Node};
use pack_core::{Cursor, advance_of};
use scaled_core::Dimen;

/// The items of a list from an index on.
#[derive(Clone, Copy, Debug)]
struct ItemsFrom<'a> {
    items: &'a [Node],
    from: usize,
}

/// A place in a run of glyphs of one font: the position (h, v), and the slot of the font.
#[derive(Clone, Copy, Debug)]
struct GlyphRun {
    h: Dimen,
    v: Dimen,
    slot: u8,
}

/// Draws the first glyph of a run, and moves past it. It returns whether the value of h after it fits.
#[tactic(auto, unfolding(scaled_core::specs::Dimensions::dimension_of))]
#[inline(always)]
fn draw_first<B: BoxRef, S: MarkSink<B>>(
    sink: &mut S,
    run: &mut GlyphRun,
    glyph: &Glyph,
) -> Result<bool, S::Fault>
    requires slot { run.old.slot ≡ glyph.now.slot }
    ensures over { IfOk result (λ fit. fit ≡ false → dimension_of (run.old.h +ℤ glyph.now.width) ≡ None) }
    ensures end { IfOk result (λ fit. fit ≡ true → dimension_of (run.old.h +ℤ glyph.now.width) ≡ Some run.new.h) }
    ensures v { run.new.v ≡ run.old.v }
    ensures mark { IfOk result (λ fit. fit ≡ true → (rest : DrawnPage) → S.drawn_with Kind.Horizontal sink.old
        (marked (body.Glyph (pos glyph.now.slot) (pos glyph.now.code) run.old.h run.old.v) glyph.now.width rest)
        ≡ S.drawn_with Kind.Horizontal sink.new rest) }
    ensures is_at { IfOk result (λ fit. fit ≡ true → S.IsAt sink.new run.new.h run.new.v run.new.slot) }
{
    let Some(end) = dimension_after(run.h, i64::from(glyph.width.get())) else {
        return Ok(false);
    };
    sink.draw_glyph(Point { h: run.h, v: run.v }, *glyph, end)?;
    run.h = end;
    Ok(true)
}

/// Draws one more glyph of a run, and moves past it, where it has the font of the run, the value of h after it fits, and the sink takes it without
/// memory. It returns whether it did.
#[tactic(auto, unfolding(scaled_core::specs::Dimensions::dimension_of))]
#[inline(always)]
fn draw_next<B: BoxRef, S: MarkSink<B>>(sink: &mut S, run: &mut GlyphRun, glyph: &Glyph) -> bool
    requires is_at { S.IsAt sink.old run.old.h run.old.v run.old.slot }
    ensures end { result ≡ true → dimension_of (run.old.h +ℤ glyph.now.width) ≡ Some run.new.h }
    ensures v { run.new.v ≡ run.old.v }
    ensures mark { result ≡ true → (rest : DrawnPage) → S.drawn_with Kind.Horizontal sink.old
        (marked (body.Glyph (pos glyph.now.slot) (pos glyph.now.code) run.old.h run.old.v) glyph.now.width rest)
        ≡ S.drawn_with Kind.Horizontal sink.new rest }
    ensures is_at { result ≡ true → S.IsAt sink.new run.new.h run.new.v run.new.slot }
    ensures stays { result ≡ false → run.new ≡ run.old }
    ensures same { result ≡ false → (rest : DrawnPage) → S.drawn_with Kind.Horizontal sink.old rest ≡ S.drawn_with Kind.Horizontal sink.new rest }
{
    if glyph.slot != run.slot {
        return false;
    }
    let Some(end) = dimension_after(run.h, i64::from(glyph.width.get())) else {
        return false;
    };
    if !sink.draw_next(Point { h: run.h, v: run.v }, *glyph, end) {
        return false;
    }
    run.h = end;
    true
}

/// Draws the glyphs of a run from the item at an index on, as far as `draw_next` does, and moves past them. It returns the index of the item after
/// them. Most items are such glyphs: none needs a movement or a font, and a loop that counts nothing but the index and the value of h keeps both in
/// registers.
#[inline(always)]
fn draw_run<B: BoxRef, S: MarkSink<B>>(
    sink: &mut S,
    run: &mut GlyphRun,
    box_node: &BoxNode,
    begin: &ListOrigin,
    left: ItemsFrom<'_>,
) -> usize
    requires kind { box_node.now.kind ≡ Kind.Horizontal }
    requires within { left.from ≤ length left.items.now }
    requires at { point_in box_node.now begin.now.h begin.now.v (place_at box_node.now.setting
        (sums_after box_node.now.kind box_node.now.setting (take left.from left.items.now))) ≡ Some (level_with run.old.v run.old.h) }
    requires is_at { S.IsAt sink.old run.old.h run.old.v run.old.slot }
    ensures onward { left.entry.from ≤ result }
    ensures within { result ≤ length left.entry.items.now }
    ensures natural { (sums_after box_node.now.kind box_node.now.setting (take result left.entry.items.now)).natural
        ≡ (sums_after box_node.now.kind box_node.now.setting (take left.entry.from left.entry.items.now)).natural +ℤ (run.new.h -ℤ run.old.h) }
    ensures shares { (sums_after box_node.now.kind box_node.now.setting (take result left.entry.items.now)).shares
        ≡ (sums_after box_node.now.kind box_node.now.setting (take left.entry.from left.entry.items.now)).shares }
    ensures at { point_in box_node.now begin.now.h begin.now.v (place_at box_node.now.setting
        (sums_after box_node.now.kind box_node.now.setting (take result left.entry.items.now))) ≡ Some (level_with run.new.v run.new.h) }
    ensures left { list_all fits (numbers_after box_node.now begin.now.h begin.now.v (take result left.entry.items.now)
        (items_of (drop result left.entry.items.now)))
        ≡ list_all fits (numbers_after box_node.now begin.now.h begin.now.v (take left.entry.from left.entry.items.now)
        (items_of (drop left.entry.from left.entry.items.now))) }
    ensures marks { S.drawn_with box_node.now.kind sink.new
        (drawn_after box_node.now begin.now.h begin.now.v (take result left.entry.items.now) (items_of (drop result left.entry.items.now)))
        ≡ S.drawn_with box_node.now.kind sink.old
        (drawn_after box_node.now begin.now.h begin.now.v (take left.entry.from left.entry.items.now)
        (items_of (drop left.entry.from left.entry.items.now))) }
{
    // Two facts for the proofs: the kind of the box, and the bound of the place.
    let _kind = box_node.kind;
    let _h = begin.h;
    let ItemsFrom { items, from } = left;
    for index in from..items.len() {
        let Node::Glyph(glyph) = &items[index] else {
            return index;
        };
        if !draw_next(sink, run, glyph) {
            return index;
        }
    }
    items.len()
}

/// A place in a horizontal list: the sums of the items before it, and its position (h, v). A loop over text keeps it in registers.
#[derive(Clone, Copy, Debug)]
struct TextPlace {
    cursor: Cursor,
    h: Dimen,
    v: Dimen,
}

/// Draws the glyphs of a horizontal list from the item at an index on, as far as they have the font of the first one, and moves past them. It returns
/// the index of the item after them; None only where a number of an item does not fit.
#[inline(always)]
fn draw_glyphs<B: BoxRef, S: MarkSink<B>>(
    sink: &mut S,
    place: &mut TextPlace,
    box_node: &BoxNode,
    begin: &ListOrigin,
    left: ItemsFrom<'_>,
) -> Result<Option<usize>, S::Fault>
    requires kind { box_node.now.kind ≡ Kind.Horizontal }
    requires within { left.from < length left.items.now }
    requires items_bounded { length left.items.now ≤ max_nodes }
    requires cursor { place.old.cursor ≡ sums_after box_node.now.kind box_node.now.setting (take left.from left.items.now) }
    requires at { point_in box_node.now begin.now.h begin.now.v (place_at box_node.now.setting place.old.cursor)
        ≡ Some (level_with place.old.v place.old.h) }
    ensures onward { IfOk result (λ drawn. IfSome drawn (λ next. left.entry.from ≤ next)) }
    ensures within { IfOk result (λ drawn. IfSome drawn (λ next. next ≤ length left.entry.items.now)) }
    ensures cursor { IfOk result (λ drawn. IfSome drawn (λ next.
        place.new.cursor ≡ sums_after box_node.now.kind box_node.now.setting (take next left.entry.items.now))) }
    ensures at { IfOk result (λ drawn. OnSome drawn (point_in box_node.now begin.now.h begin.now.v (place_at box_node.now.setting place.new.cursor)
        ≡ Some (level_with place.new.v place.new.h))) }
    ensures over { IfOk result (λ drawn. drawn ≡ None
        → list_all fits (numbers_left box_node.now begin.now.h begin.now.v left.entry.items.now left.entry.from) ≡ false) }
    ensures left { IfOk result (λ drawn. IfSome drawn (λ next.
        list_all fits (numbers_left box_node.now begin.now.h begin.now.v left.entry.items.now next)
        ≡ list_all fits (numbers_left box_node.now begin.now.h begin.now.v left.entry.items.now left.entry.from))) }
    ensures marks { IfOk result (λ drawn. IfSome drawn (λ next.
        S.drawn_with box_node.now.kind sink.new (drawn_left box_node.now begin.now.h begin.now.v left.entry.items.now next)
        ≡ S.drawn_with box_node.now.kind sink.old (drawn_left box_node.now begin.now.h begin.now.v left.entry.items.now left.entry.from))) }
{
    let ItemsFrom { items, from } = left;
    let Node::Glyph(glyph) = &items[from] else {
        return Ok(Some(from));
    };
    let h = place.h;
    let mut run = GlyphRun {
        h,
        v: place.v,
        slot: glyph.slot,
    };
    if !draw_first(sink, &mut run, glyph)? {
        return Ok(None);
    }
    let after = ItemsFrom {
        items,
        from: from + 1,
    };
    let next = draw_run(sink, &mut run, box_node, begin, after);
    place
        .cursor
        .move_over(run.h.exact_sub(h), (next - from) as u32);
    place.h = run.h;
    place.v = run.v;
    Ok(Some(next))
}

/// Moves past an item of a horizontal list that is independent of the glue setting. It returns whether the value of h after it fits.
#[tactic(auto, unfolding(scaled_core::specs::Dimensions::dimension_of))]
#[inline(always)]
fn pass_rigid(place: &mut TextPlace, box_node: &BoxNode, node: &Node) -> bool
    requires kind { box_node.now.kind ≡ Kind.Horizontal }
    requires rigid { is_rigid node.now ≡ true }
    requires items_bounded { place.old.cursor.passed < max_nodes }
    ensures cursor { place.new.cursor ≡ one_more box_node.now.kind box_node.now.setting place.old.cursor node.now }
    ensures v { place.new.v ≡ place.old.v }
    ensures end { result ≡ true → dimension_of (place.old.h +ℤ advance Kind.Horizontal node.now) ≡ Some place.new.h }
    ensures over { result ≡ false → dimension_of (place.old.h +ℤ advance Kind.Horizontal node.now) ≡ None }
{
    let _kind = box_node.kind;
    let distance = advance_of(Kind::Horizontal, node);
    place.cursor.move_on(distance);
    let Some(h) = dimension_after(place.h, distance) else {
        return false;
    };
    place.h = h;
    true
}

/// Moves past an item of a horizontal list, such as glue, and rounds the next place. It returns whether the value of h there fits.
#[tactic(auto, unfolding(scaled_core::specs::Dimensions::dimension_of))]
#[inline(always)]
fn pass_glue(place: &mut TextPlace, box_node: &BoxNode, begin: &ListOrigin, node: &Node) -> bool
    requires kind { box_node.now.kind ≡ Kind.Horizontal }
    requires items_bounded { place.old.cursor.passed < max_nodes }
    ensures cursor { place.new.cursor ≡ one_more box_node.now.kind box_node.now.setting place.old.cursor node.now }
    ensures v { place.new.v ≡ place.old.v }
    ensures end { result ≡ true → dimension_of (begin.now.h +ℤ place_at box_node.now.setting place.new.cursor) ≡ Some place.new.h }
    ensures over { result ≡ false → dimension_of (begin.now.h +ℤ place_at box_node.now.setting place.new.cursor) ≡ None }
{
    let _kind = box_node.kind;
    place.cursor.pass(Kind::Horizontal, &box_node.setting, node);
    let distance = place.cursor.place(&box_node.setting);
    let Some(h) = Dimen::from_wide(coordinate_after(begin.h, distance)) else {
        return false;
    };
    place.h = h;
    true
}

/// Moves past an item of a horizontal list. It returns whether the next position fits.
#[inline(always)]
fn pass_item(place: &mut TextPlace, box_node: &BoxNode, begin: &ListOrigin, node: &Node) -> bool
    requires kind { box_node.now.kind ≡ Kind.Horizontal }
    requires items_bounded { place.old.cursor.passed < max_nodes }
    requires at { point_in box_node.now begin.now.h begin.now.v (place_at box_node.now.setting place.old.cursor)
        ≡ Some (level_with place.old.v place.old.h) }
    ensures cursor { place.new.cursor ≡ one_more box_node.now.kind box_node.now.setting place.old.cursor node.now }
    ensures at { result ≡ true → point_in box_node.now begin.now.h begin.now.v (place_at box_node.now.setting place.new.cursor)
        ≡ Some (level_with place.new.v place.new.h) }
    ensures over { result ≡ false → point_in box_node.now begin.now.h begin.now.v (place_at box_node.now.setting place.new.cursor) ≡ None }
{
    if is_rigid(node) {
        return pass_rigid(place, box_node, node);
    }
    pass_glue(place, box_node, begin, node)
}

/// Draws the glyphs of a horizontal list from the item at an index on as `draw_glyphs`, or moves past the item if it has no mark. It returns the
/// index of the item after them; None only where a number of an item does not fit.
#[inline(always)]
fn draw_text_item<B: BoxRef, S: MarkSink<B>>(
    sink: &mut S,
    place: &mut TextPlace,
    box_node: &BoxNode,
    begin: &ListOrigin,
    left: ItemsFrom<'_>,
) -> Result<Option<usize>, S::Fault>
    requires kind { box_node.now.kind ≡ Kind.Horizontal }
    requires within { left.from < length left.items.now }
    requires items_bounded { length left.items.now ≤ max_nodes }
    requires cursor { place.old.cursor ≡ sums_after box_node.now.kind box_node.now.setting (take left.from left.items.now) }
    requires at { point_in box_node.now begin.now.h begin.now.v (place_at box_node.now.setting place.old.cursor)
        ≡ Some (level_with place.old.v place.old.h) }
    ensures onward { IfOk result (λ drawn. IfSome drawn (λ next. left.entry.from ≤ next)) }
    ensures within { IfOk result (λ drawn. IfSome drawn (λ next. next ≤ length left.entry.items.now)) }
    ensures cursor { IfOk result (λ drawn. IfSome drawn (λ next.
        place.new.cursor ≡ sums_after box_node.now.kind box_node.now.setting (take next left.entry.items.now))) }
    ensures at { IfOk result (λ drawn. OnSome drawn (point_in box_node.now begin.now.h begin.now.v (place_at box_node.now.setting place.new.cursor)
        ≡ Some (level_with place.new.v place.new.h))) }
    ensures over { IfOk result (λ drawn. drawn ≡ None
        → list_all fits (numbers_left box_node.now begin.now.h begin.now.v left.entry.items.now left.entry.from) ≡ false) }
    ensures left { IfOk result (λ drawn. IfSome drawn (λ next.
        list_all fits (numbers_left box_node.now begin.now.h begin.now.v left.entry.items.now next)
        ≡ list_all fits (numbers_left box_node.now begin.now.h begin.now.v left.entry.items.now left.entry.from))) }
    ensures marks { IfOk result (λ drawn. IfSome drawn (λ next.
        S.drawn_with box_node.now.kind sink.new (drawn_left box_node.now begin.now.h begin.now.v left.entry.items.now next)
        ≡ S.drawn_with box_node.now.kind sink.old (drawn_left box_node.now begin.now.h begin.now.v left.entry.items.now left.entry.from))) }
{
    let ItemsFrom { items, from } = left;
    let node = &items[from];
    if !is_blank(node) {
        return draw_glyphs(sink, place, box_node, begin, left);
    }
    if !pass_item(place, box_node, begin, node) {
        return Ok(None);
    }
    Ok(Some(from + 1))
}

/// Draws the glyphs of a horizontal list from the item at an index on, up to the first item with another mark, and moves past them and the items
/// between them. It returns the index of the item after them; None only where a number of an item does not fit.
#[inline(always)]
fn draw_text_items<B: BoxRef, S: MarkSink<B>>(
    sink: &mut S,
    place: &mut TextPlace,
    box_node: &BoxNode,
    begin: &ListOrigin,
    left: ItemsFrom<'_>,
) -> Result<Option<usize>, S::Fault>
    requires kind { box_node.now.kind ≡ Kind.Horizontal }
    requires within { left.from ≤ length left.items.now }
    requires items_bounded { length left.items.now ≤ max_nodes }
    requires cursor { place.old.cursor ≡ sums_after box_node.now.kind box_node.now.setting (take left.from left.items.now) }
    requires at { point_in box_node.now begin.now.h begin.now.v (place_at box_node.now.setting place.old.cursor)
        ≡ Some (level_with place.old.v place.old.h) }
    ensures onward { IfOk result (λ drawn. IfSome drawn (λ next. left.entry.from ≤ next)) }
    ensures within { IfOk result (λ drawn. IfSome drawn (λ next. next ≤ length left.entry.items.now)) }
    ensures cursor { IfOk result (λ drawn. IfSome drawn (λ next.
        place.new.cursor ≡ sums_after box_node.now.kind box_node.now.setting (take next left.entry.items.now))) }
    ensures at { IfOk result (λ drawn. OnSome drawn (point_in box_node.now begin.now.h begin.now.v (place_at box_node.now.setting place.new.cursor)
        ≡ Some (level_with place.new.v place.new.h))) }
    ensures over { IfOk result (λ drawn. drawn ≡ None
        → list_all fits (numbers_left box_node.now begin.now.h begin.now.v left.entry.items.now left.entry.from) ≡ false) }
    ensures left { IfOk result (λ drawn. IfSome drawn (λ next.
        list_all fits (numbers_left box_node.now begin.now.h begin.now.v left.entry.items.now next)
        ≡ list_all fits (numbers_left box_node.now begin.now.h begin.now.v left.entry.items.now left.entry.from))) }
    ensures marks { IfOk result (λ drawn. IfSome drawn (λ next.
        S.drawn_with box_node.now.kind sink.new (drawn_left box_node.now begin.now.h begin.now.v left.entry.items.now next)
        ≡ S.drawn_with box_node.now.kind sink.old (drawn_left box_node.now begin.now.h begin.now.v left.entry.items.now left.entry.from))) }
{
    let _kind = box_node.kind;
    let _h = begin.h;
    let ItemsFrom { items, from } = left;
    let mut next = from;
    while next < items.len() {
        let rest = ItemsFrom { items, from: next };
        let Some(after) = draw_text_item(sink, place, box_node, begin, rest)? else {
            return Ok(None);
        };
        if after == next {
            return Ok(Some(after));
        }
        next = after;
    }
    Ok(Some(next))
}

/// Draws the text of a horizontal list as `draw_text_items`; of a vertical list nothing.
#[inline(always)]
fn draw_text<B: BoxRef, S: MarkSink<B>>(
    sink: &mut S,
    walk: &mut ItemWalk,
    box_node: &BoxNode,
    begin: &ListOrigin,
    left: ItemsFrom<'_>,
) -> Result<Option<usize>, S::Fault>
    requires within { left.from < length left.items.now }
    requires items_bounded { length left.items.now ≤ max_nodes }
    requires cursor { walk.old.cursor ≡ sums_after box_node.now.kind box_node.now.setting (take left.from left.items.now) }
    requires here { walk.old.here ≡ point_in box_node.now begin.now.h begin.now.v (place_at box_node.now.setting walk.old.cursor) }
    ensures onward { IfOk result (λ drawn. IfSome drawn (λ next. left.entry.from ≤ next)) }
    ensures within { IfOk result (λ drawn. IfSome drawn (λ next. next ≤ length left.entry.items.now)) }
    ensures cursor { IfOk result (λ drawn. IfSome drawn (λ next.
        walk.new.cursor ≡ sums_after box_node.now.kind box_node.now.setting (take next left.entry.items.now))) }
    ensures here { IfOk result (λ drawn. OnSome drawn (walk.new.here
        ≡ point_in box_node.now begin.now.h begin.now.v (place_at box_node.now.setting walk.new.cursor))) }
    ensures over { IfOk result (λ drawn. drawn ≡ None
        → list_all fits (numbers_left box_node.now begin.now.h begin.now.v left.entry.items.now left.entry.from) ≡ false) }
    ensures left { IfOk result (λ drawn. IfSome drawn (λ next.
        list_all fits (numbers_left box_node.now begin.now.h begin.now.v left.entry.items.now next)
        ≡ list_all fits (numbers_left box_node.now begin.now.h begin.now.v left.entry.items.now left.entry.from))) }
    ensures marks { IfOk result (λ drawn. IfSome drawn (λ next.
        S.drawn_with box_node.now.kind sink.new (drawn_left box_node.now begin.now.h begin.now.v left.entry.items.now next)
        ≡ S.drawn_with box_node.now.kind sink.old (drawn_left box_node.now begin.now.h begin.now.v left.entry.items.now left.entry.from))) }
{
    let (Kind::Horizontal, Some(at)) = (box_node.kind, walk.here) else {
        return Ok(Some(left.from));
    };
    let mut place = TextPlace {
        cursor: walk.cursor,
        h: at.h,
        v: at.v,
    };
    let Some(next) = draw_text_items(sink, &mut place, box_node, begin, left)? else {
        return Ok(None);
    };
    walk.cursor = place.cursor;
    walk.here = Some(Point {
        h: place.h,
        v: place.v,
    });
    Ok(Some(next))
}

/// Draws an item at the position `at` in the list of a box, where the next item is at `next`. It returns the reference point of the item; None
/// exactly where one of its numbers does not fit. Specials and the items of an inner box are left to the caller.
#[inline(always)]
fn draw_at<B: BoxRef, S: MarkSink<B>>(
    sink: &mut S,
    box_node: &BoxNode,
    at: PagePosition,
    next: PagePosition,
    node: &Node,
) -> Result<Option<PagePosition>, S::Fault>
    requires { Reaches box_node.now.kind at.h next.h node.now }
    ensures fits { IfOk result (λ drawn. is_some drawn ≡ list_all fits (points_and_sizes box_node.now at.h at.v next.h next.v node.now)) }
    ensures mark { IfOk result (λ drawn. OnSome drawn ((rest : DrawnPage) → S.drawn_with box_node.now.kind sink.old
        (marked_of box_node.now at.h at.v node.now rest) ≡ S.drawn_with box_node.now.kind sink.new rest)) }
    ensures h { IfOk result (λ drawn. IfSome drawn (λ place. place.h ≡ reference_h box_node.now.kind at.h node.now)) }
    ensures v { IfOk result (λ drawn. IfSome drawn (λ place. place.v ≡ reference_v box_node.now.kind at.v node.now)) }
{
    let Some(placed) = place_item(box_node, at, next, node) else {
        return Ok(None);
    };
    sink.draw(box_node.kind, placed.mark)?;
    Ok(Some(placed.at))
}

/// Whether an item has no mark, and no numbers but its places: a kern, glue or a penalty.
#[inline(always)]
fn is_blank(node: &Node) -> bool
    ensures { result ≡ is_blank node.now }
{
    matches!(
        node,
        Node::FontKern(_) | Node::Kern(_) | Node::Glue(_) | Node::Penalty(_)
    )
}

/// Draws the next item of a list, and moves past it. It returns the reference point of the item; None exactly where one of its numbers does not fit.
/// Specials and the items of an inner box are left to the caller.
#[inline(always)]
fn draw_item<B: BoxRef, S: MarkSink<B>>(
    sink: &mut S,
    walk: &mut ItemWalk,
    box_node: &BoxNode,
    begin: &ListOrigin,
    node: &Node,
) -> Result<Option<PagePosition>, S::Fault>
    requires items_bounded { walk.old.cursor.passed < max_nodes }
    requires here { walk.old.here ≡ point_in box_node.now begin.now.h begin.now.v (place_at box_node.now.setting walk.old.cursor) }
    ensures cursor { IfOk result
        (λ drawn. OnSome drawn (walk.new.cursor ≡ one_more box_node.now.kind box_node.now.setting walk.old.cursor node.now)) }
    ensures here { IfOk result
        (λ drawn. OnSome drawn (walk.new.here ≡ point_in box_node.now begin.now.h begin.now.v (place_at box_node.now.setting walk.new.cursor))) }
    ensures fits { IfOk result
        (λ drawn. is_some drawn ≡ list_all fits (numbers_between box_node.now begin.now.h begin.now.v (place_at box_node.now.setting walk.old.cursor)
        (place_at box_node.now.setting (one_more box_node.now.kind box_node.now.setting walk.old.cursor node.now)) node.now)) }
    ensures mark { IfOk result (λ drawn. OnSome drawn ((rest : DrawnPage) → S.drawn_with box_node.now.kind sink.old
        (marked_at box_node.now begin.now.h begin.now.v (place_at box_node.now.setting walk.old.cursor) node.now rest)
        ≡ S.drawn_with box_node.now.kind sink.new rest)) }
    ensures h { IfOk result (λ drawn. IfSome drawn (λ place. place.h
        ≡ reference_h box_node.now.kind (right_at box_node.now.kind begin.now.h (place_at box_node.now.setting walk.old.cursor)) node.now)) }
    ensures v { IfOk result (λ drawn. IfSome drawn (λ place. place.v
        ≡ reference_v box_node.now.kind (down_at box_node.now.kind begin.now.v (place_at box_node.now.setting walk.old.cursor)) node.now)) }
{
    let Some(at) = walk.here else {
        return Ok(None);
    };
    walk.go_past(box_node, begin, &at, node);
    let Some(next) = walk.here else {
        return Ok(None);
    };
    if is_blank(node) {
        return Ok(Some(at));
    }
    draw_at(sink, box_node, at, next, node)
}

/// Gives the marks of an inner box with the reference point `at` to a sink, as a group. A box without items makes no group.
#[cycle(draw_items)]
fn draw_group<B: BoxRef, S: MarkSink<B>>(
    sink: &mut S,
    tree: B,
    at: PagePoint,
) -> Result<bool, S::Fault>
    ensures fits { IfOk result (λ fit. fit ≡ list_all fits (numbers_after (B.box_node tree) at.h
        (list_v (B.box_node tree).kind (B.box_node tree).height at.v) [] (B.box_node tree).list)) }
    ensures marks { IfOk result (λ fit. fit ≡ true → (kind : Kind) (rest : DrawnPage) → S.drawn_with kind sink.old
        (grouped_page (B.box_node tree).list (B.box_node tree).kind
        (drawn_after (B.box_node tree) at.h (list_v (B.box_node tree).kind (B.box_node tree).height at.v) [] (B.box_node tree).list) rest)
        ≡ S.drawn_with kind sink.new rest) }
{
    let box_node = tree.as_box();
    if box_node.list.is_empty() {
        return Ok(true);
    }
    let begin = begin_of(box_node, at);
    let place = sink.open_group()?;
    let fit = draw_items(sink, tree, &begin)?;
    if fit {
        sink.close_group(place)?;
    }
    Ok(fit)
}

/// Gives the marks of a list that begins at `begin` to a sink, as `draw_list`.
#[cycle(draw_items)]
fn draw_items<B: BoxRef, S: MarkSink<B>>(
    sink: &mut S,
    tree: B,
    begin: &ListOrigin,
) -> Result<bool, S::Fault>
    ensures fits { IfOk result (λ fit. fit ≡ list_all fits (numbers_after (B.box_node tree) begin.now.h begin.now.v [] (B.box_node tree).list)) }
    ensures marks { IfOk result (λ fit. fit ≡ true → S.drawn_with (B.box_node tree).kind sink.old
        (drawn_after (B.box_node tree) begin.now.h begin.now.v [] (B.box_node tree).list) ≡ S.drawn_with (B.box_node tree).kind sink.new blank) }
{
    let box_node = tree.as_box();
    let mut walk = ItemWalk::new(box_node, begin);
    let items = box_node.list.as_slice();
    let mut next = 0;
    while next < items.len() {
        let left = ItemsFrom { items, from: next };
        let Some(index) = draw_text(sink, &mut walk, box_node, begin, left)? else {
            return Ok(false);
        };
        if index >= items.len() {
            return Ok(true);
        }
        let item = &items[index];
        let Some(at) = draw_item(sink, &mut walk, box_node, begin, item)? else {
            return Ok(false);
        };
        match item {
            Node::Box(_, _) => {
                if let Some(inner) = tree.inner(index) {
                    if !draw_group(sink, inner, at.point())? {
                        return Ok(false);
                    }
                }
            }
            Node::Special(_) => {
                if let Some(text) = tree.text(index) {
                    sink.draw_special(at, text)?;
                }
            }
            _ => {}
        }
        next = index + 1;
    }
    Ok(true)
}

/// Gives the marks of a box with the reference point `at` to a sink, in order. Each inner box with items is a group. It returns whether the numbers
/// of all items fit, those of inner boxes included. Where one does not fit, the walk stops there, and what the sink was given is of no use.
pub fn draw_list<B: BoxRef, S: MarkSink<B>>(
    sink: &mut S,
    tree: B,
    at: PagePoint,
) -> Result<bool, S::Fault>
    ensures fits { IfOk result (λ fit. fit ≡ list_all fits (numbers_after (B.box_node tree) at.h
        (list_v (B.box_node tree).kind (B.box_node tree).height at.v) [] (B.box_node tree).list)) }
    ensures marks { IfOk result (λ fit. fit ≡ true → S.drawn_with (B.box_node tree).kind sink.old
        (drawn_after (B.box_node tree) at.h (list_v (B.box_node tree).kind (B.box_node tree).height at.v) [] (B.box_node tree).list)
        ≡ S.drawn_with (B.box_node tree).kind sink.new blank) }
{
    let begin = begin_of(tree.as_box(), at);
    draw_items(sink, tree, &begin)
}
