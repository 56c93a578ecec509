//! The rows of a box, counted and written into the buffers of a caller.

ghost use Rattle.std.specs.Prelude.{◌≡◌, ◌+◌, ◌-ℤ◌, ◌^◌, ◌<◌, ◌≤◌, ◌++◌, ◌∷◌, ◌&&◌, [], ℕ, ℤ, List};
ghost use Rattle.std.specs.Prelude.{drop, length, min, nat_le, pos, take, true, false};
ghost use Rattle.std.specs.Int.{int_wrap, w128};
ghost use Rattle.scaled_core.specs.Dimensions.{Within};
ghost use Rattle.node_core.specs.Items.{items_count, items_text};
ghost use Rattle.node_core.specs.Nodes.{frame_of, max_nodes};
ghost use Rattle.node_core.specs.declared.tree.Node.{Node};
ghost use Rattle.pack_core.specs.Cursors.{one_more, place_at};
ghost use Rattle.pack_core.specs.Items.{advance};
ghost use Rattle.pack_core.specs.Places.{place};
ghost use Rattle.box_items.specs.Rows.{ItemPlace, list_place, place_after, rows_after, rows_of_box, texts_in};
ghost use Rattle.box_items.specs.Private.Written.{IsPlace, IsWalkPlace, place_of_node, put_from, row_of_node};

use crate::place::RowPlace;
use crate::row::BoxItem;
use crate::row_building::{write_box, write_row};
use node_core::{BoxNode, Kind, Node, Setting};
use pack_core::{Cursor, advance_of};
use scaled_core::Dimen;

/// How many rows a box has, and how many bytes are in the texts of its specials. A number above the greatest one is shown as this.
#[repr(C)]
#[derive(Clone, Copy, Debug, PartialEq, Eq)]
pub struct ItemSizes {
    pub items: usize,
    pub text: usize,
}

/// How many rows and bytes are written.
#[derive(Clone, Copy, Debug)]
struct Progress {
    items: usize,
    text: usize,
}

/// A walk over the items of a box: the cursor before the next item, and the place of this item in the list.
#[derive(Clone, Copy, Debug)]
struct ListWalk {
    cursor: Cursor,
    place: i128,
}

impl ListWalk {
    /// A walk before the first item of a list of this setting.
    fn new(setting: &Setting) -> ListWalk
        ensures cursor { result.cursor ≡ record { natural = pos 0; shares = pos 0; passed = 0 } }
        ensures place { IsWalkPlace setting.now result }
    {
        let cursor = Cursor::new();
        ListWalk {
            cursor,
            place: cursor.place(setting),
        }
    }

    /// Moves past an item. Only glue is rounded: after another item no quotient is taken.
    #[inline(always)]
    fn pass(&mut self, box_node: &BoxNode, node: &Node)
        requires items_bounded { self.old.cursor.passed < max_nodes }
        requires place { IsWalkPlace box_node.now.setting self.old }
        ensures cursor { self.new.cursor ≡ one_more box_node.now.kind box_node.now.setting self.old.cursor node.now }
        ensures place { IsWalkPlace box_node.now.setting self.new }
    {
        if let Node::Glue(_) = node {
            self.cursor.pass(box_node.kind, &box_node.setting, node);
            self.place = self.cursor.place(&box_node.setting);
            return;
        }
        let distance = distance_past(box_node.kind, node);
        self.cursor.move_on(distance);
        self.place = self.place.wrapping_add(i128::from(distance));
    }

    /// Moves past an item, and returns the distance to the next one.
    #[inline(always)]
    fn go_past(&mut self, box_node: &BoxNode, node: &Node) -> i128
        requires items_bounded { self.old.cursor.passed < max_nodes }
        requires place { IsWalkPlace box_node.now.setting self.old }
        ensures cursor { self.new.cursor ≡ one_more box_node.now.kind box_node.now.setting self.old.cursor node.now }
        ensures place { IsWalkPlace box_node.now.setting self.new }
        ensures distance { result ≡ int_wrap w128 (place_at box_node.now.setting self.new.cursor -ℤ place_at box_node.now.setting self.old.cursor) }
    {
        let from = self.place;
        self.pass(box_node, node);
        self.place.wrapping_sub(from)
    }
}

/// The advance of an item. Most items are glyphs of horizontal lists.
#[inline(always)]
fn distance_past(kind: Kind, node: &Node) -> i64
    ensures value { result ≡ advance kind node.now }
    ensures value_bounded { Within (2 ^ 31) result }
{
    if let (Kind::Horizontal, Node::Glyph(glyph)) = (kind, node) {
        return i64::from(glyph.width.get());
    }
    advance_of(kind, node)
}

/// The place of an item at a distance from the start of the list of a box.
#[inline(always)]
fn place_after(box_node: &BoxNode, begin: &RowPlace, distance: i128, text: usize) -> RowPlace
    ensures { (exact : ItemPlace) (before : List Node) → IsPlace begin.now exact
        → distance ≡ int_wrap w128 (place box_node.now.kind box_node.now.setting before)
        → IsPlace result (record (place_after box_node.now exact before) { text = text }) }
{
    match box_node.kind {
        Kind::Horizontal => begin.at_offset(distance, 0).after_text(text as u64),
        Kind::Vertical => begin.at_offset(0, distance).after_text(text as u64),
    }
}

/// The place of the row of an item: of a box its reference point.
#[inline(always)]
fn place_of_node(kind: Kind, at: &RowPlace, node: &Node) -> RowPlace
    ensures { (exact : ItemPlace) → IsPlace at.now exact → IsPlace result (place_of_node kind exact node.now) }
{
    let Node::Box(shift, inner) = node else {
        return *at;
    };
    let shift = i128::from(shift.get());
    match kind {
        Kind::Horizontal => at.at_offset(0, shift),
        Kind::Vertical => at.at_offset(shift, i128::from(inner.height.get())),
    }
}

/// Where the list of a box begins whose reference point is at a place.
fn list_place(box_node: &BoxNode, at: &RowPlace) -> RowPlace
    ensures { (exact : ItemPlace) → IsPlace at.now exact → IsPlace result (list_place (frame_of box_node.now) exact) }
{
    match box_node.kind {
        Kind::Horizontal => at.deeper(),
        Kind::Vertical => at.at_offset(0, -i128::from(box_node.height.get())).deeper(),
    }
}

/// Writes the row of an item at a place after those that are written.
#[inline(always)]
fn put_row(
    box_node: &BoxNode,
    at: &RowPlace,
    set_width: i128,
    node: &Node,
    written: &mut Progress,
    items: &mut [BoxItem],
)
    requires { written.old.items < length items.old }
    ensures count { written.new.items ≡ written.old.items + 1 }
    ensures bytes { written.new.text ≡ written.old.text }
    ensures items { (exact : ItemPlace) (distance : ℤ) → IsPlace at.now exact → set_width ≡ int_wrap w128 distance
        → items.new ≡ put_from items.old written.old.items (row_of_node box_node.now exact distance node.now ∷ []) }
{
    write_row(&mut items[written.items], box_node, at, set_width, node);
    written.items += 1;
}

/// Writes the text of a special.
fn put_text(bytes: &[u8], written: &mut Progress, text: &mut [u8])
    requires { written.old.text + length bytes.now ≤ length text.old }
    ensures count { written.new.items ≡ written.old.items }
    ensures bytes { written.new.text ≡ written.old.text + length bytes.now }
    ensures text { text.new ≡ take written.old.text text.old ++ (bytes.now ++ drop (written.old.text + length bytes.now) text.old) }
{
    text[written.text..written.text + bytes.len()].copy_from_slice(bytes);
    written.text += bytes.len();
}

/// Writes the rows of the items of a box, whose list begins at a place, and the texts of its specials.
fn write_list(
    box_node: &BoxNode,
    begin: &RowPlace,
    written: &mut Progress,
    items: &mut [BoxItem],
    text: &mut [u8],
)
    requires items { written.old.items + items_count box_node.now.list ≤ length items.old }
    requires text { written.old.text + items_text box_node.now.list ≤ length text.old }
    ensures count { written.new.items ≡ written.old.items + items_count box_node.now.list }
    ensures bytes { written.new.text ≡ written.old.text + items_text box_node.now.list }
    ensures items { (from : ItemPlace) → IsPlace begin.now from → from.text ≡ written.old.text
        → items.new ≡ put_from items.old written.old.items (rows_after box_node.now from [] box_node.now.list) }
    ensures text { text.new ≡ put_from text.old written.old.text (texts_in box_node.now.list) }
{
    let mut walk = ListWalk::new(&box_node.setting);
    let nodes = box_node.list.as_slice();
    // A copy, which stays in registers while rows are written.
    let start = *begin;
    for node in nodes {
        let at = place_after(box_node, &start, walk.place, written.text);
        let at = place_of_node(box_node.kind, &at, node);
        let set_width = walk.go_past(box_node, node);
        put_row(box_node, &at, set_width, node, written, items);
        match node {
            Node::Special(special) => put_text(special.as_bytes(), written, text),
            Node::Box(_, inner) => {
                write_list(inner, &list_place(inner, &at), written, items, text);
            }
            _ => {}
        }
    }
}

/// The numbers of the rows of a box and of the bytes in their texts.
pub fn count_items(box_node: &BoxNode) -> ItemSizes
    ensures items { result.items ≡ min (length (rows_of_box box_node.now)) u64.MAX }
    ensures text { result.text ≡ min (length (texts_in box_node.now.list)) u64.MAX }
{
    ItemSizes {
        items: box_node.count() as usize,
        text: box_node.text_size() as usize,
    }
}

/// Writes the rows of a box to the front of `items`, and the texts of its specials, one after the other, to the front of `text`. It returns whether
/// both have space for all; otherwise nothing is written. It takes no memory.
pub fn write_items(box_node: &BoxNode, items: &mut [BoxItem], text: &mut [u8]) -> bool
    ensures space { result ≡ (nat_le (length (rows_of_box box_node.now)) (length items.old)
        && nat_le (length (texts_in box_node.now.list)) (length text.old)) }
    ensures items { result ≡ true → items.new ≡ rows_of_box box_node.now ++ drop (length (rows_of_box box_node.now)) items.old }
    ensures text { result ≡ true → text.new ≡ texts_in box_node.now.list ++ drop (length (texts_in box_node.now.list)) text.old }
    ensures items_kept { result ≡ false → items.new ≡ items.old }
    ensures text_kept { result ≡ false → text.new ≡ text.old }
{
    let sizes = count_items(box_node);
    if sizes.items > items.len() || sizes.text > text.len() {
        return false;
    }
    let origin = RowPlace {
        level: 0,
        h: 0,
        v: 0,
        text: 0,
    };
    write_box(&mut items[0], &origin, Dimen::ZERO, box_node);
    let mut written = Progress { items: 1, text: 0 };
    write_list(
        box_node,
        &list_place(box_node, &origin),
        &mut written,
        items,
        text,
    );
    true
}
