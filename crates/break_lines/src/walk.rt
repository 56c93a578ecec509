//! The walk that measures a list, from its end to its beginning.

ghost use Rattle.std.specs.Prelude.{◌≡◌, ◌≢◌, ◌+◌, ◌<◌, ◌≤◌, true, false, length, get_or, reverse, vec_capacity, vec_len, IfSome, IsSome, IfOk, OnOk};
ghost use Rattle.std.specs.Prelude.{MatchOption};
ghost use Rattle.std.specs.List.{list_any};
ghost use Rattle.node_core.specs.Classes.{has_content};
ghost use Rattle.node_core.specs.Nodes.{max_nodes, IsPlain};
ghost use Rattle.break_lines.specs.Facts.{refusal};
ghost use Rattle.break_lines.specs.Spans.{sizes_of};
ghost use Rattle.break_lines.specs.Private.Marks.{HasMeasuredFrom, IsMarked, has_negative_stretch};

use crate::heights::{depth_of, height_of};
use crate::item_sums::{Sums, add_item, sizes_in_run};
use crate::line_sizes::PlaceSizes;
use crate::list::{MAX_PLACES, has_negative_stretch, is_dropped, is_legal, penalty_at};
use crate::mark::MeasuredBreak;
use node_core::Node;
use std::alloc::{AllocError, Global};

/// The state of a walk over the items from some index to the end: the marks of the legal places there, in reverse order, the sums over these items,
/// the index of the first of them that is not dropped at the beginning of a line, and the sums from that item on. `from_begin` is set only if an item
/// before `begin` was passed. `stretch_grows` says that none of the items is glue with negative stretch, and `plain` that none is a box or a special.
/// `sizes` has the same places as `marks`; `height` and `depth` are the greatest ones, at least 0, of the items before the first of these places.
#[derive(Drop)]
struct BreakWalk {
    marks: Vec<MeasuredBreak>,
    sizes: Vec<PlaceSizes>,
    sums: Sums,
    begin: usize,
    from_begin: Sums,
    stretch_grows: bool,
    height: i32,
    depth: i32,
    plain: bool,
}

/// The marks of the start and of the legal places of a list, in order, whether it is known that none of its glue has negative stretch, the sizes of
/// the same places, the last one first, and whether none of its items is a box or a special.
#[derive(Drop)]
pub struct MarkedList {
    pub marks: Vec<MeasuredBreak>,
    pub stretch_grows: bool,
    pub sizes: Vec<PlaceSizes>,
    pub plain: bool,
}

/// Whether the stretch of all glue is known not to be negative, with one more item.
#[inline(always)]
fn still_grows(grows: bool, node: &Node) -> bool
    ensures before { result ≡ true → grows ≡ true }
    ensures here { result ≡ true → has_negative_stretch node.now ≡ false }
{
    grows && !has_negative_stretch(node)
}

/// Whether it is known that no item is a box or a special, with one more item.
#[inline(always)]
fn still_plain(plain: bool, node: &Node) -> bool
    ensures before { result ≡ true → plain ≡ true }
    ensures here { result ≡ true → has_content node.now ≡ false }
{
    plain && !node.has_content()
}

/// Makes space for one more mark. There nearly always is some, and then this is one test.
#[inline(always)]
fn make_space(marks: &mut Vec<MeasuredBreak>) -> Result<(), AllocError>
    ensures items { marks.new.items ≡ marks.old.items }
    ensures space { OnOk result (vec_len marks.new < vec_capacity marks.new) }
{
    if marks.len() < marks.capacity() {
        return Ok(());
    }
    marks.reserve(1)
}

impl BreakWalk {
    /// The walk over no items: the end of the list is a legal place.
    fn at_end(alloc: Global, nodes: &[Node]) -> Result<BreakWalk, AllocError>
        requires list_bounded { length nodes.now ≤ max_nodes }
        ensures { IfOk result (HasMeasuredFrom nodes.now (length nodes.now)) }
    {
        // In text about every sixth item is a legal place, so mostly this capacity is enough.
        let mut marks = Vec::with_capacity(alloc, (nodes.len() / 5).min(MAX_PLACES) + 2)?;
        marks.push(MeasuredBreak {
            position: nodes.len(),
            begin: nodes.len() + 1,
            from_position: Sums::ZERO,
            from_begin: Sums::ZERO,
            penalty: -10_000,
        })?;
        let mut sizes = Vec::with_capacity(alloc, (nodes.len() / 5).min(MAX_PLACES) + 2)?;
        sizes.push(PlaceSizes {
            position: nodes.len(),
            begin: nodes.len() + 1,
            height: 0,
            depth: 0,
        })?;
        Ok(BreakWalk {
            marks,
            sizes,
            sums: Sums::ZERO,
            begin: nodes.len(),
            from_begin: Sums::ZERO,
            stretch_grows: true,
            height: 0,
            depth: 0,
            plain: true,
        })
    }

    /// The sums over the items from the first one that is not dropped, for a line that begins after the item before `index`.
    #[inline(always)]
    fn line_start(&self, index: usize) -> &Sums
        ensures here { self.now.begin ≡ index → result.now ≡ self.now.sums }
        ensures later { self.now.begin ≢ index → result.now ≡ self.now.from_begin }
    {
        if self.begin == index {
            return &self.sums;
        }
        &self.from_begin
    }

    /// Passes the glyphs and font kerns directly before the items that were passed, and returns the index of the first of them. They are most items
    /// of a text, and each changes only the width, the height and the depth; so they have a loop of their own, which keeps what changes out of
    /// memory.
    fn pass_run(&mut self, nodes: &[Node], end: usize) -> usize
        requires list_bounded { length nodes.now ≤ max_nodes }
        requires end_bounded { end ≤ length nodes.now }
        requires walked { HasMeasuredFrom nodes.now end self.old }
        ensures walked { HasMeasuredFrom nodes.now result self.new }
        ensures begin_bounded { result ≤ end }
    {
        let mut index = end;
        let mut width = self.sums.width;
        let mut begin = self.begin;
        let mut height = self.height;
        let mut depth = self.depth;
        while index > 0 {
            let Some(more) = sizes_in_run(&nodes[index - 1]) else {
                break;
            };
            index -= 1;
            width += more.width;
            begin = index;
            height = height.max(more.height);
            depth = depth.max(more.depth);
        }
        self.sums.width = width;
        self.begin = begin;
        self.height = height;
        self.depth = depth;
        index
    }

    /// Passes the item before those that were passed. Returns `false` if the list is refused.
    fn pass(&mut self, nodes: &[Node], index: usize) -> Result<bool, AllocError>
        requires list_bounded { length nodes.now ≤ max_nodes }
        requires index_bounded { index < length nodes.now }
        requires walked { HasMeasuredFrom nodes.now (index + 1) self.old }
        ensures goes_on { IfOk result (λ goes_on. goes_on ≡ true → HasMeasuredFrom nodes.now index self.new) }
        ensures stops { IfOk result (λ goes_on. goes_on ≡ false → IsSome (refusal nodes.now)) }
    {
        let node = &nodes[index];
        if !is_dropped(node) {
            add_item(&mut self.sums, node);
            self.begin = index;
            self.height = self.height.max(height_of(node));
            self.depth = self.depth.max(depth_of(node));
            self.plain = still_plain(self.plain, node);
            return Ok(true);
        }
        if node.shrinks_infinitely() {
            return Ok(false);
        }
        self.from_begin = *self.line_start(index + 1);
        self.stretch_grows = still_grows(self.stretch_grows, node);
        add_item(&mut self.sums, node);
        if !is_legal(nodes, index) {
            return Ok(true);
        }
        if self.marks.len() >= MAX_PLACES {
            return Ok(false);
        }
        make_space(&mut self.marks)?;
        self.marks.push_reserved(MeasuredBreak {
            position: index,
            begin: self.begin,
            from_position: self.sums,
            from_begin: self.from_begin,
            penalty: penalty_at(nodes, index),
        });
        let begin = self.begin;
        self.sizes.push(PlaceSizes {
            position: index,
            begin,
            height: self.height,
            depth: self.depth,
        })?;
        self.height = 0;
        self.depth = 0;
        Ok(true)
    }

    /// The marks of the start and of the legal places, in order, after a walk over all items.
    fn into_marks(self, nodes: &[Node]) -> Result<MarkedList, AllocError>
        requires list_bounded { length nodes.now ≤ max_nodes }
        requires walked { HasMeasuredFrom nodes.now 0 self }
        ensures marks { IfOk result (λ marked. IsMarked nodes.now marked.marks.items) }
        ensures grows { IfOk result (λ marked. marked.stretch_grows ≡ true → list_any has_negative_stretch nodes.now ≡ false) }
        ensures plain { IfOk result (λ marked. marked.plain ≡ true → IsPlain nodes.now) }
        ensures sizes { IfOk result (λ marked. reverse marked.sizes.items ≡ sizes_of nodes.now) }
    {
        let BreakWalk {
            mut marks,
            mut sizes,
            sums,
            stretch_grows,
            height,
            depth,
            plain,
            ..
        } = self;
        marks.push(MeasuredBreak {
            position: 0,
            begin: 0,
            from_position: sums,
            from_begin: sums,
            penalty: 0,
        })?;
        marks.reverse();
        sizes.push(PlaceSizes {
            position: 0,
            begin: 0,
            height,
            depth,
        })?;
        Ok(MarkedList {
            marks,
            stretch_grows,
            sizes,
            plain,
        })
    }
}

/// The marks of the start and of the legal places, in order, or `None` if the list is refused. The walk goes from the end to the beginning: after
/// passing an item it knows where a line that starts before the item begins, so each mark is complete when it is made.
pub fn marks_of(alloc: Global, nodes: &[Node]) -> Result<Option<MarkedList>, AllocError>
    requires list_bounded { length nodes.now ≤ max_nodes }
    ensures marks { IfOk result (λ found. MatchOption found (IsSome (refusal nodes.now)) (λ marked. IsMarked nodes.now marked.marks.items)) }
    ensures grows { IfOk result (λ found. IfSome found (λ marked. marked.stretch_grows ≡ true → list_any has_negative_stretch nodes.now ≡ false)) }
    ensures plain { IfOk result (λ found. IfSome found (λ marked. marked.plain ≡ true → IsPlain nodes.now)) }
    ensures sizes { IfOk result (λ found. IfSome found (λ marked. reverse marked.sizes.items ≡ sizes_of nodes.now)) }
{
    let mut walk = BreakWalk::at_end(alloc, nodes)?;
    let mut index = walk.pass_run(nodes, nodes.len());
    while index > 0 {
        index -= 1;
        if !walk.pass(nodes, index)? {
            return Ok(None);
        }
        index = walk.pass_run(nodes, index);
    }
    Ok(Some(walk.into_marks(nodes)?))
}
