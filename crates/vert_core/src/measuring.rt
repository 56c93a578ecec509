//! Measuring the lines of a paragraph. No memory is taken, so a line that does not fit is found however much memory there is.

ghost use Rattle.std.specs.Prelude.{◌≡◌, ◌≤◌, ◌<◌, ◌+◌, get_or, length, IfSome};
ghost use Rattle.std.specs.Option.{is_some};
ghost use Rattle.node_core.specs.Nodes.{max_nodes, items_of};
ghost use Rattle.pack_core.specs.Boxes.{packed_of};
ghost use Rattle.vert_core.specs.Interline.{interline, glue_of};
ghost use Rattle.vert_core.specs.Lines.{line_places, line_begin, lines_fit};
ghost use Rattle.break_lines.specs.Facts.{facts_of};
ghost use Rattle.break_lines.specs.Legal.{legal_places};
ghost use Rattle.vert_core.specs.Private.Measuring.{paragraph_of, items_at, box_at, box_fits_at, fits_at, amounts_of_stretch, amounts_of_shrink};
ghost use Rattle.vert_core.specs.Private.Measuring.{IsAt, IsKnown, IsMeasuredBy};
ghost use Rattle.vert_core.specs.Private.Planned.{first_index};

use crate::interline::interline_glue;
use crate::line_boxes::front_of;
use break_core::{LineEnd, ListMeter};
use break_lines::{LineSizes, MeasuredSpan, line_size};
use node_core::{Glue, Node, Params};
use pack_core::{Across, OrderAmounts, Shell, Target, hbox_shell, measured_shell};
use scaled_core::Dimen;

/// What a finished list was measured by when it was broken. The sizes of its lines follow from it.
#[derive(Drop)]
pub(crate) struct MeasuredSums<'a> {
    pub(crate) meter: ListMeter<'a>,
    pub(crate) sizes: LineSizes,
}

/// A finished list, the ends of its lines, and the parameters by which they are stacked; if these are the breaks of the list, also what it was
/// measured by.
#[derive(Clone, Copy)]
pub(crate) struct BrokenList<'a> {
    pub(crate) nodes: &'a [Node],
    pub(crate) ends: &'a [LineEnd],
    pub(crate) params: &'a Params,
    pub(crate) measured: Option<&'a MeasuredSums<'a>>,
}

/// The box of a line without the items, where its items begin, and, if the list was measured, the number of the place where the line ends.
#[derive(Clone, Copy, Debug)]
struct SizedLine {
    shell: Shell,
    begin: usize,
    to: usize,
}

/// A line as it will be stacked: its box without the items, the glue before it, and where its items begin; if the list was measured, also the number
/// of the place where the line ends.
#[derive(Clone, Copy, Debug)]
pub(crate) struct MeasuredLine {
    pub(crate) shell: Shell,
    pub(crate) glue: Option<Glue>,
    pub(crate) begin: usize,
    pub(crate) to: usize,
}

/// The place where a line begins, or `None` for the start of the list.
pub(crate) fn line_begin(ends: &[LineEnd], line: usize) -> Option<usize>
    requires { line ≤ length ends.now }
    ensures { result ≡ line_begin (line_places ends.now) line }
{
    if line == 0 {
        return None;
    }
    Some(ends[line - 1].place)
}

/// The place where a line ends.
pub(crate) fn line_end(ends: &[LineEnd], line: usize) -> usize
    requires { line < length ends.now }
    ensures { result ≡ get_or (line_places ends.now) line 0 }
{
    ends[line].place
}

/// The box of a line by a walk over its items. What the line keeps of the item at its end has no size, so the items before that one decide.
fn size_items(broken: &BrokenList, line: usize) -> Option<SizedLine>
    requires list_bounded { length broken.now.nodes.now ≤ max_nodes }
    requires line_bounded { line < length broken.now.ends.now }
    ensures fits { is_some result ≡ box_fits_at broken.now line }
    ensures packed { IfSome result (λ sized. (packed_of (items_of (items_at broken.now line)) sized.shell).box_node ≡ box_at broken.now line) }
    ensures begin { IfSome result (λ sized. sized.begin ≡ first_index broken.now.nodes.now (line_begin (line_places broken.now.ends.now) line)
        (get_or (line_places broken.now.ends.now) line 0)) }
{
    let begin = line_begin(broken.ends, line);
    let end = line_end(broken.ends, line);
    let front = front_of(broken.nodes, begin, end);
    let size = line_size(broken.params, line);
    let shell = match hbox_shell(Target::To(size), front) {
        None => return None,
        Some(shell) => shell,
    };
    let begin = end.min(broken.nodes.len()) - front.len();
    Some(SizedLine {
        shell,
        begin,
        to: 0,
    })
}

/// The measures of a line from a place.
fn across_span(measured: &MeasuredSums, from: usize, span: &MeasuredSpan) -> Across
    requires later { from < span.now.to }
    requires last { span.now.to ≤ length (legal_places measured.now.meter.nodes.now) }
    ensures sums { (result.width ≡ ((facts_of measured.now.meter.nodes.now).sums from span.now.to).width)
        × (result.stretch ≡ amounts_of_stretch ((facts_of measured.now.meter.nodes.now).sums from span.now.to))
        × (result.shrink ≡ amounts_of_shrink ((facts_of measured.now.meter.nodes.now).sums from span.now.to)) }
    ensures height { result.height ≡ span.now.height }
    ensures depth { result.depth ≡ span.now.depth }
{
    let sums = measured.meter.sums_between(from, span.to);
    Across {
        width: sums.width,
        height: i64::from(span.height),
        depth: i64::from(span.depth),
        stretch: OrderAmounts {
            normal: i128::from(sums.stretch),
            fil: i128::from(sums.fil),
            fill: i128::from(sums.fill),
            filll: i128::from(sums.filll),
        },
        shrink: OrderAmounts {
            normal: i128::from(sums.shrink),
            fil: 0,
            fill: 0,
            filll: 0,
        },
    }
}

/// The box of a line that begins at a place, from what the list was measured by, without a walk over the items.
fn size_span(
    measured: &MeasuredSums,
    broken: &BrokenList,
    line: usize,
    from: usize,
) -> Option<SizedLine>
    requires list_bounded { length broken.now.nodes.now ≤ max_nodes }
    requires line_bounded { line < length broken.now.ends.now }
    requires measured { IsMeasuredBy broken.now.nodes.now measured.now }
    requires at { IsAt broken.now.nodes.now (line_places broken.now.ends.now) line from }
    ensures fits { is_some result ≡ box_fits_at broken.now line }
    ensures packed { IfSome result (λ sized. (packed_of (items_of (items_at broken.now line)) sized.shell).box_node ≡ box_at broken.now line) }
    ensures begin { IfSome result (λ sized. sized.begin ≡ first_index broken.now.nodes.now (line_begin (line_places broken.now.ends.now) line)
        (get_or (line_places broken.now.ends.now) line 0)) }
    ensures next { IfSome result (λ sized. IsAt broken.now.nodes.now (line_places broken.now.ends.now) (line + 1) sized.to) }
{
    let end = line_end(broken.ends, line);
    let span = measured.sizes.line_between(from, end);
    let across = across_span(measured, from, &span);
    let target = Target::To(line_size(broken.params, line));
    let shell = match measured_shell(target, span.begin >= end, &across) {
        None => return None,
        Some(shell) => shell,
    };
    Some(SizedLine {
        shell,
        begin: span.begin,
        to: span.to,
    })
}

/// The box of a line. If the list was measured, `from` is the number of the place where the line begins.
fn size_line(broken: &BrokenList, line: usize, from: usize) -> Option<SizedLine>
    requires list_bounded { length broken.now.nodes.now ≤ max_nodes }
    requires line_bounded { line < length broken.now.ends.now }
    requires known { IsKnown broken.now line from }
    ensures fits { is_some result ≡ box_fits_at broken.now line }
    ensures packed { IfSome result (λ sized. (packed_of (items_of (items_at broken.now line)) sized.shell).box_node ≡ box_at broken.now line) }
    ensures begin { IfSome result (λ sized. sized.begin ≡ first_index broken.now.nodes.now (line_begin (line_places broken.now.ends.now) line)
        (get_or (line_places broken.now.ends.now) line 0)) }
    ensures next { IfSome result (λ sized. IsKnown broken.now (line + 1) sized.to) }
{
    match broken.measured {
        None => size_items(broken, line),
        Some(measured) => size_span(measured, broken, line, from),
    }
}

/// Measures a line after a previous depth. `None` is returned exactly if a number of its box does not fit, or the glue before it does not.
pub(crate) fn measure_line(
    broken: &BrokenList,
    previous_depth: Dimen,
    line: usize,
    from: usize,
) -> Option<MeasuredLine>
    requires list_bounded { length broken.now.nodes.now ≤ max_nodes }
    requires line_bounded { line < length broken.now.ends.now }
    requires known { IsKnown broken.now line from }
    ensures fits { is_some result ≡ fits_at broken.now line previous_depth }
    ensures next { IfSome result (λ measured. IsKnown broken.now (line + 1) measured.to) }
    ensures packed { IfSome result (λ measured. (packed_of (items_of (items_at broken.now line)) measured.shell).box_node ≡ box_at broken.now line) }
    ensures begin { IfSome result (λ measured. measured.begin ≡ first_index broken.now.nodes.now (line_begin (line_places broken.now.ends.now) line)
        (get_or (line_places broken.now.ends.now) line 0)) }
    ensures glue { IfSome result (λ measured. measured.glue ≡ glue_of (interline broken.now.params.now previous_depth measured.shell.height)) }
{
    let SizedLine { shell, begin, to } = match size_line(broken, line, from) {
        None => return None,
        Some(sized) => sized,
    };
    let Ok(glue) = interline_glue(previous_depth, shell.height, broken.params) else {
        return None;
    };
    Some(MeasuredLine {
        shell,
        glue,
        begin,
        to,
    })
}

/// Whether each line fits, the first one after a previous depth.
pub(crate) fn lines_fit(broken: &BrokenList, previous_depth: Dimen) -> bool
    requires list_bounded { length broken.now.nodes.now ≤ max_nodes }
    requires known { IsKnown broken.now 0 0 }
    ensures { result ≡ lines_fit (paragraph_of broken.now previous_depth) }
{
    let mut depth = previous_depth;
    let mut from = 0;
    for line in 0..broken.ends.len() {
        let Some(measured) = measure_line(broken, depth, line, from) else {
            return false;
        };
        depth = measured.shell.depth;
        from = measured.to;
    }
    true
}
