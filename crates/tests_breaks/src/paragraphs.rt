//! The breaks of paragraphs, by both breakers.

ghost use Rattle.break_core.specs.Trials.{HasNoTrials};

use crate::four_methods::FourMethods;
use crate::items::{Amounts, Item, node, points};
use break_core::{
    BreakFault, Breaks, Fitness, LineEnd, ListMeter, Meter, Pass, active_breaks, breaks,
};
use node_core::{Glue, IntParameter, Node, Order, Params, Rule, RuleSize};
use scaled_core::Dimen;
use std::alloc::Global;
use std::process::Abort;

/// A rule of this width in points, 1pt high.
pub(crate) fn rule(rt: &impl Abort, width: i64) -> Node {
    Node::Rule(Rule {
        width: RuleSize::Fixed(points(rt, width)),
        height: RuleSize::Fixed(points(rt, 1)),
        depth: RuleSize::Fixed(Dimen::ZERO),
    })
}

/// Glue with this width and stretch, in points.
pub(crate) fn glue(rt: &impl Abort, width: i64, stretch: i64) -> Node {
    Node::Glue(Glue {
        width: points(rt, width),
        stretch: points(rt, stretch),
        stretch_order: Order::Normal,
        shrink: Dimen::ZERO,
        shrink_order: Order::Normal,
    })
}

/// The parameters of a new job, but with lines of 40pt.
pub(crate) fn narrow(rt: &impl Abort) -> Params {
    let mut params = Params::first();
    params.hsize = points(rt, 40);
    params
}

/// The finished list of a paragraph with these items.
pub(crate) fn finished_nodes(rt: &impl Abort, mut items: Vec<Node>, params: &Params) -> Vec<Node> {
    items
        .push(Node::Penalty(10_000))
        .ok()
        .expect(rt, "there is memory");
    items
        .push(Node::Glue(params.par_fill_skip))
        .ok()
        .expect(rt, "there is memory");
    items
}

/// Asserts that two lists of lines end at the same places, with lines of the same classes.
fn expect_lines(rt: &impl Abort, lines: &[LineEnd], others: &[LineEnd]) {
    assert_eq!(rt; lines.len(), others.len());
    for (line, other) in lines.iter().zip(others) {
        assert!(rt; *line == *other);
    }
}

/// Asserts that `active_breaks` finds these breaks by a meter without trials.
fn expect_by<M: Meter>(
    rt: &impl Abort,
    alloc: Global,
    meter: &mut M,
    params: &Params,
    found: &Breaks,
)
    requires { HasNoTrials (M.trials meter.old) }
{
    let counted = active_breaks(alloc, meter, params);
    let counted = counted.ok().expect(rt, "there is memory");
    expect_lines(rt, &found.lines, &counted.lines);
    assert!(rt; found.pass == counted.pass);
    assert_eq!(rt; found.overhang, counted.overhang);
    assert_eq!(rt; found.demerits, counted.demerits);
}

/// Asserts that `active_breaks` finds the same breaks of a finished list, by its meter and by a meter with four methods, and returns how many lines
/// the former tried. The latter tries no fewer lines, and no more where the last pass is not run.
pub(crate) fn expect_same(
    rt: &impl Abort,
    alloc: Global,
    nodes: &[Node],
    params: &Params,
    found: &Breaks,
) -> u128 {
    assert!(rt; nodes.len() <= 131_072);
    let mut meter = ListMeter::new(alloc, nodes).expect(rt, "not refused");
    expect_by(rt, alloc, &mut meter, params, found);
    let mut four = FourMethods::new(rt, alloc, nodes);
    expect_by(rt, alloc, &mut four, params, found);
    let trials = four.inner.all_trials();
    assert!(rt; trials >= meter.all_trials());
    assert!(rt; trials == meter.all_trials() || found.pass == Pass::Third);
    meter.all_trials()
}

/// The breaks that a list has to have: the places at which its lines end, the pass, the overhang and the demerits.
#[derive(Clone, Copy)]
struct ExpectedBreaks {
    places: &'static [usize],
    pass: Pass,
    overhang: i64,
    demerits: i64,
}

/// Asserts the breaks of a finished list.
fn expect_breaks(
    rt: &impl Abort,
    alloc: Global,
    nodes: &[Node],
    params: &Params,
    expected: &ExpectedBreaks,
) {
    assert!(rt; nodes.len() <= 131_072);
    let found = breaks(alloc, nodes, params).expect(rt, "not refused");
    expect_same(rt, alloc, nodes, params, &found);
    assert_eq!(rt; found.lines.len(), expected.places.len());
    for (line, place) in found.lines.iter().zip(expected.places) {
        assert_eq!(rt; line.place, *place);
    }
    assert!(rt; found.pass == expected.pass);
    assert_eq!(rt; found.overhang, expected.overhang);
    assert_eq!(rt; found.demerits, expected.demerits);
}

/// Glue of width 0 whose shrink is this number of points, in order fil.
fn shrinking(rt: &impl Abort, number: i64) -> Node {
    Node::Glue(Glue {
        width: Dimen::ZERO,
        stretch: Dimen::ZERO,
        stretch_order: Order::Normal,
        shrink: points(rt, number),
        shrink_order: Order::Fil,
    })
}

/// A list of `count` penalties.
fn penalties(rt: &impl Abort, alloc: Global, count: usize, penalty: i32) -> Vec<Node> {
    let mut items = Vec::new(alloc);
    for _ in 0..count {
        items
            .push(Node::Penalty(penalty))
            .ok()
            .expect(rt, "there is memory");
    }
    items
}

/// Asserts the fault of a list that is not broken.
fn expect_fault(rt: &impl Abort, alloc: Global, nodes: &[Node], fault: BreakFault) {
    assert!(rt; nodes.len() <= 131_072);
    let found = breaks(alloc, nodes, &narrow(rt));
    assert!(rt; found.err() == Some(fault));
    assert!(rt; ListMeter::new(alloc, nodes).err() == Some(fault));
}

#[test]
fn lists_that_are_refused(rt: HostRuntime) {
    let alloc = rt.alloc();
    let params = narrow(&rt);
    let forever = Vec::from_array(
        alloc,
        [rule(&rt, 10), shrinking(&rt, 1), shrinking(&rt, -1)],
    );
    let nodes = finished_nodes(&rt, forever.expect(&rt, "there is memory"), &params);
    expect_fault(&rt, alloc, &nodes, BreakFault::InfiniteShrink);
    let nowhere = Vec::from_array(alloc, [rule(&rt, 10), shrinking(&rt, 0)]);
    let nodes = finished_nodes(&rt, nowhere.expect(&rt, "there is memory"), &params);
    let expected = ExpectedBreaks {
        places: &[4],
        pass: Pass::First,
        overhang: 0,
        demerits: 100,
    };
    expect_breaks(&rt, alloc, &nodes, &params, &expected);
    let nodes = finished_nodes(&rt, penalties(&rt, alloc, 8_192, -10_000), &params);
    expect_fault(&rt, alloc, &nodes, BreakFault::TooManyBreaks);
}

#[test]
fn the_most_places(rt: HostRuntime) {
    let alloc = rt.alloc();
    let params = narrow(&rt);
    let nodes = finished_nodes(&rt, penalties(&rt, alloc, 8_191, -10_000), &params);
    assert!(&rt; nodes.len() <= 131_072);
    let found = breaks(alloc, &nodes, &params).expect(&rt, "not refused");
    // Two passes stop after the line to the first place, which neither of them admits. The third pass tries one line from the start and from each
    // place except the last.
    assert_eq!(&rt; expect_same(&rt, alloc, &nodes, &params, &found), 8_194);
    assert_eq!(&rt; found.lines.len(), 8_192);
    assert!(&rt; found.pass == Pass::Third);
    assert_eq!(&rt; found.overhang, 0);
    assert_eq!(&rt; found.demerits, 819_200_010_000);
}

#[test]
fn a_tie_by_class_alone(rt: HostRuntime) {
    let alloc = rt.alloc();
    let mut params = narrow(&rt);
    params.par_fill_skip.stretch = Dimen::ZERO;
    let items = [
        rule(&rt, 40),
        glue(&rt, -8, 4),
        rule(&rt, 5),
        glue(&rt, -8, 4),
        rule(&rt, 40),
    ];
    let items = Vec::from_array(alloc, items).expect(&rt, "there is memory");
    let nodes = finished_nodes(&rt, items, &params);
    let expected = ExpectedBreaks {
        places: &[1, 7],
        pass: Pass::First,
        overhang: 0,
        demerits: 2_804,
    };
    expect_breaks(&rt, alloc, &nodes, &params, &expected);
    assert!(&rt; nodes.len() <= 131_072);
    let found = breaks(alloc, &nodes, &params).expect(&rt, "not refused");
    let classes = [Fitness::Decent, Fitness::Loose];
    for (line, class) in found.lines.iter().zip(&classes) {
        assert!(&rt; line.class == *class);
    }
}

/// A paragraph in lines of 40pt, and its breaks.
struct Row {
    items: &'static [Item],
    expected: ExpectedBreaks,
}

/// Glue of 5pt that can stretch by 15pt.
const SPACE: Item = Item::Glue(Amounts {
    width: 5,
    stretch: 15,
    fil: 0,
    shrink: 0,
});

/// Glue of width 0.
const BETWEEN: Item = Item::Glue(Amounts {
    width: 0,
    stretch: 0,
    fil: 0,
    shrink: 0,
});

/// Glue of 5pt.
const FIRST: Item = Item::Glue(Amounts {
    width: 5,
    stretch: 0,
    fil: 0,
    shrink: 0,
});

/// Glue of 40pt.
const DROPPED: Item = Item::Glue(Amounts {
    width: 40,
    stretch: 0,
    fil: 0,
    shrink: 0,
});

/// The rows have, in order: an overfull line in the middle; a negative kern after an overfull line; glue at the start, which is kept; penalties
/// between two rules; a kern before glue; and items that are dropped.
const ROWS: [Row; 11] = [
    Row {
        items: &[Item::Rule(10), SPACE, Item::Rule(50), SPACE, Item::Rule(10)],
        expected: ExpectedBreaks {
            places: &[1, 3, 7],
            pass: Pass::Third,
            overhang: 655_360,
            demerits: 200_020_100,
        },
    },
    Row {
        items: &[
            Item::Rule(50),
            BETWEEN,
            Item::Kern(-15),
            Item::Rule(5),
            BETWEEN,
            Item::Rule(10),
        ],
        expected: ExpectedBreaks {
            places: &[4, 8],
            pass: Pass::First,
            overhang: 0,
            demerits: 200,
        },
    },
    Row {
        items: &[FIRST, Item::Rule(40)],
        expected: ExpectedBreaks {
            places: &[4],
            pass: Pass::Third,
            overhang: 327_680,
            demerits: 100_000_000,
        },
    },
    Row {
        items: &[Item::Rule(40), Item::Penalty(10_000), Item::Rule(40)],
        expected: ExpectedBreaks {
            places: &[5],
            pass: Pass::Third,
            overhang: 2_621_440,
            demerits: 100_000_000,
        },
    },
    Row {
        items: &[Item::Rule(40), Item::Penalty(9_999), Item::Rule(40)],
        expected: ExpectedBreaks {
            places: &[1, 5],
            pass: Pass::First,
            overhang: 0,
            demerits: 99_980_201,
        },
    },
    Row {
        items: &[Item::Rule(40), Item::Penalty(-9_999), Item::Rule(40)],
        expected: ExpectedBreaks {
            places: &[1, 5],
            pass: Pass::First,
            overhang: 0,
            demerits: -99_979_801,
        },
    },
    Row {
        items: &[Item::Rule(40), Item::Penalty(-10_000), Item::Rule(40)],
        expected: ExpectedBreaks {
            places: &[1, 5],
            pass: Pass::First,
            overhang: 0,
            demerits: 200,
        },
    },
    Row {
        items: &[Item::Rule(10), Item::Penalty(-9_999), Item::Rule(10)],
        expected: ExpectedBreaks {
            places: &[5],
            pass: Pass::First,
            overhang: 0,
            demerits: 100,
        },
    },
    Row {
        items: &[Item::Rule(10), Item::Penalty(-10_000), Item::Rule(10)],
        expected: ExpectedBreaks {
            places: &[1, 5],
            pass: Pass::Third,
            overhang: 0,
            demerits: 100_020_100,
        },
    },
    Row {
        items: &[Item::Rule(40), Item::Kern(5), BETWEEN, Item::Rule(40)],
        expected: ExpectedBreaks {
            places: &[1, 6],
            pass: Pass::First,
            overhang: 0,
            demerits: 200,
        },
    },
    Row {
        items: &[
            Item::Rule(40),
            Item::Penalty(-10_000),
            DROPPED,
            Item::Penalty(-10_000),
            Item::Rule(10),
        ],
        expected: ExpectedBreaks {
            places: &[1, 3, 7],
            pass: Pass::Third,
            overhang: 0,
            demerits: 100_020_200,
        },
    },
];

#[test]
fn paragraphs_of_rules(rt: HostRuntime) {
    let params = narrow(&rt);
    for row in &ROWS {
        let mut items = Vec::new(rt.alloc());
        for item in row.items {
            let pushed = items.push(node(&rt, rt.alloc(), item));
            pushed.ok().expect(&rt, "there is memory");
        }
        let nodes = finished_nodes(&rt, items, &params);
        expect_breaks(&rt, rt.alloc(), &nodes, &params, &row.expected);
    }
}

#[test]
fn a_font_kern_before_glue(rt: HostRuntime) {
    let alloc = rt.alloc();
    let params = narrow(&rt);
    let kern = Node::FontKern(points(&rt, 5));
    let items = Vec::from_array(alloc, [rule(&rt, 35), kern, glue(&rt, 0, 0), rule(&rt, 40)]);
    let nodes = finished_nodes(&rt, items.expect(&rt, "there is memory"), &params);
    let expected = ExpectedBreaks {
        places: &[2, 6],
        pass: Pass::First,
        overhang: 0,
        demerits: 200,
    };
    expect_breaks(&rt, alloc, &nodes, &params, &expected);
}
