//! The number of lines that `append_paragraph` tries, and those that `active_breaks` tries from each place.

use crate::four_methods::FourMethods;
use crate::items::points;
use crate::paragraphs::{finished_nodes, glue, narrow, rule};
use break_core::{ListMeter, Meter, Pass, active_breaks};
use node_core::{IntParameter, Node, NodeList, Params};
use scaled_core::Dimen;
use std::alloc::Global;
use std::process::Abort;
use vert_core::{AppendedParagraph, append_paragraph};

/// Lines of 40pt with any badness, in the second pass.
fn very_narrow(rt: &impl Abort) -> Params {
    let mut params = narrow(rt);
    params.pretolerance = IntParameter::try_new(-1).expect(rt, "it fits");
    params.tolerance = IntParameter::try_new(10_000).expect(rt, "it fits");
    params
}

/// 8,192 words of 1pt with glue between them, which have 8,191 legal places and the end. If `kerned`, each word begins with a kern of -1pt.
fn words(rt: &impl Abort, alloc: Global, kerned: bool) -> Vec<Node> {
    let mut items = Vec::new(alloc);
    for word in 0..8_192 {
        if word > 0 {
            let between = items.push(glue(rt, 0, 1));
            between.ok().expect(rt, "there is memory");
        }
        if kerned {
            let kern = items.push(Node::Kern(points(rt, -1)));
            kern.ok().expect(rt, "there is memory");
        }
        let shown = items.push(rule(rt, if kerned { 2 } else { 1 }));
        shown.ok().expect(rt, "there is memory");
    }
    items
}

/// Asserts the number of lines into which 8,192 words are broken, how many lines were tried from each place and together, and how many together by a
/// meter with four methods.
fn expect_counts(
    rt: &impl Abort,
    alloc: Global,
    kerned: bool,
    lines: usize,
    each: u64,
    trials: u128,
    four: u128,
) {
    let params = very_narrow(rt);
    let nodes = finished_nodes(rt, words(rt, alloc, kerned), &params);
    assert!(rt; nodes.len() <= 131_072);
    let mut meter = ListMeter::new(alloc, &nodes).expect(rt, "not refused");
    let found = active_breaks(alloc, &mut meter, &params);
    let found = found.ok().expect(rt, "there is memory");
    assert_eq!(rt; found.lines.len(), lines);
    assert!(rt; found.pass == Pass::Second && found.overhang == 0);
    assert_eq!(rt;
        found.demerits,
        i64::try_from(lines).unwrap_or(0).saturating_mul(100)
    );
    assert_eq!(rt; meter.trials(0), 41);
    for place in 1..8_193 {
        assert!(rt; meter.trials(place) <= each);
    }
    assert_eq!(rt; meter.all_trials(), trials);
    assert_eq!(rt; trials_by_four_methods(rt, alloc, &nodes, &params), four);
    expect_appended(rt, alloc, kerned, lines, trials);
}

/// The number of lines that `active_breaks` tries of a finished list by a meter with four methods.
fn trials_by_four_methods(rt: &impl Abort, alloc: Global, nodes: &[Node], params: &Params) -> u128 {
    assert!(rt; nodes.len() <= 131_072);
    let mut meter = FourMethods::new(rt, alloc, nodes);
    let found = active_breaks(alloc, &mut meter, params);
    assert!(rt; found.is_ok());
    meter.inner.all_trials()
}

/// Appends the lines of a paragraph of these items to an empty list.
fn append_to_nothing(
    rt: &impl Abort,
    alloc: Global,
    items: Vec<Node>,
    params: &Params,
) -> AppendedParagraph {
    assert!(rt; items.len() <= 131_070);
    let mut list = NodeList::from_vec(items);
    let mut around = NodeList::new(alloc);
    let figures = append_paragraph(alloc, &mut list, &mut around, params, Dimen::ZERO);
    figures.ok().expect(rt, "its lines are appended")
}

/// Asserts the number of lines into which 8,192 words are broken and appended, and how many were tried.
fn expect_appended(rt: &impl Abort, alloc: Global, kerned: bool, lines: usize, trials: u128) {
    let items = words(rt, alloc, kerned);
    let figures = append_to_nothing(rt, alloc, items, &very_narrow(rt));
    assert_eq!(rt; figures.lines, lines);
    assert!(rt; figures.pass == Some(Pass::Second) && figures.overhang == 0);
    assert_eq!(rt; figures.trials, trials);
    assert!(rt; figures.trials <= 335_872);
}

#[test]
fn many_words(rt: HostRuntime) {
    // A line has at most 40 words, and one of up to 8 has badness 10000, so of such lines to a place only the longest one is tried, but for the end.
    // So there are 41 trials from the start, and 34 from each other place, except for the last 40. A meter with four methods does not tell that the
    // list is even: then there are 41 from each of 8,192 places, except for the last 40.
    expect_counts(&rt, rt.alloc(), false, 205, 34, 277_743, 335_052);
    // With kerns that are dropped at the beginning of a line the list is not found even. There are 41 trials from the start and 40 from the other
    // places, except for the last 39.
    expect_counts(&rt, rt.alloc(), true, 211, 40, 326_901, 326_901);
}

/// Asserts the number of lines that are tried from the start and from each place of a list, and whether the list is steady.
fn expect_trials(rt: &impl Abort, alloc: Global, items: Vec<Node>, steady: bool, trials: &[u64]) {
    let params = narrow(rt);
    let nodes = finished_nodes(rt, items, &params);
    assert!(rt; nodes.len() <= 131_072);
    let mut meter = ListMeter::new(alloc, &nodes).expect(rt, "not refused");
    assert!(rt; meter.steady() == steady);
    let found = active_breaks(alloc, &mut meter, &params);
    assert!(rt; found.is_ok());
    for (place, wanted) in trials.iter().enumerate() {
        assert_eq!(rt; meter.trials(place), *wanted);
    }
}

#[test]
fn trials_of_each_place(rt: HostRuntime) {
    let alloc = rt.alloc();
    // An overfull word: trying lines stops after it in two passes, and at the end in the third. In those two passes no list of breaks ends at the
    // places after the start.
    let items = [
        rule(&rt, 10),
        glue(&rt, 5, 15),
        rule(&rt, 50),
        glue(&rt, 5, 15),
        rule(&rt, 10),
    ];
    let items = Vec::from_array(alloc, items).expect(&rt, "there is memory");
    expect_trials(&rt, alloc, items, true, &[7, 2, 1, 0, 0]);
    // Words after an overfull one: in the third pass, trying lines from the start stops at the second place of five, since the line to it has more
    // overhang than the first one.
    let mut items = Vec::new(alloc);
    let wide = items.push(rule(&rt, 50));
    wide.ok().expect(&rt, "there is memory");
    for _ in 0..4 {
        let between = items.push(glue(&rt, 5, 15));
        between.ok().expect(&rt, "there is memory");
        let word = items.push(rule(&rt, 10));
        word.ok().expect(&rt, "there is memory");
    }
    expect_trials(&rt, alloc, items, true, &[4, 4, 3, 2, 1, 0]);
    // A negative kern after an overfull line: there is one pass with lines to all later places, but no line is tried from the end of the overfull
    // line.
    let items = [
        rule(&rt, 50),
        glue(&rt, 0, 0),
        Node::Kern(points(&rt, -15)),
        rule(&rt, 5),
        glue(&rt, 0, 0),
        rule(&rt, 10),
    ];
    let items = Vec::from_array(alloc, items).expect(&rt, "there is memory");
    expect_trials(&rt, alloc, items, false, &[3, 0, 1, 0, 0]);
}

/// Words of 7pt with glue between them that cannot stretch.
fn rigid_words(rt: &impl Abort, alloc: Global, count: usize) -> Vec<Node> {
    let mut items = Vec::new(alloc);
    for word in 0..count {
        if word > 0 {
            let between = items.push(glue(rt, 0, 0));
            between.ok().expect(rt, "there is memory");
        }
        let shown = items.push(rule(rt, 7));
        shown.ok().expect(rt, "there is memory");
    }
    items
}

#[test]
fn last_pass_over_many_words(rt: HostRuntime) {
    // Five words fit into 40pt, the line of six is overfull, and the line of seven has more overhang, so no further line is tried. In the first two
    // passes no line is good enough, and six are tried, all from the start. In the last pass lines of one to five words have badness 10000, so of
    // those to a place only the longest one is tried, but for the end. So there are 3 trials from each place of 1 to 8,185, then 2, then 1 from each
    // of the next five, and 19 from the start.
    let params = narrow(&rt);
    let nodes = finished_nodes(&rt, rigid_words(&rt, rt.alloc(), 8_192), &params);
    assert!(rt; nodes.len() <= 131_072);
    let mut meter = ListMeter::new(rt.alloc(), &nodes).expect(&rt, "not refused");
    let found = active_breaks(rt.alloc(), &mut meter, &params);
    let found = found.ok().expect(&rt, "there is memory");
    assert!(rt; found.pass == Pass::Third && found.overhang == 0);
    assert_eq!(rt; meter.trials(0), 19);
    assert_eq!(rt; meter.trials(8_185), 3);
    assert_eq!(rt; meter.all_trials(), 24_581);
    let items = rigid_words(&rt, rt.alloc(), 8_192);
    let figures = append_to_nothing(&rt, rt.alloc(), items, &params);
    assert!(rt; figures.pass == Some(Pass::Third));
    assert_eq!(rt; figures.trials, 24_581);
}

#[test]
fn trials_of_paragraphs(rt: HostRuntime) {
    // 1,505 lines of 500 words that cannot stretch are tried (`last_pass_by_four_methods`). One word is one line, which the first pass admits. An
    // empty paragraph has no line to try.
    let params = narrow(&rt);
    for (count, trials) in [(500, 1_505), (1, 1), (0, 0)] {
        let items = rigid_words(&rt, rt.alloc(), count);
        let figures = append_to_nothing(&rt, rt.alloc(), items, &params);
        assert_eq!(rt; figures.trials, trials);
    }
}

#[test]
fn last_pass_by_four_methods(rt: HostRuntime) {
    // Of 500 words there are 3 trials from each of 493 places, then 2, then 1 from each of five, and 19 from the start. A meter with four methods
    // does not tell that long lines may be left out or that the list is even, so in the last pass all 125,250 pairs of places are tried.
    let params = narrow(&rt);
    let nodes = finished_nodes(&rt, rigid_words(&rt, rt.alloc(), 500), &params);
    assert!(rt; nodes.len() <= 131_072);
    let mut meter = ListMeter::new(rt.alloc(), &nodes).expect(&rt, "not refused");
    let found = active_breaks(rt.alloc(), &mut meter, &params);
    assert!(rt; found.is_ok());
    assert_eq!(rt; meter.all_trials(), 1_505);
    assert_eq!(rt;
        trials_by_four_methods(&rt, rt.alloc(), &nodes, &params),
        125_262
    );
}
