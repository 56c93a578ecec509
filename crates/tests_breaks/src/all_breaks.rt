//! The breaks of random lists, compared with the best of all lists of their places. The cost of a list of places is computed here from the
//! definition, independently of the breaker.

use crate::costs::legal_places;
use crate::items::{Amounts, Item, Setting, node, params_of};
use crate::lists::{Problem, expected_pass, fallen, numbers_of, push_number};
use crate::paragraphs::expect_same;
use crate::random::{Random, random_items};
use break_core::{Breaks, Fitness, Pass, breaks};
use std::alloc::Global;
use std::process::Abort;

/// The numbers of the breaks that were found, in the same form as those of a list of places.
fn found_numbers(rt: &impl Abort, alloc: Global, setting: &Setting, found: &Breaks) -> Vec<i64> {
    let mut numbers = Vec::new(alloc);
    push_number(rt, &mut numbers, 1);
    let mut lines: i64 = 0;
    for line in &found.lines {
        lines = lines.saturating_add(1);
        let class = match line.class {
            Fitness::VeryLoose => 0,
            Fitness::Loose => 1,
            Fitness::Decent => 2,
            Fitness::Tight => 3,
        };
        for number in [class, lines.min(setting.first_lines), fallen(line.place)] {
            push_number(rt, &mut numbers, number);
        }
    }
    push_number(rt, &mut numbers, found.demerits);
    push_number(rt, &mut numbers, found.overhang);
    numbers
}

/// Asserts that both breakers find the breaks of the definition for a list.
fn expect_chosen(rt: &impl Abort, alloc: Global, items: &[Item], setting: &Setting) {
    let mut nodes = Vec::new(alloc);
    for item in items {
        nodes
            .push(node(rt, alloc, item))
            .ok()
            .expect(rt, "there is memory");
    }
    assert!(rt; nodes.len() <= 131_072);
    let params = params_of(rt, setting);
    let found = breaks(alloc, &nodes, &params).expect(rt, "not refused");
    expect_same(rt, alloc, &nodes, &params, &found);
    let (pass, numbers) = expected_pass(rt, alloc, items, setting);
    let named = match found.pass {
        Pass::First => 1,
        Pass::Second => 2,
        Pass::Third => 3,
    };
    assert_eq!(rt; named, pass);
    assert!(rt; found_numbers(rt, alloc, setting, &found) == numbers);
}

#[test]
fn random_lists(rt: HostRuntime) {
    let alloc = rt.alloc();
    let mut random = Random(1);
    let mut compared: u64 = 0;
    for _ in 0..240 {
        let items = random_items(&rt, alloc, &mut random);
        let setting = random.setting();
        if legal_places(&rt, alloc, &items).len() <= 12 {
            expect_chosen(&rt, alloc, &items, &setting);
            compared = compared.saturating_add(1);
        }
    }
    assert!(&rt; compared >= 200);
}

/// Glue with this width and stretch, in points.
fn elastic(width: i64, stretch: i64) -> Amounts {
    Amounts {
        width,
        stretch,
        fil: 0,
        shrink: 0,
    }
}

/// The items of a finished list: rules of these widths, with glue between them.
fn rules_between(rt: &impl Abort, alloc: Global, widths: &[i64], between: &[Amounts]) -> Vec<Item> {
    let mut items = Vec::new(alloc);
    for (index, width) in widths.iter().enumerate() {
        if let Some(glue) = between.get(index.wrapping_sub(1)) {
            let pushed = items.push(Item::Glue(*glue));
            pushed.ok().expect(rt, "there is memory");
        }
        let pushed = items.push(Item::Rule(*width));
        pushed.ok().expect(rt, "there is memory");
    }
    let fill = Amounts {
        width: 0,
        stretch: 0,
        fil: 1,
        shrink: 0,
    };
    for item in [Item::Penalty(10_000), Item::Glue(fill)] {
        items.push(item).ok().expect(rt, "there is memory");
    }
    items
}

/// Asserts the demerits of a list of places by the definition, and that it has no overfull line.
fn expect_cost(
    rt: &impl Abort,
    alloc: Global,
    items: &[Item],
    setting: &Setting,
    mask: u32,
    demerits: i64,
) {
    let problem = Problem {
        items,
        legal: legal_places(rt, alloc, items),
        setting,
    };
    let numbers = numbers_of(rt, alloc, &problem, Some(10_000), mask);
    let numbers = numbers.expect(rt, "no line is overfull");
    let mut costs = numbers.iter().rev();
    assert!(rt; costs.next() == Some(&0));
    assert!(rt; costs.next() == Some(&demerits));
}

#[test]
fn lists_that_are_not_chosen(rt: HostRuntime) {
    let alloc = rt.alloc();
    let mut setting = Setting {
        hsize: 40,
        first_lines: 0,
        first_size: 20,
        pretolerance: -1,
        tolerance: 10_000,
        line_penalty: 10,
        adj_demerits: 10_000,
    };
    // Five rules: places 3, 7 and the end are chosen, while the greedy list has 5, 7 and the end.
    let between = [
        elastic(5, 15),
        elastic(5, 15),
        elastic(5, 15),
        elastic(5, 15),
    ];
    let items = rules_between(&rt, alloc, &[10, 10, 10, 25, 30], &between);
    expect_chosen(&rt, alloc, &items, &setting);
    expect_cost(&rt, alloc, &items, &setting, 2 + 8, 32_300);
    expect_cost(&rt, alloc, &items, &setting, 4 + 8, 100_020_200);
    // A tie: places 3 and the end are chosen, and 1 and the end have the same cost.
    setting.pretolerance = 100;
    let items = rules_between(&rt, alloc, &[40, 5, 10], &[elastic(-5, 0), elastic(0, 0)]);
    expect_chosen(&rt, alloc, &items, &setting);
    expect_cost(&rt, alloc, &items, &setting, 1, 200);
    expect_cost(&rt, alloc, &items, &setting, 2, 200);
}

#[test]
fn first_lines(rt: HostRuntime) {
    let alloc = rt.alloc();
    let mut setting = Setting {
        hsize: 40,
        first_lines: 1,
        first_size: 20,
        pretolerance: 100,
        tolerance: 200,
        line_penalty: 10,
        adj_demerits: 10_000,
    };
    // Three lines, the first one 20pt wide.
    let between = [elastic(0, 0), elastic(0, 0)];
    let items = rules_between(&rt, alloc, &[20, 40, 10], &between);
    expect_chosen(&rt, alloc, &items, &setting);
    expect_cost(&rt, alloc, &items, &setting, 1 + 2, 300);
    // Ties: lists of two and of three lines have cost 0, and the one with fewer counted lines is chosen.
    setting.line_penalty = 0;
    setting.first_size = 40;
    let spring = Amounts {
        width: 0,
        stretch: 0,
        fil: 1,
        shrink: 0,
    };
    let items = rules_between(
        &rt,
        alloc,
        &[10, 10, 10, 10, 10, 10],
        &[spring, spring, spring, spring, spring],
    );
    for lines in [0, 1, 2, 3, 32] {
        setting.first_lines = lines;
        expect_chosen(&rt, alloc, &items, &setting);
        expect_cost(&rt, alloc, &items, &setting, 8, 0);
        expect_cost(&rt, alloc, &items, &setting, 4 + 16, 0);
    }
}
