//! The best list of places, found by a comparison of all lists.

use crate::costs::{demerits, fit_line, legal_places, line_amounts, penalty_at, size_of};
use crate::items::{Item, Setting};
use std::alloc::Global;
use std::process::Abort;

/// A list with its legal places, and the parameters by which it is broken.
#[derive(Drop)]
pub(crate) struct Problem<'a> {
    pub(crate) items: &'a [Item],
    pub(crate) legal: Vec<usize>,
    pub(crate) setting: &'a Setting,
}

/// The last place that a list of places has so far, the class, the number and the costs of its lines, and the numbers of the lines by which it is
/// compared.
#[derive(Drop)]
struct ListSoFar {
    from: Option<usize>,
    class: i64,
    lines: i64,
    overhang: i64,
    demerits: i64,
    numbers: Vec<i64>,
}

/// Appends a number.
pub(crate) fn push_number(rt: &impl Abort, numbers: &mut Vec<i64>, number: i64) {
    numbers.push(number).ok().expect(rt, "there is memory");
}

/// A number for a place: the later the place, the lower the number.
pub(crate) fn fallen(place: usize) -> i64 {
    0_i64.saturating_sub(i64::try_from(place).unwrap_or(i64::MAX))
}

impl ListSoFar {
    /// The list without places. Its numbers begin with that of the start, which is before every place.
    fn start(rt: &impl Abort, alloc: Global) -> ListSoFar {
        let mut numbers = Vec::new(alloc);
        push_number(rt, &mut numbers, 1);
        ListSoFar {
            from: None,
            class: 2,
            lines: 0,
            overhang: 0,
            demerits: 0,
            numbers,
        }
    }

    /// Appends a place, and returns whether a pass with this bound admits the line to it.
    fn append(
        &mut self,
        rt: &impl Abort,
        problem: &Problem,
        bound: Option<i64>,
        place: usize,
    ) -> bool {
        let setting = problem.setting;
        self.lines = self.lines.saturating_add(1);
        let size = size_of(setting, self.lines);
        let line = fit_line(&line_amounts(problem.items, self.from, place), size);
        if let Some(most) = bound {
            if line.overfull || line.badness > most {
                return false;
            }
        }
        let penalty = penalty_at(problem.items, place);
        let cost = demerits(setting, penalty, self.class, &line);
        self.demerits = self.demerits.saturating_add(cost);
        self.overhang = self.overhang.saturating_add(line.overhang);
        self.class = line.class;
        self.from = Some(place);
        push_number(rt, &mut self.numbers, line.class);
        push_number(rt, &mut self.numbers, self.lines.min(setting.first_lines));
        push_number(rt, &mut self.numbers, fallen(place));
        true
    }
}

/// The numbers by which lists of places are compared, with the most important one last, if the pass with this bound admits the list; without a bound
/// every list is admitted. The binary digits of `mask` select the legal places, and the end is always taken.
pub(crate) fn numbers_of(
    rt: &impl Abort,
    alloc: Global,
    problem: &Problem,
    bound: Option<i64>,
    mask: u32,
) -> Option<Vec<i64>> {
    let mut list = ListSoFar::start(rt, alloc);
    let mut digits = mask;
    for place in &problem.legal {
        let taken = digits % 2 == 1 || *place == problem.items.len();
        digits /= 2;
        if !taken && penalty_at(problem.items, *place) <= -10_000 {
            return None;
        }
        if taken && !list.append(rt, problem, bound, *place) {
            return None;
        }
    }
    push_number(rt, &mut list.numbers, list.demerits);
    push_number(rt, &mut list.numbers, list.overhang);
    Some(list.numbers)
}

/// Whether numbers are before others, compared from the last number to the first.
fn is_before(numbers: &[i64], others: &[i64]) -> bool {
    for (number, other) in numbers.iter().rev().zip(others.iter().rev()) {
        if *number != *other {
            return *number < *other;
        }
    }
    false
}

/// The numbers of the chosen list of a pass, if the pass admits a list.
fn chosen_numbers(
    rt: &impl Abort,
    alloc: Global,
    problem: &Problem,
    bound: Option<i64>,
) -> Option<Vec<i64>> {
    let mut lists: u32 = 1;
    for _ in 1..problem.legal.len() {
        lists = lists.saturating_mul(2);
    }
    let mut best: Option<Vec<i64>> = None;
    for mask in 0..lists {
        if let Some(numbers) = numbers_of(rt, alloc, problem, bound, mask) {
            let better = match &best {
                Some(old) => is_before(&numbers, old),
                None => true,
            };
            if better {
                best = Some(numbers);
            }
        }
    }
    best
}

/// The number of the pass that decides, and the numbers of the chosen list.
pub(crate) fn expected_pass(
    rt: &impl Abort,
    alloc: Global,
    items: &[Item],
    setting: &Setting,
) -> (i64, Vec<i64>) {
    let problem = Problem {
        items,
        legal: legal_places(rt, alloc, items),
        setting,
    };
    if let Some(numbers) = chosen_numbers(rt, alloc, &problem, Some(setting.pretolerance)) {
        return (1, numbers);
    }
    if let Some(numbers) = chosen_numbers(rt, alloc, &problem, Some(setting.tolerance)) {
        return (2, numbers);
    }
    let last = chosen_numbers(rt, alloc, &problem, None);
    (3, last.expect(rt, "the last pass admits each list"))
}
