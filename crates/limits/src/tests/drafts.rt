// Headers and rows at their limits, and what a draft holds after each call.
use super::{Answer, Changes, LIST, SEARCH, TAKEN, answer_to, check_answer, list_of};
use problem::cost::{Cost, Linear, Squares};
use problem::draft::Draft;
use problem::table::Problem;
use std::process::Abort;

/// A list and the answer to it.
type Case = (Changes, Answer);

/// A number of quantities from 1 to 8, a gap from 0 to 1,000,000 and eight fillers.
static SQUARES_HEADERS: [Case; 13] = [
    (&[(1, 1), (2, 0)], TAKEN),
    (&[(1, 8), (2, 1_000_000)], TAKEN),
    // one past a limit
    (&[(1, 0)], Some((2, 1, LIST))),
    (&[(1, 9)], Some((2, 1, LIST))),
    (&[(2, -1)], Some((2, 2, LIST))),
    (&[(2, 1_000_001)], Some((2, 2, LIST))),
    // a filler that is not 0, whatever its size
    (&[(1, 8), (3, 1)], Some((3, 3, LIST))),
    (&[(1, 8), (3, -51)], Some((3, 3, LIST))),
    (&[(1, 8), (10, 1)], Some((3, 10, LIST))),
    // the first fault from the left
    (&[(1, 9), (2, -1), (3, 1)], Some((2, 1, LIST))),
    (&[(1, 0), (10, 1)], Some((2, 1, LIST))),
    (&[(2, 1_000_001), (3, 1)], Some((2, 2, LIST))),
    (&[(4, 1), (10, 51)], Some((3, 4, LIST))),
];

/// The same with rates from -50 to 50, as many as the list has quantities, before the fillers.
static LINEAR_HEADERS: [Case; 18] = [
    (&[(1, 1), (3, -50)], TAKEN),
    (&[(1, 2), (3, 50), (4, -50)], TAKEN),
    (&[(1, 8), (2, 1_000_000), (10, 50)], TAKEN),
    // one past a limit
    (&[(1, 0)], Some((2, 1, LIST))),
    (&[(1, 9)], Some((2, 1, LIST))),
    (&[(2, -1)], Some((2, 2, LIST))),
    (&[(2, 1_000_001)], Some((2, 2, LIST))),
    (&[(3, -51)], Some((2, 3, LIST))),
    (&[(1, 2), (4, 51)], Some((2, 4, LIST))),
    (&[(1, 8), (10, -51)], Some((2, 10, LIST))),
    // a filler that is not 0, whatever its size
    (&[(4, 1)], Some((3, 4, LIST))),
    (&[(1, 2), (5, 51)], Some((3, 5, LIST))),
    (&[(1, 7), (10, -1)], Some((3, 10, LIST))),
    // the first fault from the left
    (&[(1, 0), (2, -1), (3, 51)], Some((2, 1, LIST))),
    (&[(1, 9), (10, 51)], Some((2, 1, LIST))),
    (&[(2, -1), (3, 51), (4, 1)], Some((2, 2, LIST))),
    (&[(3, 51), (4, 1)], Some((2, 3, LIST))),
    (&[(5, 1), (10, 51)], Some((3, 5, LIST))),
];

/// A number of quantities, and then: kind 1 or 2, two ends from -10,000 to 10,000, as many coefficients from
/// -50 to 50 as there are quantities, and fillers up to eleven numbers.
static ROWS: [(i32, Changes, Answer); 29] = [
    (2, &[(1, 1), (2, -10_000), (3, 10_000)], TAKEN),
    (2, &[(1, 2), (4, -50), (5, 50)], TAKEN),
    (2, &[(2, -10_000), (3, -10_000)], TAKEN),
    (2, &[(2, 10_000), (3, 10_000)], TAKEN),
    (8, &[(10, -50), (11, 50)], TAKEN),
    // one past a limit
    (2, &[(2, -10_001)], Some((2, 2, LIST))),
    (2, &[(2, 10_001)], Some((2, 2, LIST))),
    (2, &[(3, -10_001)], Some((2, 3, LIST))),
    (2, &[(3, 10_001)], Some((2, 3, LIST))),
    (2, &[(4, -51)], Some((2, 4, LIST))),
    (2, &[(5, 51)], Some((2, 5, LIST))),
    (8, &[(11, -51)], Some((2, 11, LIST))),
    // a filler that is not 0, whatever its size
    (2, &[(6, 1)], Some((3, 6, LIST))),
    (2, &[(6, -51)], Some((3, 6, LIST))),
    (1, &[(5, 51)], Some((3, 5, LIST))),
    (7, &[(11, -1)], Some((3, 11, LIST))),
    // the first fault from the left
    (2, &[(2, -10_001), (3, 10_001)], Some((2, 2, LIST))),
    (2, &[(3, 10_001), (4, 51), (6, 1)], Some((2, 3, LIST))),
    (2, &[(5, 51), (6, 1)], Some((2, 5, LIST))),
    (2, &[(7, 1), (11, 51)], Some((3, 7, LIST))),
    // the ends cross: after limits and fillers
    (2, &[(2, 1)], Some((4, 3, LIST))),
    (2, &[(2, 10_000), (3, 9_999)], Some((4, 3, LIST))),
    (2, &[(2, 1), (5, -51)], Some((2, 5, LIST))),
    (2, &[(2, 1), (11, 1)], Some((3, 11, LIST))),
    // an unknown kind: before limits, fillers and ends
    (2, &[(1, 0)], Some((5, 1, LIST))),
    (2, &[(1, 3)], Some((5, 1, LIST))),
    (2, &[(1, 3), (2, 10_001)], Some((5, 1, LIST))),
    (2, &[(1, -1), (6, 51)], Some((5, 1, LIST))),
    (2, &[(1, 0), (2, 1)], Some((5, 1, LIST))),
];

/// Headers for a draft that has a row. The faults of the list come first.
static LATE_HEADERS: [Case; 5] = [
    (&[(1, 2)], Some((10, 0, SEARCH))),
    (&[(1, 8), (2, 1_000_000)], Some((10, 0, SEARCH))),
    (&[(1, 9)], Some((2, 1, LIST))),
    (&[(2, -1)], Some((2, 2, LIST))),
    (&[(10, 1)], Some((3, 10, LIST))),
];

/// Rows for a draft of two quantities that has sixteen rows. The faults of the list come first.
static LATE_ROWS: [Case; 6] = [
    (&[(1, 1)], Some((11, 0, SEARCH))),
    (&[(1, 2), (3, 10_000), (5, 50)], Some((11, 0, SEARCH))),
    (&[(1, 3)], Some((5, 1, LIST))),
    (&[(3, 10_001)], Some((2, 3, LIST))),
    (&[(6, 1)], Some((3, 6, LIST))),
    (&[(2, 1)], Some((4, 3, LIST))),
];

// Whether a row of a problem has the numbers of a list.
fn has_row(problem: &Problem, row: usize, list: &[i32]) -> bool {
    let [kind, lo, hi, coefficients @ ..] = list else {
        return false;
    };
    let kept = problem.row(row);
    let mut numbers = coefficients.iter().enumerate();
    (i32::from(kept.kind), kept.lo, kept.hi) == (*kind, *lo, *hi)
        && numbers.all(|(column, number)| problem.coefficient(row, column) == i64::from(*number))
}

// Whether a draft has the numbers of a header and these rows, and no more.
fn holds<C: Cost + Drop>(draft: Draft<C>, header: &[i32], rows: &[[i32; 11]]) -> bool {
    let (problem, rates, gap) = draft.into_parts();
    let [n, size, numbers @ ..] = header else {
        return false;
    };
    problem.quantities() as i64 == i64::from(*n)
        && i64::from(gap.value()) == i64::from(*size)
        && problem.row_count() == rows.len()
        && numbers
            .iter()
            .enumerate()
            .all(|(index, number)| rates.rate(index) == i64::from(*number))
        && rows
            .iter()
            .enumerate()
            .all(|(index, row)| has_row(&problem, index, row))
}

fn check_held(rt: &impl Abort, held: bool, changes: Changes) {
    assert!(rt; held, "what {changes:?} leaves");
}

// Gives each list to a draft that has another header: a list that is taken replaces all of it, and one that is
// denied leaves it.
fn check_headers<C: Cost + Copy>(rt: &impl Abort, cost: C, first: [i32; 10], cases: &[Case]) {
    for (changes, answer) in cases {
        let list = list_of(changes);
        let mut draft = Draft::new(cost);
        let _ = draft.header(&first);
        check_answer(rt, answer_to(draft.header(&list)), *answer, changes);
        let header = if answer.is_none() { list } else { first };
        check_held(rt, holds(draft, &header, &[]), changes);
    }
}

#[test]
fn headers(rt: HostRuntime) {
    check_headers(
        &rt,
        Squares,
        [3, 7, 0, 0, 0, 0, 0, 0, 0, 0],
        &SQUARES_HEADERS,
    );
    check_headers(
        &rt,
        Linear,
        [3, 7, 1, -2, 3, 0, 0, 0, 0, 0],
        &LINEAR_HEADERS,
    );
}

// Gives each list to a draft that has one row: a list that is taken is its second row, and one that is denied
// leaves it.
#[test]
fn rows(rt: HostRuntime) {
    let first = [2, -5, 5, 7, 0, 0, 0, 0, 0, 0, 0];
    for (n, changes, answer) in &ROWS {
        let header = [*n, 7, 0, 0, 0, 0, 0, 0, 0, 0];
        let list = list_of(changes);
        let mut draft = Draft::new(Squares);
        let _ = draft.header(&header);
        let _ = draft.add_row(&first);
        check_answer(&rt, answer_to(draft.add_row(&list)), *answer, changes);
        let count = if answer.is_none() { 2 } else { 1 };
        check_held(
            &rt,
            holds(draft, &header, &[first, list][0..count]),
            changes,
        );
    }
}

#[test]
fn headers_after_a_row(rt: HostRuntime) {
    let header = [2, 7, 0, 0, 0, 0, 0, 0, 0, 0];
    let row = [2, -5, 5, 7, -7, 0, 0, 0, 0, 0, 0];
    let mut draft = Draft::new(Squares);
    let _ = draft.header(&header);
    let _ = draft.add_row(&row);
    // The loop stands in the next test, too, over lists of another length: a closure over both would be no plainer.
    for (changes, answer) in &LATE_HEADERS {
        let got = answer_to(draft.header(&list_of::<10>(changes)));
        check_answer(&rt, got, *answer, changes);
    }
    assert_eq!(rt; answer_to(draft.header(&[2, 7])), Some((1, 0, LIST)));
    assert!(rt; holds(draft, &header, &[row]));
}

#[test]
fn a_seventeenth_row(rt: HostRuntime) {
    let header = [2, 7, 0, 0, 0, 0, 0, 0, 0, 0];
    let row = [2, -5, 5, 7, -7, 0, 0, 0, 0, 0, 0];
    let mut draft = Draft::new(Squares);
    let _ = draft.header(&header);
    for _ in 0..16 {
        let _ = draft.add_row(&row);
    }
    for (changes, answer) in &LATE_ROWS {
        let got = answer_to(draft.add_row(&list_of::<11>(changes)));
        check_answer(&rt, got, *answer, changes);
    }
    assert_eq!(rt; answer_to(draft.add_row(&[1, 0, 0])), Some((1, 0, LIST)));
    assert!(rt; holds(draft, &header, &[row; 16]));
}
