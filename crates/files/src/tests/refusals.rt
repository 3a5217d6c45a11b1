// Changes to the sample, and the first fault of the file that they make.
use super::{ACCEPTED, Answer, Changes, FILE, LIST, answer_to, changed, put_file};
use std::process::Abort;

type Case = (Changes, Answer);

static LINKS: [Case; 31] = [
    (&[], ACCEPTED),
    // 0 ends a chain, wherever it stands
    (&[(0, 0, 0)], ACCEPTED),
    (&[(0, 1, 0)], ACCEPTED),
    (&[(0, 0, 0), (0, 1, 0)], ACCEPTED),
    (&[(1, 0, 0)], ACCEPTED),
    (&[(5, 0, 0)], ACCEPTED),
    // a record that no row is in any more may be a call's
    (
        &[(2, 0, 0), (0, 1, 3), (3, 1, 5), (3, 4, 0), (3, 5, 0)],
        ACCEPTED,
    ),
    // outside the file
    (&[(0, 0, 8)], Some((6, 0, 0, FILE))),
    (&[(0, 0, -1)], Some((6, 0, 0, FILE))),
    (&[(0, 1, 8)], Some((6, 0, 1, FILE))),
    (&[(0, 1, i32::MIN)], Some((6, 0, 1, FILE))),
    (&[(1, 0, 8)], Some((6, 1, 0, FILE))),
    (&[(2, 0, -1)], Some((6, 2, 0, FILE))),
    (&[(3, 0, i32::MAX)], Some((6, 3, 0, FILE))),
    (&[(4, 0, 8)], Some((6, 4, 0, FILE))),
    (&[(7, 0, -7)], Some((6, 7, 0, FILE))),
    // to itself
    (&[(1, 0, 1)], Some((6, 1, 0, FILE))),
    (&[(3, 0, 3)], Some((6, 3, 0, FILE))),
    (&[(4, 0, 4)], Some((6, 4, 0, FILE))),
    (&[(7, 0, 7)], Some((6, 7, 0, FILE))),
    // to a record that was reached before in the same chain
    (&[(2, 0, 1)], Some((6, 2, 0, FILE))),
    (&[(3, 0, 1)], Some((6, 3, 0, FILE))),
    (&[(6, 0, 5)], Some((6, 6, 0, FILE))),
    (&[(7, 0, 4)], Some((6, 7, 0, FILE))),
    // from the calls to a row
    (&[(0, 1, 1)], Some((6, 0, 1, FILE))),
    (&[(0, 1, 3)], Some((6, 0, 1, FILE))),
    (&[(5, 0, 2)], Some((6, 5, 0, FILE))),
    (&[(7, 0, 3)], Some((6, 7, 0, FILE))),
    // from the rows to a call, which is no row
    (&[(3, 0, 4)], Some((5, 4, 1, FILE))),
    (&[(0, 0, 4)], Some((5, 4, 1, FILE))),
    (&[(1, 0, 7)], Some((5, 7, 1, FILE))),
];

static KINDS: [Case; 19] = [
    // either kind of row, and every kind of call
    (&[(1, 1, 1), (3, 1, 2)], ACCEPTED),
    (&[(4, 1, 4)], ACCEPTED),
    (&[(5, 1, 3)], ACCEPTED),
    (&[(7, 1, 5)], ACCEPTED),
    (&[(1, 1, 0)], Some((5, 1, 1, FILE))),
    (&[(2, 1, 3)], Some((5, 2, 1, FILE))),
    (&[(3, 1, 5)], Some((5, 3, 1, FILE))),
    (&[(1, 1, 6)], Some((5, 1, 1, FILE))),
    (&[(2, 1, -1)], Some((5, 2, 1, FILE))),
    (&[(3, 1, 257)], Some((5, 3, 1, FILE))),
    (&[(4, 1, 0)], Some((5, 4, 1, FILE))),
    (&[(5, 1, 1)], Some((5, 5, 1, FILE))),
    (&[(6, 1, 2)], Some((5, 6, 1, FILE))),
    (&[(7, 1, 6)], Some((5, 7, 1, FILE))),
    (&[(4, 1, -3)], Some((5, 4, 1, FILE))),
    // families
    (&[(0, 2, 2)], ACCEPTED),
    (&[(0, 2, 0)], Some((5, 0, 2, FILE))),
    (&[(0, 2, 3)], Some((5, 0, 2, FILE))),
    (&[(0, 2, -1)], Some((5, 0, 2, FILE))),
];

static UNUSED: [Case; 18] = [
    (&[(0, 13, 1)], Some((3, 0, 13, FILE))),
    (&[(0, 19, -1)], Some((3, 0, 19, FILE))),
    (&[(0, 14, 1), (0, 19, 1)], Some((3, 0, 14, FILE))),
    (&[(1, 12, 1)], Some((3, 1, 12, FILE))),
    (&[(3, 19, i32::MIN)], Some((3, 3, 19, FILE))),
    (&[(2, 15, 1), (2, 16, 1)], Some((3, 2, 15, FILE))),
    // a point
    (&[(4, 11, 256)], Some((3, 4, 11, FILE))),
    (&[(4, 19, 1)], Some((3, 4, 19, FILE))),
    // a split
    (&[(5, 4, 1)], Some((3, 5, 4, FILE))),
    (&[(5, 19, 1)], Some((3, 5, 19, FILE))),
    // a proof has one
    (&[(6, 19, 1)], Some((3, 6, 19, FILE))),
    (&[(7, 19, -1)], Some((3, 7, 19, FILE))),
    // the last words in use, whose numbers are judged when the call is made
    (&[(4, 10, 1)], ACCEPTED),
    (&[(5, 3, 99)], ACCEPTED),
    (&[(6, 18, 1)], ACCEPTED),
    (&[(4, 2, 0), (5, 2, -1), (6, 2, 0), (7, 2, 1_001)], ACCEPTED),
    // the words that another kind does not use
    (&[(6, 1, 5)], Some((3, 6, 5, FILE))),
    (&[(6, 1, 3), (6, 11, 1)], Some((3, 6, 11, FILE))),
];

/// Word w of record 0 is place w - 2 of the header's list, and word w of a row is place w of its own.
static LISTS: [Case; 20] = [
    (&[(0, 3, 0)], Some((2, 0, 1, LIST))),
    (&[(0, 3, 9)], Some((2, 0, 1, LIST))),
    (&[(0, 4, -1)], Some((2, 0, 2, LIST))),
    (&[(0, 4, 1_000_001)], Some((2, 0, 2, LIST))),
    (&[(0, 4, 1_000_000)], ACCEPTED),
    // squares has no rates, linear as many as quantities
    (&[(0, 5, 1)], Some((3, 0, 3, LIST))),
    (&[(0, 12, 1)], Some((3, 0, 10, LIST))),
    (&[(0, 2, 2), (0, 5, 50), (0, 6, -50)], ACCEPTED),
    (&[(0, 2, 2), (0, 5, 51)], Some((2, 0, 3, LIST))),
    (&[(0, 2, 2), (0, 6, -51)], Some((2, 0, 4, LIST))),
    (&[(0, 2, 2), (0, 7, 1)], Some((3, 0, 5, LIST))),
    // rows
    (&[(1, 2, -10_001)], Some((2, 1, 2, LIST))),
    (&[(2, 3, 10_001)], Some((2, 2, 3, LIST))),
    (&[(3, 4, 51)], Some((2, 3, 4, LIST))),
    (&[(2, 5, -51)], Some((2, 2, 5, LIST))),
    (&[(3, 6, 1)], Some((3, 3, 6, LIST))),
    (&[(1, 11, 1)], Some((3, 1, 11, LIST))),
    (&[(1, 2, 4)], Some((4, 1, 3, LIST))),
    // fewer quantities than the rows have coefficients for
    (&[(0, 3, 1)], Some((3, 2, 5, LIST))),
    (&[(0, 0, 3), (0, 3, 1)], Some((3, 3, 5, LIST))),
];

static ORDER: [Case; 20] = [
    // in record 0: the links, the family, unused words, the list
    (
        &[(0, 0, 8), (0, 1, 8), (0, 2, 0), (0, 13, 1), (0, 3, 0)],
        Some((6, 0, 0, FILE)),
    ),
    (
        &[(0, 1, 8), (0, 2, 0), (0, 13, 1), (0, 3, 0)],
        Some((6, 0, 1, FILE)),
    ),
    (&[(0, 2, 0), (0, 13, 1), (0, 3, 0)], Some((5, 0, 2, FILE))),
    (&[(0, 13, 1), (0, 3, 0)], Some((3, 0, 13, FILE))),
    (&[(0, 3, 0), (0, 12, 1)], Some((2, 0, 1, LIST))),
    // record 0 before the rows, and the rows before the calls
    (&[(0, 3, 0), (1, 1, 0)], Some((2, 0, 1, LIST))),
    (&[(3, 2, 10_001), (4, 1, 0)], Some((2, 3, 2, LIST))),
    (&[(3, 0, 8), (4, 1, 0)], Some((6, 3, 0, FILE))),
    // that the first call is a row shows after the rows, that it is outside the file before them
    (&[(0, 1, 1), (3, 1, 0)], Some((5, 3, 1, FILE))),
    (&[(0, 1, 8), (1, 1, 0)], Some((6, 0, 1, FILE))),
    // in a row: the kind, unused words, the list, the link
    (
        &[(1, 1, 0), (1, 12, 1), (1, 2, 10_001), (1, 0, 8)],
        Some((5, 1, 1, FILE)),
    ),
    (
        &[(1, 12, 1), (1, 2, 10_001), (1, 0, 8)],
        Some((3, 1, 12, FILE)),
    ),
    (&[(1, 2, 10_001), (1, 0, 8)], Some((2, 1, 2, LIST))),
    (&[(1, 0, 8), (2, 1, 0)], Some((6, 1, 0, FILE))),
    // in a call: the kind, unused words, the link
    (&[(4, 1, 0), (4, 11, 1), (4, 0, 8)], Some((5, 4, 1, FILE))),
    (&[(4, 11, 1), (4, 0, 8)], Some((3, 4, 11, FILE))),
    (&[(4, 0, 8), (5, 1, 0)], Some((6, 4, 0, FILE))),
    // by the chain and not by the records' numbers: 2, 1, 3 and 6, 4, 7
    (
        &[(0, 0, 2), (2, 0, 1), (1, 0, 3), (1, 1, 0), (2, 1, 0)],
        Some((5, 2, 1, FILE)),
    ),
    (
        &[(0, 1, 6), (6, 0, 4), (4, 0, 7), (4, 1, 0), (6, 19, 1)],
        Some((3, 6, 19, FILE)),
    ),
    // with no fault twice
    (
        &[
            (0, 0, 2),
            (2, 0, 1),
            (1, 0, 3),
            (0, 1, 6),
            (6, 0, 4),
            (4, 0, 7),
        ],
        ACCEPTED,
    ),
];

/// Records that no chain reaches are not judged.
static UNREACHED: [Case; 4] = [
    (
        &[(0, 0, 2), (1, 0, -1), (1, 1, 9), (1, 2, 10_001), (1, 19, 1)],
        ACCEPTED,
    ),
    (&[(2, 0, 0), (3, 0, 99), (3, 1, 0), (3, 12, 1)], ACCEPTED),
    (&[(4, 0, 6), (5, 0, 5), (5, 1, -1), (5, 19, 1)], ACCEPTED),
    (
        &[(4, 0, 6), (5, 0, 5), (6, 1, -1), (5, 19, 1)],
        Some((5, 6, 1, FILE)),
    ),
];

fn check_cases(rt: &impl Abort, cases: &[Case]) {
    for (changes, answer) in cases {
        let mut bytes = [0; 640];
        put_file(&changed(changes), &mut bytes);
        assert_eq!(rt; answer_to(&bytes), *answer, "{changes:?}");
    }
}

#[test]
fn links(rt: HostRuntime) {
    check_cases(&rt, &LINKS);
}

#[test]
fn kinds(rt: HostRuntime) {
    check_cases(&rt, &KINDS);
}

#[test]
fn unused_words(rt: HostRuntime) {
    check_cases(&rt, &UNUSED);
}

#[test]
fn lists(rt: HostRuntime) {
    check_cases(&rt, &LISTS);
}

#[test]
fn order_of_faults(rt: HostRuntime) {
    check_cases(&rt, &ORDER);
}

#[test]
fn unreached_records(rt: HostRuntime) {
    check_cases(&rt, &UNREACHED);
}
