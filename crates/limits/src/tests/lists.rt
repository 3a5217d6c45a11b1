// Points and proofs at their limits.
use super::{Answer, Changes, LIST, TAKEN, answer_to, check_answer, list_of};
use family::point::Point;
use family::proof::Proof;

/// How many numbers after the first are in use, a list, and the answer to it.
type Case = (usize, Changes, Answer);

/// A denominator from 1 to 1,000, then numerators from -1,000,000 to 1,000,000, and fillers up to nine numbers.
static POINTS: [Case; 19] = [
    (3, &[(2, -1_000_000), (4, 1_000_000)], TAKEN),
    (3, &[(1, 1_000), (2, 1_000_000)], TAKEN),
    (8, &[(8, 1_000_000), (9, -1_000_000)], TAKEN),
    // one past a limit
    (3, &[(1, 0)], Some((2, 1, LIST))),
    (3, &[(1, 1_001)], Some((2, 1, LIST))),
    (3, &[(1, i32::MIN)], Some((2, 1, LIST))),
    (3, &[(2, -1_000_001)], Some((2, 2, LIST))),
    (3, &[(2, 1_000_001)], Some((2, 2, LIST))),
    (3, &[(4, -1_000_001)], Some((2, 4, LIST))),
    (8, &[(9, 1_000_001)], Some((2, 9, LIST))),
    // a filler that is not 0, whatever its size
    (3, &[(5, 1)], Some((3, 5, LIST))),
    (3, &[(5, -1_000_001)], Some((3, 5, LIST))),
    (1, &[(3, 1_000_001)], Some((3, 3, LIST))),
    (7, &[(9, -1)], Some((3, 9, LIST))),
    // the first fault from the left
    (3, &[(1, 0), (2, 1_000_001)], Some((2, 1, LIST))),
    (3, &[(1, 1_001), (9, 1)], Some((2, 1, LIST))),
    (3, &[(3, 1_000_001), (4, 1_000_001)], Some((2, 3, LIST))),
    (3, &[(4, -1_000_001), (5, 1)], Some((2, 4, LIST))),
    (3, &[(6, 1), (9, 1_000_001)], Some((3, 6, LIST))),
];

/// A scale from 1 to 1,000, then multipliers from -1,000 to 1,000, and fillers up to seventeen numbers.
static PROOFS: [Case; 19] = [
    (2, &[(2, -1_000), (3, 1_000)], TAKEN),
    (2, &[(1, 1_000), (2, 1_000)], TAKEN),
    (16, &[(16, 1_000), (17, -1_000)], TAKEN),
    (0, &[], TAKEN),
    // one past a limit
    (2, &[(1, 0)], Some((2, 1, LIST))),
    (2, &[(1, 1_001)], Some((2, 1, LIST))),
    (2, &[(2, -1_001)], Some((2, 2, LIST))),
    (2, &[(2, 1_001)], Some((2, 2, LIST))),
    (2, &[(3, -1_001)], Some((2, 3, LIST))),
    (16, &[(17, 1_001)], Some((2, 17, LIST))),
    // a filler that is not 0, whatever its size
    (2, &[(4, 1)], Some((3, 4, LIST))),
    (2, &[(4, -1_001)], Some((3, 4, LIST))),
    (0, &[(2, 1_001)], Some((3, 2, LIST))),
    (15, &[(17, -1)], Some((3, 17, LIST))),
    // the first fault from the left
    (2, &[(1, 0), (2, 1_001)], Some((2, 1, LIST))),
    (2, &[(1, 1_001), (17, 1)], Some((2, 1, LIST))),
    (2, &[(2, 1_001), (3, 1_001)], Some((2, 2, LIST))),
    (2, &[(3, -1_001), (4, 1)], Some((2, 3, LIST))),
    (2, &[(6, 1), (17, 1_001)], Some((3, 6, LIST))),
];

// Two tests, alike: their lists differ in length, and a closure over both would be no plainer.
#[test]
fn points(rt: HostRuntime) {
    for (n, changes, answer) in &POINTS {
        check_answer(
            &rt,
            answer_to(Point::read(*n, &list_of::<9>(changes))),
            *answer,
            changes,
        );
    }
}

#[test]
fn proofs(rt: HostRuntime) {
    for (m, changes, answer) in &PROOFS {
        check_answer(
            &rt,
            answer_to(Proof::read(*m, &list_of::<17>(changes))),
            *answer,
            changes,
        );
    }
}
