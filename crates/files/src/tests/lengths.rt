// Files of every kind of length.
use super::{ACCEPTED, Answer, FILE, answer_to, padded, put_file};

const LARGEST: usize = 65_600;

/// A length, the first call record, and the answer to record 0 with zeros after it.
static LENGTHS: [(usize, i32, Answer); 15] = [
    (80, 0, ACCEPTED),
    (160, 0, ACCEPTED),
    (65_520, 0, ACCEPTED),
    // no whole number of records from 1 to 819
    (0, 0, Some((1, 0, 0, FILE))),
    (1, 0, Some((1, 0, 0, FILE))),
    (79, 0, Some((1, 0, 0, FILE))),
    (81, 0, Some((1, 0, 0, FILE))),
    (65_519, 0, Some((1, 0, 0, FILE))),
    (65_521, 0, Some((1, 0, 0, FILE))),
    (65_600, 0, Some((1, 0, 0, FILE))),
    // the length is judged before a link
    (81, 2, Some((1, 0, 0, FILE))),
    // the last record, whose kind is 0, and the one past it
    (160, 1, Some((5, 1, 1, FILE))),
    (160, 2, Some((6, 0, 1, FILE))),
    (65_520, 818, Some((5, 818, 1, FILE))),
    (65_520, 819, Some((6, 0, 1, FILE))),
];

#[test]
fn lengths(rt: HostRuntime) {
    for (length, first, answer) in &LENGTHS {
        let mut buffer = [0; LARGEST];
        assert!(rt; *length <= LARGEST);
        put_file(&[padded(&[0, *first, 1, 2])], &mut buffer);
        assert_eq!(rt;
            answer_to(&buffer[..*length]),
            *answer,
            "{length} bytes, first call {first}"
        );
    }
}
