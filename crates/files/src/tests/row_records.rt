// As many rows as a draft holds, and one more.
use super::{ACCEPTED, Answer, Record, SEARCH, answer_to, padded, put_file};

// A plain row of zeros.
fn row(link: i32) -> Record {
    padded(&[link, 1])
}

// The answer to a chain of rows down from record 17, in which record 2 has this link.
fn answer_with(link: i32) -> Answer {
    let records: [Record; 18] = [
        padded(&[17, 0, 1, 2]),
        row(0),
        row(link),
        row(2),
        row(3),
        row(4),
        row(5),
        row(6),
        row(7),
        row(8),
        row(9),
        row(10),
        row(11),
        row(12),
        row(13),
        row(14),
        row(15),
        row(16),
    ];
    let mut bytes = [0; 1_440];
    put_file(&records, &mut bytes);
    answer_to(&bytes)
}

// The chain ends in record 2 with sixteen rows; record 1 is the seventeenth.
#[test]
fn a_seventeenth_row(rt: HostRuntime) {
    assert_eq!(rt; answer_with(0), ACCEPTED);
    assert_eq!(rt; answer_with(1), Some((11, 1, 0, SEARCH)));
}
