// What is printed of a file.
use super::{Changes, Record, changed, padded, put_file, sample};
use judge::judging::judge;
use std::process::Abort;
use std::test::Fail;

/// Changes to the sample, the lines of its calls and the last line.
type Case = (Changes, &'static [&'static str], &'static str);

static SETTLED: [&'static str; 4] = [
    "1 point taken 9/1",
    "2 split done",
    "3 proof closed 9/1",
    "4 proof closed 9/1",
];

static BEST: &'static str = "best 9/1 point 3/1 0/1 open 0 splits 1 closed 2";

static CASES: [Case; 9] = [
    // at the rates 2 and 1: the point 0, 4, a split at the second row; one half costs 6 at least, the other 4
    (
        &[
            (0, 2, 2),
            (0, 5, 2),
            (0, 6, 1),
            (4, 3, 0),
            (4, 4, 4),
            (5, 2, 2),
            (6, 3, 0),
            (6, 4, 1),
            (6, 5, -2),
            (7, 3, -2),
            (7, 4, -1),
        ],
        &[
            "1 point taken 4/1",
            "2 split done",
            "3 proof closed 6/1",
            "4 proof closed 4/1",
        ],
        "best 4/1 point 0/1 4/1 open 0 splits 1 closed 2",
    ),
    // the sum from 8 on, which the switches do not reach
    (
        &[(3, 2, 8), (0, 1, 7), (7, 3, 1), (7, 4, 1), (7, 5, -1)],
        &["1 proof closed void"],
        "none - point - open 0 splits 0 closed 1",
    ),
    // the same, and a call more when no node is open
    (
        &[
            (3, 2, 8),
            (0, 1, 7),
            (7, 3, 1),
            (7, 4, 1),
            (7, 5, -1),
            (7, 0, 5),
            (5, 0, 0),
        ],
        &["1 proof closed void", "2 split denied 12 0"],
        "none - point - open 0 splits 0 closed 1",
    ),
    (
        &[(0, 1, 0)],
        &[],
        "stopped - point - open 1 splits 0 closed 0",
    ),
    // no bound closes while no point is held
    (
        &[(0, 1, 7)],
        &["1 proof denied 14 0"],
        "stopped - point - open 1 splits 0 closed 0",
    ),
    (
        &[(0, 1, 5), (5, 0, 0), (5, 2, 0)],
        &["1 split denied 2 1"],
        "stopped - point - open 1 splits 0 closed 0",
    ),
    // the third row stops the point 0, 0
    (
        &[(4, 0, 0), (4, 3, 0)],
        &["1 point denied 7 3"],
        "stopped - point - open 1 splits 0 closed 0",
    ),
    // 6/2, 0/2 is no cheaper, and the denied filler comes third
    (
        &[
            (4, 0, 5),
            (5, 1, 3),
            (5, 2, 2),
            (5, 3, 6),
            (6, 1, 3),
            (6, 5, 1),
            (6, 0, 0),
        ],
        &[
            "1 point taken 9/1",
            "2 point kept 36/4",
            "3 point denied 3 4",
        ],
        "stopped 9/1 point 3/1 0/1 open 1 splits 0 closed 0",
    ),
    // a bound of 18/4 is within the gap of 5
    (
        &[(0, 4, 5), (4, 0, 7), (7, 2, 2), (7, 3, 0), (7, 5, -3)],
        &["1 point taken 9/1", "2 proof closed 18/4"],
        "best 9/1 point 3/1 0/1 open 0 splits 0 closed 1",
    ),
];

fn check_text(
    rt: &(impl Abort + AllocGlobal),
    records: &[Record],
    lines: &[&'static str],
    last: &str,
    changes: Changes,
) -> Result<(), Fail> {
    let mut buffer = [0; 1_440];
    let length = records.len();
    assert!(rt; length <= 18);
    put_file(records, &mut buffer);
    let Ok(judged) = judge(&buffer[..80 * length]) else {
        return Err(Fail::new("the file was refused"));
    };
    for (index, expected) in lines.iter().enumerate() {
        let Some(line) = judged.line(index) else {
            return Err(Fail::new("a line is missing"));
        };
        let text = line.to_string(rt.alloc())?;
        assert_eq!(rt; text.as_str(), *expected, "{changes:?}");
    }
    assert!(rt; judged.line(lines.len()).is_none(), "{changes:?}");
    let text = judged.last_line().to_string(rt.alloc())?;
    assert_eq!(rt; text.as_str(), last, "{changes:?}");
    Ok(())
}

#[test]
fn the_sample_is_judged(rt: HostRuntime) -> Result<(), Fail> {
    check_text(&rt, &sample(), &SETTLED, BEST, &[])
}

// The sample's records in another order, with two that no chain reaches.
#[test]
fn a_shuffled_file_is_judged_the_same(rt: HostRuntime) -> Result<(), Fail> {
    let shuffled: [Record; 10] = [
        padded(&[7, 3, 1, 2, 0]),
        padded(&[6, 4, 1, 3, 0, -3]),
        padded(&[5, 2, 0, 4, 0, 1]),
        padded(&[8, 3, 1, 3, 0]),
        [7; 20],
        padded(&[0, 1, 3, 10_000, 1, 1]),
        padded(&[0, 4, 1, -3]),
        padded(&[2, 2, 0, 3, 1]),
        padded(&[1, 5, 1, 0]),
        [-1; 20],
    ];
    check_text(&rt, &shuffled, &SETTLED, BEST, &[])
}

#[test]
fn changed_samples_are_judged(rt: HostRuntime) -> Result<(), Fail> {
    for (changes, lines, last) in &CASES {
        check_text(&rt, &changed(changes), lines, last, changes)?;
    }
    Ok(())
}

#[test]
fn a_refusal_is_printed(rt: HostRuntime) -> Result<(), Fail> {
    let mut bytes = [0; 640];
    put_file(&changed(&[(3, 6, 1)]), &mut bytes);
    let Err(fault) = judge(&bytes) else {
        return Err(Fail::new("the file was accepted"));
    };
    let text = fault.to_string(rt.alloc())?;
    assert_eq!(rt; text.as_str(), "refused 3 3 6");
    Ok(())
}
