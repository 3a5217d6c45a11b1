// Every denial that a search gives, and that a denied call leaves the search as it was.
use super::{
    Denied, FAMILY, LIST, NOTHING, SEARCH, SPLIT, STOPPED, VOID, bound, check_end, check_report,
    check_told, denial_of, empty_sample, linear_sample, passed, point, proof, sample, taken,
};
use family::fault::Fault;
use search::search::Search;
use std::process::Abort;
use std::test::Fail;

/// Numbers that zeros follow, and the denial of the list.
type Case = (&'static [i32], Denied);

/// A point with its first quantity at 3 is stopped by no row; with both at 0 the third row stops it.
static POINTS: [Case; 5] = [
    (&[0, 3, 0], (2, 1, LIST)),
    (&[1, 3, 1_000_001], (2, 3, LIST)),
    (&[1, 3, 0, 1], (3, 4, LIST)),
    (&[1, 0, 0], (7, 3, FAMILY)),
    (&[2, 3, 3], (7, 1, FAMILY)),
];

/// The last one bounds 18/4, which is less than 9 by more than 4.
static PROOFS: [Case; 4] = [
    (&[0, 0, 0, -3], (2, 1, LIST)),
    (&[2, 0, 0, -1_001], (2, 4, LIST)),
    (&[2, 0, 0, -3, 1], (3, 5, LIST)),
    (&[2, 0, 0, -3], (14, 0, SEARCH)),
];

/// A row, a side and the denial of the split.
static SPLITS: [(i32, i32, Denied); 6] = [
    (0, 0, (2, 1, LIST)),
    (4, 0, (2, 1, LIST)),
    (1, 2, (2, 2, LIST)),
    (1, -1, (2, 2, LIST)),
    (3, 0, (9, 1, SEARCH)),
    (1, 1, (13, 1, SEARCH)),
];

fn check_denied<T: Drop>(
    rt: &impl Abort,
    res: Result<T, Fault>,
    expected: Denied,
) -> Result<(), Fail> {
    let Err(fault) = res else {
        return Err(Fail::new("the call was accepted"));
    };
    assert_eq!(rt; denial_of(fault), expected);
    Ok(())
}

#[test]
fn points(rt: HostRuntime) -> Result<(), Fail> {
    let (family, gap) = sample(0)?;
    let mut search = Search::open(family, gap);
    check_denied(&rt, search.point(&[1, 3, 0]), (1, 0, LIST))?;
    for (numbers, expected) in &POINTS {
        check_denied(&rt, search.point(&point(numbers)), *expected)?;
    }
    check_end(&rt, search, (STOPPED, None, 1, 0, 0), &[])
}

#[test]
fn proofs(rt: HostRuntime) -> Result<(), Fail> {
    let (family, gap) = sample(4)?;
    let mut search = Search::open(family, gap);
    check_told(&rt, search.point(&point(&[1, 3, 0])), taken(9, 1))?;
    check_denied(&rt, search.proof(&[2, 0, 0, -3]), (1, 0, LIST))?;
    for (numbers, expected) in &PROOFS {
        check_denied(&rt, search.proof(&proof(numbers)), *expected)?;
    }
    check_end(&rt, search, (STOPPED, Some((9, 1)), 1, 0, 0), &[1, 3, 0])
}

// 18/4 is at least 9 - 5, and no bound closes while no point is held.
#[test]
fn a_bound_within_the_gap_closes(rt: HostRuntime) -> Result<(), Fail> {
    let (family, gap) = sample(5)?;
    let mut search = Search::open(family, gap);
    let list = proof(&[2, 0, 0, -3]);
    check_denied(&rt, search.proof(&list), (14, 0, SEARCH))?;
    check_told(&rt, search.point(&point(&[1, 3, 0])), taken(9, 1))?;
    check_told(&rt, search.proof(&list), bound(18, 4))
}

#[test]
fn a_column_off_balance(rt: HostRuntime) -> Result<(), Fail> {
    let (family, gap) = linear_sample()?;
    let mut search = Search::open(family, gap);
    check_denied(&rt, search.proof(&proof(&[1])), (8, 1, FAMILY))?;
    check_end(&rt, search, (STOPPED, None, 1, 0, 0), &[])
}

#[test]
fn splits(rt: HostRuntime) -> Result<(), Fail> {
    let (family, gap) = sample(0)?;
    let mut search = Search::open(family, gap);
    check_told(&rt, search.split(1, 0), SPLIT)?;
    for (row, side, expected) in &SPLITS {
        check_denied(&rt, search.split(*row, *side), *expected)?;
    }
    check_end(&rt, search, (STOPPED, None, 2, 1, 0), &[])
}

#[test]
fn no_node_is_open(rt: HostRuntime) -> Result<(), Fail> {
    let (family, gap) = empty_sample()?;
    let mut search = Search::open(family, gap);
    let void = proof(&[1, 1, 1, -1]);
    check_denied(&rt, search.advise(&[2, 3, 3]), (1, 0, LIST))?;
    check_told(&rt, search.proof(&void), VOID)?;
    check_denied(&rt, search.proof(&void), (12, 0, SEARCH))?;
    check_denied(&rt, search.split(1, 0), (12, 0, SEARCH))?;
    check_denied(&rt, search.advise(&point(&[2, 3, 3])), (12, 0, SEARCH))?;
    // A point needs no open node: this one is stopped by the third row.
    check_denied(&rt, search.point(&point(&[1, 3, 4])), (7, 3, FAMILY))?;
    check_end(&rt, search, (NOTHING, None, 0, 0, 1), &[])
}

// A place of another length is left as it was, and the search can still be read.
#[test]
fn a_short_place(rt: HostRuntime) -> Result<(), Fail> {
    let (family, gap) = sample(0)?;
    let stopped = Search::open(family, gap).stop();
    let mut short = [7; 8];
    check_denied(&rt, stopped.read(&mut short), (1, 0, LIST))?;
    assert_eq!(rt; short, [7; 8]);
    let mut place = [7; 9];
    check_report(
        &rt,
        passed(stopped.read(&mut place))?,
        (STOPPED, None, 1, 0, 0),
    );
    assert_eq!(rt; place, [0; 9]);
    Ok(())
}
