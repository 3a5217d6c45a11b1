// Whole searches at once.
use super::{
    BEST, LIST, NOTHING, SPLIT, STOPPED, UNTOUCHED, VOID, bound, check_outcomes, check_report,
    denial_of, empty_sample, linear_sample, passed, point, proof, sample, taken,
};
use family::fault::Fault;
use search::offer::Offer;
use search::outcome::Accepted;
use search::run::run;
use std::process::Abort;
use std::test::Fail;

// A point, a split of the root at a row with the lower side named, and a proof for each half.
fn halved<'a>(found: &'a [i32], row: i32, lower: &'a [i32], upper: &'a [i32]) -> [Offer<'a>; 4] {
    [
        Offer::Point(found),
        Offer::Split { row, side: 0 },
        Offer::Proof(lower),
        Offer::Proof(upper),
    ]
}

// Lower: the sum is at least 3 with the first quantity 0, so the bound is 9. Upper: the first quantity is 3.
#[test]
fn the_sample_is_settled(rt: HostRuntime) -> Result<(), Fail> {
    let (family, gap) = sample(0)?;
    let found = point(&[1, 3, 0]);
    let lower = proof(&[1, 3, 0, -3]);
    let upper = proof(&[1, -3]);
    let offers = halved(&found, 1, &lower, &upper);
    let mut outcomes = [UNTOUCHED; 4];
    let ended = passed(run(family, gap, &offers, &mut outcomes))?;
    let expected = [taken(9, 1), SPLIT, bound(9, 1), bound(9, 1)];
    check_outcomes(&rt, outcomes, expected)?;
    check_report(&rt, ended.report, (BEST, Some((9, 1)), 0, 1, 2));
    assert_eq!(rt; ended.point, [1, 3, 0, 0, 0, 0, 0, 0, 0]);
    Ok(())
}

// Lower: the first quantity alone has to make 3, at 2 each. Upper: the second is 4, at 1 each.
#[test]
fn the_linear_sample_is_settled(rt: HostRuntime) -> Result<(), Fail> {
    let (family, gap) = linear_sample()?;
    let found = point(&[1, 0, 4]);
    let lower = proof(&[1, 0, 1, -2]);
    let upper = proof(&[1, -2, -1]);
    let offers = halved(&found, 2, &lower, &upper);
    let mut outcomes = [UNTOUCHED; 4];
    let ended = passed(run(family, gap, &offers, &mut outcomes))?;
    let expected = [taken(4, 1), SPLIT, bound(6, 1), bound(4, 1)];
    check_outcomes(&rt, outcomes, expected)?;
    check_report(&rt, ended.report, (BEST, Some((4, 1)), 0, 1, 2));
    assert_eq!(rt; ended.point, [1, 0, 4, 0, 0, 0, 0, 0, 0]);
    Ok(())
}

// The switches add up to 7 at most, and 8 is asked: the level is 3 + 4 - 8.
#[test]
fn no_point_is_admitted(rt: HostRuntime) -> Result<(), Fail> {
    let (family, gap) = empty_sample()?;
    let void = proof(&[1, 1, 1, -1]);
    let mut outcomes = [UNTOUCHED; 1];
    let ended = passed(run(family, gap, &[Offer::Proof(&void)], &mut outcomes))?;
    check_outcomes(&rt, outcomes, [VOID])?;
    check_report(&rt, ended.report, (NOTHING, None, 0, 0, 1));
    assert_eq!(rt; ended.point, [0; 9]);
    Ok(())
}

#[test]
fn a_run_is_stopped(rt: HostRuntime) -> Result<(), Fail> {
    let (family, gap) = sample(0)?;
    let found = point(&[1, 3, 0]);
    let offers = [Offer::Point(&found), Offer::Split { row: 1, side: 0 }];
    let mut outcomes = [UNTOUCHED; 2];
    let ended = passed(run(family, gap, &offers, &mut outcomes))?;
    check_outcomes(&rt, outcomes, [taken(9, 1), SPLIT])?;
    check_report(&rt, ended.report, (STOPPED, Some((9, 1)), 2, 1, 0));
    assert_eq!(rt; ended.point, [1, 3, 0, 0, 0, 0, 0, 0, 0]);
    Ok(())
}

// Two offers, and a place that is not for two.
fn check_refused(rt: &impl Abort, place: &mut [Result<Accepted, Fault>]) -> Result<(), Fail> {
    let (family, gap) = sample(0)?;
    let found = point(&[1, 3, 0]);
    let offers = [Offer::Point(&found), Offer::Split { row: 1, side: 0 }];
    let Err(fault) = run(family, gap, &offers, place) else {
        return Err(Fail::new("the place was taken"));
    };
    assert_eq!(rt; denial_of(fault), (1, 0, LIST));
    Ok(())
}

// A place that is longer or shorter than the offers is left as it was.
#[test]
fn a_place_of_another_length(rt: HostRuntime) -> Result<(), Fail> {
    let mut long = [UNTOUCHED; 3];
    check_refused(&rt, &mut long)?;
    check_outcomes(&rt, long, [Err((5, 1, LIST)); 3])?;
    let mut short = [UNTOUCHED; 1];
    check_refused(&rt, &mut short)?;
    check_outcomes(&rt, short, [Err((5, 1, LIST)); 1])
}

/// What the verdicts are as numbers.
#[test]
fn verdicts_keep_their_numbers(rt: HostRuntime) {
    assert_eq!(rt; STOPPED as u8, 0);
    assert_eq!(rt; BEST as u8, 1);
    assert_eq!(rt; NOTHING as u8, 2);
}
