// Searches call by call.
use super::{
    BEST, Denied, SEARCH, SPLIT, STOPPED, bound, check_end, check_told, kept, padded, passed,
    point, proof, sample, squares, taken,
};
use family::Family;
use family::side::Side;
use search::search::Search;
use std::test::Fail;

// The row and the side that a search advises to split at by a point.
fn advised<F: Family>(
    search: &Search<F>,
    numbers: &[i32],
) -> Result<Option<(usize, Side)>, Denied> {
    let advice = passed(search.advise(&point(numbers)))?;
    Ok(advice.map(|advice| (advice.row, advice.side)))
}

// At 3/2, 3/2 both switches are between their ends, and the middle of the first counts as lower.
#[test]
fn the_sample_is_settled_with_advice(rt: HostRuntime) -> Result<(), Fail> {
    let (family, gap) = sample(0)?;
    let mut search = Search::open(family, gap);
    check_told(&rt, search.point(&point(&[1, 3, 0])), taken(9, 1))?;
    assert_eq!(rt; advised(&search, &[2, 3, 3])?, Some((1, Side::Lower)));
    check_told(&rt, search.split(1, 0), SPLIT)?;
    assert_eq!(rt; advised(&search, &[2, 3, 3])?, Some((2, Side::Lower)));
    assert_eq!(rt; advised(&search, &[1, 0, 3])?, Some((2, Side::Upper)));
    assert_eq!(rt; advised(&search, &[1, 0, 4])?, None);
    check_told(&rt, search.proof(&proof(&[1, 3, 0, -3])), bound(9, 1))?;
    check_told(&rt, search.point(&point(&[2, 6, 0])), kept(36, 4))?;
    check_told(&rt, search.proof(&proof(&[1, -3])), bound(9, 1))?;
    check_end(&rt, search, (BEST, Some((9, 1)), 0, 1, 2), &[1, 3, 0])
}

// Every split leaves one node more, and the last has every row fixed.
#[test]
fn sixteen_switches_are_split(rt: HostRuntime) -> Result<(), Fail> {
    let (family, gap) = squares(&[1, 0], &[padded(&[2, 0, 1, 1]); 16])?;
    let mut search = Search::open(family, gap);
    for row in 1..17 {
        check_told(&rt, search.split(row, 0), SPLIT)?;
    }
    check_told(&rt, search.split(1, 0), Err((13, 1, SEARCH)))?;
    check_end(&rt, search, (STOPPED, None, 17, 16, 0), &[])
}
