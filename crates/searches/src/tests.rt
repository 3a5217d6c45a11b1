// How the tests write problems, lists, outcomes and endings.
use family::Family;
use family::fault::{Denial, Fault, Layer, ListFault};
use family::gap::Gap;
use family::judgement::Judgement;
use linear::linear_costs::LinearCosts;
use problem::cost::{Cost, Linear, Squares};
use problem::draft::Draft;
use search::outcome::Accepted;
use search::report::{Report, Verdict};
use search::search::Search;
use squares::least_squares::LeastSquares;
use std::process::Abort;
use std::test::Fail;

mod calls;
mod denials;
mod runs;
mod sizes;

const LIST: Layer = Layer::List;

const FAMILY: Layer = Layer::Family;

const SEARCH: Layer = Layer::Search;

const STOPPED: Verdict = Verdict::Stopped;

const BEST: Verdict = Verdict::Best;

const NOTHING: Verdict = Verdict::Nothing;

/// The number, the place and the layer of a denial.
type Denied = (u8, usize, Layer);

/// The verdict, the cost, and the counts of open nodes, of splits and of closed nodes.
type Ending = (Verdict, Option<(i64, i64)>, usize, u32, u32);

/// What became of an offer.
type Told = Result<Accepted, Denied>;

const SPLIT: Told = Ok(Accepted::Split);

const VOID: Told = Ok(Accepted::Closed(Judgement::Void));

fn taken(numerator: i64, denominator: i64) -> Told {
    Ok(Accepted::Taken((numerator, denominator)))
}

fn kept(numerator: i64, denominator: i64) -> Told {
    Ok(Accepted::Kept((numerator, denominator)))
}

fn bound(numerator: i64, denominator: i64) -> Told {
    Ok(Accepted::Closed(Judgement::Bound((numerator, denominator))))
}

/// What stands in a place for outcomes before a run. No call of a search is answered this.
const UNTOUCHED: Result<Accepted, Fault> = Err(Fault::List(ListFault::Kind));

// The numbers, and then zeros up to N.
// Also in the tests of files: a crate for two small functions would be no plainer.
fn padded<const N: usize>(numbers: &[i32]) -> [i32; N] {
    let mut list = [0; N];
    for (place, number) in list.iter_mut().zip(numbers) {
        *place = *number;
    }
    list
}

fn point(numbers: &[i32]) -> [i32; 9] {
    padded(numbers)
}

fn proof(numbers: &[i32]) -> [i32; 17] {
    padded(numbers)
}

// Also in the tests of limits: a crate for two small functions would be no plainer.
fn denial_of(fault: Fault) -> Denied {
    let Denial {
        number,
        place,
        layer,
    } = fault.denial();
    (number, place, layer)
}

fn passed<T>(res: Result<T, Fault>) -> Result<T, Denied> {
    res.map_err(denial_of)
}

// The program `selector` makes its sample alike: a crate for one small function would be no plainer.
fn drafted<C: Cost + Drop>(cost: C, header: &[i32], rows: &[[i32; 11]]) -> Result<Draft<C>, Fault> {
    let mut draft = Draft::new(cost);
    draft.header(header)?;
    for row in rows {
        draft.add_row(row)?;
    }
    Ok(draft)
}

fn squares(header: &[i32], rows: &[[i32; 11]]) -> Result<(LeastSquares, Gap), Denied> {
    let draft = passed(drafted(Squares, &padded::<10>(header), rows))?;
    Ok(LeastSquares::from_draft(draft))
}

// Switches 0 to 3 and 0 to 4 on the two quantities, and their sum from an end on.
fn sample_rows(end: i32) -> [[i32; 11]; 3] {
    [
        padded(&[2, 0, 3, 1]),
        padded(&[2, 0, 4, 0, 1]),
        padded(&[1, end, 10_000, 1, 1]),
    ]
}

// The sample problem of the squares, the sum from 3 on.
fn sample(gap: i32) -> Result<(LeastSquares, Gap), Denied> {
    squares(&[2, gap], &sample_rows(3))
}

// The same with the sum from 8 on, which no point reaches: the switches add up to 7.
fn empty_sample() -> Result<(LeastSquares, Gap), Denied> {
    squares(&[2, 0], &sample_rows(8))
}

// The sample problem at the rates 2 and 1.
fn linear_sample() -> Result<(LinearCosts, Gap), Denied> {
    let header: [i32; 10] = padded(&[2, 0, 2, 1]);
    let draft = passed(drafted(Linear, &header, &sample_rows(3)))?;
    Ok(LinearCosts::from_draft(draft))
}

fn check_told(rt: &impl Abort, res: Result<Accepted, Fault>, expected: Told) -> Result<(), Fail> {
    assert_eq!(rt; passed(res), expected);
    Ok(())
}

fn check_outcomes<const N: usize>(
    rt: &impl Abort,
    outcomes: [Result<Accepted, Fault>; N],
    expected: [Told; N],
) -> Result<(), Fail> {
    for (index, (outcome, expected)) in outcomes.iter().zip(&expected).enumerate() {
        assert_eq!(rt; passed(*outcome), *expected, "outcome {index}");
    }
    Ok(())
}

fn check_report(rt: &impl Abort, report: Report, expected: Ending) {
    let ending = (
        report.verdict,
        report.cost,
        report.open,
        report.splits,
        report.closed,
    );
    assert_eq!(rt; ending, expected);
}

// Stops a search and checks its report and the numbers of its point.
fn check_end<F: Family + Drop>(
    rt: &impl Abort,
    search: Search<F>,
    expected: Ending,
    numbers: &[i32],
) -> Result<(), Fail> {
    let mut place = [7; 9];
    let stopped = search.stop();
    check_report(rt, passed(stopped.read(&mut place))?, expected);
    assert_eq!(rt; place, point(numbers));
    Ok(())
}
