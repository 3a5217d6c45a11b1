// Shows what both families answer to points and proofs of a sample problem.
#![tactic(auto)]

use family::Family;
use family::fault::Fault;
use family::fraction::Fraction;
use family::judgement::Judgement;
use family::point::Point;
use family::proof::Proof;
use family::side::Side;
use family::sides::Sides;
use family::sizes::{HEADER_NUMBERS, ROW_NUMBERS};
use linear::linear_costs::LinearCosts;
use problem::cost::{Cost, Linear, Squares};
use problem::draft::Draft;
use squares::least_squares::LeastSquares;
use std::io;

// Two quantities and the gap 0; squares have no rates, and the linear rates are 2 and 1.
const SQUARES_HEADER: [i32; HEADER_NUMBERS] = [2, 0, 0, 0, 0, 0, 0, 0, 0, 0];

const LINEAR_HEADER: [i32; HEADER_NUMBERS] = [2, 0, 2, 1, 0, 0, 0, 0, 0, 0];

// Switches 0 to 3 and 0 to 4 on the quantities, and their sum from 3 on.
const ROWS: [[i32; ROW_NUMBERS]; 3] = [
    [2, 0, 3, 1, 0, 0, 0, 0, 0, 0, 0],
    [2, 0, 4, 0, 1, 0, 0, 0, 0, 0, 0],
    [1, 3, 10_000, 1, 1, 0, 0, 0, 0, 0, 0],
];

const SQUARES_POINTS: [[i32; 3]; 4] = [[1, 3, 0], [2, 6, 0], [1, 0, 0], [2, 3, 3]];

const LINEAR_POINTS: [[i32; 3]; 1] = [[1, 0, 4]];

/// A scale and three multipliers, and the row that is fixed, counted from 1, and its side, if one is.
type OfferedProof = ([i32; 4], Option<(u8, Side)>);

const SQUARES_PROOFS: [OfferedProof; 5] = [
    ([2, 0, 0, -3], None),
    ([1, 3, 0, -3], None),
    ([1, 3, 0, -3], Some((1, Side::Lower))),
    ([1, -3, 0, 0], None),
    ([1, -3, 0, 0], Some((1, Side::Upper))),
];

const LINEAR_PROOFS: [OfferedProof; 5] = [
    ([1, -1, 0, -1], None),
    ([1, 0, 0, 0], None),
    ([1, 0, 1, -2], Some((2, Side::Lower))),
    ([1, -2, -1, 0], None),
    ([1, -2, -1, 0], Some((2, Side::Upper))),
];

// The sample problem as a draft of a cost. The tests of searches make theirs alike: a crate for one small function would be no
// plainer.
fn sample<C: Cost + Drop>(cost: C, header: &[i32]) -> Result<Draft<C>, Fault> {
    let mut draft = Draft::new(cost);
    draft.header(header)?;
    for row in ROWS {
        draft.add_row(&row)?;
    }
    Ok(draft)
}

// What a family answers to the point in a list, with every switch free.
fn judge_point<F: Family>(family: &F, list: &[i32]) -> Result<(i64, i64), Fault> {
    let (n, _) = family.size();
    let point = Point::read(n, list)?;
    Ok(family.judge_point(Sides::all_free(), &point)?)
}

// What a family answers to the proof in a list, under sides.
fn judge_proof<F: Family>(family: &F, sides: Sides, list: &[i32]) -> Result<Judgement, Fault> {
    let (_, m) = family.size();
    let proof = Proof::read(m, list)?;
    Ok(family.judge_proof(sides, &proof)?)
}

fn show_fault(rt: &HostRuntime, fault: Fault) -> io::Result<()> {
    let denial = fault.denial();
    println!(rt; "{denial}")
}

fn show_point<F: Family>(rt: &HostRuntime, family: &F, point: [i32; 3]) -> io::Result<()> {
    let [q, first, second] = point;
    print!(rt; "point {q}; {first}, {second} ")?;
    match judge_point(family, &[q, first, second, 0, 0, 0, 0, 0, 0]) {
        Ok(cost) => println!(rt; "costs {}", Fraction(cost)),
        Err(fault) => show_fault(rt, fault),
    }
}

// The sides with one row, counted from 1, at its side if one is fixed, and every other free.
fn sides_of(fixed: Option<(u8, Side)>) -> Sides {
    fixed.map_or(Sides::all_free(), |(row, side)| {
        Sides::all_free().fix(usize::from(row).saturating_sub(1), side)
    })
}

fn word_of(side: Side) -> &'static str {
    match side {
        Side::Lower => "lower",
        Side::Upper => "upper",
    }
}

fn show_proof<F: Family>(
    rt: &HostRuntime,
    family: &F,
    (proof, fixed): OfferedProof,
) -> io::Result<()> {
    let [s, a, b, c] = proof;
    match fixed {
        Some((row, side)) => {
            let word = word_of(side);
            print!(rt; "proof {s}; {a}, {b}, {c} with row {row} {word} ")?;
        }
        None => print!(rt; "proof {s}; {a}, {b}, {c} ")?,
    }
    let list = [s, a, b, c, 0, 0, 0, 0, 0, 0, 0, 0, 0, 0, 0, 0, 0];
    match judge_proof(family, sides_of(fixed), &list) {
        Ok(Judgement::Void) => println!(rt; "is void"),
        Ok(Judgement::Bound(bound)) => println!(rt; "bounds {}", Fraction(bound)),
        Err(fault) => show_fault(rt, fault),
    }
}

fn show_family<F: Family>(
    rt: &HostRuntime,
    family: &F,
    points: &[[i32; 3]],
    proofs: &[OfferedProof],
) -> io::Result<()> {
    for point in points {
        show_point(rt, family, *point)?;
    }
    for proof in proofs {
        show_proof(rt, family, *proof)?;
    }
    Ok(())
}

fn main(rt: HostRuntime) -> io::Result<()> {
    println!(rt; "squares")?;
    // An arm for each family: the two differ in their types, which no value can choose.
    match sample(Squares, &SQUARES_HEADER) {
        Ok(draft) => {
            let (family, _) = LeastSquares::from_draft(draft);
            show_family(&rt, &family, &SQUARES_POINTS, &SQUARES_PROOFS)?;
        }
        Err(fault) => show_fault(&rt, fault)?,
    }
    println!(rt; "linear")?;
    match sample(Linear, &LINEAR_HEADER) {
        Ok(draft) => {
            let (family, _) = LinearCosts::from_draft(draft);
            show_family(&rt, &family, &LINEAR_POINTS, &LINEAR_PROOFS)
        }
        Err(fault) => show_fault(&rt, fault),
    }
}
