// What is printed of a judged file.
ghost use Rattle.std.specs.Prelude.{◌≡◌, ℕ, ◌<◌, Some};
ghost use Rattle.judge.specs.Quantities.{quantity_of, told_point};
ghost use Rattle.judge.specs.Texts.{outcome_text, line_text, cost_text, quantity_text, quantities_text, last_text};

use family::fault::Fault;
use family::fraction::Fraction;
use family::judgement::Judgement;
use family::sizes::POINT_NUMBERS;
use file::call::Call;
use search::outcome::Accepted;
use search::report::Report;
use search::run::Ended;
use std::fmt;

/// What became of a call.
#[derive(Clone, Copy)]
pub struct Outcome(pub Result<Accepted, Fault>);

impl fmt::Display for Outcome {
    ghost output = { λ x. Some (outcome_text x.0) };

    fn fmt<W: fmt::Write>(&self, f: &mut fmt::Formatter<W>) -> fmt::Result {
        match self.0 {
            Ok(Accepted::Taken(cost)) => write!(f, "taken {}", Fraction(cost)),
            Ok(Accepted::Kept(cost)) => write!(f, "kept {}", Fraction(cost)),
            Ok(Accepted::Closed(Judgement::Void)) => write!(f, "closed void"),
            Ok(Accepted::Closed(Judgement::Bound(bound))) => write!(
                f,
                "closed {}",
                Fraction(bound)
            ),
            Ok(Accepted::Split) => write!(f, "done"),
            Err(fault) => write!(f, "{}", fault.denial()),
        }
    }
}

/// The line of a call: its place in the chain, counted from 1, the call, and what became of it.
#[derive(Clone, Copy)]
pub struct Line {
    pub place: usize,
    pub call: Call,
    pub outcome: Outcome,
}

impl fmt::Display for Line {
    ghost output = { λ x. Some (line_text x.place x.call x.outcome.0) };

    fn fmt<W: fmt::Write>(&self, f: &mut fmt::Formatter<W>) -> fmt::Result {
        let place = self.place;
        let outcome = self.outcome;
        match self.call {
            Call::Point(_) => write!(f, "{place} point {outcome}"),
            Call::Proof(_) => write!(f, "{place} proof {outcome}"),
            Call::Split { .. } => write!(f, "{place} split {outcome}"),
        }
    }
}

// A cost, or a dash.
#[derive(Clone, Copy)]
struct Cost(Option<(i64, i64)>);

impl fmt::Display for Cost {
    ghost output = { λ x. Some (cost_text x.0) };

    fn fmt<W: fmt::Write>(&self, f: &mut fmt::Formatter<W>) -> fmt::Result {
        match self.0 {
            Some(cost) => write!(f, "{}", Fraction(cost)),
            None => write!(f, "-"),
        }
    }
}

// The numbers p_j and q of a quantity, printed after a space, or nothing beyond the problem's quantities.
#[derive(Clone, Copy)]
struct Quantity(Option<(i32, i32)>);

impl fmt::Display for Quantity {
    ghost output = { λ x. Some (quantity_text x.0) };

    fn fmt<W: fmt::Write>(&self, f: &mut fmt::Formatter<W>) -> fmt::Result {
        match self.0 {
            Some((p, q)) => write!(f, " {p}/{q}"),
            None => Ok(()),
        }
    }
}

// The quantities of a point: each after a space.
#[derive(Clone, Copy)]
struct Quantities {
    count: usize,
    point: [i32; POINT_NUMBERS],
}

impl Quantities {
    // The quantity with this number, counted from 1.
    fn quantity(&self, number: usize) -> Quantity
        requires { number < 9 }
        ensures { result ≡ quantity_of self.now.count self.now.point number }
    {
        Quantity((number <= self.count).then_some((self.point[number], self.point[0])))
    }
}

impl fmt::Display for Quantities {
    ghost output = { λ x. Some (quantities_text x.count x.point) };

    fn fmt<W: fmt::Write>(&self, f: &mut fmt::Formatter<W>) -> fmt::Result {
        let (a, b, c, d) = (
            self.quantity(1),
            self.quantity(2),
            self.quantity(3),
            self.quantity(4),
        );
        let (e, g, h, i) = (
            self.quantity(5),
            self.quantity(6),
            self.quantity(7),
            self.quantity(8),
        );
        // Eight pieces and no loop: the text is defined as these eight, and a loop that writes would need its own definition.
        write!(f, "{a}{b}{c}{d}{e}{g}{h}{i}")
    }
}

// A point, or a dash after a space.
#[derive(Clone, Copy)]
struct Point(Option<Quantities>);

impl fmt::Display for Point {
    ghost output = { λ x. Some (told_point x.0) };

    fn fmt<W: fmt::Write>(&self, f: &mut fmt::Formatter<W>) -> fmt::Result {
        match self.0 {
            Some(quantities) => write!(f, "{quantities}"),
            None => write!(f, " -"),
        }
    }
}

/// The last line: the verdict, the cost, the point and the counts.
#[derive(Clone, Copy)]
pub struct LastLine {
    pub quantities: usize,
    pub end: Ended,
}

impl fmt::Display for LastLine {
    ghost output = { λ x. Some (last_text x.quantities x.end.report x.end.point) };

    fn fmt<W: fmt::Write>(&self, f: &mut fmt::Formatter<W>) -> fmt::Result {
        let Report {
            verdict,
            cost,
            open,
            splits,
            closed,
        } = self.end.report;
        let point = Point(cost.map(|_| Quantities {
            count: self.quantities,
            point: self.end.point,
        }));
        let cost = Cost(cost);
        write!(
            f,
            "{verdict} {cost} point{point} open {open} splits {splits} closed {closed}"
        )
    }
}
