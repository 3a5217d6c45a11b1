// How a search ends.

mod telling;

/// What is claimed at the end.
#[derive(Clone, Copy, PartialEq, Eq, Debug)]
pub enum Verdict {
    /// A node is open: nothing is claimed.
    Stopped,
    /// No admitted point is cheaper than the held one by more than the gap.
    Best,
    /// No point is admitted.
    Nothing,
}

/// The verdict, the cost of the held point, and the counts of nodes and splits.
#[derive(Clone, Copy, PartialEq, Eq, Debug)]
pub struct Report {
    pub verdict: Verdict,
    // A pair, as every cost and bound is, by a rule of the project.
    pub cost: Option<(i64, i64)>,
    pub open: usize,
    pub splits: u32,
    pub closed: u32,
}
