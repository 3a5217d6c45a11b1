// How large a problem can be.

/// As many quantities as a problem can have.
pub const QUANTITIES: usize = 8;

/// As many rows as a problem can have.
pub const ROWS: usize = 16;

/// As many numbers as the list of a point has: a denominator, and a numerator for each quantity.
pub const POINT_NUMBERS: usize = 9;

/// As many numbers as the list of a proof has: a scale, and a multiplier for each row.
pub const PROOF_NUMBERS: usize = 17;

/// As many numbers as the list of a header has: the number of quantities, the gap, and a rate for each quantity.
pub const HEADER_NUMBERS: usize = 10;

/// As many numbers as the list of a row has: a kind, two ends, and a coefficient for each quantity.
pub const ROW_NUMBERS: usize = 11;
