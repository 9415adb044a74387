// Polynomials whose numbers are words: the gain stands at the sums.
ghost use Rattle.std.specs.Prelude.{◌≤◌};

/// Coefficients that are all numbers of 64 bits: that of the power 0, and `count` of those of the powers from 1 on, up to the
/// last that is not 0.
#[derive(Clone, Copy)]
pub(crate) struct WordPoly {
    pub first: i64,
    pub rest: [i64; 4],
    pub count: u8,
    ghost few: { count ≤ 4 },
}
