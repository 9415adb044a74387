/// A scaled decimal: the number `m · 10^e`.
#[derive(Clone, Copy, Debug, PartialEq, Eq)]
pub struct Dec {
    pub m: i64,
    pub e: i8,
}

/// An engineering value, in whole counts of 10^-12.
#[derive(Clone, Copy, Debug, PartialEq, Eq)]
pub struct Eng {
    pub count: i128,
}

/// Why a text is no scaled decimal; the first that holds, in this order.
#[derive(Clone, Copy, Debug, PartialEq, Eq)]
pub enum DecFault {
    /// It isn't spelled as one.
    Form,
    /// It has more than 17 significant digits.
    Digits,
    /// Its exponent is outside -30 to 30.
    Exponent,
}

/// A calibration left the numbers that are kept.
#[derive(Clone, Copy, Debug, PartialEq, Eq)]
pub struct Over;
