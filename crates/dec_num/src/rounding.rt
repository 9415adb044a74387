// Quotients and powers of 10, rounded half away from zero.
ghost use Rattle.std.specs.Prelude.{◌≡◌, ◌<◌, ◌≤◌, ◌+◌, ◌*◌, ◌/◌, ◌%◌, ◌^◌, nat_abs};
ghost use Rattle.mib_model.specs.Counts as Spec;

/// A quotient and its rest, by words of 64 bits where both numbers are that small.
pub fn divided(dividend: u128, divisor: u128) -> (u128, u128)
    requires { 0 < divisor }
    ensures quotient { result.0 ≡ dividend / divisor }
    ensures rest { result.1 ≡ dividend % divisor }
{
    match (u64::try_from(dividend), u64::try_from(divisor)) {
        (Ok(dividend), Ok(divisor)) => (
            u128::from(dividend / divisor),
            u128::from(dividend % divisor),
        ),
        _ => (dividend / divisor, dividend % divisor),
    }
}

/// The whole number nearest to a quotient; a tie goes up.
#[tactic(auto, using(crate::proofs::RoundingFacts::nearest))]
pub fn rounded(dividend: u128, divisor: u128) -> u128
    requires { 0 < divisor }
    ensures value { result ≡ (2 * dividend + divisor) / (2 * divisor) }
    ensures within { result ≤ dividend }
{
    let (whole, rest) = divided(dividend, divisor);
    if rest < divisor - rest {
        whole
    } else {
        whole + 1
    }
}

/// A number with a sign divided and rounded to the nearest whole number, a tie going away from zero.
#[tactic(auto, unfolding(mib_model::specs::Counts::half))]
pub fn half(dividend: i128, divisor: u128) -> i128
    requires dividend { nat_abs dividend < 2 ^ 127 }
    requires divisor { 0 < divisor }
    ensures value { result ≡ Spec.half dividend divisor }
    ensures within { nat_abs result ≤ nat_abs dividend }
{
    let magnitude = rounded(dividend.unsigned_abs(), divisor) as i128;
    if dividend < 0 { -magnitude } else { magnitude }
}

/// 10 to a power of at most 19, without a multiplication.
#[tactic(auto, using(crate::proofs::RoundingFacts::powers))]
pub fn small_power(exponent: u32) -> u64
    requires { exponent ≤ 19 }
    ensures { result ≡ 10 ^ exponent }
{
    match exponent {
        0 => 1,
        1 => 10,
        2 => 100,
        3 => 1_000,
        4 => 10_000,
        5 => 100_000,
        6 => 1_000_000,
        7 => 10_000_000,
        8 => 100_000_000,
        9 => 1_000_000_000,
        10 => 10_000_000_000,
        11 => 100_000_000_000,
        12 => 1_000_000_000_000,
        13 => 10_000_000_000_000,
        14 => 100_000_000_000_000,
        15 => 1_000_000_000_000_000,
        16 => 10_000_000_000_000_000,
        17 => 100_000_000_000_000_000,
        18 => 1_000_000_000_000_000_000,
        19 => 10_000_000_000_000_000_000,
        _ => 10_u64.pow(exponent),
    }
}

/// 10 to a power of at most 38.
#[tactic(auto, using(crate::proofs::RoundingFacts::powers))]
pub fn power(exponent: u32) -> u128
    requires { exponent ≤ 38 }
    ensures value { result ≡ 10 ^ exponent }
    ensures positive { 0 < result }
{
    if exponent <= 19 {
        u128::from(small_power(exponent))
    } else {
        10_u128.pow(exponent)
    }
}

/// A number divided by a power of 10, and rounded.
#[tactic(auto, using(crate::proofs::RoundingFacts::powers))]
pub fn scaled_down(number: i128, places: u32) -> i128
    requires { nat_abs number < 2 ^ 127 }
    ensures value { result ≡ Spec.half number (10 ^ places) }
    ensures within { nat_abs result ≤ nat_abs number }
{
    if places <= 38 {
        half(number, power(places))
    } else {
        0
    }
}
