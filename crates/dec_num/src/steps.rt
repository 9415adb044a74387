// Sums and products of at most 36 digits.
ghost use Rattle.std.specs.Prelude.{◌≡◌, ◌<◌, ◌≤◌, ◌+ℤ◌, ◌*ℤ◌, ◌-ℤ◌, ◌^◌, pos, nat_abs, IfSome};
ghost use Rattle.dec_num.specs.Narrow.{narrow, narrow_result};
ghost use Rattle.mib_model.specs.declared.limits.TheConstants.{STEP_BOUND};

use crate::fast;
use crate::rounding::power;
use mib_model::{RESULT_BOUND, STEP_BOUND};

/// A number, where it is below the bound of steps.
pub fn step(number: i128) -> Option<i128>
    ensures value { result ≡ narrow number }
    ensures within { IfSome result (λ z. nat_abs z < STEP_BOUND) }
{
    if number.unsigned_abs() < STEP_BOUND {
        Some(number)
    } else {
        None
    }
}

/// A number, where it is below the bound of results.
pub fn outcome(number: i128) -> Option<i128>
    ensures { result ≡ narrow_result number }
{
    if number.unsigned_abs() < RESULT_BOUND {
        Some(number)
    } else {
        None
    }
}

/// A sum, where it is below the bound of steps.
pub fn sum(a: i128, b: i128) -> Option<i128>
    ensures value { result ≡ narrow (a +ℤ b) }
    ensures within { IfSome result (λ z. nat_abs z < STEP_BOUND) }
{
    step(a.checked_add(b)?)
}

/// A difference, where it is below the bound of steps.
pub fn difference(a: i128, b: i128) -> Option<i128>
    ensures value { result ≡ narrow (a -ℤ b) }
    ensures within { IfSome result (λ z. nat_abs z < STEP_BOUND) }
{
    step(a.checked_sub(b)?)
}

/// A product, where it is below the bound of steps, by words of 64 bits where both numbers are that small.
pub fn product(a: i128, b: i128) -> Option<i128>
    ensures value { result ≡ narrow (a *ℤ b) }
    ensures within { IfSome result (λ z. nat_abs z < STEP_BOUND) }
{
    match (i64::try_from(a), i64::try_from(b)) {
        (Ok(a), Ok(b)) => step(fast::product(a, b)),
        _ => step(a.checked_mul(b)?),
    }
}

// 10 to a power of at most 36.
#[tactic(auto, using(crate::proofs::RoundingFacts::powers))]
fn signed_power(exponent: u32) -> i128
    requires { exponent ≤ 36 }
    ensures { result ≡ pos (10 ^ exponent) }
{
    power(exponent) as i128
}

/// A number times a power of 10, where it is below the bound of steps.
#[tactic(auto, using(crate::proofs::ScalingFacts::great_powers))]
pub fn scaled_up(number: i128, exponent: u32) -> Option<i128>
    ensures value { result ≡ narrow (number *ℤ pos (10 ^ exponent)) }
    ensures within { IfSome result (λ z. nat_abs z < STEP_BOUND) }
{
    if number == 0 {
        return Some(0);
    }
    if exponent > 36 {
        return None;
    }
    product(number, signed_power(exponent))
}
