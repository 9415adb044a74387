// The line through two points, also where these stand at one raw number, as no two points of sound tables do.
ghost use Rattle.std.specs.Prelude.{◌≡◌, ◌<◌, ◌≤◌, ◌+◌, ◌*◌, ◌/◌, ◌+ℤ◌, ◌-ℤ◌, ◌*ℤ◌, ◌^◌, false, nat_abs, IfSome};
ghost use Rattle.dec_num.specs.Narrow.{counted, narrow};
ghost use Rattle.mib_model.specs.Calibrated.{bounded};
ghost use Rattle.mib_model.specs.Counts as Counts;
ghost use Rattle.mib_model.specs.Points.{interpolated};
ghost use Rattle.mib_model.specs.declared.limits.TheConstants.{STEP_BOUND};
ghost use Rattle.row_curves.specs.Views.{knot_at};

use dec_num::Point;
use mib_model::{Eng, Over, RESULT_BOUND, STEP_BOUND};

// A number, where it is below the bound of steps.
fn step(number: i128) -> Option<i128>
    ensures value { result ≡ narrow number }
    ensures within { IfSome result (λ z. nat_abs z < STEP_BOUND) }
{
    if number.unsigned_abs() < STEP_BOUND {
        Some(number)
    } else {
        None
    }
}

// How far the second of two counts is above the first, where that is below the bound of steps.
fn rise(from: Eng, to: Eng) -> Option<i128>
    ensures value { result ≡ narrow (to.count -ℤ from.count) }
    ensures within { IfSome result (λ z. nat_abs z < STEP_BOUND) }
{
    step(to.count.checked_sub(from.count)?)
}

// A product, where it is below the bound of steps.
fn product(a: i128, b: i128) -> Option<i128>
    ensures value { result ≡ narrow (a *ℤ b) }
    ensures within { IfSome result (λ z. nat_abs z < STEP_BOUND) }
{
    step(a.checked_mul(b)?)
}

// How far a raw number is from an x, times a rise, where that is below the bound of steps.
#[tactic(auto, using(dec_num::proofs::ScalingFacts::wide_products))]
fn climb(rise: i128, x: i128, raw: i128) -> Option<i128>
    ensures value { result ≡ narrow ((raw -ℤ x) *ℤ rise) }
    ensures within { IfSome result (λ z. nat_abs z < STEP_BOUND) }
{
    if rise == 0 {
        return Some(0);
    }
    product(raw.checked_sub(x)?, rise)
}

// The whole number nearest to a quotient; a tie goes up.
#[tactic(auto, using(dec_num::proofs::RoundingFacts::nearest))]
fn rounded(dividend: u128, divisor: u128) -> u128
    requires { 0 < divisor }
    ensures value { result ≡ (2 * dividend + divisor) / (2 * divisor) }
    ensures within { result ≤ dividend }
{
    let whole = dividend / divisor;
    let rest = dividend % divisor;
    if rest < divisor - rest {
        whole
    } else {
        whole + 1
    }
}

// A number divided and rounded to the nearest whole number, a tie going away from zero; nothing where the divisor is 0.
#[tactic(auto, unfolding(mib_model::specs::Counts::half))]
fn half(dividend: i128, divisor: u128) -> i128
    requires { nat_abs dividend < 2 ^ 127 }
    ensures { result ≡ Counts.half dividend divisor }
{
    if divisor == 0 {
        return 0;
    }
    let magnitude = rounded(dividend.unsigned_abs(), divisor) as i128;
    if dividend < 0 { -magnitude } else { magnitude }
}

// The sum of two counts as a result, refused where it reaches its bound.
fn raised(count: i128, offset: i128) -> Result<Eng, Over>
    ensures { counted result ≡ bounded false (count +ℤ offset) }
{
    match count.checked_add(offset) {
        Some(count) if count.unsigned_abs() < RESULT_BOUND => Ok(Eng { count }),
        _ => Err(Over),
    }
}

/// The value of a raw number on the line through two points, or that it leaves the bounds.
#[tactic(auto, unfolding(mib_model::specs::Points::interpolated))]
pub(crate) fn on_line(p: Point, q: Point, raw: i128) -> Result<Eng, Over>
    ensures { counted result ≡ interpolated (knot_at p) (knot_at q) raw }
{
    let Some(rise) = rise(p.y, q.y) else {
        return Err(Over);
    };
    let Some(climb) = climb(rise, p.x, raw) else {
        return Err(Over);
    };
    raised(p.y.count, half(climb, q.x.abs_diff(p.x)))
}
