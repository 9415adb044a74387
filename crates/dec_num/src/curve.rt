// The sums of calibration curves.
ghost use Rattle.std.specs.Prelude.{◌≡◌, ◌<◌, ◌<ℤ◌, ◌≤ℤ◌, ◌+ℤ◌, ◌-ℤ◌, ◌*ℤ◌, nat_abs, false, IfSome};
ghost use Rattle.mib_model.specs.WholeNumbers.{least_raw, greatest_raw};
ghost use Rattle.mib_model.specs.Calibrated.{bounded};
ghost use Rattle.mib_model.specs.Points.{interpolated};
ghost use Rattle.dec_num.specs.Narrow.{counted, narrow};
ghost use Rattle.mib_model.specs.declared.limits.TheConstants.{STEP_BOUND};

use crate::rounding::half;
use crate::steps::{difference, outcome, product};
use mib_model::{Eng, Over};

/// A point of a curve: a raw number, and its engineering value.
#[derive(Clone, Copy, Debug, PartialEq, Eq)]
pub struct Point {
    pub x: i128,
    pub y: Eng,
}

// A result, refused where it reaches its bound.
fn kept(count: i128) -> Result<Eng, Over>
    ensures { counted result ≡ bounded false count }
{
    match outcome(count) {
        Some(count) => Ok(Eng { count }),
        None => Err(Over),
    }
}

// A sum as a result.
fn raised(count: i128, offset: i128) -> Result<Eng, Over>
    ensures { counted result ≡ bounded false (count +ℤ offset) }
{
    match count.checked_add(offset) {
        Some(total) => kept(total),
        None => Err(Over),
    }
}

// How far a number is from a point, times the rise of the line there.
#[tactic(auto, using(crate::proofs::ScalingFacts::wide_products))]
fn climb(rise: i128, x: i128, raw: i128) -> Option<i128>
    ensures value { result ≡ narrow ((raw -ℤ x) *ℤ rise) }
    ensures within { IfSome result (λ z. nat_abs z < STEP_BOUND) }
{
    if rise == 0 {
        return Some(0);
    }
    product(raw.checked_sub(x)?, rise)
}

/// The value of a raw number on the line through two points, or that it leaves the bounds (this profile).
#[tactic(auto, unfolding(mib_model::specs::Points::interpolated))]
pub fn interp(p: Point, q: Point, raw: i128) -> Result<Eng, Over>
    requires order { p.x <ℤ q.x }
    requires low { least_raw ≤ℤ raw }
    requires high { raw ≤ℤ greatest_raw }
    ensures { counted result ≡ interpolated (record { x = p.x; y = p.y.count }) (record { x = q.x; y = q.y.count }) raw }
{
    let Some(rise) = difference(q.y.count, p.y.count) else {
        return Err(Over);
    };
    let Some(climb) = climb(rise, p.x, raw) else {
        return Err(Over);
    };
    raised(p.y.count, half(climb, q.x.abs_diff(p.x)))
}
