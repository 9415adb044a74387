// Points looked for by an index, and lines by their slopes: the gains stand there.
ghost use Rattle.std.specs.Prelude.{ℕ, ◌≡◌, ◌<ℤ◌, Some, IfOk, IfSome};
ghost use Rattle.mib_model.specs.Calibrated.{Counted};
ghost use Rattle.mib_model.specs.Points.{neighbours, on_pair, pair_for};
ghost use Rattle.curve_plan.specs.Knots.{knot_at, knots_at, Climbs, AreSlopes};
ghost use Rattle.curve_plan.specs.Pairs.{pair_at};
ghost use Rattle.curve_plan.specs.Slopes.{IsSlope};

use crate::fast::index::{LOOKS, saturated, word};
use crate::fast::slope::{Slope, slope_of};
use crate::pair::Pair;
use crate::points::PointCurve;
use dec_num::Point;
use mib_model::Eng;
use std::alloc::{AllocError, Global};

// The slope of the line from each point to the next.
#[tactic(auto, using(crate::proofs::PairFacts::sloped))]
pub(crate) fn slopes_of(alloc: Global, points: &[Point]) -> Result<Vec<Option<Slope>>, AllocError>
    requires { Climbs (knots_at points.now) }
    ensures { IfOk result (λ slopes. AreSlopes (knots_at points.now) slopes.items) }
{
    let mut slopes = Vec::new(alloc);
    for at in 1..points.len() {
        slopes.push(slope_of(points[at - 1], points[at]))?;
    }
    Ok(slopes)
}

// The x of points, each as close as 64 bits come to it.
pub(crate) fn starts_of(alloc: Global, points: &[Point]) -> Result<Vec<i64>, AllocError> {
    let mut starts = Vec::new(alloc);
    for point in points {
        starts.push(saturated(point.x))?;
    }
    Ok(starts)
}

// The value of a raw number between two points by the slope there, where that is at hand.
#[tactic(auto, using(crate::proofs::SlopeFacts::between))]
pub(crate) fn on_slope(pair: Pair, raw: i128) -> Option<Eng>
    requires order { pair.p.x <ℤ pair.q.x }
    requires sloped { IfSome pair.slope (IsSlope (knot_at pair.p) (knot_at pair.q)) }
    ensures { IfSome result (λ value. (inter : ℕ) → Counted value.count ≡ on_pair inter raw (Some (pair_at pair))) }
{
    pair.slope?.value_at(word(raw)?)
}

// The value of a raw number on one of the lines from where the index says on.
#[inline(always)]
pub(crate) fn indexed(curve: &PointCurve, raw: i128) -> Option<Eng>
    requires climbs { Climbs (knots_at curve.now.points.items) }
    requires slopes { AreSlopes (knots_at curve.now.points.items) curve.now.slopes.items }
    ensures { IfSome result (λ value. Counted value.count ≡ on_pair curve.now.inter raw (pair_for raw (neighbours (knots_at curve.now.points.items)))) }
{
    let raw = word(raw)?;
    let first = curve.index.first(raw.cast_unsigned());
    for step in 0..LOOKS {
        let Some(Some(slope)) = curve.slopes.get(first.saturating_add(step)) else {
            return None;
        };
        if let Some(value) = slope.value_before(raw) {
            return Some(value);
        }
    }
    None
}
