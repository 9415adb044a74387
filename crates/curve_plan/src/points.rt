// Curves by points.
ghost use Rattle.std.specs.Prelude.{◌≡◌, ◌+◌, ◌-◌, ◌≤◌, min, length, filter, int_le, ◌≤ℤ◌, ◌<ℤ◌, option_map, filter_map, get_or, None, Some, IfOk, IfSome};
ghost use Rattle.mib_model.specs.CalibrationViews.{calibrated_as};
ghost use Rattle.mib_model.specs.Points.{knot_of, knots, neighbours, on_pair, pair_for};
ghost use Rattle.mib_model.specs.WholeNumbers.{least_raw, greatest_raw};
ghost use Rattle.curve_plan.specs.Knots.{knot_at, knots_at, Climbs, AreApart, AreSlopes};
ghost use Rattle.curve_plan.specs.Pairs.{pair_at};
ghost use Rattle.curve_plan.specs.Slopes.{IsSlope};

use crate::fast;
use crate::fast::index::PointIndex;
use crate::fast::slope::Slope;
use crate::pair::Pair;
use dec_num::{Point, eng_of, interp, whole_number};
use mib_model::{CafRow, Cal, CapRow};
use std::alloc::{AllocError, Global};

/// The points of a curve in order of x, the slopes between them, and whether the curve goes on beyond them.
#[derive(Drop)]
pub struct PointCurve {
    points: Vec<Point>,
    pub(crate) slopes: Vec<Option<Slope>>,
    pub(crate) index: PointIndex,
    inter: u8,
}

// The point of a row, where its x is a whole number.
fn point_of(radix: u8, row: &CapRow) -> Option<Point>
    ensures { option_map knot_at result ≡ knot_of radix row.now }
{
    let x = whole_number(radix, row.xvals.bytes())?;
    Some(Point {
        x,
        y: eng_of(row.yvals),
    })
}

// The points of rows, in their order.
fn points_of(alloc: Global, radix: u8, caps: &[CapRow]) -> Result<Vec<Point>, AllocError>
    ensures { IfOk result (λ points. knots_at points.items ≡ filter_map (knot_of radix) caps.now) }
{
    let mut points = Vec::new(alloc);
    for row in caps {
        if let Some(point) = point_of(radix, row) {
            points.push(point)?;
        }
    }
    Ok(points)
}

// The points of a curve in order of x.
#[tactic(auto, unfolding(mib_model::specs::Points::knots))]
fn sorted_points(alloc: Global, caf: &CafRow, caps: &[CapRow]) -> Result<Vec<Point>, AllocError>
    ensures { IfOk result (λ points. knots_at points.items ≡ knots caf.now caps.now) }
{
    let mut points = points_of(alloc, caf.radix, caps)?;
    points.sort_by_key(|point| point.x)?;
    Ok(points)
}

// The slope at a place, where there is one.
fn slope_at(slopes: &[Option<Slope>], at: usize) -> Option<Slope>
    ensures { result ≡ get_or slopes.now at None }
{
    match slopes.get(at) {
        Some(slope) => *slope,
        None => None,
    }
}

// The place of the first of the two points that a raw number is taken by. Of two points there is nothing to look for.
fn first_of(points: &[Point], last: usize, raw: i128) -> usize
    requires climbs { Climbs (knots_at points.now) }
    requires long { last + 2 ≡ length points.now }
    ensures place { result ≡ min (length (filter (λ point. int_le point.x raw) points.now) - 1) last }
    ensures within { result ≤ last }
{
    if last == 0 {
        return 0;
    }
    let at = points.partition_point(|point| point.x <= raw);
    at.saturating_sub(1).min(last)
}

// The two points that a raw number is taken by, where there are two.
#[tactic(auto, using(crate::proofs::PairFacts::pairs))]
fn pair_of(points: &[Point], slopes: &[Option<Slope>], raw: i128) -> Option<Pair>
    requires climbs { Climbs (knots_at points.now) }
    requires slopes { AreSlopes (knots_at points.now) slopes.now }
    ensures pair { option_map pair_at result ≡ pair_for raw (neighbours (knots_at points.now)) }
    ensures order { IfSome result (λ pair. pair.p.x <ℤ pair.q.x) }
    ensures sloped { IfSome result (λ pair. IfSome pair.slope (IsSlope (knot_at pair.p) (knot_at pair.q))) }
{
    let last = points.len().checked_sub(2)?;
    let first = first_of(points, last, raw);
    Some(Pair {
        p: points[first],
        q: points[first + 1],
        slope: slope_at(slopes, first),
    })
}

// What two points make of a raw number, step by step.
fn on_any_line(p: Point, q: Point, inter: u8, raw: i128) -> Cal<'static>
    requires order { p.x <ℤ q.x }
    requires low { least_raw ≤ℤ raw }
    requires high { raw ≤ℤ greatest_raw }
    ensures { calibrated_as result ≡ on_pair inter raw (Some (knot_at p, knot_at q)) }
{
    if (raw < p.x || q.x < raw) && inter != b'P' {
        return Cal::Outside;
    }
    match interp(p, q, raw) {
        Ok(value) => Cal::Value(value),
        Err(_) => Cal::Over,
    }
}

// What two points make of a raw number.
fn on_line(pair: Pair, inter: u8, raw: i128) -> Cal<'static>
    requires order { pair.p.x <ℤ pair.q.x }
    requires sloped { IfSome pair.slope (IsSlope (knot_at pair.p) (knot_at pair.q)) }
    requires low { least_raw ≤ℤ raw }
    requires high { raw ≤ℤ greatest_raw }
    ensures { calibrated_as result ≡ on_pair inter raw (option_map pair_at (Some pair)) }
{
    match fast::points::on_slope(pair, raw) {
        Some(value) => Cal::Value(value),
        None => on_any_line(pair.p, pair.q, inter, raw),
    }
}

impl PointCurve {
    /// A number made of a point in the middle.
    pub fn touch(&self) -> usize {
        let middle = self.slopes.len() / 2;
        match (self.points.get(middle), self.slopes.get(middle)) {
            (Some(point), Some(slope)) => {
                usize::from(point.x < 0) + usize::from(slope.is_some())
            }
            _ => 0,
        }
    }

    /// Reads the points of a curve's rows.
    pub fn compile(alloc: Global, caf: &CafRow, caps: &[CapRow]) -> Result<PointCurve, AllocError>
        requires { AreApart (filter_map (knot_of caf.now.radix) caps.now) }
        ensures points { IfOk result (λ curve. knots_at curve.points.items ≡ knots caf.now caps.now) }
        ensures climbs { IfOk result (λ curve. Climbs (knots_at curve.points.items)) }
        ensures slopes { IfOk result (λ curve. AreSlopes (knots_at curve.points.items) curve.slopes.items) }
        ensures inter { IfOk result (λ curve. curve.inter ≡ caf.now.inter) }
    {
        let points = sorted_points(alloc, caf, caps)?;
        let slopes = fast::points::slopes_of(alloc, &points)?;
        let index = PointIndex::compile(alloc, &fast::points::starts_of(alloc, &points)?)?;
        Ok(PointCurve {
            points,
            slopes,
            index,
            inter: caf.inter,
        })
    }

    // What the curve makes of a raw number whose line is searched for.
    #[cold]
    #[inline(never)]
    fn searched(&self, raw: i128) -> Cal<'static>
        requires climbs { Climbs (knots_at self.now.points.items) }
        requires slopes { AreSlopes (knots_at self.now.points.items) self.now.slopes.items }
        requires low { least_raw ≤ℤ raw }
        requires high { raw ≤ℤ greatest_raw }
        ensures { calibrated_as result ≡ on_pair self.now.inter raw (pair_for raw (neighbours (knots_at self.now.points.items))) }
    {
        match pair_of(&self.points, &self.slopes, raw) {
            Some(pair) => on_line(pair, self.inter, raw),
            None => Cal::Outside,
        }
    }

    /// What the curve makes of a raw number.
    #[inline(always)]
    pub fn at(&self, raw: i128) -> Cal<'static>
        requires climbs { Climbs (knots_at self.now.points.items) }
        requires slopes { AreSlopes (knots_at self.now.points.items) self.now.slopes.items }
        requires low { least_raw ≤ℤ raw }
        requires high { raw ≤ℤ greatest_raw }
        ensures { calibrated_as result ≡ on_pair self.now.inter raw (pair_for raw (neighbours (knots_at self.now.points.items))) }
    {
        match fast::points::indexed(self, raw) {
            Some(value) => Cal::Value(value),
            None => self.searched(raw),
        }
    }
}
