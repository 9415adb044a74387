// Curves by points.
ghost use Rattle.std.specs.Prelude.{◌≡◌, ◌∷◌, List, IfOk, filter_map, option_map};
ghost use Rattle.mib_model.specs.CalibrationViews.{calibrated_as};
ghost use Rattle.mib_model.specs.Points as Spec;
ghost use Rattle.mib_model.specs.Points.{Knot};
ghost use Rattle.row_curves.specs.Pairs.{taken_of};
ghost use Rattle.row_curves.specs.Views.{knot_at, knots_at, pair_at};

use crate::line::on_line;
use dec_num::{Point, eng_of, whole_number};
use mib_model::{CafRow, Cal, CapRow};
use std::alloc::{AllocError, Global};

// The point of a row, where its x is a whole number.
fn point_of(radix: u8, row: &CapRow) -> Option<Point>
    ensures { option_map knot_at result ≡ Spec.knot_of radix row.now }
{
    let x = whole_number(radix, row.xvals.bytes())?;
    Some(Point {
        x,
        y: eng_of(row.yvals),
    })
}

// The points of rows, in the order of their file.
fn points_of(alloc: Global, radix: u8, caps: &[CapRow]) -> Result<Vec<Point>, AllocError>
    ensures { IfOk result (λ points. knots_at points.items ≡ filter_map (Spec.knot_of radix) caps.now) }
{
    let mut points = Vec::new(alloc);
    for row in caps {
        if let Some(point) = point_of(radix, row) {
            points.push(point)?;
        }
    }
    Ok(points)
}

// The points of a curve in order of x.
#[tactic(auto, unfolding(mib_model::specs::Points::knots))]
fn sorted_points(alloc: Global, caf: &CafRow, caps: &[CapRow]) -> Result<Vec<Point>, AllocError>
    ensures { IfOk result (λ points. knots_at points.items ≡ Spec.knots caf.now caps.now) }
{
    let mut points = points_of(alloc, caf.radix, caps)?;
    points.sort_by_key(|point| point.x)?;
    Ok(points)
}

// The pair that is taken behind the pairs so far and one more.
fn taken(found: Option<(Point, Point)>, pair: (Point, Point), raw: i128) -> Option<(Point, Point)>
    ensures { (pairs : List (Knot × Knot)) → taken_of raw (option_map pair_at result) pairs ≡ taken_of raw (option_map pair_at found) (pair_at pair ∷ pairs) }
{
    if pair.0.x <= raw {
        return Some(pair);
    }
    match found {
        Some(found) => Some(found),
        None => Some(pair),
    }
}

// The two points that a raw number is taken by: the last pair that begins at or below it, and else the first pair.
fn pair_for(points: &[Point], raw: i128) -> Option<(Point, Point)>
    ensures { option_map pair_at result ≡ Spec.pair_for raw (Spec.neighbours (knots_at points.now)) }
{
    let mut found = None;
    for at in 1..points.len() {
        found = taken(found, (points[at - 1], points[at]), raw);
    }
    found
}

// What two points make of a raw number.
fn on_pair(inter: u8, raw: i128, pair: Option<(Point, Point)>) -> Cal<'static>
    ensures { calibrated_as result ≡ Spec.on_pair inter raw (option_map pair_at pair) }
{
    let Some((p, q)) = pair else {
        return Cal::Outside;
    };
    if (raw < p.x || q.x < raw) && inter != b'P' {
        return Cal::Outside;
    }
    match on_line(p, q, raw) {
        Ok(value) => Cal::Value(value),
        Err(_) => Cal::Over,
    }
}

/// What a curve by points makes of a raw number. An error is want of memory.
#[tactic(auto, unfolding(mib_model::specs::Points::by_points))]
pub(crate) fn on_points(
    alloc: Global,
    caf: &CafRow,
    caps: &[CapRow],
    raw: i128,
) -> Result<Cal<'static>, AllocError>
    ensures { IfOk result (λ cal. calibrated_as cal ≡ Spec.by_points caf.now caps.now raw) }
{
    let points = sorted_points(alloc, caf, caps)?;
    Ok(on_pair(caf.inter, raw, pair_for(&points, raw)))
}
