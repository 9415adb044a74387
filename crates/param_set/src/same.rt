// Whether two plans are of the same rows, in the same order.
ghost use Rattle.std.specs.Prelude.{◌≡◌, length, map, option_map};
ghost use Rattle.std.specs.Cmp.Lexicographic.{pointwise};
ghost use Rattle.std.specs.Option.{option_eq};
ghost use Rattle.curve_plan.specs.Rows.{rows_of};
ghost use Rattle.std.specs.Arc.{arc_value};
ghost use Rattle.mib_model.specs.Touched as Spec;
ghost use Rattle.mib_model.specs.Touched.{same_slice};
ghost use Rattle.param_plan.specs.Slices.{as_slice, slice_of};

use curve_plan::{Curve, CurveRows};
use param_plan::ParamRows;
use row_sameness::{all_same, same_if_any, same_row};
use std::sync::Arc;

// Whether two curves have the same rows.
fn same_curve(old: &CurveRows, new: &CurveRows) -> bool
    ensures { result ≡ Spec.same_curve (rows_of old.now) (rows_of new.now) }
{
    match (old, new) {
        (
            CurveRows::Points { caf, caps },
            CurveRows::Points {
                caf: row,
                caps: rows,
            },
        ) => { same_row(caf, row) && all_same(caps, rows) }
        (
            CurveRows::Texts { txf, txps },
            CurveRows::Texts {
                txf: row,
                txps: rows,
            },
        ) => { same_row(txf, row) && all_same(txps, rows) }
        (CurveRows::Poly(mcf), CurveRows::Poly(row)) => same_row(mcf, row),
        (CurveRows::Log(lgf), CurveRows::Log(row)) => same_row(lgf, row),
        _ => false,
    }
}

// Whether two curves have the same rows, or are both missing.
fn same_curve_if_any(old: &Option<Arc<Curve>>, new: &Option<Arc<Curve>>) -> bool
    ensures { result ≡ option_eq Spec.same_curve (option_map arc_value old.now) (option_map arc_value new.now) }
{
    match (old, new) {
        (None, None) => true,
        (Some(old), Some(new)) => same_curve(old.rows(), new.rows()),
        _ => false,
    }
}

// Whether each of some curves has the rows of the one beside it.
fn same_beside(old: &[Option<Arc<Curve>>], new: &[Option<Arc<Curve>>]) -> bool
    requires { length old.now ≡ length new.now }
    ensures { result ≡ pointwise (option_eq Spec.same_curve) (map (option_map arc_value) old.now) (map (option_map arc_value) new.now) }
{
    for (old, new) in old.iter().zip(new) {
        if !same_curve_if_any(old, new) {
            return false;
        }
    }
    true
}

// Whether two lists of curves have the same rows.
fn same_curves(old: &[Option<Arc<Curve>>], new: &[Option<Arc<Curve>>]) -> bool
    ensures { result ≡ pointwise (option_eq Spec.same_curve) (map (option_map arc_value) old.now) (map (option_map arc_value) new.now) }
{
    old.len() == new.len() && same_beside(old, new)
}

/// Whether two plans depend on the same rows, in the same order.
#[tactic(auto, unfolding(mib_model::specs::Touched::same_slice))]
pub fn same_rows(old: &ParamRows, new: &ParamRows) -> bool
    ensures { result ≡ same_slice (as_slice (slice_of old.now)) (as_slice (slice_of new.now)) }
{
    same_row(&old.pcf, &new.pcf)
        && all_same(&old.curs, &new.curs)
        && same_curves(&old.curves, &new.curves)
        && same_if_any(&old.ocf, &new.ocf)
        && all_same(&old.ocps, &new.ocps)
}
