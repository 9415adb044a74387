ghost use Rattle.std.specs.Prelude.{◌≡◌, ◌≤ℤ◌, IfOk};
ghost use Rattle.mib_model.specs.declared.plan.CurveRows.TheVariants as plan;
ghost use Rattle.mib_model.specs.CalibrationViews.{calibrated_as};
ghost use Rattle.mib_model.specs.Calibrated.{calibrated};
ghost use Rattle.mib_model.specs.Curves.{calibration};
ghost use Rattle.mib_model.specs.Polynomials.{coefficients, polynomial};
ghost use Rattle.mib_model.specs.WholeNumbers.{least_raw, greatest_raw};
ghost use Rattle.curve_plan.specs.Compiled.{given_by, IsCompiled};
ghost use Rattle.curve_plan.specs.Knots.{HasPointsApart};
ghost use Rattle.curve_plan.specs.Rows.{rows_of};

use crate::points::PointCurve;
use crate::ranges::RangeCurve;
use crate::rows::CurveRows;
use dec_num::PolyCurve;
use mib_model::{CafRow, Cal, CapRow, Dec, McfRow, TxfRow, TxpRow};
use std::alloc::{AllocError, Global};
use std::marker::Model;

/// A curve by its form. RAWFMT `R` has a form of its own.
#[derive(Drop)]
enum Form {
    Points(PointCurve),
    Texts(RangeCurve),
    Poly(PolyCurve),
    Log,
    Real,
}

/// The rows of a curve, compiled. Contracts see the rows.
#[derive(Drop)]
pub struct Curve {
    form: Form,
    rows: CurveRows,
}

impl Model for Curve {
    ghost use Rattle.mib_model.specs.declared.plan.CurveRows.{CurveRows as Rows};
    ghost use Rattle.curve_plan.specs.Compiled.{IsCompiled};
    ghost use Rattle.curve_plan.specs.Rows.{rows_of};

    ghost Value = { Rows };

    ghost view = { λ curve. rows_of curve.rows };

    ghost invariant = { λ curve. IsCompiled curve.form (rows_of curve.rows) };
}

// The coefficients of a polynomial, that of the power 0 first.
fn coefficients(mcf: &McfRow) -> [Dec; 5]
    ensures { result ≡ coefficients mcf.now }
{
    [mcf.pol1, mcf.pol2, mcf.pol3, mcf.pol4, mcf.pol5]
}

// What a polynomial makes of a raw number.
fn poly_at(curve: &PolyCurve, raw: i128) -> Cal<'static>
    requires low { least_raw ≤ℤ raw }
    requires high { raw ≤ℤ greatest_raw }
    ensures { calibrated_as result ≡ calibrated (polynomial curve.now raw) }
{
    match curve.at(raw) {
        Ok(value) => Cal::Value(value),
        Err(_) => Cal::Over,
    }
}

// The form of a curve by points.
#[tactic(auto, unfolding(mib_model::specs::Curves::calibration, mib_model::specs::Points::by_points))]
fn points_form(alloc: Global, caf: &CafRow, caps: &[CapRow]) -> Result<Form, AllocError>
    requires { HasPointsApart (plan.Points caf.now caps.now) }
    ensures { IfOk result (λ form. IsCompiled form (plan.Points caf.now caps.now)) }
{
    if caf.rawfmt == b'R' {
        return Ok(Form::Real);
    }
    Ok(Form::Points(PointCurve::compile(alloc, caf, caps)?))
}

// The form of a curve by status texts.
#[tactic(auto, unfolding(mib_model::specs::Curves::calibration))]
fn texts_form(alloc: Global, txf: &TxfRow, txps: &[TxpRow]) -> Result<Form, AllocError>
    ensures { IfOk result (λ form. IsCompiled form (plan.Texts txf.now txps.now)) }
{
    if txf.rawfmt == b'R' {
        return Ok(Form::Real);
    }
    Ok(Form::Texts(RangeCurve::compile(alloc, txps)?))
}

// The form of a curve's rows.
#[tactic(auto, unfolding(mib_model::specs::Curves::calibration))]
fn form_of(alloc: Global, rows: &CurveRows) -> Result<Form, AllocError>
    requires { HasPointsApart (rows_of rows.now) }
    ensures { IfOk result (λ form. IsCompiled form (rows_of rows.now)) }
{
    match rows {
        CurveRows::Points { caf, caps } => points_form(alloc, caf, caps),
        CurveRows::Texts { txf, txps } => texts_form(alloc, txf, txps),
        CurveRows::Poly(mcf) => Ok(Form::Poly(PolyCurve::new(&coefficients(mcf)))),
        CurveRows::Log(_) => Ok(Form::Log),
    }
}

impl Curve {
    /// Compiles the rows of a curve, of which no two points stand at one x: so it is in sound tables. An error is want
    /// of memory.
    pub fn compile(alloc: Global, rows: CurveRows) -> Result<Curve, AllocError>
        requires { HasPointsApart (rows_of rows) }
        ensures { IfOk result (λ curve. curve ≡ rows_of rows) }
    {
        let form = form_of(alloc, &rows)?;
        Ok(Curve { form, rows })
    }

    /// The rows compiled.
    pub fn rows(&self) -> &CurveRows
        ensures { rows_of result.now ≡ self.now }
    {
        &self.rows
    }

    /// A number made of its points or ranges: who asks for it early has them at hand when the curve is applied.
    pub fn touch(&self) -> usize {
        match &self.form {
            Form::Points(curve) => curve.touch(),
            Form::Texts(curve) => curve.touch(),
            _ => 0,
        }
    }

    /// What the curve makes of a raw number from -2^63 to 2^64 - 1 (SCOS-2000 Database Import ICD, caf, txf, mcf and
    /// lgf). It takes no memory.
    #[inline(always)]
    pub fn apply(&self, raw: i128) -> Cal<'_>
        requires low { least_raw ≤ℤ raw }
        requires high { raw ≤ℤ greatest_raw }
        ensures { calibrated_as result ≡ calibration self.now raw }
    {
        match &self.form {
            Form::Points(curve) => curve.at(raw),
            Form::Texts(curve) => curve.at(raw),
            Form::Poly(curve) => poly_at(curve, raw),
            Form::Log => Cal::LogCurve,
            Form::Real => Cal::RealCurve,
        }
    }
}
