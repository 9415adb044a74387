// The curve of a parameter, and what it makes of a raw number.
ghost use Rattle.std.specs.Prelude.{◌≡◌, ◌≤ℤ◌, IfOk, option_map};
ghost use Rattle.std.specs.List.{find};
ghost use Rattle.std.specs.Option.{option_copied, option_or};
ghost use Rattle.mib_model.specs.Calibrated.{calibrated};
ghost use Rattle.mib_model.specs.CalibrationViews.{calibrated_as};
ghost use Rattle.mib_model.specs.Curves as Spec;
ghost use Rattle.mib_model.specs.Kept.{holds};
ghost use Rattle.mib_model.specs.Polynomials as Polynomials;
ghost use Rattle.mib_model.specs.WholeNumbers.{greatest_raw, least_raw};
ghost use Rattle.row_curves.specs.Views.{curve_as};
ghost use Rattle.row_interpreter.specs.Memories.{memory_of};

use crate::points::on_points;
use crate::texts::on_texts;
use dec_num::poly;
use mib_model::{CafRow, Cal, CapRow, CurRow, Dec, LgfRow, McfRow, Name, PcfRow, TxfRow, TxpRow};
use row_interpreter::Memory;
use row_searches::RowSearches;
use std::alloc::{AllocError, Global};

/// The rows of a curve.
#[derive(Clone, Copy)]
pub enum RowCurve<'a> {
    /// A curve by points, with its points in the order of their file.
    Points { caf: &'a CafRow, caps: &'a [CapRow] },
    /// A curve by status texts, with its ranges in the order of their file.
    Texts { txf: &'a TxfRow, txps: &'a [TxpRow] },
    Poly(&'a McfRow),
    Log(&'a LgfRow),
}

// The curve by points of a name.
fn points_named<'a>(rows: &'a RowSearches, name: &Name) -> Option<RowCurve<'a>>
    ensures { option_map curve_as result ≡ Spec.points_named rows.now name.now }
{
    let caf = rows.curves().point_curve(name)?;
    Some(RowCurve::Points {
        caf,
        caps: rows.curves().points(name),
    })
}

// The curve by texts of a name.
fn texts_named<'a>(rows: &'a RowSearches, name: &Name) -> Option<RowCurve<'a>>
    ensures { option_map curve_as result ≡ Spec.texts_named rows.now name.now }
{
    let txf = rows.curves().text_curve(name)?;
    Some(RowCurve::Texts {
        txf,
        txps: rows.curves().texts(name),
    })
}

// The polynomial of a name.
fn poly_named<'a>(rows: &'a RowSearches, name: &Name) -> Option<RowCurve<'a>>
    ensures { option_map curve_as result ≡ Spec.poly_named rows.now name.now }
{
    Some(RowCurve::Poly(rows.curves().polynomial(name)?))
}

// The logarithmic curve of a name.
fn log_named<'a>(rows: &'a RowSearches, name: &Name) -> Option<RowCurve<'a>>
    ensures { option_map curve_as result ≡ Spec.log_named rows.now name.now }
{
    Some(RowCurve::Log(rows.curves().logarithm(name)?))
}

// The first of the points, the polynomial and the logarithm of a name.
fn number_curve<'a>(rows: &'a RowSearches, name: &Name) -> Option<RowCurve<'a>>
    ensures { option_map curve_as result ≡ option_or (Spec.points_named rows.now name.now)
        (option_or (Spec.poly_named rows.now name.now) (Spec.log_named rows.now name.now)) }
{
    let points = points_named(rows, name);
    if points.is_some() {
        return points;
    }
    let poly = poly_named(rows, name);
    if poly.is_some() {
        return poly;
    }
    log_named(rows, name)
}

// The curve of a name for a category.
#[tactic(auto, unfolding(mib_model::specs::Curves::curve_named))]
fn curve_named<'a>(rows: &'a RowSearches, categ: u8, name: &Name) -> Option<RowCurve<'a>>
    ensures { option_map curve_as result ≡ Spec.curve_named rows.now categ name.now }
{
    match categ {
        b'S' => texts_named(rows, name),
        b'T' => None,
        _ => number_curve(rows, name),
    }
}

// The first selection whose condition holds.
fn selection<'a>(selections: &'a [CurRow], memory: &Memory) -> Option<&'a CurRow>
    ensures { option_copied result ≡ find (λ cur. holds (memory_of memory.now) cur.rlchk cur.valpar) selections.now }
{
    selections
        .iter()
        .find(|cur| memory.holds(&cur.rlchk, cur.valpar))
}

// The name of a parameter's curve: its own, else that of the first selection whose condition holds.
fn selected(rows: &RowSearches, row: &PcfRow, memory: &Memory) -> Option<Name>
    ensures { result ≡ Spec.selected rows.now row.now (memory_of memory.now) }
{
    if row.curtx.is_some() {
        return row.curtx;
    }
    match selection(rows.selections(&row.name), memory) {
        Some(cur) => Some(cur.curve),
        None => None,
    }
}

// The curve that a parameter's values are taken by, if there is one.
#[tactic(auto, unfolding(mib_model::specs::Curves::curve_of))]
fn curve_of<'a>(rows: &'a RowSearches, row: &PcfRow, memory: &Memory) -> Option<RowCurve<'a>>
    ensures { option_map curve_as result ≡ Spec.curve_of rows.now row.now (memory_of memory.now) }
{
    let name = selected(rows, row, memory)?;
    curve_named(rows, row.categ, &name)
}

// The five coefficients, that of the power 0 first.
fn coefficients(row: &McfRow) -> [Dec; 5]
    ensures { result ≡ Polynomials.coefficients row.now }
{
    [row.pol1, row.pol2, row.pol3, row.pol4, row.pol5]
}

// What a polynomial makes of a raw number.
fn on_polynomial(row: &McfRow, raw: i128) -> Cal<'static>
    requires low { least_raw ≤ℤ raw }
    requires high { raw ≤ℤ greatest_raw }
    ensures { calibrated_as result ≡ calibrated (Polynomials.polynomial (Polynomials.coefficients row.now) raw) }
{
    match poly(&coefficients(row), raw) {
        Ok(value) => Cal::Value(value),
        Err(_) => Cal::Over,
    }
}

// What a curve makes of a raw number.
#[tactic(auto, unfolding(mib_model::specs::Curves::calibration))]
fn calibration<'a>(alloc: Global, curve: RowCurve<'a>, raw: i128) -> Result<Cal<'a>, AllocError>
    requires low { least_raw ≤ℤ raw }
    requires high { raw ≤ℤ greatest_raw }
    ensures { IfOk result (λ cal. calibrated_as cal ≡ Spec.calibration (curve_as curve.entry) raw) }
{
    match curve {
        RowCurve::Points { caf, .. } if caf.rawfmt == b'R' => Ok(Cal::RealCurve),
        RowCurve::Points { caf, caps } => on_points(alloc, caf, caps, raw),
        RowCurve::Texts { txf, .. } if txf.rawfmt == b'R' => Ok(Cal::RealCurve),
        RowCurve::Texts { txps, .. } => Ok(on_texts(txps, raw)),
        RowCurve::Poly(mcf) => Ok(on_polynomial(mcf, raw)),
        RowCurve::Log(_) => Ok(Cal::LogCurve),
    }
}

/// What the curve of a parameter makes of a raw number, if there is a curve. An error is want of memory.
pub fn calibrated<'a>(
    alloc: Global,
    rows: &'a RowSearches,
    row: &PcfRow,
    memory: &Memory,
    raw: i128,
) -> Result<Option<Cal<'a>>, AllocError>
    requires low { least_raw ≤ℤ raw }
    requires high { raw ≤ℤ greatest_raw }
    ensures { IfOk result (λ cal. option_map calibrated_as cal
        ≡ option_map (λ curve. Spec.calibration curve raw) (Spec.curve_of rows.now row.now (memory_of memory.now))) }
{
    match curve_of(rows, row, memory) {
        Some(curve) => Ok(Some(calibration(alloc, curve, raw)?)),
        None => Ok(None),
    }
}
