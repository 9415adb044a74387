ghost use Rattle.std.specs.Prelude.{◌≡◌, ◌≤ℤ◌, ◌+◌, option_map, option_and_then, true, IfOk, IsTrue, OnOk, OnErr};
ghost use Rattle.std.specs.List.{find};
ghost use Rattle.std.specs.Option.{option_copied};
ghost use Rattle.std.specs.Str.{bytes_eq};
ghost use Rattle.mib_model.specs.CalibrationViews.{calibrated_as};
ghost use Rattle.mib_model.specs.Curves.{calibration};
ghost use Rattle.mib_model.specs.Finish.{is_valid};
ghost use Rattle.mib_model.specs.Kept.{Memory, empty_memory};
ghost use Rattle.mib_model.specs.WholeNumbers.{least_raw, greatest_raw};
ghost use Rattle.param_plan.specs.Choices.{is_met, selections_in};
ghost use Rattle.param_plan.specs.Plain.{is_plain};
ghost use Rattle.param_plan.specs.Slices.{slice_of, curve_in, checks_in};

use crate::choice::{Choice, Selection, only_of, selected_by, selections_of};
use crate::rows::ParamRows;
use check_plan::{Checks, Holds, is_met};
use curve_plan::Curve;
use mib_model::{Cal, Name, OcfRow, OcpRow, Steps};
use std::alloc::{AllocError, Global};
use std::marker::Model;
use std::sync::ledger::Ledger;

/// The rows of a parameter, compiled. What is asked of it for each value lies together, and the rows lie apart. Contracts
/// see the rows.
pub struct Param {
    name: Name,
    conditional: bool,
    decim: u8,
    without_selections: bool,
    only: Choice,
    checks: Option<Checks>,
    selections: Vec<Selection>,
    rows: Box<ParamRows>,
}

/// By hand, so that whoever lets one go proves one call.
impl Drop for Param {
    fn drop(self) {
        let Param {
            name: _,
            conditional: _,
            decim: _,
            without_selections: _,
            only: _only,
            checks: _checks,
            selections: _selections,
            rows: _rows,
        } = self;
    }
}

impl Model for Param {
    ghost use Rattle.param_plan.specs.Slices.{ParamSlice, slice_of};
    ghost use Rattle.param_plan.specs.Parts.{ArePartsOf};

    ghost Value = { ParamSlice };

    ghost view = { λ param. slice_of param.rows.value };

    ghost invariant = { λ param. ArePartsOf (slice_of param.rows.value) param.name param.conditional param.decim param.without_selections
        param.only param.selections.items param.checks };
}

// The checks of a parameter that has a row of ocf.
fn checks_of(
    alloc: Global,
    ocf: &Option<OcfRow>,
    ocps: &[OcpRow],
) -> Result<Option<Checks>, AllocError>
    ensures { IfOk result (λ checks. checks ≡ option_map (λ row. record { ocf = row; ocps = ocps.now }) ocf.now) }
{
    match ocf {
        Some(ocf) => Ok(Some(Checks::compile(alloc, ocf, ocps)?)),
        None => Ok(None),
    }
}

impl Param {
    // The plan of rows.
    fn of_rows(alloc: Global, rows: ParamRows) -> Result<Param, AllocError>
        ensures { IfOk result (λ param. param ≡ slice_of rows) }
    {
        let pcf = rows.pcf;
        let selections = selections_of(alloc, pcf.curtx, &rows.curs, &rows.curves)?;
        Ok(Param {
            name: pcf.name,
            conditional: pcf.valid.is_some(),
            decim: pcf.decim,
            without_selections: selections.is_empty(),
            only: only_of(pcf.curtx, &rows.curves)?,
            checks: checks_of(alloc, &rows.ocf, &rows.ocps)?,
            selections,
            rows: Box::new(alloc, rows)?,
        })
    }

    /// Compiles the rows of a parameter, whose curves are compiled. It takes one step. An error is want of memory, and takes
    /// no step.
    pub fn compile<L: Ledger>(
        alloc: Global,
        rows: ParamRows,
        steps: &mut Steps<L>,
    ) -> Result<Param, AllocError>
        ensures rows { IfOk result (λ param. param ≡ slice_of rows) }
        ensures step { OnOk result (steps.new ≡ steps.old + 1) }
        ensures refused { OnErr result (steps.new ≡ steps.old) }
    {
        let param = Param::of_rows(alloc, rows)?;
        steps.tick();
        Ok(param)
    }

    /// A number made of the plan's own octets: who asks for it early, and then for `touch_parts`, has the plan at hand when a
    /// value is finished.
    pub fn touch(&self) -> usize {
        usize::from(self.decim) ^ usize::from(self.checks.is_some())
    }

    /// A number made of the first limits and of the curve of CURTX.
    pub fn touch_parts(&self) -> usize {
        let checks = match &self.checks {
            Some(checks) => checks.touch(),
            None => 0,
        };
        let curve = match self.only.curve() {
            Some(curve) => curve.touch(),
            None => 0,
        };
        checks ^ curve
    }

    /// A number made of the rows: who asks for it early has them at hand when they are compared.
    pub fn touch_rows(&self) -> usize {
        let rows = &self.rows;
        let limit = match rows.ocps.first() {
            Some(limit) => usize::from(limit.pos == 0),
            None => 0,
        };
        limit ^ usize::from(rows.pcf.ptc == 0) ^ usize::from(rows.ocf.is_some())
    }

    /// The rows compiled.
    pub fn rows(&self) -> &ParamRows
        ensures { slice_of result.now ≡ self.now }
    {
        &self.rows
    }

    /// How many decimals are shown.
    pub fn decimals(&self) -> u8
        ensures { result ≡ self.now.pcf.decim }
    {
        self.decim
    }

    /// The parameter's name.
    #[inline(always)]
    pub fn name(&self) -> Name
        ensures { result ≡ self.now.pcf.name }
    {
        self.name
    }

    /// Whether this is the parameter's name.
    #[inline(always)]
    pub fn is_named(&self, name: &Name) -> bool
        ensures { result ≡ bytes_eq self.now.pcf.name name.now }
    {
        self.name == *name
    }

    /// Whether there is no condition and no selection, so that each value is valid and its curve is that of CURTX, if any,
    /// whatever is kept.
    #[inline(always)]
    pub fn is_settled(&self) -> bool
        ensures valid { IsTrue result → (memory : Memory) → is_valid memory self.now.pcf ≡ true }
        ensures curve { IsTrue result → (memory : Memory) → curve_in self.now memory ≡ curve_in self.now empty_memory }
    {
        !self.conditional && self.without_selections
    }

    /// The checks, where the parameter has a row of ocf.
    pub fn checks(&self) -> Option<&Checks>
        ensures { option_copied result ≡ checks_in self.now }
    {
        self.checks.as_ref()
    }

    /// Whether the parameter has no condition, no curve and no check, so that of a value the raw number alone is shown.
    #[tactic(auto, unfolding(crate::specs::Plain::is_plain))]
    pub fn is_plain(&self) -> bool
        ensures { result ≡ is_plain self.now }
    {
        !self.conditional
            && !self.only.is_some()
            && self.selections.is_empty()
            && !self.checks.is_some()
    }

    /// Whether a value is valid: VALID names no parameter, or its latest raw number is VALPAR (SCOS-2000 Database Import
    /// ICD, pcf).
    pub fn valid<K: Holds>(&self, kept: &K) -> bool
        ensures { result ≡ is_valid (K.memory kept.now) self.now.pcf }
    {
        if !self.conditional {
            return true;
        }
        is_met(self.rows.pcf.valid, self.rows.pcf.valpar, kept)
    }

    // The curve of the first selection whose condition holds.
    fn selected_curve<K: Holds>(&self, kept: &K) -> Option<&Curve>
        ensures { option_copied result ≡ option_and_then (λ selection. selection.choice)
            (find (is_met (K.memory kept.now)) (selections_in self.now.pcf.curtx self.now.curs self.now.curves)) }
    {
        if self.without_selections {
            return None;
        }
        selected_by(&self.selections, kept)
    }

    // The curve that values are taken by.
    fn curve<K: Holds>(&self, kept: &K) -> Option<&Curve>
        ensures { option_copied result ≡ curve_in self.now (K.memory kept.now) }
    {
        match self.only.curve() {
            Some(curve) => Some(curve),
            None => self.selected_curve(kept),
        }
    }

    /// What the parameter's curve makes of a raw number from -2^63 to 2^64 - 1, where there is a curve: that of CURTX, else
    /// that of the first selection whose condition holds (SCOS-2000 Database Import ICD, cur). It takes no memory.
    pub fn calibrate<K: Holds>(&self, raw: i128, kept: &K) -> Option<Cal<'_>>
        requires low { least_raw ≤ℤ raw }
        requires high { raw ≤ℤ greatest_raw }
        ensures { option_map calibrated_as result ≡ option_map (λ rows. calibration rows raw) (curve_in self.now (K.memory kept.now)) }
    {
        Some(self.curve(kept)?.apply(raw))
    }
}
