//! Whole runs: tables and packets in, text out.

ghost use Rattle.mib_examples.specs.LayoutsRuns.{LayoutsRuns};
ghost use Rattle.mib_examples.specs.StructuresRuns.{StructuresRuns};
ghost use Rattle.mib_examples.specs.CalibrationsRuns.{CalibrationsRuns};
ghost use Rattle.mib_examples.specs.ChecksRuns.{ChecksRuns};
ghost use Rattle.mib_examples.specs.PlacesRuns.{PlacesRuns};
ghost use Rattle.mib_examples.specs.LimitsRuns.{LimitsRuns};
ghost use Rattle.mib_examples.specs.EditionRuns.{EditionRuns};
ghost use Rattle.mib_examples.specs.CurvesRuns.{CurvesRuns};

/// Packets of fixed layout: identification, places and raw texts.
#[tactic(auto, using(crate::proofs::ComputedRuns::layouts_runs))]
pub fn layouts_runs()
    ensures { LayoutsRuns }
{}

/// Packets of variable structure.
#[tactic(auto, using(crate::proofs::ComputedRuns::structures_runs))]
pub fn structures_runs()
    ensures { StructuresRuns }
{}

/// Calibrated values.
#[tactic(auto, using(crate::proofs::ComputedRuns::calibrations_runs))]
pub fn calibrations_runs()
    ensures { CalibrationsRuns }
{}

/// Validity, limits and what is told.
#[tactic(auto, using(crate::proofs::ComputedRuns::checks_runs))]
pub fn checks_runs()
    ensures { ChecksRuns }
{}

/// What counts at, between and beyond the points and texts of a curve.
#[tactic(auto, using(crate::proofs::ComputedRuns::curves_runs))]
pub fn curves_runs()
    ensures { CurvesRuns }
{}

/// Which selection and which checks count, and what is checked.
#[tactic(auto, using(crate::proofs::ComputedRuns::limits_runs))]
pub fn limits_runs()
    ensures { LimitsRuns }
{}

/// Identification, occurrences, offsets and sorts.
#[tactic(auto, using(crate::proofs::ComputedRuns::places_runs))]
pub fn places_runs()
    ensures { PlacesRuns }
{}

/// What is kept and what is dropped where the edition changes.
#[tactic(auto, using(crate::proofs::ComputedRegisters::edition_runs))]
pub fn edition_runs()
    ensures { EditionRuns }
{}
