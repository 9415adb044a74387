// What is kept of a parameter where the edition changes.
ghost use Rattle.std.specs.Prelude.{◌≡◌, ◌&&◌, List, ℕ};
ghost use Rattle.std.specs.Cmp.Lexicographic.{pointwise};
ghost use Rattle.param_state.specs.SlotViews.{kept_as};
ghost use Rattle.param_state.specs.ParamPlans.{IsSliceOf, is_same_slice};
ghost use Rattle.mib_model.specs.declared.database.Database.{Database};
ghost use Rattle.mib_model.specs.Carry as Spec;
ghost use Rattle.mib_model.specs.Kept.{Memory};
ghost use Rattle.mib_model.specs.SameRows as Same;

use crate::slot::ParamSlot;
use mib_model::{OcfRow, OcpRow, PcfRow};
use param_plan::Param;

// Whether two rows of pcf are equal.
#[tactic(auto, unfolding(mib_model::specs::Sameness::same_cells))]
fn same_pcf(old: &PcfRow, new: &PcfRow) -> bool
    ensures { result ≡ Same.same_pcf old.now new.now }
{
    old == new
}

// Whether two rows of ocf are equal.
#[tactic(auto, unfolding(mib_model::specs::Sameness::same_cells))]
fn same_ocf(old: &OcfRow, new: &OcfRow) -> bool
    ensures { result ≡ Same.same_ocf old.now new.now }
{
    old == new
}

// Whether two lists of rows of ocp are equal.
fn same_limits(old: &[OcpRow], new: &[OcpRow]) -> bool
    ensures { result ≡ pointwise Same.same_ocp old.now new.now }
{
    old == new
}

// Whether a check is in neither edition, or in both with the same row but for the number of checks.
fn same_check(old: &Option<OcfRow>, new: &Option<OcfRow>) -> bool
    ensures { result ≡ Spec.same_check old.now new.now }
{
    match (old, new) {
        (None, None) => true,
        (Some(old), Some(new)) => {
            let held = OcfRow {
                nbchck: old.nbchck,
                ..*new
            };
            same_ocf(old, &held)
        }
        _ => false,
    }
}

// Whether what was kept of a parameter stays.
fn stays(old: &Param, new: &Param) -> bool
    ensures { result ≡ is_same_slice old.now new.now }
{
    let old = old.rows();
    let new = new.rows();
    same_pcf(&old.pcf, &new.pcf)
        && same_check(&old.ocf, &new.ocf)
        && same_limits(&old.ocps, &new.ocps)
}

// A slot with its run held to the number of checks.
fn held(mut slot: ParamSlot, check: &Option<OcfRow>) -> ParamSlot
    ensures { kept_as result ≡ (record (kept_as slot) { run = Spec.run_for check.now (kept_as slot).run }) }
{
    if let Some(row) = check {
        slot.alarm.hold_run(row.nbchck);
    }
    slot
}

/// What is kept under a new plan of what was kept under an old one.
pub fn carried(kept: &ParamSlot, old: &Param, new: &Param) -> ParamSlot
    ensures { (before after : Database) (memory : Memory) (name : List ℕ) → kept_as kept.now ≡ memory name → IsSliceOf before name old.now
        → IsSliceOf after name new.now → kept_as result ≡ Spec.carry memory before after name }
{
    if kept.is_vacant() {
        return *kept;
    }
    if !stays(old, new) {
        return ParamSlot::new(new.name());
    }
    held(*kept, &new.rows().ocf)
}
