// What is kept where the edition changes from one packet to the next.
ghost use Rattle.std.specs.Prelude.{◌≡◌, IfOk, OnOk};
ghost use Rattle.std.specs.Cmp.Lexicographic.{pointwise};
ghost use Rattle.std.specs.Option.{option_copied};
ghost use Rattle.mib_model.specs.Carry as Spec;
ghost use Rattle.mib_model.specs.Kept.{Memory as KeptMemory, keeping};
ghost use Rattle.mib_model.specs.SameRows.{same_ocf, same_ocp, same_pcf};
ghost use Rattle.row_interpreter.specs.Memories.{kept_as, memory_of};

use mib_model::{Name, OcfRow, OcpRow, PcfRow};
use row_interpreter::{KeptOf, Memory};
use row_searches::RowSearches;
use std::alloc::{AllocError, Global};

// Whether two rows of pcf are equal.
#[tactic(auto, unfolding(mib_model::specs::Sameness::same_cells))]
fn equal_pcf(old: &PcfRow, new: &PcfRow) -> bool
    ensures { result ≡ same_pcf old.now new.now }
{
    old == new
}

// Whether two rows of ocf are equal.
#[tactic(auto, unfolding(mib_model::specs::Sameness::same_cells))]
fn equal_ocf(old: &OcfRow, new: &OcfRow) -> bool
    ensures { result ≡ same_ocf old.now new.now }
{
    old == new
}

// Whether a parameter is in both editions with the same row.
fn stays(old: Option<&PcfRow>, new: Option<&PcfRow>) -> bool
    ensures { result ≡ Spec.stays (option_copied old.entry) (option_copied new.entry) }
{
    match (old, new) {
        (Some(old), Some(new)) => equal_pcf(old, new),
        _ => false,
    }
}

// Whether a check is in neither edition, or in both with the same row but for the number of checks.
fn same_check(old: Option<&OcfRow>, new: Option<&OcfRow>) -> bool
    ensures { result ≡ Spec.same_check (option_copied old.entry) (option_copied new.entry) }
{
    match (old, new) {
        (None, None) => true,
        (Some(old), Some(new)) => {
            let held = OcfRow {
                nbchck: old.nbchck,
                ..*new
            };
            equal_ocf(old, &held)
        }
        _ => false,
    }
}

// Whether limits are the same.
fn same_limits(old: &[OcpRow], new: &[OcpRow]) -> bool
    ensures { result ≡ pointwise same_ocp old.now new.now }
{
    old == new
}

// Whether what was kept of a name stays.
#[tactic(auto, unfolding(mib_model::specs::Carry::is_carried))]
fn is_carried(old: &RowSearches, new: &RowSearches, name: &Name) -> bool
    ensures { result ≡ Spec.is_carried old.now new.now name.now }
{
    stays(old.parameter(name), new.parameter(name))
        && same_check(old.check(name), new.check(name))
        && same_limits(old.limits(name), new.limits(name))
}

// A run, held to the new number of checks.
fn run_for(check: Option<&OcfRow>, run: u8) -> u8
    ensures { result ≡ Spec.run_for (option_copied check.entry) run }
{
    match check {
        Some(row) => run.min(row.nbchck),
        None => run,
    }
}

// What is kept of a name under the new edition, of what was kept of it.
#[tactic(auto, unfolding(mib_model::specs::Carry::carry))]
fn kept_under(kept: KeptOf, old: &RowSearches, new: &RowSearches, name: &Name) -> KeptOf
    ensures { (memory : KeptMemory) → memory name.now ≡ kept_as kept → kept_as result ≡ Spec.carry memory old.now new.now name.now }
{
    if is_carried(old, new, name) {
        KeptOf {
            run: run_for(new.check(name), kept.run),
            ..kept
        }
    } else {
        KeptOf {
            latest: None,
            spoken: None,
            run: 0,
            previous: None,
        }
    }
}

// Carries what was kept of a name over.
fn carry_name(
    memory: &Memory,
    old: &RowSearches,
    new: &RowSearches,
    name: &Name,
    carried: &mut Memory,
) -> Result<(), AllocError>
    ensures { OnOk result (memory_of carried.new
        ≡ keeping (memory_of carried.old) name.now (Spec.carry (memory_of memory.now) old.now new.now name.now)) }
{
    carried.keep(*name, kept_under(memory.of(name), old, new, name))
}

/// What is kept of all names under the new edition. An error is want of memory.
pub(crate) fn carried(
    alloc: Global,
    memory: &Memory,
    old: &RowSearches,
    new: &RowSearches,
) -> Result<Memory, AllocError>
    ensures { IfOk result (λ carried. memory_of carried ≡ Spec.carry (memory_of memory.now) old.now new.now) }
{
    let mut carried = Memory::new(alloc);
    let names = new.names();
    for name in names {
        carry_name(memory, old, new, name, &mut carried)?;
    }
    Ok(carried)
}
