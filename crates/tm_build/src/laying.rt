// The values that items are in a packet of a row.
ghost use Rattle.std.specs.Prelude.{◌≡◌, ◌≤◌, take, length, false, Ok, Err, IfOk, IfErr};
ghost use Rattle.mib_model.specs.Fixed.{has_layout, most_values};
ghost use Rattle.bit_field.specs.Taken.{taken, KeepsSlots};
ghost use Rattle.build_rules.specs.Laying as Spec;
ghost use Rattle.build_rules.specs.Laying.{laid, values_by};

use crate::layout::lay_rows;
use crate::numbers::ItemNumbers;
use crate::tables::PacketTables;
use bit_field::Values;
use build_rules::{BuildFault, Item};
use mib_model::{Ended, PidRow, Value};
use struct_plan::{Numbers, Structures, WalkEnd, walk_by};

// The values that a source has along the structure of a row, and why they end.
fn lay_structure<N: Numbers>(
    tables: &PacketTables<'_>,
    row: &PidRow,
    numbers: &N,
    values: &mut Values,
) -> WalkEnd
    requires structure { has_layout row.now ≡ false }
    requires slots { length values.old.slots.now ≡ most_values }
    requires used { values.old.used ≡ 0 }
    ensures values { (taken values.new, result) ≡ values_by tables.now row.now (N.source numbers.now) }
    ensures stays { KeepsSlots values.old values.new }
{
    if tables.structure(i128::from(row.tpsd)).is_none() {
        return WalkEnd::Ended(Ended::Whole);
    }
    let start = 8 * (6 + u64::from(row.dfhsize));
    walk_by(tables, row.tpsd as u32, start, numbers, values)
}

// The values that a source has for a packet of a row, and why they end.
fn lay<N: Numbers>(
    tables: &PacketTables<'_>,
    row: &PidRow,
    numbers: &N,
    values: &mut Values,
) -> WalkEnd
    requires slots { length values.old.slots.now ≡ most_values }
    requires used { values.old.used ≡ 0 }
    ensures values { (taken values.new, result) ≡ values_by tables.now row.now (N.source numbers.now) }
    ensures stays { KeepsSlots values.old values.new }
{
    if row.has_layout() {
        let rows = tables.places(row.spid);
        return lay_rows(numbers, rows, tables.parameters(), values);
    }
    lay_structure(tables, row, numbers, values)
}

// The fault of values that end so, which so many items are to be.
fn fault_of(items: usize, used: u32, why: WalkEnd) -> Option<BuildFault>
    requires { used ≤ most_values }
    ensures { result ≡ Spec.fault_at items used why }
{
    let at = used + 1;
    match why {
        WalkEnd::Missing => Some(BuildFault::Items { at }),
        WalkEnd::Unfit => Some(BuildFault::Range { at }),
        WalkEnd::Ended(Ended::Whole) if items <= used as usize => None,
        WalkEnd::Ended(Ended::Whole) => Some(BuildFault::Items { at }),
        WalkEnd::Ended(ended) => Some(BuildFault::Ends { ended }),
    }
}

/// Lays items as the values of a packet of a row, at the front of slots: how many there are, or the first fault.
pub fn lay_items(
    tables: &PacketTables<'_>,
    row: &PidRow,
    items: &[Item],
    slots: &mut [Value],
) -> Result<u32, BuildFault>
    requires { length slots.old ≡ most_values }
    ensures laid { IfOk result (λ used. laid tables.now row.now items.now ≡ Ok (take used slots.new)) }
    ensures few { IfOk result (λ used. used ≤ most_values) }
    ensures fault { IfErr result (λ fault. laid tables.now row.now items.now ≡ Err fault) }
{
    let mut values = Values { slots, used: 0 };
    let why = lay(tables, row, &ItemNumbers::new(items), &mut values);
    match fault_of(items.len(), values.used, why) {
        Some(fault) => Err(fault),
        None => Ok(values.used),
    }
}
