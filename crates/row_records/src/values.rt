// The values of a packet that was found.
ghost use Rattle.std.specs.Prelude.{◌≡◌, ◌≤◌, length, IfOk};
ghost use Rattle.std.specs.List.{All};
ghost use Rattle.mib_model.specs.Fixed.{fixed_values, most_values};
ghost use Rattle.mib_model.specs.Interpreter as Spec;
ghost use Rattle.row_interpreter.specs.Readings.{IsOf};

use mib_model::{Ended, Found, Value};
use row_searches::RowSearches;
use row_walk::structure_values;
use std::alloc::{AllocError, Global};

// The values of a packet of fixed layout, and how they end.
fn layout_values(
    alloc: Global,
    rows: &RowSearches,
    spid: u32,
    packet: &[u8],
) -> Result<(Vec<Value>, Ended), AllocError>
    ensures values { IfOk result (λ read. (read.0.items, read.1) ≡ fixed_values rows.now spid packet.now) }
    ensures few { IfOk result (λ read. length read.0.items ≤ most_values) }
    ensures all { IfOk result (λ read. All (IsOf packet.now) read.0.items) }
{
    let mut values = Vec::new(alloc);
    let ended = rows.fixed_values(spid, packet, &mut values)?;
    Ok((values, ended))
}

/// The values of a packet that was found so, and how they end: by its structure where it names one, else by its layout.
/// An error is want of memory.
#[tactic(auto, unfolding(mib_model::specs::Interpreter::values_of))]
pub(crate) fn values_of(
    alloc: Global,
    rows: &RowSearches,
    packet: &[u8],
    found: &Found,
) -> Result<(Vec<Value>, Ended), AllocError>
    requires { length packet.now ≤ 65542 }
    ensures values { IfOk result (λ read. (read.0.items, read.1) ≡ Spec.values_of rows.now packet.now found.now) }
    ensures few { IfOk result (λ read. length read.0.items ≤ most_values) }
    ensures all { IfOk result (λ read. All (IsOf packet.now) read.0.items) }
{
    let Found::Spid {
        spid,
        tpsd,
        dfhsize,
        ..
    } = *found
    else {
        return Ok((Vec::new(alloc), Ended::Whole));
    };
    if tpsd < 1 {
        layout_values(alloc, rows, spid, packet)
    } else {
        structure_values(alloc, rows, i128::from(tpsd), dfhsize, packet)
    }
}
