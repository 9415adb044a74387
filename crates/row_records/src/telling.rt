// The lines of a packet's values.
ghost use Rattle.std.specs.Prelude.{◌≡◌, ◌≤◌, ◌≤ℤ◌, ◌+◌, ◌*◌, ◌++◌, length, OnOk};
ghost use Rattle.std.specs.List.{All, flat_map};
ghost use Rattle.mib_model.specs.AlarmTexts.{change_text_of};
ghost use Rattle.mib_model.specs.Finish as Finish;
ghost use Rattle.mib_model.specs.Fixed.{most_values};
ghost use Rattle.mib_model.specs.Texts as Spec;
ghost use Rattle.mib_model.specs.WholeNumbers.{greatest_raw, least_raw};
ghost use Rattle.record_text.specs.declared.lines.TheConstants.{LINES_ROOM, LINE_MOST, NOTE_ROOM, VALUE_ROOM};
ghost use Rattle.row_interpreter.specs.Memories.{memory_of};
ghost use Rattle.row_interpreter.specs.Readings.{IsOf};

use crate::finishing::finish;
use mib_model::{Change, Name, Value};
use record_text::{Lines, change_line, value_line};
use row_interpreter::Memory;
use row_searches::RowSearches;
use std::alloc::{AllocError, Global};

// Appends the line of a change, where one is told.
fn tell_change(name: Name, change: Option<Change>, out: &mut Lines)
    requires { length out.old + LINE_MOST ≤ LINES_ROOM }
    ensures text { out.new ≡ out.old ++ change_text_of name change }
    ensures room { length out.new ≤ length out.old + NOTE_ROOM }
{
    if let Some(change) = change {
        change_line(name, change, out);
    }
}

// The number of a value that has the number of its bits is a raw number.
fn lies(packet: &[u8], value: &Value)
    requires { IsOf packet.now value.now }
    ensures low { least_raw ≤ℤ value.now.raw }
    ensures high { value.now.raw ≤ℤ greatest_raw }
{
    let _width = value.shape.width();
}

// Finishes a value, and appends its line and that of a change.
fn tell_value(
    alloc: Global,
    rows: &RowSearches,
    packet: &[u8],
    memory: &mut Memory,
    value: &Value,
    out: &mut Lines,
) -> Result<(), AllocError>
    requires of { IsOf packet.now value.now }
    requires room { length out.old + VALUE_ROOM + LINE_MOST ≤ LINES_ROOM }
    ensures memory { OnOk result (memory_of memory.new ≡ (Finish.finished rows.now (memory_of memory.old) value.now).0) }
    ensures text { OnOk result (out.new ≡ out.old ++ Spec.told_text packet.now (Finish.finished rows.now (memory_of memory.old) value.now).1) }
    ensures room { OnOk result (length out.new ≤ length out.old + (VALUE_ROOM + NOTE_ROOM)) }
{
    lies(packet, value);
    let (tail, change) = finish(alloc, rows, memory, value)?;
    value_line(value, packet, &tail, out);
    tell_change(value.name, change, out);
    Ok(())
}

/// Finishes values, in their order, and appends their lines. An error is want of memory.
pub(crate) fn tell_all(
    alloc: Global,
    rows: &RowSearches,
    packet: &[u8],
    memory: &mut Memory,
    values: &[Value],
    out: &mut Lines,
) -> Result<(), AllocError>
    requires of { All (IsOf packet.now) values.now }
    requires few { length values.now ≤ most_values }
    requires room { length out.old + most_values * (VALUE_ROOM + NOTE_ROOM) + LINE_MOST ≤ LINES_ROOM }
    ensures memory { OnOk result (memory_of memory.new ≡ (Finish.all_finished rows.now (memory_of memory.old) values.now).0) }
    ensures text { OnOk result (out.new ≡ out.old ++ flat_map (Spec.told_text packet.now) (Finish.all_finished rows.now (memory_of memory.old) values.now).1) }
    ensures room { OnOk result (length out.new ≤ length out.old + most_values * (VALUE_ROOM + NOTE_ROOM)) }
{
    for value in values {
        tell_value(alloc, rows, packet, memory, value, out)?;
    }
    Ok(())
}
