// The raw numbers of a packet, which are entered before its values are finished.
ghost use Rattle.std.specs.Prelude.{◌≡◌, OnOk};
ghost use Rattle.mib_model.specs.Kept as Spec;
ghost use Rattle.row_interpreter.specs.Memories.{memory_of};

use mib_model::{Sort, Value};
use row_interpreter::{KeptOf, Memory};
use std::alloc::AllocError;

/// Whether values of a sort have raw numbers.
pub(crate) fn has_number(sort: Sort) -> bool
    ensures { result ≡ Spec.has_number sort }
{
    matches!(sort, Sort::Unsigned | Sort::Signed)
}

// Enters the raw number of a value, if it has one.
fn enter(memory: &mut Memory, value: &Value) -> Result<(), AllocError>
    ensures { OnOk result (memory_of memory.new ≡ Spec.entered (memory_of memory.old) value.now) }
{
    if !has_number(value.shape.sort()) {
        return Ok(());
    }
    let kept = memory.of(&value.name);
    memory.keep(
        value.name,
        KeptOf {
            latest: Some(value.raw),
            ..kept
        },
    )
}

/// Enters the raw numbers of values, in their order. An error is want of memory.
pub(crate) fn enter_all(memory: &mut Memory, values: &[Value]) -> Result<(), AllocError>
    ensures { OnOk result (memory_of memory.new ≡ Spec.all_entered (memory_of memory.old) values.now) }
{
    for value in values {
        enter(memory, value)?;
    }
    Ok(())
}
