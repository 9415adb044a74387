// The parameter that a row of a structure gives a value of, and the bits of that value.
ghost use Rattle.std.specs.Prelude.{◌≡◌, ◌≤◌, length, option_and_then, option_map};
ghost use Rattle.std.specs.Option.{option_copied};
ghost use Rattle.mib_model.specs.Structures as Spec;
ghost use Rattle.row_walk.specs.Walks.{value_there};

use bit_field::take;
use mib_model::{Name, PcfRow, Shape, Value, VpdRow};
use row_interpreter::shape_for;
use row_searches::RowSearches;

// The parameter of a row: its own, or where that has PTC 11 the one whose number was given last.
fn subject<'a>(rows: &'a RowSearches, last: i128, row: &VpdRow) -> Option<&'a PcfRow>
    ensures { option_copied result ≡ Spec.subject rows.now last row.now }
{
    let own = rows.parameter(&row.name)?;
    if own.is_deduced() {
        rows.deduced(last)
    } else {
        Some(own)
    }
}

// A parameter with what its bits are, where its type is known.
fn typed(row: Option<&PcfRow>) -> Option<(PcfRow, Shape)>
    ensures { result ≡ option_and_then Spec.typed (option_copied row.entry) }
{
    let row = row?;
    let shape = shape_for(row)?;
    Some((*row, shape))
}

/// The parameter of a row with what its bits are, where both are known.
pub(crate) fn typed_subject(rows: &RowSearches, last: i128, row: &VpdRow) -> Option<(PcfRow, Shape)>
    ensures { result ≡ option_and_then Spec.typed (Spec.subject rows.now last row.now) }
{
    typed(subject(rows, last, row))
}

/// How far a value moves the walk.
pub(crate) fn moved_by(row: &PcfRow, shape: Shape) -> u32
    ensures { result ≡ Spec.moved_by (row.now, shape) }
{
    if row.width == 0 {
        u32::from(shape.width())
    } else {
        row.width
    }
}

/// How often a raw number says that a group is walked.
pub(crate) fn times(raw: i128) -> u128
    ensures { result ≡ Spec.times raw }
{
    if raw < 0 { 0 } else { raw as u128 }
}

/// The value of a name at a bit, if it lies in the packet.
pub(crate) fn value_at(packet: &[u8], cursor: i128, name: Name, shape: Shape) -> Option<Value>
    requires { length packet.now ≤ 65542 }
    ensures { result ≡ value_there packet.now cursor name shape }
{
    let at = u64::try_from(cursor).ok()?;
    take(packet, at, name, shape)
}
