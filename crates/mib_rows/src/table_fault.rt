// Faults of tables and their rows.
ghost use Rattle.std.specs.Prelude.{◌≡◌};
ghost use Rattle.mib_model.specs.Reading.{fault_at};

use mib_model::{Kind, LineFault, MibFault};

/// A fault of a table and a row.
pub fn fault_in_row(table: Kind, row: u32, fault: LineFault) -> MibFault
    ensures { result ≡ fault_at table row fault }
{
    MibFault {
        table,
        row,
        column: fault.column,
        first: 0,
        code: fault.code,
    }
}
