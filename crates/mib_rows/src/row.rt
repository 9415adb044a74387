// The row of a table, and of any table.
ghost use Rattle.std.specs.Prelude.{◌≡◌, List, ℕ, Result};
ghost use Rattle.mib_model.specs.Attempts.{made_into};
ghost use Rattle.mib_model.specs.RowTexts.{row_of};
ghost use Rattle.mib_model.specs.declared.line_fault.LineFault.{LineFault};

use crate::fields::Fields;
use mib_model::{
    CafRow, CapRow, CurRow, Kind, LgfRow, LineFault, McfRow, OcfRow, OcpRow, PcfRow, PicRow,
    PidRow, PlfRow, Row, TableRow, TpcfRow, TxfRow, TxpRow, VpdRow,
};

/// A row of one table that is read from the fields of a line.
pub trait ReadRow: TableRow {
    ghost reads: { List (List ℕ) → Result Self LineFault };

    /// The row that the fields of a line are, or the first fault.
    fn read(row: &Fields) -> Result<Self, LineFault>
        ensures { result ≡ reads row.now };

    // It is the row that the definitions give.
    ghost is_row: { (fields : List (List ℕ)) → row_of Self.TableRow.kind fields ≡ made_into Self.TableRow.as_row (reads fields) };
}

// The row of a table, as a row of any.
fn row_as<R: ReadRow>(fields: &Fields) -> Result<Row, LineFault>
    ensures { result ≡ row_of R.kind fields.now }
{
    Ok(R::read(fields)?.to_row())
}

/// The row of a table that the fields of a line are, or the first fault.
pub fn row(kind: Kind, fields: &Fields) -> Result<Row, LineFault>
    ensures { result ≡ row_of kind fields.now }
{
    match kind {
        Kind::Pcf => row_as::<PcfRow>(fields),
        Kind::Pid => row_as::<PidRow>(fields),
        Kind::Pic => row_as::<PicRow>(fields),
        Kind::Tpcf => row_as::<TpcfRow>(fields),
        Kind::Plf => row_as::<PlfRow>(fields),
        Kind::Vpd => row_as::<VpdRow>(fields),
        Kind::Cur => row_as::<CurRow>(fields),
        Kind::Caf => row_as::<CafRow>(fields),
        Kind::Cap => row_as::<CapRow>(fields),
        Kind::Txf => row_as::<TxfRow>(fields),
        Kind::Txp => row_as::<TxpRow>(fields),
        Kind::Mcf => row_as::<McfRow>(fields),
        Kind::Lgf => row_as::<LgfRow>(fields),
        Kind::Ocf => row_as::<OcfRow>(fields),
        Kind::Ocp => row_as::<OcpRow>(fields),
    }
}
