// The rows of a table's text.
ghost use Rattle.std.specs.Prelude.{◌≡◌, IfOk, map};
ghost use Rattle.mib_model.specs.Reading.{table_of, is_marked, row_read, key_read};
ghost use Rattle.mib_model.specs.TableLists.{kind_held, rows_held};
ghost use Rattle.mib_rows.specs.Answers.{Gives};

use crate::field::fault;
use crate::fields::Fields;
use crate::keys::key;
use crate::read_fault::ReadFault;
use crate::row::{ReadRow, row};
use crate::rows::rows;
use crate::table_fault::fault_in_row;
use mib_model::{Key, Kind, MibCode, Row, TABLE_MOST, TableRows};
use std::alloc::Global;

fn begins_with_mark(text: &[u8]) -> bool
    ensures { result ≡ is_marked text.now }
{
    text.starts_with(b"\xEF\xBB\xBF")
}

// The rows of one table's text, in their order.
#[tactic(auto, unfolding(mib_model::specs::Reading::table_of))]
fn table<R: ReadRow>(alloc: Global, text: &[u8]) -> Result<Vec<R>, ReadFault>
    ensures { Gives (λ rows. map R.as_row rows.items) result (table_of R.kind text.now) }
{
    if text.len() > TABLE_MOST {
        let big = fault(0, MibCode::Big);
        return Err(ReadFault::Mib(fault_in_row(R::kind(), 0, big)));
    }
    if begins_with_mark(text) {
        let mark = fault(0, MibCode::Mark);
        return Err(ReadFault::Mib(fault_in_row(R::kind(), 0, mark)));
    }
    rows(alloc, text)
}

/// The rows of a table's text, in their order.
pub fn read_table(alloc: Global, kind: Kind, text: &[u8]) -> Result<TableRows, ReadFault>
    ensures rows { Gives rows_held result (table_of kind text.now) }
    ensures kind { IfOk result (λ rows. kind_held rows ≡ kind) }
{
    match kind {
        Kind::Pcf => Ok(TableRows::Pcf(table(alloc, text)?)),
        Kind::Pid => Ok(TableRows::Pid(table(alloc, text)?)),
        Kind::Pic => Ok(TableRows::Pic(table(alloc, text)?)),
        Kind::Tpcf => Ok(TableRows::Tpcf(table(alloc, text)?)),
        Kind::Plf => Ok(TableRows::Plf(table(alloc, text)?)),
        Kind::Vpd => Ok(TableRows::Vpd(table(alloc, text)?)),
        Kind::Cur => Ok(TableRows::Cur(table(alloc, text)?)),
        Kind::Caf => Ok(TableRows::Caf(table(alloc, text)?)),
        Kind::Cap => Ok(TableRows::Cap(table(alloc, text)?)),
        Kind::Txf => Ok(TableRows::Txf(table(alloc, text)?)),
        Kind::Txp => Ok(TableRows::Txp(table(alloc, text)?)),
        Kind::Mcf => Ok(TableRows::Mcf(table(alloc, text)?)),
        Kind::Lgf => Ok(TableRows::Lgf(table(alloc, text)?)),
        Kind::Ocf => Ok(TableRows::Ocf(table(alloc, text)?)),
        Kind::Ocp => Ok(TableRows::Ocp(table(alloc, text)?)),
    }
}

/// The row that a line apart from a text is. Its faults have the row 0 and a code from FewFields to BadName.
#[tactic(auto, unfolding(mib_model::specs::Reading::row_read))]
pub fn read_row(alloc: Global, kind: Kind, line: &[u8]) -> Result<Row, ReadFault>
    ensures { Gives (λ row. row) result (row_read kind line.now) }
{
    let fields = Fields::cut(alloc, line)?;
    match row(kind, &fields) {
        Ok(row) => Ok(row),
        Err(e) => Err(ReadFault::Mib(fault_in_row(kind, 0, e))),
    }
}

/// The key that a line is: the fields of the table's key in their order, parted by tabs. Its faults have the row 0,
/// the column of the table, and a code from FewFields to BadName.
#[tactic(auto, unfolding(mib_model::specs::Reading::key_read))]
pub fn read_key(alloc: Global, kind: Kind, line: &[u8]) -> Result<Key, ReadFault>
    ensures { Gives (λ key. key) result (key_read kind line.now) }
{
    let fields = Fields::cut(alloc, line)?;
    match key(kind, &fields) {
        Ok(key) => Ok(key),
        Err(e) => Err(ReadFault::Mib(fault_in_row(kind, 0, e))),
    }
}
