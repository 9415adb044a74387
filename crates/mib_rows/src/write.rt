// The line of a row.
ghost use Rattle.std.specs.Prelude.{◌≡◌, IfOk, Ok};
ghost use Rattle.mib_model.specs.Fitting.{FitsRow};
ghost use Rattle.mib_model.specs.Reading.{row_read};
ghost use Rattle.mib_model.specs.RowTexts.{kind_in, line_of};

use crate::curves_lines::{caf, cap, cur, lgf, mcf, txf, txp};
use crate::packets_lines::{pic, pid, plf, tpcf, vpd};
use crate::parameters_lines::{ocf, ocp, pcf};
use mib_model::Row;
use std::alloc::{AllocError, Global};

// The line of a row, in the columns of its table.
#[tactic(auto, unfolding(mib_model::specs::RowTexts::line_of))]
fn line_of_row(alloc: Global, row: &Row) -> Result<Vec<u8>, AllocError>
    ensures { IfOk result (λ line. line.items ≡ line_of row.now) }
{
    match row {
        Row::Pcf(row) => pcf(alloc, row),
        Row::Pid(row) => pid(alloc, row),
        Row::Pic(row) => pic(alloc, row),
        Row::Tpcf(row) => tpcf(alloc, row),
        Row::Plf(row) => plf(alloc, row),
        Row::Vpd(row) => vpd(alloc, row),
        Row::Cur(row) => cur(alloc, row),
        Row::Caf(row) => caf(alloc, row),
        Row::Cap(row) => cap(alloc, row),
        Row::Txf(row) => txf(alloc, row),
        Row::Txp(row) => txp(alloc, row),
        Row::Mcf(row) => mcf(alloc, row),
        Row::Lgf(row) => lgf(alloc, row),
        Row::Ocf(row) => ocf(alloc, row),
        Row::Ocp(row) => ocp(alloc, row),
    }
}

/// The line of a row: `read_row` reads a row that a line can be again from it.
pub fn write_row(alloc: Global, row: &Row) -> Result<Vec<u8>, AllocError>
    ensures line { IfOk result (λ line. line.items ≡ line_of row.now) }
    ensures again { IfOk result (λ line. FitsRow row.now → row_read (kind_in row.now) line.items ≡ Ok row.now) }
{
    line_of_row(alloc, row)
}
