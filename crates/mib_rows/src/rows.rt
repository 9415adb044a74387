// The rows of a text, line by line.
ghost use Rattle.std.specs.Prelude.{◌≡◌, ◌≤◌, ◌++◌, ◌∷◌, [], IfOk, IfErr, OnOk, Some, false};
ghost use Rattle.mib_model.specs.Lines.{fields, lines};
ghost use Rattle.mib_model.specs.Reading.{is_marked, line_at, rows_from};
ghost use Rattle.mib_rows.specs.Answers.{Gives};
ghost use Rattle.mib_rows.specs.Left.{IsAtRecord, left_in, line_of};

use crate::field::fault;
use crate::fields::Fields;
use crate::read_fault::ReadFault;
use crate::row::ReadRow;
use crate::table_fault::fault_in_row;
use csv::{Reader, ReaderBuilder, Terminator};
use mib_model::{MibCode, ROW_MOST, ROWS_MOST};
use std::alloc::Global;

// The row that a line is, which is the row of this number.
fn read_line<R: ReadRow>(number: u32, line: &Fields) -> Result<R, ReadFault>
    requires { fields (line_of line.now) ≡ line.now }
    ensures row { Gives (λ row. row) result (line_at R.reads R.kind number (line_of line.now)) }
    ensures few { IfOk result (λ _. number ≤ ROWS_MOST) }
{
    if line.are_longer(ROW_MOST) {
        let long = fault(0, MibCode::LineLong);
        return Err(ReadFault::Mib(fault_in_row(R::kind(), number, long)));
    }
    if number > ROWS_MOST {
        let more = fault(0, MibCode::Rows);
        return Err(ReadFault::Mib(fault_in_row(R::kind(), number, more)));
    }
    match R::read(line) {
        Ok(row) => Ok(row),
        Err(e) => Err(ReadFault::Mib(fault_in_row(R::kind(), number, e))),
    }
}

// Appends a row.
fn add<R: Drop>(rows: &mut Vec<R>, row: R) -> Result<(), ReadFault>
    ensures rows { OnOk result (rows.new.items ≡ rows.old.items ++ row ∷ []) }
    ensures memory { IfErr result (λ fault. fault ≡ ReadFault.Memory) }
{
    rows.push(row)?;
    Ok(())
}

// What reads the lines of a text: LF ends a line, and nothing is quoted.
fn lines_reader(alloc: Global, text: &[u8]) -> Reader<&[u8]>
    requires { is_marked text.now ≡ false }
    ensures at_record { IsAtRecord result }
    ensures text { left_in result ≡ Some text.now }
{
    ReaderBuilder::new()
        .delimiter(b'\t')
        .quoting(false)
        .terminator(Terminator::Any(b'\n'))
        .has_headers(false)
        .flexible(true)
        .from_reader(alloc, text)
}

/// The rows of a text with no byte order mark, or the first fault.
pub fn rows<R: ReadRow>(alloc: Global, text: &[u8]) -> Result<Vec<R>, ReadFault>
    requires { is_marked text.now ≡ false }
    ensures { Gives (λ rows. rows.items) result (rows_from (line_at R.reads R.kind) 1 (lines text.now)) }
{
    let mut rows = Vec::new(alloc);
    let mut number = 0;
    let mut left = lines_reader(alloc, text);
    let mut line = Fields::new(alloc);
    while line.read(&mut left)? {
        if !line.are_longer(0) {
            continue;
        }
        number += 1;
        let row = read_line(number, &line)?;
        add(&mut rows, row)?;
    }
    Ok(rows)
}
