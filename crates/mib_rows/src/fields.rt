ghost use Rattle.std.specs.Prelude.{◌≡◌, ◌∷◌, ◌+◌, ◌<◌, ◌≤◌, ◌^◌, [], IfOk, IfErr, length, nat_lt, slice_get, true, false, unwrap_or};
ghost use Rattle.mib_model.specs.declared.fault.MibCode.TheVariants.{FewFields};
ghost use Rattle.csv.specs.Records.{fields_of, field_at as cell_in};
ghost use Rattle.mib_model.specs.Forms.{fault_in};
ghost use Rattle.mib_model.specs.Lines.{fields, field_at};
ghost use Rattle.mib_rows.specs.Left.{IsAtRecord, TakesLine, left_in, line_of};

use crate::field::fault;
use crate::lines::without_return;
use crate::read_fault::ReadFault;
use csv::{ByteRecord, Error, Reader, ReaderBuilder, Terminator};
use mib_model::{LineFault, MibCode};
use std::alloc::{AllocError, Global};
use std::io::Read;
use std::marker::Model;

// The fields of a line behind one more. The field in front keeps a byte order mark from being dropped, and with
// the tab as terminator too no octet ends the record, since the delimiter is tested first.
fn cut(alloc: Global, line: &[u8]) -> Result<ByteRecord, Error>
    ensures { IfOk result (λ cells. fields_of cells ≡ (45 ∷ []) ∷ fields line.now) }
{
    let front: &[u8] = b"-\t";
    let mut reader = ReaderBuilder::new()
        .delimiter(b'\t')
        .quoting(false)
        .terminator(Terminator::Any(b'\t'))
        .has_headers(false)
        .from_reader(alloc, front.chain(line));
    let mut cells = ByteRecord::new(alloc);
    reader.read_byte_record(&mut cells)?;
    Ok(cells)
}

// The cell at a place that counts from 0: empty where the record has none.
fn cell(cells: &ByteRecord, at: usize) -> &[u8]
    ensures { result.now ≡ unwrap_or (cell_in (fields_of cells.now) at) [] }
{
    match cells.get(at) {
        Some(cell) => cell,
        None => &[],
    }
}

/// A field of a line, and the number of its column.
#[derive(Clone, Copy)]
pub struct Field<'a> {
    pub octets: &'a [u8],
    pub column: u8,
}

/// The fields of a line, at places that count from 1. Contracts see them as a list.
#[derive(Drop)]
pub struct Fields {
    cells: ByteRecord,
    // The line stands apart from a text: its record has one more cell in front, and a CR at its end belongs to it.
    apart: bool,
}

impl Model for Fields {
    ghost use Rattle.std.specs.Prelude.{List, ℕ};
    ghost use Rattle.csv.specs.Records.{fields_of};
    ghost use Rattle.mib_rows.specs.Left.{fields_in};

    ghost Value = { List (List ℕ) };

    ghost view = { λ f. fields_in f.apart (fields_of f.cells) };
}

impl Fields {
    /// The fields of no line.
    pub fn new(alloc: Global) -> Fields {
        Fields {
            cells: ByteRecord::new(alloc),
            apart: false,
        }
    }

    /// The fields of a line apart from a text.
    pub fn cut(alloc: Global, line: &[u8]) -> Result<Fields, AllocError>
        ensures { IfOk result (λ row. row ≡ fields line.now) }
    {
        match cut(alloc, line) {
            Ok(cells) => Ok(Fields { cells, apart: true }),
            Err(_) => Err(AllocError),
        }
    }

    /// Reads the fields of the next line of a table's text, which may be empty, and tells whether there was one.
    pub fn read(&mut self, reader: &mut Reader<&[u8]>) -> Result<bool, ReadFault>
        requires { IsAtRecord reader.old }
        ensures line { IfOk result (λ found. TakesLine (left_in reader.old) (left_in reader.new) found self.new) }
        ensures at_record { IfOk result (λ found. found ≡ true → IsAtRecord reader.new) }
        ensures memory { IfErr result (λ fault. fault ≡ ReadFault.Memory) }
    {
        self.apart = false;
        match reader.read_byte_record(&mut self.cells) {
            Ok(found) => Ok(found),
            Err(_) => Err(ReadFault::Memory),
        }
    }

    fn len(&self) -> usize
        ensures { result ≡ length self.now }
    {
        if self.apart {
            return self.cells.len().saturating_sub(1);
        }
        self.cells.len()
    }

    // The field at a place that counts from 0.
    fn nth(&self, at: usize) -> &[u8]
        requires { at + 1 < 2 ^ 64 }
        ensures { result.now ≡ unwrap_or (slice_get self.now at) [] }
    {
        if self.apart {
            return cell(&self.cells, at + 1);
        }
        let field = cell(&self.cells, at);
        if at + 1 == self.cells.len() {
            return without_return(field);
        }
        field
    }

    /// The field at a place, which stands for a column: empty where the line has none.
    pub fn part(&self, place: u8, column: u8) -> Field<'_>
        requires { 1 ≤ place }
        ensures octets { result.octets.now ≡ field_at self.now place }
        ensures column { result.column ≡ column }
    {
        Field {
            octets: self.nth(usize::from(place) - 1),
            column,
        }
    }

    /// The field of a column: empty where the line has none.
    pub fn column(&self, number: u8) -> Field<'_>
        requires { 1 ≤ number }
        ensures octets { result.octets.now ≡ field_at self.now number }
        ensures column { result.column ≡ number }
    {
        self.part(number, number)
    }

    /// That the line has no fewer fields than these.
    pub fn need(&self, least: u8) -> Result<(), LineFault>
        ensures enough { IfOk result (λ _. nat_lt (length self.now) least ≡ false) }
        ensures few { IfErr result (λ e. (nat_lt (length self.now) least ≡ true) × (e ≡ fault_in 0 FewFields)) }
    {
        if self.len() < usize::from(least) {
            return Err(fault(0, MibCode::FewFields));
        }
        Ok(())
    }

    /// Whether the line has more octets than these.
    pub fn are_longer(&self, most: u16) -> bool
        ensures { result ≡ nat_lt most (length (line_of self.now)) }
    {
        let mut room = usize::from(most) + 1;
        for at in 0..self.len() {
            let octets = self.nth(at).len();
            if octets >= room {
                return true;
            }
            room -= octets + 1;
        }
        false
    }
}
