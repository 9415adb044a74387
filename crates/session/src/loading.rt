// The tables of a folder, read in their order.
ghost use Rattle.std.specs.Prelude.{◌≡◌, ◌+◌, string_bytes, IfOk, IfErr, OnOk, IfSome, Ok};
ghost use Rattle.mib_model.specs.Reading.{table_of};
ghost use Rattle.mib_model.specs.TableLists.{kind_held, rows_held};
ghost use Rattle.mib_model.specs.declared.kind.Kind.TheVariants as kind;
ghost use Rattle.mib_model.specs.declared.limits.TheConstants.{TABLE_MOST};
ghost use Rattle.session.specs.Causes.{HasLoadCause, IsTextStop};
ghost use Rattle.session.specs.Sources.{Fills, Refuses, database_in, read_in, table_file};
ghost use Rattle.whole_texts.specs.Parts.{ReadsPart};

use crate::load_fault::LoadFault;
use crate::text_file::read_file;
use mib_model::{KINDS, Kind, TableRows};
use mib_rows::read_table;
use mib_tables::Book;
use std::alloc::{AllocError, Global};
use tm_io::Shelf;

// The name of a table's file.
fn file_name(alloc: Global, folder: &str, table: Kind) -> Result<String, AllocError>
    ensures { IfOk result (λ name. string_bytes name ≡ table_file folder.now table) }
{
    let mut name = String::from_str(alloc, folder)?;
    name.push_str("/")?;
    name.push_str(table.name())?;
    name.push_str(".dat")?;
    Ok(name)
}

// The rows of a table's text.
fn read_rows(alloc: Global, table: Kind, text: &[u8]) -> Result<TableRows, LoadFault>
    ensures told { IfOk result (λ rows. table_of table text.now ≡ Ok (rows_held rows)) }
    ensures kind { IfOk result (λ rows. kind_held rows ≡ table) }
    ensures refused { IfErr result (λ fault. Refuses fault (table_of table text.now)) }
    ensures stop { IfErr result IsTextStop }
{
    Ok(read_table(alloc, table, text)?)
}

// Gives a table of a book the rows that its file in a folder has.
fn load_table<T: Shelf>(
    alloc: Global,
    folder: &str,
    table: Kind,
    tables: &mut T,
    book: &mut Book,
) -> Result<(), LoadFault>
    ensures told { OnOk result (IfSome (T.holds tables.old) (λ files. Fills table (read_in files folder.now table) book.old book.new)) }
    ensures part { OnOk result (ReadsPart (TABLE_MOST + 1) (T.holds tables.old) (table_file folder.now table) (T.left tables.new)) }
    ensures refused { IfErr result (λ fault. IfSome (T.holds tables.old) (λ files. Refuses fault (read_in files folder.now table))) }
    ensures ok { OnOk result (T.faults tables.new ≡ T.faults tables.old) }
    ensures cause { IfErr result (λ fault. HasLoadCause fault (T.faults tables.old) (T.faults tables.new)) }
    ensures holds { T.holds tables.new ≡ T.holds tables.old }
{
    let name = file_name(alloc, folder, table)?;
    let text = read_file(alloc, tables, name.as_str())?;
    let rows = read_rows(alloc, table, &text)?;
    book.fill(rows)?;
    Ok(())
}

/// The rows of the tables of a folder: each table is read from the file of its name with `.dat` behind it, and one
/// that isn't held has no rows. Refused are just the tables of which one is faulty, for the first fault of the first
/// such one; `Failed` comes just where the shelf's count of faults rose.
pub fn load<T: Shelf>(alloc: Global, folder: &str, tables: &mut T) -> Result<Book, LoadFault>
    ensures told { IfOk result (λ book. IfSome (T.holds tables.old) (λ files. database_in files folder.now ≡ Ok book)) }
    ensures last { OnOk result (ReadsPart (TABLE_MOST + 1) (T.holds tables.old) (table_file folder.now kind.Ocp) (T.left tables.new)) }
    ensures refused { IfErr result (λ fault. IfSome (T.holds tables.old) (λ files. Refuses fault (database_in files folder.now))) }
    ensures ok { OnOk result (T.faults tables.new ≡ T.faults tables.old) }
    ensures cause { IfErr result (λ fault. HasLoadCause fault (T.faults tables.old) (T.faults tables.new)) }
    ensures holds { T.holds tables.new ≡ T.holds tables.old }
{
    let mut book = Book::empty(alloc);
    for table in KINDS {
        load_table(alloc, folder, table, tables, &mut book)?;
    }
    Ok(book)
}
