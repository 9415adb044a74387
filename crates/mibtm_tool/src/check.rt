// The command `check`: tables, and their summary.
ghost use Rattle.std.specs.Prelude.{◌≡◌, ◌≢◌, IfErr, OnOk, Err};
ghost use Rattle.std.specs.Io.KnownBytes.{Appends};
ghost use Rattle.mib_model.specs.Summaries.{summary};
ghost use Rattle.decode_session.specs.Causes.{HasStopCause};
ghost use Rattle.tm_io.specs.Octets.{AppendsPrefix};
ghost use Rattle.tool_objects.specs.Objects.{shelf, sink};
ghost use Rattle.mibtm_tool.specs.Statement.{Checked};

use crate::codes::stop_code;
use crate::print::print;
use book_summary::summary_of;
use decode_session::Stop;
use folder_tables::sound_book;
use mib_tables::Book;
use run_model::Code;
use std::alloc::Global;
use tm_io::{Shelf, Sink};

// Writes the summary of a book, and hands it on.
fn print_summary<O: Sink>(alloc: Global, book: &Book, out: &mut O) -> Result<(), Stop>
    ensures all { OnOk result (Appends (O.written out.old) (O.written out.new) (summary book.now)) }
    ensures part { result ≡ Err Stop.Out → AppendsPrefix (O.written out.old) (O.written out.new) (summary book.now) }
    ensures untouched { result ≡ Err Stop.Memory → out.new ≡ out.old }
    ensures handed { result ≢ Err Stop.Out → O.handed out.old ≡ O.written out.old → O.handed out.new ≡ O.written out.new }
    ensures ok { OnOk result (O.faults out.new ≡ O.faults out.old) }
    ensures cause { IfErr result (λ stop. HasStopCause stop (O.faults out.old) (O.faults out.new)) }
{
    let Ok(text) = summary_of(alloc, book) else {
        return Err(Stop::Memory);
    };
    match print(out, &text) {
        Ok(()) => Ok(()),
        Err(_) => Err(Stop::Out),
    }
}

/// Writes the summary of the tables of a folder, where they are sound.
pub(crate) fn check<T: Shelf, O: Sink>(
    alloc: Global,
    folder: &str,
    tables: &mut T,
    out: &mut O,
) -> Code
    ensures { Checked result folder.now (shelf tables.old tables.new T.holds T.left T.faults T.missed) (sink out.old out.new O.written O.handed O.faults) }
{
    match sound_book(alloc, folder, tables) {
        Ok(book) => match print_summary(alloc, &book, out) {
            Ok(()) => Code::Ok,
            Err(stop) => stop_code(stop),
        },
        Err(refusal) => Code::from(refusal),
    }
}
