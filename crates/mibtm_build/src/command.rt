// The command: tables, and then lines that ask for packets.
ghost use Rattle.std.specs.Prelude.{◌≡◌, ℕ, length, map, string_bytes, IfOk, IfErr, OnOk, OnErr, IfSome, Ok};
ghost use Rattle.mib_model.specs.Soundness.{IsSound};
ghost use Rattle.mibtm_build.specs.Operands as Words;
ghost use Rattle.mibtm_build.specs.Runs.{Ran, is_asks_fault, is_out_fault};
ghost use Rattle.build_rules.specs.Building.{octets_most};
ghost use Rattle.desk_lines.specs.declared.reader.TheConstants.{LINE_ROOM};
ghost use Rattle.tm_io.specs.Causes.{RisesWhere};
ghost use Rattle.mibtm_build.specs.Statement.{Asks, Built, HandsOn, HasStopped, HasTablesCause, IfInputs, Refuses};
ghost use Rattle.tool_objects.specs.Objects.{shelf, sink};
ghost use Rattle.tool_objects.specs.Sources.{sound_in};

use crate::code::BuildCode;
use crate::inputs::inputs_in;
use crate::run::run;
use build_rules::Item;
use desk_lines::{DeskReader, LINE_ROOM};
use folder_tables::{Refusal, sound_book};
use mib_tables::Book;
use run_model::Input;
use std::alloc::{AllocError, Global};
use tm_build::{Builder, OCTETS_MOST};
use tm_io::{Shelf, Sink};

// The sound tables of a folder, or the code that their refusal is.
fn tables_of<T: Shelf>(alloc: Global, folder: &str, tables: &mut T) -> Result<Book, BuildCode>
    ensures told { IfOk result (λ book. IfSome (T.holds tables.old) (λ files. sound_in files folder.now ≡ Ok book)) }
    ensures sound { IfOk result (λ book. IsSound book) }
    ensures refused { IfErr result (λ code. IfSome (T.holds tables.old) (λ files. Refuses code (sound_in files folder.now))) }
    ensures ok { OnOk result (T.faults tables.new ≡ T.faults tables.old) }
    ensures cause { IfErr result (λ code. HasTablesCause code (T.faults tables.old) (T.faults tables.new)) }
{
    match sound_book(alloc, folder, tables) {
        Ok(book) => Ok(book),
        Err(Refusal::Mib(fault)) => Err(BuildCode::BadMib(fault)),
        Err(Refusal::Failed) => Err(BuildCode::TablesFault),
        Err(Refusal::Memory) => Err(BuildCode::Want),
    }
}

// Hands on what a run has written, unless the output has failed, and tells how the run ended.
fn hand_on<O: Sink>(code: BuildCode, out: &mut O) -> BuildCode
    ensures written { O.written out.new ≡ O.written out.old }
    ensures ends { HandsOn code result (O.faults out.old) (O.faults out.new) (O.handed out.new) (O.written out.new) }
{
    if matches!(code, BuildCode::OutFault) {
        return code;
    }
    match out.flush() {
        Ok(()) => code,
        Err(_) => BuildCode::OutFault,
    }
}

// Answers the asks that a source has left, with room for a line, its items and its packet.
fn run_from<D: Shelf, O: Sink>(
    builder: &mut Builder<'_>,
    line: &mut [u8],
    items: &mut Vec<Item>,
    packet: &mut [u8],
    asks: &mut D,
    out: &mut O,
) -> BuildCode
    requires line { length line.old ≡ LINE_ROOM }
    requires room { length packet.old ≡ octets_most }
    ensures ran { Ran result builder.old (D.left asks.old) (D.left asks.new) (O.written out.old) (O.written out.new) }
    ensures asks { RisesWhere (is_asks_fault result) (D.faults asks.old) (D.faults asks.new) }
    ensures cause { RisesWhere (is_out_fault result) (O.faults out.old) (O.faults out.new) }
    ensures missed { D.missed asks.new ≡ D.missed asks.old }
{
    let mut reader = DeskReader::new(asks);
    run(builder, &mut reader, line, items, packet, out)
}

// Answers the asks that a source has left, by a sound book. An error is want of memory, before anything is read or written.
fn run_asks<D: Shelf, O: Sink>(
    alloc: Global,
    book: &Book,
    asks: &mut D,
    out: &mut O,
) -> Result<BuildCode, AllocError>
    requires sound { IsSound book.now }
    ensures ran { IfOk result (λ code. Ran code book.now (D.left asks.old) (D.left asks.new) (O.written out.old) (O.written out.new)) }
    ensures stopped { IfOk result (λ code. HasStopped code (shelf asks.old asks.new D.holds D.left D.faults D.missed)
        (sink out.old out.new O.written O.handed O.faults)) }
    ensures missed { D.missed asks.new ≡ D.missed asks.old }
    ensures untouched { OnErr result ((asks.new ≡ asks.old) × (out.new ≡ out.old)) }
{
    let mut builder = Builder::new(alloc, book)?;
    let mut line = vec![in alloc; 0; LINE_ROOM]?;
    let mut packet = vec![in alloc; 0; OCTETS_MOST as usize]?;
    let mut items = Vec::new(alloc);
    let code = run_from(&mut builder, &mut line, &mut items, &mut packet, asks, out);
    Ok(hand_on(code, out))
}

// Answers the asks of a name by a sound book.
fn build_asks<D: Shelf, O: Sink>(
    alloc: Global,
    book: &Book,
    name: &str,
    asks: &mut D,
    out: &mut O,
) -> BuildCode
    requires sound { IsSound book.now }
    ensures { Asks result book.now name.now (shelf asks.old asks.new D.holds D.left D.faults D.missed)
        (sink out.old out.new O.written O.handed O.faults) }
{
    match asks.aim(name) {
        Ok(true) => match run_asks(alloc, book, asks, out) {
            Ok(code) => code,
            Err(AllocError) => BuildCode::Want,
        },
        Ok(false) => BuildCode::NoFile(Input::Desk),
        Err(_) => BuildCode::DeskFault,
    }
}

// Builds what the asks of a name ask for, by the tables of a folder.
fn build_by<T: Shelf, D: Shelf, O: Sink>(
    alloc: Global,
    folder: &str,
    name: &str,
    tables: &mut T,
    asks: &mut D,
    out: &mut O,
) -> BuildCode
    ensures { Built result (record { folder = folder.now; asks = name.now })
        (shelf tables.old tables.new T.holds T.left T.faults T.missed)
        (shelf asks.old asks.new D.holds D.left D.faults D.missed)
        (sink out.old out.new O.written O.handed O.faults) }
{
    match tables_of(alloc, folder, tables) {
        Ok(book) => build_asks(alloc, &book, name, asks, out),
        Err(code) => code,
    }
}

/// Does what the words behind the program's name ask for, `build DIR ASKS`: reads tables from `tables` and lines from `asks`, and
/// writes the packets that the lines ask for to `out`, one after the other, up to the first line that is refused.
pub fn build_tool<T: Shelf, D: Shelf, O: Sink>(
    alloc: Global,
    words: &[String],
    tables: &mut T,
    asks: &mut D,
    out: &mut O,
) -> BuildCode
    // Wrong words are answered before any object is called.
    ensures misuse { IfErr (Words.inputs_in (map string_bytes words.now)) (λ misuse. result ≡ BuildCode.Usage misuse) }
    ensures uncalled { IfErr (Words.inputs_in (map string_bytes words.now)) (λ misuse.
        (tables.new ≡ tables.old) × (asks.new ≡ asks.old) × (out.new ≡ out.old)) }

    ensures builds { IfInputs (Words.inputs_in (map string_bytes words.now)) (λ names. Built result names
        (shelf tables.old tables.new T.holds T.left T.faults T.missed)
        (shelf asks.old asks.new D.holds D.left D.faults D.missed)
        (sink out.old out.new O.written O.handed O.faults)) }
{
    match inputs_in(words) {
        Ok(inputs) => build_by(alloc, inputs.folder, inputs.asks, tables, asks, out),
        Err(misuse) => BuildCode::Usage(misuse),
    }
}
