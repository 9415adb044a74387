// The command: tables, a script, a text, and then the feed.
ghost use Rattle.std.specs.Prelude.{◌≡◌, ◌<◌, ◌≤◌, ℕ, length, map, string_bytes, None, IfErr, IfOk, IfSome, OnOk, Ok};
ghost use Rattle.std.specs.List.{All};
ghost use Rattle.mib_model.specs.Soundness.{IsSound};
ghost use Rattle.mibtm_audit.specs.Codes as Codes;
ghost use Rattle.mibtm_audit.specs.Operands as Words;
ghost use Rattle.mibtm_audit.specs.Operands.{named};
ghost use Rattle.mibtm_audit.specs.Statement.{Audited, ByFeed, ByOctets, ByScript, ByText, HasScriptCause, HasTablesCause, IfInputs, Refuses, Reports, Scripted, Tells, Unscripted};
ghost use Rattle.tm_audit.specs.Audit.{refused};
ghost use Rattle.tm_audit.specs.Saved.{saved_tables};
ghost use Rattle.tm_audit.specs.declared.code.AuditCode.TheVariants as code;
ghost use Rattle.tool_objects.specs.Objects.{shelf, sink};
ghost use Rattle.tool_objects.specs.Sources.{sound_in};

use crate::comparing::compare;
use crate::inputs::{AuditInputs, inputs_in};
use crate::text::text_of;
use folder_tables::{Refusal, sound_book};
use mib_model::Line;
use mib_tables::Book;
use row_searches::RowSearches;
use script_tables::{ScriptFault, saved_books};
use std::alloc::{AllocError, Global};
use tm_audit::{AuditCode, AuditInput, TEXT_MOST, first_unknown};
use tm_io::{Shelf, Sink, write_all};

// The code of a fault of a script.
fn code_of_script(fault: ScriptFault) -> AuditCode
    ensures { result ≡ Codes.code_of_script fault }
{
    match fault {
        ScriptFault::Failed => AuditCode::DeskFault,
        ScriptFault::Memory => AuditCode::Want,
    }
}

// The sound tables of a folder, or the code that their refusal is.
fn tables_of<T: Shelf>(alloc: Global, folder: &str, tables: &mut T) -> Result<Book, AuditCode>
    ensures told { IfOk result (λ book. IfSome (T.holds tables.old) (λ files. sound_in files folder.now ≡ Ok book)) }
    ensures sound { IfOk result (λ book. IsSound book) }
    ensures refused { IfErr result (λ code. IfSome (T.holds tables.old) (λ files. Refuses code (sound_in files folder.now))) }
    ensures ok { OnOk result (T.faults tables.new ≡ T.faults tables.old) }
    ensures cause { IfErr result (λ code. HasTablesCause code (T.faults tables.old) (T.faults tables.new)) }
{
    match sound_book(alloc, folder, tables) {
        Ok(book) => Ok(book),
        Err(Refusal::Mib(fault)) => Err(AuditCode::BadMib(fault)),
        Err(Refusal::Failed) => Err(AuditCode::TablesFault),
        Err(Refusal::Memory) => Err(AuditCode::Want),
    }
}

// The rows of books, set up for searches.
fn searches_of(alloc: Global, books: &[Book]) -> Result<Vec<RowSearches>, AllocError>
    requires { All IsSound books.now }
    ensures { IfOk result (λ searches. searches.items ≡ books.now) }
{
    let mut searches = Vec::new(alloc);
    for book in books {
        searches.push(RowSearches::new(alloc, book)?)?;
    }
    Ok(searches)
}

// The rows of edition 1 and of the editions that a script saves.
#[derive(Drop)]
struct Saved {
    first: RowSearches,
    editions: Vec<RowSearches>,
}

// The rows of edition 1, which are sound, and of the editions that the script saves which a source has left.
fn saved_by<D: Shelf>(alloc: Global, book: Book, desk: &mut D) -> Result<Saved, AuditCode>
    requires { IsSound book }
    ensures first { IfOk result (λ saved. saved.first ≡ book) }
    ensures told { IfOk result (λ saved. IfSome (D.left desk.old) (λ octets. saved.editions.items ≡ saved_tables book octets)) }
    ensures some { IfOk result (λ saved. 1 ≤ length saved.editions.items) }
    ensures few { IfOk result (λ saved. length saved.editions.items ≤ 64) }
    ensures ok { OnOk result (D.faults desk.new ≡ D.faults desk.old) }
    ensures cause { IfErr result (λ code. HasScriptCause code (D.faults desk.old) (D.faults desk.new)) }
    ensures missed { D.missed desk.new ≡ D.missed desk.old }
{
    let Ok(first) = RowSearches::new(alloc, &book) else {
        return Err(AuditCode::Want);
    };
    let books = match saved_books(alloc, book, desk) {
        Ok(books) => books,
        Err(fault) => return Err(code_of_script(fault)),
    };
    match searches_of(alloc, &books) {
        Ok(editions) => Ok(Saved { first, editions }),
        Err(AllocError) => Err(AuditCode::Want),
    }
}

// The rows of edition 1 and of the editions that the script of a name saves.
fn saved_of<D: Shelf>(
    alloc: Global,
    book: Book,
    name: &str,
    desk: &mut D,
) -> Result<Saved, AuditCode>
    requires { IsSound book }
    ensures first { IfOk result (λ saved. saved.first ≡ book) }
    ensures told { IfOk result (λ saved. Scripted book saved.editions.items name.now (shelf desk.old desk.new D.holds D.left D.faults D.missed)) }
    ensures some { IfOk result (λ saved. 1 ≤ length saved.editions.items) }
    ensures few { IfOk result (λ saved. length saved.editions.items ≤ 64) }
    ensures untold { IfErr result (λ code. Unscripted code name.now (shelf desk.old desk.new D.holds D.left D.faults D.missed)) }
{
    match desk.aim(name) {
        Ok(true) => saved_by(alloc, book, desk),
        Ok(false) => Err(AuditCode::NoFile(AuditInput::Desk)),
        Err(_) => Err(AuditCode::DeskFault),
    }
}

// What is found of a text by itself: it is too long, or shows an edition that isn't one of so many.
fn refusal(count: u32, text: &[u8]) -> Option<AuditCode>
    requires { count ≤ 64 }
    ensures { result ≡ refused count text.now }
{
    if text.len() > TEXT_MOST {
        return Some(AuditCode::Large);
    }
    match first_unknown(count, text) {
        Some(line) => Some(AuditCode::NoEdition { line, count }),
        None => None,
    }
}

// Writes the line of a finding and hands it on.
fn tell<O: Sink>(found: AuditCode, out: &mut O) -> AuditCode
    ensures { Tells found result (sink out.old out.new O.written O.handed O.faults) }
{
    let mut line = Line::new();
    found.finding_line(&mut line);
    match write_all(out, line.bytes()) {
        Ok(()) => match out.flush() {
            Ok(()) => found,
            Err(_) => AuditCode::OutFault,
        },
        Err(_) => AuditCode::OutFault,
    }
}

// Tells what a comparison found, if it found something.
fn report<O: Sink>(found: AuditCode, out: &mut O) -> AuditCode
    ensures { Reports found result (sink out.old out.new O.written O.handed O.faults) }
{
    match found {
        AuditCode::Same => tell(found, out),
        AuditCode::Differs { .. } => tell(found, out),
        _ => found,
    }
}

// Audits a text, which isn't refused by itself, by the feed of a name.
fn audit_feed<F: Shelf, O: Sink>(
    alloc: Global,
    saved: &Saved,
    text: &[u8],
    name: &str,
    feed: &mut F,
    out: &mut O,
) -> AuditCode
    requires some { 1 ≤ length saved.now.editions.items }
    requires few { length saved.now.editions.items ≤ 64 }
    requires admitted { refused (length saved.now.editions.items) text.now ≡ None }
    ensures { ByFeed result (record { first = saved.now.first; saved = saved.now.editions.items; text = text.now }) name.now
        (shelf feed.old feed.new F.holds F.left F.faults F.missed)
        (sink out.old out.new O.written O.handed O.faults) }
{
    match feed.aim(name) {
        Ok(true) => report(
            compare(alloc, &saved.first, &saved.editions, text, feed),
            out,
        ),
        Ok(false) => AuditCode::NoFile(AuditInput::Feed),
        Err(_) => AuditCode::FeedFault,
    }
}

// Audits a text, or as much of it as was read.
fn audit_octets<F: Shelf, O: Sink>(
    alloc: Global,
    saved: &Saved,
    text: &[u8],
    name: &str,
    feed: &mut F,
    out: &mut O,
) -> AuditCode
    requires some { 1 ≤ length saved.now.editions.items }
    requires few { length saved.now.editions.items ≤ 64 }
    ensures { ByOctets result (record { first = saved.now.first; saved = saved.now.editions.items; text = text.now }) name.now
        (shelf feed.old feed.new F.holds F.left F.faults F.missed)
        (sink out.old out.new O.written O.handed O.faults) }
{
    match refusal(saved.editions.len() as u32, text) {
        Some(found) => tell(found, out),
        None => audit_feed(alloc, saved, text, name, feed, out),
    }
}

// Audits the text of a name by tables and what a script saves.
fn audit_text<F: Shelf, X: Shelf, O: Sink>(
    alloc: Global,
    saved: &Saved,
    inputs: &AuditInputs<'_>,
    feed: &mut F,
    text: &mut X,
    out: &mut O,
) -> AuditCode
    requires some { 1 ≤ length saved.now.editions.items }
    requires few { length saved.now.editions.items ≤ 64 }
    ensures { ByText result saved.now.first saved.now.editions.items (named inputs.now)
        (shelf text.old text.new X.holds X.left X.faults X.missed)
        (shelf feed.old feed.new F.holds F.left F.faults F.missed)
        (sink out.old out.new O.written O.handed O.faults) }
{
    match text_of(alloc, inputs.text, text) {
        Ok(octets) => audit_octets(alloc, saved, &octets, inputs.feed, feed, out),
        Err(code) => code,
    }
}

// Audits the text of a name by sound tables and a script.
fn audit_script<F: Shelf, D: Shelf, X: Shelf, O: Sink>(
    alloc: Global,
    book: Book,
    inputs: &AuditInputs<'_>,
    feed: &mut F,
    desk: &mut D,
    text: &mut X,
    out: &mut O,
) -> AuditCode
    requires sound { IsSound book }
    ensures { ByScript result book (named inputs.now)
        (shelf desk.old desk.new D.holds D.left D.faults D.missed)
        (shelf text.old text.new X.holds X.left X.faults X.missed)
        (shelf feed.old feed.new F.holds F.left F.faults F.missed)
        (sink out.old out.new O.written O.handed O.faults) }
{
    match saved_of(alloc, book, inputs.desk, desk) {
        Ok(saved) => audit_text(alloc, &saved, inputs, feed, text, out),
        Err(code) => code,
    }
}

// Audits the text of a name by the tables of a folder, a script and a feed.
fn audit_by<T: Shelf, F: Shelf, D: Shelf, X: Shelf, O: Sink>(
    alloc: Global,
    inputs: &AuditInputs<'_>,
    tables: &mut T,
    feed: &mut F,
    desk: &mut D,
    text: &mut X,
    out: &mut O,
) -> AuditCode
    ensures { Audited result (named inputs.now)
        (shelf tables.old tables.new T.holds T.left T.faults T.missed)
        (shelf desk.old desk.new D.holds D.left D.faults D.missed)
        (shelf text.old text.new X.holds X.left X.faults X.missed)
        (shelf feed.old feed.new F.holds F.left F.faults F.missed)
        (sink out.old out.new O.written O.handed O.faults) }
{
    match tables_of(alloc, inputs.folder, tables) {
        Ok(book) => audit_script(alloc, book, inputs, feed, desk, text, out),
        Err(code) => code,
    }
}

/// Does what the words behind the program's name ask for, `audit DIR FEED DESK TEXT`: tells whether a printed text follows from the
/// tables of a folder, a feed and the script of a desk, in the editions that the text shows. Tables, desk, text and feed are opened and
/// read in this order, the feed no further than the first difference. `out` is given one line: `SAME`, `DIFFERS` with the line of the text,
/// `NOEDITION` with the line and the number of editions, or `LARGE`.
pub fn audit_tool<T: Shelf, F: Shelf, D: Shelf, X: Shelf, O: Sink>(
    alloc: Global,
    words: &[String],
    tables: &mut T,
    feed: &mut F,
    desk: &mut D,
    text: &mut X,
    out: &mut O,
) -> AuditCode
    // Wrong words are answered before any object is called.
    ensures misuse { IfErr (Words.inputs_in (map string_bytes words.now)) (λ misuse. result ≡ code.Usage misuse) }
    ensures uncalled { IfErr (Words.inputs_in (map string_bytes words.now)) (λ misuse. (tables.new ≡ tables.old) × (feed.new ≡ feed.old)
        × (desk.new ≡ desk.old) × (text.new ≡ text.old) × (out.new ≡ out.old)) }

    ensures audited { IfInputs (Words.inputs_in (map string_bytes words.now)) (λ names. Audited result names
        (shelf tables.old tables.new T.holds T.left T.faults T.missed)
        (shelf desk.old desk.new D.holds D.left D.faults D.missed)
        (shelf text.old text.new X.holds X.left X.faults X.missed)
        (shelf feed.old feed.new F.holds F.left F.faults F.missed)
        (sink out.old out.new O.written O.handed O.faults)) }
{
    match inputs_in(words) {
        Ok(inputs) => audit_by(alloc, &inputs, tables, feed, desk, text, out),
        Err(misuse) => AuditCode::Usage(misuse),
    }
}
