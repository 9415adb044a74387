ghost use Rattle.std.specs.Prelude.{◌≡◌, ◌≢◌, IfOk, IfErr, OnOk, IfSome, Ok};
ghost use Rattle.folder_edition.specs.Refusals.{refusal_of_save};
ghost use Rattle.folder_tables.specs.Refusals.{HasRefusalCause, Refuses};
ghost use Rattle.mib_model.specs.Soundness.{IsSound};
ghost use Rattle.tool_objects.specs.Sources.{if_sound, sound_in};

use edition::{Edition, SaveFault};
use folder_tables::{Refusal, load_book};
use mib_model::Steps;
use mib_tables::Book;
use std::alloc::Global;
use std::marker::Brand;
use std::sync::ledger::{Blank, Ledger};
use tm_io::Shelf;

// The refusal that a fault of compiling is.
fn refusal_of(fault: SaveFault) -> Refusal
    ensures { result ≡ refusal_of_save fault }
{
    match fault {
        SaveFault::Mib(fault) => Refusal::Mib(fault),
        SaveFault::Memory => Refusal::Memory,
    }
}

// The edition of tables, on a ledger of its own, where they are sound.
fn compile<L: Ledger>(alloc: Global, book: Book, blank: Blank) -> Result<Edition, Refusal>
    requires name { blank.name ≡ L.name }
    requires parts { blank.parts ≡ L.parts }
    requires one { blank.parts ≡ 1 }
    ensures told { IfOk result (λ edition. if_sound book ≡ Ok edition) }
    ensures sound { IfOk result (λ edition. IsSound edition) }
    ensures refused { IfErr result (λ refusal. Refuses refusal (if_sound book)) }
    ensures cause { IfErr result (λ refusal. refusal ≢ Refusal.Failed) }
{
    match Edition::compile(alloc, book, &mut Steps::<L>::new(blank)) {
        Ok(edition) => Ok(edition),
        Err(fault) => Err(refusal_of(fault)),
    }
}

/// The edition of a book, which is refused by its first flaw.
pub fn book_edition(alloc: Global, book: Book) -> Result<Edition, Refusal>
    ensures told { IfOk result (λ edition. if_sound book ≡ Ok edition) }
    ensures sound { IfOk result (λ edition. IsSound edition) }
    ensures refused { IfErr result (λ refusal. Refuses refusal (if_sound book)) }
    ensures cause { IfErr result (λ refusal. refusal ≢ Refusal.Failed) }
{
    compile::<Brand>(alloc, book, Blank::new(1))
}

/// The edition of the tables of a folder, which are refused at the first fault.
pub fn folder_edition<T: Shelf>(
    alloc: Global,
    folder: &str,
    tables: &mut T,
) -> Result<Edition, Refusal>
    ensures told { IfOk result (λ edition. IfSome (T.holds tables.old) (λ files. sound_in files folder.now ≡ Ok edition)) }
    ensures sound { IfOk result (λ edition. IsSound edition) }
    ensures refused { IfErr result (λ code. IfSome (T.holds tables.old) (λ files. Refuses code (sound_in files folder.now))) }
    ensures ok { OnOk result (T.faults tables.new ≡ T.faults tables.old) }
    ensures cause { IfErr result (λ refusal. HasRefusalCause refusal (T.faults tables.old) (T.faults tables.new)) }
{
    let book = load_book(alloc, folder, tables)?;
    book_edition(alloc, book)
}

/// Lets an edition go that nothing is run with: here once, since it is large.
pub fn let_go(_edition: Edition) {}
