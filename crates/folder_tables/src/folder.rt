ghost use Rattle.std.specs.Prelude.{◌≡◌, ◌≢◌, IfOk, IfErr, OnOk, IfSome, Ok};
ghost use Rattle.folder_tables.specs.Refusals.{HasRefusalCause, Refuses, code_of_refusal, refusal_of, refusal_of_flaw};
ghost use Rattle.mib_model.specs.Soundness.{IsSound};
ghost use Rattle.session.specs.Sources.{database_in};
ghost use Rattle.tool_objects.specs.Sources.{if_sound, sound_in};

use mib_keys::{SoundFault, sound};
use mib_model::MibFault;
use mib_tables::Book;
use run_model::Code;
use session::{LoadFault, load};
use std::alloc::Global;
use tm_io::Shelf;

/// Why the tables of a folder are not to be had: they are refused, can't be read, or there is no memory for them.
#[derive(Clone, Copy, Debug, PartialEq, Eq)]
pub enum Refusal {
    Mib(MibFault),
    Failed,
    Memory,
}

impl From<LoadFault> for Refusal {
    ghost from_gives = { λ fault made. made ≡ refusal_of fault };

    fn from(fault: LoadFault) -> Refusal {
        match fault {
            LoadFault::Mib(fault) => Refusal::Mib(fault),
            LoadFault::Failed => Refusal::Failed,
            LoadFault::Memory => Refusal::Memory,
        }
    }
}

impl From<SoundFault> for Refusal {
    ghost from_gives = { λ fault made. made ≡ refusal_of_flaw fault };

    fn from(fault: SoundFault) -> Refusal {
        match fault {
            SoundFault::Mib(fault) => Refusal::Mib(fault),
            SoundFault::Memory => Refusal::Memory,
        }
    }
}

impl From<Refusal> for Code {
    fn from(refusal: Refusal) -> Code
        ensures { result ≡ code_of_refusal refusal }
    {
        match refusal {
            Refusal::Mib(fault) => Code::BadMib(fault),
            Refusal::Failed => Code::TablesFault,
            Refusal::Memory => Code::Want,
        }
    }
}

/// The tables of a folder, whether they are sound or not.
pub fn load_book<T: Shelf>(alloc: Global, folder: &str, tables: &mut T) -> Result<Book, Refusal>
    ensures told { IfOk result (λ book. IfSome (T.holds tables.old) (λ files. database_in files folder.now ≡ Ok book)) }
    ensures refused { IfErr result (λ code. IfSome (T.holds tables.old) (λ files. Refuses code (database_in files folder.now))) }
    ensures ok { OnOk result (T.faults tables.new ≡ T.faults tables.old) }
    ensures cause { IfErr result (λ refusal. HasRefusalCause refusal (T.faults tables.old) (T.faults tables.new)) }
{
    Ok(load(alloc, folder, tables)?)
}

// A book, where it is sound.
fn accept(alloc: Global, book: Book) -> Result<Book, Refusal>
    ensures told { IfOk result (λ kept. if_sound book ≡ Ok kept) }
    ensures sound { IfOk result (λ kept. IsSound kept) }
    ensures refused { IfErr result (λ refusal. Refuses refusal (if_sound book)) }
    ensures cause { IfErr result (λ refusal. refusal ≢ Refusal.Failed) }
{
    sound(alloc, &book)?;
    Ok(book)
}

/// The sound tables of a folder. They are refused at the first fault: each table is read in its order, and then their
/// rows are tested.
pub fn sound_book<T: Shelf>(alloc: Global, folder: &str, tables: &mut T) -> Result<Book, Refusal>
    ensures told { IfOk result (λ book. IfSome (T.holds tables.old) (λ files. sound_in files folder.now ≡ Ok book)) }
    ensures sound { IfOk result (λ book. IsSound book) }
    ensures refused { IfErr result (λ code. IfSome (T.holds tables.old) (λ files. Refuses code (sound_in files folder.now))) }
    ensures ok { OnOk result (T.faults tables.new ≡ T.faults tables.old) }
    ensures cause { IfErr result (λ refusal. HasRefusalCause refusal (T.faults tables.old) (T.faults tables.new)) }
{
    let book = load_book(alloc, folder, tables)?;
    accept(alloc, book)
}
