// The draft of a desk, and the tables that its lines save.
ghost use Rattle.std.specs.Prelude.{◌≡◌, ◌<◌, ◌≤◌, ◌∷◌, [], false, length, IfOk, OnOk};
ghost use Rattle.std.specs.List.{All};
ghost use Rattle.desk_lines.specs.Requests.{asked};
ghost use Rattle.run_model.specs.DeskLines as Lines;
ghost use Rattle.mib_model.specs.Soundness.{IsSound};
ghost use Rattle.script_tables.specs.Savings.{Makes, saving_start};

use desk_lines::{Request, request_of};
use mib_keys::{SoundFault, sound};
use mib_model::Kind;
use mib_rows::{ReadFault, read_key, read_row};
use mib_tables::{Book, DelFault};
use std::alloc::{AllocError, Global};
use std::marker::Model;

/// The most editions.
const EDITIONS_MOST: usize = 64;

/// The draft, and the tables of the editions so far, of which the draft was made from the last.
#[derive(Drop)]
pub(crate) struct Saving {
    draft: Book,
    saved: Vec<Book>,
}

impl Model for Saving {
    ghost use Rattle.std.specs.Prelude.{◌≤◌, ◌<◌, length};
    ghost use Rattle.std.specs.List.{All};
    ghost use Rattle.mib_model.specs.Soundness.{IsSound};
    ghost use Rattle.script_tables.specs.Savings.{Saving};

    ghost Value = { Saving };

    ghost view = { λ s. record { draft = s.draft; saved = s.saved.items } };

    ghost invariant = { λ s. All IsSound s.saved.items × (0 < length s.saved.items) × (length s.saved.items ≤ 64) };
}

// A list of one book.
fn list_of(alloc: Global, book: Book) -> Result<Vec<Book>, AllocError>
    ensures { IfOk result (λ books. books.items ≡ book ∷ []) }
{
    let mut books = Vec::new(alloc);
    books.push(book)?;
    Ok(books)
}

impl Saving {
    /// The draft of a desk at its start: the sound tables of edition 1. An error is want of memory.
    pub fn new(alloc: Global, first: Book) -> Result<Saving, AllocError>
        requires { IsSound first }
        ensures { IfOk result (λ saving. saving ≡ saving_start first) }
    {
        let draft = first.copy()?;
        Ok(Saving {
            draft,
            saved: list_of(alloc, first)?,
        })
    }

    /// The tables of the editions.
    pub fn into_saved(self) -> Vec<Book>
        ensures saved { result.items ≡ self.saved }
        ensures sound { All IsSound result.items }
        ensures some { 0 < length result.items }
        ensures few { length result.items ≤ 64 }
    {
        let Saving {
            draft: _draft,
            saved,
        } = self;
        saved
    }

    // Puts a row into the draft, if it is one.
    fn put(&mut self, alloc: Global, table: Kind, line: &[u8]) -> Result<(), AllocError>
        ensures { OnOk result (Makes (Lines.Put table line.now) self.old self.new) }
    {
        let row = match read_row(alloc, table, line) {
            Ok(row) => row,
            Err(ReadFault::Mib(_)) => return Ok(()),
            Err(ReadFault::Memory) => return Err(AllocError),
        };
        self.draft.put(row)?;
        Ok(())
    }

    // Takes the first row with a key out of the draft, if it is a key and there is such a row.
    fn delete(&mut self, alloc: Global, table: Kind, line: &[u8]) -> Result<(), AllocError>
        ensures { OnOk result (Makes (Lines.Delete table line.now) self.old self.new) }
    {
        let key = match read_key(alloc, table, line) {
            Ok(key) => key,
            Err(ReadFault::Mib(_)) => return Ok(()),
            Err(ReadFault::Memory) => return Err(AllocError),
        };
        match self.draft.del(&key) {
            Ok(()) => return Ok(()),
            Err(DelFault::NoRow) => return Ok(()),
            Err(DelFault::Memory) => return Err(AllocError),
        }
    }

    // Saves the draft, if it is sound and not all editions stand.
    fn save(&mut self, alloc: Global) -> Result<(), AllocError>
        ensures { OnOk result (Makes Lines.Save self.old self.new) }
    {
        match sound(alloc, &self.draft) {
            Ok(()) => {}
            Err(SoundFault::Mib(_)) => return Ok(()),
            Err(SoundFault::Memory) => return Err(AllocError),
        }
        if self.saved.len() < EDITIONS_MOST {
            self.saved.push(self.draft.copy()?)?;
        }
        Ok(())
    }

    // Makes the draft the tables of the newest edition again.
    fn restore(&mut self) -> Result<(), AllocError>
        ensures { OnOk result (Makes Lines.Drop self.old self.new) }
    {
        self.draft = self.saved[self.saved.len() - 1].copy()?;
        Ok(())
    }

    // Does what is asked for; activations and all other lines leave draft and editions.
    fn handle(&mut self, alloc: Global, request: Request) -> Result<(), AllocError>
        ensures { OnOk result (Makes (asked request.entry) self.old self.new) }
    {
        match request {
            Request::Put { table, row } => self.put(alloc, table, row),
            Request::Delete { table, key } => self.delete(alloc, table, key),
            Request::Save => self.save(alloc),
            Request::Drop => self.restore(),
            Request::Use { .. } => Ok(()),
            Request::UseFrom { .. } => Ok(()),
            Request::Comment => Ok(()),
            Request::TooLong => Ok(()),
            Request::BadLine => Ok(()),
            Request::BadTable => Ok(()),
            Request::Go => Ok(()),
        }
    }

    /// Follows a line of the script. An error is want of memory.
    pub fn follow(&mut self, alloc: Global, line: &[u8]) -> Result<(), AllocError>
        ensures { OnOk result (Makes (Lines.request_of false line.now) self.old self.new) }
    {
        self.handle(alloc, request_of(line))
    }
}
