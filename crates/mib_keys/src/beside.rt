// The first flaw of a book beside a sound base.
ghost use Rattle.std.specs.Prelude.{◌≡◌, IfOk};
ghost use Rattle.mib_keys.specs.Answers.{Gives};
ghost use Rattle.mib_keys.specs.Kept.{AreSameIn};
ghost use Rattle.mib_keys.specs.Read.{read_of};
ghost use Rattle.mib_model.specs.Points.{first_of};
ghost use Rattle.mib_model.specs.Soundness.{IsSound, first_flaw, flaws_of};

use crate::fault::SoundFault;
use crate::kept::{covers, same_tables, tables_read};
use crate::read::alike_tables;
use crate::soundness::{first_flaw, index_kind_flaw};
use mib_index::Index;
use mib_model::{KINDS, Kind, MibFault};
use mib_tables::{Book, TableSet};
use std::alloc::{AllocError, Global};

// The first flaw of a table, with what is made of the tables alone that it reads.
fn part_flaw(alloc: Global, book: &Book, kind: Kind) -> Result<Option<MibFault>, AllocError>
    ensures { IfOk result (λ flaw. flaw ≡ first_of (flaws_of book.now kind)) }
{
    let part = book.part(tables_read(kind))?;
    let index = Index::new(alloc, &part)?;
    index_kind_flaw(alloc, &index, kind)
}

// The first flaw of a table: none where what is read of all that it depends on is that of a sound base.
fn flaw_beside(
    alloc: Global,
    base: &Book,
    alike: TableSet,
    book: &Book,
    kind: Kind,
) -> Result<Option<MibFault>, AllocError>
    requires sound { IsSound base.now }
    requires alike { AreSameIn alike (read_of base.now) (read_of book.now) }
    ensures { IfOk result (λ flaw. flaw ≡ first_of (flaws_of book.now kind)) }
{
    if covers(alike, kind) {
        return Ok(None);
    }
    part_flaw(alloc, book, kind)
}

// The first flaw of the tables of a book, of which those that read nothing new have none.
fn new_flaw(
    alloc: Global,
    base: &Book,
    alike: TableSet,
    book: &Book,
) -> Result<Option<MibFault>, AllocError>
    requires sound { IsSound base.now }
    requires alike { AreSameIn alike (read_of base.now) (read_of book.now) }
    ensures { IfOk result (λ flaw. flaw ≡ first_flaw book.now) }
{
    for kind in KINDS {
        if let Some(flaw) = flaw_beside(alloc, base, alike, book, kind)? {
            return Ok(Some(flaw));
        }
    }
    Ok(None)
}

// The first flaw of a book beside a sound base. Parameters are read by almost all tables: where what is read of them differs,
// all are tested.
fn first_flaw_beside(
    alloc: Global,
    base: &Book,
    same: TableSet,
    book: &Book,
) -> Result<Option<MibFault>, AllocError>
    requires sound { IsSound base.now }
    requires same { AreSameIn same base.now book.now }
    ensures { IfOk result (λ flaw. flaw ≡ first_flaw book.now) }
{
    let alike = alike_tables(same, base, book);
    if alike.pcf {
        new_flaw(alloc, base, alike, book)
    } else {
        first_flaw(alloc, book)
    }
}

/// Whether a book is sound, as `sound` tells it, where tables are known that have the same rows in a sound base. Tables
/// that have no flaw there, and read the same here, are not tested again.
pub fn sound_with(alloc: Global, base: &Book, same: TableSet, book: &Book) -> Result<(), SoundFault>
    requires sound { IsSound base.now }
    requires same { AreSameIn same base.now book.now }
    ensures { Gives result book.now }
{
    match first_flaw_beside(alloc, base, same, book)? {
        None => Ok(()),
        Some(fault) => Err(SoundFault::Mib(fault)),
    }
}

/// Whether a book is sound, as `sound_with` tells it of all tables that have the same rows in a sound base.
pub fn sound_beside(alloc: Global, base: &Book, book: &Book) -> Result<(), SoundFault>
    requires { IsSound base.now }
    ensures { Gives result book.now }
{
    sound_with(alloc, base, same_tables(base, book), book)
}
