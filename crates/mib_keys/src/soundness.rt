// The first flaw of a book's tables.
ghost use Rattle.std.specs.Prelude.{◌≡◌, ◌+◌, ◌<◌, ◌≤◌, length, map, take, Some, None, IfOk, OnOk, if◌then◌else◌};
ghost use Rattle.std.specs.HashMap.{get};
ghost use Rattle.std.specs.Option.{option_or};
ghost use Rattle.mib_model.specs.declared.key.Key.{Key};
ghost use Rattle.mib_model.specs.Drafts.{rows_of};
ghost use Rattle.mib_model.specs.Keys.{key_in};
ghost use Rattle.mib_model.specs.Points.{first_of};
ghost use Rattle.mib_model.specs.RowTexts.{kind_in};
ghost use Rattle.mib_model.specs.Soundness.{first_flaw, flaws_of};
ghost use Rattle.mib_keys.specs.Alike.{AreKeyPlaces, key_eq};
ghost use Rattle.mib_keys.specs.Answers.{Gives};
ghost use Rattle.mib_keys.specs.Firsts.{flaw_at};
ghost use Rattle.mib_model.specs.declared.limits.TheConstants.{HELD_MOST};

use crate::fault::SoundFault;
use crate::keyed::ByOwn;
use crate::twice::earlier;
use mib_index::Index;
use mib_model::{KINDS, Kind, MibCode, MibFault, TableRow};
use mib_tables::Book;
use row_flaws::{Lookups, row_flaw};
use std::alloc::{AllocError, Global};
use std::collections::HashMap;

// The first flaw of a row. Notes its key.
fn row_flaw_of<'a, R: TableRow>(
    lookups: &Lookups<'_>,
    seen: &mut HashMap<ByOwn<'a, R>, usize>,
    place: usize,
    row: &'a R,
) -> Result<Option<MibFault>, AllocError>
    requires seen { AreKeyPlaces (get key_eq seen.old) (take place (rows_of lookups.now (kind_in (R.as_row row.now)))) }
    requires own { kind_in (R.as_row row.now) ≡ R.kind }
    requires few { place < HELD_MOST }
    ensures flaw { IfOk result (λ flaw. flaw ≡ flaw_at lookups.now (place + 1) (R.as_row row.now)) }
    ensures seen { OnOk result ((q : Key) → get key_eq seen.new q
        ≡ option_or (get key_eq seen.old q) (if key_eq (key_in (R.as_row row.now)) q then Some place else None)) }
{
    match earlier(lookups, seen, place, row)? {
        Some(first) => Ok(Some(MibFault {
            table: R::kind(),
            row: place as u32 + 1,
            column: 0,
            first: first as u32 + 1,
            code: MibCode::Twice,
        })),
        None => Ok(row_flaw(lookups, place as u32 + 1, &row.to_row())),
    }
}

// The first flaw of the rows of a table, row by row.
fn table_flaw<R: TableRow>(
    alloc: Global,
    lookups: &Lookups<'_>,
    rows: &[R],
) -> Result<Option<MibFault>, AllocError>
    requires own { (row : R) → kind_in (R.as_row row) ≡ R.kind }
    requires rows { map R.as_row rows.now ≡ rows_of lookups.now R.kind }
    requires few { length rows.now ≤ HELD_MOST }
    ensures { IfOk result (λ flaw. flaw ≡ first_of (flaws_of lookups.now R.kind)) }
{
    let mut seen = HashMap::with_capacity(alloc, rows.len())?;
    for (place, row) in rows.iter().enumerate() {
        if let Some(flaw) = row_flaw_of(lookups, &mut seen, place, row)? {
            return Ok(Some(flaw));
        }
    }
    Ok(None)
}

// The first flaw of a table.
fn kind_flaw(
    alloc: Global,
    lookups: &Lookups<'_>,
    kind: Kind,
) -> Result<Option<MibFault>, AllocError>
    ensures { IfOk result (λ flaw. flaw ≡ first_of (flaws_of lookups.now kind)) }
{
    let book = lookups.book();
    match kind {
        Kind::Pcf => table_flaw(alloc, lookups, book.pcf()),
        Kind::Pid => table_flaw(alloc, lookups, book.pid()),
        Kind::Pic => table_flaw(alloc, lookups, book.pic()),
        Kind::Tpcf => table_flaw(alloc, lookups, book.tpcf()),
        Kind::Plf => table_flaw(alloc, lookups, book.plf()),
        Kind::Vpd => table_flaw(alloc, lookups, book.vpd()),
        Kind::Cur => table_flaw(alloc, lookups, book.cur()),
        Kind::Caf => table_flaw(alloc, lookups, book.caf()),
        Kind::Cap => table_flaw(alloc, lookups, book.cap()),
        Kind::Txf => table_flaw(alloc, lookups, book.txf()),
        Kind::Txp => table_flaw(alloc, lookups, book.txp()),
        Kind::Mcf => table_flaw(alloc, lookups, book.mcf()),
        Kind::Lgf => table_flaw(alloc, lookups, book.lgf()),
        Kind::Ocf => table_flaw(alloc, lookups, book.ocf()),
        Kind::Ocp => table_flaw(alloc, lookups, book.ocp()),
    }
}

// The first flaw of all tables.
fn tables_flaw(alloc: Global, lookups: &Lookups<'_>) -> Result<Option<MibFault>, AllocError>
    ensures { IfOk result (λ flaw. flaw ≡ first_flaw lookups.now) }
{
    for kind in KINDS {
        if let Some(flaw) = kind_flaw(alloc, lookups, kind)? {
            return Ok(Some(flaw));
        }
    }
    Ok(None)
}

/// The first flaw of a table of the book of an index.
pub fn index_kind_flaw(
    alloc: Global,
    index: &Index<'_>,
    kind: Kind,
) -> Result<Option<MibFault>, AllocError>
    ensures { IfOk result (λ flaw. flaw ≡ first_of (flaws_of index.now kind)) }
{
    let lookups = Lookups::new(alloc, index)?;
    kind_flaw(alloc, &lookups, kind)
}

/// The first flaw of the book of an index.
pub fn index_flaw(alloc: Global, index: &Index<'_>) -> Result<Option<MibFault>, AllocError>
    ensures { IfOk result (λ flaw. flaw ≡ first_flaw index.now) }
{
    let lookups = Lookups::new(alloc, index)?;
    tables_flaw(alloc, &lookups)
}

/// The first flaw of a book, with all that is made for it.
pub fn first_flaw(alloc: Global, book: &Book) -> Result<Option<MibFault>, AllocError>
    ensures { IfOk result (λ flaw. flaw ≡ first_flaw book.now) }
{
    let index = Index::new(alloc, book)?;
    index_flaw(alloc, &index)
}

/// Whether the book of an index is sound, as `sound` tells it.
pub fn sound_by(alloc: Global, index: &Index<'_>) -> Result<(), SoundFault>
    ensures { Gives result index.now }
{
    match index_flaw(alloc, index)? {
        None => Ok(()),
        Some(fault) => Err(SoundFault::Mib(fault)),
    }
}

/// Whether a book is sound: `Ok` exactly where no flaw stands, and else the first flaw, by table, row and code, unless
/// memory runs out. The time grows with the rows.
pub fn sound(alloc: Global, book: &Book) -> Result<(), SoundFault>
    ensures { Gives result book.now }
{
    let index = Index::new(alloc, book)?;
    sound_by(alloc, &index)
}
