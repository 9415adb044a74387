// The rows of one table.
ghost use Rattle.std.specs.Prelude.{◌≡◌, ◌≤◌, [], IfOk, OnErr, OnOk, filter_map, length, map, position, true, false, Err};
ghost use Rattle.mib_model.specs.Drafts.{put_in, without_key, is_held};
ghost use Rattle.mib_model.specs.Keys.{has_key, key_in, same_key};
ghost use Rattle.mib_model.specs.declared.limits.TheConstants.{HELD_MOST};
ghost use Rattle.mib_tables.specs.Parts.{if_kept};
ghost use Rattle.mib_tables.specs.Puts.{put_made};

use crate::shared::Shared;
use mib_model::{HELD_MOST, Key, TableRow};
use std::alloc::{AllocError, Global};
use std::marker::Model;

/// What `put` did.
#[derive(Clone, Copy, Debug, PartialEq, Eq)]
pub enum Put {
    /// No row had the key: the row stands behind all others.
    Added,
    /// The row stands in the place of the first that had its key.
    Replaced,
}

/// Why no row was taken out.
#[derive(Clone, Copy, Debug, PartialEq, Eq)]
pub enum DelFault {
    /// No row has the key.
    NoRow,
    /// Want of memory.
    Memory,
}

impl From<AllocError> for DelFault {
    ghost use Rattle.std.specs.Prelude.{◌≡◌};
    ghost use Rattle.mib_tables.specs.declared.table.DelFault.TheVariants as faults;

    ghost from_gives = { λ _ made. made ≡ faults.Memory };

    fn from(_: AllocError) -> DelFault {
        DelFault::Memory
    }
}

/// The rows of a table, at most `HELD_MOST`. Contracts see the list of them.
pub struct Table<R: TableRow> {
    rows: Shared<R>,
}

/// By hand, so that whoever lets one go proves one call.
impl<R: TableRow> Drop for Table<R> {
    fn drop(self) {
        let Table { rows: _rows } = self;
    }
}

impl<R: TableRow> Model for Table<R> {
    ghost use Rattle.std.specs.Prelude.{◌≤◌, List, length};
    ghost use Rattle.mib_model.specs.declared.limits.TheConstants.{HELD_MOST};

    ghost Value = { List R };

    ghost view = { λ table. table.rows };

    ghost invariant = { λ table. length table.rows ≤ HELD_MOST };
}

// Whether two keys are the same.
#[tactic(auto, unfolding(mib_model::specs::Keys::same_key))]
fn is_same(a: &Key, b: &Key) -> bool
    ensures { result ≡ same_key a.now b.now }
{
    a == b
}

fn has<R: TableRow>(row: &R, key: &Key) -> bool
    ensures { result ≡ has_key key.now (R.as_row row.now) }
{
    is_same(&row.to_row().key(), key)
}

// The place of the first row with a key.
fn place_of<R: TableRow>(rows: &[R], key: &Key) -> Option<usize>
    ensures { result ≡ position (λ row. has_key key.now (R.as_row row)) rows.now }
{
    rows.iter().position(|row| has(row, key))
}

impl<R: TableRow> Table<R> {
    /// A table with no rows. It takes no memory.
    pub fn empty() -> Self
        ensures { result ≡ [] }
    {
        Table {
            rows: Shared::none(),
        }
    }

    /// A table of these rows; more than `HELD_MOST` are want of memory.
    pub fn new(alloc: Global, rows: Vec<R>) -> Result<Self, AllocError>
        ensures { IfOk result (λ table. table ≡ rows.items) }
    {
        if rows.len() > HELD_MOST {
            return Err(AllocError);
        }
        Ok(Table {
            rows: Shared::new(alloc, rows)?,
        })
    }

    /// Its rows, in their order.
    pub fn rows(&self) -> &[R]
        ensures rows { result.now ≡ self.now }
        ensures few { length result.now ≤ HELD_MOST }
    {
        self.rows.rows()
    }

    /// A table with these rows, which both share until one of them changes.
    pub fn copy(&self) -> Result<Self, AllocError>
        ensures { IfOk result (λ table. table ≡ self.now) }
    {
        Ok(Table {
            rows: self.rows.share()?,
        })
    }

    /// A table with these rows if they are to be kept, and else with none.
    pub fn copy_if(&self, kept: bool) -> Result<Self, AllocError>
        ensures { IfOk result (λ table. table ≡ if_kept kept self.now) }
    {
        if kept {
            self.copy()
        } else {
            Ok(Table::empty())
        }
    }

    /// Takes some rows in place of its own; more than `HELD_MOST` are want of memory.
    pub fn fill(&mut self, alloc: Global, rows: Vec<R>) -> Result<(), AllocError>
        ensures rows { OnOk result (self.new ≡ filter_map R.from_row (map R.as_row rows.items)) }
        ensures kept { OnErr result (self.new ≡ self.old) }
    {
        *self = Table::new(alloc, rows)?;
        Ok(())
    }

    /// Puts a row in the place of the first with its key, or behind all others. A full table takes no more.
    pub fn put(&mut self, alloc: Global, row: R) -> Result<Put, AllocError>
        ensures rows { OnOk result (self.new ≡ filter_map R.from_row (put_in (R.as_row row) (map R.as_row self.old))) }
        ensures made { IfOk result (λ made. made ≡ put_made (is_held (key_in (R.as_row row)) (map R.as_row self.old))) }
        ensures kept { OnErr result (self.new ≡ self.old) }
    {
        let key = row.to_row().key();
        match place_of(self.rows(), &key) {
            Some(place) => {
                self.rows.set(alloc, place, row)?;
                Ok(Put::Replaced)
            }
            None => {
                if self.rows().len() == HELD_MOST {
                    return Err(AllocError);
                }
                self.rows.push(alloc, row)?;
                Ok(Put::Added)
            }
        }
    }

    /// Takes the first row with a key out.
    pub fn del(&mut self, alloc: Global, key: &Key) -> Result<(), DelFault>
        ensures held { OnOk result (is_held key.now (map R.as_row self.old) ≡ true) }
        ensures missing { result ≡ Err DelFault.NoRow → is_held key.now (map R.as_row self.old) ≡ false }
        ensures rows { OnOk result (self.new ≡ filter_map R.from_row (without_key key.now (map R.as_row self.old))) }
        ensures kept { OnErr result (self.new ≡ self.old) }
    {
        match place_of(self.rows(), key) {
            Some(place) => {
                self.rows.remove(alloc, place)?;
                Ok(())
            }
            None => Err(DelFault::NoRow),
        }
    }
}
