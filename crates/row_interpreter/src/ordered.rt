ghost use Rattle.std.specs.Prelude.{◌≡◌, ℕ, Some, filter, IfOk};
ghost use Rattle.std.specs.Option.{option_eq};
ghost use Rattle.mib_model.specs.Orders.{sorted_by_number};

use first_rows::GhostRows;
use row_groups::{By, RowGroups};
use std::alloc::{AllocError, Global};
use std::marker::Model;

/// A way to search rows that have a place among those with their key: POS.
pub trait ByPlace: By {
    ghost place_of: { Self.Row → ℕ };

    /// The place of a row.
    fn place(row: &Self::Row) -> u16
        ensures { result ≡ place_of row.now };
}

/// The rows of each key by their places. Contracts see all the rows that it was made of, in the order of their file.
pub struct OrderedRows<B: ByPlace> {
    groups: RowGroups<B>,
    rows: GhostRows<B::Row>,
}

/// By hand, so that whoever lets one go proves one call.
impl<B: ByPlace> Drop for OrderedRows<B> {
    fn drop(self) {
        let OrderedRows {
            groups: _groups,
            rows: _rows,
        } = self;
    }
}

impl<B: ByPlace> Model for OrderedRows<B> {
    ghost use Rattle.std.specs.Prelude.{◌≡◌, List};
    ghost use Rattle.mib_model.specs.Orders.{sorted_by_number};

    ghost Value = { List B.Row };

    ghost view = { λ all. all.rows };

    ghost invariant = { λ all. all.groups ≡ sorted_by_number B.place_of all.rows };
}

// Rows in the order of their places; of two with one place the earlier stays first.
fn sorted<B: ByPlace>(alloc: Global, rows: &[B::Row]) -> Result<Vec<B::Row>, AllocError>
    ensures { IfOk result (λ sorted. sorted.items ≡ sorted_by_number B.place_of rows.now) }
{
    let mut sorted = Vec::from_slice(alloc, rows)?;
    sorted.sort_by_key(|row| B::place(row))?;
    Ok(sorted)
}

impl<B: ByPlace> OrderedRows<B> {
    /// These rows by their keys and places. An error is want of memory.
    pub fn new(alloc: Global, rows: &[B::Row]) -> Result<OrderedRows<B>, AllocError>
        ensures { IfOk result (λ all. all ≡ rows.now) }
    {
        let sorted = sorted::<B>(alloc, rows)?;
        Ok(OrderedRows {
            groups: RowGroups::new(alloc, &sorted)?,
            rows: GhostRows::of(alloc, rows)?,
        })
    }

    /// The rows that have this key, by their places.
    pub fn of(&self, key: &B::Key) -> &[B::Row]
        ensures { result.now ≡ sorted_by_number B.place_of (filter (λ row. option_eq B.Key.eq (B.key_of row) (Some key.now)) self.now) }
    {
        self.groups.of(key)
    }
}
