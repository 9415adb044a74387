ghost use Rattle.std.specs.Prelude.{◌≡◌, IfOk};

use std::alloc::{AllocError, Global};
use std::marker::Model;
use std::snapshot::Snapshot;

/// Rows as contracts see them: it has none of their octets, and takes no memory. Contracts see the rows.
#[derive(Drop)]
pub struct GhostRows<R> {
    rows: Vec<Snapshot<R>>,
}

impl<R> Model for GhostRows<R> {
    ghost use Rattle.std.specs.Prelude.{List, map};

    ghost Value = { List R };

    ghost view = { λ seen. map (λ row. row.value) seen.rows.items };
}

impl<R> GhostRows<R> {
    /// These rows. An error is want of memory.
    pub fn of(alloc: Global, rows: &[R]) -> Result<GhostRows<R>, AllocError>
        ensures { IfOk result (λ seen. seen ≡ rows.now) }
    {
        let mut seen = Vec::new(alloc);
        for row in rows {
            seen.push(Snapshot::of(row))?;
        }
        Ok(GhostRows { rows: seen })
    }
}
