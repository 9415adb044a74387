// Rows that several tables may share.
ghost use Rattle.std.specs.Prelude.{◌≡◌, ◌<◌, ◌++◌, [], ◌∷◌, IfOk, OnErr, OnOk, length, set};
ghost use Rattle.std.specs.List.{remove};

use std::alloc::{AllocError, Global};
use std::marker::Model;
use std::sync::Arc;

/// The rows of a table, which other tables may share: who changes them copies them first where they are shared. Contracts
/// see the list of them.
pub struct Shared<R> {
    // None for no rows.
    rows: Option<Arc<Vec<R>>>,
}

/// By hand, so that whoever lets one go proves one call.
impl<R: Drop> Drop for Shared<R> {
    fn drop(self) {
        let Shared { rows: _rows } = self;
    }
}

impl<R> Model for Shared<R> {
    ghost use Rattle.std.specs.Prelude.{List, [], option_map, unwrap_or};
    ghost use Rattle.std.specs.Arc.{arc_value};
    ghost use Rattle.std.specs.Vec.{vec_items};

    ghost Value = { List R };

    ghost view = { λ shared. unwrap_or (option_map (λ rows. vec_items (arc_value rows)) shared.rows) [] };
}

impl<R: Copy + Drop> Shared<R> {
    /// No rows. They take no memory.
    pub fn none() -> Self
        ensures { result ≡ [] }
    {
        Shared { rows: None }
    }

    /// These rows, not shared yet. An error is want of memory.
    pub fn new(alloc: Global, rows: Vec<R>) -> Result<Self, AllocError>
        ensures { IfOk result (λ shared. shared ≡ rows.items) }
    {
        Ok(Shared {
            rows: Some(Arc::new(alloc, rows)?),
        })
    }

    /// The rows, in their order.
    pub fn rows(&self) -> &[R]
        ensures { result.now ≡ self.now }
    {
        match &self.rows {
            Some(rows) => rows.as_slice(),
            None => &[],
        }
    }

    /// A further holder of the same rows. An error is want of memory.
    pub fn share(&self) -> Result<Self, AllocError>
        ensures { IfOk result (λ other. other ≡ self.now) }
    {
        match &self.rows {
            Some(rows) => Ok(Shared {
                rows: Some(Arc::try_clone(rows)?),
            }),
            None => Ok(Shared::none()),
        }
    }

    // Whether it is the only holder of some rows.
    fn is_only(&self) -> bool {
        match &self.rows {
            Some(rows) => Arc::strong_count(rows) == 1,
            None => false,
        }
    }

    // A copy of the rows.
    fn copied(&self, alloc: Global) -> Result<Vec<R>, AllocError>
        ensures { IfOk result (λ rows. rows.items ≡ self.now) }
    {
        Vec::from_slice(alloc, self.rows())
    }

    // Copies the rows where it isn't their only holder, so that they can be changed.
    fn own(&mut self, alloc: Global) -> Result<(), AllocError>
        ensures { self.new ≡ self.old }
    {
        if !self.is_only() {
            let rows = self.copied(alloc)?;
            *self = Shared::new(alloc, rows)?;
        }
        Ok(())
    }

    /// Puts a row in the place of another. An error is want of memory.
    pub fn set(&mut self, alloc: Global, place: usize, row: R) -> Result<(), AllocError>
        requires { place < length self.old }
        ensures row { OnOk result (self.new ≡ set self.old place row) }
        ensures kept { OnErr result (self.new ≡ self.old) }
    {
        self.own(alloc)?;
        let Some(rows) = &mut self.rows else {
            return Err(AllocError);
        };
        let Some(rows) = Arc::get_mut(rows) else {
            return Err(AllocError);
        };
        rows[place] = row;
        Ok(())
    }

    /// Puts a row behind all others. An error is want of memory.
    pub fn push(&mut self, alloc: Global, row: R) -> Result<(), AllocError>
        ensures row { OnOk result (self.new ≡ self.old ++ row ∷ []) }
        ensures kept { OnErr result (self.new ≡ self.old) }
    {
        self.own(alloc)?;
        let Some(rows) = &mut self.rows else {
            return Err(AllocError);
        };
        let Some(rows) = Arc::get_mut(rows) else {
            return Err(AllocError);
        };
        rows.push(row)?;
        Ok(())
    }

    /// Takes a row out. An error is want of memory.
    pub fn remove(&mut self, alloc: Global, place: usize) -> Result<(), AllocError>
        requires { place < length self.old }
        ensures row { OnOk result (self.new ≡ remove self.old place) }
        ensures kept { OnErr result (self.new ≡ self.old) }
    {
        self.own(alloc)?;
        let Some(rows) = &mut self.rows else {
            return Err(AllocError);
        };
        let Some(rows) = Arc::get_mut(rows) else {
            return Err(AllocError);
        };
        let _row = rows.remove(place);
        Ok(())
    }
}
