ghost use Rattle.std.specs.Prelude.{◌≡◌, ◌++◌, ◌∷◌, [], IfOk};

use std::alloc::{AllocError, Global};
use std::marker::Model;

/// The rows of one key, in their order. Contracts see the list of them.
#[derive(Drop)]
pub struct Group<R: Copy + Drop> {
    rows: Vec<R>,
}

impl<R: Copy + Drop> Model for Group<R> {
    ghost use Rattle.std.specs.Prelude.{List};

    ghost Value = { List R };

    ghost view = { λ group. group.rows.items };
}

impl<R: Copy + Drop> Group<R> {
    /// A group without rows, with room for so many. An error is want of memory.
    pub fn with_room(alloc: Global, count: usize) -> Result<Group<R>, AllocError>
        ensures { IfOk result (λ group. group ≡ []) }
    {
        Ok(Group {
            rows: Vec::with_capacity(alloc, count)?,
        })
    }

    /// The group with one more row behind the others. An error is want of memory.
    pub fn with(self, row: R) -> Result<Group<R>, AllocError>
        ensures { IfOk result (λ group. group ≡ self ++ row ∷ []) }
    {
        let Group { mut rows } = self;
        rows.push(row)?;
        Ok(Group { rows })
    }

    /// The rows.
    pub fn rows(&self) -> &[R]
        ensures { result.now ≡ self.now }
    {
        self.rows.as_slice()
    }
}
