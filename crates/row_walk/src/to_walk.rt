// The rows that are still to walk.
ghost use Rattle.std.specs.Prelude.{◌≡◌, ◌++◌, ◌∷◌, [], IfOk, IfSome, OnOk, Ok, None};
ghost use Rattle.std.specs.List.{repeat};
ghost use Rattle.mib_model.specs.Structures.{group_repeated};
ghost use Rattle.row_searches.specs.Nesting.{AreNested, Holds};

use mib_model::VpdRow;
use std::alloc::{AllocError, Global};
use std::marker::Model;

/// Rows that are walked so many times, once at least.
#[derive(Clone, Copy)]
pub(crate) struct Rounds<'a> {
    rows: &'a [VpdRow],
    times: u128,
}

/// The rows that are still to walk, those that come first on top. Contracts see them one after the other.
#[derive(Drop)]
pub(crate) struct RowsToWalk<'a> {
    rounds: Vec<Rounds<'a>>,
}

impl<'a> Model for RowsToWalk<'a> {
    ghost use Rattle.std.specs.Prelude.{List};
    ghost use Rattle.std.specs.List.{All};
    ghost use Rattle.mib_model.specs.declared.rows.VpdRow.{VpdRow};
    ghost use Rattle.row_walk.specs.Stacked.{IsRounds, rows_to_walk};

    ghost Value = { List VpdRow };

    ghost view = { λ all. rows_to_walk all.rounds.items };

    ghost invariant = { λ all. All IsRounds all.rounds.items };
}

impl<'a> RowsToWalk<'a> {
    /// No rows.
    pub fn new(alloc: Global) -> RowsToWalk<'a>
        ensures { result ≡ [] }
    {
        RowsToWalk {
            rounds: Vec::new(alloc),
        }
    }

    /// Forgets all rows.
    pub fn clear(&mut self)
        ensures { self.new ≡ [] }
    {
        self.rounds.clear();
    }

    /// Puts rows that are walked so many times in front. An error is want of memory.
    pub fn add(&mut self, rows: &'a [VpdRow], times: u128) -> Result<(), AllocError>
        requires { AreNested rows.now }
        ensures { OnOk result (self.new ≡ repeat times rows.now ++ self.old) }
    {
        if rows.is_empty() {
            return Ok(());
        }
        if times == 0 {
            return Ok(());
        }
        self.rounds.push(Rounds { rows, times })?;
        Ok(())
    }

    /// Puts rows in front of which the first ones, so many, are walked some times. An error is want of memory.
    pub fn add_group(
        &mut self,
        size: u16,
        times: u128,
        rows: &'a [VpdRow],
    ) -> Result<(), AllocError>
        requires nested { AreNested rows.now }
        requires holds { Holds size rows.now }
        ensures { OnOk result (self.new ≡ group_repeated size times (rows.now ++ self.old)) }
    {
        let (group, behind) = rows.split_at(usize::from(size));
        self.add(behind, 1)?;
        self.add(group, times)
    }

    /// The next row, and the rows that stand behind it in its structure, up to the end of its group. They aren't to be walked any more.
    /// An error is want of memory.
    pub fn next(&mut self) -> Result<Option<(VpdRow, &'a [VpdRow])>, AllocError>
        ensures none { result ≡ Ok None → self.old ≡ [] }
        ensures some { IfOk result (λ next. IfSome next (λ n. self.old ≡ n.0 ∷ n.1.now ++ self.new)) }
        ensures nested { IfOk result (λ next. IfSome next (λ n. AreNested (n.0 ∷ n.1.now))) }
    {
        let Some(Rounds { rows, times }) = self.rounds.pop() else {
            return Ok(None);
        };
        self.add(rows, times - 1)?;
        Ok(Some((rows[0], &rows[1..])))
    }
}
