ghost use Rattle.std.specs.Prelude.{◌≡◌, ◌+◌, ◌<◌, ◌++◌, ◌∷◌, [], Some, OnOk, IfOk, filter, length, if◌then◌else◌};
ghost use Rattle.std.specs.Option.{option_eq};
ghost use Rattle.std.specs.HashMap.{get};
ghost use Rattle.row_groups.specs.Groups.{count_of, rows_of};

use crate::group::Group;
use first_rows::{By, GhostRows};
use std::alloc::{AllocError, Global};
use std::collections::HashMap;
use std::marker::Model;

/// The rows of each key. Contracts see all the rows that it was made of, in their order.
#[derive(Drop)]
pub struct RowGroups<B: By> {
    groups: HashMap<B::Key, Group<B::Row>>,
    rows: GhostRows<B::Row>,
}

impl<B: By> Model for RowGroups<B> {
    ghost use Rattle.std.specs.Prelude.{◌≡◌, List, Some, filter};
    ghost use Rattle.std.specs.Option.{option_eq};
    ghost use Rattle.std.specs.HashMap.{get};
    ghost use Rattle.row_groups.specs.Groups.{rows_of};

    ghost Value = { List B.Row };

    ghost view = { λ all. all.rows };

    ghost invariant = { λ all. (key : B.Key) → rows_of (get B.Key.eq all.groups key)
        ≡ filter (λ row. option_eq B.Key.eq (B.key_of row) (Some key)) all.rows };
}

// Counts a row by its key.
fn count<B: By>(counts: &mut HashMap<B::Key, usize>, row: &B::Row) -> Result<(), AllocError>
    requires { (key : B.Key) → count_of (get B.Key.eq counts.old key) < usize.MAX }
    ensures { OnOk result ((key : B.Key) → count_of (get B.Key.eq counts.new key) ≡
        (if option_eq B.Key.eq (B.key_of row.now) (Some key) then count_of (get B.Key.eq counts.old key) + 1 else count_of (get B.Key.eq counts.old key))) }
{
    let Some(key) = B::key(row) else {
        return Ok(());
    };
    let before = counts.get(&key).copied().unwrap_or(0);
    counts.insert(key, before + 1)?;
    Ok(())
}

// How many rows have each key.
fn counts<B: By>(alloc: Global, rows: &[B::Row]) -> Result<HashMap<B::Key, usize>, AllocError>
    ensures { IfOk result (λ counts. (key : B.Key) → count_of (get B.Key.eq counts key)
        ≡ length (filter (λ row. option_eq B.Key.eq (B.key_of row) (Some key)) rows.now)) }
{
    let mut counts = HashMap::new(alloc);
    for row in rows {
        count::<B>(&mut counts, row)?;
    }
    Ok(counts)
}

// Puts a row behind those with its key.
fn put<B: By>(
    alloc: Global,
    counts: &HashMap<B::Key, usize>,
    groups: &mut HashMap<B::Key, Group<B::Row>>,
    row: B::Row,
) -> Result<(), AllocError>
    ensures { OnOk result ((key : B.Key) → rows_of (get B.Key.eq groups.new key) ≡
        (if option_eq B.Key.eq (B.key_of row) (Some key) then rows_of (get B.Key.eq groups.old key) ++ row ∷ [] else rows_of (get B.Key.eq groups.old key))) }
{
    let Some(key) = B::key(&row) else {
        return Ok(());
    };
    let group = match groups.remove(&key) {
        Some(group) => group,
        None => Group::with_room(alloc, counts.get(&key).copied().unwrap_or(0))?,
    };
    groups.insert(key, group.with(row)?)?;
    Ok(())
}

// The rows of each key, with room for as many as were counted.
fn groups<B: By>(
    alloc: Global,
    counts: &HashMap<B::Key, usize>,
    rows: &[B::Row],
) -> Result<HashMap<B::Key, Group<B::Row>>, AllocError>
    ensures { IfOk result (λ groups. (key : B.Key) → rows_of (get B.Key.eq groups key)
        ≡ filter (λ row. option_eq B.Key.eq (B.key_of row) (Some key)) rows.now) }
{
    let mut groups = HashMap::with_capacity(alloc, counts.len())?;
    for row in rows {
        put::<B>(alloc, counts, &mut groups, *row)?;
    }
    Ok(groups)
}

impl<B: By> RowGroups<B> {
    /// These rows by their keys. An error is want of memory.
    pub fn new(alloc: Global, rows: &[B::Row]) -> Result<RowGroups<B>, AllocError>
        ensures { IfOk result (λ all. all ≡ rows.now) }
    {
        let counts = counts::<B>(alloc, rows)?;
        Ok(RowGroups {
            groups: groups::<B>(alloc, &counts, rows)?,
            rows: GhostRows::of(alloc, rows)?,
        })
    }

    /// The rows that have this key, in their order, in one probe.
    pub fn of(&self, key: &B::Key) -> &[B::Row]
        ensures { result.now ≡ filter (λ row. option_eq B.Key.eq (B.key_of row) (Some key.now)) self.now }
    {
        match self.groups.get(key) {
            Some(group) => group.rows(),
            None => &[],
        }
    }
}
