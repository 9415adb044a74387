ghost use Rattle.std.specs.Prelude.{◌≡◌, ◌++◌, ◌∷◌, [], Some, IfOk, OnOk, filter, length, map, if◌then◌else◌};
ghost use Rattle.std.specs.Option.{option_eq};
ghost use Rattle.std.specs.HashMap.{get};
ghost use Rattle.mib_index.specs.Groups.{rows_of};

use crate::firsts::has_key;
use first_rows::By;
use std::alloc::{AllocError, Global};
use std::collections::HashMap;
use std::hash::Hash;
use std::marker::Model;

// The rows of one key, where they stand. Contracts see the list of them.
#[derive(Drop)]
struct KeyGroup<'a, R: Copy + Drop> {
    rows: Vec<&'a R>,
}

impl<'a, R: Copy + Drop> Model for KeyGroup<'a, R> {
    ghost use Rattle.std.specs.Prelude.{List, map};

    ghost Value = { List R };

    ghost view = { λ group. map (λ row. row.now) group.rows.items };
}

// A row.
fn copy_of<R: Copy>(row: &&R) -> R
    ensures { result ≡ row.now.now }
{
    **row
}

// Rows, copied.
fn copies_of<R: Copy + Drop>(alloc: Global, rows: &[&R]) -> Result<Vec<R>, AllocError>
    ensures { IfOk result (λ copies. copies.items ≡ map (λ row. row.now) rows.now) }
{
    rows.iter().map(copy_of).collect(alloc)
}

impl<'a, R: Copy + Drop> KeyGroup<'a, R> {
    // A group without rows.
    fn empty(alloc: Global) -> KeyGroup<'a, R>
        ensures { result ≡ [] }
    {
        KeyGroup {
            rows: Vec::new(alloc),
        }
    }

    // Puts a row behind the others. An error is want of memory.
    fn add(&mut self, row: &'a R) -> Result<(), AllocError>
        ensures { OnOk result (self.new ≡ self.old ++ row.now ∷ []) }
    {
        self.rows.push(row)?;
        Ok(())
    }

    // Its rows. An error is want of memory.
    fn copies(&self, alloc: Global) -> Result<Vec<R>, AllocError>
        ensures { IfOk result (λ copies. copies.items ≡ self.now) }
    {
        copies_of(alloc, &self.rows)
    }

    // How many rows it has.
    fn count(&self) -> usize
        ensures { result ≡ length self.now }
    {
        self.rows.len()
    }
}

/// The rows of each key, where they stand. Contracts see all rows, in their order.
#[derive(Drop)]
pub struct Groups<'a, B: By> {
    // None where few are looked up.
    groups: Option<HashMap<B::Key, KeyGroup<'a, B::Row>>>,
    rows: &'a [B::Row],
}

impl<'a, B: By> Model for Groups<'a, B> {
    ghost use Rattle.std.specs.Prelude.{◌≡◌, List, Some, IfSome, filter};
    ghost use Rattle.std.specs.Option.{option_eq};
    ghost use Rattle.std.specs.HashMap.{get};
    ghost use Rattle.mib_index.specs.Groups.{rows_of};

    ghost Value = { List B.Row };

    ghost view = { λ all. all.rows.now };

    ghost invariant = { λ all. IfSome all.groups (λ groups. (key : B.Key) → rows_of (get B.Key.eq groups key)
        ≡ filter (λ row. option_eq B.Key.eq (B.key_of row) (Some key)) all.rows.now) };
}

// Puts a row behind those of a key, in one probe.
fn add<'a, K: Eq + Hash + Copy + Drop, R: Copy + Drop>(
    alloc: Global,
    groups: &mut HashMap<K, KeyGroup<'a, R>>,
    key: K,
    row: &'a R,
) -> Result<(), AllocError>
    ensures { OnOk result ((q : K) → rows_of (get K.eq groups.new q) ≡
        (if K.eq key q then rows_of (get K.eq groups.old q) ++ row.now ∷ [] else rows_of (get K.eq groups.old q))) }
{
    let group = groups.entry(key)?.or_insert(KeyGroup::empty(alloc));
    group.add(row)
}

// Puts a row behind those with its key, if it has one.
fn put<'a, B: By>(
    alloc: Global,
    groups: &mut HashMap<B::Key, KeyGroup<'a, B::Row>>,
    row: &'a B::Row,
) -> Result<(), AllocError>
    ensures { OnOk result ((key : B.Key) → rows_of (get B.Key.eq groups.new key) ≡ (if option_eq B.Key.eq (B.key_of row.now) (Some key)
        then rows_of (get B.Key.eq groups.old key) ++ row.now ∷ [] else rows_of (get B.Key.eq groups.old key))) }
{
    match B::key(row) {
        Some(key) => add(alloc, groups, key, row),
        None => Ok(()),
    }
}

// The rows of each key.
fn groups_of<'a, B: By>(
    alloc: Global,
    rows: &'a [B::Row],
) -> Result<HashMap<B::Key, KeyGroup<'a, B::Row>>, AllocError>
    ensures { IfOk result (λ groups. (key : B.Key) → rows_of (get B.Key.eq groups key)
        ≡ filter (λ row. option_eq B.Key.eq (B.key_of row) (Some key)) rows.now) }
{
    let mut groups = HashMap::new(alloc);
    for row in rows {
        put::<B>(alloc, &mut groups, row)?;
    }
    Ok(groups)
}

impl<'a, B: By> Groups<'a, B> {
    /// Rows of which many are looked up. An error is want of memory.
    pub fn mapped(alloc: Global, rows: &'a [B::Row]) -> Result<Groups<'a, B>, AllocError>
        ensures { IfOk result (λ all. all ≡ rows.now) }
    {
        Ok(Groups {
            groups: Some(groups_of::<B>(alloc, rows)?),
            rows,
        })
    }

    /// Rows of which few are looked up.
    pub fn listed(rows: &'a [B::Row]) -> Groups<'a, B>
        ensures { result ≡ rows.now }
    {
        Groups { groups: None, rows }
    }

    /// The rows that have this key, in their order. An error is want of memory.
    pub fn of(&self, alloc: Global, key: &B::Key) -> Result<Vec<B::Row>, AllocError>
        ensures { IfOk result (λ rows. rows.items ≡ filter (λ row. option_eq B.Key.eq (B.key_of row) (Some key.now)) self.now) }
    {
        let Some(groups) = &self.groups else {
            return self
                .rows
                .iter()
                .filter(|row| has_key::<B>(row, key))
                .copied()
                .collect(alloc);
        };
        match groups.get(key) {
            Some(group) => group.copies(alloc),
            None => Ok(Vec::new(alloc)),
        }
    }

    /// How many rows have this key.
    pub fn count(&self, key: &B::Key) -> usize
        ensures { result ≡ length (filter (λ row. option_eq B.Key.eq (B.key_of row) (Some key.now)) self.now) }
    {
        let Some(groups) = &self.groups else {
            return self
                .rows
                .iter()
                .filter(|row| has_key::<B>(row, key))
                .count();
        };
        match groups.get(key) {
            Some(group) => group.count(),
            None => 0,
        }
    }
}
