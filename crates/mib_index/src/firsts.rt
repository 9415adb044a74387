ghost use Rattle.std.specs.Prelude.{◌≡◌, Option, Some, None, IfOk, OnOk, position, is_some, unwrap_or, if◌then◌else◌};
ghost use Rattle.std.specs.HashMap.{get};
ghost use Rattle.std.specs.List.{find, list_any, slice_get};
ghost use Rattle.std.specs.Option.{option_and_then, option_copied, option_eq, option_or};

use first_rows::By;
use std::alloc::{AllocError, Global};
use std::collections::HashMap;
use std::hash::Hash;
use std::marker::Model;

/// The first row of each key, where it stands. Contracts see all rows, in their order.
#[derive(Drop)]
pub struct Firsts<'a, B: By> {
    // None where few are looked up.
    places: Option<HashMap<B::Key, usize>>,
    rows: &'a [B::Row],
}

impl<'a, B: By> Model for Firsts<'a, B> {
    ghost use Rattle.std.specs.Prelude.{◌≡◌, List, Some, IfSome, position};
    ghost use Rattle.std.specs.Option.{option_eq};
    ghost use Rattle.std.specs.HashMap.{get};

    ghost Value = { List B.Row };

    ghost view = { λ firsts. firsts.rows.now };

    ghost invariant = { λ firsts. IfSome firsts.places (λ places. (key : B.Key) → get B.Key.eq places key
        ≡ position (λ row. option_eq B.Key.eq (B.key_of row) (Some key)) firsts.rows.now) };
}

/// Whether a row has a key.
pub fn has_key<B: By>(row: &B::Row, key: &B::Key) -> bool
    ensures { result ≡ option_eq B.Key.eq (B.key_of row.now) (Some key.now) }
{
    B::key(row) == Some(*key)
}

/// The place of a key, which is this one where it has none yet, in one probe. An error is want of memory.
pub fn noted<K: Eq + Hash + Drop>(
    places: &mut HashMap<K, usize>,
    key: K,
    place: usize,
) -> Result<usize, AllocError>
    ensures first { IfOk result (λ first. first ≡ unwrap_or (get K.eq places.old key) place) }
    ensures noted { OnOk result ((q : K) → get K.eq places.new q ≡ option_or (get K.eq places.old q) (if K.eq key q then Some place else None)) }
{
    let first = *places.entry(key)?.or_insert(place);
    Ok(first)
}

/// Notes the place of a key that has none yet. An error is want of memory.
pub fn note<K: Eq + Hash + Copy + Drop>(
    places: &mut HashMap<K, usize>,
    key: Option<K>,
    place: usize,
) -> Result<(), AllocError>
    ensures { OnOk result ((q : K) → get K.eq places.new q ≡ option_or (get K.eq places.old q) (if option_eq K.eq key (Some q) then Some place else None)) }
{
    if let Some(key) = key {
        noted(places, key, place)?;
    }
    Ok(())
}

// The first place of each key of rows.
fn places_of<B: By>(alloc: Global, rows: &[B::Row]) -> Result<HashMap<B::Key, usize>, AllocError>
    ensures { IfOk result (λ places. (key : B.Key) → get B.Key.eq places key ≡ position (λ row. option_eq B.Key.eq (B.key_of row) (Some key)) rows.now) }
{
    let mut places = HashMap::with_capacity(alloc, rows.len())?;
    for (place, row) in rows.iter().enumerate() {
        note(&mut places, B::key(row), place)?;
    }
    Ok(places)
}

// The row at a place that may have been found.
fn row_at<R>(rows: &[R], place: Option<usize>) -> Option<&R>
    ensures { option_copied result ≡ option_and_then (λ i. slice_get rows.now i) place }
{
    match place {
        Some(place) => rows.get(place),
        None => None,
    }
}

impl<'a, B: By> Firsts<'a, B> {
    /// Rows of which many are looked up. An error is want of memory.
    pub fn mapped(alloc: Global, rows: &'a [B::Row]) -> Result<Firsts<'a, B>, AllocError>
        ensures { IfOk result (λ firsts. firsts ≡ rows.now) }
    {
        Ok(Firsts {
            places: Some(places_of::<B>(alloc, rows)?),
            rows,
        })
    }

    /// Rows of which few are looked up.
    pub fn listed(rows: &'a [B::Row]) -> Firsts<'a, B>
        ensures { result ≡ rows.now }
    {
        Firsts { places: None, rows }
    }

    /// The first place, from 0, of a row that has this key.
    pub fn place(&self, key: &B::Key) -> Option<usize>
        ensures { result ≡ position (λ row. option_eq B.Key.eq (B.key_of row) (Some key.now)) self.now }
    {
        match &self.places {
            Some(places) => places.get(key).copied(),
            None => self.rows.iter().position(|row| has_key::<B>(row, key)),
        }
    }

    /// The first row that has this key.
    pub fn find(&self, key: &B::Key) -> Option<&'a B::Row>
        ensures row { option_copied result ≡ find (λ row. option_eq B.Key.eq (B.key_of row) (Some key.now)) self.now }
        ensures there { is_some result ≡ list_any (λ row. option_eq B.Key.eq (B.key_of row) (Some key.now)) self.now }
    {
        row_at(self.rows, self.place(key))
    }
}
