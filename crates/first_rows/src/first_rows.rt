ghost use Rattle.std.specs.Prelude.{◌≡◌, List, Option, Some, None, OnOk, IfOk, if◌then◌else◌};
ghost use Rattle.std.specs.List.{find};
ghost use Rattle.std.specs.Option.{option_eq, option_or, option_copied};
ghost use Rattle.std.specs.HashMap.{get};
ghost use Rattle.first_rows.specs.ByNumbers.{IsAtHand, IsFirst};

use crate::fast::ByNumber;
use crate::seen::GhostRows;
use std::alloc::{AllocError, Global};
use std::collections::HashMap;
use std::hash::Hash;
use std::marker::Model;

/// A way to look up rows: by a key, which some rows may lack.
pub trait By {
    type Row: Copy + Drop;

    type Key: Eq + Hash + Copy + Drop;

    ghost key_of: { Self.Row → Option Self.Key };

    /// The key of a row.
    fn key(row: &Self::Row) -> Option<Self::Key>
        ensures { result ≡ key_of row.now };

    /// A number for a key, by which its row is looked for first. Any will do: keys that have one number are found by the map.
    fn number(_key: &Self::Key) -> u64 {
        0
    }
}

/// The first row of each key. Contracts see all the rows that it was made of, in their order.
#[derive(Drop)]
pub struct FirstRows<B: By> {
    firsts: HashMap<B::Key, B::Row>,
    numbered: ByNumber<B::Row>,
    count: usize,
    rows: GhostRows<B::Row>,
}

impl<B: By> Model for FirstRows<B> {
    ghost use Rattle.std.specs.Prelude.{◌≡◌, List, Some, length};
    ghost use Rattle.std.specs.List.{find};
    ghost use Rattle.std.specs.Option.{option_eq};
    ghost use Rattle.std.specs.HashMap.{get};
    ghost use Rattle.first_rows.specs.ByNumbers.{IsAtHand, IsFirst};

    ghost Value = { List B.Row };

    ghost view = { λ all. all.rows };

    ghost invariant = { λ all. (all.count ≡ length all.rows)
        × ((key : B.Key) → get B.Key.eq all.firsts key ≡ find (λ row. option_eq B.Key.eq (B.key_of row) (Some key)) all.rows)
        × ((row : B.Row) → IsAtHand all.numbered row → IsFirst (λ key row. option_eq B.Key.eq (B.key_of row) (Some key)) all.rows row) };
}

// Notes a row whose key has none yet.
fn note<B: By>(firsts: &mut HashMap<B::Key, B::Row>, row: B::Row) -> Result<(), AllocError>
    ensures { OnOk result ((key : B.Key) → get B.Key.eq firsts.new key ≡ option_or (get B.Key.eq firsts.old key)
        (if option_eq B.Key.eq (B.key_of row) (Some key) then Some row else None)) }
{
    let Some(key) = B::key(&row) else {
        return Ok(());
    };
    if !firsts.contains_key(&key) {
        firsts.insert(key, row)?;
    }
    Ok(())
}

// The first row of each key.
fn firsts<B: By>(alloc: Global, rows: &[B::Row]) -> Result<HashMap<B::Key, B::Row>, AllocError>
    ensures { IfOk result (λ firsts. (key : B.Key) → get B.Key.eq firsts key ≡ find (λ row. option_eq B.Key.eq (B.key_of row) (Some key)) rows.now) }
{
    let mut firsts = HashMap::with_capacity(alloc, rows.len())?;
    for row in rows {
        note::<B>(&mut firsts, *row)?;
    }
    Ok(firsts)
}

// Puts the first row of a row's key at the place of its number.
fn put_first<B: By>(numbered: &mut ByNumber<B::Row>, firsts: &HashMap<B::Key, B::Row>, row: &B::Row)
    ensures { (rows : List B.Row) → ((key : B.Key) → get B.Key.eq firsts.now key ≡ find (λ row. option_eq B.Key.eq (B.key_of row) (Some key)) rows)
        → ((held : B.Row) → IsAtHand numbered.old held → IsFirst (λ key row. option_eq B.Key.eq (B.key_of row) (Some key)) rows held)
        → (held : B.Row) → IsAtHand numbered.new held → IsFirst (λ key row. option_eq B.Key.eq (B.key_of row) (Some key)) rows held }
{
    let Some(key) = B::key(row) else {
        return;
    };
    if let Some(first) = firsts.get(&key) {
        numbered.put(B::number(&key), *first);
    }
}

// First rows at the places of their numbers.
fn numbered_firsts<B: By>(
    alloc: Global,
    firsts: &HashMap<B::Key, B::Row>,
    rows: &[B::Row],
) -> Result<ByNumber<B::Row>, AllocError>
    requires { (key : B.Key) → get B.Key.eq firsts.now key ≡ find (λ row. option_eq B.Key.eq (B.key_of row) (Some key)) rows.now }
    ensures { IfOk result (λ numbered. (held : B.Row) → IsAtHand numbered held
        → IsFirst (λ key row. option_eq B.Key.eq (B.key_of row) (Some key)) rows.now held) }
{
    let mut numbered = ByNumber::with_room(alloc, rows.len())?;
    for row in rows {
        put_first::<B>(&mut numbered, firsts, row);
    }
    Ok(numbered)
}

// Whether a row has a key.
#[inline(always)]
fn has_key<B: By>(row: &B::Row, key: &B::Key) -> bool
    ensures { result ≡ option_eq B.Key.eq (B.key_of row.now) (Some key.now) }
{
    B::key(row) == Some(*key)
}

// The first row of a key, by the map: out of the way of those that are found without it.
#[inline(never)]
fn probe<'a, B: By>(firsts: &'a HashMap<B::Key, B::Row>, key: &B::Key) -> Option<&'a B::Row>
    ensures { option_copied result ≡ get B.Key.eq firsts.now key.now }
{
    firsts.get(key)
}

impl<B: By> FirstRows<B> {
    /// The first of these rows for each key. An error is want of memory.
    pub fn new(alloc: Global, rows: &[B::Row]) -> Result<FirstRows<B>, AllocError>
        ensures { IfOk result (λ all. all ≡ rows.now) }
    {
        Ok(FirstRows {
            firsts: firsts::<B>(alloc, rows)?,
            numbered: ByNumber::none(alloc),
            count: rows.len(),
            rows: GhostRows::of(alloc, rows)?,
        })
    }

    /// As `new`, with most rows also at the places of their numbers, where they are found without a probe.
    pub fn with_numbers(alloc: Global, rows: &[B::Row]) -> Result<FirstRows<B>, AllocError>
        ensures { IfOk result (λ all. all ≡ rows.now) }
    {
        let firsts = firsts::<B>(alloc, rows)?;
        let numbered = numbered_firsts::<B>(alloc, &firsts, rows)?;
        Ok(FirstRows {
            firsts,
            numbered,
            count: rows.len(),
            rows: GhostRows::of(alloc, rows)?,
        })
    }

    /// The first row that has this key, in one probe at most.
    #[inline]
    pub fn find(&self, key: &B::Key) -> Option<&B::Row>
        ensures { option_copied result ≡ find (λ row. option_eq B.Key.eq (B.key_of row) (Some key.now)) self.now }
    {
        if self.count == 0 {
            return None;
        }
        if let Some(row) = self.numbered.at(B::number(key)) {
            if has_key::<B>(row, key) {
                return Some(row);
            }
        }
        probe::<B>(&self.firsts, key)
    }
}
