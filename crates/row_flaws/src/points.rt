// The rules for points and texts of curves, whose bounds are whole numbers.
// [SCOS-2000 Database Import ICD, cap and txp.]
ghost use Rattle.std.specs.Prelude.{◌≡◌, ◌≤◌, ℕ, List, ◌-◌, ◌&&◌, ◌||◌, not, drop, take, is_none, length, position, Option, Some, None, IfOk};
ghost use Rattle.std.specs.HashMap.{get};
ghost use Rattle.std.specs.List.{find};
ghost use Rattle.std.specs.Str.{bytes_eq};
ghost use Rattle.std.specs.Option.{option_copied};
ghost use Rattle.mib_model.specs.CurveFlaws.{txp_rules, cap_rules, is_bad_range, is_bad_point};
ghost use Rattle.mib_model.specs.WholeNumbers.{decimal_whole, whole_number};
ghost use Rattle.row_flaws.specs.Firsts.{flaw_by};
ghost use Rattle.row_flaws.specs.Indexes.{first_place};
ghost use Rattle.row_flaws.specs.Points.{point_in, point_of, point_at, point_eq, repeats, is_repeated_point};
ghost use Rattle.row_flaws.specs.Indexes.{cut};

use crate::flaw::At;
use crate::lookups::Lookups;
use dec_num::{decimal_whole, whole_number};
use mib_index::{Index, note};
use mib_model::{CafRow, CapRow, Kind, MibCode, MibFault, Name, TxfRow, TxpRow};
use std::alloc::{AllocError, Global};
use std::collections::HashMap;

/// What tells the points of curves apart.
#[derive(Clone, Copy, PartialEq, Eq, Hash)]
pub struct PointKey {
    pub numbr: Name,
    pub x: i128,
}

fn is_bad_range(texts: Option<&TxfRow>, row: &TxpRow) -> bool
    ensures { result ≡ is_bad_range (option_copied texts.entry) row.now }
{
    match texts {
        Some(texts) => {
            let low = decimal_whole(row.low.bytes());
            let high = decimal_whole(row.high.bytes());
            texts.rawfmt != b'R' && (low.is_none() || high.is_none())
        }
        None => false,
    }
}

/// TXP: bounds that are whole numbers.
pub fn txp_flaw(lookups: &Lookups<'_>, number: u32, row: &TxpRow) -> Option<MibFault>
    ensures { result ≡ flaw_by Kind.Txp number (drop 1 (txp_rules lookups.now)) (take (number - 1) lookups.now.txp) row.now }
{
    let at = At::new(Kind::Txp, number);
    let texts = lookups.texts(row.numbr);
    let bad = is_bad_range(texts, row);
    at.missing(&[(1, texts.is_some())])
        .or(at.flaw_if(MibCode::Points, bad))
}

fn point_key(numbr: Name, x: i128) -> PointKey
    ensures { result ≡ record { numbr = numbr; x = x } }
{
    PointKey { numbr, x }
}

// The curve and the number of a point.
fn point_at(numbr: Name, x: Option<i128>) -> Option<PointKey>
    ensures { result ≡ point_at numbr x }
{
    match x {
        Some(x) => Some(PointKey { numbr, x }),
        None => None,
    }
}

// The curve and the number of a row, where it has both.
fn point_of(curve: Option<&CafRow>, row: &CapRow) -> Option<PointKey>
    ensures { result ≡ point_of (option_copied curve.entry) row.now }
{
    match curve {
        Some(curve) => point_at(row.numbr, whole_number(curve.radix, row.xvals.bytes())),
        None => None,
    }
}

/// The first place of each point.
pub fn point_places(
    alloc: Global,
    index: &Index<'_>,
) -> Result<HashMap<PointKey, usize>, AllocError>
    ensures { IfOk result (λ points. (q : PointKey) → get point_eq points q ≡ first_place point_eq (point_in index.now.caf) index.now.cap q) }
{
    let curves = index.curves();
    let caps = index.book().cap();
    let mut points = HashMap::with_capacity(alloc, caps.len())?;
    for (place, row) in caps.iter().enumerate() {
        note(&mut points, point_of(curves.find(&row.numbr), row), place)?;
    }
    Ok(points)
}

/// Whether a place, from 0, is before another.
pub fn before(place: Option<usize>, end: usize) -> Option<usize>
    ensures { result ≡ cut end place }
{
    match place {
        Some(place) => { if place < end { Some(place) } else { None } }
        None => None,
    }
}

// The number isn't whole, or an earlier point has it.
fn repeats(lookups: &Lookups<'_>, number: u32, numbr: Name, x: Option<i128>) -> bool
    ensures { result ≡ repeats (first_place point_eq (point_in lookups.now.caf) lookups.now.cap) number numbr x }
{
    match x {
        Some(x) => {
            let key = point_key(numbr, x);
            before(lookups.point_place(key), number.saturating_sub(1) as usize).is_some()
        }
        None => true,
    }
}

fn is_bad_point(lookups: &Lookups<'_>, number: u32, curve: Option<&CafRow>, row: &CapRow) -> bool
    ensures { result ≡ is_repeated_point (first_place point_eq (point_in lookups.now.caf) lookups.now.cap) number (option_copied curve.entry) row.now }
{
    match curve {
        Some(curve) => {
            let x = whole_number(curve.radix, row.xvals.bytes());
            curve.rawfmt != b'R' && repeats(lookups, number, row.numbr, x)
        }
        None => false,
    }
}

/// CAP: the curve of a point, and each point at a whole number of its own.
pub fn cap_flaw(lookups: &Lookups<'_>, number: u32, row: &CapRow) -> Option<MibFault>
    ensures { result ≡ flaw_by Kind.Cap number (drop 1 (cap_rules lookups.now)) (take (number - 1) lookups.now.cap) row.now }
{
    let at = At {
        table: Kind::Cap,
        number,
    };
    let curve = lookups.curve(row.numbr);
    let bad = is_bad_point(lookups, number, curve, row);
    at.missing(&[(1, curve.is_some())])
        .or(at.flaw_if(MibCode::Points, bad))
}
