// How a row of a table repeats one before it.
ghost use Rattle.std.specs.Prelude.{◌≡◌, ◌-◌, Some, None, take, position, IfOk, OnOk, if◌then◌else◌};
ghost use Rattle.std.specs.HashMap.{get};
ghost use Rattle.std.specs.Option.{option_or};
ghost use Rattle.mib_model.specs.declared.key.Key.{Key};
ghost use Rattle.mib_model.specs.Drafts.{rows_of};
ghost use Rattle.mib_model.specs.Keys.{key_in};
ghost use Rattle.mib_model.specs.RowTexts.{kind_in};
ghost use Rattle.mib_keys.specs.Alike.{AreKeyPlaces, has_its_kind, is_like, key_eq};
ghost use Rattle.mib_keys.specs.Firsts.{least};
ghost use Rattle.row_flaws.specs.Indexes.{cut};
ghost use Rattle.row_flaws.specs.Rows.{IsFirst};

use crate::keyed::ByOwn;
use mib_index::noted;
use mib_model::{PidRow, Row, TableRow};
use row_flaws::{Lookups, before};
use std::alloc::AllocError;
use std::collections::HashMap;

// The lesser of two places that may be there.
fn least(a: Option<usize>, b: Option<usize>) -> Option<usize>
    ensures { result ≡ least a b }
{
    match (a, b) {
        (Some(a), Some(b)) => Some(a.min(b)),
        (Some(a), None) => Some(a),
        (None, b) => b,
    }
}

// The place before this one of the first packet of the kind of a packet; no other row has a kind.
#[inline(always)]
fn place_of_kind(lookups: &Lookups<'_>, row: &Row, place: usize) -> Option<usize>
    ensures { result ≡ cut place (position (has_its_kind row.now) (rows_of lookups.now (kind_in row.now))) }
{
    match PidRow::from_row(row) {
        Some(packet) => before(lookups.packet_place(&packet), place),
        None => None,
    }
}

// The place before this one of the first row of the same key. Notes the row's key where it is the first.
fn place_of_key<'a, R: TableRow>(
    seen: &mut HashMap<ByOwn<'a, R>, usize>,
    row: &'a R,
    place: usize,
) -> Result<Option<usize>, AllocError>
    ensures earlier { IfOk result (λ earlier. earlier ≡ cut place (get key_eq seen.old (key_in (R.as_row row.now)))) }
    ensures seen { OnOk result ((q : Key) → get key_eq seen.new q
        ≡ option_or (get key_eq seen.old q) (if key_eq (key_in (R.as_row row.now)) q then Some place else None)) }
{
    let first = noted(seen, ByOwn { row }, place)?;
    Ok(before(Some(first), place))
}

/// The place, from 0, of the first row before the row of this place that is like it. Notes the row's key.
pub fn earlier<'a, R: TableRow>(
    lookups: &Lookups<'_>,
    seen: &mut HashMap<ByOwn<'a, R>, usize>,
    place: usize,
    row: &'a R,
) -> Result<Option<usize>, AllocError>
    requires { AreKeyPlaces (get key_eq seen.old) (take place (rows_of lookups.now (kind_in (R.as_row row.now)))) }
    ensures earlier { IfOk result (λ earlier. earlier ≡ cut place (position (is_like (R.as_row row.now)) (rows_of lookups.now (kind_in (R.as_row row.now))))) }
    ensures first { IfOk result (λ earlier. earlier ≡ None → IsFirst lookups.now place (R.as_row row.now)) }
    ensures seen { OnOk result ((q : Key) → get key_eq seen.new q
        ≡ option_or (get key_eq seen.old q) (if key_eq (key_in (R.as_row row.now)) q then Some place else None)) }
{
    let of_key = place_of_key(seen, row, place)?;
    let of_kind = place_of_kind(lookups, &row.to_row(), place);
    Ok(least(of_key, of_kind))
}
