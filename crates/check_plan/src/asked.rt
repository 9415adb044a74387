// Limits and deltas with a condition.
ghost use Rattle.std.specs.Prelude.{◌≡◌, ◌-ℤ◌, map, filter, IfOk};
ghost use Rattle.check_plan.specs.Limits.{any_asked_passed, applies_to, asked_limit_of, is_asked};

use crate::condition::{Holds, is_met};
use crate::limit::{Limit, limit_of};
use mib_model::{Name, OcpRow};
use std::alloc::{AllocError, Global};

/// A limit with its condition, which is asked only outside the bounds.
#[derive(Clone, Copy)]
pub struct AskedLimit {
    limit: Limit,
    rlchk: Option<Name>,
    valpar: i128,
}

fn asked_limit_of(row: &OcpRow) -> AskedLimit
    ensures { result ≡ asked_limit_of row.now }
{
    AskedLimit {
        limit: limit_of(row),
        rlchk: row.rlchk,
        valpar: row.valpar,
    }
}

/// The limits that have a condition, in the order of their rows.
pub fn all_asked(alloc: Global, ocps: &[OcpRow]) -> Result<Vec<AskedLimit>, AllocError>
    ensures { IfOk result (λ limits. limits.items ≡ map asked_limit_of (filter is_asked ocps.now)) }
{
    ocps.iter()
        .filter(|row| row.sort != b'C' && row.rlchk.is_some())
        .map(asked_limit_of)
        .collect(alloc)
}

impl AskedLimit {
    fn applies<K: Holds>(&self, kept: &K) -> bool
        ensures { result ≡ applies_to (K.memory kept.now) self.now }
    {
        is_met(self.rlchk, self.valpar, kept)
    }
}

/// Whether a count is outside one of the limits of a type that apply.
pub fn any_asked_passed<K: Holds>(limits: &[AskedLimit], sort: u8, count: i128, kept: &K) -> bool
    ensures { result ≡ any_asked_passed (K.memory kept.now) sort count limits.now }
{
    limits.iter().any(|asked| asked.limit.is_passed(sort, count) && asked.applies(kept))
}

/// Whether a step is outside one of the limits of a type that apply.
pub fn any_asked_step_passed<K: Holds>(
    limits: &[AskedLimit],
    sort: u8,
    from: i128,
    to: i128,
    kept: &K,
) -> bool
    ensures { result ≡ any_asked_passed (K.memory kept.now) sort (to -ℤ from) limits.now }
{
    limits.iter().any(|asked| asked.limit.is_step_passed(sort, from, to) && asked.applies(kept))
}
