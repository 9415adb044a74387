// Limits and deltas without a condition.
ghost use Rattle.std.specs.Prelude.{◌≡◌, ℤ, ◌&&◌, not, ◌-ℤ◌, int_lt, map, filter, IfOk};
ghost use Rattle.std.specs.List.{list_any};
ghost use Rattle.check_plan.specs.Calms.{is_in, may_tell};
ghost use Rattle.check_plan.specs.Limits.{binds, bound_count, limit_of, is_outside, is_passed, is_unasked};

use crate::fast::Calm;
use dec_num::eng_of;
use mib_model::{Bound, OcpRow};
use std::alloc::{AllocError, Global};

/// The type of a limit, and the bounds of a count or of the step from the count before. A bound that isn't there doesn't bind.
#[derive(Clone, Copy)]
pub struct Limit {
    low: i128,
    high: i128,
    has_low: bool,
    has_high: bool,
    sort: u8,
}

// Whether a bound binds counts.
fn binds(bound: &Bound) -> bool
    ensures { result ≡ binds bound.now }
{
    matches!(bound, Bound::Number(_))
}

// The count of a bound, 0 where it doesn't bind counts.
fn bound_count(bound: &Bound) -> i128
    ensures { result ≡ bound_count bound.now }
{
    match bound {
        Bound::Number(d) => eng_of(*d).count,
        _ => 0,
    }
}

/// The type and the bounds of a row.
pub fn limit_of(row: &OcpRow) -> Limit
    ensures { result ≡ limit_of row.now }
{
    Limit {
        low: bound_count(&row.lvalu),
        high: bound_count(&row.hvalu),
        has_low: binds(&row.lvalu),
        has_high: binds(&row.hvalu),
        sort: row.sort,
    }
}

/// The limits that have no condition, in the order of their rows.
pub fn all_limits(alloc: Global, ocps: &[OcpRow]) -> Result<Vec<Limit>, AllocError>
    ensures { IfOk result (λ limits. limits.items ≡ map limit_of (filter is_unasked ocps.now)) }
{
    ocps.iter()
        .filter(|row| row.sort != b'C' && row.rlchk.is_none())
        .map(limit_of)
        .collect(alloc)
}

// Whether the step from one count to another is below a count, also where it passes 128 bits.
fn is_step_below(low: i128, from: i128, to: i128) -> bool
    ensures { result ≡ int_lt (to -ℤ from) low }
{
    match to.checked_sub(from) {
        Some(step) => step < low,
        None => to < from,
    }
}

// Whether the step from one count to another is above a count, also where it passes 128 bits.
fn is_step_above(high: i128, from: i128, to: i128) -> bool
    ensures { result ≡ int_lt high (to -ℤ from) }
{
    match to.checked_sub(from) {
        Some(step) => high < step,
        None => from < to,
    }
}

impl Limit {
    /// Those of these counts of which the limit doesn't tell, whatever the one before was: none where it is of steps.
    pub fn narrowed(&self, calm: Calm) -> Calm
        ensures { (count : ℤ) → is_in result count ≡ (is_in calm count && not (may_tell count self.now)) }
    {
        if self.sort == b'D' {
            return Calm::none();
        }
        let raised = calm.raised(self.has_low, self.low);
        raised.lowered(self.has_high, self.high)
    }

    fn is_outside(&self, count: i128) -> bool
        ensures { result ≡ is_outside self.now count }
    {
        (self.has_low && count < self.low) || (self.has_high && self.high < count)
    }

    fn is_step_outside(&self, from: i128, to: i128) -> bool
        ensures { result ≡ is_outside self.now (to -ℤ from) }
    {
        (self.has_low && is_step_below(self.low, from, to))
            || (self.has_high && is_step_above(self.high, from, to))
    }

    /// Whether the limit is of a type, and a count is outside its bounds.
    pub fn is_passed(&self, sort: u8, count: i128) -> bool
        ensures { result ≡ is_passed sort count self.now }
    {
        self.sort == sort && self.is_outside(count)
    }

    /// Whether the limit is of a type, and the step from one count to another is outside its bounds.
    pub fn is_step_passed(&self, sort: u8, from: i128, to: i128) -> bool
        ensures { result ≡ is_passed sort (to -ℤ from) self.now }
    {
        self.sort == sort && self.is_step_outside(from, to)
    }
}

/// Whether a count is outside one of the limits of a type.
pub fn any_passed(limits: &[Limit], sort: u8, count: i128) -> bool
    ensures { result ≡ list_any (is_passed sort count) limits.now }
{
    limits.iter().any(|limit| limit.is_passed(sort, count))
}

/// Whether a step is outside one of the limits of a type.
pub fn any_step_passed(limits: &[Limit], sort: u8, from: i128, to: i128) -> bool
    ensures { result ≡ list_any (is_passed sort (to -ℤ from)) limits.now }
{
    limits
        .iter()
        .any(|limit| limit.is_step_passed(sort, from, to))
}
