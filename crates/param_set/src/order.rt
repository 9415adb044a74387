// Rows in order of a key.
ghost use Rattle.std.specs.Prelude.{◌≡◌, ℕ, IfOk, filter, map};
ghost use Rattle.std.specs.Fn.{ComputesKey};
ghost use Rattle.mib_model.specs.Orders.{sorted_by, sorted_by_number};
ghost use Rattle.mib_model.specs.Plans.{has_plan, may_precede};

use mib_model::PcfRow;
use std::alloc::{AllocError, Global};

/// Rows by a number that each has, those of one number in the order that they are given in. An error is want of memory.
pub fn by_number<R: Copy + Drop, F: FnMut(&R) -> u16>(
    rows: Vec<R>,
    number: F,
) -> Result<Vec<R>, AllocError>
    requires { F.IsAlwaysCallable number }
    ensures { (key : R → ℕ) → ComputesKey F.FnMut key number → IfOk result (λ ordered. ordered.items ≡ sorted_by_number key rows.items) }
{
    let mut ordered = rows;
    ordered.sort_by_key(number)?;
    Ok(ordered)
}

// The parameters that have plans.
fn planned(alloc: Global, rows: &[PcfRow]) -> Result<Vec<&PcfRow>, AllocError>
    ensures { IfOk result (λ planned. map (λ row. row.now) planned.items ≡ filter has_plan rows.now) }
{
    rows.iter()
        .filter(|row| row.is_measured() && !row.is_deduced())
        .collect(alloc)
}

/// The parameters that have plans, by name. An error is want of memory.
pub fn parameters(alloc: Global, rows: &[PcfRow]) -> Result<Vec<&PcfRow>, AllocError>
    ensures { IfOk result (λ ordered. map (λ row. row.now) ordered.items ≡ sorted_by (λ x y. may_precede x.name y.name) (filter has_plan rows.now)) }
{
    let mut ordered = planned(alloc, rows)?;
    ordered.sort_by_key(|row| row.name)?;
    Ok(ordered)
}
