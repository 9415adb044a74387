// Numbers in order.
ghost use Rattle.std.specs.Prelude.{◌≡◌, IfOk};
ghost use Rattle.mib_model.specs.Orders.{sorted_by_number};

use std::alloc::AllocError;

/// Numbers in order. An error is want of memory.
pub fn in_order(numbers: Vec<u32>) -> Result<Vec<u32>, AllocError>
    ensures { IfOk result (λ ordered. ordered.items ≡ sorted_by_number (λ n. n) numbers.items) }
{
    let mut ordered = numbers;
    ordered.sort_by_key(|number| *number)?;
    Ok(ordered)
}
