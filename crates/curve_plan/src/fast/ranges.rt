// Ranges looked for by an index: the gain stands there.
ghost use Rattle.std.specs.Prelude.{◌≡◌, true, Some, IfSome};
ghost use Rattle.std.specs.List.{find};
ghost use Rattle.curve_plan.specs.Ranges.{holds_raw, AreSeparate};

use crate::fast::index::{LOOKS, lower_word, saturated};
use crate::ranges::{Range, RangeCurve};
use std::alloc::{AllocError, Global};

// The numbers at which ranges begin, each as close as 64 bits come to it.
pub(crate) fn starts_of(alloc: Global, ranges: &[Range]) -> Result<Vec<i64>, AllocError> {
    let mut starts = Vec::new(alloc);
    for range in ranges {
        starts.push(saturated(range.low))?;
    }
    Ok(starts)
}

// The only range that holds a raw number, where it is one of the next from a place on.
#[inline(always)]
fn next_holding(ranges: &[Range], first: usize, raw: i128) -> Option<&Range>
    requires { AreSeparate ranges.now }
    ensures { IfSome result (λ range. find (holds_raw raw) ranges.now ≡ Some range.now) }
{
    for step in 0..LOOKS {
        let range = ranges.get(first.saturating_add(step))?;
        if raw <= range.high {
            return if range.low <= raw { Some(range) } else { None };
        }
    }
    None
}

// The range that holds a raw number, where it is one of the next from where the index says on.
#[inline(always)]
pub(crate) fn indexed(curve: &RangeCurve, raw: i128) -> Option<&Range>
    requires { curve.now.separate ≡ true → AreSeparate curve.now.ranges.items }
    ensures { IfSome result (λ range. find (holds_raw raw) curve.now.ranges.items ≡ Some range.now) }
{
    if !curve.separate {
        return None;
    }
    next_holding(&curve.ranges, curve.index.first(lower_word(raw)), raw)
}
