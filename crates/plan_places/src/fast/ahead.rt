// Spares finishing most waits for the memory where there are many parameters: the plans of a packet's values lie far apart, so all are asked for before the
// first is needed. Read six values before, one by one, they take 14 % more.
use param_plan::{Param, Params};

/// From so many plans on they don't all lie in the processor's cache, and are read ahead.
pub const FAR: usize = 1_024;

/// The plan at a place, where there is one that isn't marked as plain.
#[inline(always)]
pub fn plan_at<'a>(params: &'a Params, plain: &[bool], at: usize) -> Option<&'a Param> {
    if at < plain.len() && plain[at] {
        return None;
    }
    if at < params.len() {
        Some(params.plan(at))
    } else {
        None
    }
}

/// Reads ahead the plans at these places that aren't marked as plain. The number that it gives says nothing.
pub fn touch_plans(params: &Params, plain: &[bool], places: &[u32]) -> usize {
    let mut seen = 0;
    for place in places {
        if let Some(plan) = plan_at(params, plain, *place as usize) {
            seen ^= plan.touch();
        }
    }
    seen
}

/// Reads ahead their curves and limits. The number that it gives says nothing.
pub fn touch_parts(params: &Params, plain: &[bool], places: &[u32]) -> usize {
    let mut seen = 0;
    for place in places {
        if let Some(plan) = plan_at(params, plain, *place as usize) {
            seen ^= plan.touch_parts();
        }
    }
    seen
}
