// Spares most waits for the memory where there are many parameters: slots and rows that lie far apart are all asked for before the first is needed.
use crate::slot::ParamSlot;
use param_plan::{Param, Params};

/// The plans whose rows are read ahead at once.
pub const STRIDE: usize = 16;

/// Reads ahead the slots at these places. The number that it gives says nothing.
#[inline(always)]
pub fn read_slots_ahead(slots: &[ParamSlot], places: &[u32]) -> usize {
    let mut seen = 0;
    for place in places {
        let at = *place as usize;
        if at < slots.len() {
            seen ^= slots[at].touch();
        }
    }
    seen
}

// The plan at a place of which something is kept.
fn kept_plan<'a>(slots: &[ParamSlot], params: &'a Params, at: usize) -> Option<&'a Param> {
    if slots.get(at)?.is_vacant() {
        return None;
    }
    if at < params.len() {
        Some(params.plan(at))
    } else {
        None
    }
}

/// Reads ahead the rows of the plans from a place on, as far as something is kept of their parameters. Those of the edition before are mostly the
/// same ones. The number that it gives says nothing.
pub fn read_rows_ahead(slots: &[ParamSlot], params: &Params, first: usize) -> usize {
    let mut seen = 0;
    for at in first..first.saturating_add(STRIDE) {
        if let Some(plan) = kept_plan(slots, params, at) {
            seen ^= plan.touch_rows();
        }
    }
    seen
}
