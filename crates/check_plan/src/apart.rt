// What few parameters have: limits with a condition, and expected states.
ghost use Rattle.std.specs.Prelude.{◌≡◌, map, filter, IfOk};
ghost use Rattle.mib_model.specs.Checks.{is_status};
ghost use Rattle.check_plan.specs.Aparts.{asked_behind, states_behind};
ghost use Rattle.check_plan.specs.Limits.{asked_limit_of, is_asked};
ghost use Rattle.check_plan.specs.States.{state_of};

use crate::asked::{AskedLimit, all_asked};
use crate::state::{ExpectedState, states_of};
use mib_model::OcpRow;
use std::alloc::{AllocError, Global};

/// Limits with a condition, and expected states, each in the order of their rows.
#[derive(Drop)]
pub struct Apart {
    asked: Vec<AskedLimit>,
    states: Vec<ExpectedState>,
}

/// The limits with a condition and the states of rows of ocp. None is given, and no memory is taken, where there are no such.
pub fn apart_of(alloc: Global, ocps: &[OcpRow]) -> Result<Option<Box<Apart>>, AllocError>
    ensures asked { IfOk result (λ apart. asked_behind apart ≡ map asked_limit_of (filter is_asked ocps.now)) }
    ensures states { IfOk result (λ apart. states_behind apart ≡ map state_of (filter is_status ocps.now)) }
{
    let asked = all_asked(alloc, ocps)?;
    let states = states_of(alloc, ocps)?;
    if asked.is_empty() && states.is_empty() {
        return Ok(None);
    }
    let apart = Apart {
        asked: Vec::from_slice(alloc, &asked)?,
        states: Vec::from_slice(alloc, &states)?,
    };
    Ok(Some(Box::new(alloc, apart)?))
}

/// The limits with a condition.
pub fn asked_behind(apart: &Option<Box<Apart>>) -> &[AskedLimit]
    ensures { result.now ≡ asked_behind apart.now }
{
    match apart {
        Some(apart) => &apart.asked,
        None => &[],
    }
}

/// The expected states.
pub fn states_behind(apart: &Option<Box<Apart>>) -> &[ExpectedState]
    ensures { result.now ≡ states_behind apart.now }
{
    match apart {
        Some(apart) => &apart.states,
        None => &[],
    }
}
