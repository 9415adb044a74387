// Expected states.
ghost use Rattle.std.specs.Prelude.{◌≡◌, ◌&&◌, map, filter, IfOk};
ghost use Rattle.std.specs.List.{list_any};
ghost use Rattle.mib_model.specs.Checks.{is_status};
ghost use Rattle.check_plan.specs.Samples.{sample_of};
ghost use Rattle.check_plan.specs.States.{count_in, state_of, is_in_state, asked_of};

use crate::condition::{Holds, is_met};
use crate::sample::Sample;
use dec_num::{eng_of, read_dec};
use mib_model::{Bound, Eng, Name, OcpRow, Text};
use std::alloc::{AllocError, Global};

/// A state that is expected: a text, and its count where it reads as a decimal.
#[derive(Clone, Copy)]
pub struct ExpectedState {
    text: Option<Text>,
    count: Option<Eng>,
    rlchk: Option<Name>,
    valpar: i128,
}

// The count of a text that reads as a decimal.
fn count_in(text: &Text) -> Option<Eng>
    ensures { result ≡ count_in text.now }
{
    match read_dec(text.bytes()) {
        Ok(d) => Some(eng_of(d)),
        Err(_) => None,
    }
}

fn state_of(row: &OcpRow) -> ExpectedState
    ensures { result ≡ state_of row.now }
{
    let (text, count) = match &row.lvalu {
        Bound::Words(text) => (Some(*text), count_in(text)),
        _ => (None, None),
    };
    ExpectedState {
        text,
        count,
        rlchk: row.rlchk,
        valpar: row.valpar,
    }
}

/// The states that the rows of status checks expect, in their order.
pub fn states_of(alloc: Global, ocps: &[OcpRow]) -> Result<Vec<ExpectedState>, AllocError>
    ensures { IfOk result (λ states. states.items ≡ map state_of (filter is_status ocps.now)) }
{
    ocps.iter()
        .filter(|row| row.sort == b'C')
        .map(state_of)
        .collect(alloc)
}

impl ExpectedState {
    fn agrees(&self, sample: Sample) -> bool
        ensures { result ≡ is_in_state (sample_of sample.entry) self.now }
    {
        match sample {
            Sample::Number(value) => Some(value) == self.count,
            Sample::Text(words) => match &self.text {
                Some(text) => words == text,
                None => false,
            },
        }
    }

    fn applies<K: Holds>(&self, kept: &K) -> bool
        ensures { result ≡ asked_of (K.memory kept.now) self.now }
    {
        is_met(self.rlchk, self.valpar, kept)
    }
}

/// Whether a sample agrees with one of the states that apply.
pub fn any_agrees<K: Holds>(states: &[ExpectedState], sample: Sample, kept: &K) -> bool
    ensures { result ≡ list_any (λ state. is_in_state (sample_of sample.entry) state && asked_of (K.memory kept.now) state) states.now }
{
    states
        .iter()
        .any(|state| state.agrees(sample) && state.applies(kept))
}

/// Whether one of the states applies.
pub fn any_applies<K: Holds>(states: &[ExpectedState], kept: &K) -> bool
    ensures { result ≡ list_any (asked_of (K.memory kept.now)) states.now }
{
    states.iter().any(|state| state.applies(kept))
}
