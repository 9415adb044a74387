// The checks of a parameter: limits without a condition, limits with one, and states.
ghost use Rattle.std.specs.Prelude.{◌≡◌, option_map, IfOk};
ghost use Rattle.check_plan.specs.Calms.{is_calm};
ghost use Rattle.check_plan.specs.CheckSets.{any_violated, any_far, is_unexpected, class_in, IsCalmSet, IsSetOf};
ghost use Rattle.check_plan.specs.Samples.{count_of, sample_of};

use crate::apart::{Apart, apart_of, asked_behind, states_behind};
use crate::asked::{AskedLimit, any_asked_passed, any_asked_step_passed};
use crate::condition::Holds;
use crate::fast::Calm;
use crate::limit::{Limit, all_limits, any_passed, any_step_passed};
use crate::sample::Sample;
use crate::state::{ExpectedState, any_agrees, any_applies};
use mib_model::{Class, Eng, OcpRow};
use std::alloc::{AllocError, Global};

/// The limits and states of a parameter. Limits without a condition lie together in the order of their rows, and what few
/// parameters have lies apart. The counts of which nothing is told stand first, since nearly all samples are of them.
#[derive(Drop)]
pub struct CheckSet {
    calm: Calm,
    limits: Vec<Limit>,
    apart: Option<Box<Apart>>,
}

// Whether a sample is a number outside one of the limits of a type that apply.
fn is_out_of<K: Holds>(
    limits: &[Limit],
    asked: &[AskedLimit],
    sort: u8,
    sample: Sample,
    kept: &K,
) -> bool
    ensures { result ≡ any_violated (K.memory kept.now) (sample_of sample.entry) sort limits.now asked.now }
{
    match sample {
        Sample::Number(value) => {
            any_passed(limits, sort, value.count)
                || any_asked_passed(asked, sort, value.count, kept)
        }
        Sample::Text(_) => false,
    }
}

// Whether a sample is a number too far from the one before, if there was one.
fn is_far<K: Holds>(
    limits: &[Limit],
    asked: &[AskedLimit],
    sample: Sample,
    previous: Option<Eng>,
    kept: &K,
) -> bool
    ensures { result ≡ any_far (K.memory kept.now) (option_map count_of previous) (sample_of sample.entry) limits.now asked.now }
{
    let (Some(from), Sample::Number(to)) = (previous, sample) else {
        return false;
    };
    any_step_passed(limits, b'D', from.count, to.count)
        || any_asked_step_passed(asked, b'D', from.count, to.count, kept)
}

// Whether states are expected and a sample agrees with none of them.
fn is_unexpected<K: Holds>(states: &[ExpectedState], sample: Sample, kept: &K) -> bool
    ensures { result ≡ is_unexpected (K.memory kept.now) (sample_of sample.entry) states.now }
{
    any_applies(states, kept) && !any_agrees(states, sample, kept)
}

impl CheckSet {
    /// A number made of the counts of which nothing is told.
    pub fn touch(&self) -> usize {
        self.calm.touch()
    }

    /// Sorts rows of ocp into limits without a condition, limits with one, and states.
    pub fn compile(alloc: Global, ocps: &[OcpRow]) -> Result<CheckSet, AllocError>
        ensures { IfOk result (λ set. IsSetOf set ocps.now) }
    {
        let limits = all_limits(alloc, ocps)?;
        let apart = apart_of(alloc, ocps)?;
        Ok(CheckSet {
            calm: Calm::of(&limits, &apart),
            limits: Vec::from_slice(alloc, &limits)?,
            apart,
        })
    }

    /// Whether a sample is one of which nothing is told, whatever is kept and whatever the last number was.
    #[inline(always)]
    pub fn is_calm(&self, sample: Sample) -> bool
        ensures { result ≡ is_calm self.now.calm (sample_of sample.entry) }
    {
        self.calm.holds(sample)
    }

    /// The class of a sample: the first that holds of Hard, Status, Delta and Soft, else Nominal.
    pub fn class_of<K: Holds>(&self, sample: Sample, previous: Option<Eng>, kept: &K) -> Class
        requires { IsCalmSet self.now }
        ensures { result ≡ class_in (K.memory kept.now) self.now (sample_of sample.entry) (option_map count_of previous) }
    {
        if self.calm.holds(sample) {
            return Class::Nominal;
        }
        let asked = asked_behind(&self.apart);
        if is_out_of(&self.limits, asked, b'H', sample, kept) {
            Class::Hard
        } else if is_unexpected(states_behind(&self.apart), sample, kept) {
            Class::Status
        } else if is_far(&self.limits, asked, sample, previous, kept) {
            Class::Delta
        } else if is_out_of(&self.limits, asked, b'S', sample, kept) {
            Class::Soft
        } else {
            Class::Nominal
        }
    }
}
