// The check of a value's sample.
ghost use Rattle.std.specs.Prelude.{◌≡◌, ◌<◌, ◌≤ℤ◌, List, ℕ, Some, length, option_map, true};
ghost use Rattle.check_plan.specs.Samples.{sample_of};
ghost use Rattle.fold_state.specs.Boards.{memory_of, place_of};
ghost use Rattle.param_state.specs.ParamPlans.{IsSliceOf};
ghost use Rattle.param_state.specs.FinishedValues.{checked_given, checked_in};
ghost use Rattle.mib_model.specs.CalibrationViews.{calibrated_as};
ghost use Rattle.mib_model.specs.declared.database.Database.{Database};
ghost use Rattle.mib_model.specs.Kept.{has_number};
ghost use Rattle.mib_model.specs.WholeNumbers.{least_raw, greatest_raw};

use crate::board::Board;
use check_plan::{Checks, Sample};
use mib_model::{Cal, Change, Value};
use param_plan::Param;
use param_state::sample_for;

impl Board {
    // Classes a sample of the name at a place, and takes a step of its alarm.
    #[inline(always)]
    fn check_sample(&mut self, at: usize, checks: &Checks, sample: Sample) -> Option<Change>
        requires { at < length self.old.names }
        ensures names { self.new.names ≡ self.old.names }
        ensures checked { (name : List ℕ) → place_of self.old name ≡ Some at
            → (memory_of self.new, result) ≡ checked_in (memory_of self.old) name checks.now (sample_of sample.entry) }
    {
        let class = checks.class_of(sample, self.slot(at).previous(), self);
        self.step(at, class, checks.nbchck(), sample)
    }

    /// Checks a value, which has a number, of the name at a place by its plan, where the plan has a check.
    #[inline(always)]
    pub(crate) fn check(
        &mut self,
        at: usize,
        plan: &Param,
        value: &Value,
        given: Option<Cal<'_>>,
    ) -> Option<Change>
        requires at { at < length self.old.names }
        requires low { least_raw ≤ℤ value.now.raw }
        requires high { value.now.raw ≤ℤ greatest_raw }
        ensures names { self.new.names ≡ self.old.names }
        ensures checked { (db : Database) → IsSliceOf db value.now.name plan.now → place_of self.old value.now.name ≡ Some at
            → has_number value.now.shape.sort ≡ true
            → (memory_of self.new, result) ≡ checked_given db (memory_of self.old) value.now (option_map calibrated_as given.entry) }
    {
        let Some(checks) = plan.checks() else {
            return None;
        };
        let Some(sample) = sample_for(checks, value.raw, given) else {
            return None;
        };
        self.check_sample(at, checks, sample)
    }
}
