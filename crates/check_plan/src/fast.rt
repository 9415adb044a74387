// A packet of two checked values takes 1,330 instead of 1,510 instructions: two comparisons class a number of which no limit tells.
ghost use Rattle.std.specs.Prelude.{◌≡◌, ℤ, int_lt, true, false, ◌&&◌, not, None};
ghost use Rattle.std.specs.List.{list_any};
ghost use Rattle.check_plan.specs.Calms.{is_calm, is_in, may_tell};
ghost use Rattle.check_plan.specs.Samples.{sample_of};

use crate::apart::Apart;
use crate::limit::Limit;
use crate::sample::Sample;

/// The counts from one to another, of which there are none where the first is greater.
#[derive(Clone, Copy)]
pub struct Calm {
    low: i128,
    high: i128,
}

impl Calm {
    /// No count.
    pub fn none() -> Calm
        ensures { (count : ℤ) → is_in result count ≡ false }
    {
        Calm { low: 1, high: 0 }
    }

    /// Those of these counts that aren't below a bound, if it binds.
    pub fn raised(self, binds: bool, low: i128) -> Calm
        ensures { (count : ℤ) → is_in result count ≡ (is_in self count && not (binds && int_lt count low)) }
    {
        if binds && self.low < low {
            Calm {
                low,
                high: self.high,
            }
        } else {
            self
        }
    }

    /// Those of these counts that aren't above a bound, if it binds.
    pub fn lowered(self, binds: bool, high: i128) -> Calm
        ensures { (count : ℤ) → is_in result count ≡ (is_in self count && not (binds && int_lt high count)) }
    {
        if binds && high < self.high {
            Calm {
                low: self.low,
                high,
            }
        } else {
            self
        }
    }

    /// The counts of which none of these limits tells; no count where there is more to ask than limits.
    pub fn of(limits: &[Limit], apart: &Option<Box<Apart>>) -> Calm
        ensures limits { (count : ℤ) → is_in result count ≡ true → list_any (may_tell count) limits.now ≡ false }
        ensures alone { (count : ℤ) → is_in result count ≡ true → apart.now ≡ None }
    {
        if apart.is_some() {
            return Calm::none();
        }
        let mut calm = Calm {
            low: i128::MIN,
            high: i128::MAX,
        };
        for limit in limits {
            calm = limit.narrowed(calm);
        }
        calm
    }

    /// A number made of the counts.
    pub fn touch(&self) -> usize {
        usize::from(self.low < 0) ^ usize::from(self.high < 0)
    }

    /// Whether a sample is a number among them.
    pub fn holds(&self, sample: Sample) -> bool
        ensures { result ≡ is_calm self.now (sample_of sample.entry) }
    {
        match sample {
            Sample::Number(value) => self.low <= value.count && value.count <= self.high,
            Sample::Text(_) => false,
        }
    }
}
