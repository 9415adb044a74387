// What is kept of a parameter.
ghost use Rattle.std.specs.Prelude.{◌≡◌, ◌≤ℤ◌, None, Some, option_map, IsTrue};
ghost use Rattle.std.specs.Option.{option_eq};
ghost use Rattle.std.specs.Ordering.{int_eq};
ghost use Rattle.check_plan.specs.Samples.{count_of, sample_of};
ghost use Rattle.mib_model.specs.Alarms.{alarm};
ghost use Rattle.mib_model.specs.Checks.{Numbered};
ghost use Rattle.mib_model.specs.Finish.{previous_after};
ghost use Rattle.mib_model.specs.Kept.{nothing_kept};
ghost use Rattle.mib_model.specs.WholeNumbers.{least_raw, greatest_raw};
ghost use Rattle.mib_model.specs.declared.check.Class.TheVariants.{Nominal};
ghost use Rattle.param_state.specs.SlotViews.{kept_as, stepped, turned_back, vacant};

use check_plan::{Alarm, Sample};
use mib_model::{Change, Class, Eng, Name};

// How far a number below zero lies from the one that is kept for it.
const TURN: i128 = 18_446_744_073_709_551_616;

/// What is kept of the parameter of a name: its latest raw number and its last checked number, where there are such, and its
/// alarm. The name lies beside them, and all have 64 octets, since those of many parameters are asked for in any order. Of a
/// raw number its last 64 bits are kept, and whether it is below zero.
#[derive(Clone, Copy)]
pub struct ParamSlot {
    pub latest: u64,
    pub name: Name,
    pub is_low: bool,
    pub has_latest: bool,
    pub has_previous: bool,
    pub alarm: Alarm,
    pub previous: Eng,
}

impl ParamSlot {
    /// A slot of a name that keeps nothing.
    pub fn new(name: Name) -> ParamSlot
        ensures { result ≡ vacant name }
    {
        ParamSlot {
            latest: 0,
            name,
            is_low: false,
            has_latest: false,
            has_previous: false,
            alarm: Alarm::new(),
            previous: Eng { count: 0 },
        }
    }

    /// A number made of its first octets and of its last: who asks for it early has the slot at hand later.
    pub fn touch(&self) -> usize {
        self.latest as usize ^ usize::from(self.previous.count < 0)
    }

    /// Whether it keeps nothing.
    pub fn is_vacant(&self) -> bool
        ensures { IsTrue result → kept_as self.now ≡ nothing_kept }
    {
        !self.has_latest
            && !self.has_previous
            && self.alarm.run() == 0
            && self.alarm.spoken().is_none()
    }

    /// Keeps what another slot keeps.
    pub fn keep(&mut self, other: &ParamSlot)
        ensures kept { kept_as self.new ≡ kept_as other.now }
        ensures name { self.new.name ≡ self.old.name }
    {
        *self = ParamSlot {
            name: self.name,
            ..*other
        };
    }

    /// Keeps a latest raw number.
    pub fn enter(&mut self, raw: i128)
        requires low { least_raw ≤ℤ raw }
        requires high { raw ≤ℤ greatest_raw }
        ensures kept { kept_as self.new ≡ (record (kept_as self.old) { latest = Some raw }) }
        ensures name { self.new.name ≡ self.old.name }
    {
        self.is_low = raw < 0;
        self.latest = if raw < 0 {
            (raw + TURN) as u64
        } else {
            raw as u64
        };
        self.has_latest = true;
    }

    // The number that is kept as the latest one.
    fn latest_number(&self) -> i128
        ensures { result ≡ turned_back self.now.is_low self.now.latest }
    {
        if self.is_low {
            i128::from(self.latest) - TURN
        } else {
            i128::from(self.latest)
        }
    }

    /// Whether the latest raw number is this number.
    pub fn holds(&self, number: i128) -> bool
        ensures { result ≡ option_eq int_eq (kept_as self.now).latest (Some number) }
    {
        self.has_latest && self.latest_number() == number
    }

    /// The last checked number.
    pub fn previous(&self) -> Option<Eng>
        ensures { option_map count_of result ≡ (kept_as self.now).previous }
    {
        if self.has_previous {
            Some(self.previous)
        } else {
            None
        }
    }

    /// Takes a step of the alarm after a sample of a class, where so many in a row are spoken of, keeps the sample, and gives
    /// what is told of it.
    #[inline(always)]
    pub fn step(&mut self, class: Class, repeats: u8, sample: Sample) -> Option<Change>
        ensures kept { (kept_as self.new, result) ≡ stepped (kept_as self.old) (sample_of sample.entry)
            (alarm ((kept_as self.old).spoken, (kept_as self.old).run) class repeats) }
        ensures name { self.new.name ≡ self.old.name }
    {
        let change = self.alarm.step(class, repeats);
        self.check(sample);
        change
    }

    // Whether no class is spoken of, and the run is ended.
    #[inline(always)]
    fn is_calm(&self) -> bool
        ensures { IsTrue result → self.now.alarm ≡ (None, 0) }
    {
        self.alarm.run() == 0 && self.alarm.spoken().is_none()
    }

    // Keeps a checked number.
    #[inline(always)]
    fn keep_number(&mut self, number: Eng)
        ensures kept { kept_as self.new ≡ (record (kept_as self.old) { previous = Some number.count }) }
        ensures name { self.new.name ≡ self.old.name }
    {
        self.previous = number;
        self.has_previous = true;
    }

    /// Takes the step of the alarm after a nominal number, keeps the number, and gives what is told of it.
    #[inline(always)]
    #[tactic(auto, unfolding(mib_model::specs::Alarms::alarm))]
    pub fn step_nominal(&mut self, number: Eng) -> Option<Change>
        ensures kept { (kept_as self.new, result) ≡ stepped (kept_as self.old) (Numbered number.count)
            (alarm ((kept_as self.old).spoken, (kept_as self.old).run) Nominal 0) }
        ensures name { self.new.name ≡ self.old.name }
    {
        if self.is_calm() {
            self.keep_number(number);
            return None;
        }
        self.step(Class::Nominal, 0, Sample::Number(number))
    }

    // Keeps a checked number, where a sample is one.
    fn check(&mut self, sample: Sample)
        ensures kept { kept_as self.new ≡ (record (kept_as self.old) { previous = previous_after (sample_of sample.entry) (kept_as self.old).previous }) }
        ensures name { self.new.name ≡ self.old.name }
        ensures alarm { self.new.alarm ≡ self.old.alarm }
    {
        if let Sample::Number(number) = sample {
            self.previous = number;
            self.has_previous = true;
        }
    }
}
