ghost use Rattle.std.specs.Prelude.{◌≡◌, ◌+◌, min, Some, None};
ghost use Rattle.mib_model.specs.Alarms as Spec;

use mib_model::{Change, Class};
use std::marker::Model;

/// The class that is spoken of, which isn't Nominal, and the run of samples out of limits. Contracts see the two as a pair.
#[derive(Clone, Copy)]
pub struct Alarm {
    spoken: Option<Class>,
    run: u8,
}

impl Model for Alarm {
    ghost use Rattle.std.specs.Prelude.{◌≢◌, Some};
    ghost use Rattle.mib_model.specs.Alarms.{Watch};
    ghost use Rattle.mib_model.specs.declared.check.Class.TheVariants.{Nominal};

    ghost Value = { Watch };

    ghost view = { λ alarm. (alarm.spoken, alarm.run) };

    ghost invariant = { λ alarm. alarm.spoken ≢ Some Nominal };

    ghost inverse = { λ watch. record { spoken = watch.0; run = watch.1 } };
}

impl Alarm {
    /// An alarm of which nothing is spoken, with no run.
    pub fn new() -> Alarm
        ensures { result ≡ (None, 0) }
    {
        Alarm {
            spoken: None,
            run: 0,
        }
    }

    /// The class that is spoken of.
    pub fn spoken(&self) -> Option<Class>
        ensures { result ≡ self.now.0 }
    {
        self.spoken
    }

    /// The run of samples out of limits.
    pub fn run(&self) -> u8
        ensures { result ≡ self.now.1 }
    {
        self.run
    }

    /// Holds the run to a count of samples.
    pub fn hold_run(&mut self, repeats: u8)
        ensures { self.new ≡ (self.old.0, min self.old.1 repeats) }
    {
        self.run = self.run.min(repeats);
    }

    /// A sample of this class, where so many in a row are spoken of, and what is told of it (SCOS-2000 Database Import
    /// ICD, ocf, number of checks; the steps are this profile's).
    #[tactic(auto, unfolding(mib_model::specs::Alarms::alarm))]
    pub fn step(&mut self, class: Class, repeats: u8) -> Option<Change>
        ensures { (self.new, result) ≡ Spec.alarm self.old class repeats }
    {
        if class == Class::Nominal {
            let spoken = self.spoken;
            self.spoken = None;
            self.run = 0;
            return spoken.map(|class| Change::Clear(class));
        }
        self.run = self.run.saturating_add(1).min(repeats);
        let is_told = match self.spoken {
            Some(spoken) => spoken != class,
            None => self.run == repeats,
        };
        if !is_told {
            return None;
        }
        self.spoken = Some(class);
        Some(Change::Alarm(class))
    }
}
