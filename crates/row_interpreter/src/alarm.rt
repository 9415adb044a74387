// What is told of a parameter whose samples are checked.
ghost use Rattle.std.specs.Prelude.{◌≡◌};
ghost use Rattle.mib_model.specs.Alarms as Spec;

use mib_model::{Change, Class};

/// The class that is spoken of after a sample, the run of samples out of limits, and what is told: by the class that was spoken
/// of, the run before, the sample's class, and the number of samples in a row that are told of (SCOS-2000 Database Import
/// ICD, ocf, number of checks; the steps are this profile's).
#[tactic(auto, unfolding(mib_model::specs::Alarms::alarm))]
pub fn alarm_step(
    spoken: Option<Class>,
    run: u8,
    class: Class,
    repeats: u8,
) -> (Option<Class>, u8, Option<Change>)
    ensures { ((result.0, result.1), result.2) ≡ Spec.alarm (spoken, run) class repeats }
{
    if class == Class::Nominal {
        return (None, 0, spoken.map(|class| Change::Clear(class)));
    }
    let grown = run.saturating_add(1).min(repeats);
    let is_told = match spoken {
        Some(spoken) => spoken != class,
        None => grown == repeats,
    };
    if is_told {
        (Some(class), grown, Some(Change::Alarm(class)))
    } else {
        (spoken, grown, None)
    }
}
