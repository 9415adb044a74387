// With which code a run of a panel ends.
ghost use Rattle.std.specs.Prelude.{◌≡◌};
ghost use Rattle.live_session.specs.Codes.{code_by};
ghost use Rattle.panel_session.specs.Codes as Spec;

use crate::side::DeskSide;
use decode_session::{RunEnd, RunFault};
use live_desk::DeskEnd;
use live_session::merged;
use run_model::Code;

// The gravest of so many ends and that of one desk more, where it has ended.
fn with_end(worst: DeskEnd, end: Option<DeskEnd>) -> DeskEnd
    ensures { result ≡ Spec.with_end worst end }
{
    match (worst, end) {
        (worst, None) => worst,
        (DeskEnd::ReplyFault, Some(_)) => DeskEnd::ReplyFault,
        (DeskEnd::DeskFault, Some(DeskEnd::ReplyFault)) => DeskEnd::ReplyFault,
        (DeskEnd::DeskFault, Some(_)) => DeskEnd::DeskFault,
        (_, Some(end)) => end,
    }
}

/// The code of a run whose intake and desks ended so.
pub(crate) fn code_of(intake: Result<RunEnd, RunFault>, sides: &[DeskSide]) -> Code
    ensures { result ≡ code_by intake (Spec.gravest sides.now) }
{
    let gravest = sides
        .iter()
        .fold(DeskEnd::Done, |worst, side| with_end(worst, side.end));
    merged(intake, gravest)
}
