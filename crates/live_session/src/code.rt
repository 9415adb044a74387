// With which code a run ends.
ghost use Rattle.std.specs.Prelude.{◌≡◌};
ghost use Rattle.live_session.specs.Codes as Spec;
ghost use Rattle.live_session.specs.Codes.{code_by};

use decode_session::{RunEnd, RunFault};
use live_desk::DeskEnd;
use run_model::Code;

/// The code of an intake that nothing hindered.
pub fn code_of_end(end: RunEnd) -> Code
    ensures { result ≡ Spec.code_of_end end }
{
    match end {
        RunEnd::Whole => Code::Ok,
        RunEnd::Cut(octets) => Code::Cut(octets),
        RunEnd::Limit => Code::Limit,
    }
}

/// The code of a run whose two sides ended so: the output's fault goes before that of the replies, of the feed and of the desk.
pub fn merged(intake: Result<RunEnd, RunFault>, desk: DeskEnd) -> Code
    ensures { result ≡ code_by intake desk }
{
    match (intake, desk) {
        (Err(RunFault::Print(_)), _) => Code::OutFault,
        (_, DeskEnd::ReplyFault) => Code::ReplyFault,
        (Err(RunFault::Feed), _) => Code::FeedFault,
        (_, DeskEnd::DeskFault) => Code::DeskFault,
        (Ok(end), _) => code_of_end(end),
    }
}
