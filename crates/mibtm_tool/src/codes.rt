// The code that each answer inside a call is.
ghost use Rattle.std.specs.Prelude.{◌≡◌};
ghost use Rattle.mibtm_tool.specs.Codes.{code_of_run, code_of_stop};

use decode_session::{RunEnd, RunFault, Stop};
use live_session::code_of_end;
use run_model::Code;

/// The code of a stop.
pub(crate) fn stop_code(stop: Stop) -> Code
    ensures { result ≡ code_of_stop stop }
{
    match stop {
        Stop::Memory => Code::Want,
        Stop::Out => Code::OutFault,
    }
}

/// The code of a run.
pub(crate) fn run_code(ran: Result<RunEnd, RunFault>) -> Code
    ensures { result ≡ code_of_run ran }
{
    match ran {
        Ok(end) => code_of_end(end),
        Err(RunFault::Feed) => Code::FeedFault,
        Err(RunFault::Print(stop)) => stop_code(stop),
    }
}
