// How a call ended that may open a live run.
ghost use Rattle.std.specs.Prelude.{◌≡◌, None};

use edition_register::Closed;
use fold_state::BoardRoom;
use mib_model::Rows;
use run_model::Code;

/// How a call ended that may open a live run. One that opened it hands out its register, closed, by the type of what that holds of an edition; contracts
/// see its history.
#[derive(Drop)]
pub struct Status<E: Rows + Drop> {
    pub code: Code,
    pub closed: Option<Closed<E, BoardRoom>>,
}

impl<E: Rows + Drop> Status<E> {
    /// The status of a call that opened no live run.
    pub fn unopened(code: Code) -> Status<E>
        ensures code { result.code ≡ code }
        ensures closed { result.closed ≡ None }
    {
        Status { code, closed: None }
    }
}
