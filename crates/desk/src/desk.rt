ghost use Rattle.std.specs.Prelude.{◌≡◌, ◌<◌, ◌≤◌, ◌+◌, ◌^◌, ◌∷◌, [], false, length, option_map, IfOk};
ghost use Rattle.std.specs.Arc.{arc_value};
ghost use Rattle.histories.specs.History.{StartsWith};
ghost use Rattle.turn_cell.specs.Seats.{own_moves, seen_by};
ghost use Rattle.edition_register.specs.Seats.{IsSeat, first_of, shown_in};
ghost use Rattle.run_model.specs.Desk.{Plain};
ghost use Rattle.run_model.specs.DeskLines.{request_of};

use crate::draft::Draft;
use crate::edits::{Entering, edit};
use desk_lines::{Request, request_of};
use edition::{Compiled, Edition};
use edition_register::{Editions, Register};
use fold_state::BoardRoom;
use mib_model::Steps;
use run_model::Reply;
use std::alloc::{AllocError, Global};
use std::sync::ledger::Ledger;
use std::sync::{Arc, Wait};
use turn_cell::Seat;

/// A draft, the number of the edition that it was made from, and a handle of the plans of each edition.
pub struct Desk {
    pub(crate) draft: Draft,
    pub(crate) edition: u32,
    pub(crate) editions: Vec<Arc<Compiled>>,
}

/// By hand, so that whoever lets one go proves one call.
impl Drop for Desk {
    fn drop(self) {
        let Desk {
            draft: _draft,
            edition: _,
            editions: _editions,
        } = self;
    }
}

impl Desk {
    ghost use Rattle.run_model.specs.Desk.{desk_start};
    ghost use Rattle.desk_lines.specs.Requests.{asked};
    ghost use Rattle.desk.specs.State.{desk_of, editions_of};
    ghost use Rattle.desk.specs.Handling.{Handles, HandlesLine, Ticks};

    /// A desk whose draft is edition 1. An error is want of memory.
    pub fn new(alloc: Global, first: Edition) -> Result<Desk, AllocError>
        ensures state { IfOk result (λ desk. desk_of desk ≡ desk_start first) }
        ensures editions { IfOk result (λ desk. editions_of desk ≡ first ∷ []) }
    {
        let mut editions = Vec::with_capacity(alloc, 1)?;
        editions.push_reserved(Arc::try_clone(first.plans())?);
        let draft = Draft::new(Arc::new(alloc, first)?)?;
        Ok(Desk {
            draft,
            edition: 1,
            editions,
        })
    }

    /// Handles one line. A comment or an empty line has no reply. It waits for its turn at the register where it saves or
    /// activates; where it replies `Want`, all stands as before.
    pub fn line<L: Ledger, R: Wait>(
        &mut self,
        rt: &R,
        alloc: Global,
        register: &Register<Compiled, BoardRoom>,
        seat: &mut Seat<Editions<Compiled, BoardRoom>>,
        line: &[u8],
        steps: &mut Steps<L>,
    ) -> Option<Reply>
        requires seat { IsSeat 1 register.now seat.old }
        requires room { length (own_moves seat.old) < 2 ^ 32 }
        requires editions { editions_of self.old ≡ shown_in (first_of register.now) (own_moves seat.old) }
        ensures seat { IsSeat 1 register.now seat.new }
        ensures editions { editions_of self.new ≡ shown_in (first_of register.now) (own_moves seat.new) }
        ensures handles { HandlesLine line.now (desk_of self.old) (own_moves seat.old) (own_moves seat.new) result (desk_of self.new) }
        ensures few { length (own_moves seat.new) ≤ length (own_moves seat.old) + 1 }
        ensures seen { StartsWith (seen_by seat.new) (seen_by seat.old) }
        ensures steps { Ticks (request_of false line.now) (option_map Plain result) steps.old steps.new }
    {
        self.handle(rt, alloc, register, seat, request_of(line), steps)
    }

    // Does what is asked for.
    fn handle<L: Ledger, R: Wait>(
        &mut self,
        rt: &R,
        alloc: Global,
        register: &Register<Compiled, BoardRoom>,
        seat: &mut Seat<Editions<Compiled, BoardRoom>>,
        request: Request<'_>,
        steps: &mut Steps<L>,
    ) -> Option<Reply>
        requires seat { IsSeat 1 register.now seat.old }
        requires room { length (own_moves seat.old) < 2 ^ 32 }
        requires editions { editions_of self.old ≡ shown_in (first_of register.now) (own_moves seat.old) }
        ensures seat { IsSeat 1 register.now seat.new }
        ensures editions { editions_of self.new ≡ shown_in (first_of register.now) (own_moves seat.new) }
        ensures handles { Handles (asked request.entry) (desk_of self.old) (own_moves seat.old) (own_moves seat.new) result (desk_of self.new) }
        ensures few { length (own_moves seat.new) ≤ length (own_moves seat.old) + 1 }
        ensures seen { StartsWith (seen_by seat.new) (seen_by seat.old) }
        ensures steps { Ticks (asked request.entry) (option_map Plain result) steps.old steps.new }
    {
        match edit(&mut self.draft, alloc, request) {
            Ok(reply) => reply,
            Err(Entering::Save) => Some(self.save(rt, alloc, register, seat, steps)),
            Err(Entering::Use { edition }) => {
                Some(self.use_now(rt, alloc, register, seat, edition))
            }
            Err(Entering::UseFrom { edition, from }) => {
                Some(self.use_from(rt, alloc, register, seat, edition, from))
            }
        }
    }
}
