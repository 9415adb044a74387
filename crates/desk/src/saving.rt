// A draft that is saved as an edition.
ghost use Rattle.std.specs.Prelude.{◌≡◌, ◌<◌, ◌≤◌, ◌+◌, ◌^◌, length, Some, IfOk, MatchResult};
ghost use Rattle.desk.specs.Saving.{IsReady, IsReadyFor, IsNoEdition};
ghost use Rattle.std.specs.Arc.{arc_value};
ghost use Rattle.histories.specs.History.{StartsWith};
ghost use Rattle.turn_cell.specs.Seats.{own_moves, seen_by};
ghost use Rattle.edition_register.specs.Seats.{IsSeat, first_of, shown_in};
ghost use Rattle.run_model.specs.Desk.{Plain};
ghost use Rattle.run_model.specs.DeskLines as Spec;

use crate::desk::Desk;
use crate::draft::Draft;
use edition::{Compiled, Edition, SaveFault};
use edition_register::{AddFault, Editions, Register};
use fold_state::BoardRoom;
use mib_model::Steps;
use run_model::Reply;
use std::alloc::{AllocError, Global};
use std::sync::ledger::Ledger;
use std::sync::{Arc, Wait};
use turn_cell::Seat;

/// An edition of the draft, which may be its base, and how many plans were compiled.
#[derive(Drop)]
pub struct Ready {
    pub edition: Arc<Edition>,
    pub plans: u32,
}

// An edition behind a handle.
fn behind_handle(alloc: Global, edition: Edition, plans: u32) -> Result<Ready, AllocError>
    ensures { IfOk result (IsReady edition plans) }
{
    let edition = Arc::new(alloc, edition)?;
    Ok(Ready { edition, plans })
}

/// The edition of a draft, or the reply to a draft that is none.
pub fn amended<L: Ledger>(
    alloc: Global,
    draft: &Draft,
    steps: &mut Steps<L>,
) -> Result<Ready, Reply>
    ensures ready { MatchResult result (λ r. IsReadyFor draft.now.base draft.now.book r) (IsNoEdition draft.now.book) }
    ensures steps { IfOk result (λ r. steps.new ≡ steps.old + r.plans) }
{
    match draft.amended(alloc, steps) {
        Ok(amended) => match behind_handle(alloc, amended.edition, amended.plans) {
            Ok(ready) => Ok(ready),
            Err(_) => Err(Reply::Want),
        },
        Err(SaveFault::Mib(flaw)) => Err(Reply::Unsound(flaw)),
        Err(SaveFault::Memory) => Err(Reply::Want),
    }
}

impl Desk {
    ghost use Rattle.desk.specs.State.{desk_of, editions_of};
    ghost use Rattle.desk.specs.Handling.{Handles, Ticks};

    // Saves the draft.
    pub(crate) fn save<L: Ledger, R: Wait>(
        &mut self,
        rt: &R,
        alloc: Global,
        register: &Register<Compiled, BoardRoom>,
        seat: &mut Seat<Editions<Compiled, BoardRoom>>,
        steps: &mut Steps<L>,
    ) -> Reply
        requires seat { IsSeat 1 register.now seat.old }
        requires room { length (own_moves seat.old) < 2 ^ 32 }
        requires editions { editions_of self.old ≡ shown_in (first_of register.now) (own_moves seat.old) }
        ensures seat { IsSeat 1 register.now seat.new }
        ensures editions { editions_of self.new ≡ shown_in (first_of register.now) (own_moves seat.new) }
        ensures handles { Handles Spec.Save (desk_of self.old) (own_moves seat.old) (own_moves seat.new) (Some result) (desk_of self.new) }
        ensures few { length (own_moves seat.new) ≤ length (own_moves seat.old) + 1 }
        ensures seen { StartsWith (seen_by seat.new) (seen_by seat.old) }
        ensures steps { Ticks Spec.Save (Some (Plain result)) steps.old steps.new }
    {
        let ready = match amended(alloc, &self.draft, steps) {
            Ok(ready) => ready,
            Err(reply) => return reply,
        };
        let Ok(payload) = Arc::try_clone(ready.edition.plans()) else {
            return Reply::Want;
        };
        let Ok(kept) = Arc::try_clone(&payload) else {
            return Reply::Want;
        };
        let Ok(()) = self.editions.reserve(1) else {
            return Reply::Want;
        };
        match register.add(rt, seat, payload) {
            Ok(edition) => {
                self.editions.push_reserved(kept);
                self.draft.rebase(ready.edition);
                self.edition = edition;
                Reply::Saved {
                    edition,
                    plans: ready.plans,
                }
            }
            Err(AddFault::Full { .. }) => Reply::FullEditions,
        }
    }
}
