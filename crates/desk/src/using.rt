// Editions that are used.
ghost use Rattle.std.specs.Prelude.{◌≡◌, ◌<◌, ◌≤◌, ◌+◌, ◌^◌, length, IfOk, Some};
ghost use Rattle.std.specs.Arc.{arc_value};
ghost use Rattle.histories.specs.History.{StartsWith};
ghost use Rattle.turn_cell.specs.Seats.{own_moves, seen_by};
ghost use Rattle.edition_register.specs.Seats.{IsSeat, StartFits, first_of, shown_in};
ghost use Rattle.edition_register.specs.Starts.{IsStart};
ghost use Rattle.fold_state.specs.Boards.{is_made_for};
ghost use Rattle.desk.specs.Using.{used_reply};
ghost use Rattle.run_model.specs.DeskLines as Spec;

use crate::desk::Desk;
use edition::Compiled;
use edition_plans::Plans;
use edition_register::{Editions, Register, Start, UseFault};
use fold_state::BoardRoom;
use mib_model::Rows;
use run_model::Reply;
use std::alloc::{AllocError, Global};
use std::sync::{Arc, Wait};
use turn_cell::Seat;

/// What an activation of an edition hands in.
pub fn start<E: Plans + Rows + Drop>(
    alloc: Global,
    handle: &Arc<E>,
) -> Result<Start<E, BoardRoom>, AllocError>
    requires same { (plans : E) → E.Rows.tables plans ≡ E.Structures.tables plans }
    ensures { IfOk result (λ start. IsStart E.Rows.tables is_made_for (E.Rows.tables (arc_value handle.now)) start) }
{
    let handle = Arc::try_clone(handle)?;
    let board = BoardRoom::new(alloc, handle.params())?;
    Ok(Start { handle, board })
}

/// The reply to an activation.
pub fn reply_of<E: Rows + Drop>(edition: u32, answer: Result<u64, UseFault<E, BoardRoom>>) -> Reply
    ensures { result ≡ used_reply edition answer }
{
    match answer {
        Ok(from) => Reply::Used { edition, from },
        Err(UseFault::NoEdition { count, .. }) => Reply::NoEdition { count },
        Err(UseFault::Late { next, .. }) => Reply::Late { next },
        Err(UseFault::Disorder { last, .. }) => Reply::Disorder { last },
        Err(UseFault::Full { .. }) => Reply::FullPending,
    }
}

impl Desk {
    ghost use Rattle.desk.specs.State.{desk_of, editions_of};
    ghost use Rattle.desk.specs.Handling.{Handles};

    // What an activation hands in: none where there is no such edition.
    fn start_of(
        &self,
        alloc: Global,
        edition: u32,
    ) -> Result<Option<Start<Compiled, BoardRoom>>, AllocError>
        ensures { IfOk result (λ start. StartFits (λ e. e) is_made_for (editions_of self.now) edition start) }
    {
        if edition == 0 || edition as usize > self.editions.len() {
            return Ok(None);
        }
        Ok(Some(start(alloc, &self.editions[(edition - 1) as usize])?))
    }

    // Uses an edition from the next packet on.
    pub(crate) fn use_now<R: Wait>(
        &mut self,
        rt: &R,
        alloc: Global,
        register: &Register<Compiled, BoardRoom>,
        seat: &mut Seat<Editions<Compiled, BoardRoom>>,
        edition: u32,
    ) -> Reply
        requires seat { IsSeat 1 register.now seat.old }
        requires room { length (own_moves seat.old) < 2 ^ 32 }
        requires editions { editions_of self.old ≡ shown_in (first_of register.now) (own_moves seat.old) }
        ensures seat { IsSeat 1 register.now seat.new }
        ensures editions { editions_of self.new ≡ shown_in (first_of register.now) (own_moves seat.new) }
        ensures handles { Handles (Spec.Use edition) (desk_of self.old) (own_moves seat.old) (own_moves seat.new) (Some result) (desk_of self.new) }
        ensures few { length (own_moves seat.new) ≤ length (own_moves seat.old) + 1 }
        ensures seen { StartsWith (seen_by seat.new) (seen_by seat.old) }
    {
        let Ok(start) = self.start_of(alloc, edition) else {
            return Reply::Want;
        };
        reply_of(edition, register.use_now(rt, seat, edition, start))
    }

    // Uses an edition from this packet on.
    pub(crate) fn use_from<R: Wait>(
        &mut self,
        rt: &R,
        alloc: Global,
        register: &Register<Compiled, BoardRoom>,
        seat: &mut Seat<Editions<Compiled, BoardRoom>>,
        edition: u32,
        from: u64,
    ) -> Reply
        requires seat { IsSeat 1 register.now seat.old }
        requires room { length (own_moves seat.old) < 2 ^ 32 }
        requires editions { editions_of self.old ≡ shown_in (first_of register.now) (own_moves seat.old) }
        ensures seat { IsSeat 1 register.now seat.new }
        ensures editions { editions_of self.new ≡ shown_in (first_of register.now) (own_moves seat.new) }
        ensures handles { Handles (Spec.UseFrom edition from) (desk_of self.old) (own_moves seat.old) (own_moves seat.new) (Some result) (desk_of self.new) }
        ensures few { length (own_moves seat.new) ≤ length (own_moves seat.old) + 1 }
        ensures seen { StartsWith (seen_by seat.new) (seen_by seat.old) }
    {
        let Ok(start) = self.start_of(alloc, edition) else {
            return Reply::Want;
        };
        reply_of(edition, register.use_from(rt, seat, edition, from, start))
    }
}
