// Editions that are looked at, and used.
ghost use Rattle.std.specs.Prelude.{◌≡◌, ◌<◌, ◌≤◌, ◌+◌, ◌^◌, true, length, Some};
ghost use Rattle.desk.specs.Handling.{HandlesAt};
ghost use Rattle.edition_register.specs.Panels.{IsDeskSeat};
ghost use Rattle.edition_register.specs.Seats.{first_of};
ghost use Rattle.histories.specs.History.{StartsWith};
ghost use Rattle.run_model.specs.Desk.{DeskState, Plain};
ghost use Rattle.run_model.specs.DeskLines as Spec;
ghost use Rattle.panel_desk.specs.Using.{LooksFor};
ghost use Rattle.turn_cell.specs.Seats.{number_of, own_moves, seen_by};

use desk::{reply_of, start};
use edition::Edition;
use edition_register::{Editions, LookFault, Register, Start};
use fold_state::BoardRoom;
use run_model::Reply;
use std::alloc::Global;
use std::sync::Wait;
use turn_cell::Seat;

// Looks at an edition, and gives what its activation hands in; or the reply where there is no such edition or no memory.
fn look<R: Wait>(
    rt: &R,
    alloc: Global,
    register: &Register<Edition, BoardRoom>,
    seat: &mut Seat<Editions<Edition, BoardRoom>>,
    edition: u32,
) -> Result<Start<Edition, BoardRoom>, Reply>
    requires seat { IsDeskSeat (number_of seat.old) register.now seat.old }
    requires room { length (own_moves seat.old) < 2 ^ 32 }
    ensures seat { IsDeskSeat (number_of seat.old) register.now seat.new }
    ensures looks { LooksFor (number_of seat.old) (first_of register.now) seat.old seat.new edition result }
    ensures few { length (own_moves seat.new) ≤ length (own_moves seat.old) + 1 }
    ensures seen { StartsWith (seen_by seat.new) (seen_by seat.old) }
{
    match register.look(rt, seat, edition) {
        Ok(handle) => match start(alloc, &handle) {
            Ok(start) => Ok(start),
            Err(_) => Err(Reply::Want),
        },
        Err(LookFault::NoEdition { count }) => Err(Reply::NoEdition { count }),
        Err(LookFault::Memory) => Err(Reply::Want),
    }
}

/// Uses an edition from the next packet on.
pub(crate) fn use_now<R: Wait>(
    rt: &R,
    alloc: Global,
    register: &Register<Edition, BoardRoom>,
    seat: &mut Seat<Editions<Edition, BoardRoom>>,
    edition: u32,
) -> Reply
    requires seat { IsDeskSeat (number_of seat.old) register.now seat.old }
    requires room { length (own_moves seat.old) + 1 < 2 ^ 32 }
    ensures seat { IsDeskSeat (number_of seat.old) register.now seat.new }
    ensures handles { (s : DeskState) → HandlesAt true (number_of seat.old) (Spec.Use edition) s (own_moves seat.old) (own_moves seat.new)
        (Some (Plain result)) s }
    ensures few { length (own_moves seat.new) ≤ length (own_moves seat.old) + 2 }
    ensures seen { StartsWith (seen_by seat.new) (seen_by seat.old) }
{
    let start = match look(rt, alloc, register, seat, edition) {
        Ok(start) => start,
        Err(reply) => return reply,
    };
    reply_of(edition, register.use_shown(rt, seat, edition, start))
}

/// Uses an edition from this packet on.
pub(crate) fn use_from<R: Wait>(
    rt: &R,
    alloc: Global,
    register: &Register<Edition, BoardRoom>,
    seat: &mut Seat<Editions<Edition, BoardRoom>>,
    edition: u32,
    from: u64,
) -> Reply
    requires seat { IsDeskSeat (number_of seat.old) register.now seat.old }
    requires room { length (own_moves seat.old) + 1 < 2 ^ 32 }
    ensures seat { IsDeskSeat (number_of seat.old) register.now seat.new }
    ensures handles { (s : DeskState) → HandlesAt true (number_of seat.old) (Spec.UseFrom edition from) s (own_moves seat.old) (own_moves seat.new)
        (Some (Plain result)) s }
    ensures few { length (own_moves seat.new) ≤ length (own_moves seat.old) + 2 }
    ensures seen { StartsWith (seen_by seat.new) (seen_by seat.old) }
{
    let start = match look(rt, alloc, register, seat, edition) {
        Ok(start) => start,
        Err(reply) => return reply,
    };
    reply_of(
        edition,
        register.use_shown_from(rt, seat, edition, from, start),
    )
}
