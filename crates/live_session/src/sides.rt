// The two sides of a live run: what each owns, and what the intake does.
ghost use Rattle.std.specs.Prelude.{◌≡◌, ◌≤◌};
ghost use Rattle.edition_register.specs.Seats.{IsSeat, first_of};
ghost use Rattle.histories.specs.History.{StartsWith};
ghost use Rattle.live_session.specs.Sides.{IsIntakeReady, TakesIn};
ghost use Rattle.tool_objects.specs.Objects.{shelf, sink};
ghost use Rattle.turn_cell.specs.Seats.{own_moves, seen_by};

use decode_session::{RunEnd, RunFault};
use desk::Desk;
use edition::Compiled;
use edition_plans::Plans;
use edition_register::{Editions, Register, Start};
use fold_state::{Board, BoardRoom};
use mib_model::Rows;
use packet_run::{Stock, Watch, run_packets};
use std::sync::Wait;
use std::thread::Threads;
use struct_plan::Structures;
use tm_io::{Gate, Sink, Source};
use turn_cell::Seat;

/// What the intake owns: its seat, the first edition until its run begins, what the run needs, how many workers decode, and what is
/// told of the packets.
#[derive(Drop)]
pub struct IntakeSide<E: Structures + Rows + Drop, W> {
    pub seat: Seat<Editions<E, BoardRoom>>,
    pub first: Option<Start<E, Board>>,
    pub stock: Stock<E>,
    pub workers: u8,
    pub watch: W,
    ghost many: { (1 ≤ workers) × (workers ≤ 16) },
}

/// A desk and its seat.
#[derive(Drop)]
pub(crate) struct SeatedDesk {
    pub seat: Seat<Editions<Compiled, BoardRoom>>,
    pub desk: Desk,
}

/// Takes in the packets of a feed.
pub fn run_intake<
    E: Plans + Rows + Drop + Send + Sync,
    F: Source,
    O: Sink,
    G: Gate + Sync,
    W: Watch,
    R: Threads + Wait + Sync,
>(
    rt: &R,
    register: &Register<E, BoardRoom>,
    side: &mut IntakeSide<E, W>,
    feed: &mut F,
    out: &mut O,
    gate: &G,
) -> Result<RunEnd, RunFault>
    requires same { (plans : E) → E.Rows.tables plans ≡ E.Structures.tables plans }
    requires ready { IsIntakeReady register.now side.old.seat side.old.first side.old.stock }
    ensures seat { IsSeat 0 register.now side.new.seat × StartsWith (seen_by side.new.seat) (seen_by side.old.seat) }
    ensures takes { TakesIn W.stands result (first_of register.now) (own_moves side.new.seat) (shelf feed.old feed.new F.holds F.left F.faults F.missed)
        (sink out.old out.new O.written O.handed O.faults) side.old.watch side.new.watch }
{
    let Some(
        Start {
            handle: first,
            board,
        },
    ) = side.first.take()
    else {
        unreachable!();
    };
    run_packets(
        rt,
        &mut side.stock,
        register,
        &mut side.seat,
        first,
        board,
        feed,
        out,
        gate,
        &mut side.watch,
        side.workers,
    )
}
