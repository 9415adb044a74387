//! A run of a panel.
ghost use Rattle.std.specs.Prelude.{◌≡◌, ◌≢◌, ◌≤◌, ◌+◌, [], IfOk, OnErr, length, map, vec_capacity};
ghost use Rattle.std.specs.List.{AllZip};
ghost use Rattle.edition_register.specs.Panels.{AreDesksFrom, ListFrom};
ghost use Rattle.histories.specs.History.{IsOfSeatsBelow, Permits, StartsWith, moves_of};
ghost use Rattle.live_session.specs.Codes.{code_by};
ghost use Rattle.run_model.specs.RegisterHistories.{IsRegisterHistory, MayEnter};
ghost use Rattle.panel_session.specs.Codes.{gravest};
ghost use Rattle.edition_register.specs.Seats.{IsSeat, first_of, history_of};
ghost use Rattle.live_session.specs.Live.{EndsAs, StaysHandedOn, object};
ghost use Rattle.panel_session.specs.Opened.{IsOpened, first_in};
ghost use Rattle.panel_session.specs.Panel.{LivesAt};
ghost use Rattle.turn_cell.specs.Seats.{own_moves, seen_by};

use crate::code::code_of;
use crate::opening::PanelRun;
use crate::side::{DeskSide, take_seats};
use crate::station::{Post, Station};
use crate::work::run_desks;
use decode_session::{RunEnd, RunFault};
use edition::Edition;
use edition_register::{Closed, Editions, Register};
use fold_state::BoardRoom;
use live_desk::Place;
use live_session::IntakeSide;
use packet_run::NoWatch;
use run_model::Code;
use std::alloc::{AllocError, Global};
use std::sync::Wait;
use std::thread::Threads;
use tm_io::{Gate, Sink, Source};
use turn_cell::Seat;

/// How a run of a panel ended: its code, and its register at the end.
#[derive(Drop)]
pub struct PanelLived {
    pub code: Code,
    pub closed: Closed<Edition, BoardRoom>,
}

// Ends a run: its code, and its register closed.
fn finish(
    register: Register<Edition, BoardRoom>,
    intake: IntakeSide<Edition, NoWatch>,
    sides: Vec<DeskSide>,
    room: Vec<Seat<Editions<Edition, BoardRoom>>>,
    ended: Result<RunEnd, RunFault>,
) -> PanelLived
    requires intake { IsSeat 0 register intake.seat }
    requires desks { AreDesksFrom 1 register (map (λ side. side.seat) sides.items) }
    requires room { (room.items ≡ []) × (length sides.items ≤ vec_capacity room) }
    ensures code { result.code ≡ code_by ended (gravest sides.items) }
    ensures legal { IsRegisterHistory (first_of register) (history_of result.closed) × Permits MayEnter (history_of result.closed) }
    ensures seats { IsOfSeatsBelow (length sides.items + 1) (history_of result.closed) }
    ensures intake { moves_of 0 (history_of result.closed) ≡ own_moves intake.seat }
    ensures seen { StartsWith (history_of result.closed) (seen_by intake.seat) }
    ensures desks { ListFrom 1 (history_of result.closed) (map (λ side. side.seat) sides.items) }
    ensures numbers { EndsAs (first_of register) result.closed }
{
    let code = code_of(ended, &sides);
    let seats = take_seats(sides, room);
    let IntakeSide { seat, .. } = intake;
    PanelLived {
        code,
        closed: register.close_desks(seat, seats),
    }
}

impl PanelRun {
    // The lines of each desk up to its first `go`, one desk after the other, and then the packets of the feed beside the other lines.
    fn run<R: Threads + Wait + Sync, F: Source, S: Post + Send, O: Sink, G: Gate + Sync>(
        self,
        rt: &R,
        alloc: Global,
        feed: &mut F,
        stations: &mut [S],
        out: &mut O,
        gate: &G,
    ) -> PanelLived
        requires desks { (1 ≤ length stations.old) × (length stations.old ≤ 4) }
        requires opened { IsOpened (length stations.old) self }
        ensures lives { LivesAt result.code (first_in self) (history_of result.closed)
            (object (F.left feed.old) (F.left feed.new) (F.faults feed.old) (F.faults feed.new)) (map S.seen stations.old) (map S.seen stations.new)
            (object (O.written out.old) (O.written out.new) (O.faults out.old) (O.faults out.new)) }
        ensures handed { result.code ≢ Code.OutFault → O.handed out.new ≡ O.written out.new }
        ensures numbers { EndsAs (first_in self) result.closed }
        ensures feed_kept { (F.holds feed.new ≡ F.holds feed.old) × (F.missed feed.new ≡ F.missed feed.old) }
    {
        let PanelRun {
            register,
            mut intake,
            mut sides,
            room,
        } = self;
        let ended = {
            let place = Place {
                rt,
                alloc,
                register: &register,
                desk: 1,
            };
            run_desks(&place, gate, &mut intake, feed, out, &mut sides, stations)
        };
        finish(register, intake, sides, room, ended)
    }
}

/// A run of one to four desks from this edition on. The lines of each up to its first `go` are handled before a packet is read, one desk
/// after the other; then the packets of the feed are printed, decoded by so many workers, while each desk's other lines are handled in a
/// thread of its own. It reads at most 64 packets ahead of what it has printed, and waits for its turn at the register; a worker calls the
/// gate before it works on a packet. An error is want of memory, before anything is read or written.
pub fn panel_run<
    R: Threads + Wait + Sync,
    F: Source,
    D: Source + Send,
    O: Sink,
    P: Sink + Send,
    G: Gate + Sync,
>(
    rt: &R,
    alloc: Global,
    first: Edition,
    feed: &mut F,
    stations: &mut [Station<D, P>],
    out: &mut O,
    gate: &G,
    workers: u8,
) -> Result<PanelLived, AllocError>
    requires desks { (1 ≤ length stations.old) × (length stations.old ≤ 4) }
    requires workers { (1 ≤ workers) × (workers ≤ 16) }
    ensures lives { let seen = ⟦<Station<D, P> as Post>⟧.seen in IfOk result (λ lived. LivesAt lived.code first (history_of lived.closed)
        (object (F.left feed.old) (F.left feed.new) (F.faults feed.old) (F.faults feed.new)) (map seen stations.old) (map seen stations.new)
        (object (O.written out.old) (O.written out.new) (O.faults out.old) (O.faults out.new))) }
    ensures handed { IfOk result (λ lived. lived.code ≢ Code.OutFault → O.handed out.new ≡ O.written out.new) }
    ensures replied { IfOk result (λ lived.
        AllZip (λ s t. StaysHandedOn (P.faults s.replies) (P.faults t.replies) P.written P.handed s.replies t.replies) stations.old stations.new) }
    ensures numbers { IfOk result (λ lived. EndsAs first lived.closed) }
    ensures feed_kept { (F.holds feed.new ≡ F.holds feed.old) × (F.missed feed.new ≡ F.missed feed.old) }
    ensures desks_kept { AllZip (λ s t. (D.holds t.desk ≡ D.holds s.desk) × (D.missed t.desk ≡ D.missed s.desk)) stations.old stations.new }
    ensures untouched { OnErr result ((feed.new ≡ feed.old) × (stations.new ≡ stations.old) × (out.new ≡ out.old)) }
{
    let opened = PanelRun::open(alloc, first, stations.len() as u8, workers)?;
    Ok(opened.run(rt, alloc, feed, stations, out, gate))
}
