//! A live run.
ghost use Rattle.std.specs.Prelude.{◌≡◌, ◌≢◌, ◌≤◌, ◌*◌, IfOk, None, OnErr, Some, false, length};
ghost use Rattle.desk.specs.State.{desk_of, editions_of};
ghost use Rattle.desk_lines.specs.ToCome.{reading_start};
ghost use Rattle.desk_lines.specs.Reader.{reading_of, source_of};
ghost use Rattle.edition_register.specs.Seats.{IsSeat, first_of, history_of, shown_in};
ghost use Rattle.histories.specs.History.{StartsWith};
ghost use Rattle.live_desk.specs.Scripts.{DeskedFrom, Worked};
ghost use Rattle.live_desk.specs.Standing.{standing_of};
ghost use Rattle.live_session.specs.Live.{EndsAs, Leaves, Lives, StaysHandedOn, object};
ghost use Rattle.live_session.specs.Opened.{IsOpened, first_in, watch_in};
ghost use Rattle.live_session.specs.Sides.{HasDeskCauses, IsDeskReady, IsIntakeReady, TakesIn};
ghost use Rattle.packet_feed.specs.Feed.{SourceStays};
ghost use Rattle.tool_objects.specs.Objects.{shelf, sink};
ghost use Rattle.turn_cell.specs.Seats.{own_moves, seen_by};

use crate::code::merged;
use crate::host::Host;
use crate::opening::LiveRun;
use crate::sides::{IntakeSide, SeatedDesk, run_intake};
use decode_session::{RunEnd, RunFault};
use desk_lines::DeskReader;
use edition::{Compiled, Edition};
use edition_register::Closed;
use fold_state::BoardRoom;
use live_desk::{DeskEnd, Place, work};
use packet_run::{NoWatch, Watch};
use run_model::Code;
use std::alloc::{AllocError, Global};
use std::sync::Wait;
use std::thread;
use std::thread::Threads;
use tm_io::{Gate, Sink, Source};

/// How a live run ended: its code, and its register at the end.
#[derive(Drop)]
pub struct Lived {
    pub code: Code,
    pub closed: Closed<Compiled, BoardRoom>,
}

/// A live run that was watched: how it ended, and its watch.
#[derive(Drop)]
pub struct Watched<W> {
    pub lived: Lived,
    pub watch: W,
}

// The packets of a feed in this thread beside the lines of a desk in another.
fn run_both<
    R: Threads + Wait + Sync,
    F: Source,
    D: Source + Send,
    O: Sink,
    P: Sink + Send,
    G: Gate + Sync,
    W: Watch,
>(
    place: &Place<'_, Compiled, R>,
    gate: &G,
    intake: &mut IntakeSide<Compiled, W>,
    side: &mut SeatedDesk,
    reader: &mut DeskReader<D>,
    feed: &mut F,
    out: &mut O,
    replies: &mut P,
) -> (Result<RunEnd, RunFault>, Option<DeskEnd>)
    requires ready { IsIntakeReady place.now.register.now intake.old.seat intake.old.first intake.old.stock }
    requires seat { IsSeat 1 place.now.register.now side.old.seat }
    requires room { length (own_moves side.old.seat) ≤ 2 * (reading_of reader.old).lines }
    requires editions { editions_of side.old.desk ≡ shown_in (first_of place.now.register.now) (own_moves side.old.seat) }
    ensures intake { IsSeat 0 place.now.register.now intake.new.seat × StartsWith (seen_by intake.new.seat) (seen_by intake.old.seat) }
    ensures takes { TakesIn W.stands result.0 (first_of place.now.register.now) (own_moves intake.new.seat)
        (shelf feed.old feed.new F.holds F.left F.faults F.missed) (sink out.old out.new O.written O.handed O.faults) intake.old.watch intake.new.watch }
    ensures seat { IsSeat 1 place.now.register.now side.new.seat }
    ensures worked { Worked None false result.1 (standing_of desk_of D.left P.written reader.old side.old.desk side.old.seat replies.old)
        (standing_of desk_of D.left P.written reader.new side.new.desk side.new.seat replies.new) }
    ensures causes { HasDeskCauses result.1 (shelf (source_of reader.old) (source_of reader.new) D.holds D.left D.faults D.missed)
        (sink replies.old replies.new P.written P.handed P.faults) }
    ensures kept { SourceStays D.holds D.missed D.borrow (source_of reader.old) (source_of reader.new) }
{
    let (end, ended) = thread::join_mut(
        place.rt,
        &mut || {
            work(
                place,
                &mut side.seat,
                &mut side.desk,
                reader,
                replies,
                false,
            )
        },
        &mut || -> Result<RunEnd, RunFault>
            requires ready { IsIntakeReady place.now.register.now intake.now.seat intake.now.first intake.now.stock }
        { run_intake(place.rt, place.register, intake, feed, out, gate) },
    );
    (ended, end)
}

// The lines of a desk up to the first `go`, and then the packets of a feed beside the other lines.
fn run<
    R: Threads + Wait + Sync,
    F: Source,
    D: Source + Send,
    O: Sink,
    P: Sink + Send,
    G: Gate + Sync,
    W: Watch,
>(
    place: &Place<'_, Compiled, R>,
    gate: &G,
    intake: &mut IntakeSide<Compiled, W>,
    side: &mut SeatedDesk,
    reader: &mut DeskReader<D>,
    feed: &mut F,
    out: &mut O,
    replies: &mut P,
) -> (Result<RunEnd, RunFault>, DeskEnd)
    requires ready { IsIntakeReady place.now.register.now intake.old.seat intake.old.first intake.old.stock }
    requires desk { IsDeskReady place.now.register.now side.old.seat side.old.desk }
    requires start { reading_of reader.old ≡ reading_start }
    ensures intake { IsSeat 0 place.now.register.now intake.new.seat }
    ensures takes { TakesIn W.stands result.0 (first_of place.now.register.now) (own_moves intake.new.seat)
        (shelf feed.old feed.new F.holds F.left F.faults F.missed) (sink out.old out.new O.written O.handed O.faults) intake.old.watch intake.new.watch }
    ensures seat { IsSeat 1 place.now.register.now side.new.seat }
    ensures desked { let first = first_of place.now.register.now in
        DeskedFrom None result.1 first (seen_by intake.new.seat) (standing_of desk_of D.left P.written reader.old side.old.desk side.old.seat replies.old)
        (standing_of desk_of D.left P.written reader.new side.new.desk side.new.seat replies.new) }
    ensures causes { HasDeskCauses (Some result.1) (shelf (source_of reader.old) (source_of reader.new) D.holds D.left D.faults D.missed)
        (sink replies.old replies.new P.written P.handed P.faults) }
    ensures kept { SourceStays D.holds D.missed D.borrow (source_of reader.old) (source_of reader.new) }
{
    let begun = work(place, &mut side.seat, &mut side.desk, reader, replies, true);
    place.register.meet(&mut intake.seat, &mut side.seat);
    match begun {
        Some(end) => {
            let ended = run_intake(place.rt, place.register, intake, feed, out, gate);
            return (ended, end);
        }
        None => {
            let (ended, rest) = run_both(place, gate, intake, side, reader, feed, out, replies);
            let Some(end) = rest else { unreachable!() };
            return (ended, end);
        }
    }
}

// Runs what was opened over the lines of a reader, and closes the register.
fn run_opened<
    R: Threads + Wait + Sync,
    F: Source,
    D: Source + Send,
    O: Sink,
    P: Sink + Send,
    G: Gate + Sync,
    W: Watch + Drop,
>(
    host: &Host<'_, R, G>,
    opened: LiveRun<W>,
    reader: &mut DeskReader<D>,
    feed: &mut F,
    out: &mut O,
    replies: &mut P,
) -> Watched<W>
    requires opened { IsOpened opened }
    requires start { reading_of reader.old ≡ reading_start }
    ensures leaves { Leaves W.stands result.lived.code (first_in opened) result.lived.closed (shelf feed.old feed.new F.holds F.left F.faults F.missed)
        (shelf (source_of reader.old) (source_of reader.new) D.holds D.left D.faults D.missed) (sink out.old out.new O.written O.handed O.faults)
        (sink replies.old replies.new P.written P.handed P.faults) (watch_in opened) result.watch }
    ensures kept { SourceStays D.holds D.missed D.borrow (source_of reader.old) (source_of reader.new) }
{
    let LiveRun {
        register,
        mut intake,
        mut desk,
    } = opened;
    let (ended, end) = {
        let place = Place {
            rt: host.rt,
            alloc: host.alloc,
            register: &register,
            desk: 1,
        };
        run(
            &place,
            host.gate,
            &mut intake,
            &mut desk,
            reader,
            feed,
            out,
            replies,
        )
    };
    let IntakeSide {
        seat: intake_seat,
        watch,
        ..
    } = intake;
    let SeatedDesk { seat, .. } = desk;
    let lived = Lived {
        code: merged(ended, end),
        closed: register.close(intake_seat, seat),
    };
    Watched { lived, watch }
}

impl<W: Watch + Drop> LiveRun<W> {
    /// The lines of the desk up to the first `go` are handled before a packet is read; then the packets of the feed are printed, and the
    /// watch is told of each whose record was written whole, while the other lines are handled in another thread. It reads at most 64
    /// packets ahead of what it has printed, and waits for its turn at the register; a worker calls the gate before it works on a packet.
    pub fn run<
        R: Threads + Wait + Sync,
        F: Source,
        D: Source + Send,
        O: Sink,
        P: Sink + Send,
        G: Gate + Sync,
    >(
        self,
        host: &Host<'_, R, G>,
        feed: &mut F,
        desk: &mut D,
        out: &mut O,
        replies: &mut P,
    ) -> Watched<W>
        requires { IsOpened self }
        ensures { Leaves W.stands result.lived.code (first_in self) result.lived.closed (shelf feed.old feed.new F.holds F.left F.faults F.missed)
            (shelf desk.old desk.new D.holds D.left D.faults D.missed) (sink out.old out.new O.written O.handed O.faults)
            (sink replies.old replies.new P.written P.handed P.faults) (watch_in self) result.watch }
    {
        let mut reader = DeskReader::new(desk);
        run_opened(host, self, &mut reader, feed, out, replies)
    }
}

/// A live run from this edition on. The lines of the desk up to the first `go` are handled before a packet is read; then the
/// packets of the feed are printed, decoded by so many workers, while the other lines are handled in another thread. It reads at
/// most 64 packets ahead of what it has printed, and waits for its turn at the register; a worker calls the gate before it works on
/// a packet. An error is want of memory, before anything is read or written.
pub fn live_run<
    R: Threads + Wait + Sync,
    F: Source,
    D: Source + Send,
    O: Sink,
    P: Sink + Send,
    G: Gate + Sync,
>(
    rt: &R,
    alloc: Global,
    first: Edition,
    feed: &mut F,
    desk: &mut D,
    out: &mut O,
    replies: &mut P,
    gate: &G,
    workers: u8,
) -> Result<Lived, AllocError>
    requires workers { (1 ≤ workers) × (workers ≤ 16) }
    ensures lives { IfOk result (λ lived. Lives lived.code first (history_of lived.closed)
        (object (F.left feed.old) (F.left feed.new) (F.faults feed.old) (F.faults feed.new))
        (object (D.left desk.old) (D.left desk.new) (D.faults desk.old) (D.faults desk.new))
        (object (O.written out.old) (O.written out.new) (O.faults out.old) (O.faults out.new))
        (object (P.written replies.old) (P.written replies.new) (P.faults replies.old) (P.faults replies.new))) }
    ensures handed { IfOk result (λ lived. lived.code ≢ Code.OutFault → O.handed out.new ≡ O.written out.new) }
    ensures replied { IfOk result (λ lived. StaysHandedOn (P.faults replies.old) (P.faults replies.new) P.written P.handed replies.old replies.new) }
    ensures numbers { IfOk result (λ lived. EndsAs first lived.closed) }
    ensures feed_kept { (F.holds feed.new ≡ F.holds feed.old) × (F.missed feed.new ≡ F.missed feed.old) }
    ensures desk_kept { (D.holds desk.new ≡ D.holds desk.old) × (D.missed desk.new ≡ D.missed desk.old) }
    ensures untouched { OnErr result ((feed.new ≡ feed.old) × (desk.new ≡ desk.old) × (out.new ≡ out.old) × (replies.new ≡ replies.old)) }
{
    let opened = match LiveRun::open(alloc, first, workers, NoWatch) {
        Ok(opened) => opened,
        Err(want) => return Err(want),
    };
    let host = Host { rt, alloc, gate };
    Ok(opened.run(&host, feed, desk, out, replies).lived)
}
