// The lines of all desks, those behind their first `go` beside the packets of a feed.
ghost use Rattle.std.specs.Prelude.{◌≡◌, ◌≤◌, ◌+◌, [], length, map};
ghost use Rattle.std.specs.List.{AllByRecursion};
ghost use Rattle.std.specs.Thread.{IsSend, IsSync};
ghost use Rattle.edition_register.specs.Panels.{AreDesksFrom, IsDeskSeat};
ghost use Rattle.edition_register.specs.Seats.{IsSeat, first_of};
ghost use Rattle.live_session.specs.Sides.{IsIntakeReady, TakesIn};
ghost use Rattle.panel_session.specs.Lanes.{AllGoOn, GoesOn, HasRoom, Ran, lane_of, lanes};
ghost use Rattle.tool_objects.specs.Objects.{shelf, sink};
ghost use Rattle.turn_cell.specs.Seats.{own_moves, seen_by};

use crate::beginning::begin_all;
use crate::side::DeskSide;
use crate::station::Post;
use decode_session::{RunEnd, RunFault};
use edition::Edition;
use edition_register::Register;
use fold_state::BoardRoom;
use live_desk::Place;
use live_session::{IntakeSide, run_intake};
use packet_run::Watch;
use std::alloc::Global;
use std::sync::Wait;
use std::thread;
use std::thread::Threads;
use tm_io::{Gate, Sink, Source};

// Handles the lines of the desk of this number behind its first `go`, where its script has one.
fn go_on<R: Wait, S: Post>(
    rt: &R,
    alloc: &Global,
    register: &Register<Edition, BoardRoom>,
    desk: &u8,
    side: &mut DeskSide,
    station: &mut S,
)
    requires seat { IsDeskSeat desk.now register.now side.old.seat }
    requires room { HasRoom (lane_of side.old (S.seen station.old)) }
    ensures seat { IsDeskSeat desk.now register.now side.new.seat }
    ensures goes { GoesOn desk.now (lane_of side.old (S.seen station.old)) (lane_of side.new (S.seen station.new)) }
{
    if side.end.is_none() {
        let place = Place {
            rt,
            alloc: *alloc,
            register,
            desk: *desk,
        };
        station.work(&place, side, false);
    }
}

// Handles those lines of each desk from this number on, each desk's in a thread of its own. What the closures share is lent to this call:
// with a loan of a value of its own, what they write to the slices isn't known.
#[tactic(auto, using(crate::proofs::SideFacts::go_more))]
fn all_go_on<R: Threads + Wait + Sync, S: Post + Send>(
    rt: &R,
    alloc: &Global,
    register: &Register<Edition, BoardRoom>,
    desk: &u8,
    sides: &mut [DeskSide],
    stations: &mut [S],
)
    requires crosses { IsSend S.row × IsSync R.row }
    requires desks { AreDesksFrom desk.now register.now (map (λ side. side.seat) sides.old) }
    requires room { AllByRecursion HasRoom (lanes sides.old (map S.seen stations.old)) }
    requires same { length stations.old ≡ length sides.old }
    requires number { desk.now + length sides.old ≤ 5 }
    ensures desks { AreDesksFrom desk.now register.now (map (λ side. side.seat) sides.new) }
    ensures go_on { AllGoOn desk.now (lanes sides.old (map S.seen stations.old)) (lanes sides.new (map S.seen stations.new)) }
{
    let Some((side, other_sides)) = sides.split_first_mut() else {
        return;
    };
    let Some((station, other_stations)) = stations.split_first_mut() else {
        unreachable!();
    };
    thread::join_mut(
        rt,
        &mut || go_on(rt, alloc, register, desk, side, station),
        &mut ||
            requires crosses { IsSend S.row × IsSync R.row }
            requires desks { AreDesksFrom (desk.now + 1) register.now (map (λ side. side.seat) other_sides.now) }
            requires room { AllByRecursion HasRoom (lanes other_sides.now (map S.seen other_stations.now)) }
            requires same { length other_stations.now ≡ length other_sides.now }
            requires number { desk.now + 1 + length other_sides.now ≤ 5 }
            ensures desks { AreDesksFrom (desk.entry.now + 1) register.entry.now (map (λ side. side.seat) other_sides.exit.now) }
            ensures go_on { AllGoOn (desk.entry.now + 1) (lanes other_sides.entry.now (map S.seen other_stations.entry.now))
                (lanes other_sides.exit.now (map S.seen other_stations.exit.now)) }
        {
            all_go_on(
                rt,
                alloc,
                register,
                &(*desk + 1),
                other_sides,
                other_stations,
            )
        },
    );
}

/// The first lines of each desk from that of the place on, in their order; and then the packets of a feed in this thread beside the other lines of all
/// those desks in others.
pub(crate) fn run_desks<
    R: Threads + Wait + Sync,
    F: Source,
    S: Post + Send,
    O: Sink,
    G: Gate + Sync,
    W: Watch,
>(
    place: &Place<'_, Edition, R>,
    gate: &G,
    intake: &mut IntakeSide<Edition, W>,
    feed: &mut F,
    out: &mut O,
    sides: &mut [DeskSide],
    stations: &mut [S],
) -> Result<RunEnd, RunFault>
    requires ready { IsIntakeReady place.now.register.now intake.old.seat intake.old.first intake.old.stock }
    requires desks { AreDesksFrom place.now.desk place.now.register.now (map (λ side. side.seat) sides.old) }
    requires unmoved { AllByRecursion (λ seat. own_moves seat ≡ []) (map (λ side. side.seat) sides.old) }
    requires same { length stations.old ≡ length sides.old }
    requires number { place.now.desk + length sides.old ≤ 5 }
    ensures intake { IsSeat 0 place.now.register.now intake.new.seat }
    ensures takes { TakesIn W.stands result (first_of place.now.register.now) (own_moves intake.new.seat)
        (shelf feed.old feed.new F.holds F.left F.faults F.missed) (sink out.old out.new O.written O.handed O.faults) intake.old.watch intake.new.watch }
    ensures desks { AreDesksFrom place.now.desk place.now.register.now (map (λ side. side.seat) sides.new) }
    ensures ran { Ran place.now.desk (lanes sides.old (map S.seen stations.old)) (lanes sides.new (map S.seen stations.new))
        (seen_by intake.old.seat) (seen_by intake.new.seat) }
{
    begin_all(place, &mut intake.seat, sides, stations);
    let (_, ended) = thread::join_mut(
        place.rt,
        &mut ||
            requires crosses { IsSend S.row × IsSync R.row }
            requires desks { AreDesksFrom place.now.desk place.now.register.now (map (λ side. side.seat) sides.now) }
            requires room { AllByRecursion HasRoom (lanes sides.now (map S.seen stations.now)) }
            requires same { length stations.now ≡ length sides.now }
            requires number { place.now.desk + length sides.now ≤ 5 }
        {
            all_go_on(
                place.rt,
                &place.alloc,
                place.register,
                &place.desk,
                sides,
                stations,
            )
        },
        &mut || -> Result<RunEnd, RunFault>
            requires ready { IsIntakeReady place.now.register.now intake.now.seat intake.now.first intake.now.stock }
        { run_intake(place.rt, place.register, intake, feed, out, gate) },
    );
    ended
}
