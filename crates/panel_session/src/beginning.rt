// The first lines of the desks, one desk after the other.
ghost use Rattle.std.specs.Prelude.{◌≡◌, ◌≤◌, ◌+◌, [], length, map};
ghost use Rattle.std.specs.List.{AllByRecursion};
ghost use Rattle.edition_register.specs.Panels.{AreDesksFrom, IsDeskSeat};
ghost use Rattle.edition_register.specs.Seats.{IsSeat};
ghost use Rattle.panel_session.specs.Lanes.{AllBegin, BeginsSo, HasRoom, lane_of, lanes};
ghost use Rattle.turn_cell.specs.Seats.{own_moves, seen_by};

use crate::side::DeskSide;
use crate::station::Post;
use edition::Edition;
use edition_register::Editions;
use fold_state::BoardRoom;
use live_desk::Place;
use std::sync::Wait;
use turn_cell::Seat;

// Handles the lines of a desk up to and with its first `go`, or to the end of its script where there is none, before a packet is
// stamped. What the intake has seen before stands in the history before the desk's lines; it has then seen those too.
fn begin<R: Wait, S: Post>(
    place: &Place<'_, Edition, R>,
    intake: &mut Seat<Editions<Edition, BoardRoom>>,
    side: &mut DeskSide,
    station: &mut S,
)
    requires intake { IsSeat 0 place.now.register.now intake.old × (own_moves intake.old ≡ []) }
    requires seat { IsDeskSeat place.now.desk place.now.register.now side.old.seat × (own_moves side.old.seat ≡ []) }
    ensures intake { IsSeat 0 place.now.register.now intake.new × (own_moves intake.new ≡ []) }
    ensures seat { IsDeskSeat place.now.desk place.now.register.now side.new.seat }
    ensures begins { BeginsSo place.now.desk (lane_of side.old (S.seen station.old)) (lane_of side.new (S.seen station.new))
        (seen_by intake.old) (seen_by intake.new) }
    ensures room { HasRoom (lane_of side.new (S.seen station.new)) }
{
    place.register.meet_desk(intake, &mut side.seat);
    station.work(place, side, true);
    place.register.meet_desk(intake, &mut side.seat);
}

/// Handles the first lines of each desk from that of the place on, in their order.
pub(crate) fn begin_all<R: Wait, S: Post>(
    place: &Place<'_, Edition, R>,
    intake: &mut Seat<Editions<Edition, BoardRoom>>,
    sides: &mut [DeskSide],
    stations: &mut [S],
)
    requires intake { IsSeat 0 place.now.register.now intake.old × (own_moves intake.old ≡ []) }
    requires desks { AreDesksFrom place.now.desk place.now.register.now (map (λ side. side.seat) sides.old) }
    requires unmoved { AllByRecursion (λ seat. own_moves seat ≡ []) (map (λ side. side.seat) sides.old) }
    requires same { length stations.old ≡ length sides.old }
    requires number { place.now.desk + length sides.old ≤ 5 }
    ensures intake { IsSeat 0 place.now.register.now intake.new × (own_moves intake.new ≡ []) }
    ensures desks { AreDesksFrom place.now.desk place.now.register.now (map (λ side. side.seat) sides.new) }
    ensures begin { AllBegin place.now.desk (lanes sides.old (map S.seen stations.old)) (lanes sides.new (map S.seen stations.new))
        (seen_by intake.old) (seen_by intake.new) }
    ensures room { AllByRecursion HasRoom (lanes sides.new (map S.seen stations.new)) }
{
    let next = Place {
        rt: place.rt,
        alloc: place.alloc,
        register: place.register,
        desk: place.desk + 1,
    };
    let Some((side, other_sides)) = sides.split_first_mut() else {
        return;
    };
    let Some((station, other_stations)) = stations.split_first_mut() else {
        unreachable!();
    };
    begin(place, intake, side, station);
    begin_all(&next, intake, other_sides, other_stations);
}
