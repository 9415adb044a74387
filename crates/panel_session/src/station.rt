// Where a desk's lines come from, and where the replies to them go.
ghost use Rattle.std.specs.Prelude.{◌≡◌};
ghost use Rattle.edition_register.specs.Panels.{IsDeskSeat};
ghost use Rattle.histories.specs.History.{StartsWith};
ghost use Rattle.panel_session.specs.Lanes.{Goes, HasRoom, Seen, lane_of};
ghost use Rattle.turn_cell.specs.Seats.{seen_by};

use crate::side::DeskSide;
use desk_lines::DeskReader;
use edition::Edition;
use live_desk::Place;
use std::sync::Wait;
use tm_io::{Sink, Source};

/// A desk's place at a panel: its script, and where the replies to its lines go.
#[derive(Drop)]
pub struct Station<D, R> {
    pub desk: D,
    pub replies: R,
}

/// The objects of a desk of a panel, of whatever types.
pub trait Post {
    /// What they hold, and how often they failed.
    ghost seen: { Self → Seen };

    /// Handles the lines of the script from where its reading stands, to its end, or up to and with a `go` where that is to be waited for.
    fn work<R: Wait>(&mut self, place: &Place<'_, Edition, R>, side: &mut DeskSide, until_go: bool)
        requires seat { IsDeskSeat place.now.desk place.now.register.now side.old.seat }
        requires room { HasRoom (lane_of side.old (seen self.old)) }
        ensures seat { IsDeskSeat place.now.desk place.now.register.now side.new.seat }
        ensures goes { Goes place.now.desk until_go (lane_of side.old (seen self.old)) (lane_of side.new (seen self.new)) }
        ensures room { HasRoom (lane_of side.new (seen self.new)) }
        ensures behind { StartsWith (seen_by side.new.seat) (seen_by side.old.seat) };
}

impl<D: Source, P: Sink> Post for Station<D, P> {
    ghost seen = { λ station. record {
      left = D.left station.desk;
      script_faults = D.faults station.desk;
      holds = D.holds station.desk;
      missed = D.missed station.desk;
      written = P.written station.replies;
      handed = P.handed station.replies;
      reply_faults = P.faults station.replies;
    } };

    fn work<R: Wait>(
        &mut self,
        place: &Place<'_, Edition, R>,
        side: &mut DeskSide,
        until_go: bool,
    ) {
        let mut reader = DeskReader::resume(&mut self.desk, side.read);
        side.end = side.desk.work(
            place,
            &mut side.seat,
            &mut reader,
            &mut self.replies,
            until_go,
        );
        side.read = reader.bookmark();
    }
}
