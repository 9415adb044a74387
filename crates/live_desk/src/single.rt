// The operator of a single desk.
ghost use Rattle.std.specs.Prelude.{◌≡◌, false};
ghost use Rattle.edition_register.specs.Seats.{shown_in};
ghost use Rattle.run_model.specs.Replies.{reply_text};

use crate::operator::{Operator, Place};
use desk::Desk;
use edition::Compiled;
use edition_register::Editions;
use fold_state::BoardRoom;
use mib_model::{Line, Steps};
use reply_text::reply_line;
use run_model::Reply;
use std::sync::Wait;
use std::sync::ledger::Ledger;
use turn_cell::Seat;

// The line of a reply.
fn line_of(reply: &Reply) -> Line
    ensures { result ≡ reply_text reply.now }
{
    let mut line = Line::new();
    reply_line(reply, &mut line);
    line
}

impl Operator for Desk {
    type Plans = Compiled;

    ghost use Rattle.desk.specs.State.{desk_of, editions_of};

    ghost several = { false };

    ghost state = { desk_of };

    ghost keeps = { λ desk first own. editions_of desk ≡ shown_in first own };

    fn handle_line<L: Ledger, R: Wait>(
        &mut self,
        place: &Place<'_, Compiled, R>,
        seat: &mut Seat<Editions<Compiled, BoardRoom>>,
        line: &[u8],
        steps: &mut Steps<L>,
    ) -> Option<Line> {
        let reply = self.line(place.rt, place.alloc, place.register, seat, line, steps)?;
        Some(line_of(&reply))
    }

    fn reply_line(_desk: u8, reply: &Reply) -> Line {
        line_of(reply)
    }
}
