// Who works at a desk.
ghost use Rattle.std.specs.Prelude.{◌≡◌, ◌<◌, ◌≤◌, ◌+◌, ◌^◌, Bool, length};
ghost use Rattle.histories.specs.History.{StartsWith};
ghost use Rattle.live_desk.specs.Operators.{IsSeated, Operates, number_if};
ghost use Rattle.mib_model.specs.declared.database.Database.{Database};
ghost use Rattle.run_model.specs.Desk.{DeskState, Plain};
ghost use Rattle.run_model.specs.RegisterHistories.{RegisterHistory};
ghost use Rattle.run_model.specs.Replies.{desk_line};
ghost use Rattle.turn_cell.specs.Seats.{own_moves, seen_by};

use edition_register::{Editions, Register};
use fold_state::BoardRoom;
use mib_model::{Line, Rows, Steps};
use run_model::Reply;
use std::alloc::Global;
use std::sync::Wait;
use std::sync::ledger::Ledger;
use turn_cell::Seat;

/// Where a desk works: at this register, under this number of its seat.
pub struct Place<'a, E: Rows + Drop, R> {
    pub rt: &'a R,
    pub alloc: Global,
    pub register: &'a Register<E, BoardRoom>,
    pub desk: u8,
}

/// By hand, so that it asks nothing of `R`.
impl<'a, E: Rows + Drop, R> Drop for Place<'a, E, R> {
    fn drop(self) {
        let Place {
            rt: _,
            alloc: _,
            register: _,
            desk: _,
        } = self;
    }
}

/// Who handles the lines of a desk: of a single one, or of one of several.
pub trait Operator {
    /// What its register has of each edition.
    type Plans: Rows + Drop;

    /// Whether it is one of several.
    ghost several: { Bool };

    /// Its draft, the tables that this was made from, and the edition that these are.
    ghost state: { Self → DeskState };

    /// Whether what it keeps fits the tables of edition 1 and the moves of its seat behind them.
    ghost keeps: { Self → Database → RegisterHistory → Type 0 };

    /// Handles one line, and gives the line of its reply; a comment and an empty line have none. It waits for its turn at the
    /// register where the line enters something.
    fn handle_line<L: Ledger, R: Wait>(
        &mut self,
        place: &Place<'_, Self::Plans, R>,
        seat: &mut Seat<Editions<Self::Plans, BoardRoom>>,
        line: &[u8],
        steps: &mut Steps<L>,
    ) -> Option<Line>
        requires seated { IsSeated (number_if several place.now.desk) place.now.register.now seat.old (keeps self.old) }
        requires room { length (own_moves seat.old) + 1 < 2 ^ 32 }
        ensures seated { IsSeated (number_if several place.now.desk) place.now.register.now seat.new (keeps self.new) }
        ensures operates { Operates (number_if several place.now.desk) line.now (state self.old) (own_moves seat.old) (own_moves seat.new)
            result (state self.new) }
        ensures few { length (own_moves seat.new) ≤ length (own_moves seat.old) + 2 }
        ensures seen { StartsWith (seen_by seat.new) (seen_by seat.old) };

    /// The line of a reply that a single desk has too, at the desk of this number.
    fn reply_line(desk: u8, reply: &Reply) -> Line
        ensures { result ≡ desk_line (number_if several desk) (Plain reply.now) };
}
