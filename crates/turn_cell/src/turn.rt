//! The lock, its seats and the state in hand. Tickets are drawn, and served in their order (Reed and Kanodia,
//! Synchronization with Eventcounts and Sequencers, 1979).
ghost use Rattle.std.specs.Prelude.{◌≡◌, ◌⊎◌, ◌^◌, ◌<◌, ◌≤◌, [], ◌∷◌, ◌++◌, length, IfOk};
ghost use Rattle.histories.specs.History.{move, moves_of, IsLegal, IsOfSeatsBelow, Permits, StartsWith, state_after};
ghost use Rattle.turn_cell.specs.Views.{AreListed, handed, holdings_below, kept, with_move};

use crate::machine::Machine;
use crate::rule::{About, Both, Draw, Look, Make, Orderly, PassTurn, Settle, Share};
use crate::slot::Slot;
use crate::view::View;
use atomic_table::{Refused, Table, TableRule};
use std::alloc::{AllocError, Global};
use std::marker::Model;
use std::snapshot::Snapshot;
use std::sync::Wait;
use std::thread;

// The words of the table. A fourth has the number of callers, which is in the rule alone.
const TICKETS: usize = 0;

const SERVING: usize = 1;

const COUNT: usize = 2;

// The slot of the state.
const STATE: usize = 0;

/// A caller's place at a turn, with the numbers that it holds. It has no bytes, and may go to another thread. A seat
/// that holds no number is a note of what another seat had seen.
pub type Seat<S> = atomic_table::Seat<
    Slot<Box<S>, Snapshot<<S as Machine>::Entry>>,
    View<<S as Machine>::State, <S as Machine>::Event, <S as Machine>::Answer>,
>;

/// A table with four words and one slot, under a rule. Only as `Turn` has it calls.
#[derive(Drop)]
pub struct Lock<P, D, K, Q: TableRule<P, D, K>> {
    table: Table<P, D, K, Q, Global>,
    ghost sized: { (table.shared.table_id.words ≡ 4) × (table.shared.table_id.slots ≡ 1) },
}

/// A state that callers change in turn. Threads share it by reference.
pub type Turn<S> = Lock<
    Slot<Box<S>, Snapshot<<S as Machine>::Entry>>,
    View<<S as Machine>::State, <S as Machine>::Event, <S as Machine>::Answer>,
    About<S>,
    Orderly<S, <S as Machine>::Reply>,
>;

/// The state in hand. It has no `Drop`: it ends in `leave`.
pub struct Held<S> {
    state: Box<S>,
}

impl<S> Model for Held<S> {
    ghost Value = { S };

    ghost view = { λ held. held.state.value };
}

impl<S: Machine + Drop> Turn<S> {
    ghost use Rattle.turn_cell.specs.Seats.{callers_of, first_state, holdings_of, number_of, own_moves, seen_by, HoldsAllBelow, IsIdle, IsSeatOf};

    /// A turn for so many callers, and the seat that holds the numbers below `callers`. The state is let go where
    /// memory is wanting.
    pub fn new(alloc: Global, state: S, callers: u8) -> Result<(Turn<S>, Seat<S>), AllocError>
        requires { 1 ≤ callers }
        ensures first { IfOk result (λ made. S.state (first_state made.0) ≡ S.state state) }
        ensures callers { IfOk result (λ made. callers_of made.0 ≡ callers) }
        ensures seat { IfOk result (λ made. IsSeatOf S.state made.0 made.1) }
        ensures idle { IfOk result (λ made. IsIdle made.1) }
        ensures numbers { IfOk result (λ made. holdings_of made.1 ≡ holdings_below callers) }
        ensures unseen { IfOk result (λ made. seen_by made.1 ≡ []) }
    {
        let about = About {
            state: Snapshot::of(&state),
            callers,
        };
        let Ok(state) = Box::new(alloc, state) else {
            return Err(AllocError);
        };
        let mut slots = Vec::with_capacity(alloc, 1)?;
        slots.push_reserved(Slot::Home(state));
        let words = [0, 0, 0, u64::from(callers)];
        match Table::new(alloc, &words, slots, &about) {
            Ok((table, seat)) => Ok((Lock { table }, seat)),
            Err(Refused { slots: _ }) => Err(AllocError),
        }
    }

    /// The new seat gets the greatest number that the old one holds besides its least and under which nothing was
    /// entered. Where there is none it is a note.
    pub fn split(&self, seat: &mut Seat<S>) -> Seat<S>
        requires seat { IsSeatOf S.state self.now seat.old }
        requires idle { IsIdle seat.old }
        ensures seats { IsSeatOf S.state self.now seat.new × IsSeatOf S.state self.now result }
        ensures idle { IsIdle seat.new × IsIdle result }
        ensures kept { holdings_of seat.new ≡ kept (holdings_of seat.old) }
        ensures handed { holdings_of result ≡ handed (holdings_of seat.old) }
        ensures number { number_of seat.new ≡ number_of seat.old }
        ensures own { own_moves seat.new ≡ own_moves seat.old }
        ensures not_empty { 1 ≤ length (holdings_of seat.old) → 1 ≤ length (holdings_of seat.new) }
        ensures alone { length (holdings_of seat.old) ≤ 1 → (holdings_of seat.new ≡ holdings_of seat.old) × (holdings_of result ≡ []) }
        ensures seen { (seen_by seat.new ≡ seen_by seat.old) × (seen_by result ≡ seen_by seat.old) }
    {
        self.table.shared.split_seat::<Share>(seat)
    }

    /// The seat takes in the numbers of the other, and has seen what either had.
    pub fn join(&self, seat: &mut Seat<S>, other: Seat<S>)
        requires seat { IsSeatOf S.state self.now seat.old }
        requires idle { IsIdle seat.old }
        requires other { IsSeatOf S.state self.now other }
        requires other_idle { IsIdle other }
        ensures seat { IsSeatOf S.state self.now seat.new }
        ensures idle { IsIdle seat.new }
        ensures numbers { holdings_of seat.new ≡ holdings_of seat.old ++ holdings_of other }
        ensures seen { StartsWith (seen_by seat.new) (seen_by seat.old) }
        ensures seen_other { StartsWith (seen_by seat.new) (seen_by other) }
        ensures listed { AreListed (seen_by seat.new) (holdings_of seat.new) }
        ensures no_more { (seen_by seat.new ≡ seen_by seat.old) ⊎ (seen_by seat.new ≡ seen_by other) }
    {
        let shared = &self.table.shared;
        shared.join_seat::<Both>(seat, other);
        shared.load::<Settle>(seat, TICKETS);
    }

    /// The state after the whole history, which is what the seat has seen.
    pub fn close(self, seat: Seat<S>) -> S
        requires seat { IsSeatOf S.state self seat }
        requires idle { IsIdle seat }
        requires all { HoldsAllBelow seat (callers_of self) }
        ensures state { S.state result ≡ state_after S.after (S.state (first_state self)) (seen_by seat) }
        ensures legal { IsLegal S.reply S.after (S.state (first_state self)) (seen_by seat) }
        ensures permitted { Permits S.may (seen_by seat) }
        ensures seats { IsOfSeatsBelow (callers_of self) (seen_by seat) }
        ensures listed { AreListed (seen_by seat) (holdings_of seat) }
    {
        let Lock { table } = self;
        let mut closed = table.close_with(seat);
        let slot = closed.take(STATE);
        closed.free();
        match slot {
            Slot::Home(state) => Box::into_inner(state),
            Slot::Noted(_) => unreachable!(),
            Slot::Out => unreachable!(),
        }
    }
}

impl<S: Machine + Drop> Turn<S> {
    ghost use Rattle.std.specs.Prelude.{true, false};
    ghost use Rattle.turn_cell.specs.Standings.{has_entered, has_ticket, has_turn, ticket_of};
    ghost use Rattle.turn_cell.specs.Rule.{Seizes};
    ghost use Rattle.turn_cell.specs.Seats.{callers_of, first_state, holdings_of, number_of, own_moves, seen_by, IsEntered, IsIdle, IsInTurn, IsSeatOf};

    /// Waits for the turn, and takes the state in hand. The seat has then seen the whole history.
    #[inline(always)]
    pub fn enter<R: Wait>(&self, rt: &R, seat: &mut Seat<S>) -> Held<S>
        requires seat { IsSeatOf S.state self.now seat.old }
        requires idle { IsIdle seat.old }
        requires number { 1 ≤ length (holdings_of seat.old) }
        requires room { length (own_moves seat.old) < 2 ^ 32 }
        ensures turn { IsInTurn S.state self.now seat.new }
        ensures numbers { holdings_of seat.new ≡ holdings_of seat.old }
        ensures seen { StartsWith (seen_by seat.new) (seen_by seat.old) }
        ensures state { S.state result ≡ state_after S.after (S.state (first_state self.now)) (seen_by seat.new) }
        ensures legal { IsLegal S.reply S.after (S.state (first_state self.now)) (seen_by seat.new) }
        ensures permitted { Permits S.may (seen_by seat.new) }
        ensures seats { IsOfSeatsBelow (callers_of self.now) (seen_by seat.new) }
        ensures listed { AreListed (seen_by seat.new) (holdings_of seat.new) }
    {
        let shared = &self.table.shared;
        let ticket = shared.fetch_add::<Draw>(seat, TICKETS, 1);
        self.wait_turn(rt, seat, ticket);
        match shared.exchange(seat, STATE, Slot::Out) {
            Slot::Home(state) => Held { state },
            Slot::Noted(_) => unreachable!(),
            Slot::Out => unreachable!(),
        }
    }

    // Looks until the ticket is served.
    fn wait_turn<R: Wait>(&self, rt: &R, seat: &mut Seat<S>, ticket: u64)
        requires seat { seat.old.table_id ≡ self.now.table.shared.table_id }
        requires waits { has_ticket seat.old.me.0.standing ≡ true }
        requires early { has_turn seat.old.me.0.standing ≡ false }
        requires ticket { ticket_of seat.old.me.0.standing ≡ ticket }
        ensures seat { seat.new.table_id ≡ seat.old.table_id }
        ensures turn { Seizes (λ x. S.state x.value) S.reply S.after S.may seat.old.me seat.new.me }
    {
        for _ in rt.forever() {
            if self.table.shared.load::<Look<S>>(seat, SERVING) == ticket {
                return;
            }
            thread::yield_now();
        }
        unreachable!()
    }

    /// The atomic step: the entry follows all that was entered before, and has the machine's reply there. The history
    /// and the seat's list under its number grow by this one move.
    #[inline(always)]
    pub fn append(&self, seat: &mut Seat<S>, held: &mut Held<S>, entry: S::Entry) -> S::Reply
        requires turn { IsInTurn S.state self.now seat.old }
        requires state { S.state held.old ≡ state_after S.after (S.state (first_state self.now)) (seen_by seat.old) }
        requires fits { S.fits (state_after S.after (S.state (first_state self.now)) (seen_by seat.old)) entry }
        requires may { S.may (number_of seat.old) (S.event entry) }
        ensures entered { IsEntered S.state self.now seat.new }
        ensures gives { S.gives (state_after S.after (S.state (first_state self.now)) (seen_by seat.old)) entry result }
        ensures reply { S.answer result ≡ S.reply (state_after S.after (S.state (first_state self.now)) (seen_by seat.old)) (S.event entry) }
        ensures seen { seen_by seat.new ≡ seen_by seat.old ++ move (number_of seat.old) (S.event entry) (S.answer result) ∷ [] }
        ensures numbers { holdings_of seat.new ≡ with_move (move (number_of seat.old) (S.event entry) (S.answer result)) (holdings_of seat.old) }
        ensures number { number_of seat.new ≡ number_of seat.old }
        ensures own { own_moves seat.new ≡ own_moves seat.old ++ move (number_of seat.old) (S.event entry) (S.answer result) ∷ [] }
        ensures state { S.state held.new ≡ state_after S.after (S.state (first_state self.now)) (seen_by seat.new) }
    {
        let note = Snapshot::of(&entry);
        let reply = held.state.act(entry);
        let shared = &self.table.shared;
        match shared.exchange(seat, STATE, Slot::Noted(note)) {
            Slot::Out => (),
            Slot::Home(_) => unreachable!(),
            Slot::Noted(_) => unreachable!(),
        }
        shared.fetch_add::<Make<S>>(seat, COUNT, 1);
        reply
    }

    /// Gives the state back, and passes the turn.
    pub fn leave(&self, seat: &mut Seat<S>, held: Held<S>)
        requires entered { IsEntered S.state self.now seat.old }
        requires state { S.state held ≡ state_after S.after (S.state (first_state self.now)) (seen_by seat.old) }
        ensures seat { IsSeatOf S.state self.now seat.new }
        ensures idle { IsIdle seat.new }
        ensures numbers { holdings_of seat.new ≡ holdings_of seat.old }
        ensures seen { seen_by seat.new ≡ seen_by seat.old }
    {
        let Held { state } = held;
        let shared = &self.table.shared;
        match shared.exchange(seat, STATE, Slot::Home(state)) {
            Slot::Noted(_) => (),
            Slot::Home(_) => unreachable!(),
            Slot::Out => unreachable!(),
        }
        shared.fetch_add::<PassTurn>(seat, SERVING, 1);
    }
}
