//! The register, over a turn.
ghost use Rattle.std.specs.Prelude.{◌≡◌, ◌≤◌, ◌<◌, ◌+◌, ◌^◌, ◌++◌, ℕ, [], ◌∷◌, length, IfOk};
ghost use Rattle.std.specs.Arc.{arc_value};
ghost use Rattle.edition_register.specs.Seats.{IsUsed};
ghost use Rattle.edition_register.specs.Stored.{GivesUse};

use crate::editions::Editions;
use crate::entry::{Entry, Reply};
use crate::outcome::{AddFault, Closed, Stamp, UseFault};
use crate::start::Start;
use mib_model::{MadeFor, Rows};
use std::alloc::{AllocError, Global};
use std::snapshot::Snapshot;
use std::sync::{Arc, Wait};
use turn_cell::{Seat, Turn};

/// A register over its turn. Only as `Register` has it calls.
#[derive(Drop)]
pub struct Over<T> {
    pub(crate) turn: T,
}

/// A register of editions that an intake and a desk share, each with its seat. It waits for its turn in `stamp`, `add`,
/// `use_now` and `use_from`, and takes memory in `new` alone.
pub type Register<E, B> = Over<Turn<Editions<E, B>>>;

// The callers: the intake with the number 0 and the desk with the number 1.
const CALLERS: u8 = 2;

impl<E: Rows + Drop, B: MadeFor + Drop> Register<E, B> {
    ghost use Rattle.turn_cell.specs.Seats.{callers_of, first_state, own_moves, seen_by, IsIdle, IsSeatOf};
    ghost use Rattle.histories.specs.History.{StartsWith, Permits, IsOfSeatsBelow, moves_of};
    ghost use Rattle.run_model.specs.declared.register.Entry.TheVariants as event;
    ghost use Rattle.run_model.specs.Register.{count_of_editions};
    ghost use Rattle.run_model.specs.RegisterHistories.{IsRegisterHistory, MayEnter, register_after};
    ghost use Rattle.edition_register.specs.Seats.{Adds, IsSeat, Stamps, StartFits, Uses, first_of, history_of, shown_in};

    /// A register over edition 1, with the seats of the intake and the desk. Room is reserved for 64 editions and 16
    /// pending activations.
    pub fn new(
        alloc: Global,
        first: Arc<E>,
    ) -> Result<(Register<E, B>, Seat<Editions<E, B>>, Seat<Editions<E, B>>), AllocError>
        ensures first { IfOk result (λ made. first_of made.0 ≡ E.tables (arc_value first)) }
        ensures intake { IfOk result (λ made. IsSeat 0 made.0 made.1 × (own_moves made.1 ≡ [])) }
        ensures desk { IfOk result (λ made. IsSeat 1 made.0 made.2 × (own_moves made.2 ≡ [])) }
    {
        let editions = Editions::new(alloc, first)?;
        let (turn, mut intake) = Turn::new(alloc, editions, CALLERS)?;
        let desk = turn.split(&mut intake);
        Ok((Over { turn }, intake, desk))
    }

    /// Stamps the next packet.
    pub fn stamp<R: Wait>(&self, rt: &R, seat: &mut Seat<Editions<E, B>>) -> Stamp<E, B>
        requires seat { IsSeat 0 self.now seat.old }
        requires room { length (own_moves seat.old) < 1000000000 }
        ensures seat { IsSeat 0 self.now seat.new }
        ensures stamps { Stamps E.tables B.made_for (first_of self.now) seat.old seat.new result.number result.edition result.start }
        ensures seats { IsOfSeatsBelow (callers_of self.now.turn) (seen_by seat.new) }
    {
        let mut held = self.turn.enter(rt, seat);
        let reply = self.turn.append(seat, &mut held, Entry::Stamp);
        self.turn.leave(seat, held);
        match reply {
            Reply::Stamped {
                number,
                edition,
                tables: _,
                start,
            } => Stamp {
                number,
                edition,
                start,
            },
            _ => unreachable!(),
        }
    }

    /// Adds an edition, and gives its number.
    pub fn add<R: Wait>(
        &self,
        rt: &R,
        seat: &mut Seat<Editions<E, B>>,
        payload: Arc<E>,
    ) -> Result<u32, AddFault<E>>
        requires seat { IsSeat 1 self.now seat.old }
        requires room { length (own_moves seat.old) < 2 ^ 32 }
        ensures seat { IsSeat 1 self.now seat.new }
        ensures adds { Adds (first_of self.now) seat.old seat.new (E.tables (arc_value payload)) (E.plans (arc_value payload)) payload result }
        ensures seats { IsOfSeatsBelow (callers_of self.now.turn) (seen_by seat.new) }
    {
        let mut held = self.turn.enter(rt, seat);
        let reply = self.turn.append(seat, &mut held, Entry::Add(payload));
        self.turn.leave(seat, held);
        match reply {
            Reply::Added { edition } => Ok(edition),
            Reply::FullEditions { payload } => Err(AddFault::Full { payload }),
            _ => unreachable!(),
        }
    }

    /// Uses an edition from the next packet on, which it gives. What is pending is dropped. The one refusal is `NoEdition`.
    pub fn use_now<R: Wait>(
        &self,
        rt: &R,
        seat: &mut Seat<Editions<E, B>>,
        edition: u32,
        start: Option<Start<E, B>>,
    ) -> Result<u64, UseFault<E, B>>
        requires seat { IsSeat 1 self.now seat.old }
        requires room { length (own_moves seat.old) < 2 ^ 32 }
        requires start { StartFits E.tables B.made_for (shown_in (first_of self.now) (own_moves seat.old)) edition start }
        ensures seat { IsSeat 1 self.now seat.new }
        ensures uses { Uses (first_of self.now) seat.old seat.new (event.Use edition) start result }
        ensures seats { IsOfSeatsBelow (callers_of self.now.turn) (seen_by seat.new) }
    {
        let mut held = self.turn.enter(rt, seat);
        let entry = Entry::Use { edition, start };
        let reply = self.turn.append(seat, &mut held, entry);
        self.turn.leave(seat, held);
        used(reply)
    }

    /// Uses an edition from this packet on, which it gives.
    pub fn use_from<R: Wait>(
        &self,
        rt: &R,
        seat: &mut Seat<Editions<E, B>>,
        edition: u32,
        from: u64,
        start: Option<Start<E, B>>,
    ) -> Result<u64, UseFault<E, B>>
        requires seat { IsSeat 1 self.now seat.old }
        requires room { length (own_moves seat.old) < 2 ^ 32 }
        requires start { StartFits E.tables B.made_for (shown_in (first_of self.now) (own_moves seat.old)) edition start }
        ensures seat { IsSeat 1 self.now seat.new }
        ensures uses { Uses (first_of self.now) seat.old seat.new (event.UseFrom edition from) start result }
        ensures seats { IsOfSeatsBelow (callers_of self.now.turn) (seen_by seat.new) }
    {
        let mut held = self.turn.enter(rt, seat);
        let entry = Entry::UseFrom {
            edition,
            from,
            start,
        };
        let reply = self.turn.append(seat, &mut held, entry);
        self.turn.leave(seat, held);
        used(reply)
    }

    /// Each seat has then seen what either had.
    pub fn meet(&self, intake: &mut Seat<Editions<E, B>>, desk: &mut Seat<Editions<E, B>>)
        requires intake { IsSeat 0 self.now intake.old }
        requires desk { IsSeat 1 self.now desk.old }
        ensures seats { IsSeat 0 self.now intake.new × IsSeat 1 self.now desk.new }
        ensures own { (own_moves intake.new ≡ own_moves intake.old) × (own_moves desk.new ≡ own_moves desk.old) }
        ensures intake { StartsWith (seen_by intake.new) (seen_by intake.old) × StartsWith (seen_by intake.new) (seen_by desk.old) }
        ensures desk { StartsWith (seen_by desk.new) (seen_by desk.old) × StartsWith (seen_by desk.new) (seen_by intake.old) }
    {
        let note = self.turn.split(desk);
        self.turn.join(intake, note);
        let note = self.turn.split(intake);
        self.turn.join(desk, note);
    }

    /// Ends the register. Its history is what the two seats did.
    pub fn close(self, intake: Seat<Editions<E, B>>, desk: Seat<Editions<E, B>>) -> Closed<E, B>
        requires intake { IsSeat 0 self intake }
        requires desk { IsSeat 1 self desk }
        ensures legal { IsRegisterHistory (first_of self) (history_of result) }
        ensures permitted { Permits MayEnter (history_of result) }
        ensures seats { IsOfSeatsBelow 2 (history_of result) }
        ensures intake { moves_of 0 (history_of result) ≡ own_moves intake }
        ensures desk { moves_of 1 (history_of result) ≡ own_moves desk }
        ensures seen { StartsWith (history_of result) (seen_by intake) × StartsWith (history_of result) (seen_by desk) }
        ensures next { result.next ≡ (register_after (first_of self) (history_of result)).next }
        ensures editions { result.editions ≡ count_of_editions (register_after (first_of self) (history_of result)) }
    {
        let Over { turn } = self;
        let mut seat = intake;
        turn.join(&mut seat, desk);
        let told = Snapshot::of(&seat);
        let (next, editions) = turn.close(seat).end();
        Closed {
            next,
            editions,
            seat: told,
        }
    }
}

// What an activation's reply says.
pub(crate) fn used<E: Drop, B: Drop>(reply: Reply<E, B>) -> Result<u64, UseFault<E, B>>
    requires { (start : _) × GivesUse start reply }
    ensures { IsUsed reply result }
{
    match reply {
        Reply::Used { from } => Ok(from),
        Reply::NoEdition { count, start } => Err(UseFault::NoEdition { count, start }),
        Reply::Late { next, start } => Err(UseFault::Late { next, start }),
        Reply::Disorder { last, start } => Err(UseFault::Disorder { last, start }),
        Reply::FullPending { start } => Err(UseFault::Full { start }),
        _ => unreachable!(),
    }
}
