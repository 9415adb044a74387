//! The calls of a register with several desks.
ghost use Rattle.std.specs.Prelude.{◌≡◌, ◌≤◌, ◌<◌, ◌+◌, ◌^◌, [], length, vec_capacity, IfOk, Some};
ghost use Rattle.std.specs.Arc.{arc_value};

use crate::editions::Editions;
use crate::entry::{Entry, Reply};
use crate::outcome::{AddOnFault, Closed, Drawn, LookFault, UseFault};
use crate::register::{Over, Register, used};
use crate::start::Start;
use mib_model::{MadeFor, Rows};
use std::alloc::{AllocError, Global};
use std::snapshot::Snapshot;
use std::sync::{Arc, Wait};
use turn_cell::{Seat, Turn};

// The most desks of a register.
const MOST_DESKS: usize = 4;

impl<E: Rows + Drop, B: MadeFor + Drop> Register<E, B> {
    ghost use Rattle.std.specs.List.{AllByRecursion};
    ghost use Rattle.turn_cell.specs.Seats.{callers_of, first_state, holdings_of, number_of, own_moves, seen_by, HoldsAllBelow, IsIdle, IsSeatOf};
    ghost use Rattle.turn_cell.specs.Views.{holdings_below};
    ghost use Rattle.histories.specs.History.{StartsWith, Permits, IsOfSeatsBelow, moves_of};
    ghost use Rattle.run_model.specs.Register.{count_of_editions, opening};
    ghost use Rattle.run_model.specs.RegisterHistories.{IsRegisterHistory, MayEnter, register_after};
    ghost use Rattle.edition_register.specs.Panels.{AreDesksFrom, IsDeskSeat, ListFrom, ShowsAll};
    ghost use Rattle.edition_register.specs.Seats.{IsSeat, first_of, history_of};
    ghost use Rattle.edition_register.specs.Stored.{state_of};

    /// A register over edition 1, with the seats of the intake and of one to four desks in their order. Room is reserved
    /// for 64 editions and 16 pending activations.
    pub fn with_desks(
        alloc: Global,
        first: Arc<E>,
        desks: u8,
    ) -> Result<
        (
            Register<E, B>,
            Seat<Editions<E, B>>,
            Vec<Seat<Editions<E, B>>>,
        ),
        AllocError,
    >
        requires desks { (1 ≤ desks) × (desks ≤ 4) }
        ensures first { IfOk result (λ made. first_of made.0 ≡ E.tables (arc_value first)) }
        ensures intake { IfOk result (λ made. IsSeat 0 made.0 made.1 × (own_moves made.1 ≡ [])) }
        ensures desks { IfOk result (λ made. AreDesksFrom 1 made.0 made.2.items) }
        ensures unmoved { IfOk result (λ made. AllByRecursion (λ seat. own_moves seat ≡ []) made.2.items) }
        ensures count { IfOk result (λ made. length made.2.items ≡ desks) }
    {
        let editions = Editions::new(alloc, first)?;
        let mut seats = Vec::with_capacity(alloc, MOST_DESKS)?;
        let (turn, mut intake) = Turn::new(alloc, editions, desks + 1)?;
        let register = Over { turn };
        register.hand_out(desks, &mut intake, &mut seats);
        Ok((register, intake, seats))
    }

    // Hands the seats of all desks out, the last one first, into their order.
    fn hand_out(
        &self,
        desks: u8,
        intake: &mut Seat<Editions<E, B>>,
        seats: &mut Vec<Seat<Editions<E, B>>>,
    )
        requires opens { state_of (first_state self.now.turn) ≡ opening (first_of self.now) }
        requires callers { callers_of self.now.turn ≡ desks + 1 }
        requires some { (1 ≤ desks) × (desks ≤ 4) }
        requires seat { IsSeatOf state_of self.now.turn intake.old × IsIdle intake.old }
        requires holds { (holdings_of intake.old ≡ holdings_below (desks + 1)) × (seen_by intake.old ≡ []) }
        requires room { (4 ≤ vec_capacity seats.old) × (seats.old.items ≡ []) }
        ensures intake { IsSeat 0 self.now intake.new × (own_moves intake.new ≡ []) }
        ensures desks { AreDesksFrom 1 self.now seats.new.items }
        ensures unmoved { AllByRecursion (λ seat. own_moves seat ≡ []) seats.new.items }
        ensures count { length seats.new.items ≡ desks }
    {
        for _ in 0..desks {
            let desk = self.turn.split(intake);
            seats.push_reserved(desk);
        }
        seats.reverse();
    }

    /// Each of the two seats has then seen what either had.
    pub fn meet_desk(&self, intake: &mut Seat<Editions<E, B>>, desk: &mut Seat<Editions<E, B>>)
        requires intake { IsSeat 0 self.now intake.old }
        requires desk { IsDeskSeat (number_of desk.old) self.now desk.old }
        ensures seats { IsSeat 0 self.now intake.new × IsDeskSeat (number_of desk.old) self.now desk.new }
        ensures own { (own_moves intake.new ≡ own_moves intake.old) × (own_moves desk.new ≡ own_moves desk.old) }
        ensures intake { StartsWith (seen_by intake.new) (seen_by intake.old) × StartsWith (seen_by intake.new) (seen_by desk.old) }
        ensures desk { StartsWith (seen_by desk.new) (seen_by desk.old) × StartsWith (seen_by desk.new) (seen_by intake.old) }
    {
        let note = self.turn.split(desk);
        self.turn.join(intake, note);
        let note = self.turn.split(intake);
        self.turn.join(desk, note);
    }

    /// Ends a register, with the seats of all its desks. Its history is what all seats did.
    pub fn close_desks(
        self,
        intake: Seat<Editions<E, B>>,
        desks: Vec<Seat<Editions<E, B>>>,
    ) -> Closed<E, B>
        requires intake { IsSeat 0 self intake }
        requires desks { AreDesksFrom 1 self desks.items }
        ensures legal { IsRegisterHistory (first_of self) (history_of result) }
        ensures permitted { Permits MayEnter (history_of result) }
        ensures seats { IsOfSeatsBelow (length desks.items + 1) (history_of result) }
        ensures intake { moves_of 0 (history_of result) ≡ own_moves intake }
        ensures seen { StartsWith (history_of result) (seen_by intake) }
        ensures desks { ListFrom 1 (history_of result) desks.items }
        ensures next { result.next ≡ (register_after (first_of self) (history_of result)).next }
        ensures editions { result.editions ≡ count_of_editions (register_after (first_of self) (history_of result)) }
    {
        let mut seat = intake;
        let mut desks = desks;
        self.join_all(&mut seat, &mut desks);
        let Over { turn } = self;
        let told = Snapshot::of(&seat);
        let (next, editions) = turn.close(seat).end();
        Closed {
            next,
            editions,
            seat: told,
        }
    }

    // Joins the seats of all desks to that of the intake.
    fn join_all(&self, seat: &mut Seat<Editions<E, B>>, desks: &mut Vec<Seat<Editions<E, B>>>)
        requires seat { IsSeat 0 self.now seat.old }
        requires desks { AreDesksFrom 1 self.now desks.old.items }
        ensures seat { IsSeatOf state_of self.now.turn seat.new × IsIdle seat.new }
        ensures all { HoldsAllBelow seat.new (callers_of self.now.turn) }
        ensures callers { callers_of self.now.turn ≡ length desks.old.items + 1 }
        ensures shows { ShowsAll seat.old desks.old.items seat.new }
    {
        desks.reverse();
        while let Some(desk) = desks.pop() {
            self.turn.join(seat, desk);
        }
    }
}

impl<E: Rows + Drop, B: MadeFor + Drop> Register<E, B> {
    ghost use Rattle.turn_cell.specs.Seats.{callers_of, number_of, own_moves, seen_by};
    ghost use Rattle.histories.specs.History.{IsOfSeatsBelow};
    ghost use Rattle.run_model.specs.declared.register.Entry.TheVariants as event;
    ghost use Rattle.edition_register.specs.Panels.{AddsOn, Draws, IsDeskSeat, IsShown, Looks};
    ghost use Rattle.edition_register.specs.Seats.{UsesAt, first_of};

    /// Adds an edition where the base is the newest one, and gives its number.
    pub fn add_on<R: Wait>(
        &self,
        rt: &R,
        seat: &mut Seat<Editions<E, B>>,
        base: u32,
        payload: Arc<E>,
    ) -> Result<u32, AddOnFault<E>>
        requires seat { IsDeskSeat (number_of seat.old) self.now seat.old }
        requires room { length (own_moves seat.old) < 2 ^ 32 }
        ensures seat { IsDeskSeat (number_of seat.old) self.now seat.new }
        ensures adds { AddsOn (number_of seat.old) (first_of self.now) seat.old seat.new base (E.tables (arc_value payload)) (E.plans (arc_value payload)) payload result }
        ensures seats { IsOfSeatsBelow (callers_of self.now.turn) (seen_by seat.new) }
    {
        let mut held = self.turn.enter(rt, seat);
        let reply = self
            .turn
            .append(seat, &mut held, Entry::AddOn { base, payload });
        self.turn.leave(seat, held);
        match reply {
            Reply::Added { edition } => Ok(edition),
            Reply::Stale { newest, payload } => Err(AddOnFault::Stale {
                newer: newest,
                payload,
            }),
            Reply::FullEditions { payload } => Err(AddOnFault::Full { payload }),
            _ => unreachable!(),
        }
    }

    /// The newest edition. Memory alone may be wanting; the seat lists its move then too.
    pub fn newest<R: Wait>(
        &self,
        rt: &R,
        seat: &mut Seat<Editions<E, B>>,
    ) -> Result<Drawn<E>, AllocError>
        requires seat { IsDeskSeat (number_of seat.old) self.now seat.old }
        requires room { length (own_moves seat.old) < 2 ^ 32 }
        ensures seat { IsDeskSeat (number_of seat.old) self.now seat.new }
        ensures draws { Draws E.tables (number_of seat.old) (first_of self.now) seat.old seat.new result }
        ensures seats { IsOfSeatsBelow (callers_of self.now.turn) (seen_by seat.new) }
    {
        let mut held = self.turn.enter(rt, seat);
        let reply = self.turn.append(seat, &mut held, Entry::Newest);
        self.turn.leave(seat, held);
        match reply {
            Reply::Drawn {
                edition,
                tables: _,
                handle,
            } => match handle {
                Ok(handle) => Ok(Drawn { edition, handle }),
                Err(wanting) => Err(wanting),
            },
            _ => unreachable!(),
        }
    }

    /// A handle of an edition. Where memory is wanting the seat lists its move too.
    pub fn look<R: Wait>(
        &self,
        rt: &R,
        seat: &mut Seat<Editions<E, B>>,
        edition: u32,
    ) -> Result<Arc<E>, LookFault>
        requires seat { IsDeskSeat (number_of seat.old) self.now seat.old }
        requires room { length (own_moves seat.old) < 2 ^ 32 }
        ensures seat { IsDeskSeat (number_of seat.old) self.now seat.new }
        ensures looks { Looks E.tables (number_of seat.old) (first_of self.now) seat.old seat.new edition result }
        ensures seats { IsOfSeatsBelow (callers_of self.now.turn) (seen_by seat.new) }
    {
        let mut held = self.turn.enter(rt, seat);
        let reply = self.turn.append(seat, &mut held, Entry::Look { edition });
        self.turn.leave(seat, held);
        match reply {
            Reply::Drawn { handle, .. } => match handle {
                Ok(handle) => Ok(handle),
                Err(_) => Err(LookFault::Memory),
            },
            Reply::NoEdition { count, .. } => Err(LookFault::NoEdition { count }),
            _ => unreachable!(),
        }
    }

    /// Uses an edition that the seat's moves show from the next packet on, which it gives. What is pending is dropped.
    pub fn use_shown<R: Wait>(
        &self,
        rt: &R,
        seat: &mut Seat<Editions<E, B>>,
        edition: u32,
        start: Start<E, B>,
    ) -> Result<u64, UseFault<E, B>>
        requires seat { IsDeskSeat (number_of seat.old) self.now seat.old }
        requires room { length (own_moves seat.old) < 2 ^ 32 }
        requires start { IsShown E.tables B.made_for (first_of self.now) (own_moves seat.old) edition start }
        ensures seat { IsDeskSeat (number_of seat.old) self.now seat.new }
        ensures uses { UsesAt (number_of seat.old) (first_of self.now) seat.old seat.new (event.Use edition) (Some start) result }
        ensures seats { IsOfSeatsBelow (callers_of self.now.turn) (seen_by seat.new) }
    {
        let mut held = self.turn.enter(rt, seat);
        let entry = Entry::Use {
            edition,
            start: Some(start),
        };
        let reply = self.turn.append(seat, &mut held, entry);
        self.turn.leave(seat, held);
        used(reply)
    }

    /// Uses an edition that the seat's moves show from this packet on, which it gives.
    pub fn use_shown_from<R: Wait>(
        &self,
        rt: &R,
        seat: &mut Seat<Editions<E, B>>,
        edition: u32,
        from: u64,
        start: Start<E, B>,
    ) -> Result<u64, UseFault<E, B>>
        requires seat { IsDeskSeat (number_of seat.old) self.now seat.old }
        requires room { length (own_moves seat.old) < 2 ^ 32 }
        requires start { IsShown E.tables B.made_for (first_of self.now) (own_moves seat.old) edition start }
        ensures seat { IsDeskSeat (number_of seat.old) self.now seat.new }
        ensures uses { UsesAt (number_of seat.old) (first_of self.now) seat.old seat.new (event.UseFrom edition from) (Some start) result }
        ensures seats { IsOfSeatsBelow (callers_of self.now.turn) (seen_by seat.new) }
    {
        let mut held = self.turn.enter(rt, seat);
        let entry = Entry::UseFrom {
            edition,
            from,
            start: Some(start),
        };
        let reply = self.turn.append(seat, &mut held, entry);
        self.turn.leave(seat, held);
        used(reply)
    }
}
