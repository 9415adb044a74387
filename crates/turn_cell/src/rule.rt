//! The rule of the table, and its kinds of step.
ghost use Rattle.std.specs.Prelude.{◌≡◌};
ghost use Rattle.atomic_table.specs.Table.{rest};
ghost use Rattle.turn_cell.specs.Views.{newcomer, drawn, idle, split_left, split_right, joined, spent};
ghost use Rattle.turn_cell.specs.Rule.{Kept, Looks, Makes, Settles};

use crate::machine::Machine;
use crate::slot::Slot;
use crate::view::View;
use atomic_table::{Join, Play, Split, TableRule};
use std::marker::PhantomData;
use std::snapshot::Snapshot;

/// What the table is told once: the state that the history begins with, and how many callers there are.
#[derive(Drop)]
pub struct About<S> {
    pub state: Snapshot<S>,
    pub callers: u8,
}

/// The rule. It names each type of the machine, so that a turn may cross threads.
pub struct Orderly<S, R> {
    machine: PhantomData<(S, R)>,
}

impl<S: Machine> TableRule<
    Slot<Box<S>, Snapshot<S::Entry>>,
    View<S::State, S::Event, S::Answer>,
    About<S>,
> for Orderly<S, S::Reply> {
    ghost holds = { λ about. Kept (λ x. S.state x.value) S.reply S.after S.may (record { state = S.state about.state.value; callers = about.callers }) };

    ghost first = { λ about. newcomer (record { state = S.state about.state.value; callers = about.callers }) };
}

/// Draws a ticket.
pub struct Draw;

impl<S, C, E, A> Play<S, View<C, E, A>> for Draw {
    ghost then = { λ st m found n. n ≡ (drawn m.0 found, m.1) };
}

/// Looks at the ticket that is served, and takes the slot where it is the seat's.
pub struct Look<S> {
    machine: PhantomData<S>,
}

impl<S: Machine> Play<Slot<Box<S>, Snapshot<S::Entry>>, View<S::State, S::Event, S::Answer>>
    for Look<S> {
    ghost then = { λ st m found n. Looks (λ x. S.state x.value) S.reply S.after S.may m found n };
}

/// Makes the entry that the slot has a note of.
pub struct Make<S> {
    machine: PhantomData<S>,
}

impl<S: Machine> Play<Slot<Box<S>, Snapshot<S::Entry>>, View<S::State, S::Event, S::Answer>>
    for Make<S> {
    ghost then = { λ st m found n. Makes S.reply S.after (λ x. S.event x.value) m n };
}

/// Passes the turn, and gives the slot back.
pub struct PassTurn;

impl<S, C, E, A> Play<S, View<C, E, A>> for PassTurn {
    ghost then = { λ st m found n. n ≡ (idle m.0, rest m.1) };
}

/// Splits a seat.
pub struct Share;

impl<C, E, A> Split<View<C, E, A>> for Share {
    ghost left = { λ v. split_left v };

    ghost right = { λ v. split_right v };
}

/// Joins a seat to another.
pub struct Both;

impl<C, E, A> Join<View<C, E, A>> for Both {
    ghost both = { λ v w. joined v w };

    ghost spent = { spent };
}

/// Tells after a join that the seat has seen what either had seen.
pub struct Settle;

impl<S, C, E, A> Play<S, View<C, E, A>> for Settle {
    ghost then = { λ st m found n. Settles m n };
}
