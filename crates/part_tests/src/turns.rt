// A sum that callers add to in turn.
ghost use Rattle.std.specs.Prelude.{◌≡◌, ℕ, ◌+◌, ◌^◌, ◌<◌, ◌≤◌, length};
ghost use Rattle.turn_cell.specs.Views.{times};
ghost use Rattle.turn_cell.specs.Seats.{callers_of, holdings_of, number_of, own_moves, IsIdle, IsSeatOf};

use std::mem::size_of;
use std::sync::Wait;
use std::test::Fail;
use std::thread;
use std::thread::Threads;
use turn_cell::{Held, Machine, Seat, Sum, Turn};

// One turn.
fn take_turn<S: Machine + Drop, R: Wait>(
    rt: &R,
    turn: &Turn<S>,
    seat: &mut Seat<S>,
    entry: S::Entry,
) -> S::Reply
    requires seat { IsSeatOf S.state turn.now seat.old }
    requires idle { IsIdle seat.old }
    requires number { 1 ≤ length (holdings_of seat.old) }
    requires room { length (own_moves seat.old) < 2 ^ 32 }
    requires fits { (state : _) → S.fits state entry }
    requires may { S.may (number_of seat.old) (S.event entry) }
    ensures seat { IsSeatOf S.state turn.now seat.new }
    ensures idle { IsIdle seat.new }
    ensures number { length (holdings_of seat.new) ≡ length (holdings_of seat.old) }
    ensures numbers { (n : ℕ) → times n (holdings_of seat.new) ≡ times n (holdings_of seat.old) }
    ensures own { length (own_moves seat.new) ≡ length (own_moves seat.old) + 1 }
{
    let mut held = turn.enter(rt, seat);
    let reply = turn.append(seat, &mut held, entry);
    turn.leave(seat, held);
    reply
}

// So many turns.
fn add<R: Wait>(rt: &R, turn: &Turn<Sum>, mut seat: Seat<Sum>, amount: u64, turns: u32) -> Seat<Sum>
    requires seat { IsSeatOf (λ sum. sum.total) turn.now seat }
    requires idle { IsIdle seat }
    requires number { 1 ≤ length (holdings_of seat) }
    requires room { length (own_moves seat) + turns ≤ 2 ^ 32 }
    ensures seat { IsSeatOf (λ sum. sum.total) turn.now result }
    ensures idle { IsIdle result }
    ensures numbers { (n : ℕ) → times n (holdings_of result) ≡ times n (holdings_of seat) }
{
    for _turn in 0..turns {
        take_turn(rt, turn, &mut seat, amount);
    }
    seat
}

// Joins two seats that hold all numbers, and closes.
fn total(turn: Turn<Sum>, mut seat: Seat<Sum>, other: Seat<Sum>) -> u64
    requires seat { IsSeatOf (λ sum. sum.total) turn seat }
    requires idle { IsIdle seat }
    requires other { IsSeatOf (λ sum. sum.total) turn other }
    requires other_idle { IsIdle other }
    requires all { (n : ℕ) → n < callers_of turn → times n (holdings_of seat) + times n (holdings_of other) ≡ 1 }
{
    turn.join(&mut seat, other);
    let Sum { total } = turn.close(seat);
    total
}

// So many turns of one seat beside those of another.
fn add_at_once<R: Threads + Wait + Sync>(
    rt: &R,
    turn: &Turn<Sum>,
    one: Seat<Sum>,
    two: Seat<Sum>,
    turns: u32,
) -> (Seat<Sum>, Seat<Sum>)
    requires seat { IsSeatOf (λ sum. sum.total) turn.now one × IsSeatOf (λ sum. sum.total) turn.now two }
    requires idle { IsIdle one × IsIdle two }
    requires number { (1 ≤ length (holdings_of one)) × (1 ≤ length (holdings_of two)) }
    requires room { (length (own_moves one) + turns ≤ 2 ^ 32) × (length (own_moves two) + turns ≤ 2 ^ 32) }
    ensures seats { IsSeatOf (λ sum. sum.total) turn.now result.0 × IsSeatOf (λ sum. sum.total) turn.now result.1 }
    ensures idle { IsIdle result.0 × IsIdle result.1 }
    ensures one { (n : ℕ) → times n (holdings_of result.0) ≡ times n (holdings_of one) }
    ensures two { (n : ℕ) → times n (holdings_of result.1) ≡ times n (holdings_of two) }
{
    thread::join(
        rt,
        move || -> Seat<Sum>
            requires seat { IsSeatOf (λ sum. sum.total) turn.now one }
            requires idle { IsIdle one }
            requires number { 1 ≤ length (holdings_of one) }
            requires room { length (own_moves one) + turns ≤ 2 ^ 32 }
            ensures seat { IsSeatOf (λ sum. sum.total) turn.entry.now result }
            ensures idle { IsIdle result }
            ensures numbers { (n : ℕ) → times n (holdings_of result) ≡ times n (holdings_of one) }
        { add(rt, turn, one, 1, turns) },
        move || -> Seat<Sum>
            requires seat { IsSeatOf (λ sum. sum.total) turn.now two }
            requires idle { IsIdle two }
            requires number { 1 ≤ length (holdings_of two) }
            requires room { length (own_moves two) + turns ≤ 2 ^ 32 }
            ensures seat { IsSeatOf (λ sum. sum.total) turn.entry.now result }
            ensures idle { IsIdle result }
            ensures numbers { (n : ℕ) → times n (holdings_of result) ≡ times n (holdings_of two) }
        { add(rt, turn, two, 3, turns) },
    )
}

#[test]
fn two_threads_close_to_the_exact_sum(rt: HostRuntime) -> Result<(), Fail> {
    let (turn, mut one) = Turn::new(rt.alloc(), Sum { total: 5 }, 2)?;
    let two = turn.split(&mut one);
    let (one, two) = add_at_once(&rt, &turn, one, two, 1000);
    assert_eq!(rt; total(turn, one, two), 4005);
    Ok(())
}

#[test]
fn nothing_of_the_history_is_stored(rt: HostRuntime) {
    assert_eq!(rt; size_of::<Seat<Sum>>(), 0);
    assert_eq!(rt; size_of::<Held<Sum>>(), size_of::<Sum>());
}
