// An intake and a desk on two threads.
ghost use Rattle.std.specs.Prelude.{◌≡◌, ◌≤◌, ◌<◌, ◌+◌, ◌^◌, ◌∷◌, true, [], length};
ghost use Rattle.mib_model.specs.Database.{no_rows};
ghost use Rattle.turn_cell.specs.Seats.{own_moves};
ghost use Rattle.edition_register.specs.Seats.{IsSeat, first_of, shown_in};

use edition_register::{Editions, Register, Start};
use mib_model::{MadeFor, Rows};
use std::alloc::{AllocError, Global};
use std::sync::{Arc, Wait};
use std::test::Fail;
use std::thread;
use std::thread::Threads;
use turn_cell::Seat;

const PACKETS: u32 = 10_000;

const USES: u32 = 100;

// An edition without tables.
#[derive(Drop)]
struct Bare {
    _letter: u8,
}

impl Rows for Bare {
    ghost tables = { λ edition. no_rows };

    ghost plans = { λ edition. [] };
}

// A board that serves all tables.
#[derive(Drop)]
struct Blank;

impl MadeFor for Blank {
    ghost made_for = { λ tables board. true };
}

fn plain_edition(alloc: Global, letter: u8) -> Result<Arc<Bare>, AllocError> {
    Ok(Arc::new(alloc, Bare { _letter: letter })?)
}

// What the intake saw of a packet: its edition, and whether an activation begins with it.
#[derive(Clone, Copy, Drop)]
struct Seen {
    edition: u32,
    begins: bool,
}

// What the desk was told of an activation.
#[derive(Clone, Copy, Drop)]
struct Told {
    edition: u32,
    from: u64,
}

// Stamps all packets, and gives what was seen of them.
fn stamp_each<R: Wait>(
    rt: &R,
    alloc: Global,
    register: &Register<Bare, Blank>,
    seat: &mut Seat<Editions<Bare, Blank>>,
) -> Result<Vec<Seen>, AllocError>
    requires seat { IsSeat 0 register.now seat.old }
    requires own { own_moves seat.old ≡ [] }
    ensures seat { IsSeat 0 register.now seat.new }
{
    let mut seen = Vec::new(alloc);
    for _packet in 0..PACKETS {
        let stamp = register.stamp(rt, seat);
        seen.push(Seen {
            edition: stamp.edition,
            begins: stamp.start.is_some(),
        })?;
    }
    Ok(seen)
}

// Uses one of three editions from the next packet on.
fn use_edition<R: Wait>(
    rt: &R,
    register: &Register<Bare, Blank>,
    seat: &mut Seat<Editions<Bare, Blank>>,
    edition: u32,
    handle: Arc<Bare>,
) -> Result<Told, AllocError>
    requires seat { IsSeat 1 register.now seat.old }
    requires room { length (own_moves seat.old) < 2 ^ 32 }
    requires shown { shown_in (first_of register.now) (own_moves seat.old) ≡ no_rows ∷ no_rows ∷ no_rows ∷ [] }
    requires edition { (1 ≤ edition) × (edition ≤ 3) }
    ensures seat { IsSeat 1 register.now seat.new }
    ensures own { length (own_moves seat.new) ≡ length (own_moves seat.old) + 1 }
    ensures shown { shown_in (first_of register.now) (own_moves seat.new) ≡ no_rows ∷ no_rows ∷ no_rows ∷ [] }
{
    let start = Start {
        handle,
        board: Blank,
    };
    match register.use_now(rt, seat, edition, Some(start)) {
        Ok(from) => Ok(Told { edition, from }),
        Err(_) => Err(AllocError),
    }
}

// Uses the second and the third of three editions in turn, and gives what was told.
fn use_in_turn<R: Wait>(
    rt: &R,
    alloc: Global,
    register: &Register<Bare, Blank>,
    seat: &mut Seat<Editions<Bare, Blank>>,
    payload: &Arc<Bare>,
) -> Result<Vec<Told>, AllocError>
    requires seat { IsSeat 1 register.now seat.old }
    requires room { length (own_moves seat.old) ≤ 2 }
    requires shown { shown_in (first_of register.now) (own_moves seat.old) ≡ no_rows ∷ no_rows ∷ no_rows ∷ [] }
    ensures seat { IsSeat 1 register.now seat.new }
{
    let mut told = Vec::new(alloc);
    for turn in 0..USES {
        let handle = Arc::try_clone(payload)?;
        told.push(use_edition(rt, register, seat, 2 + turn % 2, handle)?)?;
    }
    Ok(told)
}

// Adds two editions and uses them in turn.
fn add_and_use<R: Wait>(
    rt: &R,
    alloc: Global,
    register: &Register<Bare, Blank>,
    seat: &mut Seat<Editions<Bare, Blank>>,
) -> Result<Vec<Told>, AllocError>
    requires seat { IsSeat 1 register.now seat.old }
    requires own { own_moves seat.old ≡ [] }
    requires first { first_of register.now ≡ no_rows }
    ensures seat { IsSeat 1 register.now seat.new }
{
    let payload = plain_edition(alloc, b'B')?;
    let second = Arc::try_clone(&payload)?;
    let third = Arc::try_clone(&payload)?;
    if register.add(rt, seat, second).is_err() || register.add(rt, seat, third).is_err() {
        return Err(AllocError);
    }
    use_in_turn(rt, alloc, register, seat, &payload)
}

type Side<T> = (Seat<Editions<Bare, Blank>>, Result<Vec<T>, AllocError>);

fn intake_side<R: Wait>(
    rt: &R,
    alloc: Global,
    register: &Register<Bare, Blank>,
    mut seat: Seat<Editions<Bare, Blank>>,
) -> Side<Seen>
    requires seat { IsSeat 0 register.now seat }
    requires own { own_moves seat ≡ [] }
    ensures seat { IsSeat 0 register.now result.0 }
{
    let seen = stamp_each(rt, alloc, register, &mut seat);
    (seat, seen)
}

fn desk_side<R: Wait>(
    rt: &R,
    alloc: Global,
    register: &Register<Bare, Blank>,
    mut seat: Seat<Editions<Bare, Blank>>,
) -> Side<Told>
    requires seat { IsSeat 1 register.now seat }
    requires own { own_moves seat ≡ [] }
    requires first { first_of register.now ≡ no_rows }
    ensures seat { IsSeat 1 register.now result.0 }
{
    let told = add_and_use(rt, alloc, register, &mut seat);
    (seat, told)
}

// Both sides, each on its thread.
fn both<R: Threads + Wait + Sync>(
    rt: &R,
    alloc: Global,
    register: &Register<Bare, Blank>,
    intake: Seat<Editions<Bare, Blank>>,
    desk: Seat<Editions<Bare, Blank>>,
) -> (Side<Seen>, Side<Told>)
    requires intake { IsSeat 0 register.now intake × (own_moves intake ≡ []) }
    requires desk { IsSeat 1 register.now desk × (own_moves desk ≡ []) }
    requires first { first_of register.now ≡ no_rows }
    ensures seats { IsSeat 0 register.now result.0.0 × IsSeat 1 register.now result.1.0 }
{
    thread::join(
        rt,
        move || -> Side<Seen>
            requires seat { IsSeat 0 register.now intake }
            requires own { own_moves intake ≡ [] }
            ensures seat { IsSeat 0 register.entry.now result.0 }
        { intake_side(rt, alloc, register, intake) },
        move || -> Side<Told>
            requires seat { IsSeat 1 register.now desk }
            requires own { own_moves desk ≡ [] }
            requires first { first_of register.now ≡ no_rows }
            ensures seat { IsSeat 1 register.entry.now result.0 }
        { desk_side(rt, alloc, register, desk) },
    )
}

// The edition of a packet by what the desk was told: that of the last activation from it or an earlier packet on.
fn edition_at(told: &[Told], number: u64) -> u32 {
    let mut edition = 1;
    for activation in told {
        if activation.from <= number {
            edition = activation.edition;
        }
    }
    edition
}

// Whether an activation begins with a packet.
fn begins_at(told: &[Told], number: u64) -> bool {
    told.iter().any(|activation| activation.from == number)
}

#[test]
fn stamps_agree_with_the_activations_of_another_thread(rt: HostRuntime) -> Result<(), Fail> {
    let first = plain_edition(rt.alloc(), b'A')?;
    let (register, intake, desk) = Register::<Bare, Blank>::new(rt.alloc(), first)?;
    let ((mut intake, seen), (mut desk, told)) = both(&rt, rt.alloc(), &register, intake, desk);
    register.meet(&mut intake, &mut desk);
    let closed = register.close(intake, desk);
    assert_eq!(rt; closed.next, PACKETS as u64 + 1);
    assert_eq!(rt; closed.editions, 3);
    let told = told?;
    for (number, packet) in (1..).zip(seen?.iter()) {
        assert_eq!(rt;
            packet.edition,
            edition_at(&told, number),
            "packet {number}"
        );
        assert_eq!(rt; packet.begins, begins_at(&told, number), "packet {number}");
    }
    Ok(())
}
