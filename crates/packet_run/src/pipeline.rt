// The caller's side of a run, and what it shares with the workers.
ghost use Rattle.std.specs.Prelude.{◌≡◌, ◌++◌, ◌∷◌, [], ◌<◌, ◌^◌};
ghost use Rattle.commit_order.specs.Windows.{Advances, next_of};
ghost use Rattle.packet_run.specs.Piping.{Held, Keeps, Stays, put_by};
ghost use Rattle.work_queue.specs.Passes.{IsOf};

use crate::parts::{Crew, Pipeline};
use commit_order::{Placed, Window};
use decode_session::Room;
use edition_plans::Plans;
use packet_jobs::Task;
use std::sync::Wait;
use std::thread;
use struct_plan::Structures;
use work_queue::Numbered;

/// Keeps the room of a task.
pub(crate) fn free<P: Structures + Drop>(rooms: &mut Vec<Room>, task: Task<P>) {
    if let Task::Packet(job) = task {
        keep_room(rooms, job.cell.into_room());
    }
}

/// Keeps a room. There is a place for each room of a run.
pub(crate) fn keep_room(rooms: &mut Vec<Room>, room: Room) {
    if rooms.len() < rooms.capacity() {
        rooms.push_reserved(room);
    }
}

// Keeps a result for its turn. One that has none is let go.
fn hold<P: Structures + Drop>(window: &mut Window<Task<P>>, rooms: &mut Vec<Room>, task: Task<P>)
    ensures { Held window.old window.new task }
{
    match window.place(task.number(), task) {
        Placed::Kept => (),
        Placed::Stranger { result: stranger } => free(rooms, stranger),
    }
}

// Takes one job back, where there is one: the caller does it when its turn comes.
fn help<P: Plans + Drop, R: Wait>(rt: &R, crew: &Crew<P>, pipeline: &mut Pipeline<P>)
    requires first { IsOf crew.now.jobs pipeline.old.first }
    ensures first { IsOf crew.now.jobs pipeline.new.first }
    ensures second { pipeline.new.second ≡ pipeline.old.second }
    ensures put { put_by pipeline.new ≡ put_by pipeline.old }
    ensures stays { Stays pipeline.old pipeline.new }
    ensures keeps { Keeps P.tables pipeline.old pipeline.new }
{
    match crew.jobs.get(rt, &mut pipeline.first) {
        None => thread::yield_now(),
        Some(task) => {
            if task.number() != 0 {
                hold(&mut pipeline.window, &mut pipeline.rooms, task);
            }
        }
    }
}

/// Puts a job. While the queue is full it takes others back.
pub(crate) fn offer<P: Plans + Drop, R: Wait>(
    rt: &R,
    crew: &Crew<P>,
    pipeline: &mut Pipeline<P>,
    task: Task<P>,
)
    requires first { IsOf crew.now.jobs pipeline.old.first }
    ensures first { IsOf crew.now.jobs pipeline.new.first }
    ensures second { pipeline.new.second ≡ pipeline.old.second }
    ensures put { put_by pipeline.new ≡ put_by pipeline.old ++ task ∷ [] }
    ensures stays { Stays pipeline.old pipeline.new }
    ensures keeps { Keeps P.tables pipeline.old pipeline.new }
{
    let mut left = task;
    for _ in rt.forever() {
        match crew.jobs.put(rt, &mut pipeline.first, left) {
            Ok(()) => return,
            Err(back) => left = back,
        }
        help(rt, crew, pipeline);
    }
    unreachable!()
}

// Looks for a result while no worker has begun, and takes a job back where none comes for long.
fn look<P: Plans + Drop, R: Wait>(rt: &R, crew: &Crew<P>, pipeline: &mut Pipeline<P>)
    requires first { IsOf crew.now.jobs pipeline.old.first }
    requires second { IsOf crew.now.results pipeline.old.second }
    ensures first { IsOf crew.now.jobs pipeline.new.first }
    ensures second { IsOf crew.now.results pipeline.new.second }
    ensures put { put_by pipeline.new ≡ put_by pipeline.old }
    ensures stays { Stays pipeline.old pipeline.new }
    ensures keeps { Keeps P.tables pipeline.old pipeline.new }
{
    for _ in 0..pipeline.patience {
        if crew.drawing.has_begun() {
            return;
        }
        thread::yield_now();
    }
    pipeline.patience = 0;
    help(rt, crew, pipeline);
}

/// Gets one result, and keeps it for its turn. Where no worker comes it takes a job back.
#[inline(never)]
pub(crate) fn collect<P: Plans + Drop, R: Wait>(rt: &R, crew: &Crew<P>, pipeline: &mut Pipeline<P>)
    requires first { IsOf crew.now.jobs pipeline.old.first }
    requires second { IsOf crew.now.results pipeline.old.second }
    ensures first { IsOf crew.now.jobs pipeline.new.first }
    ensures second { IsOf crew.now.results pipeline.new.second }
    ensures put { put_by pipeline.new ≡ put_by pipeline.old }
    ensures stays { Stays pipeline.old pipeline.new }
    ensures keeps { Keeps P.tables pipeline.old pipeline.new }
{
    if !crew.drawing.has_begun() {
        look(rt, crew, pipeline);
        return;
    }
    let task = crew.results.wait_for_job(rt, &mut pipeline.second);
    hold(&mut pipeline.window, &mut pipeline.rooms, task);
}

/// Passes by the number of a packet that no worker gets.
pub(crate) fn pass_by<P: Plans + Drop>(pipeline: &mut Pipeline<P>)
    requires number { next_of pipeline.old.window < 2 ^ 64 }
    ensures first { pipeline.new.first ≡ pipeline.old.first }
    ensures second { pipeline.new.second ≡ pipeline.old.second }
    ensures counts { (pipeline.new.done ≡ pipeline.old.done) }
    ensures read { (pipeline.new.read ≡ pipeline.old.read) }
    ensures advances { Advances pipeline.old.window pipeline.new.window }
{
    match pipeline.window.take_next() {
        Some(task) => free(&mut pipeline.rooms, task),
        None => pipeline.window.pass_by(),
    }
}
