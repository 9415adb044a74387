//! What a run needs.
ghost use Rattle.std.specs.Prelude.{◌≡◌, ◌≤◌, IfOk, vec_len};

use crate::parts::{Crew, Pipeline};
use commit_order::Window;
use decode_session::Home;
use edition_plans::Plans;
use packet_jobs::{Drawing, RecordRoom, Task};
use param_plan::Params;
use record_text::Lines;
use std::alloc::{AllocError, Global};
use struct_plan::Structures;
use work_queue::{Pass, Queue};

/// The most workers of a run.
pub const MOST_WORKERS: u8 = 16;

// How often a caller looks whether a worker has begun: for some seconds.
const PATIENCE: u32 = 1_000_000;

// The room of each queue, and of the window.
const QUEUE_ROOM: u32 = 64;

/// The most packets that are in work: as few as keep workers busy, since what one processor wrote is to lie in its cache still
/// when another reads it.
pub(crate) const MOST_AHEAD: u16 = 32;

// As many as one worker needs.
const FEW_AHEAD: u16 = 16;

// How many packets may be in work with so many workers, each in a room of its own.
fn rooms_for(workers: u8) -> u16 {
    if workers == 1 { FEW_AHEAD } else { MOST_AHEAD }
}

/// What a run needs, reserved before it begins: two queues with room for 64 packets each and for the passes of 16 workers, the window,
/// the room for records, and rooms for 32 packets, or for 16 with one worker, whose frames come from a region.
#[derive(Drop)]
pub struct Stock<P: Structures + Drop> {
    pub(crate) crew: Crew<P>,
    pub(crate) pipeline: Pipeline<P>,
    pub(crate) passes: Vec<Pass<Task<P>>>,
    home: Home,
}

impl<P: Plans + Drop> Stock<P> {
    ghost use Rattle.packet_run.specs.Stocks.{IsDealt, IsFresh, rooms_out, tools_of};

    /// What a run of so many workers needs, whose first edition has these parameters. An error is want of memory.
    pub fn new(alloc: Global, params: &Params, workers: u8) -> Result<Stock<P>, AllocError>
        ensures fresh { IfOk result (λ stock. IsFresh stock) }
        ensures home { IfOk result (λ stock. rooms_out stock ≡ 0) }
        ensures tools { IfOk result (λ stock. tools_of stock ≡ workers) }
    {
        let (jobs, first) = Queue::new(alloc, QUEUE_ROOM as usize)?;
        let (results, second) = Queue::new(alloc, QUEUE_ROOM as usize)?;
        let rooms = rooms_for(workers);
        let mut home = Home::with_rooms(alloc, rooms)?;
        let lines = Lines::new(alloc)?;
        Ok(Stock {
            crew: Crew {
                jobs,
                results,
                drawing: Drawing::new(alloc, params, workers)?,
                rooms,
            },
            pipeline: Pipeline {
                first,
                second,
                window: Window::new(alloc, QUEUE_ROOM)?,
                rooms: home.take_rooms(alloc, rooms, &lines)?,
                record: RecordRoom::new(alloc, lines)?,
                done: 0,
                read: 0,
                workers: 0,
                patience: PATIENCE,
            },
            passes: Vec::with_capacity(alloc, 2 * usize::from(MOST_WORKERS))?,
            home,
        })
    }

    // Splits two passes for each of so many workers.
    pub(crate) fn deal(&mut self, workers: u8)
        requires workers { workers ≤ MOST_WORKERS }
        requires fresh { IsFresh self.old }
        ensures dealt { IsDealt self.new workers }
        ensures home { vec_len self.new.pipeline.rooms ≡ vec_len self.old.pipeline.rooms }
    {
        self.pipeline.workers = workers;
        for _worker in 0..workers {
            let taken = self.crew.jobs.split(&mut self.pipeline.first);
            self.passes.push_reserved(taken);
            let given = self.crew.results.split(&mut self.pipeline.second);
            self.passes.push_reserved(given);
        }
    }
}
