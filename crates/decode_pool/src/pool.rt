ghost use Rattle.std.specs.Prelude.{◌≡◌, ◌<◌, ◌*◌, ℕ, length};
ghost use Rattle.std.specs.Thread.{IsSync};
ghost use Rattle.std.specs.Fork.{slice_chunk, IsChunk};
ghost use Rattle.work_queue.specs.Accounts.{with_put};
ghost use Rattle.work_queue.specs.Passes.{account_of, IsOf};
ghost use Rattle.decode_pool.specs.Served.{Serves, Ready, AllServe};

use crate::Work;
use std::sync::Wait;
use std::thread;
use std::thread::Threads;
use tm_io::Gate;
use work_queue::{Numbered, Pass, Queue};

/// Workers between a queue of jobs and a queue of results.
#[derive(Clone, Copy, Debug)]
pub struct Pool;

impl Pool {
    /// Runs one worker for each two members of `passes`, a pass of the jobs and a pass of the results. A worker gets a cell,
    /// calls the gate with its number, works it and puts it among the results; where that queue is full it tries again, and
    /// while no cell is there it rests. It works by the place of its two passes: 0 for the first two, 1 for the next.
    /// A cell of number 0 ends the worker that gets it, and no result is put for it. May wait.
    pub fn serve<W: Work + Sync, G: Gate + Sync, R: Threads + Wait + Sync>(
        rt: &R,
        work: &W,
        gate: &G,
        jobs: &Queue<W::Cell>,
        results: &Queue<W::Cell>,
        passes: &mut [Pass<W::Cell>],
    )
        requires ready { Ready jobs.now results.now passes.old }
        ensures length { length passes.new ≡ length passes.old }
        ensures ready { Ready jobs.now results.now passes.new }
        ensures serves { AllServe jobs.now results.now (W.made work.now) W.Cell.number_of passes.old passes.new }
    {
        serve_pairs(rt, work, gate, jobs, results, passes);
    }
}

// Runs one worker for each two members of `passes`.
fn serve_pairs<W: Work + Sync, G: Gate + Sync, R: Threads + Wait + Sync>(
    rt: &R,
    work: &W,
    gate: &G,
    jobs: &Queue<W::Cell>,
    results: &Queue<W::Cell>,
    passes: &mut [Pass<W::Cell>],
)
    requires ready { (start : ℕ) (pair : _) → IsChunk passes.old 2 start pair → (length pair ≡ 2) × Ready jobs.now results.now pair }
    ensures length { length passes.new ≡ length passes.old }
    ensures serves { (n : ℕ) → n * 2 < length passes.old
        → AllServe jobs.now results.now (W.made work.now) W.Cell.number_of (slice_chunk passes.old 2 n) (slice_chunk passes.new 2 n) }
{
    let one = |start: usize, pair: &mut [Pass<W::Cell>]|
        requires { IsSync R.row × (length pair.now ≡ 2) × Ready jobs.now results.now pair.now }
        ensures { AllServe jobs.entry.now results.entry.now (W.made work.entry.now) W.Cell.number_of pair.entry.now pair.exit.now }
    { work_pair(rt, work, start / 2, gate, jobs, results, pair) };
    thread::for_each_chunk_mut(rt, passes, 2, &one);
}

// One worker with its place and its two passes.
fn work_pair<W: Work + Sync, G: Gate + Sync, R: Wait>(
    rt: &R,
    work: &W,
    worker: usize,
    gate: &G,
    jobs: &Queue<W::Cell>,
    results: &Queue<W::Cell>,
    pair: &mut [Pass<W::Cell>],
)
    requires length { length pair.old ≡ 2 }
    requires ready { Ready jobs.now results.now pair.old }
    ensures serves { AllServe jobs.now results.now (W.made work.now) W.Cell.number_of pair.old pair.new }
{
    let (taken, given) = pair.split_at_mut(1);
    work_all(
        rt,
        work,
        worker,
        gate,
        jobs,
        results,
        &mut taken[0],
        &mut given[0],
    );
}

// Works one cell after another, until a cell of number 0 comes.
fn work_all<W: Work + Sync, G: Gate + Sync, R: Wait>(
    rt: &R,
    work: &W,
    worker: usize,
    gate: &G,
    jobs: &Queue<W::Cell>,
    results: &Queue<W::Cell>,
    taken: &mut Pass<W::Cell>,
    given: &mut Pass<W::Cell>,
)
    requires taken { IsOf jobs.now taken.old }
    requires given { IsOf results.now given.old }
    ensures passes { IsOf jobs.now taken.new × IsOf results.now given.new }
    ensures serves { Serves (W.made work.now) W.Cell.number_of (account_of taken.old) (account_of given.old) (account_of taken.new) (account_of given.new) }
{
    for _ in rt.forever() {
        let mut cell = jobs.wait_for_job(rt, taken);
        let number = cell.number();
        if number == 0 {
            return;
        }
        gate.before(number);
        work.work_by(worker, &mut cell);
        put_until(rt, results, given, cell);
    }
    unreachable!()
}

// Puts a result, again while the queue is full.
fn put_until<J: Numbered + Drop, R: Wait>(rt: &R, queue: &Queue<J>, pass: &mut Pass<J>, job: J)
    requires { IsOf queue.now pass.old }
    ensures pass { IsOf queue.now pass.new }
    ensures put { account_of pass.new ≡ with_put (account_of pass.old) job }
{
    let mut left = job;
    for _ in rt.forever() {
        match queue.put(rt, pass, left) {
            Ok(()) => return,
            Err(back) => left = back,
        }
        thread::yield_now();
    }
    unreachable!()
}
