// Workers of cells.
ghost use Rattle.std.specs.Prelude.{◌≡◌, ◌<◌, ◌≤◌, ◌+◌, ◌*◌, IfOk, ◌%◌};
ghost use Rattle.std.specs.Thread.{IsSync};
ghost use Rattle.work_queue.specs.Passes.{IsOf, account_of};
ghost use Rattle.decode_pool.specs.Served.{Ready};

use decode_pool::{Pool, Work, run_batch};
use std::alloc::{AllocError, Global};
use std::sync::Wait;
use std::sync::atomic::{AtomicBool, AtomicU64, Ordering};
use std::test::Fail;
use std::thread;
use std::thread::Threads;
use std::time::{Clock, Duration};
use tm_io::Gate;
use work_queue::{Numbered, Pass, Queue};

const CELLS: u64 = 10_000;

#[derive(Clone, Copy)]
struct NumberedCell {
    number: u64,
    value: u64,
}

impl Numbered for NumberedCell {
    ghost number_of = { λ cell. cell.number };

    fn number(&self) -> u64 {
        self.number
    }
}

struct Tripled;

impl Work for Tripled {
    type Cell = NumberedCell;

    ghost made = { λ _ before after. after.number ≡ before.number };

    fn work(&self, cell: &mut NumberedCell) {
        cell.value = cell.value.wrapping_mul(3).wrapping_add(cell.number);
    }
}

// Counts its calls, and adds up their numbers.
#[derive(Drop)]
struct Counts {
    calls: AtomicU64,
    sum: AtomicU64,
}

impl Gate for Counts {
    fn before(&self, n: u64) {
        self.calls.fetch_add(1, Ordering::SeqCst);
        self.sum.fetch_add(n, Ordering::SeqCst);
    }
}

pub(crate) const COUPLED: u64 = 40;

// How often a cell looks for the one behind it.
const TURNS: u32 = 1_000_000;

// An odd cell waits until the even one behind it was called, so each two are inside the gate at once.
#[derive(Drop)]
pub(crate) struct Couples {
    called: Vec<AtomicBool>,
    pub calls: AtomicU64,
    pub is_late: AtomicBool,
}

impl Couples {
    pub fn new(alloc: Global) -> Result<Couples, AllocError> {
        let mut called = Vec::new(alloc);
        for _ in 0..COUPLED + 1 {
            called.push(AtomicBool::new(false))?;
        }
        Ok(Couples {
            called,
            calls: AtomicU64::new(0),
            is_late: AtomicBool::new(false),
        })
    }

    fn wait_for(&self, partner: &AtomicBool) {
        for _ in 0..TURNS {
            if partner.load(Ordering::SeqCst) {
                return;
            }
            thread::yield_now();
        }
        self.is_late.store(true, Ordering::SeqCst);
    }
}

impl Gate for Couples {
    fn before(&self, n: u64) {
        self.calls.fetch_add(1, Ordering::SeqCst);
        let mut from_here = self.called.iter().skip(n as usize);
        if let Some(own) = from_here.next() {
            own.store(true, Ordering::SeqCst);
        }
        if n % 2 == 1 {
            if let Some(partner) = from_here.next() {
                self.wait_for(partner);
            }
        }
    }
}

fn cell_of(number: u64) -> NumberedCell
    ensures { result.number ≡ number }
{
    NumberedCell {
        number,
        value: number.wrapping_mul(7),
    }
}

// What one loop makes of a cell.
fn expected(number: u64) -> u64 {
    let mut one = cell_of(number);
    Tripled.work(&mut one);
    one.value
}

fn put_until(
    rt: &impl Wait,
    queue: &Queue<NumberedCell>,
    pass: &mut Pass<NumberedCell>,
    job: NumberedCell,
)
    requires { IsOf queue.now pass.old }
    ensures { IsOf queue.now pass.new }
{
    for _ in rt.forever() {
        if queue.put(rt, pass, job).is_ok() {
            return;
        }
        thread::yield_now();
    }
}

// Puts so many cells with a pause before each, and an end for each worker.
fn feed<R: Wait + Clock>(
    rt: &R,
    jobs: &Queue<NumberedCell>,
    mut pass: Pass<NumberedCell>,
    load: Load,
)
    requires { IsOf jobs.now pass }
{
    for number in 1..load.cells + 1 {
        if let Some(pause) = load.pause {
            thread::sleep(rt, pause);
        }
        put_until(rt, jobs, &mut pass, cell_of(number));
    }
    for _ in 0..load.workers {
        put_until(rt, jobs, &mut pass, cell_of(0));
    }
}

// Takes as many results as there are cells, and counts those that are right and new.
fn collect(
    rt: &impl Wait,
    results: &Queue<NumberedCell>,
    mut pass: Pass<NumberedCell>,
    cells: u64,
) -> u64
    requires { IsOf results.now pass }
{
    let mut seen = [false; 10_000];
    let mut right = 0u64;
    let mut left = cells;
    for _ in rt.forever() {
        if left == 0 {
            return right;
        }
        match results.get(rt, &mut pass) {
            None => thread::yield_now(),
            Some(result) => {
                left -= 1;
                let place = (result.number % CELLS) as usize;
                if !seen[place] && result.value == expected(result.number) {
                    right = right.saturating_add(1);
                }
                seen[place] = true;
            }
        }
    }
    right
}

// What a pool is to do: with a pause before each cell its workers fall asleep.
#[derive(Clone, Copy)]
struct Load {
    cells: u64,
    pause: Option<Duration>,
    workers: u64,
    ghost few: { workers < 100 },
    ghost small: { cells < 100_000 },
}

// Two passes for each worker.
fn passes_of(
    alloc: Global,
    jobs: &Queue<NumberedCell>,
    first: &mut Pass<NumberedCell>,
    results: &Queue<NumberedCell>,
    second: &mut Pass<NumberedCell>,
    workers: u64,
) -> Result<Vec<Pass<NumberedCell>>, AllocError>
    requires few { workers < 100 }
    requires jobs { IsOf jobs.now first.old × (200 ≤ (account_of first.old).shares) }
    requires results { IsOf results.now second.old × (200 ≤ (account_of second.old).shares) }
    ensures passes { IsOf jobs.now first.new × IsOf results.now second.new }
    ensures ready { IfOk result (λ passes. Ready jobs.now results.now passes.items) }
{
    let mut passes = Vec::new(alloc);
    for _ in 0..workers {
        passes.push(jobs.split(first))?;
        passes.push(results.split(second))?;
    }
    Ok(passes)
}

// The pool, with all its passes.
fn serve<G: Gate + Sync, R: Threads + Wait + Sync>(
    rt: &R,
    gate: &G,
    jobs: &Queue<NumberedCell>,
    results: &Queue<NumberedCell>,
    passes: Vec<Pass<NumberedCell>>,
)
    requires { Ready jobs.now results.now passes.items }
{
    let mut passes = passes;
    Pool::serve(rt, &Tripled, gate, jobs, results, passes.as_mut_slice());
}

// Feeds the pool and collects what it gives.
fn run<G: Gate + Sync, R: Threads + Wait + Clock + Sync>(
    rt: &R,
    alloc: Global,
    gate: &G,
    load: Load,
) -> Result<u64, AllocError> {
    let (jobs, mut first) = Queue::new(alloc, 8)?;
    let (results, mut second) = Queue::new(alloc, 8)?;
    let passes = passes_of(
        alloc,
        &jobs,
        &mut first,
        &results,
        &mut second,
        load.workers,
    )?;
    let jobs = &jobs;
    let results = &results;
    let pool = move || -> ()
        requires { IsSync R.row × Ready jobs.now results.now passes.items }
    { serve(rt, gate, jobs, results, passes) };
    let ends = move || -> u64
        requires { IsSync R.row × (IsOf jobs.now first × IsOf results.now second) }
    { feed_and_collect(rt, jobs, first, results, second, load) };
    Ok(thread::join(rt, pool, ends).1)
}

fn feed_and_collect<R: Threads + Wait + Clock + Sync>(
    rt: &R,
    jobs: &Queue<NumberedCell>,
    first: Pass<NumberedCell>,
    results: &Queue<NumberedCell>,
    second: Pass<NumberedCell>,
    load: Load,
) -> u64
    requires { IsOf jobs.now first × IsOf results.now second }
{
    let feeds = move || -> ()
        requires { IsSync R.row × IsOf jobs.now first }
    { feed(rt, jobs, first, load) };
    let collects = move || -> u64
        requires { IsSync R.row × IsOf results.now second }
    { collect(rt, results, second, load.cells) };
    thread::join(rt, feeds, collects).1
}

#[test]
fn any_number_of_workers_gives_what_one_loop_gives(rt: HostRuntime) -> Result<(), Fail> {
    for workers in [1, 2, 4, 16] {
        let gate = Counts {
            calls: AtomicU64::new(0),
            sum: AtomicU64::new(0),
        };
        assert!(rt; workers < 100);
        let load = Load {
            cells: CELLS,
            pause: None,
            workers,
        };
        assert_eq!(rt;
            run(&rt, rt.alloc(), &gate, load)?,
            CELLS,
            "{workers} workers"
        );
        assert_eq!(rt;
            gate.calls.load(Ordering::SeqCst),
            CELLS,
            "{workers} workers"
        );
        assert_eq!(rt;
            gate.sum.load(Ordering::SeqCst),
            CELLS * (CELLS + 1) / 2,
            "{workers} workers"
        );
    }
    Ok(())
}

#[test]
fn two_workers_are_inside_the_gate_at_once(rt: HostRuntime) -> Result<(), Fail> {
    let gate = Couples::new(rt.alloc())?;
    let load = Load {
        cells: COUPLED,
        pause: None,
        workers: 2,
    };
    assert_eq!(rt; run(&rt, rt.alloc(), &gate, load)?, COUPLED);
    assert_eq!(rt; gate.calls.load(Ordering::SeqCst), COUPLED);
    assert!(rt; !gate.is_late.load(Ordering::SeqCst));
    Ok(())
}

#[test]
fn workers_that_sleep_are_woken(rt: HostRuntime) -> Result<(), Fail> {
    let gate = Counts {
        calls: AtomicU64::new(0),
        sum: AtomicU64::new(0),
    };
    let load = Load {
        cells: 10,
        pause: Some(Duration::from_millis(20)),
        workers: 4,
    };
    assert_eq!(rt; run(&rt, rt.alloc(), &gate, load)?, 10);
    assert_eq!(rt; gate.calls.load(Ordering::SeqCst), 10);
    Ok(())
}

#[test]
fn a_batch_is_worked_by_any_number_of_workers(rt: HostRuntime) -> Result<(), Fail> {
    for workers in [1, 3, 16, 255] {
        let mut cells = Vec::new(rt.alloc());
        for number in 0..1000 {
            cells.push(cell_of(number))?;
        }
        assert!(rt; workers > 0);
        run_batch(&rt, &Tripled, cells.as_mut_slice(), workers);
        for one in &cells {
            assert_eq!(rt; one.value, expected(one.number), "{workers} workers");
        }
    }
    Ok(())
}
