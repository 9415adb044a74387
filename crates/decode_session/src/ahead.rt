// Packets that are drawn ahead.
ghost use Rattle.std.specs.Prelude.{◌≡◌, ◌<◌, ◌≤◌, ◌+◌, Option, List, ℕ, length, IfOk, IfSome, IsTrue, vec_len};
ghost use Rattle.std.specs.List.{All};
ghost use Rattle.decode_session.specs.Ahead.{AreDealt, AreJobs, BeginsWith, Come, IsJob, IsUnused, packets_from, packets_of};
ghost use Rattle.decode_session.specs.Finishing.{AreDemandsIn};
ghost use Rattle.decode_session.specs.Run.{most_packets};
ghost use Rattle.decode_session.specs.declared.ahead.TheConstants.{MOST_DEALT, MOST_JOBS};
ghost use Rattle.decode_session.specs.declared.alone.TheConstants.{AT_ONCE};
ghost use Rattle.mib_model.specs.declared.database.Database.{Database};
ghost use Rattle.packet_feed.specs.Feed.{source_of};

use crate::alone::AT_ONCE;
use crate::batch::MOST_PACKETS;
use crate::drawing::Drawing;
use crate::job::DrawingJob;
use decode_pool::run_batch;
use edition_plans::Plans;
use packet_feed::{Feed, packet_at};
use packet_sheets::DrawingTool;
use param_state::Demand;
use record_text::Lines;
use std::alloc::{AllocError, Global};
use std::sync::Mutex;
use std::thread::Threads;
use tm_io::Source;

// It pays to begin threads where so many octets are at hand and the next packet has so many, since a small one is printed in the time in
// which its sheet is drawn.
const MANY_OCTETS: usize = 16_384;

const LARGE_PACKET: usize = 64;

/// The jobs of a run by several workers.
const MOST_JOBS: usize = 30;

/// Their packets.
const MOST_DEALT: u64 = 1_920;

// Deals the packets that octets begin with, numbered from a number on, to all jobs but the first, so many, and tells the number behind them.
fn deal(number: u64, octets: &[u8], jobs: &mut [DrawingJob], idle: usize) -> u64
    requires some { 0 < length jobs.old }
    requires few { length jobs.old ≤ MOST_JOBS }
    requires low { number + MOST_DEALT ≤ most_packets }
    ensures length { length jobs.new ≡ length jobs.old }
    ensures jobs { (db : Database) → AreJobs db number jobs.new }
    ensures octets { BeginsWith (packets_of jobs.new) octets.now }
{
    let share = octets.len() / jobs.len().saturating_sub(idle).max(1);
    let mut idle_left = idle;
    let mut left = octets;
    let mut next = number;
    for job in jobs.iter_mut() {
        let part = if idle_left > 0 { 0 } else { share };
        idle_left = idle_left.saturating_sub(1);
        let taken = job.take(next, left, part);
        left = &left[taken..];
        next += job.stretch.len() as u64;
    }
    next
}

// Deals the packets that octets begin with, numbered from a number on, has them drawn, and tells the number behind them. The caller's own share is of
// idle jobs, since a thread often begins on the processor of the one that begins it, and would wait until that rests.
fn draw_jobs<P: Plans + Sync, R: Threads + Sync>(
    rt: &R,
    plans: &P,
    demands: &[Demand],
    tools: &[Mutex<DrawingTool>],
    number: u64,
    octets: &[u8],
    jobs: &mut [DrawingJob],
    workers: u8,
) -> u64
    requires workers { 1 ≤ workers }
    requires demands { AreDemandsIn (P.tables plans.now) demands.now }
    requires some { 0 < length jobs.old }
    requires few { length jobs.old ≤ MOST_JOBS }
    requires low { number + MOST_DEALT ≤ most_packets }
    ensures length { length jobs.new ≡ length jobs.old }
    ensures jobs { AreJobs (P.tables plans.now) number jobs.new }
    ensures octets { BeginsWith (packets_of jobs.new) octets.now }
{
    let threads = workers.saturating_add(1);
    let idle = jobs.len().div_ceil(usize::from(threads));
    let end = deal(number, octets, jobs, idle);
    let drawing = Drawing {
        plans,
        demands,
        tools,
    };
    run_batch(rt, &drawing, jobs, threads);
    end
}

/// Jobs, what they are drawn with, the first that may come next, and the number behind their packets.
#[derive(Drop)]
pub(crate) struct DrawnAhead {
    pub jobs: Vec<DrawingJob>,
    tools: Vec<Mutex<DrawingTool>>,
    next: usize,
    end: u64,
    ghost few: { vec_len jobs ≤ MOST_JOBS },
}

// How many jobs a run by so many workers has: none by one.
fn jobs_for(workers: u8) -> usize
    ensures { result ≤ MOST_JOBS }
{
    if workers == 1 { 0 } else { MOST_JOBS }
}

// So many jobs, whose sheets share the texts of small numbers. An error is want of memory.
fn new_jobs(alloc: Global, count: usize, lines: &Lines) -> Result<Vec<DrawingJob>, AllocError>
    ensures count { IfOk result (λ jobs. vec_len jobs ≡ count) }
    ensures unused { IfOk result (λ jobs. All IsUnused jobs.items) }
{
    let mut jobs = Vec::with_capacity(alloc, count)?;
    for _job in 0..count {
        jobs.push(DrawingJob::new(alloc, lines)?)?;
    }
    Ok(jobs)
}

// What so many threads draw with. An error is want of memory.
fn new_tools<P: Plans>(
    alloc: Global,
    plans: &P,
    count: usize,
) -> Result<Vec<Mutex<DrawingTool>>, AllocError> {
    let mut tools = Vec::with_capacity(alloc, count)?;
    for _tool in 0..count {
        tools.push(Mutex::new(DrawingTool::new(alloc, plans.params())?))?;
    }
    Ok(tools)
}

impl DrawnAhead {
    /// No packets, and room for those of so many workers: none for one, who draws none. An error is want of memory.
    pub fn new<P: Plans>(
        alloc: Global,
        plans: &P,
        workers: u8,
        lines: &Lines,
    ) -> Result<DrawnAhead, AllocError>
        ensures { IfOk result (λ ahead. All IsUnused ahead.jobs.items) }
    {
        let count = jobs_for(workers);
        Ok(DrawnAhead {
            jobs: new_jobs(alloc, count, lines)?,
            tools: new_tools(alloc, plans, count.min(usize::from(workers)))?,
            next: 0,
            end: 0,
        })
    }

    // Whether it pays to begin threads for the packets that octets begin with, of which the first has this number.
    fn is_due(&self, number: u64, octets: &[u8]) -> bool
        ensures some { IsTrue result → 0 < vec_len self.now.jobs }
        ensures low { IsTrue result → number + MOST_DEALT ≤ most_packets }
    {
        !self.jobs.is_empty()
            && number >= self.end
            && number <= MOST_PACKETS - MOST_DEALT
            && octets.len() >= MANY_OCTETS
            && matches!(packet_at(octets), Some(packet) if packet.len() >= LARGE_PACKET)
    }

    /// Draws the packets that are at hand, from the one of this number on, where none is left and there are many octets of them.
    pub fn draw<P: Plans + Sync, S: Source, R: Threads + Sync>(
        &mut self,
        rt: &R,
        plans: &P,
        demands: &[Demand],
        number: u64,
        feed: &Feed<S>,
        workers: u8,
    )
        requires workers { 1 ≤ workers }
        requires demands { AreDemandsIn (P.tables plans.now) demands.now }
        requires dealt { AreDealt (P.tables plans.now) number self.old.jobs.items }
        ensures dealt { AreDealt (P.tables plans.now) number self.new.jobs.items }
        ensures come { let left = S.left (source_of feed.now) in
            Come (packets_from number self.old.jobs.items) left → Come (packets_from number self.new.jobs.items) left }
    {
        let octets = feed.at_hand();
        if !self.is_due(number, octets) {
            return;
        }
        self.end = draw_jobs(
            rt,
            plans,
            demands,
            &self.tools,
            number,
            octets,
            &mut self.jobs,
            workers,
        );
        self.next = 0;
    }

    /// Passes the jobs before this number, and those of which nothing is drawn.
    pub fn pass(&mut self, number: u64)
        ensures { self.new.jobs ≡ self.old.jobs }
    {
        while self.next < self.jobs.len()
            && (self.jobs[self.next].drawn == 0 || self.jobs[self.next].number < number)
        {
            self.next += 1;
        }
    }

    /// The job whose packets come next, from the one of this number on, where some of them are drawn.
    pub fn job(&self, number: u64) -> Option<&DrawingJob>
        ensures number { IfSome result (λ job. job.now.number ≡ number) }
        ensures some { IfSome result (λ job. 0 < job.now.drawn) }
        ensures job { (db : Database) → AreDealt db number self.now.jobs.items → IfSome result (λ job. IsJob db job.now) }
        ensures come { (db : Database) (left : Option (List ℕ)) → AreDealt db number self.now.jobs.items → Come (packets_from number self.now.jobs.items) left
            → IfSome result (λ job. Come job.now.stretch.packets left) }
    {
        if self.next >= self.jobs.len() {
            return None;
        }
        let job = &self.jobs[self.next];
        if job.number == number && job.drawn > 0 {
            Some(job)
        } else {
            None
        }
    }

    /// The number up to which packets are read one by one: that of the next job, or so many behind this number as are written at once.
    pub fn until(&self, number: u64) -> u64
        requires { number ≤ most_packets }
        ensures some { number < result }
        ensures few { result ≤ number + AT_ONCE }
    {
        if self.next < self.jobs.len() {
            self.jobs[self.next]
                .number
                .max(number + 1)
                .min(number + AT_ONCE)
        } else {
            number + AT_ONCE
        }
    }
}
