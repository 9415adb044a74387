// The queue and its passes.
ghost use Rattle.std.specs.Prelude.{◌≡◌, ◌<◌, ◌++◌, ℕ, List, IfOk, IfErr, IfNone, MatchResult, MatchOption, IsPermutation};
ghost use Rattle.crossbeam_queue.specs.Passes.{view};

use crate::account::Account;
use crate::rule::{Cut, Even, Gets, Puts};
use crossbeam_queue::RuledArrayQueue;
use crossbeam_utils::Backoff;
use crossbeam_utils::sync::EventCount;
use std::alloc::{AllocError, Global};
use std::sync::Wait;

// How often a thread looks for a job before it sleeps: so often that few sleep while a run is busy, and `put` has few to
// wake.
const LOOKS: u32 = 1_000;

/// A job with a number.
pub trait Numbered {
    /// Its number.
    ghost number_of: { Self → ℕ };

    fn number(&self) -> u64
        ensures { result ≡ number_of self.now };
}

/// The right to use a queue. It lists, as contracts see them, the jobs that were put and got with it.
#[derive(Drop)]
pub struct Pass<J> {
    ruled: crossbeam_queue::Pass<J, Account<J>>,
    // A slice of values without an octet gets no proof.
    octet: u8,
    ghost has_share: { 0 < (view ruled).shares },
}

/// A queue with room for a fixed number of jobs, for any number of threads that put and get.
#[derive(Drop)]
pub struct Queue<J: Numbered + Drop> {
    ring: RuledArrayQueue<J, Account<J>, Even>,
    // Rung where a job was put, for those that sleep in `wait_for_job`.
    bell: EventCount,
}

impl<J: Numbered + Drop> Queue<J> {
    ghost use Rattle.work_queue.specs.Accounts.{whole, one_share, one_share_less, joined, with_put, with_got, IsWhole, MayHoldSome};
    ghost use Rattle.work_queue.specs.Passes.{room_of, account_of, IsOf};

    /// An empty queue with room for so many jobs, and the pass that all others are split from.
    pub fn new(alloc: Global, room: usize) -> Result<(Queue<J>, Pass<J>), AllocError>
        requires { 0 < room }
        ensures room { IfOk result (λ made. room_of made.0 ≡ room) }
        ensures pass { IfOk result (λ made. IsOf made.0 made.1) }
        ensures account { IfOk result (λ made. account_of made.1 ≡ whole) }
    {
        let (ring, ruled) = RuledArrayQueue::ruled(alloc, room)?;
        let queue = Queue {
            ring,
            bell: EventCount::new(),
        };
        Ok((queue, Pass { ruled, octet: 0 }))
    }

    /// A new pass, which gets one of the shares.
    pub fn split(&self, pass: &mut Pass<J>) -> Pass<J>
        requires pass { IsOf self.now pass.old }
        requires shares { 1 < (account_of pass.old).shares }
        ensures passes { IsOf self.now pass.new × IsOf self.now result }
        ensures old { account_of pass.new ≡ one_share_less (account_of pass.old) }
        ensures new { account_of result ≡ one_share }
    {
        Pass {
            ruled: self.ring.another::<Cut>(&mut pass.ruled),
            octet: 0,
        }
    }

    /// Puts a job at the end, and wakes a thread that sleeps in `wait_for_job`. The job comes back only where the queue was
    /// full at some moment of the call. May wait.
    pub fn put<R: Wait>(&self, rt: &R, pass: &mut Pass<J>, job: J) -> Result<(), J>
        requires pass { IsOf self.now pass.old }
        ensures pass { IsOf self.now pass.new }
        ensures put { MatchResult result (λ _. account_of pass.new ≡ with_put (account_of pass.old) job)
            (λ back. (back ≡ job) × (account_of pass.new ≡ account_of pass.old)) }

        // Full is what the pass can know of it: where it is whole, what was put and not got fills the room.
        ensures full { IfErr result (λ _. MayHoldSome (account_of pass.old) (room_of self.now)) }
    {
        let put = self.ring.push_as::<Puts, R>(rt, &mut pass.ruled, job);
        if put.is_ok() {
            self.bell.notify_one();
        }
        put
    }

    /// Gets the first job. None comes only where the queue was empty at some moment of the call. May wait.
    pub fn get<R: Wait>(&self, rt: &R, pass: &mut Pass<J>) -> Option<J>
        requires pass { IsOf self.now pass.old }
        ensures pass { IsOf self.now pass.new }
        ensures got { MatchOption result (account_of pass.new ≡ account_of pass.old) (λ job. account_of pass.new ≡ with_got (account_of pass.old) job) }
        ensures empty { IfNone result (MayHoldSome (account_of pass.old) 0) }
    {
        self.ring.pop_as::<Gets, R>(rt, &mut pass.ruled)
    }

    /// Gets the first job, and waits until there is one: it looks for a while, and then sleeps until a job is put.
    pub fn wait_for_job<R: Wait>(&self, rt: &R, pass: &mut Pass<J>) -> J
        requires pass { IsOf self.now pass.old }
        ensures pass { IsOf self.now pass.new }
        ensures got { account_of pass.new ≡ with_got (account_of pass.old) result }
    {
        for _ in rt.forever() {
            if let Some(job) = self.look_for_job(rt, pass) {
                return job;
            }

            // A job that is put from here on ends the sleep, or is there at the next look.
            let announced = self.bell.prepare_wait();
            if let Some(job) = self.get(rt, pass) {
                return job;
            }
            announced.wait(rt);
        }
        unreachable!()
    }

    // Looks for a job so often, and lets other threads run in between.
    fn look_for_job<R: Wait>(&self, rt: &R, pass: &mut Pass<J>) -> Option<J>
        requires pass { IsOf self.now pass.old }
        ensures pass { IsOf self.now pass.new }
        ensures got { MatchOption result (account_of pass.new ≡ account_of pass.old) (λ job. account_of pass.new ≡ with_got (account_of pass.old) job) }
    {
        let backoff = Backoff::new();
        for _ in 0..LOOKS {
            if let Some(job) = self.get(rt, pass) {
                return Some(job);
            }
            backoff.snooze();
        }
        None
    }

    /// Joins another pass into this one. Once all are joined, what was got and what is left are what was put.
    pub fn join(&self, pass: &mut Pass<J>, other: Pass<J>)
        requires pass { IsOf self.now pass.old }
        requires other { IsOf self.now other }
        ensures pass { IsOf self.now pass.new }
        ensures account { account_of pass.new ≡ joined (account_of pass.old) (account_of other) }
        ensures balance { IsWhole (account_of pass.new) → (left : List J) × IsPermutation (account_of pass.new).put ((account_of pass.new).got ++ left) }
    {
        let Pass { ruled, octet: _ } = other;
        self.ring.absorb::<Cut>(&mut pass.ruled, ruled);
        self.ring.learn_as::<Gets>(&mut pass.ruled);
    }
}
