// Jobs between producers and consumers.
ghost use Rattle.std.specs.Thread.{IsSync};
ghost use Rattle.work_queue.specs.Passes.{IsOf};

use std::sync::Wait;
use std::test::Fail;
use std::thread;
use std::thread::Threads;
use work_queue::{Numbered, Pass, Queue};

#[derive(Drop)]
struct Job {
    number: u64,
}

impl Numbered for Job {
    ghost number_of = { λ job. job.number };

    fn number(&self) -> u64 {
        self.number
    }
}

// Puts a job, again while the queue is full.
fn put_until(rt: &impl Wait, queue: &Queue<Job>, pass: &mut Pass<Job>, number: u64)
    requires { IsOf queue.now pass.old }
    ensures { IsOf queue.now pass.new }
{
    let mut job = Job { number };
    for _ in rt.forever() {
        match queue.put(rt, pass, job) {
            Ok(()) => return,
            Err(back) => job = back,
        }
        thread::yield_now();
    }
}

// Puts the numbers of a range, and then a job of number 0.
fn produce(rt: &impl Wait, queue: &Queue<Job>, mut pass: Pass<Job>, from: u64, end: u64)
    requires { IsOf queue.now pass }
{
    for number in from..end {
        put_until(rt, queue, &mut pass, number);
    }
    put_until(rt, queue, &mut pass, 0);
}

// Gets jobs until one of number 0, and marks each of the others.
fn consume(rt: &impl Wait, queue: &Queue<Job>, mut pass: Pass<Job>) -> [u8; 2000]
    requires { IsOf queue.now pass }
{
    let mut seen = [0u8; 2000];
    for _ in rt.forever() {
        match queue.get(rt, &mut pass) {
            None => thread::yield_now(),
            Some(job) if job.number == 0 => return seen,
            Some(job) => {
                let place = (job.number % 2000) as usize;
                seen[place] = seen[place].saturating_add(1);
            }
        }
    }
    seen
}

// Two producers beside each other.
fn produce_twice<R: Threads + Wait + Sync>(
    rt: &R,
    queue: &Queue<Job>,
    one: Pass<Job>,
    other: Pass<Job>,
)
    requires { IsOf queue.now one × IsOf queue.now other }
{
    let first = move || -> ()
        requires { IsSync R.row × IsOf queue.now one }
    { produce(rt, queue, one, 1, 1000) };
    let second = move || -> ()
        requires { IsSync R.row × IsOf queue.now other }
    { produce(rt, queue, other, 1000, 2000) };
    thread::join(rt, first, second);
}

// Two consumers beside each other.
fn consume_twice<R: Threads + Wait + Sync>(
    rt: &R,
    queue: &Queue<Job>,
    one: Pass<Job>,
    other: Pass<Job>,
) -> ([u8; 2000], [u8; 2000])
    requires { IsOf queue.now one × IsOf queue.now other }
{
    let first = move || -> [u8; 2000]
        requires { IsSync R.row × IsOf queue.now one }
    { consume(rt, queue, one) };
    let second = move || -> [u8; 2000]
        requires { IsSync R.row × IsOf queue.now other }
    { consume(rt, queue, other) };
    thread::join(rt, first, second)
}

#[test]
fn each_job_of_two_producers_comes_once_to_two_consumers(rt: HostRuntime) -> Result<(), Fail> {
    let (queue, mut first) = Queue::new(rt.alloc(), 4)?;
    let second = queue.split(&mut first);
    let third = queue.split(&mut first);
    let fourth = queue.split(&mut first);
    let queue = &queue;
    let producers = move || -> ()
        requires { IsOf queue.now first × IsOf queue.now second }
    { produce_twice(&rt, queue, first, second) };
    let consumers = move || -> ([u8; 2000], [u8; 2000])
        requires { IsOf queue.now third × IsOf queue.now fourth }
    { consume_twice(&rt, queue, third, fourth) };
    let ((), (one, other)) = thread::join(&rt, producers, consumers);
    for number in 1..2000 {
        assert_eq!(rt;
            one[number].saturating_add(other[number]),
            1,
            "job {number}"
        );
    }
    Ok(())
}

#[test]
fn a_put_into_an_empty_queue_succeeds_and_a_get_gives_it_back(rt: HostRuntime) -> Result<(), Fail> {
    let (queue, mut pass) = Queue::new(rt.alloc(), 1)?;
    assert!(rt; queue.get(&rt, &mut pass).is_none());
    assert!(rt; queue.put(&rt, &mut pass, Job { number: 5 }).is_ok());
    let back = queue.put(&rt, &mut pass, Job { number: 9 });
    assert!(rt; matches!(&back, Err(job) if job.number == 9), "full");
    let job = queue.get(&rt, &mut pass);
    assert!(rt; matches!(&job, Some(job) if job.number == 5));
    let other = queue.split(&mut pass);
    queue.join(&mut pass, other);
    Ok(())
}
