// A run: packets are drawn ahead where many are at hand, and printed in their order.
ghost use Rattle.std.specs.Prelude.{◌≡◌, ◌≢◌, ◌+◌, ◌<◌, ◌≤◌, ◌⊎◌, List, Option, ℕ, Err, OnOk, OnErr, IfSome};
ghost use Rattle.std.specs.Io.KnownBytes.{Appends};
ghost use Rattle.std.specs.List.{All};
ghost use Rattle.decode_session.specs.Ahead.{AreDealt, Come, IsUnused, packets_from};
ghost use Rattle.decode_session.specs.Causes.{HasOutCause, HasFeedCause, HasFillCause};
ghost use Rattle.decode_session.specs.Finishing.{Leads, Serves};
ghost use Rattle.decode_session.specs.Run.{EndsBy, Ran, most_in_flight, most_packets};
ghost use Rattle.decode_session.specs.Stocks.{IsStockOf};
ghost use Rattle.decode_session.specs.Turns.{PrintsNext, StopsNext};
ghost use Rattle.fold_state.specs.Boards.{memory_of};
ghost use Rattle.mib_model.specs.Kept.{Memory, empty_memory};
ghost use Rattle.mib_model.specs.Texts.{cut_text};
ghost use Rattle.packet_feed.specs.Feed.{BeginsWithPacket, SourceStays, source_of};
ghost use Rattle.tm_io.specs.Causes.{HasCause};
ghost use Rattle.tm_io.specs.Octets.{AppendsPrefix};

use crate::alone::add_batch;
use crate::batch::{Filled, MOST_PACKETS};
use crate::ending::{RunEnd, RunFault, Stop};
use crate::playing::print_job;
use crate::stock::RunStock;
use edition_plans::Plans;
use packet_feed::Feed;
use record_text::{Lines, cut_line};
use std::alloc::Global;
use std::thread::Threads;
use tm_io::{Failed, Sink, Source, write_all};

/// Writes the line of a rest.
pub fn write_cut<O: Sink>(octets: u32, lines: &mut Lines, out: &mut O) -> Result<(), Failed>
    ensures all { OnOk result (Appends (O.written out.old) (O.written out.new) (cut_text octets)) }
    ensures part { OnErr result (AppendsPrefix (O.written out.old) (O.written out.new) (cut_text octets)) }
    ensures cause { HasCause (O.faults out.old) (O.faults out.new) result }
{
    lines.clear();
    cut_line(octets, lines);
    write_all(out, lines.bytes())
}

/// Hands on what was written, where reading the next packet may wait: unless that is known to be there whole.
pub fn hand_on_before_wait<S: Source, O: Sink>(feed: &Feed<S>, out: &mut O) -> Result<(), Failed>
    ensures written { O.written out.new ≡ O.written out.old }
    ensures handed { OnOk result ((O.handed out.new ≡ O.written out.new) ⊎ IfSome (S.left (source_of feed.now)) BeginsWithPacket) }
    ensures cause { HasCause (O.faults out.old) (O.faults out.new) result }
{
    if feed.is_next_at_hand() {
        return Ok(());
    }
    out.flush()
}

// Reads the next packets, from the one of this number on, and writes their records: those of a job that is drawn, or some one by one.
fn print_next<P: Plans, S: Source, O: Sink>(
    number: u64,
    plans: &P,
    feed: &mut Feed<S>,
    stock: &mut RunStock,
    out: &mut O,
) -> (u64, Filled, Result<(), Failed>)
    requires number { number ≤ most_packets }
    requires stock { IsStockOf (P.tables plans.now) stock.old }
    requires dealt { AreDealt (P.tables plans.now) number stock.old.ahead.jobs.items }
    ensures stock { IsStockOf (P.tables plans.now) stock.new × (stock.new.ahead.jobs ≡ stock.old.ahead.jobs) }
    ensures done { OnOk result.2 ((start : Option (List ℕ))
        → IfSome start (λ octets. Come (packets_from number stock.old.ahead.jobs.items) (S.left (source_of feed.old)))
        → Leads (P.tables plans.now) (memory_of stock.old.board) (memory_of stock.new.board)
        (λ m after. PrintsNext result.1 (P.tables plans.now) start number result.0 (S.left (source_of feed.old)) (S.left (source_of feed.new)) m after
        (O.written out.old) (O.written out.new))) }
    ensures part { OnErr result.2 ((start : Option (List ℕ)) (m : Memory)
        → IfSome start (λ octets. Come (packets_from number stock.old.ahead.jobs.items) (S.left (source_of feed.old)))
        → Serves (P.tables plans.now) m (memory_of stock.old.board)
        → StopsNext result.1 (P.tables plans.now) start number result.0 (S.left (source_of feed.old)) (S.left (source_of feed.new)) m
        (O.written out.old) (O.written out.new)) }
    ensures some { result.1 ≡ Filled.Paused → number < result.0 }
    ensures few { (result.0 ≤ number + most_in_flight) × (result.0 ≤ most_packets + 1) }
    ensures below { result.1 ≢ Filled.Paused → result.0 ≤ most_packets }
    ensures cause { HasFillCause result.1 (S.faults (source_of feed.old)) (S.faults (source_of feed.new)) }
    ensures out { HasCause (O.faults out.old) (O.faults out.new) result.2 }
    ensures kept { SourceStays S.holds S.missed S.borrow (source_of feed.old) (source_of feed.new) }
{
    let RunStock {
        room,
        board,
        demands,
        lines,
        ahead,
    } = stock;
    ahead.pass(number);
    if let Some(job) = ahead.job(number) {
        return print_job(job, plans, demands, feed, room, board, lines, out);
    }
    let end = ahead.until(number);
    let (next, filled) = add_batch(number, end, plans, demands, feed, room, board, lines);
    (next, filled, write_all(out, lines.bytes()))
}

// Decodes the packets of a feed up to its end, a fault or the limit.
#[inline(never)]
fn run_in<P: Plans + Sync, S: Source, O: Sink, R: Threads + Sync>(
    rt: &R,
    plans: &P,
    feed: &mut Feed<S>,
    stock: &mut RunStock,
    out: &mut O,
    workers: u8,
) -> Result<RunEnd, RunFault>
    requires workers { 1 ≤ workers }
    requires stock { IsStockOf (P.tables plans.now) stock.old }
    requires unused { All IsUnused stock.old.ahead.jobs.items }
    requires memory { memory_of stock.old.board ≡ empty_memory }
    ensures ran { let says = EndsBy result (S.faults (source_of feed.old)) (S.faults (source_of feed.new)) in
        Ran says (P.tables plans.now) (S.left (source_of feed.old)) (S.left (source_of feed.new)) (O.written out.old) (O.written out.new) }
    ensures feed { HasFeedCause result (S.faults (source_of feed.old)) (S.faults (source_of feed.new)) }
    ensures out { HasOutCause result (O.faults out.old) (O.faults out.new) }
    ensures some { result ≢ Err (RunFault.Print Stop.Memory) }
    ensures kept { SourceStays S.holds S.missed S.borrow (source_of feed.old) (source_of feed.new) }
{
    let mut number = 1;
    while number <= MOST_PACKETS {
        let Ok(()) = hand_on_before_wait(feed, out) else {
            return Err(RunFault::Print(Stop::Out));
        };
        stock
            .ahead
            .draw(rt, plans, &stock.demands, number, feed, workers);
        let (next, filled, written) = print_next(number, plans, feed, stock, out);
        if written.is_err() {
            return Err(RunFault::Print(Stop::Out));
        }
        number = next;
        match filled {
            Filled::Paused => (),
            Filled::End => return Ok(RunEnd::Whole),
            Filled::Cut { octets } => {
                return match write_cut(octets, &mut stock.lines, out) {
                    Ok(()) => Ok(RunEnd::Cut(octets)),
                    Err(_) => Err(RunFault::Print(Stop::Out)),
                };
            }
            Filled::Failed => return Err(RunFault::Feed),
        }
    }
    Ok(RunEnd::Limit)
}

/// Decodes the packets of a feed by one edition, with so many workers, and hands on what was written. It ends at the end of the
/// feed, at a rest, at a fault, or after 1,000,000,000 packets, and waits for nobody beyond its feed and its output.
#[tactic(auto, using(crate::proofs::RunSteps::ran_nothing))]
pub fn decode_run<P: Plans + Sync, S: Source, O: Sink, R: Threads + Sync>(
    rt: &R,
    alloc: Global,
    plans: &P,
    source: &mut S,
    out: &mut O,
    workers: u8,
) -> Result<RunEnd, RunFault>
    requires { 1 ≤ workers }
    ensures ran { let says = EndsBy result (S.faults source.old) (S.faults source.new) in
        Ran says (P.tables plans.now) (S.left source.old) (S.left source.new) (O.written out.old) (O.written out.new) }
    ensures feed { HasFeedCause result (S.faults source.old) (S.faults source.new) }
    ensures out { HasOutCause result (O.faults out.old) (O.faults out.new) }
    ensures handed { result ≢ Err (RunFault.Print Stop.Out) → O.handed out.old ≡ O.written out.old → O.handed out.new ≡ O.written out.new }
    ensures holds { S.holds source.new ≡ S.holds source.old }
    ensures missed { S.missed source.new ≡ S.missed source.old }
    ensures untouched { result ≡ Err (RunFault.Print Stop.Memory) → (source.new ≡ source.old) × (out.new ≡ out.old) }
{
    let Ok(mut stock) = RunStock::new(alloc, plans, workers) else {
        return Err(RunFault::Print(Stop::Memory));
    };
    let mut feed = Feed::new(source);
    let ended = run_in(rt, plans, &mut feed, &mut stock, out, workers);
    if let Err(RunFault::Print(Stop::Out)) = ended {
        return ended;
    }
    match out.flush() {
        Ok(()) => ended,
        Err(_) => Err(RunFault::Print(Stop::Out)),
    }
}
