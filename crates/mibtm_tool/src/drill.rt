// The command `drill`: a generated run, and the counts of what is printed of it.
ghost use Rattle.std.specs.Prelude.{◌≡◌, [], IfOk};
ghost use Rattle.run_model.specs.Output.{output_of_one};
ghost use Rattle.tm_drill.specs.Counts.{counts_of};
ghost use Rattle.tm_drill.specs.Feed.{drill_packets};
ghost use Rattle.tm_drill.specs.Tables.{drill_database};
ghost use Rattle.mibtm_tool.specs.Drill.{drill_summary};
ghost use Rattle.tool_objects.specs.Objects.{sink};
ghost use Rattle.mibtm_tool.specs.Statement.{Drilled};

use crate::print::print;
use decode_session::decode_run;
use edition::Edition;
use edition_plans::Plans;
use folder_edition::book_edition;
use run_model::Code;
use std::alloc::{AllocError, Global};
use std::thread::Threads;
use tm_drill::{Counter, Counts, Replay, drill_feed, drill_tables};
use tm_io::Sink;

/// The workers that decode a generated run.
const DRILL_WORKERS: u8 = 4;

// The edition of a run's tables, which are sound.
fn drill_edition(alloc: Global) -> Result<Edition, AllocError>
    ensures { IfOk result (λ edition. edition ≡ drill_database) }
{
    let book = drill_tables(alloc)?;
    match book_edition(alloc, book) {
        Ok(edition) => Ok(edition),
        Err(_refusal) => Err(AllocError),
    }
}

// The counts of what a run's feed prints by these plans. The feed never fails and is packets alone: an error is want of memory.
fn drill_counts<P: Plans + Sync, X: Threads + Sync>(
    rt: &X,
    alloc: Global,
    plans: &P,
    seed: u64,
) -> Result<Counts, AllocError>
    ensures { IfOk result (λ counts. counts ≡ counts_of (output_of_one (P.tables plans.now) (drill_packets seed) [])) }
{
    let feed = drill_feed(alloc, seed)?;
    let mut replay = Replay::new(&feed);
    let mut counter = Counter::new(alloc);
    match decode_run(rt, alloc, plans, &mut replay, &mut counter, DRILL_WORKERS) {
        Ok(_) => Ok(counter.counts()),
        Err(_) => Err(AllocError),
    }
}

// The summary of a run.
fn drill_text<X: Threads + Sync>(rt: &X, alloc: Global, seed: u64) -> Result<Vec<u8>, AllocError>
    ensures { IfOk result (λ text. text.items ≡ drill_summary seed) }
{
    let plans = drill_edition(alloc)?.into_plans();
    drill_counts(rt, alloc, &*plans, seed)?.summary(alloc)
}

/// Prints the summary of the generated run of a seed.
pub(crate) fn drill<O: Sink, X: Threads + Sync>(
    rt: &X,
    alloc: Global,
    seed: u64,
    out: &mut O,
) -> Code
    ensures { Drilled result seed (sink out.old out.new O.written O.handed O.faults) }
{
    let Ok(text) = drill_text(rt, alloc, seed) else {
        return Code::Want;
    };
    match print(out, &text) {
        Ok(()) => Code::Ok,
        Err(_) => Code::OutFault,
    }
}
