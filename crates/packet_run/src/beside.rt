// The workers beside the caller, and the join of all passes.
ghost use Rattle.std.specs.Prelude.{◌<◌, vec_len};
ghost use Rattle.decode_pool.specs.Joins.{TellsBalance, joined_jobs, joined_results};
ghost use Rattle.decode_pool.specs.Served.{AllServe, Ready};
ghost use Rattle.packet_jobs.specs.Tasks.{IsWorked, number_in};
ghost use Rattle.work_queue.specs.Passes.{IsOf, account_of};

use crate::parts::Crew;
use decode_pool::Pool;
use edition_plans::Plans;
use packet_jobs::Task;
use std::sync::Wait;
use std::thread;
use std::thread::Threads;
use tm_io::Gate;
use work_queue::Pass;

// All workers.
fn serve_all<P: Plans + Drop + Send + Sync, G: Gate + Sync, R: Threads + Wait + Sync>(
    rt: &R,
    crew: &Crew<P>,
    gate: &G,
    passes: &mut Vec<Pass<Task<P>>>,
)
    requires ready { Ready crew.now.jobs crew.now.results passes.old.items }
    ensures ready { Ready crew.now.jobs crew.now.results passes.new.items }
    ensures serves { AllServe crew.now.jobs crew.now.results (IsWorked P.tables) number_in passes.old.items passes.new.items }
{
    Pool::serve(rt, &crew.drawing, gate, &crew.jobs, &crew.results, passes);
}

/// Runs the caller in this thread beside workers in threads of their own, and gives what the caller gives.
pub(crate) fn beside<
    P: Plans + Drop + Send + Sync,
    G: Gate + Sync,
    R: Threads + Wait + Sync,
    A,
    F: FnMut() -> A,
>(rt: &R, crew: &Crew<P>, gate: &G, passes: &mut Vec<Pass<Task<P>>>, caller: &mut F) -> A
    requires ready { Ready crew.now.jobs crew.now.results passes.old.items }
    requires caller { F.pre caller.old }
    ensures ready { Ready crew.now.jobs crew.now.results passes.new.items }
    ensures serves { AllServe crew.now.jobs crew.now.results (IsWorked P.tables) number_in passes.old.items passes.new.items }
    ensures caller { F.step caller.old result caller.new }
{
    let ((), done) = thread::join_mut(
        rt,
        &mut || -> ()
            requires { Ready crew.now.jobs crew.now.results passes.now.items }
        { serve_all(rt, crew, gate, passes) },
        caller,
    );
    done
}

/// Joins the passes of all workers into the caller's two.
pub(crate) fn join_all<P: Plans + Drop>(
    crew: &Crew<P>,
    first: &mut Pass<Task<P>>,
    second: &mut Pass<Task<P>>,
    passes: &mut Vec<Pass<Task<P>>>,
)
    requires own { IsOf crew.now.jobs first.old × IsOf crew.now.results second.old }
    requires ready { Ready crew.now.jobs crew.now.results passes.old.items }
    requires some { 0 < vec_len passes.old }
    ensures jobs { TellsBalance (joined_jobs (account_of first.old) passes.old.items) }
    ensures results { TellsBalance (joined_results (account_of second.old) passes.old.items) }
{
    passes.reverse();
    while let Some(taken) = passes.pop() {
        crew.jobs.join(first, taken);
        let Some(given) = passes.pop() else {
            unreachable!();
        };
        crew.results.join(second, given);
    }
}
