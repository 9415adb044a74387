// The command `decode`: tables, then a feed.
ghost use Rattle.std.specs.Prelude.{◌≡◌};
ghost use Rattle.tool_objects.specs.Objects.{shelf, sink};
ghost use Rattle.mibtm_tool.specs.Statement.{Decoded};

use crate::codes::run_code;
use decode_session::decode_run;
use folder_edition::folder_edition;
use run_model::{Code, Input};
use std::alloc::Global;
use std::thread::Threads;
use tm_io::{Shelf, Sink};

/// Prints the feed of that name by the tables of a folder, decoded by so many workers, and by one at least.
pub(crate) fn decode<T: Shelf, F: Shelf, O: Sink, X: Threads + Sync>(
    rt: &X,
    alloc: Global,
    folder: &str,
    name: &str,
    workers: u8,
    tables: &mut T,
    feed: &mut F,
    out: &mut O,
) -> Code
    ensures { Decoded result folder.now name.now
        (shelf tables.old tables.new T.holds T.left T.faults T.missed)
        (shelf feed.old feed.new F.holds F.left F.faults F.missed)
        (sink out.old out.new O.written O.handed O.faults) }
{
    let plans = match folder_edition(alloc, folder, tables) {
        Ok(edition) => edition.into_plans(),
        Err(refusal) => return Code::from(refusal),
    };
    match feed.aim(name) {
        Ok(true) => run_code(decode_run(rt, alloc, &*plans, feed, out, workers.max(1))),
        Ok(false) => Code::NoFile(Input::Feed),
        Err(_) => Code::FeedFault,
    }
}
