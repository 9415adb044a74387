// The run of a panel from its inputs on.
ghost use Rattle.std.specs.Prelude.{◌≡◌, IfSome, length, option_map};
ghost use Rattle.desk_panel_tool.specs.Panel.{Paneled};
ghost use Rattle.desk_panel_tool.specs.Stations.{stations};
ghost use Rattle.edition_register.specs.Seats.{history_of};
ghost use Rattle.live_session.specs.Live.{EndsAs};
ghost use Rattle.mib_model.specs.declared.database.Database.{Database};
ghost use Rattle.tool_objects.specs.Objects.{shelf, sink};
ghost use Rattle.tool_words.specs.Panels.{words_by};

use crate::inputs::open_inputs;
use edition::Edition;
use live_session::Status;
use packet_run::MOST_WORKERS;
use panel_session::{Station, panel_run};
use run_model::Code;
use std::alloc::Global;
use std::sync::Wait;
use std::thread::Threads;
use tm_io::{Gate, Shelf, Sink};
use tool_words::PanelRequest;

/// Does what the words of a panel ask for: prints the feed by the tables of the folder and by the editions that the desks make of them.
pub(crate) fn panel<
    X: Threads + Wait + Sync,
    T: Shelf,
    F: Shelf,
    D: Shelf + Send,
    O: Sink,
    R: Sink + Send,
    G: Gate + Sync,
>(
    rt: &X,
    alloc: Global,
    request: &PanelRequest<'_>,
    tables: &mut T,
    feed: &mut F,
    desks: &mut [Station<D, R>],
    out: &mut O,
    gate: &G,
) -> Status<Edition>
    requires desks { length desks.old ≡ length request.now.desks.items }
    ensures panels { Paneled result.code (option_map history_of result.closed) (words_by request.now)
        (shelf tables.old tables.new T.holds T.left T.faults T.missed)
        (shelf feed.old feed.new F.holds F.left F.faults F.missed)
        (stations desks.old desks.new D.holds D.left D.faults D.missed R.written R.handed R.faults)
        (sink out.old out.new O.written O.handed O.faults) }
    ensures numbers { IfSome result.closed (λ closed. (first : Database) × EndsAs first closed) }
{
    match open_inputs(alloc, request, tables, feed, desks) {
        Ok(first) => {
            let workers = request.workers.clamp(1, MOST_WORKERS);
            match panel_run(rt, alloc, first, feed, desks, out, gate, workers) {
                Ok(lived) => Status {
                    code: lived.code,
                    closed: Some(lived.closed),
                },
                Err(_) => Status::unopened(Code::Want),
            }
        }
        Err(code) => Status::unopened(code),
    }
}
