ghost use Rattle.std.specs.Prelude.{◌≡◌, ◌⊎◌, IfErr, IfOk, IfSome, None, drop, length, map, option_map, string_bytes, take};
ghost use Rattle.desk_panel_tool.specs.Panel.{Paneled};
ghost use Rattle.desk_panel_tool.specs.Stations.{stations};
ghost use Rattle.edition_register.specs.Seats.{history_of};
ghost use Rattle.live_session.specs.Live.{EndsAs};
ghost use Rattle.mib_model.specs.declared.database.Database.{Database};
ghost use Rattle.tool_objects.specs.Objects.{shelf, sink};
ghost use Rattle.tool_words.specs.Panels.{panel_in};

use crate::panel::panel;
use edition::Edition;
use live_session::Status;
use panel_session::Station;
use run_model::Code;
use std::alloc::Global;
use std::sync::Wait;
use std::thread::Threads;
use tm_io::{Gate, Shelf, Sink};
use tool_words::{WordsFault, panel_request_in};

/// Does what the words ask for, which stand behind the program's name: `panel DIR FEED DESK1 ..` reads tables from `tables` and decodes the packets of
/// `feed` to `out`, by as many workers as `--workers` says, while the lines of each named desk edit tables and put editions to use, with replies to
/// the replies of its station. The stations of the desks are the first ones, in their order; the others are left as they are. It waits for the run. A
/// worker calls `gate` with the number of a packet before it works on it.
pub fn panel_tool<
    T: Shelf,
    F: Shelf + Send,
    D: Shelf + Send,
    O: Sink + Send,
    R: Sink + Send,
    G: Gate + Sync,
    X: Threads + Wait + Sync,
>(
    rt: &X,
    alloc: Global,
    words: &[String],
    tables: &mut T,
    feed: &mut F,
    desks: &mut [Station<D, R>],
    out: &mut O,
    gate: &G,
) -> Status<Edition>
    requires four { length desks.old ≡ 4 }

    // Wrong words are answered before any object is called, unless memory runs out first.
    ensures misuse { IfErr (panel_in (map string_bytes words.now)) (λ misuse. (result.code ≡ Code.Usage misuse) ⊎ (result.code ≡ Code.Want)) }
    ensures misuse_closed { IfErr (panel_in (map string_bytes words.now)) (λ misuse. result.closed ≡ None) }
    ensures misuse_objects { IfErr (panel_in (map string_bytes words.now)) (λ misuse.
        (tables.new ≡ tables.old) × (feed.new ≡ feed.old) × (desks.new ≡ desks.old) × (out.new ≡ out.old)) }

    ensures panels { IfOk (panel_in (map string_bytes words.now)) (λ asked. Paneled result.code (option_map history_of result.closed) asked
        (shelf tables.old tables.new T.holds T.left T.faults T.missed)
        (shelf feed.old feed.new F.holds F.left F.faults F.missed)
        (stations (take (length asked.desks) desks.old) (take (length asked.desks) desks.new)
        D.holds D.left D.faults D.missed R.written R.handed R.faults)
        (sink out.old out.new O.written O.handed O.faults)) }

    // The stations beyond the named desks aren't called.
    ensures others { IfOk (panel_in (map string_bytes words.now)) (λ asked. drop (length asked.desks) desks.new ≡ drop (length asked.desks) desks.old) }
    ensures numbers { IfSome result.closed (λ closed. (first : Database) × EndsAs first closed) }
{
    match panel_request_in(alloc, words) {
        Ok(request) => {
            let (used, _others) = desks.split_at_mut(request.desks.len());
            panel(rt, alloc, &request, tables, feed, used, out, gate)
        }
        Err(WordsFault::Misuse(misuse)) => Status::unopened(Code::Usage(misuse)),
        Err(WordsFault::Memory) => Status::unopened(Code::Want),
    }
}
