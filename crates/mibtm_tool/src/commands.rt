ghost use Rattle.std.specs.Prelude.{◌≡◌, ◌⊎◌, ℕ, List, Option, Some, None, Ok, Err, map, string_bytes, option_map, IfErr};
ghost use Rattle.edition_register.specs.Seats.{history_of};
ghost use Rattle.run_model.specs.Words.{command_of};
ghost use Rattle.mib_model.specs.declared.database.Database.{Database};
ghost use Rattle.mibtm_tool.specs.Inputs.{IfCheck, IfDecode, IfDrill, IfLive, UnlessLive};
ghost use Rattle.run_model.specs.RegisterHistories.{RegisterHistory};
ghost use Rattle.mibtm_tool.specs.Live.{AreFound, AreSteady, CompletesLive, HoldFiles, RefusesLive, ScriptDecides};
ghost use Rattle.mib_model.specs.declared.fault.MibFault.{MibFault};
ghost use Rattle.mibtm_tool.specs.Statement.{LivedBy, Names, Shelves, TellsItsEnd, names, shelves, Checked, Decoded, Drilled};
ghost use Rattle.tool_objects.specs.Objects.{ShelfView, SinkView, shelf, sink};
ghost use Rattle.tool_objects.specs.Sources.{sound_in};
ghost use Rattle.mibtm_tool.specs.Tool.{Completes, CompletesCheck, CompletesDrill, Held, IsSteady};
ghost use Rattle.tool_objects.specs.Calm.{IsCalmSink};
ghost use Rattle.session.specs.Sources.{Files};

use crate::check::check;
use crate::decode::decode;
use crate::drill::drill;
use crate::live::{LiveRequest, live};
use edition::Compiled;
use live_session::{Host, Status};
use run_model::{Code, Input};
use std::alloc::Global;
use std::sync::Wait;
use std::thread::Threads;
use tm_io::{Gate, Shelf, Sink};
use tool_words::{ToolRequest, WordsFault, request_in};

/// Does what the words ask for, which stand behind the program's name. `check DIR` reads tables from `tables` and writes
/// their summary to `out`; `decode DIR FEED` reads packets from `feed` too, and writes
/// what is decoded of them, by as many workers as `--workers` says; `live DIR FEED DESK` does so while the lines of `desk` edit
/// the tables, and writes their replies to `replies`; `drill SEED` writes the counts of a generated run. `gate`, `desk` and `replies`
/// are called by a live run alone, `feed` not by a check, `tables` and `feed` not by a drill. A worker of a live run calls `gate` with
/// the number of a packet before it works on it.
pub fn tool<
    T: Shelf,
    F: Shelf + Send,
    D: Shelf + Send,
    O: Sink + Send,
    R: Sink + Send,
    G: Gate + Sync,
    X: Threads + Wait + Sync,
>(
    rt: &X,
    alloc: Global,
    words: &[String],
    tables: &mut T,
    feed: &mut F,
    desk: &mut D,
    out: &mut O,
    replies: &mut R,
    gate: &G,
) -> Status<Compiled>
    // Wrong words are answered before any object is called, unless memory runs out first.
    ensures misuse { IfErr (command_of (map string_bytes words.now)) (λ misuse. (result.code ≡ Code.Usage misuse) ⊎ (result.code ≡ Code.Want)) }
    ensures uncalled { IfErr (command_of (map string_bytes words.now)) (λ misuse.
        (tables.new ≡ tables.old) × (feed.new ≡ feed.old) × (out.new ≡ out.old)) }

    // The statement of each command, status by status. A check doesn't call the feed, a drill neither tables nor feed.
    ensures checks { IfCheck (command_of (map string_bytes words.now)) (λ folder. Checked result.code folder
        (shelf tables.old tables.new T.holds T.left T.faults T.missed)
        (sink out.old out.new O.written O.handed O.faults)) }
    ensures check_feed { IfCheck (command_of (map string_bytes words.now)) (λ folder. feed.new ≡ feed.old) }
    ensures decodes { IfDecode (command_of (map string_bytes words.now)) (λ folder name. Decoded result.code folder name
        (shelf tables.old tables.new T.holds T.left T.faults T.missed)
        (shelf feed.old feed.new F.holds F.left F.faults F.missed)
        (sink out.old out.new O.written O.handed O.faults)) }
    ensures drills { IfDrill (command_of (map string_bytes words.now)) (λ seed. Drilled result.code seed
        (sink out.old out.new O.written O.handed O.faults)) }
    ensures drill_shelves { IfDrill (command_of (map string_bytes words.now)) (λ seed. (tables.new ≡ tables.old) × (feed.new ≡ feed.old)) }

    ensures lives { IfLive (command_of (map string_bytes words.now)) (λ folder name script. LivedBy result.code (option_map history_of result.closed)
        (names folder name script)
        (shelves (shelf tables.old tables.new T.holds T.left T.faults T.missed)
        (shelf feed.old feed.new F.holds F.left F.faults F.missed)
        (shelf desk.old desk.new D.holds D.left D.faults D.missed))
        (sink out.old out.new O.written O.handed O.faults)
        (sink replies.old replies.new R.written R.handed R.faults)) }

    ensures numbers { TellsItsEnd result.closed }

    // No other command calls the desk or the replies, or has a register to hand out.
    ensures unless_live { UnlessLive (command_of (map string_bytes words.now))
        ((desk.new ≡ desk.old) × (replies.new ≡ replies.old) × (result.closed ≡ None)) }
{
    let code = match request_in(alloc, words) {
        Ok(ToolRequest::Check { folder }) => check(alloc, folder, tables, out),
        Ok(
            ToolRequest::Decode {
                folder,
                feed: name,
                workers,
            },
        ) => decode(rt, alloc, folder, name, workers, tables, feed, out),
        Ok(
            ToolRequest::Live {
                folder,
                feed: name,
                desk: desk_name,
                workers,
            },
        ) => {
            let asked = LiveRequest {
                folder,
                feed: name,
                desk: desk_name,
                workers,
            };
            let host = Host { rt, alloc, gate };
            return live(&host, &asked, tables, feed, desk, out, replies);
        }
        Ok(ToolRequest::Drill { seed }) => drill(rt, alloc, seed, out),
        Err(WordsFault::Misuse(misuse)) => Code::Usage(misuse),
        Err(WordsFault::Memory) => Code::Want,
    };
    Status::unopened(code)
}

/// Where the tables are accepted, the feed is held and nothing fails, a call decodes the feed whole, unless memory
/// runs out.
pub fn decoding_is_complete<T, F, O>()
    ensures { (c : Code) (folder name octets : List ℕ) (files feeds : Files) (db : Database)
        → (tables : ShelfView T) (feed : ShelfView F) (out : SinkView O)
        → Held tables files → sound_in files folder ≡ Ok db → Held feed feeds → feeds name ≡ Some octets
        → Decoded c folder name tables feed out → IsSteady tables → IsSteady feed → IsCalmSink out
        → Completes c db octets out }
{}

/// Where the tables are sound and nothing fails, a check writes their summary whole, unless memory runs out.
pub fn checking_is_complete<T, O>()
    ensures { (c : Code) (folder : List ℕ) (files : Files) (db : Database) (tables : ShelfView T) (out : SinkView O)
        → Held tables files → sound_in files folder ≡ Ok db
        → Checked c folder tables out → IsSteady tables → IsCalmSink out
        → CompletesCheck c db out }
{}

/// Where nothing fails, a drill writes its summary whole, unless memory runs out.
pub fn drilling_is_complete<O>()
    ensures { (c : Code) (seed : ℕ) (out : SinkView O) → Drilled c seed out → IsCalmSink out → CompletesDrill c seed out }
{}

/// Where the tables are sound, feed and desk are held and nothing fails, a live run prints all packets, handles all lines and
/// writes all replies, unless memory runs out before it opens.
pub fn living_is_complete<T, F, D, O, P>()
    ensures { (c : Code) (closed : Option RegisterHistory) (words : Names) (octets script : List ℕ) (files feeds desks : Files) (db : Database)
        → (s : Shelves T F D) (out : SinkView O) (replies : SinkView P)
        → HoldFiles s files feeds desks → AreFound files feeds desks words db octets script → AreSteady s out replies
        → LivedBy c closed words s out replies → CompletesLive c closed db octets script s out replies }
{}

/// Where the tables are refused and reading them doesn't fail, a live run opens nothing and is refused with the same fault, unless memory
/// runs out, whatever feed and desk are.
pub fn bad_tables_are_refused<T, F, D, O, P>()
    ensures { (c : Code) (closed : Option RegisterHistory) (words : Names) (files : Files) (fault : MibFault)
        → (s : Shelves T F D) (out : SinkView O) (replies : SinkView P)
        → Held s.tables files → sound_in files words.folder ≡ Err fault → IsSteady s.tables
        → LivedBy c closed words s out replies → RefusesLive (Code.BadMib fault) c closed }
{}

/// Where the tables are sound, the feed is not held and neither fails, a live run opens nothing and answers that there is no feed, unless
/// memory runs out, whatever the desk is.
pub fn a_missing_feed_is_refused<T, F, D, O, P>()
    ensures { (c : Code) (closed : Option RegisterHistory) (words : Names) (files feeds : Files) (db : Database)
        → (s : Shelves T F D) (out : SinkView O) (replies : SinkView P)
        → Held s.tables files → sound_in files words.folder ≡ Ok db → Held s.feed feeds → feeds words.feed ≡ None
        → IsSteady s.tables → IsSteady s.feed
        → LivedBy c closed words s out replies → RefusesLive (Code.NoFile Input.Feed) c closed }
{}

/// Where the script of a live run ends with its first `go`, the tables, the script and what the feed gives decide the history, the output, the
/// replies and the code, unless output, desk or replies fail or memory refuses a line.
pub fn a_script_up_to_its_go_decides()
    ensures { ScriptDecides }
{}
