//! What the clauses of a panel leave, where nothing fails, and where an input is refused.
ghost use Rattle.std.specs.Prelude.{◌≡◌, ℕ, Err, List, None, Ok, Option, Some};
ghost use Rattle.desk_panel_tool.specs.Panel.{Paneled};
ghost use Rattle.desk_panel_tool.specs.Stations.{StationView};
ghost use Rattle.desk_panel_tool.specs.Whole.{AreCalm, AreThere, CompletesPanel, OneIsMissing, RefusesPanel, TellsFaults};
ghost use Rattle.run_model.specs.RegisterHistories.{RegisterHistory};
ghost use Rattle.mib_model.specs.declared.database.Database.{Database};
ghost use Rattle.mib_model.specs.declared.fault.MibFault.{MibFault};
ghost use Rattle.session.specs.Sources.{Files};
ghost use Rattle.tool_objects.specs.Calm.{HoldsCalm, IsCalmSink};
ghost use Rattle.tool_objects.specs.Objects.{ShelfView, SinkView};
ghost use Rattle.tool_objects.specs.Sources.{sound_in};
ghost use Rattle.tool_words.specs.Panels.{PanelWords};

use run_model::{Code, Input};

/// Where the tables are sound, feed and desks are held and nothing fails, a panel prints all packets and each desk's script ends without a fault, unless
/// memory runs out before its run opens.
pub fn paneling_is_complete<T, F, D, O, R>()
    ensures { (c : Code) (closed : Option RegisterHistory) (w : PanelWords) (db : Database) (octets : List ℕ) (scripts : List (List ℕ))
        → (files feeds : Files) (desks : List Files) (tables : ShelfView T) (feed : ShelfView F) (stations : List (StationView D R)) (out : SinkView O)
        → HoldsCalm tables files → HoldsCalm feed feeds → AreCalm stations desks → IsCalmSink out → AreThere files feeds desks w db octets scripts
        → Paneled c closed w tables feed stations out → CompletesPanel c closed db octets scripts feed stations out }
{}

/// Where the tables are refused and reading them doesn't fail, a panel opens no run and is refused with the same fault, unless memory runs out,
/// whatever feed and desks are.
pub fn bad_tables_are_refused<T, F, D, O, R>()
    ensures { (c : Code) (closed : Option RegisterHistory) (w : PanelWords) (fault : MibFault) (files : Files)
        → (tables : ShelfView T) (feed : ShelfView F) (stations : List (StationView D R)) (out : SinkView O)
        → HoldsCalm tables files → sound_in files w.folder ≡ Err fault
        → Paneled c closed w tables feed stations out → RefusesPanel (Code.BadMib fault) c closed }
{}

/// Where the tables are sound, the feed is not held and neither fails, a panel opens no run and answers that there is no feed, unless memory runs
/// out, whatever the desks are.
pub fn a_missing_feed_is_refused<T, F, D, O, R>()
    ensures { (c : Code) (closed : Option RegisterHistory) (w : PanelWords) (db : Database) (files feeds : Files)
        → (tables : ShelfView T) (feed : ShelfView F) (stations : List (StationView D R)) (out : SinkView O)
        → HoldsCalm tables files → sound_in files w.folder ≡ Ok db → HoldsCalm feed feeds → feeds w.feed ≡ None
        → Paneled c closed w tables feed stations out → RefusesPanel (Code.NoFile Input.Feed) c closed }
{}

/// Where the tables are sound, the feed is held, a desk is not and nothing fails, a panel opens no run and answers that there is no desk, unless
/// memory runs out.
pub fn a_missing_desk_is_refused<T, F, D, O, R>()
    ensures { (c : Code) (closed : Option RegisterHistory) (w : PanelWords) (db : Database) (octets : List ℕ) (files feeds : Files) (desks : List Files)
        → (tables : ShelfView T) (feed : ShelfView F) (stations : List (StationView D R)) (out : SinkView O)
        → HoldsCalm tables files → sound_in files w.folder ≡ Ok db → HoldsCalm feed feeds → feeds w.feed ≡ Some octets
        → AreCalm stations desks → OneIsMissing desks w.desks
        → Paneled c closed w tables feed stations out → RefusesPanel (Code.NoFile Input.Desk) c closed }
{}

/// Where a panel's run opened, a code that is a fault is that of an object whose count rose; and where counts of the output, of the replies and the
/// scripts of used stations or of the feed rose, the first of these faults is told.
pub fn a_fault_is_told<T, F, D, O, R>()
    ensures { (c : Code) (history : RegisterHistory) (w : PanelWords)
        → (tables : ShelfView T) (feed : ShelfView F) (stations : List (StationView D R)) (out : SinkView O)
        → Paneled c (Some history) w tables feed stations out → TellsFaults c feed stations out }
{}
