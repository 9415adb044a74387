//! What the clauses of a board leave, where nothing fails.
ghost use Rattle.std.specs.Prelude.{◌≡◌, ℕ, List, Option, Some};
ghost use Rattle.live_board_tool.specs.Board.{Boarded};
ghost use Rattle.live_board_tool.specs.Whole.{AreThere, CompletesBoard, RefusesBoard};
ghost use Rattle.run_model.specs.RegisterHistories.{RegisterHistory};
ghost use Rattle.mib_model.specs.declared.database.Database.{Database};
ghost use Rattle.page_files.specs.Files.{IsPageOf};
ghost use Rattle.page_texts.specs.PageFiles.{bad_line};
ghost use Rattle.session.specs.Sources.{Files};
ghost use Rattle.tool_objects.specs.Calm.{HoldsCalm, IsCalmSink};
ghost use Rattle.tool_objects.specs.Objects.{ShelfView, SinkView};
ghost use Rattle.tool_words.specs.Boards.{BoardWords};

use page_texts::BoardCode;

/// Where the tables are sound, feed, desk and page are held, the page is accepted and nothing fails, a board prints all packets and shows the page
/// after the last, unless memory runs out before its run opens.
pub fn boarding_is_complete<T, F, D, P, O, R, S>()
    ensures { (c : BoardCode) (closed : Option RegisterHistory) (w : BoardWords) (db : Database) (names : List (List ℕ)) (octets script text : List ℕ)
        → (files feeds desks pages : Files) (tables : ShelfView T) (feed : ShelfView F) (desk : ShelfView D) (page : ShelfView P)
        → (out : SinkView O) (replies : SinkView R) (screen : SinkView S)
        → HoldsCalm tables files → HoldsCalm feed feeds → HoldsCalm desk desks → HoldsCalm page pages
        → IsCalmSink out → IsCalmSink replies → IsCalmSink screen → AreThere files feeds desks w db octets script
        → pages w.page ≡ Some text → IsPageOf names text → Boarded c closed w tables feed desk page out replies screen
        → CompletesBoard c closed db names octets script feed desk out replies screen }
{}

/// Where the tables are sound, feed, desk and page are held and none fails, and a line of the page is refused, a board opens no run and is
/// refused for that line, unless memory runs out.
pub fn a_bad_page_is_refused<T, F, D, P, O, R, S>()
    ensures { (c : BoardCode) (closed : Option RegisterHistory) (w : BoardWords) (db : Database) (octets script text : List ℕ) (line : ℕ)
        → (files feeds desks pages : Files) (tables : ShelfView T) (feed : ShelfView F) (desk : ShelfView D) (page : ShelfView P)
        → (out : SinkView O) (replies : SinkView R) (screen : SinkView S)
        → HoldsCalm tables files → HoldsCalm feed feeds → HoldsCalm desk desks → HoldsCalm page pages
        → AreThere files feeds desks w db octets script → pages w.page ≡ Some text → bad_line text ≡ Some line
        → Boarded c closed w tables feed desk page out replies screen → RefusesBoard (BoardCode.BadPage line) c closed }
{}
