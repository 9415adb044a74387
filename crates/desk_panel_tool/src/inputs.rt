// Tables, a feed and desks.
ghost use Rattle.std.specs.Prelude.{◌≡◌, length, IfErr, IfOk, OnOk};
ghost use Rattle.desk_panel_tool.specs.Inputs.{AreHad, AreNotHad, AreNotTurned, AreOpened, AreRefused, AreTurned};
ghost use Rattle.desk_panel_tool.specs.Stations.{stations};
ghost use Rattle.tool_objects.specs.Objects.{shelf};
ghost use Rattle.tool_objects.specs.Opened.{IsTurned, IsUnturned};
ghost use Rattle.tool_words.specs.Panels.{words_by};
ghost use Rattle.tool_words.specs.Requests.{texts};

use edition::Edition;
use folder_edition::{folder_edition, let_go};
use panel_session::Station;
use run_model::{Code, Input};
use std::alloc::Global;
use tm_io::{Shelf, Sink};
use tool_words::PanelRequest;

// Turns a shelf to the file of a name. It answers `missing` where there is none, and `fault` where the turn failed.
fn turn<S: Shelf>(files: &mut S, name: &str, missing: Code, fault: Code) -> Result<(), Code>
    ensures turned { OnOk result (IsTurned name.now (shelf files.old files.new S.holds S.left S.faults S.missed)) }
    ensures not_turned { IfErr result (λ code. IsUnturned missing fault code name.now (shelf files.old files.new S.holds S.left S.faults S.missed)) }
{
    match files.aim(name) {
        Ok(true) => Ok(()),
        Ok(false) => Err(missing),
        Err(_) => Err(fault),
    }
}

#[tactic(auto, using(crate::proofs::StationFacts::idle))]
// Turns the desk of each station to the file of its name, in this order.
fn turn_desks<D: Shelf, R: Sink>(names: &[&str], desks: &mut [Station<D, R>]) -> Result<(), Code>
    requires { length desks.old ≡ length names.now }
    ensures all { OnOk result (AreTurned (texts names.now) (stations desks.old desks.new D.holds D.left D.faults D.missed R.written R.handed R.faults)) }
    ensures first { IfErr result (λ code. AreNotTurned code (texts names.now)
        (stations desks.old desks.new D.holds D.left D.faults D.missed R.written R.handed R.faults)) }
{
    match names {
        [name, names @ ..] => {
            let (first, others) = desks.split_at_mut(1);
            match turn(
                &mut first[0].desk,
                name,
                Code::NoFile(Input::Desk),
                Code::DeskFault,
            ) {
                Ok(()) => turn_desks(names, others),
                Err(code) => Err(code),
            }
        }
        [] => Ok(()),
    }
}

#[tactic(auto, using(crate::proofs::StationFacts::idle))]
// Turns the feed and then the desks to their files.
fn turn_all<F: Shelf, D: Shelf, R: Sink>(
    request: &PanelRequest<'_>,
    feed: &mut F,
    desks: &mut [Station<D, R>],
) -> Result<(), Code>
    requires { length desks.old ≡ length request.now.desks.items }
    ensures had { OnOk result (AreHad (words_by request.now) (shelf feed.old feed.new F.holds F.left F.faults F.missed)
        (stations desks.old desks.new D.holds D.left D.faults D.missed R.written R.handed R.faults)) }
    ensures not_had { IfErr result (λ code. AreNotHad code (words_by request.now) (shelf feed.old feed.new F.holds F.left F.faults F.missed)
        (stations desks.old desks.new D.holds D.left D.faults D.missed R.written R.handed R.faults)) }
{
    match turn(
        feed,
        request.feed,
        Code::NoFile(Input::Feed),
        Code::FeedFault,
    ) {
        Ok(()) => turn_desks(&request.desks, desks),
        Err(code) => Err(code),
    }
}

#[tactic(auto, using(crate::proofs::StationFacts::idle))]
/// The edition of the tables of a folder, with feed and desks turned to their files. Tables are read first, then the feed is turned, then the desks in
/// their order; an error is the end of the call, and what stands behind its cause was not called.
pub(crate) fn open_inputs<T: Shelf, F: Shelf, D: Shelf, R: Sink>(
    alloc: Global,
    request: &PanelRequest<'_>,
    tables: &mut T,
    feed: &mut F,
    desks: &mut [Station<D, R>],
) -> Result<Edition, Code>
    requires { length desks.old ≡ length request.now.desks.items }
    ensures opened { IfOk result (λ first. AreOpened first (words_by request.now) (shelf tables.old tables.new T.holds T.left T.faults T.missed)
        (shelf feed.old feed.new F.holds F.left F.faults F.missed)
        (stations desks.old desks.new D.holds D.left D.faults D.missed R.written R.handed R.faults)) }
    ensures refused { IfErr result (λ code. AreRefused code (words_by request.now) (shelf tables.old tables.new T.holds T.left T.faults T.missed)
        (shelf feed.old feed.new F.holds F.left F.faults F.missed)
        (stations desks.old desks.new D.holds D.left D.faults D.missed R.written R.handed R.faults)) }
{
    let first = match folder_edition(alloc, request.folder, tables) {
        Ok(edition) => edition,
        Err(refusal) => return Err(Code::from(refusal)),
    };
    match turn_all(request, feed, desks) {
        Ok(()) => Ok(first),
        Err(code) => {
            let_go(first);
            Err(code)
        }
    }
}
