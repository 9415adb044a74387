// The desk of one operator among several.
ghost use Rattle.std.specs.Prelude.{◌≡◌, ◌<◌, ◌≤◌, ◌+◌, ◌^◌, true, length, option_map, IfOk, Some};
ghost use Rattle.std.specs.Arc.{arc_value};
ghost use Rattle.desk.specs.Handling.{HandlesAt, HandlesLineAt, Ticks};
ghost use Rattle.desk_lines.specs.Requests.{asked};
ghost use Rattle.edition_register.specs.Panels.{IsDeskSeat};
ghost use Rattle.histories.specs.History.{StartsWith};
ghost use Rattle.run_model.specs.Desk.{Plain, desk_start};
ghost use Rattle.run_model.specs.DeskLines as Spec;
ghost use Rattle.panel_desk.specs.State.{panel_state};
ghost use Rattle.panel_lines.specs.Replies.{told};
ghost use Rattle.turn_cell.specs.Seats.{number_of, own_moves, seen_by};

use crate::using::{use_from, use_now};
use desk::{Draft, Entering, amended, edit};
use desk_lines::Request;
use edition::Edition;
use edition_register::{AddOnFault, Drawn, Editions, Register};
use fold_state::BoardRoom;
use mib_model::Steps;
use panel_lines::{PanelLine, PanelReply, panel_request_of};
use run_model::Reply;
use std::alloc::{AllocError, Global};
use std::sync::ledger::Ledger;
use std::sync::{Arc, Wait};
use turn_cell::Seat;

/// A desk among several: a draft, and the number of the edition that it was made from.
pub struct PanelDesk {
    pub(crate) draft: Draft,
    pub(crate) edition: u32,
}

/// By hand, so that whoever lets one go proves one call.
impl Drop for PanelDesk {
    fn drop(self) {
        let PanelDesk {
            draft: _draft,
            edition: _,
        } = self;
    }
}

// A reply that a single desk has too, where there is one.
fn plain(reply: Option<Reply>) -> Option<PanelReply>
    ensures { option_map told result ≡ option_map Plain reply }
{
    Some(PanelReply::Plain(reply?))
}

impl PanelDesk {
    /// A desk whose draft is edition 1. An error is want of memory.
    pub fn new(first: Arc<Edition>) -> Result<PanelDesk, AllocError>
        ensures { IfOk result (λ desk. panel_state desk ≡ desk_start (arc_value first)) }
    {
        let draft = Draft::new(first)?;
        Ok(PanelDesk { draft, edition: 1 })
    }

    /// Handles one line. A comment or an empty line has no reply. It waits for its turn at the register where it saves, takes
    /// or activates; where it replies `Want`, draft and base stand as before, and the one entry that may have been made looks.
    pub fn line<L: Ledger, R: Wait>(
        &mut self,
        rt: &R,
        alloc: Global,
        register: &Register<Edition, BoardRoom>,
        seat: &mut Seat<Editions<Edition, BoardRoom>>,
        line: &[u8],
        steps: &mut Steps<L>,
    ) -> Option<PanelReply>
        requires seat { IsDeskSeat (number_of seat.old) register.now seat.old }
        requires room { length (own_moves seat.old) + 1 < 2 ^ 32 }
        ensures seat { IsDeskSeat (number_of seat.old) register.now seat.new }
        ensures handles { HandlesLineAt true (number_of seat.old) line.now (panel_state self.old) (own_moves seat.old) (own_moves seat.new)
            (option_map told result) (panel_state self.new) }
        ensures few { length (own_moves seat.new) ≤ length (own_moves seat.old) + 2 }
        ensures seen { StartsWith (seen_by seat.new) (seen_by seat.old) }
        ensures steps { Ticks (Spec.request_of true line.now) (option_map told result) steps.old steps.new }
    {
        match panel_request_of(line) {
            PanelLine::Take => Some(self.take(rt, register, seat)),
            PanelLine::Plain(request) => { self.handle(rt, alloc, register, seat, request, steps) }
        }
    }

    // Does what a single desk is asked for too.
    fn handle<L: Ledger, R: Wait>(
        &mut self,
        rt: &R,
        alloc: Global,
        register: &Register<Edition, BoardRoom>,
        seat: &mut Seat<Editions<Edition, BoardRoom>>,
        request: Request<'_>,
        steps: &mut Steps<L>,
    ) -> Option<PanelReply>
        requires seat { IsDeskSeat (number_of seat.old) register.now seat.old }
        requires room { length (own_moves seat.old) + 1 < 2 ^ 32 }
        ensures seat { IsDeskSeat (number_of seat.old) register.now seat.new }
        ensures handles { HandlesAt true (number_of seat.old) (asked request.entry) (panel_state self.old) (own_moves seat.old) (own_moves seat.new)
            (option_map told result) (panel_state self.new) }
        ensures few { length (own_moves seat.new) ≤ length (own_moves seat.old) + 2 }
        ensures seen { StartsWith (seen_by seat.new) (seen_by seat.old) }
        ensures steps { Ticks (asked request.entry) (option_map told result) steps.old steps.new }
    {
        match edit(&mut self.draft, alloc, request) {
            Ok(reply) => plain(reply),
            Err(Entering::Save) => Some(self.save(rt, alloc, register, seat, steps)),
            Err(Entering::Use { edition }) => Some(PanelReply::Plain(use_now(
                rt, alloc, register, seat, edition,
            ))),
            Err(Entering::UseFrom { edition, from }) => Some(PanelReply::Plain(use_from(
                rt, alloc, register, seat, edition, from,
            ))),
        }
    }

    // Saves the draft on its base.
    fn save<L: Ledger, R: Wait>(
        &mut self,
        rt: &R,
        alloc: Global,
        register: &Register<Edition, BoardRoom>,
        seat: &mut Seat<Editions<Edition, BoardRoom>>,
        steps: &mut Steps<L>,
    ) -> PanelReply
        requires seat { IsDeskSeat (number_of seat.old) register.now seat.old }
        requires room { length (own_moves seat.old) < 2 ^ 32 }
        ensures seat { IsDeskSeat (number_of seat.old) register.now seat.new }
        ensures handles { HandlesAt true (number_of seat.old) Spec.Save (panel_state self.old) (own_moves seat.old) (own_moves seat.new)
            (Some (told result)) (panel_state self.new) }
        ensures few { length (own_moves seat.new) ≤ length (own_moves seat.old) + 1 }
        ensures seen { StartsWith (seen_by seat.new) (seen_by seat.old) }
        ensures steps { Ticks Spec.Save (Some (told result)) steps.old steps.new }
    {
        let ready = match amended(alloc, &self.draft, steps) {
            Ok(ready) => ready,
            Err(reply) => return PanelReply::Plain(reply),
        };
        let Ok(payload) = Arc::try_clone(&ready.edition) else {
            return PanelReply::Plain(Reply::Want);
        };
        match register.add_on(rt, seat, self.edition, payload) {
            Ok(edition) => {
                self.draft.rebase(ready.edition);
                self.edition = edition;
                PanelReply::Plain(Reply::Saved {
                    edition,
                    plans: ready.plans,
                })
            }
            Err(AddOnFault::Stale { newer, .. }) => PanelReply::Stale { newest: newer },
            Err(AddOnFault::Full { .. }) => PanelReply::Plain(Reply::FullEditions),
        }
    }

    // Makes the draft the newest edition.
    fn take<R: Wait>(
        &mut self,
        rt: &R,
        register: &Register<Edition, BoardRoom>,
        seat: &mut Seat<Editions<Edition, BoardRoom>>,
    ) -> PanelReply
        requires seat { IsDeskSeat (number_of seat.old) register.now seat.old }
        requires room { length (own_moves seat.old) < 2 ^ 32 }
        ensures seat { IsDeskSeat (number_of seat.old) register.now seat.new }
        ensures handles { HandlesAt true (number_of seat.old) Spec.Take (panel_state self.old) (own_moves seat.old) (own_moves seat.new)
            (Some (told result)) (panel_state self.new) }
        ensures few { length (own_moves seat.new) ≤ length (own_moves seat.old) + 1 }
        ensures seen { StartsWith (seen_by seat.new) (seen_by seat.old) }
    {
        match register.newest(rt, seat) {
            Ok(Drawn { edition, handle }) => match Draft::new(handle) {
                Ok(draft) => {
                    self.draft = draft;
                    self.edition = edition;
                    PanelReply::Took { edition }
                }
                Err(_) => PanelReply::Plain(Reply::Want),
            },
            Err(_) => PanelReply::Plain(Reply::Want),
        }
    }
}
