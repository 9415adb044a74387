// What a desk of a panel owns.
ghost use Rattle.std.specs.Prelude.{◌≡◌, ◌≤◌, [], length, map, vec_capacity, IfOk};
ghost use Rattle.std.specs.Arc.{arc_value};
ghost use Rattle.std.specs.List.{AllByRecursion};
ghost use Rattle.panel_session.specs.Opened.{IsNewSide};

use desk_lines::Bookmark;
use edition::Edition;
use edition_register::Editions;
use fold_state::BoardRoom;
use live_desk::DeskEnd;
use panel_desk::PanelDesk;
use std::alloc::{AllocError, Global};
use std::sync::Arc;
use turn_cell::Seat;

/// What a desk of a panel owns: its seat, its draft, how far its script was read, and how that ended, where it did.
#[derive(Drop)]
pub struct DeskSide {
    pub(crate) seat: Seat<Editions<Edition, BoardRoom>>,
    pub(crate) desk: PanelDesk,
    pub(crate) read: Bookmark,
    pub(crate) end: Option<DeskEnd>,
}

/// Desks at these seats whose drafts are edition 1. An error is want of memory.
pub(crate) fn new_sides(
    alloc: Global,
    first: &Arc<Edition>,
    seats: Vec<Seat<Editions<Edition, BoardRoom>>>,
) -> Result<Vec<DeskSide>, AllocError>
    ensures seats { IfOk result (λ sides. map (λ side. side.seat) sides.items ≡ seats.items) }
    ensures new { IfOk result (λ sides. AllByRecursion (IsNewSide (arc_value first.now)) sides.items) }
{
    let mut sides = Vec::new(alloc);
    for seat in seats {
        sides.push(DeskSide {
            seat,
            desk: PanelDesk::new(Arc::try_clone(first)?)?,
            read: Bookmark::start(),
            end: None,
        })?;
    }
    Ok(sides)
}

/// The seats of desks, in their order, into a list that has room for them.
pub(crate) fn take_seats(
    sides: Vec<DeskSide>,
    room: Vec<Seat<Editions<Edition, BoardRoom>>>,
) -> Vec<Seat<Editions<Edition, BoardRoom>>>
    requires room { (room.items ≡ []) × (length sides.items ≤ vec_capacity room) }
    ensures { result.items ≡ map (λ side. side.seat) sides.items }
{
    let mut seats = room;
    for side in sides {
        let DeskSide { seat, .. } = side;
        seats.push_reserved(seat);
    }
    seats
}
