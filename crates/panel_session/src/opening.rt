// A run of a panel at its start.
ghost use Rattle.std.specs.Prelude.{◌≡◌, ◌≤◌, IfOk};
ghost use Rattle.panel_session.specs.Opened.{IsOpened, first_in};

use crate::side::{DeskSide, new_sides};
use edition::Edition;
use edition_plans::Plans;
use edition_register::{Editions, Register};
use fold_state::BoardRoom;
use live_session::{IntakeSide, at_first};
use packet_run::{NoWatch, Stock};
use std::alloc::{AllocError, Global};
use std::sync::Arc;
use turn_cell::Seat;

/// A run that was opened: its register, what its intake owns, its desks, and room for their
/// seats at its end. Nothing was read or entered yet.
#[derive(Drop)]
pub(crate) struct PanelRun {
    pub register: Register<Edition, BoardRoom>,
    pub intake: IntakeSide<Edition, NoWatch>,
    pub sides: Vec<DeskSide>,
    pub room: Vec<Seat<Editions<Edition, BoardRoom>>>,
}

impl PanelRun {
    /// A run of so many desks that begins with this edition, for so many workers. An error is want of memory.
    pub(crate) fn open(
        alloc: Global,
        first: Edition,
        desks: u8,
        workers: u8,
    ) -> Result<PanelRun, AllocError>
        requires desks { (1 ≤ desks) × (desks ≤ 4) }
        requires workers { (1 ≤ workers) × (workers ≤ 16) }
        ensures opened { IfOk result (λ run. IsOpened desks run) }
        ensures first { IfOk result (λ run. first_in run ≡ first) }
    {
        let stock = Stock::new(alloc, first.params(), workers)?;
        let start = at_first(alloc, Arc::new(alloc, first)?)?;
        let room = Vec::with_capacity(alloc, desks as usize)?;
        let (register, intake, seats) = Register::with_desks(
            alloc,
            Arc::try_clone(&start.handle)?,
            desks,
        )?;
        let sides = new_sides(alloc, &start.handle, seats)?;
        Ok(PanelRun {
            register,
            intake: IntakeSide {
                seat: intake,
                first: Some(start),
                stock,
                workers,
                watch: NoWatch,
            },
            sides,
            room,
        })
    }
}
