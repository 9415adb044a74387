// A live run at its start.
ghost use Rattle.std.specs.Prelude.{◌≡◌, ◌≤◌, IfOk};
ghost use Rattle.edition_register.specs.Starts.{IsStart};
ghost use Rattle.fold_state.specs.Boards.{is_made_for, memory_of};
ghost use Rattle.mib_model.specs.Kept.{empty_memory};
ghost use Rattle.std.specs.Arc.{arc_value};

use crate::sides::{IntakeSide, SeatedDesk};
use desk::Desk;
use edition::{Compiled, Edition};
use edition_plans::Plans;
use edition_register::{Register, Start};
use fold_state::{Board, BoardRoom};
use mib_model::Rows;
use packet_run::Stock;
use std::alloc::{AllocError, Global};
use std::sync::Arc;

/// A live run that was opened: its register, what its intake owns, and its desk with its seat. Nothing was read or entered yet.
#[derive(Drop)]
pub struct LiveRun<W> {
    pub(crate) register: Register<Compiled, BoardRoom>,
    pub(crate) intake: IntakeSide<Compiled, W>,
    pub(crate) desk: SeatedDesk,
}

/// The plans of an edition with a board that keeps nothing. An error is want of memory.
pub fn at_first<E: Plans + Rows + Drop>(
    alloc: Global,
    handle: Arc<E>,
) -> Result<Start<E, Board>, AllocError>
    requires same { (plans : E) → E.Rows.tables plans ≡ E.Structures.tables plans }
    ensures start { IfOk result (λ start. IsStart E.Rows.tables is_made_for (E.Rows.tables (arc_value handle)) start) }
    ensures memory { IfOk result (λ start. memory_of start.board ≡ empty_memory) }
{
    let board = Board::new(alloc, handle.params())?;
    Ok(Start { handle, board })
}

impl<W: Drop> LiveRun<W> {
    ghost use Rattle.live_session.specs.Opened.{IsOpened, first_in, watch_in};

    /// A live run that begins with this edition, for so many workers and a watch. An error is want of memory.
    pub fn open(
        alloc: Global,
        first: Edition,
        workers: u8,
        watch: W,
    ) -> Result<LiveRun<W>, AllocError>
        requires workers { (1 ≤ workers) × (workers ≤ 16) }
        ensures opened { IfOk result (λ run. IsOpened run) }
        ensures first { IfOk result (λ run. first_in run ≡ first) }
        ensures watch { IfOk result (λ run. watch_in run ≡ watch) }
    {
        let stock = Stock::new(alloc, first.params(), workers)?;
        let start = at_first(alloc, Arc::try_clone(first.plans())?)?;
        let (register, intake, seat) = Register::new(alloc, Arc::try_clone(&start.handle)?)?;
        let desk = Desk::new(alloc, first)?;
        Ok(LiveRun {
            register,
            intake: IntakeSide {
                seat: intake,
                first: Some(start),
                stock,
                workers,
                watch,
            },
            desk: SeatedDesk { seat, desk },
        })
    }
}
