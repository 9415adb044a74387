// The buffers of a run.
ghost use Rattle.std.specs.Prelude.{◌≡◌, ◌+◌, ◌<◌, ◌≤◌, vec_len, vec_capacity, IfOk, OnOk, OnErr};
ghost use Rattle.std.specs.List.{All};
ghost use Rattle.decode_session.specs.Ahead.{IsUnused};
ghost use Rattle.decode_session.specs.Stocks.{IsStockOf};
ghost use Rattle.fold_state.specs.Boards.{memory_of};
ghost use Rattle.mib_model.specs.Kept.{empty_memory};
ghost use Rattle.decode_session.specs.Homes.{AreOutOf};

use crate::ahead::DrawnAhead;
use crate::room::{Buffers, OwnRoom, Room};
use edition_plans::Plans;
use fold_state::Board;
use frame_region::Region;
use line_sheets::Sheet;
use packet_feed::PACKET_SIZE;
use param_state::{Demand, demands_of};
use record_text::Lines;
use std::alloc::{AllocError, Global};

/// Where the frames of packets are at home.
#[derive(Drop)]
pub struct Home {
    frames: Region<u8>,
}

/// What a run needs: a room for the packet that is read; what is kept from packet to packet, and what is demanded of values; the text of
/// records; and what is drawn ahead.
pub(crate) struct RunStock {
    pub room: OwnRoom,
    pub board: Board,
    pub demands: Vec<Demand>,
    pub lines: Lines,
    pub ahead: DrawnAhead,
}

/// By hand, so that whoever lets one go proves one call.
impl Drop for RunStock {
    fn drop(self) {
        let RunStock {
            room: _room,
            board: _board,
            demands: _demands,
            lines: _lines,
            ahead: _ahead,
        } = self;
    }
}

impl Home {
    /// Frames for so many packets, all at home. An error is want of memory.
    pub fn with_rooms(alloc: Global, rooms: u16) -> Result<Home, AllocError>
        ensures { IfOk result (λ home. AreOutOf rooms 0 home) }
    {
        Ok(Home {
            frames: Region::new(alloc, rooms, PACKET_SIZE, 0)?,
        })
    }

    // Takes a room, where so many of them all are out, whose sheet shares the texts of small numbers. An error is want of memory, and
    // takes none.
    fn take_room(
        &mut self,
        alloc: Global,
        all: u16,
        out: u16,
        lines: &Lines,
    ) -> Result<Room, AllocError>
        requires some { out < all }
        requires out { AreOutOf all out self.old }
        ensures out { OnOk result (AreOutOf all (out + 1) self.new) }
        ensures kept { OnErr result (AreOutOf all out self.new) }
    {
        let sheet = Sheet::new(alloc, lines)?;
        let Some(frame) = self.frames.take() else {
            unreachable!()
        };
        match Box::new(alloc, Buffers { frame, sheet }) {
            Ok(buffers) => Ok(Room { buffers }),
            Err(failed) => {
                self.give_buffers(failed.value, all, usize::from(out));
                Err(AllocError)
            }
        }
    }

    /// Takes all rooms, which are so many. Their sheets share the texts of small numbers. An error is want of memory, and leaves all at home.
    pub fn take_rooms(
        &mut self,
        alloc: Global,
        count: u16,
        lines: &Lines,
    ) -> Result<Vec<Room>, AllocError>
        requires { AreOutOf count 0 self.old }
        ensures out { OnOk result (AreOutOf count count self.new) }
        ensures kept { OnErr result (AreOutOf count 0 self.new) }
        ensures free { IfOk result (λ rooms. vec_len rooms ≡ count) }
        ensures room { IfOk result (λ rooms. count ≤ vec_capacity rooms) }
    {
        let mut rooms = Vec::with_capacity(alloc, usize::from(count))?;
        for out in 0..count {
            let Ok(room) = self.take_room(alloc, count, out, lines) else {
                self.give_rooms(rooms, count);
                return Err(AllocError);
            };
            rooms.push_reserved(room);
        }
        Ok(rooms)
    }

    // Takes the buffers of one packet back, and leaves so many of them all out.
    fn give_buffers(&mut self, buffers: Buffers, all: u16, out: usize)
        requires { AreOutOf all (out + 1) self.old }
        ensures { AreOutOf all out self.new }
    {
        let Buffers { frame, sheet: _ } = buffers;
        self.frames.give(frame);
    }

    // Takes rooms back, of so many in all.
    fn give_rooms(&mut self, mut rooms: Vec<Room>, all: u16)
        requires { AreOutOf all (vec_len rooms) self.old }
        ensures { AreOutOf all 0 self.new }
    {
        while let Some(Room { buffers }) = rooms.pop() {
            self.give_buffers(Box::into_inner(buffers), all, rooms.len());
        }
    }
}

impl RunStock {
    /// What a run of so many workers needs that begins by these plans, which keeps nothing yet. An error is want of memory.
    pub(crate) fn new<P: Plans>(
        alloc: Global,
        plans: &P,
        workers: u8,
    ) -> Result<RunStock, AllocError>
        ensures stock { IfOk result (λ stock. IsStockOf (P.tables plans.now) stock) }
        ensures unused { IfOk result (λ stock. All IsUnused stock.ahead.jobs.items) }
        ensures memory { IfOk result (λ stock. memory_of stock.board ≡ empty_memory) }
    {
        let lines = Lines::new(alloc)?;
        Ok(RunStock {
            room: OwnRoom::new(alloc)?,
            board: Board::new(alloc, plans.params())?,
            demands: demands_of(alloc, plans.params())?,
            ahead: DrawnAhead::new(alloc, plans, workers, &lines)?,
            lines,
        })
    }
}
