ghost use Rattle.std.specs.Prelude.{◌≡◌, IfOk};
ghost use Rattle.fold_state.specs.Boards.{memory_of};
ghost use Rattle.param_state.specs.ParamPlans.{plan_names};
ghost use Rattle.mib_model.specs.Kept.{empty_memory};

use crate::board::{Board, slots_for};
use mib_model::MadeFor;
use param_plan::Params;
use param_state::ParamSlot;
use plan_places::Guesses;
use std::alloc::{AllocError, Global};
use std::marker::Model;
use std::snapshot::Snapshot;

/// Room for the board of an edition that comes into use: it is reserved and not written, and used where the edition before has
/// other names. Contracts see a board that keeps nothing.
pub struct BoardRoom {
    slots: Vec<ParamSlot>,
    params: Snapshot<Params>,
}

/// By hand, so that whoever lets one go proves one call.
impl Drop for BoardRoom {
    fn drop(self) {
        let BoardRoom {
            slots: _slots,
            params: _params,
        } = self;
    }
}

impl Model for BoardRoom {
    ghost use Rattle.std.specs.Prelude.{◌≡◌, ◌≤◌, [], length, vec_capacity};
    ghost use Rattle.fold_state.specs.Boards.{Slots};
    ghost use Rattle.param_state.specs.ParamPlans.{plan_names};

    ghost Value = { Slots };

    ghost view = { λ room. record { names = plan_names room.params.value; slots = [] } };

    ghost invariant = { λ room. (room.slots.items ≡ []) × (length room.params.value ≤ vec_capacity room.slots) };
}

impl BoardRoom {
    /// Room for a board for these plans. An error is want of memory.
    pub fn new(alloc: Global, params: &Params) -> Result<BoardRoom, AllocError>
        ensures names { IfOk result (λ room. room.names ≡ plan_names params.now) }
        ensures memory { IfOk result (λ room. memory_of room ≡ empty_memory) }
    {
        Ok(BoardRoom {
            slots: Vec::with_capacity(alloc, params.len())?,
            params: Snapshot::of(params),
        })
    }

    /// A board for these plans in it, which keeps nothing and guesses nothing.
    pub(crate) fn into_board(self, params: &Params) -> Board
        requires { self.names ≡ plan_names params.now }
        ensures { result.names ≡ plan_names params.now }
    {
        let BoardRoom { slots, params: _ } = self;
        let alloc = *slots.allocator();
        Board {
            slots: slots_for(slots, params),
            guesses: Guesses::empty(alloc),
            seats: Vec::new(alloc),
            ahead: 0,
        }
    }
}

impl MadeFor for BoardRoom {
    ghost use Rattle.fold_state.specs.Boards.{is_made_for};

    ghost made_for = { is_made_for };
}
