//! Who is told of each record that was written.
ghost use Rattle.std.specs.Prelude.{◌≡◌, ℕ, List, ◌++◌, [], ◌∷◌};
ghost use Rattle.fold_state.specs.Boards.{memory_of};
ghost use Rattle.packet_run.specs.Told.{Member, member};

use fold_state::Board;
use param_plan::Params;
use std::sync::Wait;

/// What is told of each packet whose record was written. It stands for lists of what it was told, so that none of them needs to
/// be kept.
pub trait Watch {
    /// Whether a value stands for a list.
    ghost stands: { Self → List Member → Type 0 };

    /// The record of the packet with this number was written whole: its edition is this one, with these parameters, and the board
    /// keeps what is kept after it. It may wait.
    fn committed<R: Wait>(
        &mut self,
        rt: &R,
        number: u64,
        edition: u32,
        params: &Params,
        board: &Board,
    )
        ensures stands { (told : List Member) → stands self.old told → stands self.new (told ++ member number edition (memory_of board.now) ∷ []) };

    /// All packets that were read are committed, and the next one may be long in coming. It may wait. Left
    /// out, it does nothing.
    fn rests<R: Wait>(&mut self, _rt: &R)
        ensures rests { (told : List Member) → stands self.old told → stands self.new told }
    {}
}

/// A watch that does nothing, and stands for every list.
#[derive(Clone, Copy, Debug)]
pub struct NoWatch;

impl Watch for NoWatch {
    ghost stands = { λ _ _. Unit {0} };

    fn committed<R: Wait>(
        &mut self,
        _rt: &R,
        _number: u64,
        _edition: u32,
        _params: &Params,
        _board: &Board,
    ) {}
}
