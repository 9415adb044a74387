ghost use Rattle.std.specs.Prelude.{◌≡◌};
ghost use Rattle.std.specs.Arc.{arc_value};
ghost use Rattle.edition_plans.specs.Params.{param_slices};
ghost use Rattle.param_state.specs.ParamPlans.{plan_names};

use fold_state::Board;
use std::sync::Arc;
use struct_plan::Structures;

/// The edition in use: its number, a handle of it, and a board that was made for its parameters.
#[derive(Drop)]
pub struct InUse<P: Structures + Drop> {
    pub edition: u32,
    pub handle: Arc<P>,
    pub board: Board,
    ghost made: { board.names ≡ plan_names (param_slices (P.tables (arc_value handle))) },
}

impl<P: Structures + Drop> InUse<P> {
    /// Edition 1 is in use, with this handle and board.
    pub fn at_first(handle: Arc<P>, board: Board) -> InUse<P>
        requires made { board.names ≡ plan_names (param_slices (P.tables (arc_value handle))) }
        ensures edition { result.edition ≡ 1 }
        ensures handle { result.handle ≡ handle }
        ensures board { result.board ≡ board }
    {
        InUse {
            edition: 1,
            handle,
            board,
        }
    }
}
