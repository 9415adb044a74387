ghost use Rattle.std.specs.Prelude.{◌≡◌, true};
ghost use Rattle.std.specs.Arc.{arc_value};
ghost use Rattle.packet_jobs.specs.Drawn.{IsDrawn};

use decode_session::PacketCell;
use std::sync::Arc;
use struct_plan::Structures;

/// A packet on its way to a worker and back, with a handle of its edition. Where its record is drawn, it is by the tables of that
/// handle.
#[derive(Drop)]
pub struct Job<P: Structures + Drop> {
    pub cell: PacketCell,
    pub handle: Arc<P>,
    pub is_drawn: bool,
    ghost drawn: { is_drawn ≡ true → IsDrawn (P.tables (arc_value handle)) cell },
}

/// What a queue of the run holds.
#[derive(Drop)]
pub enum Task<P: Structures + Drop> {
    /// Ends the worker that gets it.
    End,
    /// A packet whose record is to be drawn, or was.
    Packet(Job<P>),
}
