use decode_one::PacketValues;
use param_plan::Params;
use plan_places::Places;
use std::alloc::{AllocError, Global};

/// What one thread draws with: room for the values of a packet, and what finds plans. It says nothing.
#[derive(Drop)]
pub struct DrawingTool {
    pub(crate) values: PacketValues,
    pub(crate) places: Places,
}

impl DrawingTool {
    /// What draws by these plans. An error is want of memory.
    pub fn new(alloc: Global, params: &Params) -> Result<DrawingTool, AllocError> {
        Ok(DrawingTool {
            values: PacketValues::new(alloc)?,
            places: Places::new(alloc, params)?,
        })
    }
}
