use decode_one::PacketValues;
use record_text::Lines;
use std::alloc::{AllocError, Global};

/// Where the caller makes records: room for the values of a packet that it decodes itself, and the text of the record.
#[derive(Drop)]
pub struct RecordRoom {
    pub(crate) values: PacketValues,
    pub lines: Lines,
}

impl RecordRoom {
    /// No record, on these lines. An error is want of memory.
    pub fn new(alloc: Global, lines: Lines) -> Result<RecordRoom, AllocError> {
        Ok(RecordRoom {
            values: PacketValues::new(alloc)?,
            lines,
        })
    }
}
