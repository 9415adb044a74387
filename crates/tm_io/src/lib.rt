//! The outside of the program: octets come from sources and shelves and go to sinks.
//!
//! Contracts see what a source has left, what a shelf holds and what a sink was given, where the object tells it, and
//! how often the object failed. A call answers `Failed` only where that count rose. The objects in memory tell all;
//! the adapters of files and standard streams tell no content. Stands on the standard library alone.
#![tactic(auto)]

mod file_shelf;
mod gate;
mod mem_shelf;
mod mem_sink;
mod sink;
mod source;
mod std_sink;
mod stops;

pub use file_shelf::FileShelf;
pub use gate::{Gate, NoGate};
pub use mem_shelf::{MemFile, MemShelf};
pub use mem_sink::{MEM_SINK_ROOM, MemSink};
pub use sink::{Sink, write_all};
pub use source::{Shelf, Source};
pub use std_sink::StdSink;

/// The object outside failed.
#[derive(Clone, Copy, Debug, PartialEq, Eq)]
pub struct Failed;
