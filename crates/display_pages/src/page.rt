use mib_model::Class;

/// The cells of a page, and the most names that it shows.
pub const MOST_CELLS: usize = 64;

/// What is shown of a parameter: its latest raw number, and the class that is spoken of, where there are such.
#[derive(Clone, Copy, Debug, PartialEq, Eq)]
pub struct Cell {
    pub raw: Option<i128>,
    pub spoken: Option<Class>,
}

/// What is shown after a packet: the packet's number from 1 on, or 0 before the first, its edition, and a cell for each name.
/// Cells past the names are empty.
#[derive(Clone, Copy, Debug)]
pub struct Page {
    pub number: u64,
    pub edition: u32,
    pub cells: [Cell; MOST_CELLS],
}
