// One comparison of names in place of a search by halving, for each value: where the names of values are looked for first.
ghost use Rattle.std.specs.Prelude.{◌≤◌, ◌+◌};

use mib_model::{NAME_SIZE, Name};
use param_plan::Params;
use std::alloc::{AllocError, Global};

/// The guesses by the octets of a name.
const NAMED: usize = 65_536;

/// A kind of packet, where its row of guesses begins, and how many it has.
#[derive(Clone, Copy)]
struct GuessRow {
    spid: u32,
    first: u32,
    count: u32,
}

/// Guesses of places: packets of one kind have their values in one order, so each kind has a row of guesses, the places
/// where its names were found last. Beside them a name has a guess by its octets. Any of them may be wrong.
#[derive(Drop)]
pub struct Guesses {
    rows: Vec<GuessRow>,
    places: Vec<u32>,
    free: usize,
    named: Vec<u32>,
}

// The eight octets of a name's room from a place on, as one number.
#[inline(always)]
fn word(room: &[u8; NAME_SIZE], at: usize) -> u64
    requires { at + 8 ≤ 32 }
{
    u64::from_le_bytes([
        room[at],
        room[at + 1],
        room[at + 2],
        room[at + 3],
        room[at + 4],
        room[at + 5],
        room[at + 6],
        room[at + 7],
    ])
}

// A number of 16 bits made of the octets of a name.
fn mixed(name: &Name) -> usize {
    let room = name.room();
    let front = word(room, 0).wrapping_mul(0x9E37_79B9_7F4A_7C15);
    let behind = word(room, 8).wrapping_mul(0xC2B2_AE3D_27D4_EB4F);
    let third = word(room, 16).wrapping_mul(0x1656_67B1_9E37_79F9);
    let last = word(room, 24).wrapping_mul(0xFF51_AFD7_ED55_8CCD);
    ((front ^ behind ^ third ^ last) >> 48) as usize
}

impl Guesses {
    /// Guesses for so many names, none of which is noted. An error is want of memory.
    pub fn new(alloc: Global, count: usize) -> Result<Guesses, AllocError> {
        let nothing = GuessRow {
            spid: 0,
            first: 0,
            count: 0,
        };
        Ok(Guesses {
            rows: vec![in alloc; nothing; count]?,
            places: vec![in alloc; 0; count.saturating_mul(8)]?,
            free: 0,
            named: vec![in alloc; 0; NAMED]?,
        })
    }

    /// Guesses for the names of plans at these places. An error is want of memory.
    pub fn of_plans(alloc: Global, params: &Params) -> Result<Guesses, AllocError> {
        let mut guesses = Guesses::new(alloc, params.len())?;
        for at in 0..params.len() {
            guesses.note_name(&params.plan(at).name(), at);
        }
        Ok(guesses)
    }

    /// No guesses. They take no memory.
    pub fn empty(alloc: Global) -> Guesses {
        Guesses {
            rows: Vec::new(alloc),
            places: Vec::new(alloc),
            free: 0,
            named: Vec::new(alloc),
        }
    }

    /// Notes the place of a name.
    pub fn note_name(&mut self, name: &Name, at: usize) {
        let key = mixed(name);
        if key < self.named.len() {
            self.named[key] = u32::try_from(at).unwrap_or(0);
        }
    }

    /// The guess for a name, and a wrong one where there is none.
    pub fn named(&self, name: &Name) -> usize {
        match self.named.get(mixed(name)) {
            Some(place) => *place as usize,
            None => usize::MAX,
        }
    }

    // Takes a row of so many guesses, that of another kind where none is left.
    fn take_row(&mut self, count: usize) -> u32 {
        let end = self.free.saturating_add(count);
        let first = if end <= self.places.len() {
            self.free
        } else {
            0
        };
        self.free = first.saturating_add(count);
        u32::try_from(first).unwrap_or(0)
    }

    // Keeps where a row begins.
    fn keep(&mut self, at: usize, row: GuessRow) {
        if at < self.rows.len() {
            self.rows[at] = row;
        }
    }

    /// Where the row of a packet begins that is of this kind and has so many values.
    pub fn row(&mut self, spid: u32, count: usize) -> usize {
        let at = spid as usize % self.rows.len().max(1);
        if let Some(row) = self.rows.get(at) {
            if row.spid == spid && count <= row.count as usize {
                return row.first as usize;
            }
        }
        let first = self.take_row(count);
        self.keep(
            at,
            GuessRow {
                spid,
                first,
                count: u32::try_from(count).unwrap_or(0),
            },
        );
        first as usize
    }

    /// The guesses of a row that begins here, as far as there are so many.
    #[inline(always)]
    pub fn places(&self, first: usize, count: usize) -> &[u32] {
        match self.places.get(first..first.saturating_add(count)) {
            Some(places) => places,
            None => &[],
        }
    }

    /// A guess of a row, and a wrong one where there is none.
    #[inline(always)]
    pub fn place(&self, near: usize) -> usize {
        match self.places.get(near) {
            Some(place) => *place as usize,
            None => usize::MAX,
        }
    }

    /// Notes the place that was found.
    pub fn note(&mut self, near: usize, at: usize) {
        if near < self.places.len() {
            self.places[near] = u32::try_from(at).unwrap_or(0);
        }
    }
}
