// The rows of structures by POS, with the ends of their groups. [SCOS-2000 Database Import ICD, vpd.]
ghost use Rattle.std.specs.Prelude.{◌≡◌, ◌≤◌, ◌++◌, ◌∷◌, [], ℕ, filter, length, map, nat_lt, OnOk, IfOk, if◌then◌else◌};
ghost use Rattle.mib_model.specs.Orders.{sorted_by};
ghost use Rattle.row_flaws.specs.Structures.{spot_of, spots_at, by_pos, is_in, is_end_before, passes_spots, RisesByPos, IsByPos, IsNearest};

use mib_model::VpdRow;
use std::alloc::{AllocError, Global};
use std::collections::{BTreeSet, HashMap};
use std::marker::Model;

/// What the groups of a structure are told by: the TPSD, the POS and the GRPSIZE of a row.
#[derive(Clone, Copy)]
pub struct Spot {
    pub tpsd: u32,
    pub pos: u16,
    pub grpsize: u16,
}

/// The rows of a structure by POS. Contracts see the list of them.
pub struct StructureSpots {
    spots: Vec<Spot>,
    // for each place, the least end from there on of the groups of the rows before it
    nearest: Vec<Option<usize>>,
    // the ends of the groups of all rows
    ends: BTreeSet<usize>,
}

/// By hand, so that whoever lets one go proves one call.
impl Drop for StructureSpots {
    fn drop(self) {
        let StructureSpots {
            spots: _spots,
            nearest: _nearest,
            ends: _ends,
        } = self;
    }
}

impl Model for StructureSpots {
    ghost use Rattle.std.specs.Prelude.{List};
    ghost use Rattle.row_flaws.specs.declared.structures.Spot.{Spot};

    ghost Value = { List Spot };

    ghost use Rattle.row_flaws.specs.Structures.{IsSwept};

    ghost view = { λ structure. structure.spots.items };

    ghost invariant = { λ structure. IsSwept structure.spots.items structure.nearest.items structure.ends };
}

// The least end from a place on.
fn nearest_end(ends: &BTreeSet<usize>, place: usize) -> Option<usize>
    ensures { IsNearest ends.now place result }
{
    ends.range(place..).next().copied()
}

// How many rows have a smaller POS.
fn count_before(spots: &[Spot], pos: u16) -> usize
    requires { RisesByPos spots.now }
    ensures within { result ≤ length spots.now }
    ensures count { result ≡ length (filter (λ o. nat_lt o.pos pos) spots.now) }
{
    spots.partition_point(|spot| spot.pos < pos)
}

// Whether there is an end before a bound.
fn is_end_before(bound: usize, end: Option<usize>) -> bool
    ensures { result ≡ is_end_before bound end }
{
    match end {
        Some(end) => end < bound,
        None => false,
    }
}

impl StructureSpots {
    fn new(alloc: Global) -> StructureSpots
        ensures { result ≡ [] }
    {
        StructureSpots {
            spots: Vec::new(alloc),
            nearest: Vec::new(alloc),
            ends: BTreeSet::new(alloc),
        }
    }

    // The structure with one more row behind the others.
    fn with(self, spot: Spot) -> Result<StructureSpots, AllocError>
        ensures { IfOk result (λ structure. structure ≡ self ++ spot ∷ []) }
    {
        let StructureSpots {
            mut spots,
            mut nearest,
            mut ends,
        } = self;
        let place = spots.len();
        nearest.push(nearest_end(&ends, place))?;
        ends.insert(place + usize::from(spot.grpsize))?;
        spots.push(spot)?;
        Ok(StructureSpots {
            spots,
            nearest,
            ends,
        })
    }

    /// Whether the group of a row passes the last row, or the end of a group in which the row stands.
    pub fn passes(&self, row: &VpdRow) -> bool
        requires { RisesByPos self.now }
        ensures { result ≡ passes_spots self.now row.now }
    {
        let place = count_before(self.spots.as_slice(), row.pos);
        let end = place + usize::from(row.grpsize);
        end >= self.spots.len() || is_end_before(end, self.nearest[place])
    }
}

fn spot_of(row: &VpdRow) -> Spot
    ensures { result ≡ spot_of row.now }
{
    Spot {
        tpsd: row.tpsd,
        pos: row.pos,
        grpsize: row.grpsize,
    }
}

// The rows of structures in the order of the file.
fn spots_from(alloc: Global, rows: &[VpdRow]) -> Result<Vec<Spot>, AllocError>
    ensures { IfOk result (λ spots. spots.items ≡ map spot_of rows.now) }
{
    rows.iter().map(spot_of).collect(alloc)
}

// The rows of structures by POS, those of one POS in the order of the file.
fn sorted_spots(alloc: Global, rows: &[VpdRow]) -> Result<Vec<Spot>, AllocError>
    ensures { IfOk result (λ spots. IsByPos (map spot_of rows.now) spots.items) }
{
    let mut spots = spots_from(alloc, rows)?;
    spots.sort_by_key(|spot| spot.pos)?;
    Ok(spots)
}

// Puts a row behind those of its structure.
fn put_spot(
    alloc: Global,
    structures: &mut HashMap<u32, StructureSpots>,
    spot: Spot,
) -> Result<(), AllocError>
    ensures { OnOk result ((q : ℕ) → spots_at structures.new q ≡ (if is_in q spot then spots_at structures.old q ++ spot ∷ [] else spots_at structures.old q)) }
{
    let structure = match structures.remove(&spot.tpsd) {
        Some(structure) => structure,
        None => StructureSpots::new(alloc),
    };
    structures.insert(spot.tpsd, structure.with(spot)?)?;
    Ok(())
}

/// The rows of each structure by POS, those of one POS in the order of the file.
pub fn structures(
    alloc: Global,
    rows: &[VpdRow],
) -> Result<HashMap<u32, StructureSpots>, AllocError>
    ensures { IfOk result (λ structures. (q : ℕ) → spots_at structures q ≡ sorted_by by_pos (filter (is_in q) (map spot_of rows.now))) }
{
    let spots = sorted_spots(alloc, rows)?;
    let mut structures = HashMap::new(alloc);
    for spot in &spots {
        put_spot(alloc, &mut structures, *spot)?;
    }
    Ok(structures)
}
