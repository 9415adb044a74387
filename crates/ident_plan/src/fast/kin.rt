// Rows of pid by their APID, of which one may stand alone.
ghost use Rattle.std.specs.Prelude.{◌≡◌, ◌++◌, ◌∷◌, [], List, IfOk, IfSome, get_or, length};
ghost use Rattle.mib_model.specs.declared.rows.PidRow.{PidRow};
ghost use Rattle.ident_plan.specs.declared.fast.kin.Kin.TheVariants as kinds;
ghost use Rattle.ident_plan.specs.Kins.{IsKin, AreKins};

use mib_model::PidRow;
use std::alloc::{AllocError, Global};

/// The rows of pid that are of one APID.
#[derive(Clone, Copy)]
pub enum Kin {
    Empty,
    One(PidRow),
    More,
}

impl Kin {
    // The rows of an APID with one more row behind them.
    fn with(self, row: &PidRow) -> Kin
        ensures { (rows : List PidRow) → IsKin rows self → IsKin (rows ++ row.now ∷ []) result }
    {
        match self {
            Kin::Empty => Kin::One(*row),
            _ => Kin::More,
        }
    }
}

// The number of APIDs, which have 11 bits (CCSDS 133.0-B, packet primary header).
fn apid_count() -> usize {
    2048
}

// Notes a row at its APID, if there is one.
fn note(kins: &mut [Kin], row: &PidRow)
    ensures length { length kins.new ≡ length kins.old }
    ensures kins { (pids : List PidRow) → AreKins pids kins.old → AreKins (pids ++ row.now ∷ []) kins.new }
{
    let apid = usize::from(row.apid);
    if apid < kins.len() {
        kins[apid] = kins[apid].with(row);
    }
}

/// The rows of an APID, if there is one.
#[inline(always)]
pub fn kin_at(kins: &[Kin], apid: u16) -> Option<&Kin>
    ensures { IfSome result (λ kin. kin.now ≡ get_or kins.now apid kinds.More) }
{
    let apid = usize::from(apid);
    if apid < kins.len() {
        Some(&kins[apid])
    } else {
        None
    }
}

/// The rows of each APID.
pub fn kins_of(alloc: Global, pids: &[PidRow]) -> Result<Vec<Kin>, AllocError>
    ensures { IfOk result (λ kins. AreKins pids.now kins.items) }
{
    let mut kins = Vec::from_elem(alloc, Kin::Empty, apid_count())?;
    for row in pids {
        note(&mut kins, row);
    }
    Ok(kins)
}
