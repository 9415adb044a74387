// What soundness reads of rows.
ghost use Rattle.std.specs.Prelude.{◌≡◌, IsTrue, length, map, true};
ghost use Rattle.mib_keys.specs.Kept.{AreSameIn};
ghost use Rattle.mib_keys.specs.Read.{cap_read, mcf_read, ocf_read, ocp_read, pcf_read, read_of};

use mib_model::{Bound, CapRow, Dec, McfRow, OcfRow, OcpRow, PcfRow};
use mib_tables::{Book, TableSet};
use row_sameness::{Same, same_row};

/// No number.
const NOUGHT: Dec = Dec { m: 0, e: 0 };

// A row of which soundness reads some columns.
trait Read: Same + Drop {
    ghost read: { Self → Self };

    // The row with the columns alone that are read.
    fn read(&self) -> Self
        ensures { result ≡ read self.now };
}

impl Read for PcfRow {
    ghost read = { pcf_read };

    fn read(&self) -> PcfRow {
        PcfRow {
            pid: None,
            decim: 0,
            valpar: 0,
            ..*self
        }
    }
}

impl Read for CapRow {
    ghost read = { cap_read };

    fn read(&self) -> CapRow {
        CapRow {
            yvals: NOUGHT,
            ..*self
        }
    }
}

impl Read for McfRow {
    ghost read = { mcf_read };

    fn read(&self) -> McfRow {
        McfRow {
            ident: self.ident,
            pol1: NOUGHT,
            pol2: NOUGHT,
            pol3: NOUGHT,
            pol4: NOUGHT,
            pol5: NOUGHT,
        }
    }
}

impl Read for OcfRow {
    ghost read = { ocf_read };

    fn read(&self) -> OcfRow {
        OcfRow {
            name: self.name,
            nbchck: 0,
            inter: 0,
            codin: 0,
        }
    }
}

impl Read for OcpRow {
    ghost read = { ocp_read };

    fn read(&self) -> OcpRow {
        OcpRow {
            sort: 0,
            lvalu: Bound::Empty,
            hvalu: Bound::Empty,
            valpar: 0,
            ..*self
        }
    }
}

// Whether what is read of each of some rows is the same as of the one beside it.
fn are_alike_beside<R: Read>(old: &[R], new: &[R]) -> bool
    requires { length old.now ≡ length new.now }
    ensures { IsTrue result → map R.read old.now ≡ map R.read new.now }
{
    for (old, new) in old.iter().zip(new) {
        if !same_row(&old.read(), &new.read()) {
            return false;
        }
    }
    true
}

// Whether what is read of two lists of rows is the same, which may be known to be the same.
fn are_alike<R: Read>(same: bool, old: &[R], new: &[R]) -> bool
    requires { same ≡ true → old.now ≡ new.now }
    ensures { IsTrue result → map R.read old.now ≡ map R.read new.now }
{
    same || (old.len() == new.len() && are_alike_beside(old, new))
}

/// The tables of which soundness reads the same in two books, of which tables are known that have the same rows.
pub fn alike_tables(same: TableSet, old: &Book, new: &Book) -> TableSet
    requires { AreSameIn same old.now new.now }
    ensures { AreSameIn result (read_of old.now) (read_of new.now) }
{
    TableSet {
        pcf: are_alike(same.pcf, old.pcf(), new.pcf()),
        cap: are_alike(same.cap, old.cap(), new.cap()),
        mcf: are_alike(same.mcf, old.mcf(), new.mcf()),
        ocf: are_alike(same.ocf, old.ocf(), new.ocf()),
        ocp: are_alike(same.ocp, old.ocp(), new.ocp()),
        ..same
    }
}
