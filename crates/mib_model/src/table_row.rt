// One trait for the rows of the 15 tables.
ghost use Rattle.std.specs.Prelude.{◌≡◌, Option, Some};
ghost use Rattle.std.proofs.Common.{refl};
ghost use Rattle.mib_model.specs.declared.kind.Kind.{Kind};
ghost use Rattle.mib_model.specs.declared.kind.Kind.TheVariants as kind;
ghost use Rattle.mib_model.specs.declared.rows.Row.{Row};
ghost use Rattle.mib_model.specs.declared.rows.Row.TheVariants as row;
ghost use Rattle.mib_model.specs.TypedRows as rows;

use crate::kind::Kind;
use crate::rows::{
    CafRow, CapRow, CurRow, LgfRow, McfRow, OcfRow, OcpRow, PcfRow, PicRow, PidRow, PlfRow, Row,
    TpcfRow, TxfRow, TxpRow, VpdRow,
};

/// A row of one table, which is also a row of any table.
pub trait TableRow: Copy + Drop {
    ghost kind: { Kind };

    ghost as_row: { Self → Row };

    ghost from_row: { Row → Option Self };

    /// Its table.
    fn kind() -> Kind
        ensures { result ≡ kind };

    /// It as a row of any table.
    fn to_row(&self) -> Row
        ensures { result ≡ as_row self.now };

    /// The row of this table that a row is, if it is one.
    fn from_row(row: &Row) -> Option<Self>
        ensures { result ≡ from_row row.now };

    // A row is itself again behind a row of any table.
    ghost back: { (r : Self) → from_row (as_row r) ≡ Some r };
}

impl TableRow for PcfRow {
    ghost kind = { kind.Pcf };

    ghost as_row = { row.Pcf };

    ghost from_row = { rows.as_pcf };

    ghost back = { λ r. refl };

    fn kind() -> Kind {
        Kind::Pcf
    }

    fn to_row(&self) -> Row {
        Row::Pcf(*self)
    }

    fn from_row(row: &Row) -> Option<PcfRow> {
        match row {
            Row::Pcf(row) => Some(*row),
            _ => None,
        }
    }
}

impl TableRow for PidRow {
    ghost kind = { kind.Pid };

    ghost as_row = { row.Pid };

    ghost from_row = { rows.as_pid };

    ghost back = { λ r. refl };

    fn kind() -> Kind {
        Kind::Pid
    }

    fn to_row(&self) -> Row {
        Row::Pid(*self)
    }

    fn from_row(row: &Row) -> Option<PidRow> {
        match row {
            Row::Pid(row) => Some(*row),
            _ => None,
        }
    }
}

impl TableRow for PicRow {
    ghost kind = { kind.Pic };

    ghost as_row = { row.Pic };

    ghost from_row = { rows.as_pic };

    ghost back = { λ r. refl };

    fn kind() -> Kind {
        Kind::Pic
    }

    fn to_row(&self) -> Row {
        Row::Pic(*self)
    }

    fn from_row(row: &Row) -> Option<PicRow> {
        match row {
            Row::Pic(row) => Some(*row),
            _ => None,
        }
    }
}

impl TableRow for TpcfRow {
    ghost kind = { kind.Tpcf };

    ghost as_row = { row.Tpcf };

    ghost from_row = { rows.as_tpcf };

    ghost back = { λ r. refl };

    fn kind() -> Kind {
        Kind::Tpcf
    }

    fn to_row(&self) -> Row {
        Row::Tpcf(*self)
    }

    fn from_row(row: &Row) -> Option<TpcfRow> {
        match row {
            Row::Tpcf(row) => Some(*row),
            _ => None,
        }
    }
}

impl TableRow for PlfRow {
    ghost kind = { kind.Plf };

    ghost as_row = { row.Plf };

    ghost from_row = { rows.as_plf };

    ghost back = { λ r. refl };

    fn kind() -> Kind {
        Kind::Plf
    }

    fn to_row(&self) -> Row {
        Row::Plf(*self)
    }

    fn from_row(row: &Row) -> Option<PlfRow> {
        match row {
            Row::Plf(row) => Some(*row),
            _ => None,
        }
    }
}

impl TableRow for VpdRow {
    ghost kind = { kind.Vpd };

    ghost as_row = { row.Vpd };

    ghost from_row = { rows.as_vpd };

    ghost back = { λ r. refl };

    fn kind() -> Kind {
        Kind::Vpd
    }

    fn to_row(&self) -> Row {
        Row::Vpd(*self)
    }

    fn from_row(row: &Row) -> Option<VpdRow> {
        match row {
            Row::Vpd(row) => Some(*row),
            _ => None,
        }
    }
}

impl TableRow for CurRow {
    ghost kind = { kind.Cur };

    ghost as_row = { row.Cur };

    ghost from_row = { rows.as_cur };

    ghost back = { λ r. refl };

    fn kind() -> Kind {
        Kind::Cur
    }

    fn to_row(&self) -> Row {
        Row::Cur(*self)
    }

    fn from_row(row: &Row) -> Option<CurRow> {
        match row {
            Row::Cur(row) => Some(*row),
            _ => None,
        }
    }
}

impl TableRow for CafRow {
    ghost kind = { kind.Caf };

    ghost as_row = { row.Caf };

    ghost from_row = { rows.as_caf };

    ghost back = { λ r. refl };

    fn kind() -> Kind {
        Kind::Caf
    }

    fn to_row(&self) -> Row {
        Row::Caf(*self)
    }

    fn from_row(row: &Row) -> Option<CafRow> {
        match row {
            Row::Caf(row) => Some(*row),
            _ => None,
        }
    }
}

impl TableRow for CapRow {
    ghost kind = { kind.Cap };

    ghost as_row = { row.Cap };

    ghost from_row = { rows.as_cap };

    ghost back = { λ r. refl };

    fn kind() -> Kind {
        Kind::Cap
    }

    fn to_row(&self) -> Row {
        Row::Cap(*self)
    }

    fn from_row(row: &Row) -> Option<CapRow> {
        match row {
            Row::Cap(row) => Some(*row),
            _ => None,
        }
    }
}

impl TableRow for TxfRow {
    ghost kind = { kind.Txf };

    ghost as_row = { row.Txf };

    ghost from_row = { rows.as_txf };

    ghost back = { λ r. refl };

    fn kind() -> Kind {
        Kind::Txf
    }

    fn to_row(&self) -> Row {
        Row::Txf(*self)
    }

    fn from_row(row: &Row) -> Option<TxfRow> {
        match row {
            Row::Txf(row) => Some(*row),
            _ => None,
        }
    }
}

impl TableRow for TxpRow {
    ghost kind = { kind.Txp };

    ghost as_row = { row.Txp };

    ghost from_row = { rows.as_txp };

    ghost back = { λ r. refl };

    fn kind() -> Kind {
        Kind::Txp
    }

    fn to_row(&self) -> Row {
        Row::Txp(*self)
    }

    fn from_row(row: &Row) -> Option<TxpRow> {
        match row {
            Row::Txp(row) => Some(*row),
            _ => None,
        }
    }
}

impl TableRow for McfRow {
    ghost kind = { kind.Mcf };

    ghost as_row = { row.Mcf };

    ghost from_row = { rows.as_mcf };

    ghost back = { λ r. refl };

    fn kind() -> Kind {
        Kind::Mcf
    }

    fn to_row(&self) -> Row {
        Row::Mcf(*self)
    }

    fn from_row(row: &Row) -> Option<McfRow> {
        match row {
            Row::Mcf(row) => Some(*row),
            _ => None,
        }
    }
}

impl TableRow for LgfRow {
    ghost kind = { kind.Lgf };

    ghost as_row = { row.Lgf };

    ghost from_row = { rows.as_lgf };

    ghost back = { λ r. refl };

    fn kind() -> Kind {
        Kind::Lgf
    }

    fn to_row(&self) -> Row {
        Row::Lgf(*self)
    }

    fn from_row(row: &Row) -> Option<LgfRow> {
        match row {
            Row::Lgf(row) => Some(*row),
            _ => None,
        }
    }
}

impl TableRow for OcfRow {
    ghost kind = { kind.Ocf };

    ghost as_row = { row.Ocf };

    ghost from_row = { rows.as_ocf };

    ghost back = { λ r. refl };

    fn kind() -> Kind {
        Kind::Ocf
    }

    fn to_row(&self) -> Row {
        Row::Ocf(*self)
    }

    fn from_row(row: &Row) -> Option<OcfRow> {
        match row {
            Row::Ocf(row) => Some(*row),
            _ => None,
        }
    }
}

impl TableRow for OcpRow {
    ghost kind = { kind.Ocp };

    ghost as_row = { row.Ocp };

    ghost from_row = { rows.as_ocp };

    ghost back = { λ r. refl };

    fn kind() -> Kind {
        Kind::Ocp
    }

    fn to_row(&self) -> Row {
        Row::Ocp(*self)
    }

    fn from_row(row: &Row) -> Option<OcpRow> {
        match row {
            Row::Ocp(row) => Some(*row),
            _ => None,
        }
    }
}
