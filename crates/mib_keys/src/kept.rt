// Which tables were kept, and which tables the flaws of a table depend on.
ghost use Rattle.std.specs.Prelude.{◌≡◌};
ghost use Rattle.mib_keys.specs.Kept.{AreSameIn, HasAllSame, contains, covers, read_by, set_of, tables_read};

use mib_model::Kind;
use mib_tables::{Book, TableSet};

/// The tables that have the same rows in two books, each of them.
pub fn same_tables(old: &Book, new: &Book) -> TableSet
    ensures same { AreSameIn result old.now new.now }
    ensures all { HasAllSame result old.now new.now }
{
    TableSet {
        pcf: old.pcf() == new.pcf(),
        pid: old.pid() == new.pid(),
        pic: old.pic() == new.pic(),
        tpcf: old.tpcf() == new.tpcf(),
        plf: old.plf() == new.plf(),
        vpd: old.vpd() == new.vpd(),
        cur: old.cur() == new.cur(),
        caf: old.caf() == new.caf(),
        cap: old.cap() == new.cap(),
        txf: old.txf() == new.txf(),
        txp: old.txp() == new.txp(),
        mcf: old.mcf() == new.mcf(),
        lgf: old.lgf() == new.lgf(),
        ocf: old.ocf() == new.ocf(),
        ocp: old.ocp() == new.ocp(),
    }
}

// The tables that the flaws of a table depend on: its own, and those that its rows refer to.
fn read_by(kind: Kind) -> &'static [Kind]
    ensures { result.now ≡ read_by kind }
{
    match kind {
        Kind::Pcf | Kind::Cur => &[
            Kind::Pcf,
            Kind::Cur,
            Kind::Caf,
            Kind::Txf,
            Kind::Mcf,
            Kind::Lgf,
        ],
        Kind::Pid => &[Kind::Pid, Kind::Vpd],
        Kind::Pic => &[Kind::Pic],
        Kind::Tpcf => &[Kind::Tpcf],
        Kind::Plf => &[Kind::Plf, Kind::Pcf, Kind::Pid],
        Kind::Vpd => &[Kind::Vpd, Kind::Pcf],
        Kind::Caf | Kind::Cap => &[Kind::Caf, Kind::Cap],
        Kind::Txf => &[Kind::Txf],
        Kind::Txp => &[Kind::Txp, Kind::Txf],
        Kind::Mcf => &[Kind::Mcf],
        Kind::Lgf => &[Kind::Lgf],
        Kind::Ocf => &[Kind::Ocf, Kind::Pcf],
        Kind::Ocp => &[Kind::Ocp, Kind::Ocf, Kind::Pcf],
    }
}

// The set of some tables.
fn set_of(tables: &[Kind]) -> TableSet
    ensures { result ≡ set_of tables.now }
{
    TableSet {
        pcf: tables.contains(&Kind::Pcf),
        pid: tables.contains(&Kind::Pid),
        pic: tables.contains(&Kind::Pic),
        tpcf: tables.contains(&Kind::Tpcf),
        plf: tables.contains(&Kind::Plf),
        vpd: tables.contains(&Kind::Vpd),
        cur: tables.contains(&Kind::Cur),
        caf: tables.contains(&Kind::Caf),
        cap: tables.contains(&Kind::Cap),
        txf: tables.contains(&Kind::Txf),
        txp: tables.contains(&Kind::Txp),
        mcf: tables.contains(&Kind::Mcf),
        lgf: tables.contains(&Kind::Lgf),
        ocf: tables.contains(&Kind::Ocf),
        ocp: tables.contains(&Kind::Ocp),
    }
}

// Whether a set has all tables of another.
fn contains(set: TableSet, part: TableSet) -> bool
    ensures { result ≡ contains set part }
{
    (set.pcf | !part.pcf)
        & (set.pid | !part.pid)
        & (set.pic | !part.pic)
        & (set.tpcf | !part.tpcf)
        & (set.plf | !part.plf)
        & (set.vpd | !part.vpd)
        & (set.cur | !part.cur)
        & (set.caf | !part.caf)
        & (set.cap | !part.cap)
        & (set.txf | !part.txf)
        & (set.txp | !part.txp)
        & (set.mcf | !part.mcf)
        & (set.lgf | !part.lgf)
        & (set.ocf | !part.ocf)
        & (set.ocp | !part.ocp)
}

/// The tables that the flaws of a table depend on.
pub fn tables_read(kind: Kind) -> TableSet
    ensures { result ≡ tables_read kind }
{
    set_of(read_by(kind))
}

/// Whether a set has all tables that the flaws of a table depend on.
pub fn covers(set: TableSet, kind: Kind) -> bool
    ensures { result ≡ covers set kind }
{
    contains(set, tables_read(kind))
}
