// What is known of the tables that two books have in common.
ghost use Rattle.std.specs.Prelude.{◌≡◌, List, IfOk};
ghost use Rattle.mib_keys.specs.Kept.{AreSameIn, HasAllSame, others, without};
ghost use Rattle.mib_model.specs.declared.database.Database.{Database};
ghost use Rattle.mib_model.specs.declared.rows.Row.{Row};
ghost use Rattle.mib_model.specs.Drafts.{with_rows};

use crate::kept::same_tables;
use mib_model::Kind;
use mib_tables::{Book, TableSet};
use std::alloc::AllocError;

/// All tables: those that a book has in common with its copy.
pub fn all_tables() -> TableSet
    ensures all { result ≡ others TableSet.NONE }
    ensures same { (db : Database) → AreSameIn result db db }
{
    others(TableSet::NONE)
}

// The tables of a set but for one.
fn but(set: TableSet, kind: Kind) -> TableSet
    ensures { result ≡ without set kind }
{
    match kind {
        Kind::Pcf => TableSet { pcf: false, ..set },
        Kind::Pid => TableSet { pid: false, ..set },
        Kind::Pic => TableSet { pic: false, ..set },
        Kind::Tpcf => TableSet { tpcf: false, ..set },
        Kind::Plf => TableSet { plf: false, ..set },
        Kind::Vpd => TableSet { vpd: false, ..set },
        Kind::Cur => TableSet { cur: false, ..set },
        Kind::Caf => TableSet { caf: false, ..set },
        Kind::Cap => TableSet { cap: false, ..set },
        Kind::Txf => TableSet { txf: false, ..set },
        Kind::Txp => TableSet { txp: false, ..set },
        Kind::Mcf => TableSet { mcf: false, ..set },
        Kind::Lgf => TableSet { lgf: false, ..set },
        Kind::Ocf => TableSet { ocf: false, ..set },
        Kind::Ocp => TableSet { ocp: false, ..set },
    }
}

/// Tables that two books have in common, but for one that was given other rows.
pub fn without(set: TableSet, kind: Kind) -> TableSet
    ensures set { result ≡ without set kind }
    ensures same { (old new : Database) (rows : List Row) → AreSameIn set old new → AreSameIn result old (with_rows new kind rows) }
{
    but(set, kind)
}

// The tables that a set hasn't.
fn others(set: TableSet) -> TableSet
    ensures { result ≡ others set }
{
    TableSet {
        pcf: !set.pcf,
        pid: !set.pid,
        pic: !set.pic,
        tpcf: !set.tpcf,
        plf: !set.plf,
        vpd: !set.vpd,
        cur: !set.cur,
        caf: !set.caf,
        cap: !set.cap,
        txf: !set.txf,
        txp: !set.txp,
        mcf: !set.mcf,
        lgf: !set.lgf,
        ocf: !set.ocf,
        ocp: !set.ocp,
    }
}

/// The tables that have the same rows in two books, each of them, of which some are known: only the others are compared. An
/// error is want of memory.
pub fn same_beside(known: TableSet, old: &Book, new: &Book) -> Result<TableSet, AllocError>
    requires { AreSameIn known old.now new.now }
    ensures same { IfOk result (λ same. AreSameIn same old.now new.now) }
    ensures all { IfOk result (λ same. HasAllSame same old.now new.now) }
{
    let compared = others(known);
    let old = old.part(compared)?;
    let new = new.part(compared)?;
    Ok(same_tables(&old, &new))
}
