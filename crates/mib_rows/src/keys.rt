// The keys of the tables: their fields stand one behind the other, each in the form of its own column.
ghost use Rattle.std.specs.Prelude.{◌≡◌, ◌∷◌, []};
ghost use Rattle.mib_model.specs.ColumnRows.{key_made_by};
ghost use Rattle.mib_model.specs.Columns.{Must};
ghost use Rattle.mib_model.specs.Forms.{Named};
ghost use Rattle.mib_model.specs.RowTexts.{key_of};

use crate::fields::Fields;
use mib_model::{ID_MOST, Key, Kind, LineFault, Name, OCTET_MOST, TPSD_MOST, WORD_MOST};

// A key that is one name, in the first column.
fn one_name(row: &Fields) -> Result<Name, LineFault>
    ensures { result ≡ key_made_by (Must 1 Named ∷ []) (λ (name, end). name) row.now }
{
    row.need(1)?;
    row.column(1).name()
}

#[tactic(auto, unfolding(mib_model::specs::RowTexts::key_of))]
fn pid(row: &Fields) -> Result<Key, LineFault>
    ensures { result ≡ key_of Kind.Pid row.now }
{
    row.need(1)?;
    Ok(Key::Pid {
        spid: row.part(1, 6).natural(1, ID_MOST)? as u32,
    })
}

#[tactic(auto, unfolding(mib_model::specs::RowTexts::key_of))]
fn pic(row: &Fields) -> Result<Key, LineFault>
    ensures { result ≡ key_of Kind.Pic row.now }
{
    row.need(2)?;
    Ok(Key::Pic {
        service: row.column(1).natural(0, OCTET_MOST)? as u8,
        subtype: row.column(2).natural(0, OCTET_MOST)? as u8,
        apid: row
            .part(3, 7)
            .natural_or_none(0, WORD_MOST)?
            .map(|apid| apid as u16),
    })
}

#[tactic(auto, unfolding(mib_model::specs::RowTexts::key_of))]
fn tpcf(row: &Fields) -> Result<Key, LineFault>
    ensures { result ≡ key_of Kind.Tpcf row.now }
{
    row.need(1)?;
    Ok(Key::Tpcf {
        spid: row.column(1).natural(1, ID_MOST)? as u32,
    })
}

#[tactic(auto, unfolding(mib_model::specs::RowTexts::key_of))]
fn plf(row: &Fields) -> Result<Key, LineFault>
    ensures { result ≡ key_of Kind.Plf row.now }
{
    row.need(2)?;
    Ok(Key::Plf {
        name: row.column(1).name()?,
        spid: row.column(2).natural(1, ID_MOST)? as u32,
    })
}

#[tactic(auto, unfolding(mib_model::specs::RowTexts::key_of))]
fn vpd(row: &Fields) -> Result<Key, LineFault>
    ensures { result ≡ key_of Kind.Vpd row.now }
{
    row.need(2)?;
    Ok(Key::Vpd {
        tpsd: row.column(1).natural(1, TPSD_MOST)? as u32,
        pos: row.column(2).natural(0, WORD_MOST)? as u16,
    })
}

#[tactic(auto, unfolding(mib_model::specs::RowTexts::key_of))]
fn cur(row: &Fields) -> Result<Key, LineFault>
    ensures { result ≡ key_of Kind.Cur row.now }
{
    row.need(2)?;
    Ok(Key::Cur {
        pname: row.column(1).name()?,
        pos: row.column(2).natural(0, WORD_MOST)? as u16,
    })
}

#[tactic(auto, unfolding(mib_model::specs::RowTexts::key_of))]
fn cap(row: &Fields) -> Result<Key, LineFault>
    ensures { result ≡ key_of Kind.Cap row.now }
{
    row.need(2)?;
    Ok(Key::Cap {
        numbr: row.column(1).name()?,
        xvals: row.column(2).text()?,
    })
}

#[tactic(auto, unfolding(mib_model::specs::RowTexts::key_of))]
fn txp(row: &Fields) -> Result<Key, LineFault>
    ensures { result ≡ key_of Kind.Txp row.now }
{
    row.need(2)?;
    Ok(Key::Txp {
        numbr: row.column(1).name()?,
        low: row.column(2).text()?,
    })
}

#[tactic(auto, unfolding(mib_model::specs::RowTexts::key_of))]
fn ocp(row: &Fields) -> Result<Key, LineFault>
    ensures { result ≡ key_of Kind.Ocp row.now }
{
    row.need(2)?;
    Ok(Key::Ocp {
        name: row.column(1).name()?,
        pos: row.column(2).natural(0, WORD_MOST)? as u16,
    })
}

/// The key of a table that these fields are, or the first fault.
#[tactic(auto, unfolding(mib_model::specs::RowTexts::key_of))]
pub fn key(kind: Kind, row: &Fields) -> Result<Key, LineFault>
    ensures { result ≡ key_of kind row.now }
{
    match kind {
        Kind::Pcf => Ok(Key::Pcf {
            name: one_name(row)?,
        }),
        Kind::Pid => pid(row),
        Kind::Pic => pic(row),
        Kind::Tpcf => tpcf(row),
        Kind::Plf => plf(row),
        Kind::Vpd => vpd(row),
        Kind::Cur => cur(row),
        Kind::Caf => Ok(Key::Caf {
            numbr: one_name(row)?,
        }),
        Kind::Cap => cap(row),
        Kind::Txf => Ok(Key::Txf {
            numbr: one_name(row)?,
        }),
        Kind::Txp => txp(row),
        Kind::Mcf => Ok(Key::Mcf {
            ident: one_name(row)?,
        }),
        Kind::Lgf => Ok(Key::Lgf {
            ident: one_name(row)?,
        }),
        Kind::Ocf => Ok(Key::Ocf {
            name: one_name(row)?,
        }),
        Kind::Ocp => ocp(row),
    }
}
