// The tables of parameters and their checks.
ghost use Rattle.std.specs.Prelude.{◌≡◌};
ghost use Rattle.mib_model.specs.ColumnRows.{made_by};
ghost use Rattle.mib_model.specs.RowTexts.{has_states};
ghost use Rattle.mib_model.specs.ParameterTables.{pcf, pcf_row, ocf, ocf_row, ocp, ocp_row};
ghost use Rattle.mib_rows.specs.RowsRead.{rows_read};

use crate::fields::Fields;
use crate::row::ReadRow;
use dec_num::trim;
use mib_model::{
    ID_MOST, LineFault, OCTET_MOST, OcfRow, OcpRow, PcfRow, RAW_LEAST, RAW_MOST, WIDTH_MOST,
    WORD_MOST,
};

impl ReadRow for PcfRow {
    ghost reads = { made_by pcf pcf_row };

    ghost is_row = { rows_read.of_pcf };

    fn read(row: &Fields) -> Result<PcfRow, LineFault> {
        row.need(1)?;
        Ok(PcfRow {
            name: row.column(1).name()?,
            pid: row
                .column(3)
                .natural_or_none(0, ID_MOST)?
                .map(|pid| pid as u32),
            ptc: row.column(5).natural_or(0, OCTET_MOST, 0)? as u8,
            pfc: row.column(6).natural_or(0, WORD_MOST, 0)? as u16,
            width: row.column(7).natural_or(0, WIDTH_MOST, 0)? as u32,
            valid: row.column(8).name_or_none()?,
            categ: row.column(10).letter_or(b"NST", b'N')?,
            natur: row.column(11).capital_or(b'R')?,
            curtx: row.column(12).name_or_none()?,
            decim: row.column(15).natural_or(0, OCTET_MOST, 0)? as u8,
            valpar: row.column(18).integer_or(RAW_LEAST, RAW_MOST, 1)?,
            endian: row.column(23).letter_or(b"BL", b'B')?,
        })
    }
}

impl ReadRow for OcfRow {
    ghost reads = { made_by ocf ocf_row };

    ghost is_row = { rows_read.of_ocf };

    fn read(row: &Fields) -> Result<OcfRow, LineFault> {
        row.need(4)?;
        Ok(OcfRow {
            name: row.column(1).name()?,
            nbchck: row.column(2).natural(1, OCTET_MOST)? as u8,
            inter: row.column(4).letter(b"UC")?,
            codin: row.column(5).letter_or(b"RAI", b'R')?,
        })
    }
}

// Whether the bounds of a row are states, by its third field.
fn are_states(row: &Fields) -> bool
    ensures { result ≡ has_states row.now }
{
    match trim(row.column(3).octets) {
        [letter] => *letter == b'C' || *letter == b'E',
        _ => false,
    }
}

impl ReadRow for OcpRow {
    ghost reads = { λ fields. made_by (ocp (has_states fields)) (ocp_row (has_states fields)) fields };

    ghost is_row = { rows_read.of_ocp };

    fn read(row: &Fields) -> Result<OcpRow, LineFault> {
        row.need(3)?;
        let states = are_states(row);
        Ok(OcpRow {
            name: row.column(1).name()?,
            pos: row.column(2).natural(0, WORD_MOST)? as u16,
            sort: row.column(3).letter(b"SHDCE")?,
            lvalu: row.column(4).bound(states)?,
            hvalu: row.column(5).bound(states)?,
            rlchk: row.column(6).name_or_none()?,
            valpar: row.column(7).integer_or(RAW_LEAST, RAW_MOST, 1)?,
        })
    }
}
