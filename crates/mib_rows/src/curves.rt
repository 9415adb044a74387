// The tables of calibration.
ghost use Rattle.std.specs.Prelude.{◌≡◌};
ghost use Rattle.mib_model.specs.ColumnRows.{made_by};
ghost use Rattle.mib_model.specs.TextTables.{cur, cur_row, txf, txf_row, txp, txp_row};
ghost use Rattle.mib_model.specs.CurveTables.{caf, caf_row, cap, cap_row, mcf, mcf_row, lgf, lgf_row};
ghost use Rattle.mib_rows.specs.RowsRead.{rows_read};

use crate::fields::Fields;
use crate::row::ReadRow;
use mib_model::{
    CafRow, CapRow, CurRow, LgfRow, LineFault, McfRow, RAW_LEAST, RAW_MOST, TxfRow, TxpRow,
    WORD_MOST,
};

impl ReadRow for CurRow {
    ghost reads = { made_by cur cur_row };

    ghost is_row = { rows_read.of_cur };

    fn read(row: &Fields) -> Result<CurRow, LineFault> {
        row.need(5)?;
        Ok(CurRow {
            pname: row.column(1).name()?,
            pos: row.column(2).natural(0, WORD_MOST)? as u16,
            rlchk: row.column(3).name()?,
            valpar: row.column(4).integer(RAW_LEAST, RAW_MOST)?,
            curve: row.column(5).name()?,
        })
    }
}

impl ReadRow for CafRow {
    ghost reads = { made_by caf caf_row };

    ghost is_row = { rows_read.of_caf };

    fn read(row: &Fields) -> Result<CafRow, LineFault> {
        row.need(1)?;
        Ok(CafRow {
            numbr: row.column(1).name()?,
            engfmt: row.column(3).letter_or(b"IUR", b'R')?,
            rawfmt: row.column(4).letter_or(b"IUR", b'U')?,
            radix: row.column(5).letter_or(b"DHO", b'D')?,
            inter: row.column(8).letter_or(b"PF", b'F')?,
        })
    }
}

impl ReadRow for CapRow {
    ghost reads = { made_by cap cap_row };

    ghost is_row = { rows_read.of_cap };

    fn read(row: &Fields) -> Result<CapRow, LineFault> {
        row.need(3)?;
        Ok(CapRow {
            numbr: row.column(1).name()?,
            xvals: row.column(2).text()?,
            yvals: row.column(3).decimal()?,
        })
    }
}

impl ReadRow for TxfRow {
    ghost reads = { made_by txf txf_row };

    ghost is_row = { rows_read.of_txf };

    fn read(row: &Fields) -> Result<TxfRow, LineFault> {
        row.need(1)?;
        Ok(TxfRow {
            numbr: row.column(1).name()?,
            rawfmt: row.column(3).letter_or(b"IUR", b'U')?,
        })
    }
}

impl ReadRow for TxpRow {
    ghost reads = { made_by txp txp_row };

    ghost is_row = { rows_read.of_txp };

    fn read(row: &Fields) -> Result<TxpRow, LineFault> {
        row.need(4)?;
        Ok(TxpRow {
            numbr: row.column(1).name()?,
            low: row.column(2).text()?,
            high: row.column(3).text()?,
            altxt: row.column(4).text()?,
        })
    }
}

impl ReadRow for McfRow {
    ghost reads = { made_by mcf mcf_row };

    ghost is_row = { rows_read.of_mcf };

    fn read(row: &Fields) -> Result<McfRow, LineFault> {
        row.need(3)?;
        Ok(McfRow {
            ident: row.column(1).name()?,
            pol1: row.column(3).decimal()?,
            pol2: row.column(4).decimal_or_zero()?,
            pol3: row.column(5).decimal_or_zero()?,
            pol4: row.column(6).decimal_or_zero()?,
            pol5: row.column(7).decimal_or_zero()?,
        })
    }
}

impl ReadRow for LgfRow {
    ghost reads = { made_by lgf lgf_row };

    ghost is_row = { rows_read.of_lgf };

    fn read(row: &Fields) -> Result<LgfRow, LineFault> {
        row.need(1)?;
        Ok(LgfRow {
            ident: row.column(1).name()?,
        })
    }
}
