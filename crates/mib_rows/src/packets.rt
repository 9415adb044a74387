// The tables of packets.
ghost use Rattle.std.specs.Prelude.{◌≡◌};
ghost use Rattle.mib_model.specs.ColumnRows.{made_by};
ghost use Rattle.mib_model.specs.PacketTables.{pid, pid_row, pic, pic_row, tpcf, tpcf_row};
ghost use Rattle.mib_model.specs.LayoutTables.{plf, plf_row, vpd, vpd_row};
ghost use Rattle.mib_rows.specs.RowsRead.{rows_read};

use crate::fields::Fields;
use crate::row::ReadRow;
use mib_model::{
    BIT_LAST, DISCRIMINANT_BITS, DISCRIMINANT_MOST, DiscriminantWidth, ID_MOST, LineFault,
    OCTET_LAST, OCTET_MOST, OFFSET_LEAST, OFFSET_MOST, PicRow, PidRow, PlfRow, TPSD_MOST, TpcfRow,
    VpdRow, WORD_MOST,
};

impl ReadRow for PidRow {
    ghost reads = { made_by pid pid_row };

    ghost is_row = { rows_read.of_pid };

    fn read(row: &Fields) -> Result<PidRow, LineFault> {
        row.need(6)?;
        Ok(PidRow {
            service: row.column(1).natural(0, OCTET_MOST)? as u8,
            subtype: row.column(2).natural(0, OCTET_MOST)? as u8,
            apid: row.column(3).natural(0, WORD_MOST)? as u16,
            pi1_val: row.column(4).natural_or(0, DISCRIMINANT_MOST, 0)?,
            pi2_val: row.column(5).natural_or(0, DISCRIMINANT_MOST, 0)?,
            spid: row.column(6).natural(1, ID_MOST)? as u32,
            tpsd: row.column(9).integer_or(-1, i128::from(TPSD_MOST), -1)? as i32,
            dfhsize: row.column(10).natural_or(0, OCTET_MOST, 0)? as u8,
        })
    }
}

impl ReadRow for PicRow {
    ghost reads = { made_by pic pic_row };

    ghost is_row = { rows_read.of_pic };

    fn read(row: &Fields) -> Result<PicRow, LineFault> {
        row.need(2)?;
        Ok(PicRow {
            service: row.column(1).natural(0, OCTET_MOST)? as u8,
            subtype: row.column(2).natural(0, OCTET_MOST)? as u8,
            pi1_off: row.column(3).integer_or(-1, i128::from(OCTET_LAST), -1)? as i32,
            pi1_wid: DiscriminantWidth::new(
                row.column(4).natural_or(0, DISCRIMINANT_BITS, 0)? as u8,
            ),
            pi2_off: row.column(5).integer_or(-1, i128::from(OCTET_LAST), -1)? as i32,
            pi2_wid: DiscriminantWidth::new(
                row.column(6).natural_or(0, DISCRIMINANT_BITS, 0)? as u8,
            ),
            apid: row
                .column(7)
                .natural_or_none(0, WORD_MOST)?
                .map(|apid| apid as u16),
        })
    }
}

impl ReadRow for TpcfRow {
    ghost reads = { made_by tpcf tpcf_row };

    ghost is_row = { rows_read.of_tpcf };

    fn read(row: &Fields) -> Result<TpcfRow, LineFault> {
        row.need(1)?;
        Ok(TpcfRow {
            spid: row.column(1).natural(1, ID_MOST)? as u32,
            name: row.column(2).text_or_none()?,
        })
    }
}

impl ReadRow for PlfRow {
    ghost reads = { made_by plf plf_row };

    ghost is_row = { rows_read.of_plf };

    fn read(row: &Fields) -> Result<PlfRow, LineFault> {
        row.need(4)?;
        Ok(PlfRow {
            name: row.column(1).name()?,
            spid: row.column(2).natural(1, ID_MOST)? as u32,
            offby: row.column(3).natural(0, OCTET_LAST)? as u32,
            offbi: row.column(4).natural(0, BIT_LAST)? as u8,
            nbocc: row.column(5).natural_or(1, WORD_MOST, 1)? as u16,
            lgocc: row.column(6).natural_or(0, WORD_MOST, 0)? as u16,
        })
    }
}

impl ReadRow for VpdRow {
    ghost reads = { made_by vpd vpd_row };

    ghost is_row = { rows_read.of_vpd };

    fn read(row: &Fields) -> Result<VpdRow, LineFault> {
        row.need(3)?;
        Ok(VpdRow {
            tpsd: row.column(1).natural(1, TPSD_MOST)? as u32,
            pos: row.column(2).natural(0, WORD_MOST)? as u16,
            name: row.column(3).name()?,
            grpsize: row.column(4).natural_or(0, WORD_MOST, 0)? as u16,
            fixrep: row.column(5).natural_or(0, WORD_MOST, 0)? as u16,
            choice: row.column(6).letter_or(b"YN", b'N')?,
            pidref: row.column(7).letter_or(b"YN", b'N')?,
            offset: row.column(14).integer_or(OFFSET_LEAST, OFFSET_MOST, 0)? as i32,
        })
    }
}
