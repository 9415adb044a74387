// The lines of the tables of packets.
ghost use Rattle.std.specs.Prelude.{◌≡◌, IfOk};
ghost use Rattle.mib_model.specs.PacketTables.{pid, pid_cells, pic, pic_cells, tpcf, tpcf_cells};
ghost use Rattle.mib_model.specs.LayoutTables.{plf, plf_cells, vpd, vpd_cells};
ghost use Rattle.mib_model.specs.Writing.{line_by};

use crate::line_writer::LineWriter;
use mib_model::{PicRow, PidRow, PlfRow, TpcfRow, VpdRow};
use std::alloc::{AllocError, Global};

pub fn pid(alloc: Global, row: &PidRow) -> Result<Vec<u8>, AllocError>
    ensures { IfOk result (λ line. line.items ≡ line_by pid (pid_cells row.now)) }
{
    let mut out = LineWriter::new(alloc);
    out.natural(1, u64::from(row.service))?;
    out.natural(2, u64::from(row.subtype))?;
    out.natural(3, u64::from(row.apid))?;
    out.natural(4, row.pi1_val)?;
    out.natural(5, row.pi2_val)?;
    out.natural(6, u64::from(row.spid))?;
    out.integer(9, i128::from(row.tpsd))?;
    out.natural(10, u64::from(row.dfhsize))?;
    Ok(out.line)
}

pub fn pic(alloc: Global, row: &PicRow) -> Result<Vec<u8>, AllocError>
    ensures { IfOk result (λ line. line.items ≡ line_by pic (pic_cells row.now)) }
{
    let mut out = LineWriter::new(alloc);
    out.natural(1, u64::from(row.service))?;
    out.natural(2, u64::from(row.subtype))?;
    out.integer(3, i128::from(row.pi1_off))?;
    out.natural(4, u64::from(row.pi1_wid.bits()))?;
    out.integer(5, i128::from(row.pi2_off))?;
    out.natural(6, u64::from(row.pi2_wid.bits()))?;
    out.natural_or_none(7, row.apid.map(u64::from))?;
    Ok(out.line)
}

pub fn tpcf(alloc: Global, row: &TpcfRow) -> Result<Vec<u8>, AllocError>
    ensures { IfOk result (λ line. line.items ≡ line_by tpcf (tpcf_cells row.now)) }
{
    let mut out = LineWriter::new(alloc);
    out.natural(1, u64::from(row.spid))?;
    out.text_or_none(2, &row.name)?;
    Ok(out.line)
}

pub fn plf(alloc: Global, row: &PlfRow) -> Result<Vec<u8>, AllocError>
    ensures { IfOk result (λ line. line.items ≡ line_by plf (plf_cells row.now)) }
{
    let mut out = LineWriter::new(alloc);
    out.name(1, &row.name)?;
    out.natural(2, u64::from(row.spid))?;
    out.natural(3, u64::from(row.offby))?;
    out.natural(4, u64::from(row.offbi))?;
    out.natural(5, u64::from(row.nbocc))?;
    out.natural(6, u64::from(row.lgocc))?;
    Ok(out.line)
}

pub fn vpd(alloc: Global, row: &VpdRow) -> Result<Vec<u8>, AllocError>
    ensures { IfOk result (λ line. line.items ≡ line_by vpd (vpd_cells row.now)) }
{
    let mut out = LineWriter::new(alloc);
    out.natural(1, u64::from(row.tpsd))?;
    out.natural(2, u64::from(row.pos))?;
    out.name(3, &row.name)?;
    out.natural(4, u64::from(row.grpsize))?;
    out.natural(5, u64::from(row.fixrep))?;
    out.letter(6, row.choice)?;
    out.letter(7, row.pidref)?;
    out.integer(14, i128::from(row.offset))?;
    Ok(out.line)
}
