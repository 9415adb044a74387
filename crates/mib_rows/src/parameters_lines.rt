// The lines of the tables of parameters and their checks.
ghost use Rattle.std.specs.Prelude.{◌≡◌, IfOk};
ghost use Rattle.mib_model.specs.ParameterTables.{pcf, pcf_cells, ocf, ocf_cells, ocp, ocp_cells};
ghost use Rattle.mib_model.specs.Writing.{line_by};
ghost use Rattle.mib_model.specs.RowTexts.{is_of_states};

use crate::line_writer::LineWriter;
use mib_model::{OcfRow, OcpRow, PcfRow};
use std::alloc::{AllocError, Global};

pub fn pcf(alloc: Global, row: &PcfRow) -> Result<Vec<u8>, AllocError>
    ensures { IfOk result (λ line. line.items ≡ line_by pcf (pcf_cells row.now)) }
{
    let mut out = LineWriter::new(alloc);
    out.name(1, &row.name)?;
    out.natural_or_none(3, row.pid.map(u64::from))?;
    out.natural(5, u64::from(row.ptc))?;
    out.natural(6, u64::from(row.pfc))?;
    out.natural(7, u64::from(row.width))?;
    out.name_or_none(8, &row.valid)?;
    out.letter(10, row.categ)?;
    out.letter(11, row.natur)?;
    out.name_or_none(12, &row.curtx)?;
    out.natural(15, u64::from(row.decim))?;
    out.integer(18, row.valpar)?;
    out.letter(23, row.endian)?;
    Ok(out.line)
}

pub fn ocf(alloc: Global, row: &OcfRow) -> Result<Vec<u8>, AllocError>
    ensures { IfOk result (λ line. line.items ≡ line_by ocf (ocf_cells row.now)) }
{
    let mut out = LineWriter::new(alloc);
    out.name(1, &row.name)?;
    out.natural(2, u64::from(row.nbchck))?;
    out.letter(4, row.inter)?;
    out.letter(5, row.codin)?;
    Ok(out.line)
}

pub fn ocp(alloc: Global, row: &OcpRow) -> Result<Vec<u8>, AllocError>
    ensures { IfOk result (λ line. line.items ≡ line_by (ocp (is_of_states row.now.sort)) (ocp_cells (is_of_states row.now.sort) row.now)) }
{
    let mut out = LineWriter::new(alloc);
    out.name(1, &row.name)?;
    out.natural(2, u64::from(row.pos))?;
    out.letter(3, row.sort)?;
    out.bound(4, &row.lvalu)?;
    out.bound(5, &row.hvalu)?;
    out.name_or_none(6, &row.rlchk)?;
    out.integer(7, row.valpar)?;
    Ok(out.line)
}
