// The lines of the tables of calibration.
ghost use Rattle.std.specs.Prelude.{◌≡◌, IfOk};
ghost use Rattle.mib_model.specs.TextTables.{cur, cur_cells, txf, txf_cells, txp, txp_cells};
ghost use Rattle.mib_model.specs.CurveTables.{caf, caf_cells, cap, cap_cells, mcf, mcf_cells, lgf, lgf_cells};
ghost use Rattle.mib_model.specs.Writing.{line_by};

use crate::line_writer::LineWriter;
use mib_model::{CafRow, CapRow, CurRow, LgfRow, McfRow, TxfRow, TxpRow};
use std::alloc::{AllocError, Global};

pub fn cur(alloc: Global, row: &CurRow) -> Result<Vec<u8>, AllocError>
    ensures { IfOk result (λ line. line.items ≡ line_by cur (cur_cells row.now)) }
{
    let mut out = LineWriter::new(alloc);
    out.name(1, &row.pname)?;
    out.natural(2, u64::from(row.pos))?;
    out.name(3, &row.rlchk)?;
    out.integer(4, row.valpar)?;
    out.name(5, &row.curve)?;
    Ok(out.line)
}

pub fn caf(alloc: Global, row: &CafRow) -> Result<Vec<u8>, AllocError>
    ensures { IfOk result (λ line. line.items ≡ line_by caf (caf_cells row.now)) }
{
    let mut out = LineWriter::new(alloc);
    out.name(1, &row.numbr)?;
    out.letter(3, row.engfmt)?;
    out.letter(4, row.rawfmt)?;
    out.letter(5, row.radix)?;
    out.letter(8, row.inter)?;
    Ok(out.line)
}

pub fn cap(alloc: Global, row: &CapRow) -> Result<Vec<u8>, AllocError>
    ensures { IfOk result (λ line. line.items ≡ line_by cap (cap_cells row.now)) }
{
    let mut out = LineWriter::new(alloc);
    out.name(1, &row.numbr)?;
    out.text(2, &row.xvals)?;
    out.decimal(3, row.yvals)?;
    Ok(out.line)
}

pub fn txf(alloc: Global, row: &TxfRow) -> Result<Vec<u8>, AllocError>
    ensures { IfOk result (λ line. line.items ≡ line_by txf (txf_cells row.now)) }
{
    let mut out = LineWriter::new(alloc);
    out.name(1, &row.numbr)?;
    out.letter(3, row.rawfmt)?;
    Ok(out.line)
}

pub fn txp(alloc: Global, row: &TxpRow) -> Result<Vec<u8>, AllocError>
    ensures { IfOk result (λ line. line.items ≡ line_by txp (txp_cells row.now)) }
{
    let mut out = LineWriter::new(alloc);
    out.name(1, &row.numbr)?;
    out.text(2, &row.low)?;
    out.text(3, &row.high)?;
    out.text(4, &row.altxt)?;
    Ok(out.line)
}

pub fn mcf(alloc: Global, row: &McfRow) -> Result<Vec<u8>, AllocError>
    ensures { IfOk result (λ line. line.items ≡ line_by mcf (mcf_cells row.now)) }
{
    let mut out = LineWriter::new(alloc);
    out.name(1, &row.ident)?;
    out.decimal(3, row.pol1)?;
    out.decimal(4, row.pol2)?;
    out.decimal(5, row.pol3)?;
    out.decimal(6, row.pol4)?;
    out.decimal(7, row.pol5)?;
    Ok(out.line)
}

pub fn lgf(alloc: Global, row: &LgfRow) -> Result<Vec<u8>, AllocError>
    ensures { IfOk result (λ line. line.items ≡ line_by lgf (lgf_cells row.now)) }
{
    let mut out = LineWriter::new(alloc);
    out.name(1, &row.ident)?;
    Ok(out.line)
}
