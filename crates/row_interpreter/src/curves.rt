ghost use Rattle.std.specs.Prelude.{◌≡◌, filter, IfOk};
ghost use Rattle.std.specs.List.{find};
ghost use Rattle.std.specs.Option.{option_copied};
ghost use Rattle.std.specs.Str.{bytes_eq};
ghost use Rattle.mib_model.specs.Orders.{sorted_by_number};

use crate::ordered::OrderedRows;
use first_rows::FirstRows;
use mib_model::{CafRow, CapRow, CurRow, LgfRow, McfRow, Name, TxfRow, TxpRow};
use row_groups::RowGroups;
use row_keys::ByName;
use std::alloc::{AllocError, Global};
use std::marker::Model;

/// The rows of curves and of their selections. Contracts see the tables.
pub struct CalibrationRows {
    selections: OrderedRows<ByName<CurRow>>,
    point_curves: FirstRows<ByName<CafRow>>,
    points: RowGroups<ByName<CapRow>>,
    text_curves: FirstRows<ByName<TxfRow>>,
    texts: RowGroups<ByName<TxpRow>>,
    polynomials: FirstRows<ByName<McfRow>>,
    logarithms: FirstRows<ByName<LgfRow>>,
}

/// By hand, so that whoever lets one go proves one call.
impl Drop for CalibrationRows {
    fn drop(self) {
        let CalibrationRows {
            selections: _selections,
            point_curves: _point_curves,
            points: _points,
            text_curves: _text_curves,
            texts: _texts,
            polynomials: _polynomials,
            logarithms: _logarithms,
        } = self;
    }
}

impl Model for CalibrationRows {
    ghost use Rattle.row_interpreter.specs.Tables.{CurveTables};

    ghost Value = { CurveTables };

    ghost view = { λ rows. record {
      cur = rows.selections;
      caf = rows.point_curves;
      cap = rows.points;
      txf = rows.text_curves;
      txp = rows.texts;
      mcf = rows.polynomials;
      lgf = rows.logarithms;
    } };
}

impl CalibrationRows {
    /// The rows of cur, caf, cap, txf, txp, mcf and lgf. An error is want of memory.
    pub fn new(
        alloc: Global,
        cur: &[CurRow],
        caf: &[CafRow],
        cap: &[CapRow],
        txf: &[TxfRow],
        txp: &[TxpRow],
        mcf: &[McfRow],
        lgf: &[LgfRow],
    ) -> Result<CalibrationRows, AllocError>
        ensures { IfOk result (λ rows. rows ≡ record { cur = cur.now; caf = caf.now; cap = cap.now; txf = txf.now; txp = txp.now; mcf = mcf.now; lgf = lgf.now }) }
    {
        Ok(CalibrationRows {
            selections: OrderedRows::new(alloc, cur)?,
            point_curves: FirstRows::new(alloc, caf)?,
            points: RowGroups::new(alloc, cap)?,
            text_curves: FirstRows::new(alloc, txf)?,
            texts: RowGroups::new(alloc, txp)?,
            polynomials: FirstRows::new(alloc, mcf)?,
            logarithms: FirstRows::new(alloc, lgf)?,
        })
    }

    /// The selections of a parameter, by POS.
    pub fn selections(&self, name: &Name) -> &[CurRow]
        ensures { result.now ≡ sorted_by_number (λ row. row.pos) (filter (λ row. bytes_eq row.pname name.now) self.now.cur) }
    {
        self.selections.of(name)
    }

    /// The first curve by points of a name.
    pub fn point_curve(&self, name: &Name) -> Option<&CafRow>
        ensures { option_copied result ≡ find (λ caf. bytes_eq caf.numbr name.now) self.now.caf }
    {
        self.point_curves.find(name)
    }

    /// The points of a name, in the order of their file.
    pub fn points(&self, name: &Name) -> &[CapRow]
        ensures { result.now ≡ filter (λ cap. bytes_eq cap.numbr name.now) self.now.cap }
    {
        self.points.of(name)
    }

    /// The first curve by texts of a name.
    pub fn text_curve(&self, name: &Name) -> Option<&TxfRow>
        ensures { option_copied result ≡ find (λ txf. bytes_eq txf.numbr name.now) self.now.txf }
    {
        self.text_curves.find(name)
    }

    /// The texts of a name, in the order of their file.
    pub fn texts(&self, name: &Name) -> &[TxpRow]
        ensures { result.now ≡ filter (λ txp. bytes_eq txp.numbr name.now) self.now.txp }
    {
        self.texts.of(name)
    }

    /// The first polynomial of a name.
    pub fn polynomial(&self, name: &Name) -> Option<&McfRow>
        ensures { option_copied result ≡ find (λ mcf. bytes_eq mcf.ident name.now) self.now.mcf }
    {
        self.polynomials.find(name)
    }

    /// The first logarithmic curve of a name.
    pub fn logarithm(&self, name: &Name) -> Option<&LgfRow>
        ensures { option_copied result ≡ find (λ lgf. bytes_eq lgf.ident name.now) self.now.lgf }
    {
        self.logarithms.find(name)
    }
}
