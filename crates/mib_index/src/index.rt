ghost use Rattle.std.specs.Prelude.{◌≡◌, IfOk};

use crate::firsts::Firsts;
use crate::groups::Groups;
use mib_model::{CafRow, CapRow, CurRow, LgfRow, McfRow, OcfRow, PcfRow, TxfRow};
use mib_tables::Book;
use row_keys::{ByName, ByStructure};
use std::alloc::{AllocError, Global};
use std::marker::Model;

/// The rows of a book by the keys that its rules look them up by, and its plans too. Contracts see the database.
pub struct Index<'a> {
    book: &'a Book,
    parameters: Firsts<'a, ByName<PcfRow>>,
    curves: Firsts<'a, ByName<CafRow>>,
    texts: Firsts<'a, ByName<TxfRow>>,
    polynomials: Firsts<'a, ByName<McfRow>>,
    logarithms: Firsts<'a, ByName<LgfRow>>,
    checks: Firsts<'a, ByName<OcfRow>>,
    selections: Groups<'a, ByName<CurRow>>,
    points: Groups<'a, ByName<CapRow>>,
    structure_rows: Groups<'a, ByStructure>,
}

/// By hand, so that whoever lets one go proves one call.
impl Drop for Index<'_> {
    fn drop(self) {
        let Index {
            book: _,
            parameters: _parameters,
            curves: _curves,
            texts: _texts,
            polynomials: _polynomials,
            logarithms: _logarithms,
            checks: _checks,
            selections: _selections,
            points: _points,
            structure_rows: _structure_rows,
        } = self;
    }
}

impl<'a> Model for Index<'a> {
    ghost use Rattle.std.specs.Prelude.{◌≡◌};
    ghost use Rattle.mib_model.specs.declared.database.Database.{Database};

    ghost Value = { Database };

    ghost view = { λ index. index.book.now };

    ghost invariant = { λ index. (index.parameters ≡ index.book.now.pcf) × (index.curves ≡ index.book.now.caf) × (index.texts ≡ index.book.now.txf)
        × (index.polynomials ≡ index.book.now.mcf) × (index.logarithms ≡ index.book.now.lgf) × (index.checks ≡ index.book.now.ocf)
        × (index.selections ≡ index.book.now.cur) × (index.points ≡ index.book.now.cap) × (index.structure_rows ≡ index.book.now.vpd) };
}

impl<'a> Index<'a> {
    /// The rows of a book. An error is want of memory.
    pub fn new(alloc: Global, book: &'a Book) -> Result<Index<'a>, AllocError>
        ensures { IfOk result (λ index. index ≡ book.now) }
    {
        Ok(Index {
            book,
            parameters: Firsts::mapped(alloc, book.pcf())?,
            curves: Firsts::mapped(alloc, book.caf())?,
            texts: Firsts::mapped(alloc, book.txf())?,
            polynomials: Firsts::mapped(alloc, book.mcf())?,
            logarithms: Firsts::mapped(alloc, book.lgf())?,
            checks: Firsts::mapped(alloc, book.ocf())?,
            selections: Groups::mapped(alloc, book.cur())?,
            points: Groups::mapped(alloc, book.cap())?,
            structure_rows: Groups::mapped(alloc, book.vpd())?,
        })
    }

    /// The book.
    pub fn book(&self) -> &'a Book
        ensures { result.now ≡ self.now }
    {
        self.book
    }

    /// The first parameter of each name.
    pub fn parameters(&self) -> &Firsts<'a, ByName<PcfRow>>
        ensures { result.now ≡ self.now.pcf }
    {
        &self.parameters
    }

    /// The first curve by points of each name.
    pub fn curves(&self) -> &Firsts<'a, ByName<CafRow>>
        ensures { result.now ≡ self.now.caf }
    {
        &self.curves
    }

    /// The first curve by texts of each name.
    pub fn texts(&self) -> &Firsts<'a, ByName<TxfRow>>
        ensures { result.now ≡ self.now.txf }
    {
        &self.texts
    }

    /// The first polynomial of each name.
    pub fn polynomials(&self) -> &Firsts<'a, ByName<McfRow>>
        ensures { result.now ≡ self.now.mcf }
    {
        &self.polynomials
    }

    /// The first logarithmic curve of each name.
    pub fn logarithms(&self) -> &Firsts<'a, ByName<LgfRow>>
        ensures { result.now ≡ self.now.lgf }
    {
        &self.logarithms
    }

    /// The first check of each name.
    pub fn checks(&self) -> &Firsts<'a, ByName<OcfRow>>
        ensures { result.now ≡ self.now.ocf }
    {
        &self.checks
    }

    /// The selections of each parameter.
    pub fn selections(&self) -> &Groups<'a, ByName<CurRow>>
        ensures { result.now ≡ self.now.cur }
    {
        &self.selections
    }

    /// The points of each curve.
    pub fn points(&self) -> &Groups<'a, ByName<CapRow>>
        ensures { result.now ≡ self.now.cap }
    {
        &self.points
    }

    /// The rows of each structure.
    pub fn structure_rows(&self) -> &Groups<'a, ByStructure>
        ensures { result.now ≡ self.now.vpd }
    {
        &self.structure_rows
    }
}
