// Curves found by their names.
ghost use Rattle.std.specs.Prelude.{◌≡◌, IfOk, IfSome, filter, option_map};
ghost use Rattle.std.specs.List.{find};
ghost use Rattle.std.specs.Option.{option_or};
ghost use Rattle.std.specs.Str.{bytes_eq};
ghost use Rattle.curve_plan.specs.Rows.{rows_of};
ghost use Rattle.mib_model.specs.Curves as Spec;

use curve_plan::CurveRows;
use mib_index::{Firsts, Groups};
use mib_model::{CafRow, CapRow, LgfRow, McfRow, Name, TxfRow, TxpRow};
use mib_tables::Book;
use row_keys::{ByName, Named};
use std::alloc::{AllocError, Global};
use std::marker::Model;
use std::snapshot::Snapshot;

/// The curves of a book by their names. Contracts see the book's database.
pub struct Curves<'a> {
    by_points: Firsts<'a, ByName<CafRow>>,
    points: Groups<'a, ByName<CapRow>>,
    by_texts: Firsts<'a, ByName<TxfRow>>,
    texts: Groups<'a, ByName<TxpRow>>,
    polynomials: Firsts<'a, ByName<McfRow>>,
    logarithms: Firsts<'a, ByName<LgfRow>>,
    book: Snapshot<Book>,
}

/// By hand, so that whoever lets one go proves one call.
impl<'a> Drop for Curves<'a> {
    fn drop(self) {
        let Curves {
            by_points: _by_points,
            points: _points,
            by_texts: _by_texts,
            texts: _texts,
            polynomials: _polynomials,
            logarithms: _logarithms,
            book: _book,
        } = self;
    }
}

impl<'a> Model for Curves<'a> {
    ghost use Rattle.std.specs.Prelude.{◌≡◌};
    ghost use Rattle.mib_model.specs.declared.database.Database.{Database};

    ghost Value = { Database };

    ghost view = { λ curves. curves.book.value };

    ghost invariant = { λ curves. (curves.by_points ≡ curves.book.value.caf) × (curves.points ≡ curves.book.value.cap)
        × (curves.by_texts ≡ curves.book.value.txf) × (curves.texts ≡ curves.book.value.txp)
        × (curves.polynomials ≡ curves.book.value.mcf) × (curves.logarithms ≡ curves.book.value.lgf) };
}

// The first row of a name in one table, with the rows of the name in another.
fn with_parts<R: Named, P: Named>(
    alloc: Global,
    rows: &Firsts<'_, ByName<R>>,
    parts: &Groups<'_, ByName<P>>,
    name: &Name,
) -> Result<Option<(R, Vec<P>)>, AllocError>
    ensures row { IfOk result (λ found. option_map (λ whole. whole.0) found ≡ find (λ row. bytes_eq (R.name_of row) name.now) rows.now) }
    ensures parts { IfOk result (λ found. IfSome found (λ whole. whole.1.items ≡ filter (λ part. bytes_eq (P.name_of part) name.now) parts.now)) }
{
    match rows.find(name) {
        Some(row) => Ok(Some((*row, parts.of(alloc, name)?))),
        None => Ok(None),
    }
}

impl<'a> Curves<'a> {
    /// The curves of a book, of which many are looked up. An error is want of memory.
    pub fn mapped(alloc: Global, book: &'a Book) -> Result<Curves<'a>, AllocError>
        ensures { IfOk result (λ curves. curves ≡ book.now) }
    {
        Ok(Curves {
            by_points: Firsts::mapped(alloc, book.caf())?,
            points: Groups::mapped(alloc, book.cap())?,
            by_texts: Firsts::mapped(alloc, book.txf())?,
            texts: Groups::mapped(alloc, book.txp())?,
            polynomials: Firsts::mapped(alloc, book.mcf())?,
            logarithms: Firsts::mapped(alloc, book.lgf())?,
            book: Snapshot::of(book),
        })
    }

    /// The curves of a book, of which few are looked up.
    pub fn listed(book: &'a Book) -> Curves<'a>
        ensures { result ≡ book.now }
    {
        Curves {
            by_points: Firsts::listed(book.caf()),
            points: Groups::listed(book.cap()),
            by_texts: Firsts::listed(book.txf()),
            texts: Groups::listed(book.txp()),
            polynomials: Firsts::listed(book.mcf()),
            logarithms: Firsts::listed(book.lgf()),
            book: Snapshot::of(book),
        }
    }

    // The curve by texts of a name.
    fn texts_named(&self, alloc: Global, name: &Name) -> Result<Option<CurveRows>, AllocError>
        ensures { IfOk result (λ rows. option_map rows_of rows ≡ Spec.texts_named self.now name.now) }
    {
        match with_parts(alloc, &self.by_texts, &self.texts, name)? {
            Some((txf, txps)) => Ok(Some(CurveRows::Texts { txf, txps })),
            None => Ok(None),
        }
    }

    // The polynomial of a name.
    fn poly_named(&self, name: &Name) -> Option<CurveRows>
        ensures { option_map rows_of result ≡ Spec.poly_named self.now name.now }
    {
        match self.polynomials.find(name) {
            Some(mcf) => Some(CurveRows::Poly(*mcf)),
            None => None,
        }
    }

    // The logarithmic curve of a name.
    fn log_named(&self, name: &Name) -> Option<CurveRows>
        ensures { option_map rows_of result ≡ Spec.log_named self.now name.now }
    {
        match self.logarithms.find(name) {
            Some(lgf) => Some(CurveRows::Log(*lgf)),
            None => None,
        }
    }

    // The first curve of a name that is by points, a polynomial or logarithmic.
    fn number_named(&self, alloc: Global, name: &Name) -> Result<Option<CurveRows>, AllocError>
        ensures { IfOk result (λ rows. option_map rows_of rows
            ≡ option_or (Spec.points_named self.now name.now) (option_or (Spec.poly_named self.now name.now) (Spec.log_named self.now name.now))) }
    {
        if let Some((caf, caps)) = with_parts(alloc, &self.by_points, &self.points, name)? {
            return Ok(Some(CurveRows::Points { caf, caps }));
        }
        if let Some(rows) = self.poly_named(name) {
            return Ok(Some(rows));
        }
        Ok(self.log_named(name))
    }

    /// The curve of a name for a parameter of this category. An error is want of memory.
    #[tactic(auto, unfolding(mib_model::specs::Curves::curve_named))]
    pub fn named(
        &self,
        alloc: Global,
        categ: u8,
        name: &Name,
    ) -> Result<Option<CurveRows>, AllocError>
        ensures { IfOk result (λ rows. option_map rows_of rows ≡ Spec.curve_named self.now categ name.now) }
    {
        match categ {
            b'S' => self.texts_named(alloc, name),
            b'T' => Ok(None),
            _ => self.number_named(alloc, name),
        }
    }
}
