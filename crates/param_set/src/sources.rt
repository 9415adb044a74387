// The rows that the plans of parameters are made of.
ghost use Rattle.std.specs.Prelude.{◌≡◌, ◌∷◌, [], IfOk, map, option_map};
ghost use Rattle.std.specs.Arc.{arc_value};
ghost use Rattle.std.specs.List.{find};
ghost use Rattle.std.specs.Option.{option_copied};
ghost use Rattle.std.specs.Str.{bytes_eq};
ghost use Rattle.mib_model.specs.Carry.{check_of};
ghost use Rattle.mib_model.specs.Checks.{checks_of};
ghost use Rattle.mib_model.specs.Curves as Spec;
ghost use Rattle.mib_model.specs.Curves.{curve_named};
ghost use Rattle.mib_model.specs.Plans.{curve_names};
ghost use Rattle.mib_model.specs.Soundness.{IsSound};
ghost use Rattle.param_plan.specs.Slices.{slice_of, slice_for};
ghost use Rattle.param_set.specs.Sources.{row_now};

use crate::compiled::CompiledCurves;
use crate::order::by_number;
use curve_plan::Curve;
use mib_index::{Firsts, Groups};
use mib_model::{CurRow, Name, OcfRow, OcpRow, PcfRow};
use mib_tables::Book;
use param_plan::ParamRows;
use row_keys::ByName;
use std::alloc::{AllocError, Global};
use std::marker::Model;
use std::snapshot::Snapshot;
use std::sync::Arc;

/// The rows of a book by the keys that parameters look them up by. Contracts see the book's database.
pub struct ParamSources<'a> {
    parameters: &'a [PcfRow],
    curves: CompiledCurves<'a>,
    selections: Groups<'a, ByName<CurRow>>,
    checks: Firsts<'a, ByName<OcfRow>>,
    limits: Groups<'a, ByName<OcpRow>>,
    book: Snapshot<Book>,
}

/// By hand, so that whoever lets one go proves one call.
impl<'a> Drop for ParamSources<'a> {
    fn drop(self) {
        let ParamSources {
            parameters: _,
            curves: _curves,
            selections: _selections,
            checks: _checks,
            limits: _limits,
            book: _book,
        } = self;
    }
}

impl<'a> Model for ParamSources<'a> {
    ghost use Rattle.std.specs.Prelude.{◌≡◌};
    ghost use Rattle.mib_model.specs.declared.database.Database.{Database};

    ghost Value = { Database };

    ghost view = { λ sources. sources.book.value };

    ghost invariant = { λ sources. (sources.parameters.now ≡ sources.book.value.pcf) × (sources.curves ≡ sources.book.value)
        × (sources.selections ≡ sources.book.value.cur) × (sources.checks ≡ sources.book.value.ocf)
        × (sources.limits ≡ sources.book.value.ocp) };
}

// The first parameter of a name.
fn named<'a>(rows: &'a [PcfRow], name: &Name) -> Option<&'a PcfRow>
    ensures { option_copied result ≡ find (λ row. bytes_eq row.name name.now) rows.now }
{
    rows.iter().find(|row| row.name == *name)
}

impl<'a> ParamSources<'a> {
    /// The rows of a sound book, for many parameters. An error is want of memory.
    pub fn of_all(alloc: Global, book: &'a Book) -> Result<ParamSources<'a>, AllocError>
        requires { IsSound book.now }
        ensures { IfOk result (λ sources. sources ≡ book.now) }
    {
        Ok(ParamSources {
            parameters: book.pcf(),
            curves: CompiledCurves::all(alloc, book)?,
            selections: Groups::mapped(alloc, book.cur())?,
            checks: Firsts::mapped(alloc, book.ocf())?,
            limits: Groups::mapped(alloc, book.ocp())?,
            book: Snapshot::of(book),
        })
    }

    /// The rows of a sound book, for few parameters, and the curves of these names for many. An error is want of memory.
    pub fn of_few(
        alloc: Global,
        book: &'a Book,
        curves: &[Name],
    ) -> Result<ParamSources<'a>, AllocError>
        requires { IsSound book.now }
        ensures { IfOk result (λ sources. sources ≡ book.now) }
    {
        Ok(ParamSources {
            parameters: book.pcf(),
            curves: CompiledCurves::of_names(alloc, book, curves)?,
            selections: Groups::listed(book.cur()),
            checks: Firsts::listed(book.ocf()),
            limits: Groups::listed(book.ocp()),
            book: Snapshot::of(book),
        })
    }

    /// The row of the name of another, which is taken where there is none.
    pub fn parameter(&self, row: &PcfRow) -> PcfRow
        ensures { result ≡ row_now self.now row.now }
    {
        let found = named(self.parameters, &row.name);
        found.copied().unwrap_or(*row)
    }

    // The selections of a parameter, by POS.
    fn selections(&self, alloc: Global, name: &Name) -> Result<Vec<CurRow>, AllocError>
        ensures { IfOk result (λ rows. rows.items ≡ Spec.selections self.now name.now) }
    {
        by_number(self.selections.of(alloc, name)?, |row| row.pos)
    }

    // The limits of a parameter, by POS.
    fn limits(&self, alloc: Global, name: &Name) -> Result<Vec<OcpRow>, AllocError>
        ensures { IfOk result (λ rows. rows.items ≡ checks_of self.now name.now) }
    {
        by_number(self.limits.of(alloc, name)?, |row| row.pos)
    }

    // The check of a parameter.
    fn check(&self, name: &Name) -> Option<OcfRow>
        ensures { result ≡ check_of self.now name.now }
    {
        self.checks.find(name).copied()
    }

    // The curve of each of these selections.
    fn selected(
        &self,
        alloc: Global,
        categ: u8,
        curs: &[CurRow],
    ) -> Result<Vec<Option<Arc<Curve>>>, AllocError>
        ensures { IfOk result (λ curves. map (option_map arc_value) curves.items ≡ map (curve_named self.now categ) (map (λ cur. cur.curve) curs.now)) }
    {
        let mut curves = Vec::with_capacity(alloc, curs.len())?;
        for cur in curs {
            curves.push(self.curves.named(alloc, categ, &cur.curve)?)?;
        }
        Ok(curves)
    }

    // The curve of this name alone.
    fn only(
        &self,
        alloc: Global,
        categ: u8,
        name: &Name,
    ) -> Result<Vec<Option<Arc<Curve>>>, AllocError>
        ensures { IfOk result (λ curves. map (option_map arc_value) curves.items ≡ curve_named self.now categ name.now ∷ []) }
    {
        let mut curves = Vec::with_capacity(alloc, 1)?;
        curves.push(self.curves.named(alloc, categ, name)?)?;
        Ok(curves)
    }

    /// The curves of a parameter that has these selections. An error is want of memory.
    pub fn curves(
        &self,
        alloc: Global,
        row: &PcfRow,
        curs: &[CurRow],
    ) -> Result<Vec<Option<Arc<Curve>>>, AllocError>
        ensures { IfOk result (λ curves. map (option_map arc_value) curves.items ≡ map (curve_named self.now row.now.categ)
            (curve_names row.now.curtx curs.now)) }
    {
        match &row.curtx {
            Some(name) => self.only(alloc, row.categ, name),
            None => self.selected(alloc, row.categ, curs),
        }
    }

    /// The rows of a parameter. An error is want of memory.
    pub fn rows(&self, alloc: Global, row: &PcfRow) -> Result<ParamRows, AllocError>
        ensures { IfOk result (λ rows. slice_of rows ≡ slice_for self.now row.now) }
    {
        let curs = self.selections(alloc, &row.name)?;
        Ok(ParamRows {
            pcf: *row,
            curves: self.curves(alloc, row, &curs)?,
            curs,
            ocf: self.check(&row.name),
            ocps: self.limits(alloc, &row.name)?,
        })
    }
}
