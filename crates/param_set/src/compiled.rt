// The curves of a book, each compiled once.
ghost use Rattle.std.specs.Prelude.{◌≡◌, ℕ, List, Option, IfOk, OnOk, option_map};
ghost use Rattle.std.specs.Arc.{arc_value};
ghost use Rattle.curve_plan.specs.Rows.{rows_of};
ghost use Rattle.mib_model.specs.Curves.{curve_named};
ghost use Rattle.mib_model.specs.Soundness.{IsSound};
ghost use Rattle.mib_model.specs.declared.plan.CurveRows.{CurveRows as Rows};
ghost use Rattle.param_plan.specs.Choices.{IsApart};
ghost use Rattle.param_set.specs.Compiled.{AreNamed};

use crate::curves::Curves;
use curve_plan::{Curve, CurveRows};
use mib_model::{CafRow, LgfRow, McfRow, Name, TxfRow};
use mib_tables::Book;
use row_keys::{By, ByName};
use std::alloc::{AllocError, Global};
use std::collections::HashMap;
use std::marker::Model;
use std::sync::Arc;

/// The category of parameters whose curves give numbers.
const NUMBERS: u8 = b'N';

/// The category of parameters whose curves give texts.
const TEXTS: u8 = b'S';

/// The curves of a sound book, of which those that are kept by name are compiled once and shared. Contracts see the book's database.
pub struct CompiledCurves<'a> {
    curves: Curves<'a>,
    numbers: HashMap<Name, Arc<Curve>>,
    texts: HashMap<Name, Arc<Curve>>,
}

/// By hand, so that whoever lets one go proves one call.
impl<'a> Drop for CompiledCurves<'a> {
    fn drop(self) {
        let CompiledCurves {
            curves: _curves,
            numbers: _numbers,
            texts: _texts,
        } = self;
    }
}

impl<'a> Model for CompiledCurves<'a> {
    ghost use Rattle.std.specs.Prelude.{◌≡◌};
    ghost use Rattle.mib_model.specs.declared.database.Database.{Database};
    ghost use Rattle.mib_model.specs.Curves.{curve_named};
    ghost use Rattle.mib_model.specs.Letters.{letter};
    ghost use Rattle.mib_model.specs.Soundness.{IsSound};
    ghost use Rattle.param_set.specs.Compiled.{AreNamed};

    ghost Value = { Database };

    ghost view = { λ all. all.curves };

    ghost invariant = { λ all. IsSound all.curves × AreNamed (curve_named all.curves (letter "N")) all.numbers
        × AreNamed (curve_named all.curves (letter "S")) all.texts };
}

// The plan of rows that were found, if there are any.
fn compiled(alloc: Global, rows: Option<CurveRows>) -> Result<Option<Arc<Curve>>, AllocError>
    requires { IsApart (option_map rows_of rows) }
    ensures { IfOk result (λ curve. option_map arc_value curve ≡ option_map rows_of rows) }
{
    match rows {
        Some(rows) => Ok(Some(Arc::new(alloc, Curve::compile(alloc, rows)?)?)),
        None => Ok(None),
    }
}

// Keeps the curve of a name, if there is one.
fn keep(
    alloc: Global,
    kept: &mut HashMap<Name, Arc<Curve>>,
    name: Name,
    rows: Option<CurveRows>,
) -> Result<(), AllocError>
    requires { IsApart (option_map rows_of rows) }
    ensures { OnOk result ((named : List ℕ → Option Rows) → named name ≡ option_map rows_of rows → AreNamed named kept.old → AreNamed named kept.new) }
{
    if let Some(curve) = compiled(alloc, rows)? {
        kept.insert(name, curve)?;
    }
    Ok(())
}

// Keeps the curves of these names.
fn keep_named(
    alloc: Global,
    curves: &Curves,
    categ: u8,
    names: &[Name],
) -> Result<HashMap<Name, Arc<Curve>>, AllocError>
    requires { IsSound curves.now }
    ensures { IfOk result (AreNamed (curve_named curves.now categ)) }
{
    let mut kept = HashMap::new(alloc);
    for name in names {
        let rows = curves.named(alloc, categ, name)?;
        keep(alloc, &mut kept, *name, rows)?;
    }
    Ok(kept)
}

// Keeps the curves that rows name.
fn keep_all<B: By<Key = Name>>(
    alloc: Global,
    curves: &Curves,
    categ: u8,
    rows: &[B::Row],
    kept: &mut HashMap<Name, Arc<Curve>>,
) -> Result<(), AllocError>
    requires { IsSound curves.now }
    ensures { OnOk result (AreNamed (curve_named curves.now categ) kept.old → AreNamed (curve_named curves.now categ) kept.new) }
{
    for row in rows {
        if let Some(name) = B::key(row) {
            let rows = curves.named(alloc, categ, &name)?;
            keep(alloc, kept, name, rows)?;
        }
    }
    Ok(())
}

// The curves that give numbers.
fn numbers_of(
    alloc: Global,
    curves: &Curves,
    book: &Book,
) -> Result<HashMap<Name, Arc<Curve>>, AllocError>
    requires { IsSound curves.now }
    ensures { IfOk result (AreNamed (curve_named curves.now NUMBERS)) }
{
    let mut kept = HashMap::new(alloc);
    keep_all::<ByName<CafRow>>(alloc, curves, NUMBERS, book.caf(), &mut kept)?;
    keep_all::<ByName<McfRow>>(alloc, curves, NUMBERS, book.mcf(), &mut kept)?;
    keep_all::<ByName<LgfRow>>(alloc, curves, NUMBERS, book.lgf(), &mut kept)?;
    Ok(kept)
}

// The curves that give texts.
fn texts_of(
    alloc: Global,
    curves: &Curves,
    book: &Book,
) -> Result<HashMap<Name, Arc<Curve>>, AllocError>
    requires { IsSound curves.now }
    ensures { IfOk result (AreNamed (curve_named curves.now TEXTS)) }
{
    let mut kept = HashMap::new(alloc);
    keep_all::<ByName<TxfRow>>(alloc, curves, TEXTS, book.txf(), &mut kept)?;
    Ok(kept)
}

impl<'a> CompiledCurves<'a> {
    /// The curves of a sound book, all compiled. An error is want of memory.
    pub fn all(alloc: Global, book: &'a Book) -> Result<CompiledCurves<'a>, AllocError>
        requires { IsSound book.now }
        ensures { IfOk result (λ all. all ≡ book.now) }
    {
        let curves = Curves::mapped(alloc, book)?;
        let numbers = numbers_of(alloc, &curves, book)?;
        let texts = texts_of(alloc, &curves, book)?;
        Ok(CompiledCurves {
            curves,
            numbers,
            texts,
        })
    }

    /// The curves of a sound book, of which few are looked up, those of these names compiled. An error is want of memory.
    pub fn of_names(
        alloc: Global,
        book: &'a Book,
        names: &[Name],
    ) -> Result<CompiledCurves<'a>, AllocError>
        requires { IsSound book.now }
        ensures { IfOk result (λ some. some ≡ book.now) }
    {
        let curves = Curves::listed(book);
        let numbers = keep_named(alloc, &curves, NUMBERS, names)?;
        let texts = keep_named(alloc, &curves, TEXTS, names)?;
        Ok(CompiledCurves {
            curves,
            numbers,
            texts,
        })
    }

    // The curve of a name for a category: the one that is kept, where there is one.
    fn shared(
        &self,
        alloc: Global,
        kept: &HashMap<Name, Arc<Curve>>,
        categ: u8,
        name: &Name,
    ) -> Result<Option<Arc<Curve>>, AllocError>
        requires { AreNamed (curve_named self.now categ) kept.now }
        ensures { IfOk result (λ curve. option_map arc_value curve ≡ curve_named self.now categ name.now) }
    {
        if let Some(curve) = kept.get(name) {
            return Ok(Some(Arc::try_clone(curve)?));
        }
        compiled(alloc, self.curves.named(alloc, categ, name)?)
    }

    /// The curve of a name for a parameter of this category. An error is want of memory.
    #[tactic(auto, unfolding(mib_model::specs::Curves::curve_named))]
    pub fn named(
        &self,
        alloc: Global,
        categ: u8,
        name: &Name,
    ) -> Result<Option<Arc<Curve>>, AllocError>
        ensures { IfOk result (λ curve. option_map arc_value curve ≡ curve_named self.now categ name.now) }
    {
        match categ {
            b'S' => self.shared(alloc, &self.texts, TEXTS, name),
            b'T' => Ok(None),
            _ => self.shared(alloc, &self.numbers, NUMBERS, name),
        }
    }
}
