// The names of rows in which two books differ.
ghost use Rattle.std.specs.Prelude.{◌≡◌, ◌∷◌, [], List, ℕ, IfOk, OnOk, false, length, true};
ghost use Rattle.std.specs.List.{list_any};
ghost use Rattle.mib_keys.specs.Kept.{AreSameIn};
ghost use Rattle.param_changes.specs.Changed.{AreChanged, Notes, has_name, takes_any};

use mib_model::{CurRow, Name};
use mib_tables::{Book, TableSet};
use param_plan::ParamRows;
use row_keys::Named;
use row_sameness::{Same, same_row};
use std::alloc::{AllocError, Global};

/// The most names of changed rows for which rows are looked up one by one.
const FEW: usize = 32;

// Notes the names of two rows where they differ.
fn note_pair<R: Named + Same>(names: &mut Vec<Name>, old: &R, new: &R) -> Result<(), AllocError>
    ensures { OnOk result (Notes R.name_of names.old.items names.new.items (old.now ∷ []) (new.now ∷ [])) }
{
    if same_row(old, new) {
        return Ok(());
    }
    names.push(old.name())?;
    names.push(new.name())?;
    Ok(())
}

// Notes the names of rows that differ from those beside them.
fn note_pairs<R: Named + Same>(
    names: &mut Vec<Name>,
    old: &[R],
    new: &[R],
) -> Result<(), AllocError>
    requires { length old.now ≡ length new.now }
    ensures { OnOk result (Notes R.name_of names.old.items names.new.items old.now new.now) }
{
    for (old, new) in old.iter().zip(new) {
        note_pair(names, old, new)?;
    }
    Ok(())
}

// Notes the names of rows.
fn note_all<R: Named + Same>(names: &mut Vec<Name>, rows: &[R]) -> Result<(), AllocError>
    ensures { OnOk result (Notes R.name_of names.old.items names.new.items rows.now []) }
{
    for row in rows {
        names.push(row.name())?;
    }
    Ok(())
}

// Notes the names of rows in which two tables differ, place by place.
fn note<R: Named + Same>(names: &mut Vec<Name>, old: &[R], new: &[R]) -> Result<(), AllocError>
    ensures { OnOk result (Notes R.name_of names.old.items names.new.items old.now new.now) }
{
    let both = old.len().min(new.len());
    let (old, gone) = old.split_at(both);
    let (new, added) = new.split_at(both);
    note_pairs(names, old, new)?;
    note_all(names, gone)?;
    note_all(names, added)?;
    Ok(())
}

// Notes the names of rows in which two tables differ that aren't known to be the same.
fn note_if_changed<R: Named + Same>(
    names: &mut Vec<Name>,
    same: bool,
    old: &[R],
    new: &[R],
) -> Result<(), AllocError>
    requires { same ≡ true → old.now ≡ new.now }
    ensures { OnOk result (Notes R.name_of names.old.items names.new.items old.now new.now) }
{
    if same {
        return Ok(());
    }
    note(names, old, new)
}

// Whether a selected curve is one of these names.
fn select_any(names: &[Name], curs: &[CurRow]) -> bool
    ensures { result ≡ list_any (λ cur. has_name names.now cur.curve) curs.now }
{
    curs.iter().any(|cur| names.contains(&cur.curve))
}

/// Names of parameters and of curves: all that have other rows in one book than in another.
#[derive(Drop)]
pub struct Changed {
    parameters: Vec<Name>,
    curves: Vec<Name>,
}

impl Changed {
    /// The names that have other rows in two books, of which tables are known to be the same. An error is want of memory.
    pub fn between(
        alloc: Global,
        old: &Book,
        same: TableSet,
        new: &Book,
    ) -> Result<Changed, AllocError>
        requires { AreSameIn same old.now new.now }
        ensures { IfOk result (λ changed. AreChanged changed old.now new.now) }
    {
        let mut parameters = Vec::new(alloc);
        note_if_changed(&mut parameters, same.pcf, old.pcf(), new.pcf())?;
        note_if_changed(&mut parameters, same.cur, old.cur(), new.cur())?;
        note_if_changed(&mut parameters, same.ocf, old.ocf(), new.ocf())?;
        note_if_changed(&mut parameters, same.ocp, old.ocp(), new.ocp())?;
        let mut curves = Vec::new(alloc);
        note_if_changed(&mut curves, same.caf, old.caf(), new.caf())?;
        note_if_changed(&mut curves, same.cap, old.cap(), new.cap())?;
        note_if_changed(&mut curves, same.txf, old.txf(), new.txf())?;
        note_if_changed(&mut curves, same.txp, old.txp(), new.txp())?;
        note_if_changed(&mut curves, same.mcf, old.mcf(), new.mcf())?;
        note_if_changed(&mut curves, same.lgf, old.lgf(), new.lgf())?;
        Ok(Changed { parameters, curves })
    }

    /// Whether they are so few that rows are looked up one by one.
    pub fn is_few(&self) -> bool {
        self.parameters.len() <= FEW && self.curves.len() <= FEW
    }

    /// The names of parameters.
    pub fn parameters(&self) -> &[Name]
        ensures { result.now ≡ self.now.parameters.items }
    {
        &self.parameters
    }

    /// The names of curves.
    pub fn curves(&self) -> &[Name]
        ensures { result.now ≡ self.now.curves.items }
    {
        &self.curves
    }

    /// Whether a name is one of the parameters.
    pub fn has_parameter(&self, name: &Name) -> bool
        ensures { result ≡ has_name self.now.parameters.items name.now }
    {
        self.parameters.contains(name)
    }

    /// Whether a curve that a parameter may take is one of the curves.
    pub fn has_curve_of(&self, rows: &ParamRows) -> bool
        ensures { result ≡ takes_any self.now.curves.items rows.now.pcf.curtx rows.now.curs.items }
    {
        match &rows.pcf.curtx {
            Some(name) => self.curves.contains(name),
            None => select_any(&self.curves, &rows.curs),
        }
    }
}
