// The curves that a parameter may take: that of CURTX, or those of selections, each with its condition.
ghost use Rattle.std.specs.Prelude.{◌≡◌, option_and_then, option_map, map, IfOk};
ghost use Rattle.std.specs.Arc.{arc_value};
ghost use Rattle.std.specs.List.{find, zip};
ghost use Rattle.std.specs.Option.{is_some, option_copied};
ghost use Rattle.param_plan.specs.Choices.{is_met, only_curve, selection_of, selections_in};

use check_plan::Holds;
use curve_plan::Curve;
use mib_model::{CurRow, Name};
use std::alloc::{AllocError, Global};
use std::marker::Model;
use std::sync::Arc;

/// A curve that may be taken, if there is one. Contracts see its rows.
#[derive(Drop)]
pub struct Choice {
    curve: Option<Arc<Curve>>,
}

impl Model for Choice {
    ghost use Rattle.std.specs.Prelude.{Option, option_map};
    ghost use Rattle.std.specs.Arc.{arc_value};
    ghost use Rattle.mib_model.specs.declared.plan.CurveRows.{CurveRows};

    ghost Value = { Option CurveRows };

    ghost view = { λ choice. option_map arc_value choice.curve };
}

impl Choice {
    // A further handle of a curve, if there is one.
    fn of(curve: &Option<Arc<Curve>>) -> Result<Choice, AllocError>
        ensures { IfOk result (λ choice. choice ≡ option_map arc_value curve.now) }
    {
        let curve = match curve {
            Some(curve) => Some(Arc::try_clone(curve)?),
            None => None,
        };
        Ok(Choice { curve })
    }

    /// Whether there is a curve.
    pub fn is_some(&self) -> bool
        ensures { result ≡ is_some self.now }
    {
        self.curve.is_some()
    }

    /// The curve.
    pub fn curve(&self) -> Option<&Curve>
        ensures { option_copied result ≡ self.now }
    {
        self.curve.as_ref().map(|curve| &**curve)
    }
}

/// A selection: its condition, and the curve that is taken where that holds. Contracts see the curve's rows.
#[derive(Drop)]
pub struct Selection {
    rlchk: Name,
    valpar: i128,
    choice: Choice,
}

/// The curve of CURTX, where that is given and there is one.
pub fn only_of(curtx: Option<Name>, curves: &[Option<Arc<Curve>>]) -> Result<Choice, AllocError>
    ensures { IfOk result (λ choice. choice ≡ only_curve curtx (map (option_map arc_value) curves.now)) }
{
    match (curtx, curves.first()) {
        (Some(_), Some(curve)) => Choice::of(curve),
        _ => Ok(Choice { curve: None }),
    }
}

// A curve for each selection.
fn selected(
    alloc: Global,
    curs: &[CurRow],
    curves: &[Option<Arc<Curve>>],
) -> Result<Vec<Selection>, AllocError>
    ensures { IfOk result (λ selections. selections.items ≡ map selection_of (zip curs.now (map (option_map arc_value) curves.now))) }
{
    let mut selections = Vec::new(alloc);
    for (cur, curve) in curs.iter().zip(curves) {
        selections.push(Selection {
            rlchk: cur.rlchk,
            valpar: cur.valpar,
            choice: Choice::of(curve)?,
        })?;
    }
    Ok(selections)
}

/// A curve for each selection, where CURTX is not given.
pub fn selections_of(
    alloc: Global,
    curtx: Option<Name>,
    curs: &[CurRow],
    curves: &[Option<Arc<Curve>>],
) -> Result<Vec<Selection>, AllocError>
    ensures { IfOk result (λ selections. selections.items ≡ selections_in curtx curs.now (map (option_map arc_value) curves.now)) }
{
    match curtx {
        Some(_) => Ok(Vec::new(alloc)),
        None => selected(alloc, curs, curves),
    }
}

// The first selection whose condition holds.
fn first_met<'a, K: Holds>(selections: &'a [Selection], kept: &K) -> Option<&'a Selection>
    ensures { option_copied result ≡ find (is_met (K.memory kept.now)) selections.now }
{
    selections
        .iter()
        .find(|selection| kept.holds(selection.rlchk, selection.valpar))
}

/// The curve of the first selection whose condition holds.
pub fn selected_by<'a, K: Holds>(selections: &'a [Selection], kept: &K) -> Option<&'a Curve>
    ensures { option_copied result ≡ option_and_then (λ selection. selection.choice) (find (is_met (K.memory kept.now)) selections.now) }
{
    first_met(selections, kept)?.choice.curve()
}
