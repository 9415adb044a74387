// The plans of all parameters of a database.
ghost use Rattle.std.specs.Prelude.{◌≡◌, ◌+◌, ◌≤◌, ◌∷◌, ◌++◌, [], map, false, filter, length, is_none, true, IfSome, IfOk, OnOk};
ghost use Rattle.std.specs.Arc.{arc_value};
ghost use Rattle.edition_plans.specs.Params.{param_slices};
ghost use Rattle.mib_model.specs.Soundness.{IsSound};
ghost use Rattle.mib_model.specs.declared.limits.TheConstants.{HELD_MOST};
ghost use Rattle.param_plan.specs.Slices.{slice_of, slice_for};
ghost use Rattle.param_set.specs.Sharing.{is_new, name_if, new_names};

use crate::order::parameters;
use crate::same::same_rows;
use crate::sources::ParamSources;
use mib_model::{Name, PcfRow, Steps};
use mib_tables::Book;
use param_plan::{Param, ParamRows, Params};
use std::alloc::{AllocError, Global};
use std::sync::Arc;
use std::sync::ledger::Ledger;

// The plan of a base that has these rows, in their order.
fn same_plan<'a>(base: &'a Params, rows: &ParamRows) -> Option<&'a Arc<Param>>
    ensures same { IfSome result (λ plan. arc_value plan.now ≡ slice_of rows.now) }
    ensures new { is_none result ≡ is_new base.now (slice_of rows.now) }
{
    let Some(plan) = base.find(rows.pcf.name) else {
        return None;
    };
    if same_rows(plan.rows(), rows) {
        Some(plan)
    } else {
        None
    }
}

/// A plan, and whether it was compiled, not shared.
#[derive(Drop)]
pub struct ParamPlan {
    pub param: Arc<Param>,
    pub is_new: bool,
}

impl ParamPlan {
    /// A plan of a base, by handle. An error is want of memory.
    pub fn shared(plan: &Arc<Param>) -> Result<ParamPlan, AllocError>
        ensures param { IfOk result (λ made. arc_value made.param ≡ arc_value plan.now) }
        ensures is_new { IfOk result (λ made. made.is_new ≡ false) }
    {
        Ok(ParamPlan {
            param: plan.clone()?,
            is_new: false,
        })
    }

    /// The plan of these rows, compiled, in one step. An error is want of memory.
    pub fn compiled<L: Ledger>(
        alloc: Global,
        rows: ParamRows,
        steps: &mut Steps<L>,
    ) -> Result<ParamPlan, AllocError>
        ensures param { IfOk result (λ made. arc_value made.param ≡ slice_of rows) }
        ensures is_new { IfOk result (λ made. made.is_new ≡ true) }
        ensures step { OnOk result (steps.new ≡ steps.old + 1) }
    {
        let param = Param::compile(alloc, rows, steps)?;
        Ok(ParamPlan {
            param: Arc::new(alloc, param)?,
            is_new: true,
        })
    }
}

/// Plans, and the names of those that were compiled, not shared.
#[derive(Drop)]
pub struct ParamPlans {
    pub params: Vec<Arc<Param>>,
    pub compiled: Vec<Name>,
}

/// The plans of a book's parameters, and the names of those that were compiled, not shared with the base, in order.
#[derive(Drop)]
pub struct MadeParams {
    pub params: Params,
    pub compiled: Vec<Name>,
}

/// Notes the name of a plan where that was compiled. An error is want of memory.
pub fn note(names: &mut Vec<Name>, plan: &ParamPlan) -> Result<(), AllocError>
    ensures { OnOk result (names.new.items ≡ names.old.items ++ name_if plan.now.is_new (arc_value plan.now.param).pcf.name) }
{
    if plan.is_new {
        names.push(plan.param.name())?;
    }
    Ok(())
}

// The plan of these rows: that of the base where it has one, and else compiled.
fn plan_of<L: Ledger>(
    alloc: Global,
    base: &Params,
    rows: ParamRows,
    steps: &mut Steps<L>,
) -> Result<ParamPlan, AllocError>
    ensures plan { IfOk result (λ plan. arc_value plan.param ≡ slice_of rows) }
    ensures is_new { IfOk result (λ plan. plan.is_new ≡ is_new base.now (slice_of rows)) }
    ensures steps { OnOk result (steps.new ≡ steps.old + length (filter (is_new base.now) (slice_of rows ∷ []))) }
{
    match same_plan(base, &rows) {
        Some(plan) => ParamPlan::shared(plan),
        None => ParamPlan::compiled(alloc, rows, steps),
    }
}

// The plans of these parameters of a sound database.
fn plans_of<L: Ledger>(
    alloc: Global,
    base: &Params,
    sources: &ParamSources,
    rows: &[&PcfRow],
    steps: &mut Steps<L>,
) -> Result<ParamPlans, AllocError>
    ensures plans { IfOk result (λ plans. map arc_value plans.params.items ≡ map (slice_for sources.now) (map (λ row. row.now) rows.now)) }
    ensures compiled { IfOk result (λ plans. plans.compiled.items ≡ new_names base.now (map (slice_for sources.now) (map (λ row. row.now) rows.now))) }
    ensures steps { OnOk result (steps.new ≡ steps.old + length (filter (is_new base.now) (map (slice_for sources.now) (map (λ row. row.now) rows.now)))) }
{
    let mut params = Vec::with_capacity(alloc, rows.len())?;
    let mut compiled = Vec::new(alloc);
    for row in rows {
        let rows = sources.rows(alloc, row)?;
        let plan = plan_of(alloc, base, rows, steps)?;
        note(&mut compiled, &plan)?;
        params.push(plan.param)?;
    }
    Ok(ParamPlans { params, compiled })
}

/// The plans of the parameters of a sound book, by name. A plan whose rows the base has too, in the same order, is shared
/// with it; each other is compiled, in one step. An error is want of memory, after the steps of what was compiled.
#[tactic(auto, unfolding(edition_plans::specs::Params::param_slices))]
pub fn params_of<L: Ledger>(
    alloc: Global,
    base: &Params,
    book: &Book,
    steps: &mut Steps<L>,
) -> Result<MadeParams, AllocError>
    requires { IsSound book.now }
    ensures params { IfOk result (λ made. made.params ≡ param_slices book.now) }
    ensures compiled { IfOk result (λ made. made.compiled.items ≡ new_names base.now (param_slices book.now)) }
    ensures few { IfOk result (λ made. length made.compiled.items ≤ HELD_MOST) }
    ensures steps { OnOk result (steps.new ≡ steps.old + length (filter (is_new base.now) (param_slices book.now))) }
{
    let sources = ParamSources::of_all(alloc, book)?;
    let rows = parameters(alloc, book.pcf())?;
    let plans = plans_of(alloc, base, &sources, &rows, steps)?;
    let compiled = plans.compiled;
    let params = Params::new(alloc, plans.params)?;
    Ok(MadeParams { params, compiled })
}
