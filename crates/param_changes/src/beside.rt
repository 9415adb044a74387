// The plans of parameters beside those of a base that has parameters of the same names.
ghost use Rattle.std.specs.Prelude.{◌≡◌, ◌+◌, ◌++◌, ◌≤◌, IsTrue, map, filter, length, IfOk, OnOk, false};
ghost use Rattle.std.specs.Arc.{arc_value};
ghost use Rattle.std.specs.List.{flat_map};
ghost use Rattle.edition_plans.specs.Params.{param_slices};
ghost use Rattle.mib_keys.specs.Kept.{AreSameIn};
ghost use Rattle.mib_model.specs.Plans.{has_plan};
ghost use Rattle.mib_model.specs.Soundness.{IsSound};
ghost use Rattle.mib_model.specs.declared.limits.TheConstants.{HELD_MOST};
ghost use Rattle.param_state.specs.ParamPlans.{plan_names};
ghost use Rattle.param_plan.specs.Blocks.{IsCut};
ghost use Rattle.param_plan.specs.Slices.{slice_of};
ghost use Rattle.param_changes.specs.Beside.{AreAlike, AreAllKept, AreKeptBy, AreUntouched, IsKeptBy, IsOtherNow, are_curves_kept, has_changed, has_changed_curve, is_other, now_of, one_if};
ghost use Rattle.param_set.specs.Sharing.{is_new, new_names};

use crate::changed::Changed;
use crate::touch::{is_touched, touched_blocks};
use mib_model::{Name, PcfRow, Steps};
use mib_tables::{Book, TableSet};
use param_plan::{BLOCK, Block, Param, ParamRows, Params};
use param_set::{MadeParams, ParamPlan, ParamSources, note, params_of, same_rows};
use std::alloc::{AllocError, Global};
use std::sync::Arc;
use std::sync::ledger::Ledger;

// Whether a parameter has a plan.
fn has_plan(row: &PcfRow) -> bool
    ensures { result ≡ has_plan row.now }
{
    row.is_measured() && !row.is_deduced()
}

// Whether two parameters have one name, and both a plan or both none.
fn is_alike(old: &PcfRow, new: &PcfRow) -> bool
    ensures { IsTrue result → (old.now.name ≡ new.now.name) × (has_plan old.now ≡ has_plan new.now) }
{
    old.name == new.name && has_plan(old) == has_plan(new)
}

// Whether each parameter is alike the one beside it.
fn are_alike_beside(old: &[PcfRow], new: &[PcfRow]) -> bool
    requires { length old.now ≡ length new.now }
    ensures { IsTrue result → AreAlike old.now new.now }
{
    for (old, new) in old.iter().zip(new) {
        if !is_alike(old, new) {
            return false;
        }
    }
    true
}

// Whether two tables have parameters of the same names, at the same places, with plans or without.
fn are_alike(old: &[PcfRow], new: &[PcfRow]) -> bool
    ensures { IsTrue result → AreAlike old.now new.now }
{
    old.len() == new.len() && are_alike_beside(old, new)
}

// Whether two books have parameters alike, which may be known to be the same.
fn has_parameters(old: &Book, same: TableSet, new: &Book) -> bool
    requires { AreSameIn same old.now new.now }
    ensures { IsTrue result → AreAlike old.now.pcf new.now.pcf }
{
    same.pcf || are_alike(old.pcf(), new.pcf())
}

// Whether nothing changed that a plan depends on.
fn is_kept(rows: &ParamRows, changed: &Changed) -> bool
    ensures { IsTrue result → (has_changed changed.now (slice_of rows.now) ≡ false) × (has_changed_curve changed.now (slice_of rows.now) ≡ false) }
{
    !changed.has_parameter(&rows.pcf.name) && !changed.has_curve_of(rows)
}

// The rows that a parameter has now: those of its plan, but for curves, where it did not change.
fn rows_now(
    alloc: Global,
    rows: &ParamRows,
    changed: &Changed,
    sources: &ParamSources<'_>,
) -> Result<ParamRows, AllocError>
    requires { IsKeptBy changed.now (slice_of rows.now) sources.now }
    ensures { IfOk result (λ now. slice_of now ≡ now_of sources.now (slice_of rows.now)) }
{
    if changed.has_parameter(&rows.pcf.name) {
        return sources.rows(alloc, &sources.parameter(&rows.pcf));
    }
    Ok(ParamRows {
        pcf: rows.pcf,
        curs: Vec::from_slice(alloc, &rows.curs)?,
        curves: sources.curves(alloc, &rows.pcf, &rows.curs)?,
        ocf: rows.ocf,
        ocps: Vec::from_slice(alloc, &rows.ocps)?,
    })
}

// The rows that a parameter has now, where its plan is of others; they are gathered where something of it changed.
fn other_rows(
    alloc: Global,
    rows: &ParamRows,
    changed: &Changed,
    sources: &ParamSources<'_>,
) -> Result<Option<ParamRows>, AllocError>
    requires { IsKeptBy changed.now (slice_of rows.now) sources.now }
    ensures { IfOk result (IsOtherNow sources.now (slice_of rows.now)) }
{
    if is_kept(rows, changed) {
        return Ok(None);
    }
    let now = rows_now(alloc, rows, changed, sources)?;
    if same_rows(rows, &now) {
        Ok(None)
    } else {
        Ok(Some(now))
    }
}

// The plan of a parameter: that of the base where it is of the rows that the parameter has now, and else compiled.
fn plan_beside<L: Ledger>(
    alloc: Global,
    plan: &Arc<Param>,
    changed: &Changed,
    sources: &ParamSources<'_>,
    steps: &mut Steps<L>,
) -> Result<ParamPlan, AllocError>
    requires { IsKeptBy changed.now (arc_value plan.now) sources.now }
    ensures plan { IfOk result (λ made. arc_value made.param ≡ now_of sources.now (arc_value plan.now)) }
    ensures is_new { IfOk result (λ made. made.is_new ≡ is_other sources.now (arc_value plan.now)) }
    ensures steps { OnOk result (steps.new ≡ steps.old + one_if (is_other sources.now (arc_value plan.now))) }
{
    match other_rows(alloc, plan.rows(), changed, sources)? {
        Some(rows) => ParamPlan::compiled(alloc, rows, steps),
        None => ParamPlan::shared(plan),
    }
}

// The plans of a block, of the rows that their parameters have now. The names of those that were compiled are noted.
fn plans_beside<L: Ledger>(
    alloc: Global,
    block: &Block,
    changed: &Changed,
    sources: &ParamSources<'_>,
    compiled: &mut Vec<Name>,
    steps: &mut Steps<L>,
) -> Result<Vec<Arc<Param>>, AllocError>
    requires { AreKeptBy changed.now block.now sources.now }
    ensures plans { IfOk result (λ plans. map arc_value plans.items ≡ map (now_of sources.now) block.now) }
    ensures compiled { OnOk result (compiled.new.items ≡ compiled.old.items ++ plan_names (filter (is_other sources.now) block.now)) }
    ensures steps { OnOk result (steps.new ≡ steps.old + length (filter (is_other sources.now) block.now)) }
{
    let mut plans = Vec::with_capacity(alloc, BLOCK)?;
    for plan in block.plans() {
        let made = plan_beside(alloc, plan, changed, sources, steps)?;
        note(compiled, &made)?;
        plans.push(made.param)?;
    }
    Ok(plans)
}

// A block of a base, of the rows that its parameters have now: the base's own where nothing of it changed.
fn block_beside<L: Ledger>(
    alloc: Global,
    block: &Arc<Block>,
    is_touched: bool,
    changed: &Changed,
    sources: &ParamSources<'_>,
    compiled: &mut Vec<Name>,
    steps: &mut Steps<L>,
) -> Result<Arc<Block>, AllocError>
    requires kept { AreKeptBy changed.now (arc_value block.now) sources.now }
    requires untouched { is_touched ≡ false → AreUntouched changed.now (arc_value block.now) }
    ensures block { IfOk result (λ made. arc_value made ≡ map (now_of sources.now) (arc_value block.now)) }
    ensures compiled { OnOk result (compiled.new.items ≡ compiled.old.items ++ plan_names (filter (is_other sources.now) (arc_value block.now))) }
    ensures steps { OnOk result (steps.new ≡ steps.old + length (filter (is_other sources.now) (arc_value block.now))) }
{
    if !is_touched {
        return Ok(block.clone()?);
    }
    let plans = plans_beside(alloc, block, changed, sources, compiled, steps)?;
    Ok(Arc::new(alloc, Block::new(alloc, plans)?)?)
}

// Blocks of plans, and the names of those that were compiled, not shared.
#[derive(Drop)]
struct Blocks {
    blocks: Vec<Arc<Block>>,
    compiled: Vec<Name>,
}

// The blocks of a base, of the rows that their parameters have now.
fn blocks_beside<L: Ledger>(
    alloc: Global,
    base: &Params,
    changed: &Changed,
    sources: &ParamSources<'_>,
    steps: &mut Steps<L>,
) -> Result<Blocks, AllocError>
    requires { AreKeptBy changed.now base.now sources.now }
    ensures blocks { IfOk result (λ made. flat_map arc_value made.blocks.items ≡ map (now_of sources.now) base.now) }
    ensures cut { IfOk result (λ made. IsCut arc_value made.blocks.items) }
    ensures compiled { IfOk result (λ made. made.compiled.items ≡ new_names base.now (map (now_of sources.now) base.now)) }
    ensures steps { OnOk result (steps.new ≡ steps.old + length (filter (is_new base.now) (map (now_of sources.now) base.now))) }
{
    let touched = touched_blocks(alloc, base, changed)?;
    let all = base.blocks();
    let mut blocks = Vec::with_capacity(alloc, all.len())?;
    let mut compiled = Vec::new(alloc);
    for at in 0..all.len() {
        let block = &all[at];
        let is_touched = is_touched(at, block, &touched, changed);
        blocks.push(block_beside(
            alloc,
            block,
            is_touched,
            changed,
            sources,
            &mut compiled,
            steps,
        )?)?;
    }
    Ok(Blocks { blocks, compiled })
}

// The plans of a book that has parameters alike those of a base: rows are looked up for few, and else for all.
fn taken_over<L: Ledger>(
    alloc: Global,
    base: &Params,
    old: &Book,
    same: TableSet,
    book: &Book,
    steps: &mut Steps<L>,
) -> Result<MadeParams, AllocError>
    requires base { base.now ≡ param_slices old.now }
    requires sound { IsSound book.now }
    requires same { AreSameIn same old.now book.now }
    requires parameters { AreAlike old.now.pcf book.now.pcf }
    ensures params { IfOk result (λ made. made.params ≡ param_slices book.now) }
    ensures compiled { IfOk result (λ made. made.compiled.items ≡ new_names base.now (param_slices book.now)) }
    ensures few { IfOk result (λ made. length made.compiled.items ≤ HELD_MOST) }
    ensures steps { OnOk result (steps.new ≡ steps.old + length (filter (is_new base.now) (param_slices book.now))) }
{
    let changed = Changed::between(alloc, old, same, book)?;
    if !changed.is_few() {
        return params_of(alloc, base, book, steps);
    }
    let sources = ParamSources::of_few(alloc, book, changed.curves())?;
    // So it is known how many parameters there are at most.
    let _ = old.pcf();
    let made = blocks_beside(alloc, base, &changed, &sources, steps)?;
    let compiled = made.compiled;
    let params = Params::of_blocks(alloc, made.blocks)?;
    Ok(MadeParams { params, compiled })
}

// Whether all tables that curves are found in are kept.
fn are_curves_kept(same: TableSet) -> bool
    ensures { result ≡ are_curves_kept same }
{
    same.cur && same.caf && same.cap && same.txf && same.txp && same.mcf && same.lgf
}

// Whether all tables that plans of parameters depend on are known to be the same.
fn are_all_kept(same: TableSet) -> bool
    ensures { IsTrue result → AreAllKept same }
{
    same.pcf && same.cur && are_curves_kept(same) && same.ocf && same.ocp
}

// The plans of a book that has all that plans of parameters depend on of a base.
fn shared(
    alloc: Global,
    base: &Params,
    old: &Book,
    same: TableSet,
    book: &Book,
) -> Result<MadeParams, AllocError>
    requires base { base.now ≡ param_slices old.now }
    requires sound { IsSound book.now }
    requires same { AreSameIn same old.now book.now }
    requires kept { AreAllKept same }
    ensures params { IfOk result (λ made. made.params ≡ param_slices book.now) }
    ensures compiled { IfOk result (λ made. made.compiled.items ≡ new_names base.now (param_slices book.now)) }
    ensures few { IfOk result (λ made. length made.compiled.items ≤ HELD_MOST) }
    ensures none { length (filter (is_new base.now) (param_slices book.now)) ≡ 0 }
{
    let params = base.copy(alloc)?;
    let compiled = Vec::new(alloc);
    Ok(MadeParams { params, compiled })
}

/// The plans of the parameters of a sound book, as `params_of` gives them, beside those of another book, where tables are
/// known that have the same rows in both. Where both have parameters of the same names and few rows differ, rows are gathered
/// only for the plans that these touch. An error is want of memory, after the steps of what was compiled.
pub fn params_with<L: Ledger>(
    alloc: Global,
    base: &Params,
    old: &Book,
    same: TableSet,
    book: &Book,
    steps: &mut Steps<L>,
) -> Result<MadeParams, AllocError>
    requires base { base.now ≡ param_slices old.now }
    requires sound { IsSound book.now }
    requires same { AreSameIn same old.now book.now }
    ensures params { IfOk result (λ made. made.params ≡ param_slices book.now) }
    ensures compiled { IfOk result (λ made. made.compiled.items ≡ new_names base.now (param_slices book.now)) }
    ensures few { IfOk result (λ made. length made.compiled.items ≤ HELD_MOST) }
    ensures steps { OnOk result (steps.new ≡ steps.old + length (filter (is_new base.now) (param_slices book.now))) }
{
    if are_all_kept(same) {
        return shared(alloc, base, old, same, book);
    }
    if has_parameters(old, same, book) {
        taken_over(alloc, base, old, same, book, steps)
    } else {
        params_of(alloc, base, book, steps)
    }
}
