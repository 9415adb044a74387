// Plans that are made one after the other.
ghost use Rattle.std.specs.Prelude.{◌≡◌, ◌+◌, ◌++◌, ◌≤◌, ℤ, pos, None, IfOk, OnOk, length, not, if◌then◌else◌};
ghost use Rattle.std.specs.Arc.{arc_value};
ghost use Rattle.std.specs.Option.{option_or};
ghost use Rattle.std.specs.Ordering.{int_eq};
ghost use Rattle.mib_model.specs.Orders.{sorted_by_number};
ghost use Rattle.mib_model.specs.declared.limits.TheConstants.{HELD_MOST};
ghost use Rattle.numbered_plans.specs.Numbered.{added, found_among, has_same, new_among, new_numbers, one_if, plan_at};

use crate::before::Before;
use crate::order::in_order;
use crate::plans::PlanMap;
use crate::sources::Sources;
use mib_model::Steps;
use std::alloc::{AllocError, Global};
use std::collections::HashMap;
use std::sync::Arc;
use std::sync::ledger::Ledger;

// A plan, and whether it was compiled, not shared.
#[derive(Drop)]
struct BuiltPlan<P: Drop> {
    plan: Arc<P>,
    is_new: bool,
}

// Plans by number, and the numbers of those that were compiled, not shared, in no order.
#[derive(Drop)]
struct Building<P: Drop> {
    plans: HashMap<i128, Arc<P>>,
    compiled: Vec<u32>,
}

/// Plans by number, and the numbers of those that were compiled, not shared, in order.
#[derive(Drop)]
pub struct Built<P: Drop> {
    pub plans: PlanMap<P>,
    pub compiled: Vec<u32>,
}

// The plan of these rows: that of the base where it is of the same.
fn plan_of<S: Sources, L: Ledger>(
    alloc: Global,
    before: &Before<'_, S>,
    number: i128,
    rows: &S::Rows,
    steps: &mut Steps<L>,
) -> Result<BuiltPlan<S::Plan>, AllocError>
    ensures plan { IfOk result (λ made. arc_value made.plan ≡ S.rows_of rows.now) }
    ensures is_new { IfOk result (λ made. made.is_new ≡ not (has_same S.same (S.rows_at before.now number) (S.rows_of rows.now))) }
    ensures steps { OnOk result (steps.new ≡ steps.old + one_if (not (has_same S.same (S.rows_at before.now number) (S.rows_of rows.now)))) }
{
    if let Some(plan) = before.shared(alloc, number, rows)? {
        return Ok(BuiltPlan {
            plan,
            is_new: false,
        });
    }
    Ok(BuiltPlan {
        plan: Arc::new(alloc, S::compile(alloc, rows, steps)?)?,
        is_new: true,
    })
}

// Notes the plan of a number, if it has one and that isn't there.
fn note<S: Sources, L: Ledger>(
    alloc: Global,
    building: &mut Building<S::Plan>,
    before: &Before<'_, S>,
    new: &S,
    number: u32,
    steps: &mut Steps<L>,
) -> Result<(), AllocError>
    ensures plans { OnOk result ((q : ℤ) → plan_at building.new.plans q ≡ option_or (plan_at building.old.plans q)
        (if int_eq (pos number) q then S.rows_at new.now (pos number) else None)) }
    ensures compiled { OnOk result (building.new.compiled.items ≡ building.old.compiled.items
        ++ added S.same (S.rows_at before.now) (S.rows_at new.now) (plan_at building.old.plans (pos number)) number) }
    ensures steps { OnOk result (steps.new ≡ steps.old
        + length (added S.same (S.rows_at before.now) (S.rows_at new.now) (plan_at building.old.plans (pos number)) number)) }
{
    let key = i128::from(number);
    if building.plans.contains_key(&key) {
        return Ok(());
    }
    let Some(rows) = new.rows(alloc, key)? else {
        return Ok(());
    };
    let BuiltPlan { plan, is_new } = plan_of(alloc, before, key, &rows, steps)?;
    building.plans.insert(key, plan)?;
    if is_new {
        building.compiled.push(number)?;
    }
    Ok(())
}

// The plans of numbers, of which those that were compiled are told in no order.
#[tactic(auto, unfolding(mib_model::specs::Orders::sorted_by))]
fn noted<S: Sources, L: Ledger>(
    alloc: Global,
    before: &Before<'_, S>,
    new: &S,
    numbers: &[u32],
    steps: &mut Steps<L>,
) -> Result<Building<S::Plan>, AllocError>
    ensures plans { IfOk result (λ building. (q : ℤ) → plan_at building.plans q ≡ found_among (S.rows_at new.now) numbers.now q) }
    ensures compiled { IfOk result (λ building. sorted_by_number (λ n. n) building.compiled.items
        ≡ new_among S.same (S.rows_at before.now) (S.rows_at new.now) numbers.now) }
    ensures steps { OnOk result (steps.new ≡ steps.old + length (new_among S.same (S.rows_at before.now) (S.rows_at new.now) numbers.now)) }
{
    let mut building = Building {
        plans: HashMap::new(alloc),
        compiled: Vec::new(alloc),
    };
    for number in numbers {
        note(alloc, &mut building, before, new, *number, steps)?;
    }
    Ok(building)
}

/// All plans of a book: those of the base where they are of the same rows; and in order the numbers of those that were
/// compiled, each in one step. An error is want of memory.
pub fn build<S: Sources, L: Ledger>(
    alloc: Global,
    before: &Before<'_, S>,
    new: &S,
    steps: &mut Steps<L>,
) -> Result<Built<S::Plan>, AllocError>
    ensures plans { IfOk result (λ built. (q : ℤ) → plan_at built.plans.map q ≡ S.rows_at new.now q) }
    ensures compiled { IfOk result (λ built. built.compiled.items ≡ new_numbers S.same S.rows_at S.numbers before.now new.now) }
    ensures few { IfOk result (λ built. length built.compiled.items ≤ HELD_MOST) }
    ensures steps { OnOk result (steps.new ≡ steps.old + length (new_numbers S.same S.rows_at S.numbers before.now new.now)) }
{
    let numbers = new.numbers(alloc)?;
    let Building { plans, compiled } = noted(alloc, before, new, &numbers, steps)?;
    Ok(Built {
        plans: PlanMap::of(alloc, plans, &numbers)?,
        compiled: in_order(compiled)?,
    })
}
