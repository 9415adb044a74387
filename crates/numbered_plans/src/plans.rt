// Plans by number, of which most are found without a probe.
ghost use Rattle.std.specs.Prelude.{◌≡◌, ℤ, pos, IfOk, IfSome, None, option_map};
ghost use Rattle.std.specs.Arc.{arc_value};
ghost use Rattle.std.specs.Option.{option_copied};
ghost use Rattle.first_rows.specs.ByNumbers.{IsAtHand};
ghost use Rattle.numbered_plans.specs.Kept.{ArePlansOf};
ghost use Rattle.numbered_plans.specs.Numbered.{plan_at};

use first_rows::ByNumber;
use std::alloc::{AllocError, Global};
use std::collections::HashMap;
use std::sync::Arc;

/// A plan, and its number.
#[derive(Drop)]
pub struct Kept<P: Drop> {
    pub number: u32,
    pub plan: Arc<P>,
}

/// Plans by number, most of them at the places of their numbers too.
#[derive(Drop)]
pub struct PlanMap<P: Drop> {
    pub map: HashMap<i128, Arc<P>>,
    by_number: ByNumber<Kept<P>>,
    ghost at_hand: { ArePlansOf map by_number },
}

// Puts the plan of a number at its place, if there is one. An error is want of memory.
fn put<P: Drop>(
    by_number: &mut ByNumber<Kept<P>>,
    map: &HashMap<i128, Arc<P>>,
    number: u32,
) -> Result<(), AllocError>
    ensures { ArePlansOf map.now by_number.old → ArePlansOf map.now by_number.new }
{
    if let Some(plan) = probe(map, i128::from(number)) {
        let plan = plan.clone()?;
        by_number.put(u64::from(number), Kept { number, plan });
    }
    Ok(())
}

// The plans of numbers, at the places of these, four for each plan. An error is want of memory.
fn by_number_of<P: Drop>(
    alloc: Global,
    map: &HashMap<i128, Arc<P>>,
    numbers: &[u32],
) -> Result<ByNumber<Kept<P>>, AllocError>
    ensures { IfOk result (λ by_number. ArePlansOf map.now by_number) }
{
    let mut by_number = ByNumber::with_room(alloc, map.len().saturating_mul(2))?;
    for number in numbers {
        put(&mut by_number, map, *number)?;
    }
    Ok(by_number)
}

// The plan of a number, by the map: out of the way of those that are found without it.
#[inline(never)]
fn probe<P: Drop>(map: &HashMap<i128, Arc<P>>, number: i128) -> Option<&Arc<P>>
    ensures { option_map arc_value (option_copied result) ≡ plan_at map.now number }
{
    map.get(&number)
}

// The plan of a number, if it is at its place.
#[inline(always)]
fn at_place<P: Drop>(by_number: &ByNumber<Kept<P>>, number: i128) -> Option<&Kept<P>>
    ensures { IfSome result (λ kept. IsAtHand by_number.now kept.now × (pos kept.now.number ≡ number)) }
{
    let kept = by_number.at(u64::try_from(number).ok()?)?;
    if i128::from(kept.number) == number {
        Some(kept)
    } else {
        None
    }
}

impl<P: Drop> PlanMap<P> {
    /// No plans. They take no memory.
    pub fn none(alloc: Global) -> PlanMap<P>
        ensures { (number : ℤ) → plan_at result.map number ≡ None }
    {
        PlanMap {
            map: HashMap::new(alloc),
            by_number: ByNumber::none(alloc),
        }
    }

    /// These plans, of which those of some numbers stand at the places of these. An error is want of memory.
    pub fn of(
        alloc: Global,
        map: HashMap<i128, Arc<P>>,
        numbers: &[u32],
    ) -> Result<PlanMap<P>, AllocError>
        ensures { IfOk result (λ plans. plans.map ≡ map) }
    {
        let by_number = by_number_of(alloc, &map, numbers)?;
        Ok(PlanMap { map, by_number })
    }

    /// The plan of a number, in one probe at most.
    #[inline]
    pub fn get(&self, number: i128) -> Option<&Arc<P>>
        ensures { option_map arc_value (option_copied result) ≡ plan_at self.now.map number }
    {
        match at_place(&self.by_number, number) {
            Some(kept) => Some(&kept.plan),
            None => probe(&self.map, number),
        }
    }
}
