// The parameters of deduced values by their numbers.
ghost use Rattle.std.specs.Prelude.{◌≡◌, ℤ, Some, None, IfOk, OnOk, true, if◌then◌else◌};
ghost use Rattle.std.specs.Arc.{arc_value};
ghost use Rattle.std.specs.HashMap.{get};
ghost use Rattle.std.specs.Option.{option_eq, option_or};
ghost use Rattle.std.specs.Ordering.{int_eq};
ghost use Rattle.mib_model.specs.Plans.{type_item};
ghost use Rattle.numbered_plans.specs.Structures.{item_numbered, number_of};

use crate::known::are_same;
use first_rows::GhostRows;
use mib_model::{PcfRow, TypeItem};
use std::alloc::{AllocError, Global};
use std::collections::HashMap;
use std::marker::Model;
use std::sync::Arc;
use type_items::item_of;

/// The type items of the parameters that deduced values find by PCF_PID. Contracts see the rows of all parameters.
#[derive(Drop)]
pub struct Deduced {
    items: HashMap<i128, TypeItem>,
    parameters: GhostRows<PcfRow>,
}

impl Model for Deduced {
    ghost use Rattle.std.specs.Prelude.{◌≡◌, ℤ, List};
    ghost use Rattle.std.specs.HashMap.{get};
    ghost use Rattle.std.specs.Ordering.{int_eq};
    ghost use Rattle.mib_model.specs.declared.rows.PcfRow.{PcfRow};
    ghost use Rattle.numbered_plans.specs.Structures.{item_numbered};

    ghost Value = { List PcfRow };

    ghost view = { λ all. all.parameters };

    ghost invariant = { λ all. (pid : ℤ) → get int_eq all.items pid ≡ item_numbered all.parameters pid };
}

// The number by which a deduced value finds a parameter.
fn number(row: &PcfRow) -> Option<i128>
    ensures { result ≡ number_of row.now }
{
    if !row.is_measured() || row.is_deduced() {
        return None;
    }
    Some(i128::from(row.pid?))
}

// Notes the type item of a parameter whose number has none yet.
fn note(items: &mut HashMap<i128, TypeItem>, row: &PcfRow) -> Result<(), AllocError>
    ensures { OnOk result ((pid : ℤ) → get int_eq items.new pid ≡ option_or (get int_eq items.old pid)
        (if option_eq int_eq (number_of row.now) (Some pid) then Some (type_item row.now) else None)) }
{
    let Some(number) = number(row) else {
        return Ok(());
    };
    if !items.contains_key(&number) {
        items.insert(number, item_of(row))?;
    }
    Ok(())
}

// The type item of the first parameter of each number.
fn firsts(alloc: Global, parameters: &[PcfRow]) -> Result<HashMap<i128, TypeItem>, AllocError>
    ensures { IfOk result (λ items. (pid : ℤ) → get int_eq items pid ≡ item_numbered parameters.now pid) }
{
    let mut items = HashMap::new(alloc);
    for row in parameters {
        note(&mut items, row)?;
    }
    Ok(items)
}

impl Deduced {
    /// Those of some parameters. An error is want of memory.
    pub fn new(alloc: Global, parameters: &[PcfRow]) -> Result<Deduced, AllocError>
        ensures { IfOk result (λ all. all ≡ parameters.now) }
    {
        Ok(Deduced {
            items: firsts(alloc, parameters)?,
            parameters: GhostRows::of(alloc, parameters)?,
        })
    }

    /// Those of some parameters beside those of others, with which all are shared where they are the same, which may be
    /// known. An error is want of memory.
    pub fn beside(
        alloc: Global,
        base: &Arc<Deduced>,
        known: bool,
        old: &[PcfRow],
        parameters: &[PcfRow],
    ) -> Result<Arc<Deduced>, AllocError>
        requires base { arc_value base.now ≡ old.now }
        requires known { known ≡ true → old.now ≡ parameters.now }
        ensures { IfOk result (λ all. arc_value all ≡ parameters.now) }
    {
        if are_same(known, old, parameters) {
            return Arc::try_clone(base);
        }
        Ok(Arc::new(alloc, Deduced::new(alloc, parameters)?)?)
    }

    /// That of the first parameter of a number, in one probe.
    pub fn find(&self, pid: i128) -> Option<TypeItem>
        ensures { result ≡ item_numbered self.now pid }
    {
        self.items.get(&pid).copied()
    }
}
