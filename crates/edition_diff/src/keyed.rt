// The plans that are found by a key: those of parameters, of layouts and of structures.
ghost use Rattle.std.specs.Prelude.{◌≡◌, ◌+◌, ◌*◌, ◌≤◌, IfOk, OnOk, length};
ghost use Rattle.std.specs.Option.{option_copied};
ghost use Rattle.edition_diff.specs.Diffs.{keyed_plans, touched_among};
ghost use Rattle.edition_plans.specs.Layouts.{layout_of};
ghost use Rattle.edition_plans.specs.Params.{param_slices};
ghost use Rattle.mib_keys.specs.Kept.{AreSameIn};
ghost use Rattle.mib_model.specs.Database.{no_rows};
ghost use Rattle.mib_model.specs.Soundness.{IsSound};
ghost use Rattle.mib_model.specs.declared.limits.TheConstants.{HELD_MOST};
ghost use Rattle.struct_plan.specs.Slices.{deduced_item, structure_found};

use crate::names::keyed_names;
use mib_keys::same_tables;
use mib_model::{PlanName, Steps};
use mib_tables::{Book, TableSet};
use numbered_plans::{Deduced, Layout, LayoutSet, Structure, StructureSet, TypeItem};
use param_changes::params_with;
use param_plan::Params;
use std::alloc::{AllocError, Global};
use std::marker::Model;
use std::sync::Arc;
use std::sync::ledger::Ledger;

/// The plans of a database's parameters, layouts and structures. Contracts see the database.
pub struct KeyedPlans {
    params: Params,
    layouts: LayoutSet,
    structures: StructureSet,
    deduced: Arc<Deduced>,
}

/// By hand, so that whoever lets one go proves one call.
impl Drop for KeyedPlans {
    fn drop(self) {
        let KeyedPlans {
            params: _params,
            layouts: _layouts,
            structures: _structures,
            deduced: _deduced,
        } = self;
    }
}

impl Model for KeyedPlans {
    ghost use Rattle.std.specs.Prelude.{◌≡◌};
    ghost use Rattle.std.specs.Arc.{arc_value};
    ghost use Rattle.edition_plans.specs.Params.{param_slices};
    ghost use Rattle.mib_model.specs.declared.database.Database.{Database};

    ghost Value = { Database };

    ghost view = { λ keyed. keyed.layouts };

    ghost invariant = { λ keyed. (keyed.params ≡ param_slices keyed.layouts) × (keyed.structures ≡ keyed.layouts)
        × (arc_value keyed.deduced ≡ keyed.layouts.pcf) };
}

/// Plans, and the names of those that were compiled, not shared, in the order of all plans.
#[derive(Drop)]
pub struct KeyedMade {
    pub keyed: KeyedPlans,
    pub touched: Vec<PlanName>,
}

impl KeyedPlans {
    #[tactic(auto, unfolding(edition_plans::specs::Params::param_slices, mib_model::specs::Orders::sorted_by))]
    /// Those of a database without rows. An error is want of memory.
    pub fn empty(alloc: Global) -> Result<KeyedPlans, AllocError>
        ensures { IfOk result (λ keyed. keyed ≡ no_rows) }
    {
        Ok(KeyedPlans {
            params: Params::new(alloc, Vec::new(alloc))?,
            layouts: LayoutSet::empty(alloc)?,
            structures: StructureSet::empty(alloc)?,
            deduced: Arc::new(alloc, Deduced::new(alloc, &[])?)?,
        })
    }

    /// Those of a sound book, beside those of another, with which it has tables in common: a plan of the same rows is
    /// shared. An error is want of memory.
    pub fn beside<L: Ledger>(
        alloc: Global,
        base: &KeyedPlans,
        old: &Book,
        same: TableSet,
        book: &Book,
        steps: &mut Steps<L>,
    ) -> Result<KeyedMade, AllocError>
        requires base { base.now ≡ old.now }
        requires sound { IsSound book.now }
        requires same { AreSameIn same old.now book.now }
        ensures keyed { IfOk result (λ made. made.keyed ≡ book.now) }
        ensures touched { IfOk result (λ made. made.touched.items ≡ touched_among base.now (keyed_plans book.now)) }
        ensures few { IfOk result (λ made. length made.touched.items ≤ 3 * HELD_MOST) }
        ensures steps { OnOk result (steps.new ≡ steps.old + length (touched_among base.now (keyed_plans book.now))) }
    {
        let params = params_with(alloc, &base.params, old, same, book, steps)?;
        let layouts = LayoutSet::beside(alloc, &base.layouts, old, same, book, steps)?;
        let structures = StructureSet::beside(alloc, &base.structures, old, same, book, steps)?;
        let deduced = Deduced::beside(alloc, &base.deduced, same.pcf, old.pcf(), book.pcf())?;
        let touched = keyed_names(
            alloc,
            &params.compiled,
            &layouts.compiled,
            &structures.compiled,
        )?;
        let keyed = KeyedPlans {
            params: params.params,
            layouts: layouts.set,
            structures: structures.set,
            deduced,
        };
        Ok(KeyedMade { keyed, touched })
    }

    /// Those of a sound book, all compiled. An error is want of memory.
    pub fn alone<L: Ledger>(
        alloc: Global,
        book: &Book,
        steps: &mut Steps<L>,
    ) -> Result<KeyedPlans, AllocError>
        requires { IsSound book.now }
        ensures keyed { IfOk result (λ keyed. keyed ≡ book.now) }
        ensures steps { OnOk result (steps.new ≡ steps.old + length (touched_among no_rows (keyed_plans book.now))) }
    {
        let nothing = KeyedPlans::empty(alloc)?;
        let no_book = Book::empty(alloc);
        let same = same_tables(&no_book, book);
        let made = KeyedPlans::beside(alloc, &nothing, &no_book, same, book, steps)?;
        Ok(made.keyed)
    }

    /// The plans of all parameters that have plans, by name.
    pub fn params(&self) -> &Params
        ensures { result.now ≡ param_slices self.now }
    {
        &self.params
    }

    /// The layout of a SPID.
    pub fn layout(&self, spid: u32) -> Option<&Layout>
        ensures { option_copied result ≡ layout_of self.now spid }
    {
        self.layouts.layout(spid)
    }

    /// The structure of a TPSD.
    pub fn structure(&self, tpsd: i128) -> Option<&Structure>
        ensures { option_copied result ≡ structure_found self.now tpsd }
    {
        self.structures.plan(tpsd)
    }

    /// The type item of a deduced value's parameter by its number.
    pub fn deduced(&self, pid: i128) -> Option<TypeItem>
        ensures { result ≡ deduced_item self.now pid }
    {
        self.deduced.find(pid)
    }
}
