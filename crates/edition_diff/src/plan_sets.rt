// All plans of a database, beside those of a base.
ghost use Rattle.std.specs.Prelude.{◌≡◌, ◌+◌, ◌*◌, ◌≤◌, IfOk, OnOk, length};
ghost use Rattle.edition_diff.specs.Diffs.{ident_rows};
ghost use Rattle.mib_keys.specs.Kept.{AreSameIn};
ghost use Rattle.mib_model.specs.Plans.{plans};
ghost use Rattle.mib_model.specs.Soundness.{IsSound};
ghost use Rattle.mib_model.specs.Touched.{touched};
ghost use Rattle.mib_model.specs.declared.limits.TheConstants.{HELD_MOST};

use crate::ident::{ident_beside, ident_of};
use crate::keyed::KeyedPlans;
use crate::names::add_ident;
use ident_plan::Ident;
use mib_model::{PlanName, Steps};
use mib_tables::{Book, TableSet};
use std::alloc::{AllocError, Global};
use std::marker::Model;
use std::sync::Arc;
use std::sync::ledger::Ledger;

/// The plans of a database. Contracts see the database.
pub struct PlanSets {
    keyed: KeyedPlans,
    ident: Arc<Ident>,
}

/// By hand, so that whoever lets one go proves one call.
impl Drop for PlanSets {
    fn drop(self) {
        let PlanSets {
            keyed: _keyed,
            ident: _ident,
        } = self;
    }
}

impl Model for PlanSets {
    ghost use Rattle.std.specs.Prelude.{◌≡◌};
    ghost use Rattle.std.specs.Arc.{arc_value};
    ghost use Rattle.edition_diff.specs.Diffs.{ident_rows};
    ghost use Rattle.mib_model.specs.declared.database.Database.{Database};

    ghost Value = { Database };

    ghost view = { λ sets. sets.keyed };

    ghost invariant = { λ sets. arc_value sets.ident ≡ ident_rows sets.keyed };
}

/// The plans of a database, and the names of those that were compiled, not shared with a base, in the order of all plans.
#[derive(Drop)]
pub struct MadeSets {
    pub sets: PlanSets,
    pub touched: Vec<PlanName>,
}

impl PlanSets {
    /// The plans of a sound book, all compiled: a step for each. An error is want of memory.
    pub fn alone<L: Ledger>(
        alloc: Global,
        book: &Book,
        steps: &mut Steps<L>,
    ) -> Result<PlanSets, AllocError>
        requires { IsSound book.now }
        ensures sets { IfOk result (λ sets. sets ≡ book.now) }
        ensures steps { OnOk result (steps.new ≡ steps.old + length (plans book.now)) }
    {
        let keyed = KeyedPlans::alone(alloc, book, steps)?;
        let ident = ident_of(alloc, book, steps)?;
        Ok(PlanSets { keyed, ident })
    }

    /// The plans of a sound book beside those of another, with which it has tables in common. A plan of the same rows is
    /// shared; each other is compiled, in one step, and named. An error is want of memory.
    pub fn beside<L: Ledger>(
        alloc: Global,
        base: &PlanSets,
        old: &Book,
        same: TableSet,
        book: &Book,
        steps: &mut Steps<L>,
    ) -> Result<MadeSets, AllocError>
        requires base { base.now ≡ old.now }
        requires sound { IsSound book.now }
        requires same { AreSameIn same old.now book.now }
        ensures sets { IfOk result (λ made. made.sets ≡ book.now) }
        ensures touched { IfOk result (λ made. made.touched.items ≡ touched base.now book.now) }
        ensures few { IfOk result (λ made. length made.touched.items ≤ 3 * HELD_MOST + 1) }
        ensures steps { OnOk result (steps.new ≡ steps.old + length (touched base.now book.now)) }
    {
        let keyed = KeyedPlans::beside(alloc, &base.keyed, old, same, book, steps)?;
        let ident = ident_beside(alloc, &base.ident, old, book, steps)?;
        let mut touched = keyed.touched;
        add_ident(&mut touched, ident.is_new)?;
        let sets = PlanSets {
            keyed: keyed.keyed,
            ident: ident.ident,
        };
        Ok(MadeSets { sets, touched })
    }

    /// The plan of identification.
    pub fn ident(&self) -> &Ident
        ensures { result.now ≡ ident_rows self.now }
    {
        &self.ident
    }

    /// The plans that are found by a key.
    pub fn keyed(&self) -> &KeyedPlans
        ensures { result.now ≡ self.now }
    {
        &self.keyed
    }
}
