ghost use Rattle.std.specs.Prelude.{◌≡◌, ◌+◌, ◌≤◌, ℤ, IfOk, OnOk, length, option_map};
ghost use Rattle.std.specs.Arc.{arc_value};
ghost use Rattle.std.specs.Option.{option_copied};
ghost use Rattle.mib_keys.specs.Kept.{AreSameIn};
ghost use Rattle.mib_model.specs.Database.{no_rows};
ghost use Rattle.mib_model.specs.declared.limits.TheConstants.{HELD_MOST};
ghost use Rattle.numbered_plans.specs.Numbered.{new_numbers};

use crate::numbered::NumberedPlan;
use crate::plans::PlanMap;
use layout_plan::Layout;
use mib_model::Steps;
use mib_tables::{Book, TableSet};
use std::alloc::{AllocError, Global};
use std::marker::Model;
use std::snapshot::Snapshot;
use std::sync::Arc;
use std::sync::ledger::Ledger;
use struct_plan::Structure;

/// The plans of one kind of a database, compiled, by their numbers. Contracts see the database.
pub struct PlanSet<P: NumberedPlan> {
    plans: Arc<PlanMap<P>>,
    book: Snapshot<Book>,
}

/// The fixed layouts of a database by SPID.
pub type LayoutSet = PlanSet<Layout>;

/// The structures of a database by TPSD.
pub type StructureSet = PlanSet<Structure>;

/// By hand, so that whoever lets one go proves one call.
impl<P: NumberedPlan> Drop for PlanSet<P> {
    fn drop(self) {
        let PlanSet {
            plans: _plans,
            book: _book,
        } = self;
    }
}

impl<P: NumberedPlan> Model for PlanSet<P> {
    ghost use Rattle.std.specs.Prelude.{◌≡◌, ℤ};
    ghost use Rattle.std.specs.Arc.{arc_value};
    ghost use Rattle.mib_model.specs.declared.database.Database.{Database};
    ghost use Rattle.numbered_plans.specs.Numbered.{plan_at};

    ghost Value = { Database };

    ghost view = { λ set. set.book.value };

    ghost invariant = { λ set. (number : ℤ) → plan_at (arc_value set.plans).map number ≡ P.rows_at set.book.value number };
}

/// A set of plans, and the numbers of those that were compiled for it, not shared, in order.
#[derive(Drop)]
pub struct MadeSet<P: NumberedPlan> {
    pub set: PlanSet<P>,
    pub compiled: Vec<u32>,
}

impl<P: NumberedPlan> PlanSet<P> {
    /// The set of a database without rows. An error is want of memory.
    pub fn empty(alloc: Global) -> Result<PlanSet<P>, AllocError>
        ensures { IfOk result (λ set. set ≡ no_rows) }
    {
        Ok(PlanSet {
            plans: Arc::new(alloc, PlanMap::none(alloc))?,
            book: Snapshot::of(&Book::empty(alloc)),
        })
    }

    // The set of a book whose plans are compiled of the same. An error is want of memory.
    fn taken_over(&self, book: &Book) -> Result<PlanSet<P>, AllocError>
        requires { (number : ℤ) → P.rows_at self.now number ≡ P.rows_at book.now number }
        ensures { IfOk result (λ set. set ≡ book.now) }
    {
        Ok(PlanSet {
            plans: Arc::try_clone(&self.plans)?,
            book: Snapshot::of(book),
        })
    }

    // The set of a book beside another, of which each plan is looked at.
    fn compared<L: Ledger>(
        alloc: Global,
        base: &PlanSet<P>,
        old: &Book,
        book: &Book,
        steps: &mut Steps<L>,
    ) -> Result<MadeSet<P>, AllocError>
        requires { base.now ≡ old.now }
        ensures set { IfOk result (λ made. made.set ≡ book.now) }
        ensures compiled { IfOk result (λ made. made.compiled.items ≡ new_numbers P.same P.rows_at P.numbers base.now book.now) }
        ensures few { IfOk result (λ made. length made.compiled.items ≤ HELD_MOST) }
        ensures steps { OnOk result (steps.new ≡ steps.old + length (new_numbers P.same P.rows_at P.numbers base.now book.now)) }
    {
        let built = P::build(alloc, &base.plans, old, book, steps)?;
        let set = PlanSet {
            plans: Arc::new(alloc, built.plans)?,
            book: Snapshot::of(book),
        };
        Ok(MadeSet {
            set,
            compiled: built.compiled,
        })
    }

    /// The set of a book, beside the set of another, with which it has tables in common: a plan that this has of the same
    /// rows and type items is shared with it, each other is compiled, in one step. All are shared at once where the books
    /// have the same tables for them. An error is want of memory.
    pub fn beside<L: Ledger>(
        alloc: Global,
        base: &PlanSet<P>,
        old: &Book,
        known: TableSet,
        book: &Book,
        steps: &mut Steps<L>,
    ) -> Result<MadeSet<P>, AllocError>
        requires base { base.now ≡ old.now }
        requires known { AreSameIn known old.now book.now }
        ensures set { IfOk result (λ made. made.set ≡ book.now) }
        ensures compiled { IfOk result (λ made. made.compiled.items ≡ new_numbers P.same P.rows_at P.numbers base.now book.now) }
        ensures few { IfOk result (λ made. length made.compiled.items ≤ HELD_MOST) }
        ensures steps { OnOk result (steps.new ≡ steps.old + length (new_numbers P.same P.rows_at P.numbers base.now book.now)) }
    {
        if P::are_alike(known, old, book) {
            return Ok(MadeSet {
                set: base.taken_over(book)?,
                compiled: Vec::new(alloc),
            });
        }
        PlanSet::compared(alloc, base, old, book, steps)
    }

    /// The plan of a number, which others may share.
    #[inline]
    pub fn handle(&self, number: i128) -> Option<&Arc<P>>
        ensures { option_map arc_value (option_copied result) ≡ P.rows_at self.now number }
    {
        self.plans.get(number)
    }

    /// The plan of a number, in one probe at most: none exactly where the database has none.
    #[inline]
    pub fn plan(&self, number: i128) -> Option<&P>
        ensures { option_copied result ≡ P.rows_at self.now number }
    {
        match self.handle(number) {
            Some(plan) => Some(plan),
            None => None,
        }
    }
}
