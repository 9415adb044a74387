ghost use Rattle.std.specs.Prelude.{◌≡◌, ◌+◌, ◌≤◌, ℕ, ℤ, Bool, List, Option, None, true, IfOk, IsTrue, OnOk, length};
ghost use Rattle.mib_keys.specs.Kept.{AreSameIn};
ghost use Rattle.mib_model.specs.Database.{no_rows};
ghost use Rattle.mib_model.specs.declared.database.Database.{Database};
ghost use Rattle.mib_model.specs.declared.limits.TheConstants.{HELD_MOST};
ghost use Rattle.numbered_plans.specs.Numbered.{new_numbers, plan_at};

use crate::building::Built;
use crate::plans::PlanMap;
use mib_model::Steps;
use mib_tables::{Book, TableSet};
use std::alloc::{AllocError, Global};
use std::sync::ledger::Ledger;

/// A plan that is found by a number, seen as the rows and type items that it is compiled of.
pub trait NumberedPlan: Drop {
    ghost rows_at: { Database → ℤ → Option Self };

    ghost same: { Self → Self → Bool };

    ghost numbers: { Database → List ℕ };

    /// Whether each plan of two books is compiled of the same, where tables are known that are the same in both.
    fn are_alike(known: TableSet, old: &Book, book: &Book) -> bool
        requires { AreSameIn known old.now book.now }
        ensures { IsTrue result → (number : ℤ) → rows_at old.now number ≡ rows_at book.now number };

    /// The plans of a book beside those of another, each of which is looked at. An error is want of memory.
    fn build<L: Ledger>(
        alloc: Global,
        base: &PlanMap<Self>,
        old: &Book,
        book: &Book,
        steps: &mut Steps<L>,
    ) -> Result<Built<Self>, AllocError>
        requires { (number : ℤ) → plan_at base.now.map number ≡ rows_at old.now number }
        ensures plans { IfOk result (λ built. (number : ℤ) → plan_at built.plans.map number ≡ rows_at book.now number) }
        ensures compiled { IfOk result (λ built. built.compiled.items ≡ new_numbers same rows_at numbers old.now book.now) }
        ensures few { IfOk result (λ built. length built.compiled.items ≤ HELD_MOST) }
        ensures steps { OnOk result (steps.new ≡ steps.old + length (new_numbers same rows_at numbers old.now book.now)) };

    // What is compiled of the same is the same.
    ghost is_same: { (rows : Self) → same rows rows ≡ true };

    // A database without rows has no plans.
    ghost none_first: { (number : ℤ) → rows_at no_rows number ≡ None };
}
