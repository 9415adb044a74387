ghost use Rattle.std.specs.Prelude.{◌≡◌, ◌+◌, ◌≤◌, ℕ, ℤ, Bool, List, Option, IfOk, IsTrue, OnOk, length, option_map};
ghost use Rattle.mib_model.specs.declared.limits.TheConstants.{HELD_MOST};
ghost use Rattle.numbered_plans.specs.Numbered.{found_among};

use mib_model::Steps;
use std::alloc::{AllocError, Global};
use std::sync::ledger::Ledger;

/// The rows of a book that plans of one kind are compiled of, by the numbers of the plans.
pub trait Sources: Drop {
    /// The rows of one plan.
    type Rows: Drop;

    /// A plan, seen as the rows that it is compiled of.
    type Plan: Drop;

    ghost rows_of: { Self.Rows → Self.Plan };

    ghost rows_at: { Self → ℤ → Option Self.Plan };

    ghost numbers: { Self → List ℕ };

    ghost same: { Self.Plan → Self.Plan → Bool };

    /// The numbers of all plans, which may stand several times. An error is want of memory.
    fn numbers(&self, alloc: Global) -> Result<Vec<u32>, AllocError>
        ensures all { IfOk result (λ told. told.items ≡ numbers self.now) }
        ensures few { IfOk result (λ told. length told.items ≤ HELD_MOST) };

    /// The rows of a number, if it has a plan. An error is want of memory.
    fn rows(&self, alloc: Global, number: i128) -> Result<Option<Self::Rows>, AllocError>
        ensures { IfOk result (λ rows. option_map rows_of rows ≡ rows_at self.now number) };

    /// Whether the rows of two plans are the same.
    fn are_same(old: &Self::Rows, new: &Self::Rows) -> bool
        ensures test { result ≡ same (rows_of old.now) (rows_of new.now) }
        ensures equal { IsTrue result → rows_of old.now ≡ rows_of new.now };

    /// Compiles the plan of these rows, in one step. An error is want of memory.
    fn compile<L: Ledger>(
        alloc: Global,
        rows: &Self::Rows,
        steps: &mut Steps<L>,
    ) -> Result<Self::Plan, AllocError>
        ensures plan { IfOk result (λ plan. plan ≡ rows_of rows.now) }
        ensures step { OnOk result (steps.new ≡ steps.old + 1) };

    // Each plan is that of one of the numbers.
    ghost covers: { (sources : Self) → (number : ℤ) → found_among (rows_at sources) (numbers sources) number ≡ rows_at sources number };
}
