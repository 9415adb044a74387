// The plan of identification.
ghost use Rattle.std.specs.Prelude.{◌≡◌, ◌+◌, ◌++◌, not, length, IfOk, IsTrue, OnOk};
ghost use Rattle.std.specs.Arc.{arc_value};
ghost use Rattle.edition_diff.specs.Diffs.{has_ident, ident_if, ident_rows};

use ident_plan::Ident;
use mib_model::Steps;
use mib_tables::Book;
use row_sameness::all_same;
use std::alloc::{AllocError, Global};
use std::sync::Arc;
use std::sync::ledger::Ledger;

// Whether two books have the same rows for the plan of identification.
#[tactic(auto, unfolding(mib_model::specs::Touched::same_slice))]
fn same_ident(old: &Book, new: &Book) -> bool
    ensures test { result ≡ has_ident old.now new.now }
    ensures equal { IsTrue result → ident_rows old.now ≡ ident_rows new.now }
{
    all_same(old.pid(), new.pid()) && all_same(old.pic(), new.pic())
}

/// The plan of identification of a book, compiled in one step. An error is want of memory.
pub fn ident_of<L: Ledger>(
    alloc: Global,
    book: &Book,
    steps: &mut Steps<L>,
) -> Result<Arc<Ident>, AllocError>
    ensures ident { IfOk result (λ ident. arc_value ident ≡ ident_rows book.now) }
    ensures step { OnOk result (steps.new ≡ steps.old + 1) }
{
    Ok(Arc::new(alloc, Ident::compile(alloc, book.pid(), book.pic(), steps)?)?)
}

/// The plan of identification, and whether it was compiled, not shared.
#[derive(Drop)]
pub struct IdentMade {
    pub ident: Arc<Ident>,
    pub is_new: bool,
}

/// The plan of identification of a book: that of another where its rows are the same. An error is want of memory.
pub fn ident_beside<L: Ledger>(
    alloc: Global,
    base: &Arc<Ident>,
    old: &Book,
    book: &Book,
    steps: &mut Steps<L>,
) -> Result<IdentMade, AllocError>
    requires { arc_value base.now ≡ ident_rows old.now }
    ensures ident { IfOk result (λ made. arc_value made.ident ≡ ident_rows book.now) }
    ensures is_new { IfOk result (λ made. made.is_new ≡ not (has_ident old.now book.now)) }
    ensures steps { OnOk result (steps.new ≡ steps.old + length (ident_if (not (has_ident old.now book.now)))) }
{
    if same_ident(old, book) {
        return Ok(IdentMade {
            ident: base.clone()?,
            is_new: false,
        });
    }
    Ok(IdentMade {
        ident: ident_of(alloc, book, steps)?,
        is_new: true,
    })
}
