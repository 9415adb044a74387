// Fixed layouts, which are found by SPID.
ghost use Rattle.std.specs.Prelude.{◌≡◌, IsTrue};
ghost use Rattle.std.specs.Option.{option_copied};
ghost use Rattle.edition_plans.specs.Layouts.{layout_of};
ghost use Rattle.mib_keys.specs.Kept.{AreSameIn};

use crate::before::Before;
use crate::building::{Built, build};
use crate::known::{are_same, are_types_same};
use crate::layout_sources::LayoutSources;
use crate::numbered::NumberedPlan;
use crate::plan_set::PlanSet;
use crate::plans::PlanMap;
use layout_plan::Layout;
use mib_model::Steps;
use mib_tables::{Book, TableSet};
use std::alloc::{AllocError, Global};
use std::sync::ledger::Ledger;

// Whether two books have the same packets and places, of which it may be known.
fn are_placed_alike(known: TableSet, old: &Book, book: &Book) -> bool
    requires { AreSameIn known old.now book.now }
    ensures { IsTrue result → (old.now.pid ≡ book.now.pid) × (old.now.plf ≡ book.now.plf) }
{
    are_same(known.pid, old.pid(), book.pid()) && are_same(known.plf, old.plf(), book.plf())
}

impl NumberedPlan for Layout {
    ghost use Rattle.std.proofs.Common.{refl};
    ghost use Rattle.numbered_plans.specs.Laws.{same-layout};
    ghost use Rattle.numbered_plans.specs.Layouts.{laid_spids, layout_numbered, same_layout};

    ghost rows_at = { layout_numbered };

    ghost same = { same_layout };

    ghost numbers = { λ db. laid_spids db.pid };

    ghost is_same = { same-layout };

    ghost none_first = { λ number. refl };

    fn are_alike(known: TableSet, old: &Book, book: &Book) -> bool {
        are_placed_alike(known, old, book) && are_types_same(known.pcf, old.pcf(), book.pcf())
    }

    fn build<L: Ledger>(
        alloc: Global,
        base: &PlanMap<Layout>,
        old: &Book,
        book: &Book,
        steps: &mut Steps<L>,
    ) -> Result<Built<Layout>, AllocError> {
        let before = Before::new(&base.map, LayoutSources::new(alloc, old)?);
        build(alloc, &before, &LayoutSources::new(alloc, book)?, steps)
    }
}

impl PlanSet<Layout> {
    /// The layout of a SPID, in one probe at most: none exactly where no packet of that SPID has a fixed layout.
    #[inline]
    pub fn layout(&self, spid: u32) -> Option<&Layout>
        ensures { option_copied result ≡ layout_of self.now spid }
    {
        self.plan(i128::from(spid))
    }
}
