// Structures, which are found by TPSD.
use crate::before::Before;
use crate::building::{Built, build};
use crate::known::{are_same, are_types_same};
use crate::numbered::NumberedPlan;
use crate::plans::PlanMap;
use crate::structure_sources::StructureSources;
use mib_model::Steps;
use mib_tables::{Book, TableSet};
use std::alloc::{AllocError, Global};
use std::sync::ledger::Ledger;
use struct_plan::Structure;

impl NumberedPlan for Structure {
    ghost use Rattle.struct_plan.specs.Slices.{structure_found};
    ghost use Rattle.numbered_plans.specs.Laws.{no-structures, same-structure};
    ghost use Rattle.numbered_plans.specs.Structures.{same_structure, tpsds};

    ghost rows_at = { structure_found };

    ghost same = { same_structure };

    ghost numbers = { λ db. tpsds db.vpd };

    ghost is_same = { same-structure };

    ghost none_first = { no-structures };

    fn are_alike(known: TableSet, old: &Book, book: &Book) -> bool {
        are_same(known.vpd, old.vpd(), book.vpd())
            && are_types_same(known.pcf, old.pcf(), book.pcf())
    }

    fn build<L: Ledger>(
        alloc: Global,
        base: &PlanMap<Structure>,
        old: &Book,
        book: &Book,
        steps: &mut Steps<L>,
    ) -> Result<Built<Structure>, AllocError> {
        let before = Before::new(&base.map, StructureSources::new(alloc, old)?);
        build(alloc, &before, &StructureSources::new(alloc, book)?, steps)
    }
}
