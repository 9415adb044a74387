// The rows and type items that structures are compiled of, found by TPSD.
ghost use Rattle.std.specs.Prelude.{◌≡◌, ◌+◌, Bool, IfOk, IsTrue, OnOk, filter, map, option_map};
ghost use Rattle.mib_model.specs.declared.rows.VpdRow.{VpdRow};
ghost use Rattle.mib_model.specs.Orders.{sorted_by_number};
ghost use Rattle.mib_model.specs.Structures.{structure};
ghost use Rattle.mib_model.specs.Touched.{same_slice};
ghost use Rattle.numbered_plans.specs.Structures.{same_structure};
ghost use Rattle.struct_plan.specs.Slices.{structure_found};

use crate::sources::Sources;
use mib_model::{Steps, TypeItem, VpdRow};
use mib_tables::Book;
use row_groups::RowGroups;
use row_keys::ByTpsd;
use row_sameness::all_same;
use std::alloc::{AllocError, Global};
use std::marker::Model;
use std::sync::ledger::Ledger;
use struct_plan::Structure;
use type_items::{TypeItems, same_items};

/// What one structure is compiled of.
#[derive(Drop)]
pub struct StructureParts {
    rows: Vec<VpdRow>,
    items: Vec<TypeItem>,
}

impl Model for StructureParts {
    ghost use Rattle.struct_plan.specs.Slices.{StructureRows};

    ghost Value = { StructureRows };

    ghost view = { λ parts. record { vpds = parts.rows.items; types = parts.items.items } };
}

/// The rows of a book's structures by POS, and the type items of its parameters. Contracts see the book's database.
pub struct StructureSources<'a> {
    rows: RowGroups<ByTpsd>,
    items: TypeItems<'a>,
    book: &'a Book,
}

/// By hand, so that whoever lets one go proves one call.
impl Drop for StructureSources<'_> {
    fn drop(self) {
        let StructureSources {
            rows: _rows,
            items: _items,
            book: _,
        } = self;
    }
}

impl<'a> Model for StructureSources<'a> {
    ghost use Rattle.std.specs.Prelude.{◌≡◌, ℤ, pos, Some, filter};
    ghost use Rattle.std.specs.Option.{option_eq};
    ghost use Rattle.std.specs.Ordering.{int_eq};
    ghost use Rattle.mib_model.specs.declared.database.Database.{Database};
    ghost use Rattle.mib_model.specs.Structures.{structure};

    ghost Value = { Database };

    ghost view = { λ sources. sources.book.now };

    ghost invariant = { λ sources. ((tpsd : ℤ) → filter (λ row. option_eq int_eq (Some (pos row.tpsd)) (Some tpsd)) sources.rows
        ≡ structure sources.book.now tpsd)
        × (sources.items ≡ sources.book.now.pcf) };
}

// Rows by POS, those of one POS in the order of the file: of the rows that pass any test, too.
fn by_pos(alloc: Global, rows: &[VpdRow]) -> Result<Vec<VpdRow>, AllocError>
    ensures { IfOk result (λ sorted. (test : VpdRow → Bool) → filter test sorted.items ≡ sorted_by_number (λ row. row.pos) (filter test rows.now)) }
{
    let mut sorted = Vec::from_slice(alloc, rows)?;
    sorted.sort_by_key(|row| row.pos)?;
    Ok(sorted)
}

impl<'a> StructureSources<'a> {
    /// Those of a book. An error is want of memory.
    pub fn new(alloc: Global, book: &'a Book) -> Result<StructureSources<'a>, AllocError>
        ensures { IfOk result (λ sources. sources ≡ book.now) }
    {
        let sorted = by_pos(alloc, book.vpd())?;
        Ok(StructureSources {
            rows: RowGroups::new(alloc, &sorted)?,
            items: TypeItems::new(alloc, book.pcf())?,
            book,
        })
    }

    // The rows of a structure by POS; none where there is no such structure.
    fn of(&self, tpsd: i128) -> &[VpdRow]
        ensures { result.now ≡ structure self.now tpsd }
    {
        self.rows.of(&tpsd)
    }
}

impl<'a> Sources for StructureSources<'a> {
    ghost use Rattle.struct_plan.specs.Slices.{structure_found};
    ghost use Rattle.numbered_plans.specs.Laws.{structures-covered};
    ghost use Rattle.numbered_plans.specs.Structures.{same_structure, tpsds};

    type Rows = StructureParts;

    type Plan = Structure;

    ghost rows_of = { λ rows. rows };

    ghost rows_at = { structure_found };

    ghost numbers = { λ sources. tpsds sources.vpd };

    ghost same = { same_structure };

    ghost covers = { structures-covered };

    fn numbers(&self, alloc: Global) -> Result<Vec<u32>, AllocError> {
        self.book.vpd().iter().map(|row| row.tpsd).collect(alloc)
    }

    fn rows(&self, alloc: Global, number: i128) -> Result<Option<StructureParts>, AllocError> {
        let rows = self.of(number);
        if rows.is_empty() {
            return Ok(None);
        }
        Ok(Some(StructureParts {
            items: self.items.of_rows(alloc, rows)?,
            rows: Vec::from_slice(alloc, rows)?,
        }))
    }

    #[tactic(auto, unfolding(mib_model::specs::Touched::same_slice))]
    fn are_same(old: &StructureParts, new: &StructureParts) -> bool
        ensures test { result ≡ same_structure old.now new.now }
        ensures equal { IsTrue result → old.now ≡ new.now }
    {
        all_same(&old.rows, &new.rows) && same_items(&old.items, &new.items)
    }

    fn compile<L: Ledger>(
        alloc: Global,
        rows: &StructureParts,
        steps: &mut Steps<L>,
    ) -> Result<Structure, AllocError>
        ensures plan { IfOk result (λ plan. plan ≡ rows.now) }
        ensures step { OnOk result (steps.new ≡ steps.old + 1) }
    {
        Structure::compile(alloc, &rows.rows, &rows.items, steps)
    }
}
