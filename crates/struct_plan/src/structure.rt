ghost use Rattle.std.specs.Prelude.{◌≡◌, ◌+◌, ◌<◌, ◌≤◌, ◌^◌, List, ◌∷◌, drop, length, Option, IfOk, OnOk, OnErr};
ghost use Rattle.mib_model.specs.declared.rows.VpdRow.{VpdRow};
ghost use Rattle.std.specs.Option.{option_copied};
ghost use Rattle.mib_model.specs.declared.database.Database.{Database};
ghost use Rattle.mib_model.specs.Soundness.{IsSound};
ghost use Rattle.struct_plan.specs.Groups as Spec;
ghost use Rattle.struct_plan.specs.Entries.{entry_of};
ghost use Rattle.struct_plan.specs.Slices.{structure_found, deduced_item};

use crate::entry::{StructureRow, entries};
use crate::group::RowGroup;
use first_rows::FirstRows;
use mib_model::{Steps, TypeItem, VpdRow};
use std::alloc::{AllocError, Global};
use std::marker::Model;
use std::snapshot::Snapshot;
use std::sync::ledger::Ledger;

/// The rows of a structure, compiled. Contracts see the rows.
#[derive(Drop)]
pub struct Structure {
    entries: Vec<StructureRow>,
    vpds: Snapshot<Vec<VpdRow>>,
    types: Snapshot<Vec<TypeItem>>,
}

impl Model for Structure {
    ghost use Rattle.std.specs.Prelude.{◌≡◌, ◌<◌, ◌^◌, length, map};
    ghost use Rattle.struct_plan.specs.Entries.{entry_of};
    ghost use Rattle.struct_plan.specs.Slices.{StructureRows};

    ghost Value = { StructureRows };

    ghost view = { λ structure. record { vpds = structure.vpds.value.items; types = structure.types.value.items } };

    ghost invariant = { λ structure.
        (structure.entries.items ≡ map (entry_of structure.types.value.items) structure.vpds.value.items) × (length structure.vpds.value.items < 2 ^ 32) };
}

impl Structure {
    /// Compiles the rows of a structure by POS and the type items of their names, in one step. An error is want of
    /// memory, which more than 2^32 - 1 rows are too, and takes no step.
    pub fn compile<L: Ledger>(
        alloc: Global,
        vpds: &[VpdRow],
        types: &[TypeItem],
        steps: &mut Steps<L>,
    ) -> Result<Structure, AllocError>
        ensures rows { IfOk result (λ structure. structure ≡ record { vpds = vpds.now; types = types.now }) }
        ensures step { OnOk result (steps.new ≡ steps.old + 1) }
        ensures refused { OnErr result (steps.new ≡ steps.old) }
    {
        if u32::try_from(vpds.len()).is_err() {
            return Err(AllocError);
        }
        let rows = Vec::from_slice(alloc, vpds)?;
        let items = Vec::from_slice(alloc, types)?;
        let entries = entries(alloc, &rows, &FirstRows::new(alloc, &items)?)?;
        steps.tick();
        Ok(Structure {
            entries,
            vpds: Snapshot::of(&rows),
            types: Snapshot::of(&items),
        })
    }

    /// How many rows there are.
    pub fn len(&self) -> usize
        ensures { result ≡ length self.now.vpds }
    {
        self.entries.len()
    }

    /// A row.
    pub fn entry(&self, at: usize) -> StructureRow
        requires { at < length self.now.vpds }
        ensures entry { (row : VpdRow) (rows : List VpdRow) → drop at self.now.vpds ≡ row ∷ rows → result ≡ entry_of self.now.types row }
        ensures size { result.size ≡ Spec.size_at self.now.vpds at }
        ensures room { length self.now.vpds < 2 ^ 32 }
    {
        self.entries[at]
    }

    /// The row behind a group.
    pub fn end_of(&self, group: RowGroup) -> usize
        requires { Spec.end_of self.now.vpds group ≤ length self.now.vpds }
        ensures { result ≡ Spec.end_of self.now.vpds group }
    {
        let row = group.row as usize;
        let size = usize::from(self.entry(row).size);
        row + 1 + size
    }
}

/// The structures and parameters of a sound database, compiled.
pub trait Structures {
    ghost tables: { Self → Database };

    /// The plan of a structure: none exactly where there is no such structure. The database is sound.
    fn structure(&self, tpsd: i128) -> Option<&Structure>
        ensures found { option_copied result ≡ structure_found (tables self.now) tpsd }
        ensures sound { IsSound (tables self.now) };

    /// The type item of the first measured parameter, not deduced itself, that has this number: none exactly where there
    /// is none.
    fn deduced(&self, pid: i128) -> Option<TypeItem>
        ensures { result ≡ deduced_item (tables self.now) pid };
}
