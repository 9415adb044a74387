// The rows and type items that layouts are compiled of, found by SPID.
ghost use Rattle.std.specs.Prelude.{◌≡◌, ◌+◌, ◌≤◌, IfOk, IsTrue, OnOk, length, map, option_map};
ghost use Rattle.std.specs.Option.{option_copied, option_eq};
ghost use Rattle.edition_plans.specs.Layouts.{layout_slice};
ghost use Rattle.mib_model.specs.Touched.{same_slice};
ghost use Rattle.numbered_plans.specs.Layouts.{laid_spids, layout_numbered, same_layout};

use crate::sources::Sources;
use crate::ways::ByLaidOut;
use first_rows::FirstRows;
use layout_plan::Layout;
use mib_index::Groups;
use mib_model::{PidRow, PlfRow, Steps, TypeItem};
use mib_tables::Book;
use row_keys::BySpid;
use row_sameness::{all_same, same_row};
use std::alloc::{AllocError, Global};
use std::marker::Model;
use std::sync::ledger::Ledger;
use type_items::{TypeItems, same_items};

/// What one layout is compiled of.
#[derive(Drop)]
pub struct LayoutParts {
    packet: PidRow,
    places: Vec<PlfRow>,
    items: Vec<TypeItem>,
}

impl Model for LayoutParts {
    ghost use Rattle.layout_plan.specs.Slices.{LayoutRows};

    ghost Value = { LayoutRows };

    ghost view = { λ parts. record { pid = parts.packet; plfs = parts.places.items; types = parts.items.items } };
}

/// The packets of a book, the places of its parameters, and their type items. Contracts see the book's database.
pub struct LayoutSources<'a> {
    packets: FirstRows<ByLaidOut>,
    places: Groups<'a, BySpid<PlfRow>>,
    items: TypeItems<'a>,
    book: &'a Book,
}

/// By hand, so that whoever lets one go proves one call.
impl Drop for LayoutSources<'_> {
    fn drop(self) {
        let LayoutSources {
            packets: _packets,
            places: _places,
            items: _items,
            book: _,
        } = self;
    }
}

impl<'a> Model for LayoutSources<'a> {
    ghost use Rattle.std.specs.Prelude.{◌≡◌};
    ghost use Rattle.mib_model.specs.declared.database.Database.{Database};

    ghost Value = { Database };

    ghost view = { λ sources. sources.book.now };

    ghost invariant = { λ sources. (sources.packets ≡ sources.book.now.pid) × (sources.places ≡ sources.book.now.plf)
        × (sources.items ≡ sources.book.now.pcf) };
}

// The SPIDs of packets of fixed layout. An error is want of memory.
fn laid_out(alloc: Global, rows: &[PidRow]) -> Result<Vec<u32>, AllocError>
    ensures all { IfOk result (λ spids. spids.items ≡ laid_spids rows.now) }
    ensures few { IfOk result (λ spids. length spids.items ≤ length rows.now) }
{
    rows.iter()
        .filter(|row| row.has_layout())
        .map(|row| row.spid)
        .collect(alloc)
}

impl<'a> LayoutSources<'a> {
    /// Those of a book. An error is want of memory.
    pub fn new(alloc: Global, book: &'a Book) -> Result<LayoutSources<'a>, AllocError>
        ensures { IfOk result (λ sources. sources ≡ book.now) }
    {
        Ok(LayoutSources {
            packets: FirstRows::new(alloc, book.pid())?,
            places: Groups::mapped(alloc, book.plf())?,
            items: TypeItems::new(alloc, book.pcf())?,
            book,
        })
    }

    // What the layout of a packet is compiled of.
    fn parts(&self, alloc: Global, packet: PidRow) -> Result<LayoutParts, AllocError>
        ensures { IfOk result (λ parts. parts ≡ layout_slice self.now packet) }
    {
        let places = self.places.of(alloc, &packet.spid)?;
        let items = self.items.of_rows(alloc, &places)?;
        Ok(LayoutParts {
            packet,
            places,
            items,
        })
    }
}

impl<'a> Sources for LayoutSources<'a> {
    ghost use Rattle.numbered_plans.specs.Laws.{layouts-covered};
    ghost use Rattle.numbered_plans.specs.Layouts.{laid_spids, layout_numbered, same_layout};

    type Rows = LayoutParts;

    type Plan = Layout;

    ghost rows_of = { λ rows. rows };

    ghost rows_at = { layout_numbered };

    ghost numbers = { λ sources. laid_spids sources.pid };

    ghost same = { same_layout };

    ghost covers = { layouts-covered };

    fn numbers(&self, alloc: Global) -> Result<Vec<u32>, AllocError> {
        laid_out(alloc, self.book.pid())
    }

    fn rows(&self, alloc: Global, number: i128) -> Result<Option<LayoutParts>, AllocError> {
        match self.packets.find(&number) {
            Some(packet) => Ok(Some(self.parts(alloc, *packet)?)),
            None => Ok(None),
        }
    }

    #[tactic(auto, unfolding(mib_model::specs::Touched::same_slice))]
    fn are_same(old: &LayoutParts, new: &LayoutParts) -> bool
        ensures test { result ≡ same_layout old.now new.now }
        ensures equal { IsTrue result → old.now ≡ new.now }
    {
        same_row(&old.packet, &new.packet)
            && all_same(&old.places, &new.places)
            && same_items(&old.items, &new.items)
    }

    fn compile<L: Ledger>(
        alloc: Global,
        rows: &LayoutParts,
        steps: &mut Steps<L>,
    ) -> Result<Layout, AllocError>
        ensures plan { IfOk result (λ plan. plan ≡ rows.now) }
        ensures step { OnOk result (steps.new ≡ steps.old + 1) }
    {
        Layout::compile(alloc, &rows.packet, &rows.places, &rows.items, steps)
    }
}
