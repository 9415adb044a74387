ghost use Rattle.std.specs.Prelude.{◌≡◌, ◌==◌, IfOk, filter};
ghost use Rattle.std.specs.List.{find};
ghost use Rattle.std.specs.Option.{option_copied};
ghost use Rattle.mib_model.specs.Match.{is_criterion};
ghost use Rattle.mib_model.specs.Soundness.{IsSound};
ghost use Rattle.build_rules.specs.Building.{criterion_of};

use first_rows::FirstRows;
use mib_model::{PcfRow, PicRow, PidRow, PlfRow, Steps};
use mib_tables::{Book, TableSet};
use numbered_plans::{Deduced, StructureSet};
use row_groups::RowGroups;
use row_keys::{ByName, BySpid};
use std::alloc::{AllocError, Global};
use std::marker::{Brand, Model};
use std::sync::ledger::{Blank, Ledger};
use struct_plan::{Structure, Structures, TypeItem};

/// The tables of a sound database by which packets are built, each row found by its key. Contracts see the database.
pub struct PacketTables<'a> {
    pids: FirstRows<BySpid<PidRow>>,
    pics: &'a [PicRow],
    plfs: RowGroups<BySpid<PlfRow>>,
    parameters: FirstRows<ByName<PcfRow>>,
    structures: StructureSet,
    deduced: Deduced,
}

/// By hand, so that whoever lets one go proves one call.
impl Drop for PacketTables<'_> {
    fn drop(self) {
        let PacketTables {
            pids: _pids,
            pics: _,
            plfs: _plfs,
            parameters: _parameters,
            structures: _structures,
            deduced: _deduced,
        } = self;
    }
}

impl<'a> Model for PacketTables<'a> {
    ghost use Rattle.std.specs.Prelude.{◌≡◌};
    ghost use Rattle.mib_model.specs.declared.database.Database.{Database};
    ghost use Rattle.mib_model.specs.Soundness.{IsSound};

    ghost Value = { Database };

    ghost view = { λ tables. tables.structures };

    ghost invariant = { λ tables. IsSound tables.structures × (tables.pids ≡ tables.structures.pid) × (tables.pics.now ≡ tables.structures.pic)
        × (tables.plfs ≡ tables.structures.plf) × (tables.parameters ≡ tables.structures.pcf)
        × (tables.deduced ≡ tables.structures.pcf) };
}

// The structures of a book, on a ledger of their own.
fn compile<L: Ledger>(alloc: Global, book: &Book, blank: Blank) -> Result<StructureSet, AllocError>
    requires name { blank.name ≡ L.name }
    requires parts { blank.parts ≡ L.parts }
    requires one { blank.parts ≡ 1 }
    ensures { IfOk result (λ set. set ≡ book.now) }
{
    let none = StructureSet::empty(alloc)?;
    let made = StructureSet::beside(
        alloc,
        &none,
        &Book::empty(alloc),
        TableSet::NONE,
        book,
        &mut Steps::<L>::new(blank),
    )?;
    Ok(made.set)
}

// The structures of a book.
fn structures_of(alloc: Global, book: &Book) -> Result<StructureSet, AllocError>
    ensures { IfOk result (λ set. set ≡ book.now) }
{
    compile::<Brand>(alloc, book, Blank::new(1))
}

// The first criterion of these types for an APID, or for none.
fn first_criterion(pics: &[PicRow], service: u8, subtype: u8, apid: Option<u16>) -> Option<&PicRow>
    ensures { option_copied result ≡ find (is_criterion service subtype apid) pics.now }
{
    pics.iter().find(|row| row.service == service && row.subtype == subtype && row.apid == apid)
}

impl<'a> PacketTables<'a> {
    /// Those of a book. An error is want of memory.
    pub fn new(alloc: Global, book: &'a Book) -> Result<PacketTables<'a>, AllocError>
        requires { IsSound book.now }
        ensures { IfOk result (λ tables. tables ≡ book.now) }
    {
        Ok(PacketTables {
            pids: FirstRows::with_numbers(alloc, book.pid())?,
            pics: book.pic(),
            plfs: RowGroups::new(alloc, book.plf())?,
            parameters: FirstRows::with_numbers(alloc, book.pcf())?,
            structures: structures_of(alloc, book)?,
            deduced: Deduced::new(alloc, book.pcf())?,
        })
    }

    /// The first row of pid with a SPID.
    pub fn packet(&self, spid: u32) -> Option<&PidRow>
        ensures row { option_copied result ≡ find (λ row. row.spid == spid) self.now.pid }
        ensures sound { IsSound self.now }
    {
        self.pids.find(&spid)
    }

    /// The rows of plf of a SPID.
    pub fn places(&self, spid: u32) -> &[PlfRow]
        ensures { result.now ≡ filter (λ row. row.spid == spid) self.now.plf }
    {
        self.plfs.of(&spid)
    }

    /// The parameters by name.
    pub fn parameters(&self) -> &FirstRows<ByName<PcfRow>>
        ensures { result.now ≡ self.now.pcf }
    {
        &self.parameters
    }

    /// The criterion by which packets of a row are told apart: that for its APID, else that for none.
    pub fn criterion(&self, row: &PidRow) -> Option<&PicRow>
        ensures { option_copied result ≡ criterion_of self.now.pic row.now }
    {
        let own = first_criterion(self.pics, row.service, row.subtype, Some(row.apid));
        match own {
            Some(pic) => Some(pic),
            None => first_criterion(self.pics, row.service, row.subtype, None),
        }
    }
}

impl Structures for PacketTables<'_> {
    ghost tables = { λ tables. tables };

    fn structure(&self, tpsd: i128) -> Option<&Structure> {
        self.structures.plan(tpsd)
    }

    fn deduced(&self, pid: i128) -> Option<TypeItem> {
        self.deduced.find(pid)
    }
}
