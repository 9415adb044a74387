ghost use Rattle.std.specs.Prelude.{◌≡◌, ◌<◌, ◌≤◌, ◌^◌, ◌++◌, ◌∷◌, [], length, take, IfOk, OnOk};
ghost use Rattle.std.specs.Option.{option_copied};
ghost use Rattle.mib_model.specs.Soundness.{IsSound};
ghost use Rattle.build_laws.specs.Laws.{GivesBack};
ghost use Rattle.build_rules.specs.Building as Spec;
ghost use Rattle.build_rules.specs.Building.{built, octets_most};
ghost use Rattle.tm_build.specs.Builds.{Builds, built_row};

use crate::laying::lay_items;
use crate::tables::PacketTables;
use crate::writes::{big, put_writes};
use bit_field::{MOST_VALUES, shape_of};
use bit_writer::{Write, octets_for, write_all};
use build_rules::{BuildFault, Item};
use mib_model::{DiscriminantWidth, Endian, IDLE_APID, Name, PicRow, PidRow, Shape, Value};
use mib_tables::Book;
use std::alloc::{AllocError, Global};
use std::marker::Model;

/// The most octets of a packet (CCSDS 133.0-B, packet data length).
pub const OCTETS_MOST: u64 = 65_542;

// Whether a value has no room in a discriminant at an octet offset.
fn lacks_room(offset: i32, width: DiscriminantWidth, value: u64) -> bool
    ensures { result ≡ Spec.lacks_room offset width value }
{
    if offset < 0 {
        value != 0
    } else {
        u128::from(value) >= 1 << width.bits()
    }
}

// The first discriminant that lacks room for the row's value.
fn lacking(row: &PidRow, criterion: Option<&PicRow>) -> Option<u8>
    ensures { result ≡ Spec.lacking row.now (option_copied criterion.entry) }
{
    let (first, second) = match criterion {
        Some(pic) => (
            lacks_room(pic.pi1_off, pic.pi1_wid, row.pi1_val),
            lacks_room(pic.pi2_off, pic.pi2_wid, row.pi2_val),
        ),
        None => (row.pi1_val != 0, row.pi2_val != 0),
    };
    if first {
        Some(1)
    } else if second {
        Some(2)
    } else {
        None
    }
}

// Adds the length of a packet of so many octets.
fn add_length(writes: &mut Vec<Write>, octets: u64) -> Result<(), AllocError>
    requires { 7 ≤ octets }
    ensures { OnOk result (writes.new.items ≡ writes.old.items ++ Spec.length_write octets ∷ []) }
{
    writes.push(big(32, 16, octets - 7))?;
    Ok(())
}

// The packet of a row that writes leave with its length, at the front of octets: how many there are.
fn pack(
    row: &PidRow,
    writes: &mut Vec<Write>,
    room: &mut [u8],
    into: &mut [u8],
) -> Result<u32, BuildFault>
    requires room { length room.old ≡ octets_most }
    requires into { length into.old ≡ octets_most }
    ensures built { Builds result (Spec.with_length writes.old.items (Spec.packet_size row.now writes.old.items)) into.new }
    ensures few { IfOk result (λ octets. octets ≤ octets_most) }
{
    let least = (6 + u64::from(row.dfhsize)).max(9);
    let octets = octets_for(least, writes);
    if octets > OCTETS_MOST {
        return Err(BuildFault::Long);
    }
    let Ok(()) = add_length(writes, octets) else {
        return Err(BuildFault::Memory);
    };
    let size = octets as usize;
    match write_all(writes, &mut into[..size], &mut room[..size]) {
        Some(bit) => Err(BuildFault::Clash { bit }),
        None => Ok(octets as u32),
    }
}

// The shape of one bit.
#[tactic(auto, unfolding(mib_model::specs::Encodings::encoding_of, mib_model::specs::Encodings::type_of))]
fn bit() -> Shape {
    match shape_of(1, 0, Endian::B) {
        Some(shape) => shape,
        None => unreachable!(),
    }
}

// A name of one octet.
fn name() -> Name {
    match Name::new(b"-") {
        Some(name) => name,
        None => unreachable!(),
    }
}

// What stands in a slot that isn't in use.
fn unused() -> Value {
    Value {
        name: name(),
        at: 0,
        raw: 0,
        shape: bit(),
    }
}

// The types of a row in memory are octets.
fn types_are_octets(row: PidRow)
    ensures { (row.service < 2 ^ 8) × (row.subtype < 2 ^ 8) }
{
    let _types = (row.service, row.subtype);
}

/// Builds packets of a sound database, one after the other. Contracts see the database.
pub struct Builder<'a> {
    tables: PacketTables<'a>,
    slots: Vec<Value>,
    writes: Vec<Write>,
    room: Vec<u8>,
}

/// By hand, so that whoever lets one go proves one call.
impl Drop for Builder<'_> {
    fn drop(self) {
        let Builder {
            tables: _tables,
            slots: _slots,
            writes: _writes,
            room: _room,
        } = self;
    }
}

impl<'a> Model for Builder<'a> {
    ghost use Rattle.std.specs.Prelude.{◌≡◌, length};
    ghost use Rattle.mib_model.specs.declared.database.Database.{Database};
    ghost use Rattle.mib_model.specs.Fixed.{most_values};
    ghost use Rattle.build_rules.specs.Building.{octets_most};

    ghost Value = { Database };

    ghost view = { λ builder. builder.tables };

    ghost invariant = { λ builder. (length builder.slots.items ≡ most_values) × (length builder.room.items ≡ octets_most) };
}

impl<'a> Builder<'a> {
    /// One of a book. An error is want of memory.
    pub fn new(alloc: Global, book: &'a Book) -> Result<Builder<'a>, AllocError>
        requires { IsSound book.now }
        ensures { IfOk result (λ builder. builder ≡ book.now) }
    {
        Ok(Builder {
            tables: PacketTables::new(alloc, book)?,
            slots: vec![in alloc; unused(); MOST_VALUES as usize]?,
            writes: Vec::new(alloc),
            room: vec![in alloc; 0; OCTETS_MOST as usize]?,
        })
    }

    // The packet of a row with items.
    fn build_row(
        &mut self,
        row: &PidRow,
        criterion: Option<&PicRow>,
        count: u16,
        items: &[Item],
        into: &mut [u8],
    ) -> Result<u32, BuildFault>
        requires count { count < 2 ^ 14 }
        requires apid { row.now.apid < 2 ^ 11 }
        requires types { (row.now.service < 2 ^ 8) × (row.now.subtype < 2 ^ 8) }
        requires room { length into.old ≡ octets_most }
        ensures built { Builds result (built_row self.old row.now (option_copied criterion.entry) count items.now) into.new }
        ensures few { IfOk result (λ octets. octets ≤ octets_most) }
        ensures kept { self.new ≡ self.old }
    {
        let used = match lay_items(&self.tables, row, items, &mut self.slots) {
            Ok(used) => used,
            Err(fault) => return Err(fault),
        };
        let laid = &self.slots[..used as usize];
        match put_writes(&mut self.writes, row, criterion, count, laid) {
            Ok(()) => pack(row, &mut self.writes, &mut self.room, into),
            Err(AllocError) => Err(BuildFault::Memory),
        }
    }

    /// Builds the packet of a SPID with a sequence count and items at the front of octets, and tells how many there are; else it
    /// tells the first fault. By its identification the packet is of this SPID, and its layout or structure ends whole with the
    /// items. Any call may tell `Memory`.
    pub fn build(
        &mut self,
        spid: u32,
        count: u16,
        items: &[Item],
        into: &mut [u8],
    ) -> Result<u32, BuildFault>
        requires count { count < 2 ^ 14 }
        requires room { length into.old ≡ octets_most }
        ensures built { Builds result (built self.old spid count items.now) into.new }
        ensures gives_back { IfOk result (λ octets. GivesBack self.old spid items.now (take octets into.new)) }
        ensures few { IfOk result (λ octets. octets ≤ octets_most) }
        ensures kept { self.new ≡ self.old }
    {
        let Some(row) = self.tables.packet(spid).copied() else {
            return Err(BuildFault::NoSpid);
        };
        if row.apid >= IDLE_APID {
            return Err(BuildFault::Apid { apid: row.apid });
        }
        let criterion = self.tables.criterion(&row).copied();
        if let Some(which) = lacking(&row, criterion.as_ref()) {
            return Err(BuildFault::Discriminant { which });
        }
        types_are_octets(row);
        self.build_row(&row, criterion.as_ref(), count, items, into)
    }
}

/// Builds the packet of a SPID with a sequence count and items by a sound book, as `Builder::build` does.
pub fn build(
    alloc: Global,
    book: &Book,
    spid: u32,
    count: u16,
    items: &[Item],
    into: &mut [u8],
) -> Result<u32, BuildFault>
    requires sound { IsSound book.now }
    requires count { count < 2 ^ 14 }
    requires room { length into.old ≡ octets_most }
    ensures built { Builds result (built book.now spid count items.now) into.new }
    ensures gives_back { IfOk result (λ octets. GivesBack book.now spid items.now (take octets into.new)) }
    ensures few { IfOk result (λ octets. octets ≤ octets_most) }
{
    match Builder::new(alloc, book) {
        Ok(mut builder) => builder.build(spid, count, items, into),
        Err(AllocError) => Err(BuildFault::Memory),
    }
}
