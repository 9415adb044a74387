// Rows of a book, found by its index and by maps that rules alone need.
ghost use Rattle.std.specs.Prelude.{◌≡◌, ◌==◌, Option, is_some, map, pos, position, length, filter, IfOk};
ghost use Rattle.std.specs.Option.{option_copied};
ghost use Rattle.std.specs.List.{find};
ghost use Rattle.std.specs.Str.{bytes_eq};
ghost use Rattle.mib_model.specs.Parameters.{parameter};
ghost use Rattle.mib_model.specs.References.{has_parameter, has_packet, has_points, has_texts, has_polynomial, has_logarithm, has_check};
ghost use Rattle.mib_model.specs.CurveFlaws.{points_in};
ghost use Rattle.packet_keys.specs.Keys.{packet_eq, packet_key};
ghost use Rattle.row_flaws.specs.Structures.{spot_of, spots_in};
ghost use Rattle.mib_model.specs.Structures.{structure};
ghost use Rattle.row_flaws.specs.Indexes.{first_place};
ghost use Rattle.row_flaws.specs.Points.{point_eq, point_in};

use crate::points::{PointKey, point_places};
use crate::structures::{StructureSpots, structures};
use mib_index::{Firsts, Index};
use mib_model::{CafRow, Name, PcfRow, PidRow, TxfRow};
use mib_tables::Book;
use packet_keys::{ByPacket, packet_key};
use row_keys::BySpid;
use std::alloc::{AllocError, Global};
use std::collections::HashMap;
use std::marker::Model;

/// What the rows of a book are looked up by. Contracts see the database.
pub struct Lookups<'a> {
    index: &'a Index<'a>,
    packets: Firsts<'a, BySpid<PidRow>>,
    packet_kinds: Firsts<'a, ByPacket>,
    point_places: HashMap<PointKey, usize>,
    structures: HashMap<u32, StructureSpots>,
}

/// By hand, so that whoever lets one go proves one call.
impl Drop for Lookups<'_> {
    fn drop(self) {
        let Lookups {
            index: _,
            packets: _packets,
            packet_kinds: _packet_kinds,
            point_places: _point_places,
            structures: _structures,
        } = self;
    }
}

impl<'a> Model for Lookups<'a> {
    ghost use Rattle.mib_model.specs.declared.database.Database.{Database};

    ghost Value = { Database };

    ghost use Rattle.row_flaws.specs.Known.{Known};

    ghost view = { λ lookups. lookups.index.now };

    ghost invariant = { Known };
}

impl<'a> Lookups<'a> {
    /// The rows of an index, with the maps that rules alone need.
    pub fn new(alloc: Global, index: &'a Index<'a>) -> Result<Lookups<'a>, AllocError>
        ensures { IfOk result (λ lookups. lookups ≡ index.now) }
    {
        let book = index.book();
        Ok(Lookups {
            index,
            packets: Firsts::mapped(alloc, book.pid())?,
            packet_kinds: Firsts::mapped(alloc, book.pid())?,
            point_places: point_places(alloc, index)?,
            structures: structures(alloc, book.vpd())?,
        })
    }

    /// The book.
    pub fn book(&self) -> &'a Book
        ensures { result.now ≡ self.now }
    {
        self.index.book()
    }

    /// The first place, from 0, of a packet of the kind of a packet.
    pub fn packet_place(&self, packet: &PidRow) -> Option<usize>
        ensures { result ≡ position (λ row. packet_eq (packet_key row) (packet_key packet.now)) self.now.pid }
    {
        self.packet_kinds.place(&packet_key(packet))
    }

    /// The first parameter of a name.
    pub fn parameter(&self, name: Name) -> Option<&PcfRow>
        ensures row { option_copied result ≡ parameter self.now.pcf name }
        ensures there { is_some result ≡ has_parameter self.now name }
    {
        self.index.parameters().find(&name)
    }

    /// The first curve by points of a name.
    pub fn curve(&self, numbr: Name) -> Option<&CafRow>
        ensures row { option_copied result ≡ find (λ caf. bytes_eq caf.numbr numbr) self.now.caf }
        ensures there { is_some result ≡ has_points self.now numbr }
    {
        self.index.curves().find(&numbr)
    }

    /// The first curve by texts of a name.
    pub fn texts(&self, numbr: Name) -> Option<&TxfRow>
        ensures row { option_copied result ≡ find (λ txf. bytes_eq txf.numbr numbr) self.now.txf }
        ensures there { is_some result ≡ has_texts self.now numbr }
    {
        self.index.texts().find(&numbr)
    }

    /// Whether `pcf` has such a row.
    pub fn has_parameter(&self, name: Name) -> bool
        ensures { result ≡ has_parameter self.now name }
    {
        self.parameter(name).is_some()
    }

    /// Whether `pid` has such a row.
    pub fn has_packet(&self, spid: u32) -> bool
        ensures { result ≡ has_packet self.now spid }
    {
        self.packets.find(&spid).is_some()
    }

    /// Whether `caf` has such a row.
    pub fn has_points(&self, numbr: Name) -> bool
        ensures { result ≡ has_points self.now numbr }
    {
        self.curve(numbr).is_some()
    }

    /// Whether `txf` has such a row.
    pub fn has_texts(&self, numbr: Name) -> bool
        ensures { result ≡ has_texts self.now numbr }
    {
        self.texts(numbr).is_some()
    }

    /// Whether `mcf` has such a row.
    pub fn has_polynomial(&self, ident: Name) -> bool
        ensures { result ≡ has_polynomial self.now ident }
    {
        self.index.polynomials().find(&ident).is_some()
    }

    /// Whether `lgf` has such a row.
    pub fn has_logarithm(&self, ident: Name) -> bool
        ensures { result ≡ has_logarithm self.now ident }
    {
        self.index.logarithms().find(&ident).is_some()
    }

    /// Whether `ocf` has such a row.
    pub fn has_check(&self, name: Name) -> bool
        ensures { result ≡ has_check self.now name }
    {
        self.index.checks().find(&name).is_some()
    }

    /// How many rows a structure has.
    pub fn structure_rows(&self, tpsd: u32) -> usize
        ensures { result ≡ length (filter (λ row. row.tpsd == tpsd) self.now.vpd) }
    {
        self.index.structure_rows().count(&tpsd)
    }

    /// How many points a curve has.
    pub fn points(&self, numbr: Name) -> usize
        ensures { result ≡ length (points_in self.now numbr) }
    {
        self.index.points().count(&numbr)
    }

    /// How many curves are selected for a parameter.
    pub fn selections(&self, pname: Name) -> usize
        ensures { result ≡ length (filter (λ cur. bytes_eq cur.pname pname) self.now.cur) }
    {
        self.index.selections().count(&pname)
    }

    /// The first place of a point.
    pub fn point_place(&self, key: PointKey) -> Option<usize>
        ensures { result ≡ first_place point_eq (point_in self.now.caf) self.now.cap key }
    {
        self.point_places.get(&key).copied()
    }

    /// The rows of a structure by POS, if it has some.
    pub fn structure(&self, tpsd: u32) -> Option<&StructureSpots>
        ensures { spots_in (option_copied result) ≡ map spot_of (structure self.now (pos tpsd)) }
    {
        self.structures.get(&tpsd)
    }
}
