ghost use Rattle.std.specs.Prelude.{◌≡◌, ◌≤◌, ◌==◌, [], length, map, option_and_then, IfOk};
ghost use Rattle.std.specs.List.{All, find};
ghost use Rattle.std.specs.Option.{option_copied};
ghost use Rattle.mib_model.specs.Carry.{check_of};
ghost use Rattle.mib_model.specs.Checks.{checks_of};
ghost use Rattle.mib_model.specs.Curves as Curves;
ghost use Rattle.mib_model.specs.Fixed.{fixed_values, most_values};
ghost use Rattle.mib_model.specs.Headers.{header_of};
ghost use Rattle.mib_model.specs.Interpreter as Interpreter;
ghost use Rattle.mib_model.specs.Match.{match_of};
ghost use Rattle.mib_model.specs.Parameters as Parameters;
ghost use Rattle.mib_model.specs.Soundness.{IsSound};
ghost use Rattle.mib_model.specs.Structures as Structures;
ghost use Rattle.mib_model.specs.Walk.{walk_limit};
ghost use Rattle.row_interpreter.specs.Readings.{IsOf};
ghost use Rattle.row_searches.specs.Nesting.{AreNested};

use mib_model::{
    CurRow, Ended, Found, Header, MOST_VALUES, Name, OcfRow, OcpRow, PcfRow, PlfRow, Text, Value,
    VpdRow,
};
use mib_tables::Book;
use row_groups::RowGroups;
use row_interpreter::{
    CalibrationRows, CheckRows, OrderedRows, PacketRows, ParameterRows, read_places,
};
use row_keys::{BySpid, ByTpsd};
use std::alloc::{AllocError, Global};
use std::marker::Model;

/// The rows of a sound database. Contracts see the database.
pub struct RowSearches {
    packets: PacketRows,
    parameters: ParameterRows,
    // The names of the parameters, in the order of their rows.
    names: Vec<Name>,
    places: RowGroups<BySpid<PlfRow>>,
    structures: OrderedRows<ByTpsd>,
    // How many rows the structures have together.
    structure_rows: u32,
    curves: CalibrationRows,
    checks: CheckRows,
}

/// By hand, so that whoever lets one go proves one call.
impl Drop for RowSearches {
    fn drop(self) {
        let RowSearches {
            packets: _packets,
            parameters: _parameters,
            names: _names,
            places: _places,
            structures: _structures,
            structure_rows: _,
            curves: _curves,
            checks: _checks,
        } = self;
    }
}

impl Model for RowSearches {
    ghost use Rattle.std.specs.Prelude.{◌≡◌, length, map};
    ghost use Rattle.mib_model.specs.declared.database.Database.{Database};
    ghost use Rattle.mib_model.specs.Soundness.{IsSound};
    ghost use Rattle.row_searches.specs.Parts.{database_by};

    ghost Value = { Database };

    ghost view = { λ rows. database_by rows.packets rows.parameters rows.places rows.structures rows.curves rows.checks };

    ghost invariant = { λ rows. (rows.structure_rows ≡ length rows.structures) × (rows.names.items ≡ map (λ row. row.name) rows.parameters)
        × IsSound (database_by rows.packets rows.parameters rows.places rows.structures rows.curves rows.checks) };
}

// The curves of a book.
fn curve_rows(alloc: Global, book: &Book) -> Result<CalibrationRows, AllocError>
    ensures { IfOk result (λ rows. rows ≡ record {
      cur = book.now.cur;
      caf = book.now.caf;
      cap = book.now.cap;
      txf = book.now.txf;
      txp = book.now.txp;
      mcf = book.now.mcf;
      lgf = book.now.lgf;
    }) }
{
    CalibrationRows::new(
        alloc,
        book.cur(),
        book.caf(),
        book.cap(),
        book.txf(),
        book.txp(),
        book.mcf(),
        book.lgf(),
    )
}

// The names of parameters.
fn names_of(alloc: Global, rows: &[PcfRow]) -> Result<Vec<Name>, AllocError>
    ensures { IfOk result (λ names. names.items ≡ map (λ row. row.name) rows.now) }
{
    let mut names = Vec::with_capacity(alloc, rows.len())?;
    for row in rows {
        names.push(row.name)?;
    }
    Ok(names)
}

impl RowSearches {
    /// The rows of a sound book. An error is want of memory.
    pub fn new(alloc: Global, book: &Book) -> Result<RowSearches, AllocError>
        requires { IsSound book.now }
        ensures { IfOk result (λ rows. rows ≡ book.now) }
    {
        Ok(RowSearches {
            packets: PacketRows::new(alloc, book.pid(), book.pic(), book.tpcf())?,
            parameters: ParameterRows::new(alloc, book.pcf())?,
            names: names_of(alloc, book.pcf())?,
            places: RowGroups::new(alloc, book.plf())?,
            structures: OrderedRows::new(alloc, book.vpd())?,
            structure_rows: book.vpd().len() as u32,
            curves: curve_rows(alloc, book)?,
            checks: CheckRows::new(alloc, book.ocf(), book.ocp())?,
        })
    }

    /// What a packet is, whose header this is.
    #[tactic(auto, unfolding(mib_model::specs::Match::match_of))]
    pub fn matched(&self, header: &Header, packet: &[u8]) -> Found
        requires { header.now ≡ header_of packet.now }
        ensures { result ≡ match_of self.now packet.now }
    {
        self.packets.matched(header, packet)
    }

    // The first name of a SPID, where it has one.
    fn title_of(&self, spid: u32) -> Option<&Text>
        ensures { option_copied result ≡ option_and_then (λ row. row.name) (find (λ row. row.spid == spid) self.now.tpcf) }
    {
        match self.packets.title_row(spid) {
            Some(row) => row.name.as_ref(),
            None => None,
        }
    }

    /// The name of a packet that was found, where it has one.
    #[tactic(auto, unfolding(mib_model::specs::Interpreter::title_of))]
    pub fn title(&self, found: &Found) -> Option<&Text>
        ensures { option_copied result ≡ Interpreter.title_of self.now found.now }
    {
        match found {
            Found::Spid { spid, .. } => self.title_of(*spid),
            _ => None,
        }
    }

    /// The first parameter of a name.
    pub fn parameter(&self, name: &Name) -> Option<&PcfRow>
        ensures { option_copied result ≡ Parameters.parameter self.now.pcf name.now }
    {
        self.parameters.parameter(name)
    }

    /// The names of all parameters, in the order of their rows.
    pub fn names(&self) -> &[Name]
        ensures { result.now ≡ map (λ row. row.name) self.now.pcf }
    {
        self.names.as_slice()
    }

    /// The first measured parameter of a number, deduced ones left out.
    #[tactic(auto, unfolding(mib_model::specs::Structures::deduced))]
    pub fn deduced(&self, number: i128) -> Option<&PcfRow>
        ensures { option_copied result ≡ Structures.deduced self.now number }
    {
        self.parameters.deduced(number)
    }

    // The rows of a structure by POS.
    #[tactic(auto, unfolding(mib_model::specs::Structures::structure))]
    fn rows_of(&self, tpsd: i128) -> &[VpdRow]
        ensures { result.now ≡ Structures.structure self.now tpsd }
    {
        self.structures.of(&tpsd)
    }

    // The database is sound.
    fn is_sound(&self)
        ensures { IsSound self.now }
    {
        let _ = &self.packets;
    }

    /// The rows of a structure by POS; none where there is no such structure.
    pub fn structure(&self, tpsd: i128) -> &[VpdRow]
        ensures rows { result.now ≡ Structures.structure self.now tpsd }
        ensures nested { AreNested result.now }
    {
        self.is_sound();
        self.rows_of(tpsd)
    }

    /// The steps within which each walk ends: each row is met at most once before each value and the end.
    pub fn walk_limit(&self) -> u64
        ensures { result ≡ walk_limit self.now }
    {
        (u64::from(MOST_VALUES) + 1) * u64::from(self.structure_rows.max(1))
    }

    /// The check of a parameter.
    pub fn check(&self, name: &Name) -> Option<&OcfRow>
        ensures { option_copied result ≡ check_of self.now name.now }
    {
        self.checks.check(name)
    }

    /// The limits of a parameter, by POS.
    #[tactic(auto, unfolding(mib_model::specs::Checks::checks_of))]
    pub fn limits(&self, name: &Name) -> &[OcpRow]
        ensures { result.now ≡ checks_of self.now name.now }
    {
        self.checks.limits(name)
    }

    /// The selections of a parameter's curves, by POS.
    #[tactic(auto, unfolding(mib_model::specs::Curves::selections))]
    pub fn selections(&self, name: &Name) -> &[CurRow]
        ensures { result.now ≡ Curves.selections self.now name.now }
    {
        self.curves.selections(name)
    }

    /// The rows of curves.
    pub fn curves(&self) -> &CalibrationRows
        ensures { result.now ≡ record {
          cur = self.now.cur;
          caf = self.now.caf;
          cap = self.now.cap;
          txf = self.now.txf;
          txp = self.now.txp;
          mcf = self.now.mcf;
          lgf = self.now.lgf;
        } }
    {
        &self.curves
    }

    /// Reads the values of a packet of fixed layout, and tells how they end. An error is want of memory.
    #[tactic(auto, unfolding(mib_model::specs::Fixed::places))]
    pub fn fixed_values(
        &self,
        spid: u32,
        packet: &[u8],
        values: &mut Vec<Value>,
    ) -> Result<Ended, AllocError>
        requires { values.old.items ≡ [] }
        ensures values { IfOk result (λ ended. (values.new.items, ended) ≡ fixed_values self.now spid packet.now) }
        ensures few { IfOk result (λ _. length values.new.items ≤ most_values) }
        ensures all { IfOk result (λ _. All (IsOf packet.now) values.new.items) }
    {
        read_places(&self.parameters, packet, self.places.of(&spid), values)
    }
}
