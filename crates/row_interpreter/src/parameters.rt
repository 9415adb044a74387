ghost use Rattle.std.specs.Prelude.{◌≡◌, ◌&&◌, ℤ, not, pos, option_map, IfOk, Some};
ghost use Rattle.std.specs.List.{find};
ghost use Rattle.std.specs.Option.{option_copied, option_eq};
ghost use Rattle.std.specs.Ordering.{int_eq};
ghost use Rattle.mib_model.specs.Parameters as Spec;
ghost use Rattle.mib_model.specs.Structures.{is_deduced};

use crate::keys::ByPid;
use bit_field::shape_of;
use first_rows::FirstRows;
use mib_model::{Endian, Name, PcfRow, Shape};
use row_keys::ByName;
use std::alloc::{AllocError, Global};
use std::marker::Model;

/// The parameters, by their names and by the numbers that deduced ones name. Contracts see the table.
pub struct ParameterRows {
    named: FirstRows<ByName<PcfRow>>,
    numbered: FirstRows<ByPid>,
}

/// By hand, so that whoever lets one go proves one call.
impl Drop for ParameterRows {
    fn drop(self) {
        let ParameterRows {
            named: _named,
            numbered: _numbered,
        } = self;
    }
}

impl Model for ParameterRows {
    ghost use Rattle.std.specs.Prelude.{◌≡◌, List};
    ghost use Rattle.mib_model.specs.declared.rows.PcfRow.{PcfRow};

    ghost Value = { List PcfRow };

    ghost view = { λ rows. rows.named };

    ghost invariant = { λ rows. rows.numbered ≡ rows.named };
}

// The order of octets that a letter asks for: `L` is Little.
fn endian_of(letter: u8) -> Endian
    ensures { result ≡ Spec.endian_of letter }
{
    if letter == b'L' { Endian::L } else { Endian::B }
}

/// What the bits of a parameter's values are, if its type is known.
pub fn shape_for(row: &PcfRow) -> Option<Shape>
    ensures { result ≡ Spec.parameter_encoding row.now }
{
    shape_of(row.ptc, row.pfc, endian_of(row.endian))
}

// What the bits of a measured parameter's values are; of another parameter there are none.
fn measured_shape(row: Option<&PcfRow>) -> Option<Shape>
    ensures { result ≡ Spec.measured_encoding (option_copied row.entry) }
{
    let row = row?;
    if !row.is_measured() {
        return None;
    }
    shape_for(row)
}

impl ParameterRows {
    /// The rows of pcf. An error is want of memory.
    pub fn new(alloc: Global, pcf: &[PcfRow]) -> Result<ParameterRows, AllocError>
        ensures { IfOk result (λ rows. rows ≡ pcf.now) }
    {
        Ok(ParameterRows {
            named: FirstRows::new(alloc, pcf)?,
            numbered: FirstRows::new(alloc, pcf)?,
        })
    }

    /// The first parameter of a name.
    pub fn parameter(&self, name: &Name) -> Option<&PcfRow>
        ensures { option_copied result ≡ Spec.parameter self.now name.now }
    {
        self.named.find(name)
    }

    /// What the bits of the values of a measured parameter of this name are, if there is one.
    pub fn measured(&self, name: &Name) -> Option<Shape>
        ensures { result ≡ Spec.measured_encoding (Spec.parameter self.now name.now) }
    {
        measured_shape(self.parameter(name))
    }

    /// The first measured parameter of a number, deduced ones left out.
    pub fn deduced(&self, number: i128) -> Option<&PcfRow>
        ensures { option_copied result ≡ find (λ row. Spec.is_measured row && not (is_deduced row)
            && option_eq int_eq (option_map pos row.pid) (Some number)) self.now }
    {
        self.numbered.find(&number)
    }
}
