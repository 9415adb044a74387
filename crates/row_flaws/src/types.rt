//! The types of parameters.
ghost use Rattle.std.specs.Prelude.{◌≡◌};
ghost use Rattle.mib_model.specs.Parameters.{endian_of, parameter_encoding};

use bit_field::shape_of;
use mib_model::{Endian, PcfRow, Shape};

// The octet order that a letter asks for.
fn endian(letter: u8) -> Endian
    ensures { result ≡ endian_of letter }
{
    if letter == b'L' { Endian::L } else { Endian::B }
}

/// What the bits of a parameter's values are, if its type is known.
pub fn encoding(row: &PcfRow) -> Option<Shape>
    ensures { result ≡ parameter_encoding row.now }
{
    shape_of(row.ptc, row.pfc, endian(row.endian))
}
