// Where a walk has its values from.
ghost use Rattle.std.specs.Prelude.{◌≡◌, ◌<◌, ◌^◌, length};
ghost use Rattle.struct_plan.specs.Sources.{Source, of_packet};

use crate::entry::ValueField;
use bit_field::take;
use mib_model::{Ended, Value};

/// Why a walk over the rows of structures ends.
#[derive(Clone, Copy)]
pub enum WalkEnd {
    /// As the values of a packet end.
    Ended(Ended),
    /// There is no number for the next value.
    Missing,
    /// The number for the next value isn't one of its field.
    Unfit,
}

/// Where a walk has its values from.
pub trait Numbers {
    ghost source: { Self → Source };

    /// The value of a field at a cursor, a bit of the packet, behind so many others: what the source has, or why it has none.
    fn value(&self, cursor: i128, field: &ValueField, given: u32) -> Result<Value, WalkEnd>
        ensures { result ≡ source self.now cursor field.now given };
}

/// The values of a packet. Contracts see its octets.
#[derive(Drop)]
pub struct PacketNumbers<'a> {
    octets: &'a [u8],
    ghost few: { length octets.now < 2 ^ 61 },
}

impl<'a> PacketNumbers<'a> {
    /// Those of these octets.
    pub fn new(octets: &'a [u8]) -> PacketNumbers<'a>
        requires { length octets.now < 2 ^ 61 }
        ensures { result.octets.now ≡ octets.now }
    {
        PacketNumbers { octets }
    }
}

impl Numbers for PacketNumbers<'_> {
    ghost source = { λ numbers. of_packet numbers.octets.now };

    #[inline(always)]
    fn value(&self, cursor: i128, field: &ValueField, _given: u32) -> Result<Value, WalkEnd> {
        let short = WalkEnd::Ended(Ended::Short { name: field.name });
        if cursor < 0 || cursor > i128::from(u64::MAX) {
            return Err(short);
        }
        take(self.octets, cursor as u64, field.name, field.shape).ok_or(short)
    }
}
