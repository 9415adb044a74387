ghost use Rattle.std.specs.Prelude.{◌≡◌, vec_len};
ghost use Rattle.mib_model.specs.Fixed.{most_values};

use crate::half::Half;
use bit_field::{MOST_VALUES, shape_of};
use mib_model::{Ended, Endian, Found, Header, Name, Shape, Value};
use std::alloc::{AllocError, Global};

/// What a packet is and its values, in room for 8,192 that is reserved once. It says nothing before a packet is decoded.
#[derive(Drop)]
pub struct PacketValues {
    pub(crate) half: Half,
    pub(crate) slots: Vec<Value>,
    ghost full: { vec_len slots ≡ most_values },
}

// The shape of one bit.
#[tactic(auto, unfolding(mib_model::specs::Encodings::encoding_of, mib_model::specs::Encodings::type_of))]
fn bit() -> Shape {
    match shape_of(1, 0, Endian::B) {
        Some(shape) => shape,
        None => unreachable!(),
    }
}

// A name of one octet.
fn name() -> Name {
    match Name::new(b"-") {
        Some(name) => name,
        None => unreachable!(),
    }
}

// What stands in a slot that isn't in use.
fn unused() -> Value {
    Value {
        name: name(),
        at: 0,
        raw: 0,
        shape: bit(),
    }
}

// What stands before a packet is decoded.
fn unheard() -> Half {
    Half {
        header: Header::read(&[0; 6]),
        found: Found::Idle,
        ended: Ended::Whole,
        used: 0,
    }
}

impl PacketValues {
    /// Room for the values of a packet. An error is want of memory.
    pub fn new(alloc: Global) -> Result<PacketValues, AllocError> {
        Ok(PacketValues {
            half: unheard(),
            slots: Vec::from_elem(alloc, unused(), MOST_VALUES as usize)?,
        })
    }
}
