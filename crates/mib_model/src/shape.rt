ghost use Rattle.std.specs.Prelude.{◌≡◌};
ghost use Rattle.mib_model.specs.Encodings.{IsEncoding};

use std::marker::Model;

/// What the bits of a value are (after the parameter types of ECSS-E-70-41A).
#[derive(Clone, Copy, Debug, PartialEq, Eq)]
pub enum Sort {
    Unsigned,
    Signed,
    Real,
    Octets,
    Chars,
    /// Days, milliseconds and, with 64 bits, microseconds.
    Cds,
    /// Coarse and fine time, by their numbers of octets.
    Cuc { coarse: u8, fine: u8 },
    /// The type of another parameter, which the packet names.
    Deduced,
}

/// The order of a value's octets.
#[derive(Clone, Copy, Debug, PartialEq, Eq)]
pub enum Order {
    /// The most significant first.
    Big,
    /// The least significant first.
    Little,
}

/// The order that a parameter's row asks for.
#[derive(Clone, Copy, Debug, PartialEq, Eq)]
pub enum Endian {
    B,
    L,
}

/// What the bits of a parameter's values are: a sort, a width in bits and an order of octets, as the table of
/// types has them (`encoding_of`). The width lies first, so that a value with its shape has 64 octets. Contracts see the three
/// as an `Encoding`.
#[derive(Clone, Copy)]
pub struct Shape {
    width: u16,
    sort: Sort,
    order: Order,
}

impl Model for Shape {
    ghost use Rattle.std.specs.Prelude.{◌≡◌};
    ghost use Rattle.mib_model.specs.Encodings.{Encoding, IsEncoding};

    ghost Value = { Encoding };

    ghost view = { λ s. record { sort = s.sort; width = s.width; order = s.order } };

    ghost invariant = { λ s. IsEncoding (record { sort = s.sort; width = s.width; order = s.order }) };

    ghost inverse = { λ e. record { sort = e.sort; width = e.width; order = e.order } };
}

impl Shape {
    /// The shape of these parts, which must be one of the table of types.
    pub fn new(sort: Sort, width: u16, order: Order) -> Shape
        requires { IsEncoding (record { sort = sort; width = width; order = order }) }
        ensures { result ≡ record { sort = sort; width = width; order = order } }
    {
        Shape { sort, width, order }
    }

    /// What its bits are.
    pub fn sort(self) -> Sort
        ensures { result ≡ self.sort }
    {
        self.sort
    }

    /// Its width in bits: 1 to 8,192, and 0 for the sort `Deduced`.
    pub fn width(self) -> u16
        ensures value { result ≡ self.width }
        ensures encoding { IsEncoding self }
    {
        self.width
    }

    /// The order of its octets.
    pub fn order(self) -> Order
        ensures { result ≡ self.order }
    {
        self.order
    }
}
