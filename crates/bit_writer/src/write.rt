ghost use Rattle.std.specs.Prelude.{◌≡◌};
ghost use Rattle.bit_writer.specs.Writes.{octets_to};

use mib_model::Order;

/// A number that is written into a field: from a bit on, the first octet's most significant being 0, so many bits, in an
/// order of octets. Of a number that is too great for its field the last bits are written.
#[derive(Clone, Copy)]
pub struct Write {
    pub order: Order,
    pub at: u64,
    pub width: u16,
    pub number: u64,
}

impl Write {
    /// The octets up to its last.
    pub fn octets_to(&self) -> u64
        ensures { result ≡ octets_to self.now }
    {
        self.at / 8 + (self.at % 8 + u64::from(self.width) + 7) / 8
    }
}
