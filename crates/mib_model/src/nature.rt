// What a parameter or a packet is by its row.
ghost use Rattle.std.specs.Prelude.{◌≡◌};
ghost use Rattle.mib_model.specs.Fixed.{has_layout};
ghost use Rattle.mib_model.specs.Parameters.{is_measured, is_measured_nature};
ghost use Rattle.mib_model.specs.Structures.{is_deduced};

use crate::plan::TypeItem;
use crate::rows::{PcfRow, PidRow};

fn is_measured_nature(natur: u8) -> bool
    ensures { result ≡ is_measured_nature natur }
{
    natur == b'R'
}

impl PcfRow {
    /// Whether the parameter is measured: nature `R`. One of another nature has no values in packets.
    pub fn is_measured(&self) -> bool
        ensures { result ≡ is_measured self.now }
    {
        is_measured_nature(self.natur)
    }

    /// Whether the parameter stands for the one that the packet's last value names: PTC 11 (ECSS-E-70-41A, deduced
    /// parameters).
    pub fn is_deduced(&self) -> bool
        ensures { result ≡ is_deduced self.now }
    {
        self.ptc == 11
    }
}

impl TypeItem {
    /// Whether it is of a measured parameter.
    pub fn is_measured(&self) -> bool
        ensures { result ≡ is_measured_nature self.now.natur }
    {
        is_measured_nature(self.natur)
    }
}

impl PidRow {
    /// Whether the packet has a fixed layout: it names no structure.
    pub fn has_layout(&self) -> bool
        ensures { result ≡ has_layout self.now }
    {
        self.tpsd < 1
    }
}
