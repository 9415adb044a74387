ghost use Rattle.std.specs.Prelude.{◌≡◌, ◌≤◌, nat_eq};
ghost use Rattle.std.specs.Cmp.{partial_equiv_from_equiv};
ghost use Rattle.std.proofs.lemmas.Cmp.{nat_eq_equiv};
ghost use Rattle.mib_model.specs.declared.limits.TheConstants.{DISCRIMINANT_BITS};

use std::marker::Model;

/// The width of a discriminant in bits, from 0 to 64 (SCOS-2000 Database Import ICD, pic). Contracts see the number.
#[derive(Clone, Copy)]
pub struct DiscriminantWidth {
    bits: u8,
}

impl Model for DiscriminantWidth {
    ghost use Rattle.std.specs.Prelude.{ℕ, ◌≤◌};
    ghost use Rattle.mib_model.specs.declared.limits.TheConstants.{DISCRIMINANT_BITS};

    ghost Value = { ℕ };

    ghost view = { λ width. width.bits };

    ghost invariant = { λ width. width.bits ≤ DISCRIMINANT_BITS };

    ghost inverse = { λ bits. record { bits = bits } };
}

impl DiscriminantWidth {
    /// A width of so many bits.
    pub fn new(bits: u8) -> DiscriminantWidth
        requires { bits ≤ DISCRIMINANT_BITS }
        ensures { result ≡ bits }
    {
        DiscriminantWidth { bits }
    }

    /// Its number of bits.
    pub fn bits(self) -> u8
        ensures value { result ≡ self }
        ensures most { result ≤ DISCRIMINANT_BITS }
    {
        self.bits
    }
}

impl PartialEq for DiscriminantWidth {
    ghost eq = { nat_eq };

    ghost laws = { partial_equiv_from_equiv nat_eq_equiv };

    fn eq(&self, other: &DiscriminantWidth) -> bool {
        self.bits == other.bits
    }
}

impl Eq for DiscriminantWidth {
    ghost laws = { nat_eq_equiv };
}
