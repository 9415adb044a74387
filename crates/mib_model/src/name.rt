ghost use Rattle.std.specs.Prelude.{◌≡◌, ◌≤◌, length, true};
ghost use Rattle.std.specs.Cmp.{partial_equiv_from_equiv};
ghost use Rattle.std.specs.Cmp.Lexicographic.{nat_list_eq_equiv, nat_list_cmp_total, slice_cmp, texts_po, texts_ties};
ghost use Rattle.std.specs.List.{list_all};
ghost use Rattle.std.specs.Ordering.{nat_cmp, as_partial_cmp};
ghost use Rattle.std.specs.Str.{bytes_eq};
ghost use Rattle.std.proofs.Common.{rules};
ghost use Rattle.mib_model.specs.Hashes.{hashed, hashed_alike};
ghost use Rattle.mib_model.specs.Names.{is_name, is_visible, name_of, text_of};
ghost use Rattle.mib_model.specs.OctetsLayout.{padded};
ghost use Rattle.mib_model.specs.declared.limits.TheConstants.{NAME_SIZE, TEXT_SIZE};

use crate::limits::{NAME_SIZE, TEXT_SIZE};
use crate::octets::Octets;
use std::cmp::Ordering;
use std::hash::{Hash, Hasher};
use std::marker::Model;

/// A name of the database: 1 to 32 octets, each from 21 to 7E in hexadecimal. Contracts see its octets.
#[derive(Clone, Copy)]
pub struct Name {
    octets: Octets<NAME_SIZE>,
}

impl Model for Name {
    ghost use Rattle.std.specs.Prelude.{◌≡◌, List, ℕ, true};
    ghost use Rattle.mib_model.specs.Names.{is_name};

    ghost Value = { List ℕ };

    ghost view = { λ n. n.octets };

    ghost invariant = { λ n. is_name n.octets ≡ true };

    ghost inverse = { λ octets. record { octets = octets } };
}

// Whether each octet may stand in a name.
fn all_visible(octets: &[u8]) -> bool
    ensures { result ≡ list_all is_visible octets.now }
{
    octets.iter().all(|octet| 0x21 <= *octet && *octet <= 0x7E)
}

impl Name {
    /// The name that these octets are: `None` where they are none, more than 32, or one of them is a space, a
    /// control or not ASCII.
    pub fn new(octets: &[u8]) -> Option<Name>
        ensures { result ≡ name_of octets.now }
    {
        if octets.is_empty() || octets.len() > NAME_SIZE || !all_visible(octets) {
            return None;
        }
        Some(Name {
            octets: Octets::from_slice(octets),
        })
    }

    /// Its octets.
    pub fn bytes(&self) -> &[u8]
        ensures bytes { result.now ≡ self.now }
        ensures name { is_name result.now ≡ true }
    {
        self.octets.bytes()
    }

    /// Its octets, and zeros behind them.
    pub fn room(&self) -> &[u8; NAME_SIZE]
        ensures { result.now ≡ padded NAME_SIZE self.now }
    {
        self.octets.room()
    }
}

impl PartialEq for Name {
    ghost eq = { bytes_eq };

    ghost laws = { partial_equiv_from_equiv nat_list_eq_equiv };

    fn eq(&self, other: &Name) -> bool {
        self.octets == other.octets
    }
}

impl Eq for Name {
    ghost laws = { nat_list_eq_equiv };
}

impl Hash for Name {
    ghost hash_input = { hashed };

    ghost respects_eq = { hashed_alike };

    fn hash<H: Hasher>(&self, state: &mut H) {
        state.write(self.bytes());
    }
}

impl PartialOrd for Name {
    ghost partial_cmp = { as_partial_cmp (slice_cmp nat_cmp) };

    ghost laws = { texts_po };

    fn partial_cmp(&self, other: &Name) -> Option<Ordering> {
        Some(self.cmp(other))
    }
}

/// Names are ordered by their octets.
impl Ord for Name {
    ghost cmp = { slice_cmp nat_cmp };

    ghost total = { nat_list_cmp_total };

    ghost matches_partial_cmp = { Prim.search rules };

    ghost matches_eq = { texts_ties };

    fn cmp(&self, other: &Name) -> Ordering {
        self.bytes().cmp(other.bytes())
    }
}

/// A text of the database: at most 64 octets of any value. Contracts see its octets.
#[derive(Clone, Copy)]
pub struct Text {
    octets: Octets<TEXT_SIZE>,
}

impl Model for Text {
    ghost use Rattle.std.specs.Prelude.{◌≡◌, List, ℕ, true};
    ghost use Rattle.mib_model.specs.Names.{is_text};

    ghost Value = { List ℕ };

    ghost view = { λ t. t.octets };

    ghost invariant = { λ t. is_text t.octets ≡ true };

    ghost inverse = { λ octets. record { octets = octets } };
}

impl Text {
    /// The text that these octets are: `None` where they are more than 64.
    pub fn new(octets: &[u8]) -> Option<Text>
        ensures { result ≡ text_of octets.now }
    {
        if octets.len() > TEXT_SIZE {
            return None;
        }
        Some(Text {
            octets: Octets::from_slice(octets),
        })
    }

    /// Its octets.
    pub fn bytes(&self) -> &[u8]
        ensures bytes { result.now ≡ self.now }
        ensures fits { length result.now ≤ TEXT_SIZE }
    {
        self.octets.bytes()
    }
}

impl PartialEq for Text {
    ghost eq = { bytes_eq };

    ghost laws = { partial_equiv_from_equiv nat_list_eq_equiv };

    fn eq(&self, other: &Text) -> bool {
        self.octets == other.octets
    }
}

impl Eq for Text {
    ghost laws = { nat_list_eq_equiv };
}

impl Hash for Text {
    ghost hash_input = { hashed };

    ghost respects_eq = { hashed_alike };

    fn hash<H: Hasher>(&self, state: &mut H) {
        state.write(self.bytes());
    }
}

impl PartialOrd for Text {
    ghost partial_cmp = { as_partial_cmp (slice_cmp nat_cmp) };

    ghost laws = { texts_po };

    fn partial_cmp(&self, other: &Text) -> Option<Ordering> {
        Some(self.cmp(other))
    }
}

/// Texts are ordered by their octets.
impl Ord for Text {
    ghost cmp = { slice_cmp nat_cmp };

    ghost total = { nat_list_cmp_total };

    ghost matches_partial_cmp = { Prim.search rules };

    ghost matches_eq = { texts_ties };

    fn cmp(&self, other: &Text) -> Ordering {
        self.bytes().cmp(other.bytes())
    }
}
