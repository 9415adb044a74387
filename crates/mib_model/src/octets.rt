ghost use Rattle.std.specs.Prelude.{◌≡◌, ◌≤◌, length};
ghost use Rattle.std.specs.Cmp.{partial_equiv_from_equiv};
ghost use Rattle.std.specs.Cmp.Lexicographic.{nat_list_eq_equiv};
ghost use Rattle.std.specs.Str.{bytes_eq};
ghost use Rattle.mib_model.specs.OctetsLayout.{padded};

use crate::words::are_alike;
use std::marker::Model;

/// At most `N` octets that lie in the value itself. Contracts see the octets.
#[derive(Clone, Copy)]
pub struct Octets<const N: usize> {
    room: [u8; N],
    used: u8,
}

impl<const N: usize> Model for Octets<N> {
    ghost use Rattle.std.specs.Prelude.{List, ℕ, take, length};
    ghost use Rattle.mib_model.specs.OctetsLayout.{padded, IsPadded, length-padded};

    ghost Value = { List ℕ };

    ghost view = { λ o. take o.used o.room };

    ghost invariant = { λ o. IsPadded N o.room o.used };

    ghost inverse = { λ octets. record { room = padded N octets; used = length octets } };

    ghost inverse_ok = { λ o h i. record { room = h.zeros i; used = length-padded N o.room o.used h i } };
}

impl<const N: usize> Octets<N> {
    /// A copy of these octets.
    pub fn from_slice(octets: &[u8]) -> Self
        requires fits { length octets.now ≤ N }
        requires short { length octets.now ≤ 255 }
        ensures { result ≡ octets.now }
    {
        let mut room = [0; N];
        room[..octets.len()].copy_from_slice(octets);
        Octets {
            room,
            used: octets.len() as u8,
        }
    }

    /// The octets.
    pub fn bytes(&self) -> &[u8]
        ensures bytes { result.now ≡ self.now }
        ensures fits { length result.now ≤ N }
    {
        &self.room[..usize::from(self.used)]
    }

    /// The octets, and zeros behind them.
    pub fn room(&self) -> &[u8; N]
        ensures { result.now ≡ padded N self.now }
    {
        &self.room
    }
}

impl<const N: usize> PartialEq for Octets<N> {
    ghost eq = { bytes_eq };

    ghost laws = { partial_equiv_from_equiv nat_list_eq_equiv };

    // Rooms are compared whole, behind which there are zeros.
    fn eq(&self, other: &Octets<N>) -> bool {
        self.used == other.used && are_alike(&self.room, &other.room)
    }
}
