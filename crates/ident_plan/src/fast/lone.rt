// With rows that stand where numbers say, a packet of two values takes 764 instead of 959 instructions: an only row of an APID is compared, not looked up.
ghost use Rattle.std.specs.Prelude.{◌≡◌, ◌==◌, ◌&&◌, IfSome, Some, None, false, if◌then◌else◌};
ghost use Rattle.std.specs.List.{find};
ghost use Rattle.std.specs.Option.{option_copied};
ghost use Rattle.mib_model.specs.Headers.{header_of};
ghost use Rattle.mib_model.specs.Match as Spec;
ghost use Rattle.mib_model.specs.Match.{lacks_service, found_with};

use crate::fast::kin::{Kin, kin_at};
use crate::ident::Ident;
use mib_model::{Found, Header, PidRow};
use packet_keys::{PacketKey, found_by, types};

// Whether a row of the key's APID has the rest of the key.
fn agrees(row: &PidRow, key: &PacketKey) -> bool
    ensures { result ≡ ((row.now.service == key.now.service) && (row.now.subtype == key.now.subtype)
        && (row.now.pi1_val == key.now.pi1_val) && (row.now.pi2_val == key.now.pi2_val)) }
{
    row.service == key.service
        && row.subtype == key.subtype
        && row.pi1_val == key.pi1_val
        && row.pi2_val == key.pi2_val
}

// A row where a condition holds.
fn row_if(row: &PidRow, holds: bool) -> Option<&PidRow>
    ensures { option_copied result ≡ (if holds then Some row.now else None) }
{
    if holds { Some(row) } else { None }
}

impl Ident {
    /// The first row of pid with this key: by a probe where its APID has more than one row.
    pub(crate) fn row_of_pid(&self, key: PacketKey) -> Option<&PidRow>
        ensures { option_copied result ≡ find (λ row. (row.apid == key.apid) && (row.service == key.service)
            && (row.subtype == key.subtype) && (row.pi1_val == key.pi1_val) && (row.pi2_val == key.pi2_val)) self.now.pids }
    {
        match kin_at(&self.kins, key.apid) {
            Some(Kin::Empty) => None,
            Some(Kin::One(row)) => row_if(row, agrees(row, &key)),
            _ => self.probed(key),
        }
    }

    // The first row of pid with this key, if it is the only one of its APID.
    #[inline(always)]
    fn lone_row(&self, key: PacketKey) -> Option<&PidRow>
        ensures { IfSome result (λ row. Some row.now ≡ find (λ row. (row.apid == key.apid) && (row.service == key.service)
            && (row.subtype == key.subtype) && (row.pi1_val == key.pi1_val) && (row.pi2_val == key.pi2_val)) self.now.pids) }
    {
        match kin_at(&self.kins, key.apid) {
            Some(Kin::One(row)) if agrees(row, &key) => Some(row),
            _ => None,
        }
    }

    // What a packet whose discriminants are 0 is by the only row of its APID, if it agrees with that.
    #[inline(always)]
    fn by_lone_row(&self, header: &Header, packet: &[u8]) -> Option<Found>
        requires header { header.now ≡ header_of packet.now }
        requires long { lacks_service packet.now ≡ false }
        ensures { IfSome result (λ found. found ≡ found_with self.now.pids packet.now (Some (0, 0))) }
    {
        let (service, subtype) = types(packet, header.secondary);
        let row = self.lone_row(PacketKey {
            apid: header.apid,
            service,
            subtype,
            pi1_val: 0,
            pi2_val: 0,
        })?;
        Some(found_by(Some(row), service, subtype))
    }

    /// What a packet is by the only row of its APID, if it agrees with that and pic has no rows.
    #[tactic(auto, unfolding(mib_model::specs::Match::criterion))]
    #[inline(always)]
    pub(crate) fn at_once(&self, header: &Header, packet: &[u8]) -> Option<Found>
        requires header { header.now ≡ header_of packet.now }
        requires long { lacks_service packet.now ≡ false }
        ensures { IfSome result (λ found. found ≡ found_with self.now.pids packet.now
            (Spec.discriminants packet.now (Spec.criterion self.now.pics packet.now))) }
    {
        if !self.is_bare {
            return None;
        }
        self.by_lone_row(header, packet)
    }
}
