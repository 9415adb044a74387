// What of a packet's octets tells which rows it agrees with.
ghost use Rattle.std.specs.Prelude.{◌≡◌, ◌≤◌, length, IsTrue};
ghost use Rattle.std.specs.Option.{option_copied};
ghost use Rattle.mib_model.specs.Headers.{header_of};
ghost use Rattle.mib_model.specs.Match as Spec;
ghost use Rattle.mib_model.specs.Match.{service_of, subtype_of};

use bit_field::unsigned;
use mib_model::{Found, PicRow, PidRow};

/// The service type and the subtype: octets 7 and 8 behind a secondary header, else 0 (ECSS-E-70-41A, telemetry packet
/// data field header).
pub fn types(packet: &[u8], secondary: bool) -> (u8, u8)
    requires secondary { secondary ≡ (header_of packet.now).secondary }
    requires long { IsTrue secondary → 9 ≤ length packet.now }
    ensures service { result.0 ≡ service_of packet.now }
    ensures subtype { result.1 ≡ subtype_of packet.now }
{
    if secondary {
        (packet[7], packet[8])
    } else {
        (0, 0)
    }
}

// The discriminant at an octet offset: 0 where there is no offset or no width, none where it passes the end.
fn discriminant(packet: &[u8], offset: i32, width: u8) -> Option<u64>
    requires width { width ≤ 64 }
    ensures { result ≡ Spec.discriminant packet.now offset width }
{
    if offset < 0 || width == 0 {
        return Some(0);
    }
    unsigned(packet, 8 * offset as u64, width)
}

/// The two discriminants by the row of pic that stands for a packet, none where one passes the end.
pub fn discriminants(packet: &[u8], row: Option<&PicRow>) -> Option<(u64, u64)>
    ensures { result ≡ Spec.discriminants packet.now (option_copied row.entry) }
{
    let Some(row) = row else {
        return Some((0, 0));
    };
    let first = discriminant(packet, row.pi1_off, row.pi1_wid.bits())?;
    let second = discriminant(packet, row.pi2_off, row.pi2_wid.bits())?;
    Some((first, second))
}

/// What a packet of these types is by the row that agrees with it, if there is one.
pub fn found_by(row: Option<&PidRow>, service: u8, subtype: u8) -> Found
    ensures { result ≡ Spec.found_of service subtype (option_copied row.entry) }
{
    let Some(row) = row else {
        return Found::Unknown { service, subtype };
    };
    Found::Spid {
        spid: row.spid,
        service,
        subtype,
        tpsd: row.tpsd,
        dfhsize: row.dfhsize,
    }
}
