// The fields of a value's bits.
ghost use Rattle.std.specs.Prelude.{◌≡◌, ◌≤◌, ◌<◌, ◌+◌, ◌*◌, ◌%◌, ◌^◌, ◌≢◌, length, IfSome, IfNone};
ghost use Rattle.mib_model.specs.Bits.{bits};
ghost use Rattle.mib_model.specs.RawTexts.{octets_at};

use bit_field::number_at;

/// The number in so many bits, 64 at most, that stand `offset` bits behind a place.
#[inline(always)]
pub fn field(packet: &[u8], at: u64, offset: u16, width: u8) -> u64
    requires width { width ≤ 64 }
    requires inside { at + offset + width ≤ 8 * length packet.now }
    ensures value { result ≡ bits packet.now (at + offset) width }
    ensures within { result < 2 ^ width }
{
    let from_octet = &packet[(at / 8) as usize..];
    number_at(from_octet, at % 8 + u64::from(offset), width)
}

/// So many octets from a bit on, where that bit is an octet's first, and else `None`.
pub(crate) fn whole_octets(packet: &[u8], at: u64, count: u16) -> Option<&[u8]>
    requires { at + 8 * count ≤ 8 * length packet.now }
    ensures octets { IfSome result (λ octets. octets.now ≡ octets_at packet.now at count) }
    ensures count { IfSome result (λ octets. length octets.now ≡ count) }
    ensures none { IfNone result (at % 8 ≢ 0) }
{
    if at % 8 != 0 {
        return None;
    }
    let first = (at / 8) as usize;
    Some(&packet[first..first + usize::from(count)])
}
