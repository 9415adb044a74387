ghost use Rattle.std.specs.Prelude.{◌≡◌, ◌<◌, ◌≤◌, ◌+◌, ◌*◌, ◌^◌, ℕ, length, slice_index};
ghost use Rattle.std.specs.List.{All};
ghost use Rattle.bit_writer.specs.Writes as Spec;
ghost use Rattle.bit_writer.specs.Writes.{first_clash, octets_left};

use crate::clash::common_bit;
use crate::set::mark_all;
use crate::write::Write;

/// The octets that hold some writes, and no fewer than so many.
pub fn octets_for(least: u64, writes: &[Write]) -> u64
    ensures { result ≡ Spec.octets_for least writes.now }
{
    let mut octets = least;
    for write in writes {
        octets = octets.max(write.octets_to());
    }
    octets
}

// Octets are zeros afterwards.
fn clear(octets: &mut [u8])
    ensures { (k : ℕ) → k < length octets.old → slice_index octets.new k ≡ 0 }
{
    for octet in octets {
        *octet = 0;
    }
}

/// Writes into octets, of which nothing is left as it was; bits that no write has are 0. The answer is the least bit that
/// one write sets to 1 and another to 0, if there is one. As many octets more are room to find it, and nothing is left of them.
pub fn write_all(writes: &[Write], into: &mut [u8], room: &mut [u8]) -> Option<u64>
    requires few { length into.old < 2 ^ 32 }
    requires room { length room.old ≡ length into.old }
    requires inside { All (λ w. w.at + w.width ≤ 8 * length into.old) writes.now }
    ensures clash { result ≡ first_clash writes.now (length into.old) }
    ensures octets { into.new ≡ octets_left writes.now (length into.old) }
{
    clear(into);
    clear(room);
    mark_all(writes, into, room);
    common_bit(into, room)
}
