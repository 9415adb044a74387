// Octets compared by machine words.
ghost use Rattle.std.specs.Prelude.{◌≡◌, ◌≤◌, ◌+◌, drop, length, take};
ghost use Rattle.std.specs.Int.{from_le_bytes, w64};
ghost use Rattle.std.specs.Str.{bytes_eq};

// The octets of a machine word.
const WORD: usize = 8;

// The eight octets from a place on, as one number.
#[inline(always)]
fn word(octets: &[u8], at: usize) -> u64
    requires { at + 8 ≤ length octets.now }
    ensures { result ≡ from_le_bytes w64 (take 8 (drop at octets.now)) }
{
    let eight = &octets[at..at + WORD];
    u64::from_le_bytes([
        eight[0], eight[1], eight[2], eight[3], eight[4], eight[5], eight[6], eight[7],
    ])
}

// Whether the eight octets from a place on are the same.
#[inline(always)]
fn are_alike_at(a: &[u8], b: &[u8], at: usize) -> bool
    requires a { at + 8 ≤ length a.now }
    requires b { at + 8 ≤ length b.now }
    ensures { result ≡ bytes_eq (take 8 (drop at a.now)) (take 8 (drop at b.now)) }
{
    word(a, at) == word(b, at)
}

/// Whether so many octets are the same as so many others.
#[inline(always)]
pub(crate) fn are_alike(a: &[u8], b: &[u8]) -> bool
    requires { length a.now ≡ length b.now }
    ensures { result ≡ bytes_eq a.now b.now }
{
    for k in 0..a.len() / WORD {
        if !are_alike_at(a, b, WORD * k) {
            return false;
        }
    }
    let rest = a.len() / WORD * WORD;
    rest == a.len() || a[rest..] == b[rest..]
}
