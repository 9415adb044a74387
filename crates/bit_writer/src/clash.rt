// The least bit that is 1 in two lists of octets.
ghost use Rattle.std.specs.Prelude.{◌≡◌, ◌<◌, ◌≤◌, ◌*◌, ◌^◌, ◌==◌, ◌&&◌, ℕ, length, slice_index};
ghost use Rattle.std.specs.List.{find, range_with_len};
ghost use Rattle.mib_model.specs.Bits.{bit};

// Whether a bit is 1.
fn is_one(octets: &[u8], at: usize) -> bool
    requires { at < 8 * length octets.now }
    ensures { result ≡ (bit octets.now at == 1) }
{
    (octets[at / 8] >> (7 - at % 8)) % 2 == 1
}

// The least bit of an octet that is 1 in both.
fn common_in(first: &[u8], second: &[u8], octet: usize) -> Option<u64>
    requires inside { octet < length first.now }
    requires few { length first.now < 2 ^ 32 }
    requires beside { length second.now ≡ length first.now }
    ensures { result ≡ find (λ j. (bit first.now j == 1) && (bit second.now j == 1)) (range_with_len (8 * octet) 8) }
{
    for behind in 0..8 {
        let at = 8 * octet + behind;
        if is_one(first, at) && is_one(second, at) {
            return Some(at as u64);
        }
    }
    None
}

/// The least bit that is 1 in both of two lists of as many octets.
pub fn common_bit(first: &[u8], second: &[u8]) -> Option<u64>
    requires few { length first.now < 2 ^ 32 }
    requires beside { length second.now ≡ length first.now }
    ensures octets { (k : ℕ) → slice_index first.now k < 256 }
    ensures least { result ≡ find (λ j. (bit first.now j == 1) && (bit second.now j == 1)) (range_with_len 0 (8 * length first.now)) }
{
    for octet in 0..first.len() {
        if first[octet] & second[octet] == 0 {
            continue;
        }
        let found = common_in(first, second, octet);
        if found.is_some() {
            return found;
        }
    }
    None
}
