ghost use Rattle.std.specs.Prelude.{◌≡◌, ℕ, ◌+◌, ◌-◌, ◌*◌, ◌^◌, List, map, sum};
ghost use Rattle.std.specs.List.{range_with_len};
ghost use Rattle.mib_model.specs.Bits.{bit, bits};

/// The number in bits is the sum of the bits at their weights, that of the last being 1.
pub fn bits_are_a_sum()
    ensures { (octets : List ℕ) (at width : ℕ) → bits octets at width ≡ sum (map (λ i. bit octets (at + i) * 2 ^ (width - 1 - i)) (range_with_len 0 width)) }
{}
