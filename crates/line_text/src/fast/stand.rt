// A value shown by a text takes 386 instead of 500 instructions: up to sixteen octets are told at once to stand as themselves in quotes. Two loads that overlap
// cover a short text.
ghost use Rattle.std.specs.Prelude.{◌≡◌, ◌+◌, ◌-◌, ◌≤◌, ◌++◌, drop, length, take};
ghost use Rattle.std.specs.Bool.{OnTrue};
ghost use Rattle.std.specs.List.{flat_map};
ghost use Rattle.mib_model.specs.RawTexts.{quoted_octet};
ghost use Rattle.line_text.specs.Standing.{StandBetween};

use crate::place::{part, put};
use std::simd::prelude::*;

#[inline(always)]
fn four_stand(octets: &[u8], at: usize) -> bool
    requires { at + 4 ≤ length octets.now }
    ensures { OnTrue result (StandBetween octets.now at (at + 4)) }
{
    let v = u8x4::from_slice(&octets[at..]);
    let from_space = v - u8x4::splat(b' ');
    let others = from_space.simd_ge(u8x4::splat(0x5F))
        | v.simd_eq(u8x4::splat(b'"'))
        | v.simd_eq(u8x4::splat(b'\\'));
    others.to_bitmask() == 0
}

#[inline(always)]
fn eight_stand(octets: &[u8], at: usize) -> bool
    requires { at + 8 ≤ length octets.now }
    ensures { OnTrue result (StandBetween octets.now at (at + 8)) }
{
    let v = u8x8::from_slice(&octets[at..]);
    let from_space = v - u8x8::splat(b' ');
    let others = from_space.simd_ge(u8x8::splat(0x5F))
        | v.simd_eq(u8x8::splat(b'"'))
        | v.simd_eq(u8x8::splat(b'\\'));
    others.to_bitmask() == 0
}

#[inline(always)]
fn sixteen_stand(octets: &[u8], at: usize) -> bool
    requires { at + 16 ≤ length octets.now }
    ensures { OnTrue result (StandBetween octets.now at (at + 16)) }
{
    let v = u8x16::from_slice(&octets[at..]);
    let from_space = v - u8x16::splat(b' ');
    let others = from_space.simd_ge(u8x16::splat(0x5F))
        | v.simd_eq(u8x16::splat(b'"'))
        | v.simd_eq(u8x16::splat(b'\\'));
    others.to_bitmask() == 0
}

// The first and the last octets of a text, which may overlap, behind one another.
#[inline(always)]
fn ends<const N: usize, const M: usize>(text: &[u8]) -> [u8; M]
    requires some { N ≤ length text.now }
    requires twice { N + N ≡ M }
    ensures { result ≡ take N text.now ++ drop (length text.now - N) text.now }
{
    let first = part::<N>(text, 0);
    let last = part::<N>(text, text.len() - N);
    let mut both = [0; M];
    put(&mut both, 0, &first);
    put(&mut both, N, &last);
    both
}

/// Whether 2 to 4 octets are found to stand as themselves.
#[inline(always)]
pub(crate) fn twos_stand(octets: &[u8]) -> bool
    requires some { 2 ≤ length octets.now }
    requires few { length octets.now ≤ 4 }
    ensures { OnTrue result (flat_map quoted_octet octets.now ≡ octets.now) }
{
    four_stand(&ends::<2, 4>(octets), 0)
}

/// Whether 4 to 8 octets are found to stand as themselves.
#[inline(always)]
pub(crate) fn fours_stand(octets: &[u8]) -> bool
    requires some { 4 ≤ length octets.now }
    requires few { length octets.now ≤ 8 }
    ensures { OnTrue result (flat_map quoted_octet octets.now ≡ octets.now) }
{
    eight_stand(&ends::<4, 8>(octets), 0)
}

/// Whether 8 to 16 octets are found to stand as themselves.
#[inline(always)]
pub(crate) fn eights_stand(octets: &[u8]) -> bool
    requires some { 8 ≤ length octets.now }
    requires few { length octets.now ≤ 16 }
    ensures { OnTrue result (flat_map quoted_octet octets.now ≡ octets.now) }
{
    sixteen_stand(&ends::<8, 16>(octets), 0)
}

// Whether the first and the last sixteen octets are found to stand as themselves.
#[inline(always)]
fn both_stand(octets: &[u8]) -> bool
    requires some { 16 ≤ length octets.now }
    requires few { length octets.now ≤ 32 }
    ensures { OnTrue result (StandBetween octets.now 0 (length octets.now)) }
{
    sixteen_stand(octets, 0) && sixteen_stand(octets, octets.len() - 16)
}

/// Whether 16 to 32 octets are found to stand as themselves.
#[inline(always)]
pub(crate) fn sixteens_stand(octets: &[u8]) -> bool
    requires some { 16 ≤ length octets.now }
    requires few { length octets.now ≤ 32 }
    ensures { OnTrue result (flat_map quoted_octet octets.now ≡ octets.now) }
{
    both_stand(octets)
}
