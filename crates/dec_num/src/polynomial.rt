// Polynomials, summed at one scale.
ghost use Rattle.std.specs.Prelude.{◌≡◌, ◌<◌, ◌≤◌, ◌≤ℤ◌, ◌+ℤ◌, ◌∷◌, ◌^◌, pos, length, nat_abs, true, false, IfSome, IfNone, OnSome};
ghost use Rattle.std.specs.List.{list_any};
ghost use Rattle.mib_model.specs.WholeNumbers.{least_raw, greatest_raw};
ghost use Rattle.mib_model.specs.Calibrated.{is_wide};
ghost use Rattle.mib_model.specs.Counts as Counts;
ghost use Rattle.mib_model.specs.Polynomials as Spec;
ghost use Rattle.dec_num.specs.Narrow.{counted, narrow, narrow_result, or_over};
ghost use Rattle.dec_num.specs.Sums.{without_zeros, advanced, sum_behind, sum_of};
ghost use Rattle.mib_model.specs.declared.limits.TheConstants.{STEP_BOUND};

use crate::fast;
use crate::fast::poly::WordPoly;
use crate::rounding::scaled_down;
use crate::steps::{outcome, product, scaled_up, step, sum};
use mib_model::{Dec, Eng, Over};
use std::marker::Model;
use std::snapshot::Snapshot;

// The digits that a coefficient has behind the point.
fn behind_point(d: Dec) -> u8
    ensures value { result ≡ Spec.behind_point d.e }
    ensures within { result ≤ 128 }
{
    if d.e < 0 { d.e.unsigned_abs() } else { 0 }
}

// The most digits behind the point that a coefficient has.
fn scale_of(a: &[Dec; 5]) -> u8
    ensures value { result ≡ Spec.scale_of a.now }
    ensures within { result ≤ 128 }
{
    let [a0, a1, a2, a3, a4] = *a;
    let low = behind_point(a0).max(behind_point(a1)).max(behind_point(a2));
    low.max(behind_point(a3)).max(behind_point(a4))
}

// A number times a power of 10, rounded where that is below 1, where it is below the bound of steps.
fn times_power(number: i128, exponent: i32) -> Option<i128>
    requires { nat_abs number < 2 ^ 127 }
    ensures value { result ≡ narrow (Counts.times_power number exponent) }
    ensures within { IfSome result (λ z. nat_abs z < STEP_BOUND) }
{
    if exponent < 0 {
        step(scaled_down(number, exponent.unsigned_abs()))
    } else {
        scaled_up(number, exponent as u32)
    }
}

// A coefficient as a whole number at a scale.
fn at_scale(d: Dec, scale: u8) -> Option<i128>
    ensures value { result ≡ narrow (Counts.times_power d.m (d.e +ℤ pos scale)) }
    ensures within { IfSome result (λ z. nat_abs z < STEP_BOUND) }
{
    times_power(i128::from(d.m), i32::from(d.e) + i32::from(scale))
}

// The coefficients as whole numbers at a scale, that of the power 0 apart, where none is too wide.
fn coefficients(a: &[Dec; 5], scale: u8) -> Option<(i128, [i128; 4])>
    ensures none { IfNone result (list_any is_wide (Spec.at_scale scale a.now) ≡ true) }
    ensures some { IfSome result (λ c. c.0 ∷ c.1 ≡ Spec.at_scale scale a.now) }
    ensures within { IfSome result (λ c. nat_abs c.0 < STEP_BOUND) }
    ensures narrow { OnSome result (list_any is_wide (Spec.at_scale scale a.now) ≡ false) }
{
    let [a0, a1, a2, a3, a4] = *a;
    let first = at_scale(a0, scale)?;
    let second = at_scale(a1, scale)?;
    let third = at_scale(a2, scale)?;
    let fourth = at_scale(a3, scale)?;
    let fifth = at_scale(a4, scale)?;
    Some((first, [second, third, fourth, fifth]))
}

// Coefficients without the zeros at the end.
pub(crate) fn up_to_degree(coefficients: &[i128]) -> &[i128]
    requires { length coefficients.now ≤ 4 }
    ensures { result.now ≡ without_zeros coefficients.now }
{
    let mut rest = coefficients;
    while let [before @ .., 0] = rest {
        rest = before;
    }
    rest
}

// The next power, and the sum with the term of its coefficient, where no step is too wide.
fn advance(raw: i128, power: i128, total: i128, coefficient: i128) -> Option<(i128, i128)>
    ensures value { result ≡ advanced raw power total coefficient }
    ensures within { IfSome result (λ p. nat_abs p.1 < STEP_BOUND) }
{
    let next = product(power, raw)?;
    let term = product(coefficient, next)?;
    Some((next, sum(total, term)?))
}

// The sum of coefficients at a number, where no step is too wide.
#[cold]
#[inline(never)]
fn sum_of(scaled: &Option<(i128, [i128; 4])>, raw: i128) -> Option<i128>
    requires { IfSome scaled.now (λ c. nat_abs c.0 < STEP_BOUND) }
    ensures value { result ≡ sum_of scaled.now raw }
    ensures within { IfSome result (λ z. nat_abs z < STEP_BOUND) }
{
    let (first, rest) = (*scaled)?;
    total(first, up_to_degree(&rest), raw)
}

// The sum of a first coefficient and of those of the powers from 1 on, step by step, where no step is too wide.
fn total(first: i128, rest: &[i128], raw: i128) -> Option<i128>
    requires { nat_abs first < STEP_BOUND }
    ensures value { result ≡ sum_behind raw (pos 1) first rest.now }
    ensures within { IfSome result (λ z. nat_abs z < STEP_BOUND) }
{
    let mut power = 1;
    let mut total = first;
    for coefficient in rest {
        let (next, more) = advance(raw, power, total, *coefficient)?;
        power = next;
        total = more;
    }
    Some(total)
}

// A sum at a scale, brought to counts of 10^-12, where it is below the bound of results.
#[inline(always)]
fn to_count(sum: i128, scale: u8) -> Option<i128>
    requires { nat_abs sum < STEP_BOUND }
    ensures { result ≡ narrow_result (Spec.to_count scale sum) }
{
    match i64::try_from(sum) {
        Ok(sum) if scale <= 12 => Some(fast::to_count(sum, scale)),
        _ => to_count_by_steps(sum, scale),
    }
}

// A sum at a scale, brought to counts of 10^-12 step by step, where it is below the bound of results.
#[cold]
#[inline(never)]
fn to_count_by_steps(sum: i128, scale: u8) -> Option<i128>
    requires { nat_abs sum < STEP_BOUND }
    ensures { result ≡ narrow_result (Spec.to_count scale sum) }
{
    outcome(times_power(sum, 12 - i32::from(scale))?)
}

/// A polynomial whose coefficients are whole numbers at one scale already, and none where one of them is too wide. Contracts
/// see the coefficients, that of the power 0 first.
#[derive(Drop)]
pub struct PolyCurve {
    scale: u8,
    words: Option<WordPoly>,
    scaled: Option<(i128, [i128; 4])>,
    decs: Snapshot<[Dec; 5]>,
}

impl Model for PolyCurve {
    ghost use Rattle.std.specs.Prelude.{◌≡◌, List};
    ghost use Rattle.mib_model.specs.declared.number.Dec.{Dec};
    ghost use Rattle.mib_model.specs.Polynomials.{scale_of};
    ghost use Rattle.dec_num.specs.Sums.{AreScaled};
    ghost use Rattle.dec_num.specs.WordSums.{AreWords};

    ghost Value = { List Dec };

    ghost view = { λ poly. poly.decs.value };

    ghost invariant = { λ poly. (poly.scale ≡ scale_of poly.decs.value) × AreScaled poly.decs.value poly.scale poly.scaled × AreWords poly.words poly.scaled };
}

impl PolyCurve {
    /// The polynomial of coefficients, that of the power 0 first.
    pub fn new(a: &[Dec; 5]) -> PolyCurve
        ensures { result ≡ a.now }
    {
        let scale = scale_of(a);
        let scaled = coefficients(a, scale);
        PolyCurve {
            scale,
            words: fast::word_poly(&scaled),
            scaled,
            decs: Snapshot::of(a),
        }
    }

    // The count at a number, where no step is too wide.
    #[inline(always)]
    fn count_at(&self, raw: i128) -> Option<i128>
        ensures { or_over result ≡ Spec.polynomial self.now raw }
    {
        match fast::sum(&self.words, raw) {
            Some(sum) => to_count(i128::from(sum), self.scale),
            None => to_count(sum_of(&self.scaled, raw)?, self.scale),
        }
    }

    /// `A0 + A1·x + A2·x^2 + A3·x^3 + A4·x^4` at a raw number, or that it leaves the bounds (SCOS-2000 Database Import ICD,
    /// mcf; the scale, the rounding and the bounds are this profile's).
    #[inline(always)]
    pub fn at(&self, raw: i128) -> Result<Eng, Over>
        requires low { least_raw ≤ℤ raw }
        requires high { raw ≤ℤ greatest_raw }
        ensures { counted result ≡ Spec.polynomial self.now raw }
    {
        match self.count_at(raw) {
            Some(count) => Ok(Eng { count }),
            None => Err(Over),
        }
    }
}

/// A polynomial at a raw number, or that it leaves the bounds, by its coefficients, that of the power 0 first.
pub fn poly(a: &[Dec; 5], raw: i128) -> Result<Eng, Over>
    requires low { least_raw ≤ℤ raw }
    requires high { raw ≤ℤ greatest_raw }
    ensures { counted result ≡ Spec.polynomial a.now raw }
{
    PolyCurve::new(a).at(raw)
}
