// A value by a polynomial takes 466 instead of 762 instructions: where coefficients, powers and sums fit 64 bits, they are multiplied and added as words.
ghost use Rattle.std.specs.Prelude.{◌≡◌, Some, ◌≤◌, ◌*ℤ◌, pos, take, IfSome};
ghost use Rattle.mib_model.specs.Polynomials as Spec;
ghost use Rattle.dec_num.specs.Narrow.{narrow_result};
ghost use Rattle.dec_num.specs.Sums.{without_zeros, advanced, sum_behind};
ghost use Rattle.dec_num.specs.WordSums.{word_sum, AreWords};

pub(crate) mod poly;

use crate::fast::poly::WordPoly;
use crate::polynomial::up_to_degree;
use crate::rounding::small_power;

// The next power, and the sum with the term of its coefficient, where all are numbers of 64 bits.
#[inline(always)]
fn advance(raw: i64, power: i64, total: i64, coefficient: i64) -> Option<(i64, i64)>
    ensures { IfSome result (λ p. advanced raw power total coefficient ≡ Some p) }
{
    let next = power.checked_mul(raw)?;
    let term = coefficient.checked_mul(next)?;
    Some((next, total.checked_add(term)?))
}

// A number as one of 64 bits, where it is.
fn word(number: i128) -> Option<i64>
    ensures { IfSome result (λ word. word ≡ number) }
{
    i64::try_from(number).ok()
}

// The coefficients as numbers of 64 bits, where all are.
fn words(rest: &[i128; 4]) -> Option<[i64; 4]>
    ensures { IfSome result (λ words. words ≡ rest.now) }
{
    let [a, b, c, d] = *rest;
    Some([word(a)?, word(b)?, word(c)?, word(d)?])
}

// How many of the coefficients of the powers from 1 on come up to the degree.
#[tactic(auto, using(crate::proofs::WordSumFacts::degrees))]
fn degree_of(rest: &[i128; 4]) -> u8
    ensures value { take result rest.now ≡ without_zeros rest.now }
    ensures few { result ≤ 4 }
{
    up_to_degree(rest).len() as u8
}

// Coefficients that are all numbers of 64 bits.
pub(crate) fn word_poly(scaled: &Option<(i128, [i128; 4])>) -> Option<WordPoly>
    ensures { AreWords result scaled.now }
{
    let (first, rest) = (*scaled)?;
    Some(WordPoly {
        first: word(first)?,
        rest: words(&rest)?,
        count: degree_of(&rest),
    })
}

// The sum of a first coefficient and of those of the powers from 1 on, where all are numbers of 64 bits.
#[inline(always)]
fn total(first: i64, rest: &[i64], raw: i64) -> Option<i64>
    ensures { IfSome result (λ z. sum_behind raw (pos 1) first rest.now ≡ Some z) }
{
    let mut power = 1_i64;
    let mut total = first;
    for coefficient in rest {
        let (next, more) = advance(raw, power, total, *coefficient)?;
        power = next;
        total = more;
    }
    Some(total)
}

// The sum of coefficients at a number that isn't a word of 32 bits, where all are numbers of 64 bits.
#[inline(never)]
fn long_sum(words: &WordPoly, raw: i128) -> Option<i64>
    ensures { IfSome result (λ z. word_sum (Some words.now) raw ≡ Some z) }
{
    let raw = word(raw)?;
    total(words.first, &words.rest[..usize::from(words.count)], raw)
}

// The sum of coefficients at a number, where all are numbers of 64 bits.
#[inline(always)]
fn short_sum(words: &WordPoly, raw: i128) -> Option<i64>
    ensures { IfSome result (λ z. word_sum (Some words.now) raw ≡ Some z) }
{
    match u32::try_from(raw) {
        Ok(raw) => {
            let raw = i64::from(raw);
            total(words.first, &words.rest[..usize::from(words.count)], raw)
        }
        Err(_) => long_sum(words, raw),
    }
}

// The sum of coefficients at a number, where they are there and all are numbers of 64 bits.
#[inline(always)]
pub(crate) fn sum(words: &Option<WordPoly>, raw: i128) -> Option<i64>
    ensures { IfSome result (λ z. word_sum words.now raw ≡ Some z) }
{
    match words {
        Some(words) => short_sum(words, raw),
        None => None,
    }
}

// A sum of 64 bits at a scale of 12 at most, brought to counts of 10^-12.
#[tactic(auto, using(crate::proofs::WordFacts::word_counts))]
#[inline(always)]
pub(crate) fn to_count(sum: i64, scale: u8) -> i128
    requires { scale ≤ 12 }
    ensures { Some result ≡ narrow_result (Spec.to_count scale sum) }
{
    product(sum, small_power(12 - u32::from(scale)) as i64)
}

/// A product of numbers of 64 bits.
#[tactic(auto, using(crate::proofs::ScalingFacts::word_products))]
pub(crate) fn product(a: i64, b: i64) -> i128
    ensures { result ≡ a *ℤ b }
{
    i128::from(a) * i128::from(b)
}
