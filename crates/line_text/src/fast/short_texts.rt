// A value of 16 bits takes 156 instead of 229 instructions: the texts of all small numbers are made once, and looked up.
ghost use Rattle.std.specs.Prelude.{◌≡◌, ◌<◌, ◌≤◌, map, decimal};
ghost use Rattle.line_text.specs.ShortTexts.{four_digits, digits_of, texts_of, number_texts, number_texts_below};
ghost use Rattle.line_text.specs.declared.fast.short_texts.TheConstants.{SHORT_BOUND};

use crate::fast::short::Short;
use std::alloc::{AllocError, Global};

/// The numbers below this one have a short text.
pub(crate) const SHORT_BOUND: u64 = 10_000;

// A number in four digits.
fn in_four_digits(n: u64) -> [u8; 4]
    requires { n < SHORT_BOUND }
    ensures { result ≡ four_digits n }
{
    [
        b'0' + (n / 1000) as u8,
        b'0' + (n / 100 % 10) as u8,
        b'0' + (n / 10 % 10) as u8,
        b'0' + (n % 10) as u8,
    ]
}

// The short text of a number.
#[tactic(auto, using(crate::proofs::ShortFacts::decimals))]
fn short_of(n: u64) -> Short
    requires { n < SHORT_BOUND }
    ensures { texts_of result ≡ number_texts n }
{
    let four = in_four_digits(n);
    let [_, hundreds, tens, ones] = four;
    if n < 10 {
        let digits = [ones, 0, 0, 0];
        return Short {
            digits,
            count: 1,
            four,
        };
    }
    if n < 100 {
        let digits = [tens, ones, 0, 0];
        return Short {
            digits,
            count: 2,
            four,
        };
    }
    if n < 1000 {
        let digits = [hundreds, tens, ones, 0];
        return Short {
            digits,
            count: 3,
            four,
        };
    }
    Short {
        digits: four,
        count: 4,
        four,
    }
}

/// The texts of all small numbers.
pub struct ShortTexts {
    texts: Vec<Short>,
    ghost told: { map texts_of texts.items ≡ number_texts_below SHORT_BOUND },
}

/// By hand, so that whoever lets one go proves one call.
impl Drop for ShortTexts {
    fn drop(self) {
        let ShortTexts { texts: _texts } = self;
    }
}

impl ShortTexts {
    /// All of them. An error is want of memory.
    #[tactic(auto, using(crate::proofs::ShortFacts::no_texts))]
    pub fn new(alloc: Global) -> Result<ShortTexts, AllocError> {
        let mut texts = Vec::with_capacity(alloc, SHORT_BOUND as usize)?;
        for n in 0..SHORT_BOUND {
            texts.push_reserved(short_of(n));
        }
        Ok(ShortTexts { texts })
    }

    /// All of them, to be looked up.
    #[inline(always)]
    pub fn all(&self) -> Shorts<'_> {
        Shorts {
            texts: &self.texts[..SHORT_BOUND as usize],
        }
    }
}

/// The texts of all small numbers, to be looked up. A copy can be kept in registers while octets are written.
#[derive(Clone, Copy)]
pub struct Shorts<'a> {
    texts: &'a [Short],
    ghost told: { map texts_of texts.now ≡ number_texts_below SHORT_BOUND },
}

impl Shorts<'_> {
    /// The text of a number.
    #[inline(always)]
    #[tactic(auto, using(crate::proofs::ShortFacts::at_a_place))]
    pub(crate) fn at(self, n: u64) -> Short
        requires { n < SHORT_BOUND }
        ensures digits { digits_of result ≡ decimal n }
        ensures four { result.four ≡ four_digits n }
    {
        self.texts[n as usize]
    }
}
