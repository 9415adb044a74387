// A value by 16 points takes 402 instead of 501 instructions, by 8 texts 386 instead of 431: an index says where to look, in place of halving.
ghost use Rattle.std.specs.Prelude.{◌≡◌, ◌<◌, IfSome};

use std::alloc::{AllocError, Global};

/// The most places that are looked at from the one that an index names on.
pub const LOOKS: usize = 8;

/// For so many numbers at a time, from the least on, the place of the last of ascending numbers that comes no later, and the
/// last place of all. It is a guess, which whoever asks for it tests.
#[derive(Drop)]
pub struct PointIndex {
    least: u64,
    shift: u32,
    beyond: u16,
    places: Vec<u16>,
    ghost narrow: { shift < 64 },
}

/// The number of 64 bits that comes closest to a number.
pub fn saturated(number: i128) -> i64 {
    match i64::try_from(number) {
        Ok(word) => word,
        Err(_) if number < 0 => i64::MIN,
        Err(_) => i64::MAX,
    }
}

/// A number as one of 64 bits, where it is.
#[inline(always)]
pub fn word(number: i128) -> Option<i64>
    ensures { IfSome result (λ word. word ≡ number) }
{
    let word = lower_word(number).cast_signed();
    if i128::from(word) == number {
        Some(word)
    } else {
        None
    }
}

/// The lower 64 bits of a number.
#[inline(always)]
pub fn lower_word(number: i128) -> u64 {
    (number.cast_unsigned() % (1 << 64)) as u64
}

// The numbers that an index takes at a time, as a power of 2: so many that it has at most four places a number.
fn shift_for(reach: u64, count: usize) -> u32
    ensures { result < 64 }
{
    let most = (count as u64).saturating_mul(4);
    for shift in 0..63 {
        if reach >> shift < most {
            return shift;
        }
    }
    63
}

// A place, or the last that fits.
fn place_word(place: usize) -> u16 {
    match u16::try_from(place) {
        Ok(place) => place,
        Err(_) => u16::MAX,
    }
}

// The place of the last of ascending numbers that comes no later than a number.
fn last_until(numbers: &[i64], number: i64) -> u16 {
    let end = numbers.partition_point(|other| *other <= number);
    place_word(end.saturating_sub(1))
}

// For so many numbers at a time, the place of the last that comes no later.
fn places_of(
    alloc: Global,
    numbers: &[i64],
    least: i64,
    shift: u32,
    last: u64,
) -> Result<Vec<u16>, AllocError>
    requires { shift < 64 }
{
    let mut places = Vec::new(alloc);
    for place in 0..=last {
        let from = least.saturating_add_unsigned(place << shift);
        places.push(last_until(numbers, from))?;
    }
    Ok(places)
}

impl PointIndex {
    /// The index of ascending numbers.
    pub fn compile(alloc: Global, numbers: &[i64]) -> Result<PointIndex, AllocError> {
        let least = numbers.first().copied().unwrap_or(0);
        let most = numbers.last().copied().unwrap_or(0);
        let reach = most.abs_diff(least);
        let shift = shift_for(reach, numbers.len());
        Ok(PointIndex {
            least: least.cast_unsigned(),
            shift,
            beyond: place_word(numbers.len().saturating_sub(1)),
            places: places_of(alloc, numbers, least, shift, reach >> shift)?,
        })
    }

    /// The place to look at first for a number, by its lower 64 bits.
    #[inline(always)]
    pub fn first(&self, word: u64) -> usize {
        let ahead = word.wrapping_sub(self.least) >> self.shift;
        match self.places.get(ahead as usize) {
            Some(place) => usize::from(*place),
            None => usize::from(self.beyond),
        }
    }
}
