// Engineering values as counts of 10^-12, and their texts.
ghost use Rattle.std.specs.Prelude.{◌≡◌, ◌<◌, ◌≤◌, ◌+◌, ◌*ℤ◌, ◌++◌, ◌^◌, pos, length, replicate, decimal};
ghost use Rattle.mib_model.specs.Counts as Spec;
ghost use Rattle.mib_model.specs.Digits.{decimal_of_width};
ghost use Rattle.mib_model.specs.declared.line.TheConstants.{LINE_ROOM};

use crate::rounding::{divided, power, rounded, scaled_down};
use crate::steps::scaled_up;
use itoa::Buffer;
use mib_model::{Dec, Eng, Line, STEP_BOUND};

/// The magnitude that a count is held to.
const HELD: i128 = STEP_BOUND as i128;

/// The decimals of a count.
const DECIMALS: u8 = 12;

// A number times a power of 10, held to a magnitude of 10^37.
fn held(number: i128, exponent: u32) -> i128
    ensures { result ≡ Spec.held (number *ℤ pos (10 ^ exponent)) }
{
    match scaled_up(number, exponent) {
        Some(count) => count,
        None if number < 0 => -HELD,
        None => HELD,
    }
}

/// The count of a decimal: `m · 10^(e + 12)`, rounded half away from zero, and held to a magnitude of 10^37 (this
/// profile).
#[tactic(auto, unfolding(mib_model::specs::Counts::count_of))]
pub fn eng_of(d: Dec) -> Eng
    ensures { result.count ≡ Spec.count_of d }
{
    let exponent = i32::from(d.e) + i32::from(DECIMALS);
    let count = if exponent < 0 {
        scaled_down(i128::from(d.m), exponent.unsigned_abs())
    } else {
        held(i128::from(d.m), exponent as u32)
    };
    Eng { count }
}

// So many zeros.
#[tactic(auto, using(crate::proofs::TextFacts::decimals))]
fn zeros(count: usize) -> &'static [u8]
    requires { count ≤ 12 }
    ensures zeros { result.now ≡ replicate count 48 }
    ensures count { length result.now ≡ count }
{
    &b"000000000000"[..count]
}

// The digits of a number, by words of 64 bits where it is that small.
fn digits_in(number: u128, buffer: &mut Buffer) -> &[u8]
    ensures text { result.now ≡ decimal number }
    ensures room { length result.now ≤ 40 }
{
    match u64::try_from(number) {
        Ok(number) => buffer.format(number).as_bytes(),
        Err(_) => buffer.format(number).as_bytes(),
    }
}

// Appends a number in so many decimals, with zeros in front.
#[tactic(auto, using(crate::proofs::TextFacts::decimals))]
fn write_decimals(number: u128, places: u8, out: &mut Line)
    requires number { number < 10 ^ places }
    requires some { 0 < places }
    requires few { places ≤ 12 }
    requires room { length out.old + 12 ≤ LINE_ROOM }
    ensures text { out.new ≡ out.old ++ decimal_of_width places number }
    ensures room { length out.new ≤ length out.old + 12 }
{
    let mut buffer = Buffer::new();
    let digits = digits_in(number, &mut buffer);
    let missing = usize::from(places) - digits.len();
    out.add(zeros(missing));
    out.add(digits);
}

// Appends a number that stands for so many decimals.
fn write_pointed(number: u128, places: u8, out: &mut Line)
    requires places { places ≤ 12 }
    requires room { length out.old + 59 ≤ LINE_ROOM }
    ensures text { out.new ≡ out.old ++ Spec.pointed places number }
    ensures room { length out.new ≤ length out.old + 59 }
{
    let (whole, rest) = divided(number, power(u32::from(places)));
    let mut buffer = Buffer::new();
    out.add(digits_in(whole, &mut buffer));
    if places > 0 {
        out.add(b".");
        write_decimals(rest, places, out);
    }
}

/// Appends the text of a count with some decimals, 12 where more are asked for: a `-` where what is printed is below
/// zero, the whole part, and behind a point the decimals (this profile).
#[tactic(auto, unfolding(mib_model::specs::Counts::count_text, mib_model::specs::Counts::half))]
pub fn write_eng(v: Eng, decimals: u8, out: &mut Line)
    requires { length out.old + 60 ≤ LINE_ROOM }
    ensures text { out.new ≡ out.old ++ Spec.count_text v.count decimals }
    ensures room { length out.new ≤ length out.old + 60 }
{
    let places = decimals.min(DECIMALS);
    let magnitude = rounded(v.count.unsigned_abs(), power(u32::from(DECIMALS - places)));
    if v.count < 0 && magnitude > 0 {
        out.add(b"-");
    }
    write_pointed(magnitude, places, out);
}
