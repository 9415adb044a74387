// The numbers of values, what is checked of them, and what their lines end with.
ghost use Rattle.std.specs.Prelude.{◌≡◌, ◌≤ℤ◌, ◌&&◌, int_le, option_map};
ghost use Rattle.check_plan.specs.Samples.{sample_of};
ghost use Rattle.param_state.specs.FinishedValues.{IsRaw, bare_value, one_octet, signed_octet};
ghost use Rattle.mib_model.specs.CalibrationViews.{calibrated_as};
ghost use Rattle.mib_model.specs.Counts as Counts;
ghost use Rattle.mib_model.specs.Finish as Spec;
ghost use Rattle.mib_model.specs.Kept.{has_number};
ghost use Rattle.mib_model.specs.WholeNumbers.{least_raw, greatest_raw};
ghost use Rattle.record_text.specs.TailViews.{tail_as};

use check_plan::{Checks, Sample};
use mib_model::{Cal, Eng, Name, Order, RAW_LEAST, RAW_MOST, Shape, Sort, Value};
use record_text::Tail;

// Whether values of a sort have raw numbers.
fn has_number(sort: Sort) -> bool
    ensures { result ≡ has_number sort }
{
    matches!(sort, Sort::Unsigned | Sort::Signed)
}

// Whether a number that isn't a word of 64 bits is a raw number.
#[inline(never)]
fn is_low_number(number: i128) -> bool
    ensures { result ≡ (int_le least_raw number && int_le number greatest_raw) }
{
    RAW_LEAST <= number && number <= RAW_MOST
}

// Whether a number is a raw number, as nearly all are that aren't below zero.
fn is_raw_number(number: i128) -> bool
    ensures { result ≡ (int_le least_raw number && int_le number greatest_raw) }
{
    match u64::try_from(number) {
        Ok(_) => true,
        Err(_) => is_low_number(number),
    }
}

/// Whether a value has a number, and that one is a raw number.
pub fn is_raw(value: &Value) -> bool
    ensures value { result ≡ (has_number value.now.shape.sort && (int_le least_raw value.now.raw && int_le value.now.raw greatest_raw)) }
    ensures number { IsRaw value.now → result ≡ has_number value.now.shape.sort }
{
    has_number(value.shape.sort()) && is_raw_number(value.raw)
}

// The count of a raw number.
fn raw_count(raw: i128) -> Eng
    requires low { least_raw ≤ℤ raw }
    requires high { raw ≤ℤ greatest_raw }
    ensures { result.count ≡ Counts.raw_count raw }
{
    Eng {
        count: raw * 1_000_000_000_000,
    }
}

// What a calibration leaves to check.
fn converted(raw: i128, given: Option<Cal<'_>>) -> Option<Sample<'_>>
    requires low { least_raw ≤ℤ raw }
    requires high { raw ≤ℤ greatest_raw }
    ensures { option_map sample_of result ≡ Spec.converted raw (option_map calibrated_as given.entry) }
{
    match given {
        None => Some(Sample::Number(raw_count(raw))),
        Some(Cal::Value(number)) => Some(Sample::Number(number)),
        Some(Cal::Text(text)) => Some(Sample::Text(text)),
        Some(_) => None,
    }
}

/// What is checked of a raw number: with INTER `U` it, else what its calibration leaves (SCOS-2000 Database Import ICD, ocf).
pub fn sample_for<'a>(checks: &Checks, raw: i128, given: Option<Cal<'a>>) -> Option<Sample<'a>>
    requires low { least_raw ≤ℤ raw }
    requires high { raw ≤ℤ greatest_raw }
    ensures { option_map sample_of result ≡ Spec.sample_for checks.now.ocf raw (option_map calibrated_as given.entry) }
{
    if checks.inter() == b'U' {
        Some(Sample::Number(raw_count(raw)))
    } else {
        converted(raw, given)
    }
}

/// The tail of a valid value, for so many decimals.
#[inline(always)]
pub fn tail_for<'a>(decimals: u8, given: Option<Cal<'a>>) -> Tail<'a>
    ensures { tail_as result ≡ Spec.tail_for decimals (option_map calibrated_as given.entry) }
{
    match given {
        Some(cal) => Tail::Given { cal, decimals },
        None => Tail::Plain,
    }
}

// The shape of a value with a raw number.
#[inline(always)]
fn signed_octet() -> Shape
    ensures { result ≡ signed_octet }
{
    Shape::new(Sort::Signed, 8, Order::Big)
}

// The shape of a value without one.
#[inline(always)]
fn one_octet() -> Shape
    ensures { result ≡ one_octet }
{
    Shape::new(Sort::Octets, 8, Order::Big)
}

/// A value of a name with a raw number or none.
#[inline(always)]
pub fn bare_value(name: Name, raw: Option<i128>) -> Value
    ensures { result ≡ bare_value name raw }
{
    match raw {
        Some(raw) => Value {
            name,
            at: 0,
            raw,
            shape: signed_octet(),
        },
        None => Value {
            name,
            at: 0,
            raw: 0,
            shape: one_octet(),
        },
    }
}
