// How a sample stands to the checks of its parameter.
ghost use Rattle.std.specs.Prelude.{◌≡◌, ◌==◌, ◌&&◌, ◌-ℤ◌, int_lt, not};
ghost use Rattle.std.specs.List.{list_any};
ghost use Rattle.mib_model.specs.Checks as Spec;
ghost use Rattle.mib_model.specs.Decimals.{dec_of};
ghost use Rattle.row_interpreter.specs.Memories.{memory_of};
ghost use Rattle.row_interpreter.specs.Samples.{sample_as};

use crate::memory::Memory;
use crate::sample::Checked;
use dec_num::{eng_of, read_dec};
use mib_model::{Bound, Class, OcpRow, Text};

// Whether a count is below a bound; one that is empty or a text doesn't bind.
fn is_below(bound: &Bound, count: i128) -> bool
    ensures { result ≡ Spec.is_below bound.now count }
{
    match bound {
        Bound::Number(d) => count < eng_of(*d).count,
        _ => false,
    }
}

// Whether a count is above a bound; one that is empty or a text doesn't bind.
fn is_above(bound: &Bound, count: i128) -> bool
    ensures { result ≡ Spec.is_above bound.now count }
{
    match bound {
        Bound::Number(d) => eng_of(*d).count < count,
        _ => false,
    }
}

// Whether the step from one count to another is below a count, also where it passes 128 bits.
fn is_step_under(low: i128, from: i128, to: i128) -> bool
    ensures { result ≡ int_lt (to -ℤ from) low }
{
    match to.checked_sub(from) {
        Some(step) => step < low,
        None => to < from,
    }
}

// Whether the step from one count to another is above a count, also where it passes 128 bits.
fn is_step_over(high: i128, from: i128, to: i128) -> bool
    ensures { result ≡ int_lt high (to -ℤ from) }
{
    match to.checked_sub(from) {
        Some(step) => high < step,
        None => from < to,
    }
}

// Whether the step from one count to another is below a bound.
fn is_step_below(bound: &Bound, from: i128, to: i128) -> bool
    ensures { result ≡ Spec.is_below bound.now (to -ℤ from) }
{
    match bound {
        Bound::Number(d) => is_step_under(eng_of(*d).count, from, to),
        _ => false,
    }
}

// Whether the step from one count to another is above a bound.
fn is_step_above(bound: &Bound, from: i128, to: i128) -> bool
    ensures { result ≡ Spec.is_above bound.now (to -ℤ from) }
{
    match bound {
        Bound::Number(d) => is_step_over(eng_of(*d).count, from, to),
        _ => false,
    }
}

// Whether a limit is violated: by a number out of its bounds, and by no text.
fn violates_limit(sample: Checked, row: &OcpRow) -> bool
    ensures { result ≡ Spec.violates_limit (sample_as sample.entry) row.now }
{
    match sample {
        Checked::Count(count) => is_below(&row.lvalu, count) || is_above(&row.hvalu, count),
        Checked::Words(_) => false,
    }
}

// Whether a delta is violated: by a number too far from the one before, and by no text.
fn violates_delta(previous: Option<i128>, sample: Checked, row: &OcpRow) -> bool
    ensures { result ≡ Spec.violates_delta previous (sample_as sample.entry) row.now }
{
    let (Some(from), Checked::Count(to)) = (previous, sample) else {
        return false;
    };
    is_step_below(&row.lvalu, from, to) || is_step_above(&row.hvalu, from, to)
}

// Whether a text reads as a decimal of a count.
fn is_count_of(count: i128, text: &Text) -> bool
    ensures { result ≡ Spec.is_count_of count (dec_of text.now) }
{
    match read_dec(text.bytes()) {
        Ok(d) => count == eng_of(d).count,
        Err(_) => false,
    }
}

// Whether a sample agrees with a state: a text by its octets, a number by its count.
fn agrees_with(sample: Checked, state: &Bound) -> bool
    ensures { result ≡ Spec.agrees_with (sample_as sample.entry) state.now }
{
    match (sample, state) {
        (Checked::Count(count), Bound::Words(text)) => is_count_of(count, text),
        (Checked::Words(words), Bound::Words(text)) => words == text,
        _ => false,
    }
}

// Whether a check applies: it has no condition, or its condition holds.
fn applies(memory: &Memory, row: &OcpRow) -> bool
    ensures { result ≡ Spec.applies (memory_of memory.now) row.now }
{
    memory.is_met(&row.rlchk, row.valpar)
}

// Whether a sample violates a limit of a type that applies.
fn any_limit(rows: &[OcpRow], sort: u8, sample: Checked, memory: &Memory) -> bool
    ensures { result ≡ list_any (λ row. Spec.applies (memory_of memory.now) row
        && ((row.sort == sort) && Spec.violates_limit (sample_as sample.entry) row)) rows.now }
{
    rows.iter().any(|row| applies(memory, row) && row.sort == sort && violates_limit(sample, row))
}

// Whether a state is expected.
fn any_state(rows: &[OcpRow], memory: &Memory) -> bool
    ensures { result ≡ list_any (λ row. Spec.applies (memory_of memory.now) row && Spec.is_status row) rows.now }
{
    rows.iter()
        .any(|row| applies(memory, row) && row.sort == b'C')
}

// Whether a sample agrees with a state that is expected.
fn any_agrees(rows: &[OcpRow], sample: Checked, memory: &Memory) -> bool
    ensures { result ≡ list_any (λ row. Spec.applies (memory_of memory.now) row
        && (Spec.is_status row && Spec.agrees_with (sample_as sample.entry) row.lvalu)) rows.now }
{
    rows.iter().any(|row| applies(memory, row)
        && row.sort == b'C'
        && agrees_with(sample, &row.lvalu))
}

// Whether states are expected and a sample agrees with none of them.
fn is_unexpected(rows: &[OcpRow], sample: Checked, memory: &Memory) -> bool
    ensures { result ≡ (list_any (λ row. Spec.applies (memory_of memory.now) row && Spec.is_status row) rows.now
        && not (list_any (λ row. Spec.applies (memory_of memory.now) row
        && (Spec.is_status row && Spec.agrees_with (sample_as sample.entry) row.lvalu)) rows.now)) }
{
    any_state(rows, memory) && !any_agrees(rows, sample, memory)
}

// Whether a sample violates a delta that applies.
fn any_delta(rows: &[OcpRow], sample: Checked, previous: Option<i128>, memory: &Memory) -> bool
    ensures { result ≡ list_any (λ row. Spec.applies (memory_of memory.now) row
        && (Spec.is_delta row && Spec.violates_delta previous (sample_as sample.entry) row)) rows.now }
{
    rows.iter().any(|row| {
        applies(memory, row) && row.sort == b'D' && violates_delta(previous, sample, row)
    })
}

/// The class of a sample by the checks of its parameter, the last checked number and the conditions: the first that holds of
/// Hard, Status, Delta and Soft, else Nominal.
pub fn class_of(rows: &[OcpRow], sample: Checked, previous: Option<i128>, memory: &Memory) -> Class
    ensures { result ≡ Spec.class_of rows.now (sample_as sample.entry) previous (memory_of memory.now) }
{
    if any_limit(rows, b'H', sample, memory) {
        Class::Hard
    } else if is_unexpected(rows, sample, memory) {
        Class::Status
    } else if any_delta(rows, sample, previous, memory) {
        Class::Delta
    } else if any_limit(rows, b'S', sample, memory) {
        Class::Soft
    } else {
        Class::Nominal
    }
}
