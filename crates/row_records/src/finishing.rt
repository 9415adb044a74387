// How a value is finished: validity, calibration, check and alarm.
ghost use Rattle.std.specs.Prelude.{◌≡◌, ◌≤ℤ◌, Some, IfOk, option_map};
ghost use Rattle.mib_model.specs.CalibrationViews.{calibrated_as};
ghost use Rattle.mib_model.specs.Carry.{check_of};
ghost use Rattle.mib_model.specs.Counts as Counts;
ghost use Rattle.mib_model.specs.Finish as Spec;
ghost use Rattle.mib_model.specs.WholeNumbers.{greatest_raw, least_raw};
ghost use Rattle.record_text.specs.TailViews.{tail_as};
ghost use Rattle.row_interpreter.specs.Memories.{memory_of};
ghost use Rattle.row_interpreter.specs.Samples.{sample_as};

use crate::entering::has_number;
use mib_model::{Cal, Change, Name, OcfRow, PcfRow, Value};
use record_text::Tail;
use row_curves::calibrated;
use row_interpreter::{Checked, KeptOf, Memory, alarm_step, class_of};
use row_searches::RowSearches;
use std::alloc::{AllocError, Global};

// The count of a raw number.
fn raw_count(raw: i128) -> i128
    requires low { least_raw ≤ℤ raw }
    requires high { raw ≤ℤ greatest_raw }
    ensures { result ≡ Counts.raw_count raw }
{
    raw * 1_000_000_000_000
}

// What the curve of a parameter makes of a value, if the value has a number and there is a curve.
fn given_for<'a>(
    alloc: Global,
    rows: &'a RowSearches,
    row: &PcfRow,
    memory: &Memory,
    value: &Value,
) -> Result<Option<Cal<'a>>, AllocError>
    requires low { least_raw ≤ℤ value.now.raw }
    requires high { value.now.raw ≤ℤ greatest_raw }
    ensures { IfOk result (λ given. option_map calibrated_as given ≡ Spec.given_for rows.now row.now (memory_of memory.now) value.now) }
{
    if has_number(value.shape.sort()) {
        calibrated(alloc, rows, row, memory, value.raw)
    } else {
        Ok(None)
    }
}

// The tail of a valid value, for so many decimals.
fn tail_for<'a>(decimals: u8, given: Option<Cal<'a>>) -> Tail<'a>
    ensures { tail_as result ≡ Spec.tail_for decimals (option_map calibrated_as given.entry) }
{
    match given {
        Some(cal) => Tail::Given { cal, decimals },
        None => Tail::Plain,
    }
}

// What a calibration leaves to check, if it leaves anything.
fn converted<'a>(raw: i128, given: Option<Cal<'a>>) -> Option<Checked<'a>>
    requires low { least_raw ≤ℤ raw }
    requires high { raw ≤ℤ greatest_raw }
    ensures { option_map sample_as result ≡ Spec.converted raw (option_map calibrated_as given.entry) }
{
    match given {
        None => Some(Checked::Count(raw_count(raw))),
        Some(Cal::Value(value)) => Some(Checked::Count(value.count)),
        Some(Cal::Text(text)) => Some(Checked::Words(text)),
        Some(_) => None,
    }
}

// The sample of a checked value: with INTER `U` its raw number, else what its calibration leaves to check.
fn sample_for<'a>(check: &OcfRow, raw: i128, given: Option<Cal<'a>>) -> Option<Checked<'a>>
    requires low { least_raw ≤ℤ raw }
    requires high { raw ≤ℤ greatest_raw }
    ensures { option_map sample_as result ≡ Spec.sample_for check.now raw (option_map calibrated_as given.entry) }
{
    if check.inter == b'U' {
        Some(Checked::Count(raw_count(raw)))
    } else {
        converted(raw, given)
    }
}

// The last checked number after a sample.
fn previous_after(sample: Checked, previous: Option<i128>) -> Option<i128>
    ensures { result ≡ Spec.previous_after (sample_as sample.entry) previous }
{
    match sample {
        Checked::Count(count) => Some(count),
        Checked::Words(_) => previous,
    }
}

// Classes a sample, and takes a step of the alarm of its name.
fn check_sample(
    rows: &RowSearches,
    memory: &mut Memory,
    name: Name,
    check: &OcfRow,
    sample: Checked,
) -> Result<Option<Change>, AllocError>
    ensures { IfOk result (λ change. (memory_of memory.new, change)
        ≡ Spec.checked_sample rows.now (memory_of memory.old) name check.now (Some (sample_as sample.entry))) }
{
    let kept = memory.of(&name);
    let class = class_of(rows.limits(&name), sample, kept.previous, memory);
    let (spoken, run, change) = alarm_step(kept.spoken, kept.run, class, check.nbchck);
    let previous = previous_after(sample, kept.previous);
    memory.keep(
        name,
        KeptOf {
            latest: kept.latest,
            spoken,
            run,
            previous,
        },
    )?;
    Ok(change)
}

// Checks a value that has a number, where its parameter has a check.
fn check_value(
    rows: &RowSearches,
    memory: &mut Memory,
    value: &Value,
    given: Option<Cal<'_>>,
) -> Result<Option<Change>, AllocError>
    requires low { least_raw ≤ℤ value.now.raw }
    requires high { value.now.raw ≤ℤ greatest_raw }
    ensures { IfOk result (λ change. (memory_of memory.new, change)
        ≡ Spec.checked_by rows.now (memory_of memory.old) value.now (option_map calibrated_as given.entry) (check_of rows.now value.now.name)) }
{
    let Some(check) = rows.check(&value.name) else {
        return Ok(None);
    };
    if !has_number(value.shape.sort()) {
        return Ok(None);
    }
    match sample_for(check, value.raw, given) {
        Some(sample) => check_sample(rows, memory, value.name, check, sample),
        None => Ok(None),
    }
}

// Finishes a value of a parameter: a valid one is calibrated and checked.
fn finish_by<'a>(
    alloc: Global,
    rows: &'a RowSearches,
    memory: &mut Memory,
    value: &Value,
    row: &PcfRow,
) -> Result<(Tail<'a>, Option<Change>), AllocError>
    requires low { least_raw ≤ℤ value.now.raw }
    requires high { value.now.raw ≤ℤ greatest_raw }
    ensures { IfOk result (λ told. Spec.told value.now (tail_as told.0) (memory_of memory.new, told.1)
        ≡ Spec.finished_by rows.now (memory_of memory.old) value.now (Some row.now)) }
{
    if !memory.is_met(&row.valid, row.valpar) {
        return Ok((Tail::Invalid, None));
    }
    let given = given_for(alloc, rows, row, memory, value)?;
    let change = check_value(rows, memory, value, given)?;
    Ok((tail_for(row.decim, given), change))
}

/// Finishes a value: its tail, and the change that is told with it. An error is want of memory.
#[tactic(auto, unfolding(mib_model::specs::Finish::finished))]
pub(crate) fn finish<'a>(
    alloc: Global,
    rows: &'a RowSearches,
    memory: &mut Memory,
    value: &Value,
) -> Result<(Tail<'a>, Option<Change>), AllocError>
    requires low { least_raw ≤ℤ value.now.raw }
    requires high { value.now.raw ≤ℤ greatest_raw }
    ensures { IfOk result (λ told. Spec.told value.now (tail_as told.0) (memory_of memory.new, told.1)
        ≡ Spec.finished rows.now (memory_of memory.old) value.now) }
{
    match rows.parameter(&value.name) {
        Some(row) => finish_by(alloc, rows, memory, value, row),
        None => Ok((Tail::Plain, None)),
    }
}
