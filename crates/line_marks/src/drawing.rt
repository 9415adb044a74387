// How the line of a value is drawn ahead.
ghost use Rattle.std.specs.Prelude.{◌≡◌, ◌≤◌, ◌+◌, ◌++◌, ◌≤ℤ◌, length, option_map, true};
ghost use Rattle.std.specs.List.{position};
ghost use Rattle.std.specs.Str.{bytes_eq};
ghost use Rattle.check_plan.specs.Samples.{sample_of};
ghost use Rattle.param_state.specs.ParamPlans.{IsParamsOf, IsSliceOf};
ghost use Rattle.param_state.specs.FinishedValues.{IsRaw};
ghost use Rattle.line_marks.specs.Marks.{IsMarked, IsSettled, IsShown, IsMarkOf, behind};
ghost use Rattle.mib_model.specs.Bits.{is_inside};
ghost use Rattle.mib_model.specs.CalibrationViews.{calibrated_as};
ghost use Rattle.mib_model.specs.declared.database.Database.{Database};
ghost use Rattle.mib_model.specs.Kept.{has_number};
ghost use Rattle.mib_model.specs.Texts.{value_text};
ghost use Rattle.mib_model.specs.WholeNumbers.{least_raw, greatest_raw};
ghost use Rattle.record_text.specs.TailViews.{tail_as};
ghost use Rattle.record_text.specs.declared.lines.TheConstants.{LINES_ROOM, LINE_MOST, VALUE_ROOM};

use crate::mark::Mark;
use check_plan::{Checks, Nothing, Sample};
use mib_model::{Cal, Value};
use param_plan::{Param, Params};
use param_state::{is_raw, sample_for, tail_for};
use record_text::{Lines, Tail, begin_value, end_value};

// The mark of a sample that is checked.
#[inline(always)]
fn mark_of(checks: &Checks, sample: Sample) -> Mark
    ensures { IsMarkOf checks.now (sample_of sample.entry) result }
{
    match sample {
        Sample::Number(number) if checks.is_nominal(sample) => Mark::Nominal(number),
        _ => Mark::Open,
    }
}

// The mark of a value that has a number, by what a curve makes of it.
#[inline(always)]
fn checked_mark(plan: &Param, value: &Value, given: Option<Cal<'_>>) -> Mark
    requires low { least_raw ≤ℤ value.now.raw }
    requires high { value.now.raw ≤ℤ greatest_raw }
    ensures { (db : Database) → IsSliceOf db value.now.name plan.now → has_number value.now.shape.sort ≡ true
        → IsMarked db value.now (option_map calibrated_as given.entry) result }
{
    let Some(checks) = plan.checks() else {
        return Mark::Told;
    };
    match sample_for(checks, value.raw, given) {
        Some(sample) => mark_of(checks, sample),
        None => Mark::Told,
    }
}

// Appends the line of a value with its tail.
#[tactic(auto, unfolding(mib_model::specs::Texts::value_text))]
#[inline(always)]
fn draw_line(value: &Value, packet: &[u8], tail: &Tail<'_>, out: &mut Lines)
    requires inside { is_inside packet.now value.now.at value.now.shape.width ≡ true }
    requires room { length out.old + VALUE_ROOM + LINE_MOST ≤ LINES_ROOM }
    ensures text { out.new ≡ out.old ++ value_text value.now packet.now (tail_as tail.now) }
    ensures room { length out.new ≤ length out.old + VALUE_ROOM }
{
    begin_value(value, packet, out);
    end_value(tail, out);
}

// Draws the line of a value that has a number, by its settled plan, where the line doesn't depend on what is kept.
#[inline(always)]
fn draw_checked(plan: &Param, value: &Value, packet: &[u8], out: &mut Lines) -> Mark
    requires low { least_raw ≤ℤ value.now.raw }
    requires high { value.now.raw ≤ℤ greatest_raw }
    requires inside { is_inside packet.now value.now.at value.now.shape.width ≡ true }
    requires room { length out.old + VALUE_ROOM + LINE_MOST ≤ LINES_ROOM }
    ensures shown { (db : Database) → IsSliceOf db value.now.name plan.now → IsSettled plan.now → has_number value.now.shape.sort ≡ true
        → IsShown db packet.now value.now (result, behind out.old out.new) }
    ensures added { out.new ≡ out.old ++ behind out.old out.new }
    ensures open { result ≡ Mark.Open → out.new ≡ out.old }
    ensures room { length out.new ≤ length out.old + VALUE_ROOM }
{
    let given = plan.calibrate(value.raw, &Nothing);
    let mark = checked_mark(plan, value, given);
    if !matches!(mark, Mark::Open) {
        draw_line(value, packet, &tail_for(plan.decimals(), given), out);
    }
    mark
}

// Draws the line of a value by its plan, where the line doesn't depend on what is kept.
#[inline(always)]
fn draw_value(plan: &Param, value: &Value, packet: &[u8], out: &mut Lines) -> Mark
    requires inside { is_inside packet.now value.now.at value.now.shape.width ≡ true }
    requires room { length out.old + VALUE_ROOM + LINE_MOST ≤ LINES_ROOM }
    ensures shown { (db : Database) → IsSliceOf db value.now.name plan.now → IsRaw value.now
        → IsShown db packet.now value.now (result, behind out.old out.new) }
    ensures added { out.new ≡ out.old ++ behind out.old out.new }
    ensures open { result ≡ Mark.Open → out.new ≡ out.old }
    ensures room { length out.new ≤ length out.old + VALUE_ROOM }
{
    if !plan.is_settled() {
        return Mark::Open;
    }
    if is_raw(value) {
        return draw_checked(plan, value, packet, out);
    }
    draw_line(value, packet, &Tail::Plain, out);
    Mark::Told
}

/// Draws the line of a value whose plan has a place among the plans, where the line doesn't depend on what is kept.
#[inline(always)]
pub fn draw_at(
    params: &Params,
    place: Option<usize>,
    value: &Value,
    packet: &[u8],
    out: &mut Lines,
) -> Mark
    requires inside { is_inside packet.now value.now.at value.now.shape.width ≡ true }
    requires room { length out.old + VALUE_ROOM + LINE_MOST ≤ LINES_ROOM }
    ensures shown { (db : Database) → IsParamsOf db params.now → IsRaw value.now
        → place ≡ position (λ slice. bytes_eq slice.pcf.name value.now.name) params.now
        → IsShown db packet.now value.now (result, behind out.old out.new) }
    ensures added { out.new ≡ out.old ++ behind out.old out.new }
    ensures open { result ≡ Mark.Open → out.new ≡ out.old }
    ensures room { length out.new ≤ length out.old + VALUE_ROOM }
{
    let Some(at) = place else {
        return Mark::Open;
    };
    if at >= params.len() {
        return Mark::Open;
    }
    draw_value(params.plan(at), value, packet, out)
}
