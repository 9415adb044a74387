ghost use Rattle.std.specs.Prelude.{◌≡◌, ◌≤◌, ◌+◌, ◌++◌, [], Option, Some, None, option_map, option_and_then, length, IfOk, IfSome, OnOk, OnErr};
ghost use Rattle.std.specs.Option.{option_copied};
ghost use Rattle.mib_model.specs.Fixed.{most_values, occurrences, values_at};
ghost use Rattle.mib_model.specs.Layouts.{item_named, item_encoding, layout_places};
ghost use Rattle.bit_field.specs.Taken.{taken, HasSlots, KeepsSlots};
ghost use Rattle.layout_plan.specs.Readings.{Reads};
ghost use Rattle.layout_plan.specs.Spans.{span_places, spans_places};
ghost use Rattle.layout_plan.specs.Stops.{ended_at};

use crate::span::{Span, SpanStop};
use bit_field::{Values, shape_of};
use first_rows::FirstRows;
use mib_model::{Ended, PidRow, PlfRow, Shape, Steps, TypeItem};
use row_keys::ByName;
use std::alloc::{AllocError, Global};
use std::marker::Model;
use std::snapshot::Snapshot;
use std::sync::ledger::Ledger;

/// The rows of a packet of fixed layout, compiled. Contracts see the rows.
#[derive(Drop)]
pub struct Layout {
    spans: Vec<Span>,
    pid: Snapshot<PidRow>,
    plfs: Snapshot<Vec<PlfRow>>,
    types: Snapshot<Vec<TypeItem>>,
}

impl Model for Layout {
    ghost use Rattle.std.specs.Prelude.{◌≡◌};
    ghost use Rattle.mib_model.specs.Layouts.{layout_places};
    ghost use Rattle.layout_plan.specs.Slices.{LayoutRows};
    ghost use Rattle.layout_plan.specs.Readings.{Reads};
    ghost use Rattle.layout_plan.specs.Spans.{spans_places};

    ghost Value = { LayoutRows };

    ghost view = { λ layout. record { pid = layout.pid.value; plfs = layout.plfs.value.items; types = layout.types.value.items } };

    ghost invariant = { λ layout. spans_places layout.spans.items ≡ layout_places layout.plfs.value.items layout.types.value.items };
}

// What the bits of a measured parameter's values are, by its type item.
fn shape_by(item: Option<&TypeItem>) -> Option<Shape>
    ensures { result ≡ option_and_then item_encoding (option_copied item.entry) }
{
    let item = item?;
    if !item.is_measured() {
        return None;
    }
    shape_of(item.ptc, item.pfc, item.endian)
}

// Adds the occurrences of a row, if its parameter has values.
fn add_row(
    spans: &mut Vec<Span>,
    row: &PlfRow,
    types: &FirstRows<ByName<TypeItem>>,
) -> Result<(), AllocError>
    ensures { OnOk result (spans_places spans.new.items ≡ spans_places spans.old.items
        ++ occurrences row.now (option_and_then item_encoding (item_named types.now row.now.name))) }
{
    match shape_by(types.find(&row.name)) {
        Some(shape) if row.nbocc > 0 => spans.push(Span::new(row, shape))?,
        _ => {}
    }
    Ok(())
}

// The occurrences of the rows whose parameters have values.
fn spans_of(
    alloc: Global,
    plfs: &[PlfRow],
    types: &FirstRows<ByName<TypeItem>>,
) -> Result<Vec<Span>, AllocError>
    ensures { IfOk result (λ spans. spans_places spans.items ≡ layout_places plfs.now types.now) }
{
    let mut spans = Vec::with_capacity(alloc, plfs.len())?;
    for row in plfs {
        add_row(&mut spans, row, types)?;
    }
    Ok(spans)
}

// Reads the values at the places of spans; where they stop before the last of them, tells why, and in which span.
#[inline(always)]
fn read_spans<'a>(
    spans: &'a [Span],
    packet: &[u8],
    values: &mut Values,
) -> Option<(SpanStop, &'a Span)>
    requires slots { HasSlots values.old }
    ensures reads { Reads packet.now (spans_places spans.now) (option_map (λ stopped. ended_at stopped.1.now.name stopped.0) result) values.old values.new }
    ensures stays { KeepsSlots values.old values.new }
{
    for span in spans {
        if let Some(stop) = span.read(packet, values) {
            return Some((stop, span));
        }
    }
    None
}

// Reads them by values of its own, which the loop may keep in registers.
#[inline(never)]
fn read_apart<'a>(
    spans: &'a [Span],
    packet: &[u8],
    values: &mut Values,
) -> Option<(SpanStop, &'a Span)>
    requires slots { HasSlots values.old }
    ensures reads { Reads packet.now (spans_places spans.now) (option_map (λ stopped. ended_at stopped.1.now.name stopped.0) result) values.old values.new }
    ensures stays { KeepsSlots values.old values.new }
{
    let mut own = Values {
        slots: &mut *values.slots,
        used: values.used,
    };
    let stopped = read_spans(spans, packet, &mut own);
    values.used = own.used;
    stopped
}

impl Layout {
    /// Compiles a packet's row of pid, its rows of plf in file order and the type items of their names, in one step.
    /// An error is want of memory, and takes no step.
    pub fn compile<L: Ledger>(
        alloc: Global,
        pid: &PidRow,
        plfs: &[PlfRow],
        types: &[TypeItem],
        steps: &mut Steps<L>,
    ) -> Result<Layout, AllocError>
        ensures rows { IfOk result (λ layout. layout ≡ record { pid = pid.now; plfs = plfs.now; types = types.now }) }
        ensures step { OnOk result (steps.new ≡ steps.old + 1) }
        ensures refused { OnErr result (steps.new ≡ steps.old) }
    {
        let rows = Vec::from_slice(alloc, plfs)?;
        let items = Vec::from_slice(alloc, types)?;
        let spans = spans_of(alloc, &rows, &FirstRows::new(alloc, &items)?)?;
        steps.tick();
        Ok(Layout {
            spans,
            pid: Snapshot::of(pid),
            plfs: Snapshot::of(&rows),
            types: Snapshot::of(&items),
        })
    }

    /// The values of a packet, in the order of the rows, and how they end: before the 8,193rd, or before the first whose
    /// bits aren't in the packet. It takes no memory.
    #[inline(always)]
    pub fn extract(&self, packet: &[u8], values: &mut Values) -> Ended
        requires slots { length values.old.slots.now ≡ most_values }
        requires used { values.old.used ≡ 0 }
        ensures values { (taken values.new, result) ≡ values_at packet.now (layout_places self.now.plfs self.now.types) }
        ensures stays { KeepsSlots values.old values.new }
    {
        match read_apart(&self.spans, packet, values) {
            Some((stop, span)) => stop.ended(span.name()),
            None => Ended::Whole,
        }
    }
}
