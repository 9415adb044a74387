// A walk over the rows of structures.
ghost use Rattle.std.specs.Prelude.{◌≡◌, ◌≤◌, ◌<◌, ◌+◌, ◌+ℤ◌, ◌^◌, ◌++◌, ◌∷◌, [], length, nat_abs, pos, IfOk, OnOk};
ghost use Rattle.std.specs.List.{All};
ghost use Rattle.mib_model.specs.Fixed.{most_values};
ghost use Rattle.mib_model.specs.Structures.{structure};
ghost use Rattle.mib_model.specs.Walk as Spec;
ghost use Rattle.row_interpreter.specs.Readings.{IsOf};
ghost use Rattle.row_searches.specs.Nesting.{AreNested};
ghost use Rattle.row_walk.specs.Walks.{led, with_rows};

use crate::subject::{moved_by, times, typed_subject, value_at};
use crate::to_walk::RowsToWalk;
use mib_model::{Ended, MOST_VALUES, PcfRow, Shape, Value, VpdRow};
use row_searches::RowSearches;
use std::alloc::{AllocError, Global};
use std::marker::Model;

/// A walk: the rows that are still to walk, the bit that it stands at, the last PIDREF value, and the values so far.
#[derive(Drop)]
struct Walk<'a> {
    todo: RowsToWalk<'a>,
    cursor: i128,
    last: i128,
    values: Vec<Value>,
}

impl<'a> Model for Walk<'a> {
    ghost use Rattle.mib_model.specs.Walk.{Walking};

    ghost Value = { Walking };

    ghost view = { λ walk. record { todo = walk.todo; cursor = walk.cursor; last = walk.last; values = walk.values.items } };
}

impl<'a> Walk<'a> {
    // The walk goes on in the structure of a choice, if there is one.
    fn choose(&mut self, rows: &'a RowSearches, raw: i128) -> Result<Option<Ended>, AllocError>
        ensures step { IfOk result (λ ended. Spec.chosen self.old raw (structure rows.now raw) ≡ led ended self.new) }
        ensures cursor { self.new.cursor ≡ self.old.cursor }
        ensures values { self.new.values ≡ self.old.values }
    {
        let chosen = rows.structure(raw);
        if chosen.is_empty() {
            return Ok(Some(Ended::NoStructure { tpsd: raw }));
        }
        self.todo.clear();
        self.todo.add(chosen, 1)?;
        Ok(None)
    }

    // The walk behind the value of a row goes on as the row says: in a structure, in a group, or in the rows behind it.
    fn go_on(
        &mut self,
        rows: &'a RowSearches,
        row: &VpdRow,
        rest: &'a [VpdRow],
        raw: i128,
    ) -> Result<Option<Ended>, AllocError>
        requires { AreNested (row.now ∷ rest.now) }
        ensures step { IfOk result (λ ended. Spec.after_value rows.now row.now (rest.now ++ self.old.todo) raw (with_rows rest.now self.old)
            ≡ led ended self.new) }
        ensures cursor { self.new.cursor ≡ self.old.cursor }
        ensures values { self.new.values ≡ self.old.values }
    {
        if row.choice == b'Y' {
            return self.choose(rows, raw);
        }
        if row.grpsize != 0 {
            self.todo.add_group(row.grpsize, times(raw), rest)?;
            return Ok(None);
        }
        if row.pidref == b'Y' {
            self.last = raw;
        }
        self.todo.add(rest, 1)?;
        Ok(None)
    }

    // Moves the cursor by the OFFSET of a row.
    fn move_by(&mut self, row: &VpdRow)
        requires { nat_abs self.old.cursor < 2 ^ 120 }
        ensures { self.new ≡ record { todo = self.old.todo; cursor = self.old.cursor +ℤ row.now.offset; last = self.old.last; values = self.old.values } }
    {
        self.cursor += i128::from(row.offset);
    }

    // Takes a value, and stands behind it.
    fn take(&mut self, value: Value, moved: u32) -> Result<(), AllocError>
        requires { nat_abs self.old.cursor < 2 ^ 120 }
        ensures { OnOk result (self.new ≡ record {
          todo = self.old.todo;
          cursor = self.old.cursor +ℤ pos moved;
          last = self.old.last;
          values = self.old.values ++ value ∷ [];
        }) }
    {
        self.cursor += i128::from(moved);
        self.values.push(value)?;
        Ok(())
    }

    // The value of a parameter where the walk stands, and what follows; or how the values end.
    fn give(
        &mut self,
        rows: &'a RowSearches,
        packet: &[u8],
        row: &VpdRow,
        rest: &'a [VpdRow],
        parameter: &PcfRow,
        shape: Shape,
    ) -> Result<Option<Ended>, AllocError>
        requires short { length packet.now ≤ 65542 }
        requires nested { AreNested (row.now ∷ rest.now) }
        requires reach { nat_abs self.old.cursor < 2 ^ 120 }
        requires few { length self.old.values ≤ most_values }
        requires all { All (IsOf packet.now) self.old.values }
        ensures step { IfOk result (λ ended. Spec.try_value rows.now packet.now row.now (rest.now ++ self.old.todo) self.old (parameter.now, shape)
            ≡ led ended self.new) }
        ensures reach { IfOk result (λ _. nat_abs self.new.cursor ≤ nat_abs self.old.cursor + 2 ^ 32) }
        ensures few { IfOk result (λ _. length self.new.values ≤ most_values) }
        ensures all { IfOk result (λ _. All (IsOf packet.now) self.new.values) }
    {
        if self.values.len() == MOST_VALUES as usize {
            return Ok(Some(Ended::Many));
        }
        let name = parameter.name;
        let Some(value) = value_at(packet, self.cursor, name, shape) else {
            return Ok(Some(Ended::Short { name }));
        };
        let raw = value.raw;
        self.take(value, moved_by(parameter, shape))?;
        self.go_on(rows, row, rest, raw)
    }

    // A row where the walk stands: one with FIXREP repeats its group, another one gives a value of its parameter.
    fn on_row(
        &mut self,
        rows: &'a RowSearches,
        packet: &[u8],
        row: &VpdRow,
        rest: &'a [VpdRow],
    ) -> Result<Option<Ended>, AllocError>
        requires short { length packet.now ≤ 65542 }
        requires nested { AreNested (row.now ∷ rest.now) }
        requires reach { nat_abs self.old.cursor < 2 ^ 120 }
        requires few { length self.old.values ≤ most_values }
        requires all { All (IsOf packet.now) self.old.values }
        ensures step { IfOk result (λ ended. Spec.on_row rows.now packet.now row.now (rest.now ++ self.old.todo) self.old ≡ led ended self.new) }
        ensures reach { IfOk result (λ _. nat_abs self.new.cursor ≤ nat_abs self.old.cursor + 2 ^ 32) }
        ensures few { IfOk result (λ _. length self.new.values ≤ most_values) }
        ensures all { IfOk result (λ _. All (IsOf packet.now) self.new.values) }
    {
        if row.fixrep != 0 {
            self.todo
                .add_group(row.grpsize, u128::from(row.fixrep), rest)?;
            return Ok(None);
        }
        match typed_subject(rows, self.last, row) {
            Some((parameter, shape)) => self.give(rows, packet, row, rest, &parameter, shape),
            None => Ok(Some(Ended::NoParameter { pid: self.last })),
        }
    }

    // One step: the next row, behind its OFFSET, or the end.
    #[tactic(auto, unfolding(mib_model::specs::Walk::step))]
    fn step(&mut self, rows: &'a RowSearches, packet: &[u8]) -> Result<Option<Ended>, AllocError>
        requires short { length packet.now ≤ 65542 }
        requires reach { nat_abs self.old.cursor < 2 ^ 119 }
        requires few { length self.old.values ≤ most_values }
        requires all { All (IsOf packet.now) self.old.values }
        ensures step { IfOk result (λ ended. Spec.step rows.now packet.now self.old ≡ led ended self.new) }
        ensures reach { IfOk result (λ _. nat_abs self.new.cursor ≤ nat_abs self.old.cursor + 2 ^ 33) }
        ensures few { IfOk result (λ _. length self.new.values ≤ most_values) }
        ensures all { IfOk result (λ _. All (IsOf packet.now) self.new.values) }
    {
        let (row, rest) = match self.todo.next() {
            Ok(Some(next)) => next,
            Ok(None) => return Ok(Some(Ended::Whole)),
            Err(want) => return Err(want),
        };
        self.move_by(&row);
        self.on_row(rows, packet, &row, rest)
    }
}

// A walk at its start: all rows of the structure, behind the primary header and DFHSIZE octets.
fn start(alloc: Global, rows: &RowSearches, tpsd: i128, dfhsize: u8) -> Result<Walk<'_>, AllocError>
    ensures { IfOk result (λ walk. walk ≡ Spec.walk_start rows.now tpsd dfhsize) }
{
    let mut todo = RowsToWalk::new(alloc);
    todo.add(rows.structure(tpsd), 1)?;
    Ok(Walk {
        todo,
        cursor: 8 * (6 + i128::from(dfhsize)),
        last: 0,
        values: Vec::new(alloc),
    })
}

/// The values of a packet of a structure, and how they end. An error is want of memory.
pub fn structure_values(
    alloc: Global,
    rows: &RowSearches,
    tpsd: i128,
    dfhsize: u8,
    packet: &[u8],
) -> Result<(Vec<Value>, Ended), AllocError>
    requires { length packet.now ≤ 65542 }
    ensures values { IfOk result (λ read. (read.0.items, read.1) ≡ Spec.structure_values rows.now tpsd dfhsize packet.now) }
    ensures few { IfOk result (λ read. length read.0.items ≤ most_values) }
    ensures all { IfOk result (λ read. All (IsOf packet.now) read.0.items) }
{
    let mut walk = start(alloc, rows, tpsd, dfhsize)?;
    for _ in 0..rows.walk_limit() {
        if let Some(ended) = walk.step(rows, packet)? {
            return Ok((walk.values, ended));
        }
    }
    Ok((Vec::new(alloc), Ended::Whole))
}
