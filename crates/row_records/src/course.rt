// The records of packets, one after the other.
ghost use Rattle.std.specs.Prelude.{◌≡◌, ◌≤◌, ◌+◌, ◌++◌, [], length, OnOk};
ghost use Rattle.mib_model.specs.Headers.{header_of};
ghost use Rattle.mib_model.specs.Interpreter as Spec;
ghost use Rattle.mib_model.specs.Match.{match_of};
ghost use Rattle.mib_model.specs.Texts.{edition_text_of, head_text, record_text};
ghost use Rattle.record_text.specs.declared.lines.TheConstants.{HEAD_ROOM, LINES_ROOM, LINE_MOST, NOTE_ROOM};
ghost use Rattle.row_interpreter.specs.Memories.{memory_of};
ghost use Rattle.row_records.specs.Stamps.{course_of, stamped_as, values_text};

use crate::carry::carried;
use crate::entering::enter_all;
use crate::telling::tell_all;
use crate::values::values_of;
use mib_model::{Found, Header};
use record_text::{Lines, edition_line, ended_line, head_line};
use row_interpreter::Memory;
use row_searches::RowSearches;
use std::alloc::{AllocError, Global};

/// A packet with its header, its number, its edition and the rows of that edition.
#[derive(Clone, Copy)]
pub struct Stamped<'p, 'a> {
    pub number: u64,
    pub header: &'p Header,
    pub packet: &'p [u8],
    pub edition: u32,
    pub rows: &'a RowSearches,
}

/// Where the interpretation of packets stands: what is kept, and the edition of the packet before, with its rows.
#[derive(Drop)]
pub struct Course<'a> {
    memory: Memory,
    edition: u32,
    rows: &'a RowSearches,
}

// Appends the head line of a packet.
fn tell_head(stamped: &Stamped<'_, '_>, found: &Found, out: &mut Lines)
    requires header { stamped.now.header.now ≡ header_of stamped.now.packet.now }
    requires room { length out.old + LINE_MOST ≤ LINES_ROOM }
    ensures text { out.new ≡ out.old ++ head_text stamped.now.number (header_of stamped.now.packet.now) found.now
        (Spec.title_of stamped.now.rows.now found.now) }
    ensures room { length out.new ≤ length out.old + HEAD_ROOM }
{
    let title = stamped.rows.title(found);
    head_line(stamped.number, stamped.header, found, title, out);
}

// Enters the raw numbers of a packet's values, finishes these and appends their lines, and the line of how they end.
fn tell_values(
    alloc: Global,
    stamped: &Stamped<'_, '_>,
    found: &Found,
    memory: &mut Memory,
    out: &mut Lines,
) -> Result<(), AllocError>
    requires short { length stamped.now.packet.now ≤ 65542 }
    requires found { found.now ≡ match_of stamped.now.rows.now stamped.now.packet.now }
    requires room { length out.old ≤ NOTE_ROOM + HEAD_ROOM }
    ensures memory { OnOk result (memory_of memory.new ≡ (Spec.finished_for (stamped_as stamped.now) (memory_of memory.old)).0) }
    ensures text { OnOk result (out.new ≡ out.old ++ values_text (stamped_as stamped.now) (memory_of memory.old)) }
{
    let (values, ended) = values_of(alloc, stamped.rows, stamped.packet, found)?;
    enter_all(memory, &values)?;
    tell_all(alloc, stamped.rows, stamped.packet, memory, &values, out)?;
    ended_line(&ended, out);
    Ok(())
}

impl<'a> Course<'a> {
    /// Before the first packet nothing is kept, and edition 1 counts as the one before.
    pub fn new(alloc: Global, first: &'a RowSearches) -> Course<'a>
        ensures { course_of result ≡ Spec.start first.now }
    {
        Course {
            memory: Memory::new(alloc),
            edition: 1,
            rows: first,
        }
    }

    // Where a packet has another edition than the one before, appends the edition's line and carries over what is kept.
    #[tactic(auto, unfolding(mib_model::specs::Interpreter::record_for))]
    fn turn(
        &mut self,
        alloc: Global,
        stamped: &Stamped<'_, 'a>,
        out: &mut Lines,
    ) -> Result<(), AllocError>
        requires { out.old ≡ [] }
        ensures memory { OnOk result (memory_of self.new.memory ≡ Spec.memory_for (course_of self.old) (stamped_as stamped.now)) }
        ensures edition { OnOk result (self.new.edition ≡ self.old.edition) }
        ensures text { OnOk result (out.new ≡ edition_text_of (Spec.record_for (course_of self.old) (stamped_as stamped.now)).edition) }
        ensures room { OnOk result (length out.new ≤ NOTE_ROOM) }
    {
        if stamped.edition == self.edition {
            return Ok(());
        }
        edition_line(stamped.edition, out);
        self.memory = carried(alloc, &self.memory, self.rows, stamped.rows)?;
        Ok(())
    }

    /// Appends the record of the next packet to a text that is empty. An error is want of memory.
    pub fn take(
        &mut self,
        alloc: Global,
        stamped: &Stamped<'_, 'a>,
        out: &mut Lines,
    ) -> Result<(), AllocError>
        requires header { stamped.now.header.now ≡ header_of stamped.now.packet.now }
        requires short { length stamped.now.packet.now ≤ 65542 }
        requires empty { out.old ≡ [] }
        ensures course { OnOk result (course_of self.new ≡ Spec.course_after (course_of self.old) (stamped_as stamped.now)) }
        ensures text { OnOk result (out.new ≡ record_text (Spec.record_for (course_of self.old) (stamped_as stamped.now))) }
    {
        self.turn(alloc, stamped, out)?;
        let found = stamped.rows.matched(stamped.header, stamped.packet);
        tell_head(stamped, &found, out);
        tell_values(alloc, stamped, &found, &mut self.memory, out)?;
        self.edition = stamped.edition;
        self.rows = stamped.rows;
        Ok(())
    }
}
