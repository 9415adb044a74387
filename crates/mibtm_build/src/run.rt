// The lines that ask for packets, one after the other.
ghost use Rattle.std.specs.Prelude.{◌≡◌, ◌+◌, length};
ghost use Rattle.build_rules.specs.Building.{octets_most};
ghost use Rattle.desk_lines.specs.ToCome.{reading_start};
ghost use Rattle.desk_lines.specs.Reader.{reading_of, source_of};
ghost use Rattle.desk_lines.specs.declared.reader.TheConstants.{LINE_ROOM};
ghost use Rattle.mibtm_build.specs.Runs.{Comes, Handles, HasAsksCause, HasOutCause, Ran, is_asks_fault, is_out_fault, standing_of};
ghost use Rattle.tm_io.specs.Causes.{RisesWhere};

use crate::code::BuildCode;
use crate::line::answer;
use build_rules::{BuildFault, Item};
use desk_lines::{DeskReader, NextLine};
use tm_build::Builder;
use tm_io::{Sink, Source, write_all};

// Answers the line of a number, and writes its packet. Where the run doesn't go on it tells how it ends.
fn handle<O: Sink>(
    builder: &mut Builder<'_>,
    number: u32,
    line: &[u8],
    items: &mut Vec<Item>,
    packet: &mut [u8],
    out: &mut O,
) -> Option<BuildCode>
    requires room { length packet.old ≡ octets_most }
    ensures handles { Handles result builder.old number line.now (O.written out.old) (O.written out.new) }
    ensures cause { HasOutCause result (O.faults out.old) (O.faults out.new) }
    ensures kept { builder.new ≡ builder.old }
    ensures handed { O.handed out.new ≡ O.handed out.old }
{
    match answer(builder, line, items, packet) {
        Ok(octets) => match write_all(out, &packet[..octets as usize]) {
            Ok(()) => None,
            Err(_) => Some(BuildCode::OutFault),
        },
        Err(BuildFault::Memory) => Some(BuildCode::Want),
        Err(fault) => Some(BuildCode::Refused {
            line: number,
            fault,
        }),
    }
}

// Answers the next line, which has this number.
fn next_line<D: Source, O: Sink>(
    builder: &mut Builder<'_>,
    number: u32,
    reader: &mut DeskReader<D>,
    line: &mut [u8],
    items: &mut Vec<Item>,
    packet: &mut [u8],
    out: &mut O,
) -> Option<BuildCode>
    requires number { number ≡ (reading_of reader.old).lines + 1 }
    requires line { length line.old ≡ LINE_ROOM }
    requires room { length packet.old ≡ octets_most }
    ensures comes { Comes result builder.old (standing_of D.left O.written reader.old out.old) (standing_of D.left O.written reader.new out.new) }
    ensures asks { HasAsksCause result (D.faults (source_of reader.old)) (D.faults (source_of reader.new)) }
    ensures cause { HasOutCause result (O.faults out.old) (O.faults out.new) }
    ensures kept { builder.new ≡ builder.old }
    ensures handed { O.handed out.new ≡ O.handed out.old }
    ensures missed { D.missed (source_of reader.new) ≡ D.missed (source_of reader.old) }
    ensures borrow { D.borrow (source_of reader.new) ≡ D.borrow (source_of reader.old) }
{
    match reader.next(line) {
        NextLine::Line { octets } => {
            let text = &line[..octets as usize];
            handle(builder, number, text, items, packet, out)
        }
        NextLine::TooLong => handle(builder, number, line, items, packet, out),
        NextLine::End => Some(BuildCode::Ok),
        NextLine::Limit => Some(BuildCode::Limit),
        NextLine::Failed => Some(BuildCode::DeskFault),
    }
}

/// Answers the lines of a reader that has read nothing, up to the first that is refused, and writes their packets.
pub(crate) fn run<D: Source, O: Sink>(
    builder: &mut Builder<'_>,
    reader: &mut DeskReader<D>,
    line: &mut [u8],
    items: &mut Vec<Item>,
    packet: &mut [u8],
    out: &mut O,
) -> BuildCode
    requires start { reading_of reader.old ≡ reading_start }
    requires line { length line.old ≡ LINE_ROOM }
    requires room { length packet.old ≡ octets_most }
    ensures ran { Ran result builder.old (D.left (source_of reader.old)) (D.left (source_of reader.new)) (O.written out.old) (O.written out.new) }
    ensures asks { RisesWhere (is_asks_fault result) (D.faults (source_of reader.old)) (D.faults (source_of reader.new)) }
    ensures cause { RisesWhere (is_out_fault result) (O.faults out.old) (O.faults out.new) }
    ensures handed { O.handed out.new ≡ O.handed out.old }
    ensures missed { D.missed (source_of reader.new) ≡ D.missed (source_of reader.old) }
    ensures borrow { D.borrow (source_of reader.new) ≡ D.borrow (source_of reader.old) }
{
    let mut number = 1;
    loop {
        if let Some(code) = next_line(builder, number, reader, line, items, packet, out) {
            return code;
        }
        number += 1;
    }
}
