// The text of a page.
ghost use Rattle.std.specs.Prelude.{◌≡◌, ◌≤◌, ◌+◌, ◌++◌, [], codes, decimal, length, OnErr, OnOk};
ghost use Rattle.std.specs.Io.KnownBytes.{Appends};
ghost use Rattle.display_pages.specs.Pages as Spec;
ghost use Rattle.display_pages.specs.Pages.{page_text};
ghost use Rattle.display_pages.specs.declared.page.TheConstants.{MOST_CELLS};
ghost use Rattle.mib_model.specs.declared.line.TheConstants.{LINE_ROOM};
ghost use Rattle.tm_io.specs.Causes.{HasCause};
ghost use Rattle.tm_io.specs.Octets.{AppendsPrefix};
ghost use Rattle.page_texts.specs.Written.{Passes};
ghost use Rattle.page_texts.specs.declared.page_text.TheConstants.{CELL_ROOM, GATHERED_MOST};

use display_pages::{Cell, Page};
use mib_model::{Class, Line, Name};
use reply_text::add_number;
use tm_io::{Failed, Sink, write_all};

// The most octets of a line of a page.
const CELL_ROOM: usize = 100;

// The most octets that are gathered before another line of a page.
const GATHERED_MOST: usize = 4_000;

// Appends a raw number, or a dash.
fn add_raw(raw: Option<i128>, out: &mut Line)
    requires { length out.old + 40 ≤ LINE_ROOM }
    ensures text { out.new ≡ out.old ++ Spec.raw_or_dash raw }
    ensures room { length out.new ≤ length out.old + 40 }
{
    match raw {
        Some(n) => add_number(n, out),
        None => out.add(b"-"),
    }
}

// The word of a class that is spoken of, or a dash.
fn class_or_dash(spoken: Option<Class>) -> &'static [u8]
    ensures word { result.now ≡ Spec.class_or_dash spoken }
    ensures short { length result.now ≤ 6 }
{
    match spoken {
        None => b"-",
        Some(Class::Nominal) => b"",
        Some(Class::Hard) => b"HARD",
        Some(Class::Status) => b"STATUS",
        Some(Class::Delta) => b"DELTA",
        Some(Class::Soft) => b"SOFT",
    }
}

// Writes the first line of a page into an empty line.
fn add_head(number: u64, edition: u32, out: &mut Line)
    requires { out.old ≡ [] }
    ensures text { out.new ≡ codes "PAGE " ++ decimal number ++ codes " EDITION " ++ decimal edition ++ codes "\n" }
    ensures room { length out.new ≤ CELL_ROOM }
{
    out.add(b"PAGE ");
    add_number(number, out);
    out.add(b" EDITION ");
    add_number(edition, out);
    out.add(b"\n");
}

// Appends the line of a name and its cell.
fn add_cell(name: &Name, cell: &Cell, out: &mut Line)
    requires { length out.old ≤ GATHERED_MOST }
    ensures text { out.new ≡ out.old ++ Spec.cell_text (name.now, cell.now) }
    ensures room { length out.new ≤ length out.old + CELL_ROOM }
{
    out.add(b"  ");
    out.add(name.bytes());
    out.add(b" ");
    add_raw(cell.raw, out);
    out.add(b" ");
    out.add(class_or_dash(cell.spoken));
    out.add(b"\n");
}

// Writes what was gathered to a screen and forgets it, where it is too much for another line of a page.
fn make_room<S: Sink>(line: &mut Line, screen: &mut S) -> Result<(), Failed>
    ensures passed { OnOk result (Passes (S.written screen.old) (S.written screen.new) line.old line.new) }
    ensures room { OnOk result (length line.new ≤ GATHERED_MOST) }
    ensures part { OnErr result (AppendsPrefix (S.written screen.old) (S.written screen.new) line.old) }
    ensures handed { S.handed screen.new ≡ S.handed screen.old }
    ensures cause { HasCause (S.faults screen.old) (S.faults screen.new) result }
    ensures borrow { S.borrow screen.new ≡ S.borrow screen.old }
{
    if line.bytes().len() > GATHERED_MOST {
        write_all(screen, line.bytes())?;
        line.clear();
    }
    Ok(())
}

// Writes a line to a screen and hands it on.
fn hand_on<S: Sink>(line: &Line, screen: &mut S) -> Result<(), Failed>
    ensures all { OnOk result (Appends (S.written screen.old) (S.written screen.new) line.now) }
    ensures part { OnErr result (AppendsPrefix (S.written screen.old) (S.written screen.new) line.now) }
    ensures handed { OnOk result (S.handed screen.new ≡ S.written screen.new) }
    ensures cause { HasCause (S.faults screen.old) (S.faults screen.new) result }
    ensures borrow { S.borrow screen.new ≡ S.borrow screen.old }
{
    write_all(screen, line.bytes())?;
    screen.flush()
}

/// Writes the text of a page of at most 64 names and hands it on. Where that fails a first part of the text was written.
pub fn write_page<S: Sink>(names: &[Name], page: &Page, screen: &mut S) -> Result<(), Failed>
    requires { length names.now ≤ MOST_CELLS }
    ensures all { OnOk result (Appends (S.written screen.old) (S.written screen.new) (page_text names.now page.now)) }
    ensures part { OnErr result (AppendsPrefix (S.written screen.old) (S.written screen.new) (page_text names.now page.now)) }
    ensures handed { OnOk result (S.handed screen.new ≡ S.written screen.new) }
    ensures cause { HasCause (S.faults screen.old) (S.faults screen.new) result }
    ensures borrow { S.borrow screen.new ≡ S.borrow screen.old }
{
    let mut line = Line::new();
    add_head(page.number, page.edition, &mut line);
    for (place, name) in names.iter().enumerate() {
        make_room(&mut line, screen)?;
        add_cell(name, &page.cells[place], &mut line);
    }
    hand_on(&line, screen)
}
