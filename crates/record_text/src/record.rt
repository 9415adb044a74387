// The lines of a record beside those of its values.
ghost use Rattle.std.specs.Prelude.{◌≡◌, ◌≤◌, ◌+◌, ◌++◌, List, Option, ℕ, codes, false, length, take};
ghost use Rattle.std.specs.Option.{option_copied};
ghost use Rattle.mib_model.specs.AlarmTexts as Alarms;
ghost use Rattle.mib_model.specs.Texts as Spec;
ghost use Rattle.record_text.specs.HeadViews.{is_identified};
ghost use Rattle.record_text.specs.declared.lines.TheConstants.{LINES_ROOM, LINE_MOST, HEAD_ROOM, NOTE_ROOM};

use crate::lines::{LINE_MOST, Lines};
use itoa::Integer;
use line_text::{
    Shorts, add_digits, add_name, add_number, add_octet, add_quoted, add_text, add_word,
};
use mib_model::{BadWhy, Change, Class, Ended, Found, Header, Name, Text};

// Appends the service type and subtype.
#[inline(always)]
fn add_types(service: u8, subtype: u8, shorts: Shorts<'_>, line: &mut [u8], used: usize) -> usize
    requires { used + 90 ≤ length line.old }
    ensures text { take result line.new ≡ take used line.old ++ Spec.type_text service subtype }
    ensures room { result ≤ used + 90 }
    ensures kept { length line.new ≡ length line.old }
{
    let used = add_word(b" TYPE ", line, used);
    let used = add_number(u64::from(service), shorts, line, used);
    let used = add_octet(b'/', line, used);
    add_number(u64::from(subtype), shorts, line, used)
}

// Appends the name of a packet, where there is one that isn't empty.
#[inline(always)]
fn add_title(title: Option<&Text>, line: &mut [u8], used: usize) -> usize
    requires { used + 264 ≤ length line.old }
    ensures text { take result line.new ≡ take used line.old ++ Spec.title_text (option_copied title.entry) }
    ensures room { result ≤ used + 264 }
    ensures kept { length line.new ≡ length line.old }
{
    let Some(title) = title else {
        return used;
    };
    if title.bytes().is_empty() {
        return used;
    }
    let used = add_word(b" NAME ", line, used);
    add_quoted(title.bytes(), line, used)
}

// Appends what a packet is that has no SPID.
#[inline(never)]
fn add_unidentified(found: &Found, shorts: Shorts<'_>, line: &mut [u8], used: usize) -> usize
    requires sort { is_identified found.now ≡ false }
    requires room { used + 400 ≤ length line.old }
    ensures text { (title : Option (List ℕ)) → take result line.new ≡ take used line.old ++ Spec.found_text found.now title }
    ensures room { result ≤ used + 400 }
    ensures kept { length line.new ≡ length line.old }
{
    match *found {
        Found::Spid { .. } => used,
        Found::Unknown { service, subtype } => {
            let used = add_types(service, subtype, shorts, line, used);
            add_word(b" UNKNOWN", line, used)
        }
        Found::Idle => add_word(b" IDLE", line, used),
        Found::Bad(BadWhy::Version) => add_word(b" BAD VERSION", line, used),
        Found::Bad(BadWhy::Telecommand) => add_word(b" BAD TELECOMMAND", line, used),
        Found::Bad(BadWhy::Short) => add_word(b" BAD SHORT", line, used),
    }
}

// Appends what a packet is.
#[inline(always)]
fn add_found(
    found: &Found,
    title: Option<&Text>,
    shorts: Shorts<'_>,
    line: &mut [u8],
    used: usize,
) -> usize
    requires { used + 400 ≤ length line.old }
    ensures text { take result line.new ≡ take used line.old ++ Spec.found_text found.now (option_copied title.entry) }
    ensures room { result ≤ used + 400 }
    ensures kept { length line.new ≡ length line.old }
{
    match *found {
        Found::Spid {
            spid,
            service,
            subtype,
            ..
        } => {
            let used = add_types(service, subtype, shorts, line, used);
            let used = add_word(b" SPID ", line, used);
            let used = add_number(u64::from(spid), shorts, line, used);
            add_title(title, line, used)
        }
        _ => add_unidentified(found, shorts, line, used),
    }
}

// Appends the head of a packet's record.
#[inline(always)]
#[tactic(auto, unfolding(mib_model::specs::Texts::head_text))]
fn add_head(
    number: u64,
    header: &Header,
    found: &Found,
    title: Option<&Text>,
    shorts: Shorts<'_>,
    line: &mut [u8],
    used: usize,
) -> usize
    requires { used + HEAD_ROOM ≤ length line.old }
    ensures text { take result line.new ≡ take used line.old ++ Spec.head_text number header.now found.now (option_copied title.entry) }
    ensures room { result ≤ used + HEAD_ROOM }
    ensures kept { length line.new ≡ length line.old }
{
    let used = add_word(b"PKT ", line, used);
    let used = add_number(number, shorts, line, used);
    let used = add_word(b" APID ", line, used);
    let used = add_number(u64::from(header.apid), shorts, line, used);
    let used = add_word(b" COUNT ", line, used);
    let used = add_number(u64::from(header.count), shorts, line, used);
    let used = add_found(found, title, shorts, line, used);
    add_octet(b'\n', line, used)
}

// Puts the head of a packet's record behind what is there. The line has a known length, so that the compiler sees of each octet
// that it falls inside.
#[inline(always)]
fn put_head(
    number: u64,
    header: &Header,
    found: &Found,
    title: Option<&Text>,
    shorts: Shorts<'_>,
    octets: &mut [u8],
    used: usize,
) -> usize
    requires { used + LINE_MOST ≤ length octets.old }
    ensures text { take result octets.new ≡ take used octets.old ++ Spec.head_text number header.now found.now (option_copied title.entry) }
    ensures room { result ≤ used + HEAD_ROOM }
    ensures kept { length octets.new ≡ length octets.old }
{
    let line = &mut octets[used..used + LINE_MOST];
    used + add_head(number, header, found, title, shorts, line, 0)
}

/// Appends the head of a packet's record: its number, what its primary header says, what it is, and its name where
/// there is one that isn't empty. There must be room for 5,000 octets.
pub fn head_line(number: u64, header: &Header, found: &Found, title: Option<&Text>, out: &mut Lines)
    requires { length out.old + LINE_MOST ≤ LINES_ROOM }
    ensures text { out.new ≡ out.old ++ Spec.head_text number header.now found.now (option_copied title.entry) }
    ensures room { length out.new ≤ length out.old + HEAD_ROOM }
{
    out.page.make_ready();
    let shorts = out.shorts.all();
    out.page.used = put_head(
        number,
        header,
        found,
        title,
        shorts,
        &mut out.page.octets,
        out.page.used,
    );
}

// The word of a class; none for a nominal one, which isn't told of.
fn class_word(class: Class) -> &'static [u8]
    ensures word { result.now ≡ Alarms.class_text class }
    ensures short { length result.now ≤ 6 }
{
    match class {
        Class::Nominal => b"",
        Class::Hard => b"HARD",
        Class::Status => b"STATUS",
        Class::Delta => b"DELTA",
        Class::Soft => b"SOFT",
    }
}

// Appends what is told of a name, in a word of 8 octets and a class.
fn add_change(word: &[u8; 8], name: &Name, class: Class, line: &mut [u8], used: usize) -> usize
    requires room { used + NOTE_ROOM ≤ length line.old }
    ensures text { take result line.new ≡ take used line.old ++ word.now ++ name.now ++ codes " " ++ Alarms.class_text class ++ codes "\n" }
    ensures room { result ≤ used + NOTE_ROOM }
    ensures kept { length line.new ≡ length line.old }
{
    let used = add_word(word, line, used);
    let used = add_name(name, line, used);
    let used = add_octet(b' ', line, used);
    let used = add_text(class_word(class), line, used);
    add_octet(b'\n', line, used)
}

/// Appends the line of an alarm or of its end. There must be room for 5,000 octets.
pub fn change_line(name: Name, change: Change, out: &mut Lines)
    requires { length out.old + LINE_MOST ≤ LINES_ROOM }
    ensures text { out.new ≡ out.old ++ Alarms.change_text name change }
    ensures room { length out.new ≤ length out.old + NOTE_ROOM }
{
    out.page.make_ready();
    let (word, class) = match change {
        Change::Alarm(class) => (b"  ALARM ", class),
        Change::Clear(class) => (b"  CLEAR ", class),
    };
    out.page.used = add_change(word, &name, class, &mut out.page.octets, out.page.used);
}

// Appends a word of 14 octets at most and a number in a line.
fn add_numbered<I: Integer>(word: &[u8], n: I, line: &mut [u8], used: usize) -> usize
    requires word { length word.now ≤ 14 }
    requires room { used + 55 ≤ length line.old }
    ensures text { take result line.new ≡ take used line.old ++ word.now ++ I.text n ++ codes "\n" }
    ensures room { result ≤ used + 55 }
    ensures kept { length line.new ≡ length line.old }
{
    let used = add_text(word, line, used);
    let used = add_digits(n, line, used);
    add_octet(b'\n', line, used)
}

// Appends the line of the value that passes the packet's end.
fn add_short(name: &Name, line: &mut [u8], used: usize) -> usize
    requires { used + 41 ≤ length line.old }
    ensures text { take result line.new ≡ take used line.old ++ codes "  SHORT " ++ name.now ++ codes "\n" }
    ensures room { result ≤ used + 41 }
    ensures kept { length line.new ≡ length line.old }
{
    let used = add_word(b"  SHORT ", line, used);
    let used = add_name(name, line, used);
    add_octet(b'\n', line, used)
}

// Appends the line that tells how values end.
fn add_ended(ended: &Ended, line: &mut [u8], used: usize) -> usize
    requires { used + NOTE_ROOM ≤ length line.old }
    ensures text { take result line.new ≡ take used line.old ++ Spec.ended_text ended.now }
    ensures room { result ≤ used + NOTE_ROOM }
    ensures kept { length line.new ≡ length line.old }
{
    match ended {
        Ended::Whole => used,
        Ended::Short { name } => add_short(name, line, used),
        Ended::Many => add_word(b"  MANY\n", line, used),
        Ended::NoStructure { tpsd } => add_numbered(b"  NOSTRUCTURE ", *tpsd, line, used),
        Ended::NoParameter { pid } => add_numbered(b"  NOPARAMETER ", *pid, line, used),
    }
}

/// Appends the line that tells how values end, and nothing where they are whole. There must be room for 5,000 octets.
pub fn ended_line(ended: &Ended, out: &mut Lines)
    requires { length out.old + LINE_MOST ≤ LINES_ROOM }
    ensures text { out.new ≡ out.old ++ Spec.ended_text ended.now }
    ensures room { length out.new ≤ length out.old + NOTE_ROOM }
{
    if let Ended::Whole = ended {
        return;
    }
    out.page.make_ready();
    out.page.used = add_ended(ended, &mut out.page.octets, out.page.used);
}

/// Appends the line of an edition, which stands before a packet whose edition differs from the one before. There must
/// be room for 5,000 octets.
pub fn edition_line(edition: u32, out: &mut Lines)
    requires { length out.old + LINE_MOST ≤ LINES_ROOM }
    ensures text { out.new ≡ out.old ++ Spec.edition_text edition }
    ensures room { length out.new ≤ length out.old + NOTE_ROOM }
{
    out.page.make_ready();
    out.page.used = add_numbered(b"EDITION ", edition, &mut out.page.octets, out.page.used);
}

/// Appends the line of a feed that ends inside a packet, of which so many octets are there. There must be room for
/// 5,000 octets.
pub fn cut_line(octets: u32, out: &mut Lines)
    requires { length out.old + LINE_MOST ≤ LINES_ROOM }
    ensures text { out.new ≡ out.old ++ Spec.cut_text octets }
    ensures room { length out.new ≤ length out.old + NOTE_ROOM }
{
    out.page.make_ready();
    out.page.used = add_numbered(b"CUT ", octets, &mut out.page.octets, out.page.used);
}
