ghost use Rattle.std.specs.Prelude.{◌≡◌, ◌≤◌, ◌+◌, ◌&&◌, is_none, [], codes, decimal, drop, length, nat_eq};
ghost use Rattle.std.specs.List.{find, range_with_len, starts_with};
ghost use Rattle.std.specs.Str.{bytes_eq};
ghost use Rattle.tm_audit.specs.Shown as Spec;
ghost use Rattle.tm_audit.specs.TextLines.{text_lines};
ghost use Rattle.tm_audit.specs.declared.code.TheConstants.{TEXT_MOST};

use crate::lines::{cut_line, without_feed};
use itoa::Buffer;
use std::marker::Model;

/// The editions that a text shows for packets, one after the other. Contracts see those of the packets still to come.
#[derive(Drop)]
pub struct ShownEditions<'a> {
    // The lines that weren't read yet.
    rest: &'a [u8],
    // How many editions there are.
    count: u32,
    edition: u32,
}

impl<'a> Model for ShownEditions<'a> {
    ghost use Rattle.std.specs.Prelude.{◌≤◌};
    ghost use Rattle.tm_audit.specs.Shown.{Editions, editions_shown};
    ghost use Rattle.tm_audit.specs.TextLines.{text_lines};

    ghost Value = { Editions };

    ghost invariant = { λ shown. shown.count ≤ 1000 };

    ghost view = { λ shown. editions_shown shown.count shown.edition (text_lines shown.rest.now) };
}

// Whether a line shows an edition.
fn shows_edition(line: &[u8]) -> bool
    ensures { result ≡ Spec.shows_edition line.now }
{
    line.starts_with(b"EDITION ")
}

// Whether a line begins the record of a packet.
fn begins_packet(line: &[u8]) -> bool
    ensures { result ≡ Spec.begins_packet line.now }
{
    line.starts_with(b"PKT ")
}

// Whether a text is the decimal number of an edition.
fn is_number_of(edition: u32, text: &[u8]) -> bool
    ensures { result ≡ bytes_eq (decimal edition) text.now }
{
    Buffer::new().format(edition).as_bytes() == text
}

// The edition, of so many, whose decimal number is this text.
fn edition_numbered(count: u32, text: &[u8]) -> Option<u32>
    requires { count ≤ 1000 }
    ensures { result ≡ find (λ edition. bytes_eq (decimal edition) text.now) (range_with_len 1 count) }
{
    for edition in 1..count + 1 {
        if is_number_of(edition, text) {
            return Some(edition);
        }
    }
    None
}

// What stands behind the word of a line that shows an edition.
fn behind_word(line: &[u8]) -> &[u8]
    ensures { result.now ≡ drop 8 line.now }
{
    if line.len() < 8 { &[] } else { &line[8..] }
}

// The edition, of so many, that a line shows which begins as one that shows an edition.
fn edition_in(count: u32, line: &[u8]) -> Option<u32>
    requires { count ≤ 1000 }
    ensures { result ≡ Spec.edition_in count line.now }
{
    edition_numbered(count, without_feed(behind_word(line)))
}

// The edition that holds behind a line, of so many.
fn edition_behind(count: u32, edition: u32, line: &[u8]) -> u32
    requires { count ≤ 1000 }
    ensures { result ≡ Spec.edition_behind count edition line.now }
{
    if !shows_edition(line) {
        return edition;
    }
    match edition_in(count, line) {
        Some(shown) => shown,
        None => edition,
    }
}

// Whether a line begins as one that shows an edition, and shows none of so many.
fn is_unknown(count: u32, line: &[u8]) -> bool
    requires { count ≤ 1000 }
    ensures { result ≡ (Spec.shows_edition line.now && is_none (Spec.edition_in count line.now)) }
{
    shows_edition(line) && edition_in(count, line).is_none()
}

/// The first line of a text that begins as one that shows an edition and shows none of so many.
pub fn first_unknown(count: u32, text: &[u8]) -> Option<u32>
    requires count { count ≤ 1000 }
    requires short { length text.now ≤ TEXT_MOST }
    ensures { result ≡ Spec.first_unknown count 1 (text_lines text.now) }
{
    let mut rest = text;
    let mut number = 1;
    while let Some((line, behind)) = cut_line(rest) {
        if is_unknown(count, line) {
            return Some(number);
        }
        rest = behind;
        number += 1;
    }
    None
}

// The edition of the next packet, and what stands behind the line that begins its record.
fn next_packet<'a>(count: u32, first: u32, text: &'a [u8]) -> (u32, &'a [u8])
    requires { count ≤ 1000 }
    ensures edition { result.0 ≡ Spec.edition_at (Spec.editions_shown count first (text_lines text.now)) 0 }
    ensures behind { Spec.editions_shown count result.0 (text_lines result.1.now)
        ≡ Spec.behind_first (Spec.editions_shown count first (text_lines text.now)) }
{
    let mut rest = text;
    let mut edition = first;
    while let Some((line, behind)) = cut_line(rest) {
        if begins_packet(line) {
            return (edition, behind);
        }
        edition = edition_behind(count, edition, line);
        rest = behind;
    }
    (edition, &[])
}

impl<'a> ShownEditions<'a> {
    /// The editions that a text shows, of so many.
    pub fn new(count: u32, text: &'a [u8]) -> ShownEditions<'a>
        requires { count ≤ 1000 }
        ensures { result ≡ Spec.editions_shown count 1 (text_lines text.now) }
    {
        ShownEditions {
            rest: text,
            count,
            edition: 1,
        }
    }

    /// The edition of the next packet.
    pub fn take(&mut self) -> u32
        ensures edition { result ≡ Spec.edition_at self.old 0 }
        ensures behind { self.new ≡ Spec.behind_first self.old }
    {
        let (edition, rest) = next_packet(self.count, self.edition, self.rest);
        self.edition = edition;
        self.rest = rest;
        edition
    }
}
