// The file of a display's names.
ghost use Rattle.std.specs.Prelude.{◌≡◌, ◌≤◌, ◌++◌, ◌∷◌, ℕ, List, [], false, true, length, map, IfErr, IfNone, IfOk, IfSome, None, OnOk};
ghost use Rattle.std.specs.List.{slice_split};
ghost use Rattle.mib_model.specs.Lines.{is_feed, lines, lines_of};
ghost use Rattle.display_pages.specs.declared.page.TheConstants.{MOST_CELLS};
ghost use Rattle.page_texts.specs.declared.page_file.PageFileFault.TheVariants as faults;
ghost use Rattle.page_texts.specs.PageFiles.{Refuses, bad_line, first_bad, may_follow};

use crate::lines::line_in;
use display_pages::MOST_CELLS;
use mib_model::Name;
use std::alloc::{AllocError, Global};

/// The most octets of a file of names.
pub const PAGE_FILE_MOST: usize = 65_536;

/// Why a file isn't the names of a page.
#[derive(Clone, Copy, Debug, PartialEq, Eq)]
pub enum PageFileFault {
    /// The first line, counted from 1, that isn't a name, equals an earlier one or is one too many; 0 where the file is too long.
    Line(u32),
    Memory,
}

impl From<AllocError> for PageFileFault {
    ghost from_gives = { λ _ made. made ≡ faults.Memory };

    fn from(_: AllocError) -> PageFileFault {
        PageFileFault::Memory
    }
}

// The name that a line behind these is, if it may stand there.
fn next_name(line: &[u8], names: &[Name]) -> Option<Name>
    ensures some { IfSome result (λ name. (name ≡ line.now) × (may_follow names.now line.now ≡ true)) }
    ensures none { IfNone result (may_follow names.now line.now ≡ false) }
{
    let name = Name::new(line)?;
    if names.len() >= MOST_CELLS || names.contains(&name) {
        return None;
    }
    Some(name)
}

// Puts the name of a line behind the others.
fn take_name(line: &[u8], names: &mut Vec<Name>) -> Result<(), PageFileFault>
    requires few { length names.old.items ≤ MOST_CELLS }
    ensures taken { OnOk result (names.new.items ≡ names.old.items ++ line.now ∷ []) }
    ensures fits { OnOk result (may_follow names.old.items line.now ≡ true) }
    ensures few { length names.new.items ≤ MOST_CELLS }
    ensures refused { IfErr result (λ fault. (rest : List (List ℕ)) → Refuses fault (first_bad names.old.items (line.now ∷ rest))) }
{
    let Some(name) = next_name(line, names) else {
        return Err(PageFileFault::Line(names.len() as u32 + 1));
    };
    match names.push(name) {
        Ok(()) => Ok(()),
        Err(_) => Err(PageFileFault::Memory),
    }
}

// The pieces between the LF octets of a text.
fn pieces_of(alloc: Global, text: &[u8]) -> Result<Vec<&[u8]>, AllocError>
    ensures { IfOk result (λ pieces. map (λ piece. piece.now) pieces.items ≡ slice_split is_feed text.now) }
{
    text.split(|octet| *octet == b'\n').collect(alloc)
}

// The names in the lines that pieces are.
fn names_of(alloc: Global, pieces: &[&[u8]]) -> Result<Vec<Name>, PageFileFault>
    ensures names { IfOk result (λ names. names.items ≡ lines_of (map (λ piece. piece.now) pieces.now)) }
    ensures sound { IfOk result (λ names. first_bad [] (lines_of (map (λ piece. piece.now) pieces.now)) ≡ None) }
    ensures few { IfOk result (λ names. length names.items ≤ MOST_CELLS) }
    ensures refused { IfErr result (λ fault. Refuses fault (first_bad [] (lines_of (map (λ piece. piece.now) pieces.now)))) }
{
    let mut names = Vec::new(alloc);
    for piece in pieces {
        if let Some(line) = line_in(piece) {
            take_name(line, &mut names)?;
        }
    }
    Ok(names)
}

/// The names of a page by its file: one in each line, where lines end at LF, one CR at the end of a line is dropped, and so is a
/// line that is then empty. The first line that isn't a name, equals an earlier one or is the 65th is refused, but before any line a
/// file of more than 65,536 octets.
pub fn names_in(alloc: Global, text: &[u8]) -> Result<Vec<Name>, PageFileFault>
    ensures names { IfOk result (λ names. names.items ≡ lines text.now) }
    ensures sound { IfOk result (λ names. bad_line text.now ≡ None) }
    ensures few { IfOk result (λ names. length names.items ≤ MOST_CELLS) }
    ensures refused { IfErr result (λ fault. Refuses fault (bad_line text.now)) }
{
    if text.len() > PAGE_FILE_MOST {
        return Err(PageFileFault::Line(0));
    }
    let pieces = pieces_of(alloc, text)?;
    names_of(alloc, &pieces)
}
