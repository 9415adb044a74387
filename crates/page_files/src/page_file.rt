// The file of the names of a page.
ghost use Rattle.std.specs.Prelude.{◌≡◌, ◌≤◌, ◌+◌, length, IfOk, IfErr, OnOk, IfSome, IsSomeAnd, Some};
ghost use Rattle.display_pages.specs.declared.page.TheConstants.{MOST_CELLS};
ghost use Rattle.page_files.specs.Files.{HasPageCause, IsPageOf, IsReadStop, RefusesFile, RefusesText, page_part, stop_code};
ghost use Rattle.page_texts.specs.declared.page_file.TheConstants.{PAGE_FILE_MOST};
ghost use Rattle.whole_texts.specs.Parts.{ConsumesAtMost, EndsInPart};

use mib_model::Name;
use page_texts::{BoardCode, BoardInput, PAGE_FILE_MOST, PageFileFault, names_in};
use std::alloc::Global;
use tm_io::{Shelf, Source};
use whole_texts::{TextFault, read_up_to};

// The most octets of a file that are read: one more than it may have.
const READ_MOST: usize = PAGE_FILE_MOST + 1;

// The code of a page that wasn't read.
fn code_of(fault: TextFault) -> BoardCode
    ensures { result ≡ stop_code fault }
{
    match fault {
        TextFault::Failed => BoardCode::PageFault,
        TextFault::Memory => BoardCode::Want,
    }
}

// The text of the file that a shelf is turned to, as far as is read.
fn read_part<S: Source>(alloc: Global, source: &mut S) -> Result<Vec<u8>, BoardCode>
    ensures told { IfOk result (λ text. IfSome (S.left source.old) (λ octets. text.items ≡ page_part octets)) }
    ensures part { ConsumesAtMost (PAGE_FILE_MOST + 1) (S.left source.old) (S.left source.new) }
    ensures ok { OnOk result (S.faults source.new ≡ S.faults source.old) }
    ensures cause { IfErr result (λ code. HasPageCause code (S.faults source.old) (S.faults source.new)) }
    ensures stop { IfErr result IsReadStop }
{
    match read_up_to(alloc, source, READ_MOST) {
        Ok(text) => Ok(text),
        Err(fault) => Err(code_of(fault)),
    }
}

// The names that a text is.
fn names_by(alloc: Global, text: &[u8]) -> Result<Vec<Name>, BoardCode>
    ensures names { IfOk result (λ names. IsPageOf names.items text.now) }
    ensures few { IfOk result (λ names. length names.items ≤ MOST_CELLS) }
    ensures refused { IfErr result (λ code. RefusesText code text.now) }
{
    match names_in(alloc, text) {
        Ok(names) => Ok(names),
        Err(PageFileFault::Line(line)) => Err(BoardCode::BadPage { line }),
        Err(PageFileFault::Memory) => Err(BoardCode::Want),
    }
}

// The names in the file that a shelf is turned to.
fn read_names<S: Source>(alloc: Global, source: &mut S) -> Result<Vec<Name>, BoardCode>
    ensures names { IfOk result (λ names. IfSome (S.left source.old) (IsPageOf names.items)) }
    ensures few { IfOk result (λ names. length names.items ≤ MOST_CELLS) }
    ensures refused { IfErr result (λ code. IfSome (S.left source.old) (λ octets. RefusesFile code (Some octets))) }
    ensures part { ConsumesAtMost (PAGE_FILE_MOST + 1) (S.left source.old) (S.left source.new) }
    ensures ok { OnOk result (S.faults source.new ≡ S.faults source.old) }
    ensures cause { IfErr result (λ code. HasPageCause code (S.faults source.old) (S.faults source.new)) }
{
    let text = read_part(alloc, source)?;
    names_by(alloc, &text)
}

/// The names of a page by the file of that name: one in each line. At most 65,537 octets of it are read. An error is the end of the board
/// that is called so: there is no such file, the shelf failed, a line is refused, or memory ran out.
pub fn page_names<P: Shelf>(alloc: Global, name: &str, page: &mut P) -> Result<Vec<Name>, BoardCode>
    ensures names { IfOk result (λ names. IfSome (P.holds page.old) (λ files. IsSomeAnd (files name.now) (IsPageOf names.items))) }
    ensures few { IfOk result (λ names. length names.items ≤ MOST_CELLS) }
    ensures refused { IfErr result (λ code. IfSome (P.holds page.old) (λ files. RefusesFile code (files name.now))) }
    ensures part { EndsInPart result (PAGE_FILE_MOST + 1) (P.holds page.old) name.now (P.left page.new) (P.missed page.old) (P.missed page.new) }
    ensures ok { OnOk result (P.faults page.new ≡ P.faults page.old) }
    ensures cause { IfErr result (λ code. HasPageCause code (P.faults page.old) (P.faults page.new)) }
{
    match page.aim(name) {
        Ok(true) => read_names(alloc, page),
        Ok(false) => Err(BoardCode::NoFile(BoardInput::Page)),
        Err(_) => Err(BoardCode::PageFault),
    }
}
