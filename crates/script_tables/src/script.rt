// The lines of a script, from its source to its end.
ghost use Rattle.std.specs.Prelude.{◌≡◌, ◌<◌, ◌≤◌, length, vec_len, IfErr, IfOk, IfSome, OnOk};
ghost use Rattle.std.specs.List.{All};
ghost use Rattle.tm_audit.specs.Saved.{saved_tables};
ghost use Rattle.desk_lines.specs.Reader.{reading_of, source_of};
ghost use Rattle.desk_lines.specs.declared.reader.TheConstants.{LINE_ROOM};
ghost use Rattle.mib_model.specs.Soundness.{IsSound};
ghost use Rattle.script_tables.specs.Savings.{FollowsAll, HasScriptCause, StepsOn};

use crate::saving::Saving;
use desk_lines::{DeskReader, LINE_ROOM, NextLine, long_asks_as_front, still_at_start};
use mib_tables::Book;
use std::alloc::{AllocError, Global};
use tm_io::Source;

/// Why the tables of a script are not to be had.
#[derive(Clone, Copy, Debug, PartialEq, Eq)]
pub enum ScriptFault {
    /// The script could not be read.
    Failed,
    /// Want of memory.
    Memory,
}

impl From<AllocError> for ScriptFault {
    ghost use Rattle.std.specs.Prelude.{◌≡◌};
    ghost use Rattle.script_tables.specs.declared.script.ScriptFault.TheVariants as faults;

    ghost from_gives = { λ _ made. made ≡ faults.Memory };

    fn from(_: AllocError) -> ScriptFault {
        ScriptFault::Memory
    }
}

// Follows the next line of a script, and tells whether there was one.
fn follow_next<D: Source>(
    alloc: Global,
    reader: &mut DeskReader<D>,
    buffer: &mut [u8],
    saving: &mut Saving,
) -> Result<bool, ScriptFault>
    requires { length buffer.old ≡ LINE_ROOM }
    ensures buffer { length buffer.new ≡ LINE_ROOM }
    ensures steps { IfOk result (λ more. StepsOn more (D.left (source_of reader.old)) (D.left (source_of reader.new))
        (reading_of reader.old) (reading_of reader.new) saving.old saving.new) }
    ensures ok { OnOk result (D.faults (source_of reader.new) ≡ D.faults (source_of reader.old)) }
    ensures cause { IfErr result (λ fault. HasScriptCause fault (D.faults (source_of reader.old)) (D.faults (source_of reader.new))) }
    ensures holds { D.holds (source_of reader.new) ≡ D.holds (source_of reader.old) }
    ensures missed { D.missed (source_of reader.new) ≡ D.missed (source_of reader.old) }
    ensures borrow { D.borrow (source_of reader.new) ≡ D.borrow (source_of reader.old) }
{
    match reader.next(buffer) {
        NextLine::Line { octets } => saving.follow(alloc, &buffer[..octets as usize])?,
        NextLine::TooLong => {
            long_asks_as_front();
            saving.follow(alloc, buffer)?;
        }
        NextLine::End | NextLine::Limit => return Ok(false),
        NextLine::Failed => return Err(ScriptFault::Failed),
    }
    Ok(true)
}

// Follows all lines of a script that are still to come.
fn follow_all<D: Source>(
    alloc: Global,
    reader: &mut DeskReader<D>,
    buffer: &mut [u8],
    saving: &mut Saving,
) -> Result<(), ScriptFault>
    requires { length buffer.old ≡ LINE_ROOM }
    ensures followed { OnOk result (IfSome (D.left (source_of reader.old)) (FollowsAll (reading_of reader.old) saving.old saving.new)) }
    ensures ok { OnOk result (D.faults (source_of reader.new) ≡ D.faults (source_of reader.old)) }
    ensures cause { IfErr result (λ fault. HasScriptCause fault (D.faults (source_of reader.old)) (D.faults (source_of reader.new))) }
    ensures holds { D.holds (source_of reader.new) ≡ D.holds (source_of reader.old) }
    ensures missed { D.missed (source_of reader.new) ≡ D.missed (source_of reader.old) }
    ensures borrow { D.borrow (source_of reader.new) ≡ D.borrow (source_of reader.old) }
{
    while follow_next(alloc, reader, buffer, saving)? {}
    Ok(())
}

// A buffer for a line.
fn line_buffer(alloc: Global) -> Result<Vec<u8>, AllocError>
    ensures { IfOk result (λ buffer. vec_len buffer ≡ LINE_ROOM) }
{
    Vec::from_elem(alloc, 0, LINE_ROOM)
}

/// The tables of all editions: the sound ones of edition 1, and behind them those that the script saves which the source has from
/// where it stands. `Failed` comes just where the source's count of faults rose.
pub fn saved_books<D: Source>(
    alloc: Global,
    first: Book,
    source: &mut D,
) -> Result<Vec<Book>, ScriptFault>
    requires { IsSound first }
    ensures told { IfOk result (λ books. IfSome (D.left source.old) (λ octets. books.items ≡ saved_tables first octets)) }
    ensures sound { IfOk result (λ books. All IsSound books.items) }
    ensures some { IfOk result (λ books. 0 < length books.items) }
    ensures few { IfOk result (λ books. length books.items ≤ 64) }
    ensures ok { OnOk result (D.faults source.new ≡ D.faults source.old) }
    ensures cause { IfErr result (λ fault. HasScriptCause fault (D.faults source.old) (D.faults source.new)) }
    ensures holds { D.holds source.new ≡ D.holds source.old }
    ensures missed { D.missed source.new ≡ D.missed source.old }
{
    let mut buffer = line_buffer(alloc)?;
    let mut saving = Saving::new(alloc, first)?;
    let mut reader = DeskReader::new(source);
    still_at_start();
    follow_all(alloc, &mut reader, &mut buffer, &mut saving)?;
    Ok(saving.into_saved())
}
