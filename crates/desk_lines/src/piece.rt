ghost use Rattle.std.specs.Prelude.{◌≡◌, ◌<◌, ◌≤◌, ◌^◌, ◌∷◌, [], length, set, MatchOption, MatchResult};
ghost use Rattle.std.specs.Io.KnownBytes.{Consumes, IsAtEnd};
ghost use Rattle.tm_io.specs.Causes.{HasCause};
ghost use Rattle.desk_lines.specs.Pieces.{HasPieceCause, TakesOctet, TakesPiece};

use tm_io::{Failed, Source};

/// Why no more octets of a line are taken.
#[derive(Clone, Copy)]
pub(crate) enum PieceEnd {
    /// The line's LF was taken too.
    Feed,
    /// The source is at its end.
    Source,
    /// No more octets may be taken.
    Room,
    /// The source failed.
    Failed,
}

/// How many octets of a line were taken, its LF apart.
#[derive(Clone, Copy)]
pub(crate) struct ScriptPiece {
    pub octets: u32,
    pub end: PieceEnd,
}

// The next octet, where there is one.
fn next_octet<S: Source>(source: &mut S) -> Result<Option<u8>, Failed>
    ensures octet { TakesOctet result (S.left source.old) (S.left source.new) }
    ensures cause { HasCause (S.faults source.old) (S.faults source.new) result }
    ensures holds { S.holds source.new ≡ S.holds source.old }
    ensures missed { S.missed source.new ≡ S.missed source.old }
    ensures borrow { S.borrow source.new ≡ S.borrow source.old }
{
    let mut octet = [0];
    let count = source.read(&mut octet)?;
    if count == 0 {
        return Ok(None);
    }
    Ok(Some(octet[0]))
}

// Keeps an octet at its place, where there is room for it.
fn keep(into: &mut [u8], place: usize, octet: u8)
    ensures inside { place < length into.old → into.new ≡ set into.old place octet }
    ensures outside { length into.old ≤ place → into.new ≡ into.old }
{
    if place < into.len() {
        into[place] = octet;
    }
}

/// Takes the octets up to the next LF and the LF itself, but no more than there is room for. The first of them are
/// put at the front of `into`.
pub(crate) fn take_piece<S: Source>(source: &mut S, room: u32, into: &mut [u8]) -> ScriptPiece
    ensures piece { TakesPiece result room (S.left source.old) (S.left source.new) into.new }
    ensures cause { HasPieceCause result.end (S.faults source.old) (S.faults source.new) }
    ensures holds { S.holds source.new ≡ S.holds source.old }
    ensures missed { S.missed source.new ≡ S.missed source.old }
    ensures borrow { S.borrow source.new ≡ S.borrow source.old }
{
    let mut octets = 0;
    while octets < room {
        let end = match next_octet(source) {
            Ok(Some(b'\n')) => PieceEnd::Feed,
            Ok(Some(octet)) => {
                keep(into, octets as usize, octet);
                octets += 1;
                continue;
            }
            Ok(None) => PieceEnd::Source,
            Err(Failed) => PieceEnd::Failed,
        };
        return ScriptPiece { octets, end };
    }
    ScriptPiece {
        octets,
        end: PieceEnd::Room,
    }
}
