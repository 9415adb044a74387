ghost use Rattle.std.specs.Prelude.{◌≡◌, ◌≤◌, length};
ghost use Rattle.desk_lines.specs.Gives.{line_of};

use crate::next_line::NextLine;
use crate::piece::{PieceEnd, take_piece};
use tm_io::Source;

/// The octets of the buffer for a line: one more than a line may have, so that what stands in it is too long as well.
pub const LINE_ROOM: usize = 4_097;

const MOST_LINES: u32 = 1_000_000;

const MOST_SCRIPT: u32 = 1_073_741_824;

/// How far a script was read, for who reads on later. Contracts see it by `read_to`.
#[derive(Clone, Copy, Debug)]
pub struct Bookmark {
    lines: u32,
    octets: u32,
    ghost few: { lines ≤ 1000000 },
    ghost short: { octets ≤ 1073741824 },
}

impl Bookmark {
    ghost use Rattle.desk_lines.specs.Reader.{read_to};
    ghost use Rattle.desk_lines.specs.ToCome.{reading_start};

    /// Where a script begins.
    pub fn start() -> Bookmark
        ensures { read_to result ≡ reading_start }
    {
        Bookmark {
            lines: 0,
            octets: 0,
        }
    }
}

/// The lines of a script. Contracts see the source, by `source_of`, and how far it was read, by `reading_of`.
#[derive(Drop)]
pub struct DeskReader<S> {
    source: S,
    lines: u32,
    octets: u32,
    ghost few: { lines ≤ 1000000 },
    ghost short: { octets ≤ 1073741824 },
}

// The answer for a line of so many octets.
fn line_of(octets: u32) -> NextLine
    ensures { result ≡ line_of octets }
{
    if octets as usize >= LINE_ROOM {
        return NextLine::TooLong;
    }
    NextLine::Line { octets }
}

impl<S> DeskReader<S> {
    ghost use Rattle.desk_lines.specs.Reader.{read_to, reading_of, source_of};
    ghost use Rattle.desk_lines.specs.ToCome.{reading_start};

    /// The lines of the script that this source has from where it stands.
    pub fn new(source: S) -> DeskReader<S>
        ensures source { source_of result ≡ source }
        ensures start { reading_of result ≡ reading_start }
    {
        DeskReader::resume(source, Bookmark::start())
    }

    /// The lines of a script that was read so far, which this source has from where it stands.
    pub fn resume(source: S, bookmark: Bookmark) -> DeskReader<S>
        ensures source { source_of result ≡ source }
        ensures read { reading_of result ≡ read_to bookmark }
    {
        DeskReader {
            source,
            lines: bookmark.lines,
            octets: bookmark.octets,
        }
    }

    /// How far it was read.
    pub fn bookmark(&self) -> Bookmark
        ensures { read_to result ≡ reading_of self.now }
    {
        Bookmark {
            lines: self.lines,
            octets: self.octets,
        }
    }
}

impl<S: Source> DeskReader<S> {
    ghost use Rattle.desk_lines.specs.Reader.{reading_of, source_of};
    ghost use Rattle.desk_lines.specs.Gives.{Gives, HasLimit, HasNextCause};
    ghost use Rattle.desk_lines.specs.declared.reader.TheConstants.{LINE_ROOM};
    ghost use Rattle.run_model.specs.Script.{most_lines};

    /// What comes next. A line is put at the front of `into`, without its LF, and of one that is too long the first
    /// 4,097 octets are. Behind as many lines as a script has at most nothing is read.
    pub fn next(&mut self, into: &mut [u8]) -> NextLine
        requires { length into.old ≡ LINE_ROOM }
        ensures gives { Gives result (reading_of self.old) (reading_of self.new) (S.left (source_of self.old)) (S.left (source_of self.new)) into.new }
        ensures limited { HasLimit result (reading_of self.new) }
        ensures unread { (reading_of self.old).lines ≡ most_lines → self.new ≡ self.old }
        ensures cause { HasNextCause result (S.faults (source_of self.old)) (S.faults (source_of self.new)) }
        ensures holds { S.holds (source_of self.new) ≡ S.holds (source_of self.old) }
        ensures missed { S.missed (source_of self.new) ≡ S.missed (source_of self.old) }
        ensures borrow { S.borrow (source_of self.new) ≡ S.borrow (source_of self.old) }
    {
        if self.lines == MOST_LINES {
            return NextLine::Limit;
        }
        let piece = take_piece(&mut self.source, MOST_SCRIPT - self.octets, into);
        self.octets += piece.octets;
        match piece.end {
            PieceEnd::Feed => {
                self.octets += 1;
                self.lines += 1;
                line_of(piece.octets)
            }
            PieceEnd::Source if piece.octets == 0 => NextLine::End,
            PieceEnd::Source => {
                self.lines += 1;
                line_of(piece.octets)
            }
            PieceEnd::Room => NextLine::Limit,
            PieceEnd::Failed => NextLine::Failed,
        }
    }
}
