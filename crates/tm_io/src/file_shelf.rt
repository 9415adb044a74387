// Files of the system and standard input as a shelf. It tells no content.
ghost use Rattle.std.specs.Prelude.{◌≡◌, ◌≤◌, None, length, IfSome, IfOk};

use crate::{Failed, Shelf, Source};
use std::alloc::{AllocError, Global};
use std::fs;
use std::io::{BufRead, BufReader, ErrorKind, Read};
use std::rt::Files;

// How many octets are asked of the system at once: those of some thousand packets, which workers share.
const READ_AHEAD: usize = 262_144;

// What is read.
#[derive(Drop)]
enum Opened<F, I> {
    Nothing,
    Input(I),
    File(F),
}

impl<F: Read, I: Read> Read for Opened<F, I> {
    fn read(&mut self, buf: &mut [u8]) -> std::io::Result<usize> {
        match self {
            Opened::Nothing => Ok(0),
            Opened::Input(input) => input.read(buf),
            Opened::File(file) => file.read(buf),
        }
    }
}

/// Files by their paths, and standard input under the name `-`, read ahead by 256 KiB. A file that isn't found, or whose
/// path has a part that isn't a folder, isn't held. A folder in place of a file is a fault of the first read. A file is
/// closed at the next turn to a file, and at the end.
#[derive(Drop)]
pub struct FileShelf<R: Files + Input + Drop> {
    rt: R,
    opened: BufReader<Opened<R::File, R::Reader>>,
    faults: u64,
    missed: u64,
}

impl<R: Files + Input + Drop> FileShelf<R> {
    /// A shelf with nothing open.
    pub fn new(rt: R, alloc: Global) -> Result<FileShelf<R>, AllocError>
        ensures faults { IfOk result (λ shelf. ⟦<FileShelf<R> as Source>⟧.faults shelf ≡ 0) }
        ensures missed { IfOk result (λ shelf. ⟦<FileShelf<R> as Source>⟧.missed shelf ≡ 0) }
    {
        match BufReader::with_capacity(alloc, READ_AHEAD, Opened::Nothing) {
            Ok(opened) => Ok(FileShelf {
                rt,
                opened,
                faults: 0,
                missed: 0,
            }),
            Err(_) => Err(AllocError),
        }
    }
}

// Reads this in place of what is open. What was read ahead is dropped.
fn turn_to<R: Read + Drop>(reader: &mut BufReader<R>, opened: R) {
    let ahead = reader.buffer().len();
    reader.consume(ahead);
    *reader.get_mut() = opened;
}

// Takes octets out of those that were read ahead, and says whether they are all there; else none is taken.
#[inline(always)]
fn take_ahead<R: Read>(reader: &mut BufReader<R>, buf: &mut [u8]) -> bool {
    let size = buf.len();
    let ahead = reader.buffer();
    if ahead.len() < size {
        return false;
    }
    buf.copy_from_slice(&ahead[..size]);
    reader.consume(size);
    true
}

// Reads from what is open, again where a signal came in between. None says that the read failed.
#[inline(never)]
fn read_some<R: Read>(opened: &mut R, buf: &mut [u8]) -> Option<usize>
    ensures { IfSome result (λ count. count ≤ length buf.new) }
{
    for _ in 0..u64::MAX {
        match opened.read(buf) {
            Ok(count) => return Some(count),
            Err(e) if e.kind() == ErrorKind::Interrupted => {}
            Err(_) => return None,
        }
    }
    None
}

impl<R: Files + Input + Drop> Source for FileShelf<R> {
    ghost left = { λ _. None };

    ghost faults = { λ s. s.faults };

    ghost missed = { λ s. s.missed };

    #[inline(always)]
    fn read(&mut self, buf: &mut [u8]) -> Result<usize, Failed> {
        if take_ahead(&mut self.opened, buf) {
            return Ok(buf.len());
        }
        match read_some(&mut self.opened, buf) {
            Some(count) => Ok(count),
            None => {
                self.faults = self.faults.saturating_add(1);
                Err(Failed)
            }
        }
    }

    fn at_hand(&self) -> &[u8] {
        self.opened.buffer()
    }
}

impl<R: Files + Input + Drop> Shelf for FileShelf<R> {
    fn aim(&mut self, name: &str) -> Result<bool, Failed> {
        if name == "-" {
            let input = self.rt.reader();
            turn_to(&mut self.opened, Opened::Input(input));
            return Ok(true);
        }
        match fs::open(&self.rt, name) {
            Ok(file) => {
                turn_to(&mut self.opened, Opened::File(file));
                Ok(true)
            }
            Err(e) if matches!(e.kind(), ErrorKind::NotFound | ErrorKind::NotADirectory) => {
                turn_to(&mut self.opened, Opened::Nothing);
                Ok(false)
            }
            Err(_) => {
                self.faults = self.faults.saturating_add(1);
                self.missed = self.missed.saturating_add(1);
                Err(Failed)
            }
        }
    }
}
