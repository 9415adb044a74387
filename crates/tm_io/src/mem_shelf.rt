// Files in memory, with faults where a test wants them.
ghost use Rattle.std.specs.Prelude.{◌≡◌, ◌≢◌, ◌≤◌, ◌<◌, ◌+◌, ◌==◌, ◌↔◌, ℕ, List, IsErr, is_none, Some, None, [], take, drop, length, is_err, is_some, Ok, false, IfSome, IfOk, OnOk, OnErr, MatchOption};
ghost use Rattle.std.specs.Option.{ForSome};
ghost use Rattle.std.specs.Io.{ReadsAtMost};
ghost use Rattle.std.specs.Io.KnownBytes.{ReadConsumes, IsAtEnd};
ghost use Rattle.tm_io.specs.Causes.{HasCause};
ghost use Rattle.tm_io.specs.Files.{file_of, fails_of, fails_at, octets_at, left_of};
ghost use Rattle.tm_io.specs.Stops.{is_stop, StopsBefore, without};

use crate::stops::{count_to_stop, is_stop_at, spend_stop};
use crate::{Failed, Shelf, Source};

/// A file in memory. Positions in `fails` count the octets given since the last turn to the file; the first read made
/// at each of them fails.
#[derive(Drop)]
pub struct MemFile {
    pub name: String,
    pub bytes: Vec<u8>,
    pub fails: Vec<u64>,
}

/// Files in memory. A read gives at most so many octets, and passes none of the positions at which its file fails. Of
/// two files of one name the first is held.
#[derive(Drop)]
pub struct MemShelf {
    files: Vec<MemFile>,
    most: usize,
    // The file that is open, and how many octets were given since the turn to it.
    place: Option<usize>,
    at: usize,
    // How many further turns to a file come before the one that fails.
    skips: Option<u64>,
    faults: u64,
    missed: u64,
    ghost gives_some: { 1 ≤ most },
    ghost opened: { ForSome place (λ i. i < length files.items) },
    ghost within: { ForSome place (λ i. at ≤ length (octets_at files.items i)) },
}

// The place of the first file of that name.
fn place_of(files: &[MemFile], name: &str) -> Option<usize>
    ensures octets { MatchOption result (file_of files.now name.now ≡ None)
        (λ i. (i < length files.now) × (file_of files.now name.now ≡ Some (octets_at files.now i))) }
    ensures fails { MatchOption result (fails_of files.now name.now ≡ []) (λ i. fails_of files.now name.now ≡ fails_at files.now i) }
{
    for (i, file) in files.iter().enumerate() {
        if file.name.as_str() == name {
            return Some(i);
        }
    }
    None
}

// The file at a place.
fn file_at(files: &[MemFile], place: usize) -> &MemFile
    requires { place < length files.now }
    ensures octets { octets_at files.now place ≡ result.now.bytes.items }
    ensures fails { fails_at files.now place ≡ result.now.fails.items }
{
    &files[place]
}

// Uses up the stop of a file at which a read has failed.
fn spend_stop_of(files: &mut [MemFile], place: usize, at: u64)
    requires { place < length files.old }
    ensures octets { (i : ℕ) → octets_at files.new i ≡ octets_at files.old i }
    ensures names { (name : List ℕ) → file_of files.new name ≡ file_of files.old name }
    ensures spent { fails_at files.new place ≡ without (fails_at files.old place) at }
    ensures others { (i : ℕ) → i ≢ place → fails_at files.new i ≡ fails_at files.old i }
{
    spend_stop(&mut files[place].fails, at);
}

// Gives the next octets of a file from a position on. None says that the position is a stop.
fn give(file: &MemFile, at: usize, most: usize, buf: &mut [u8]) -> Option<usize>
    requires { (1 ≤ most) × (at ≤ length file.now.bytes.items) }
    ensures fails { is_none result ≡ is_stop file.now.fails.items at }
    ensures bound { IfSome result (λ count. (count ≤ most) × (count ≤ length buf.new) × (at + count ≤ length file.now.bytes.items)) }
    ensures octets { IfSome result (λ count. take count buf.new ≡ take count (drop at file.now.bytes.items)) }
    ensures end { IfSome result (λ count. count ≡ 0 → 0 < length buf.new → length file.now.bytes.items ≤ at) }
    ensures before_stops { IfSome result (λ count. StopsBefore file.now.fails.items at count) }
{
    if is_stop_at(&file.fails, at as u64) {
        return None;
    }
    let rest = file.bytes.len() - at;
    let most = buf.len().min(most).min(rest);
    let count = count_to_stop(&file.fails, at as u64, most);
    buf[..count].copy_from_slice(&file.bytes[at..at + count]);
    Some(count)
}

impl MemShelf {
    ghost use Rattle.tm_io.specs.MemShelf.{files_of, position, stops, most_of, skips_of, failing_aim};

    /// These files, with none of them open.
    pub fn new(files: Vec<MemFile>, most: usize) -> MemShelf
        requires { 1 ≤ most }
        ensures holds { ⟦<MemShelf as Source>⟧.holds result ≡ Some (file_of files.items) }
        ensures left { ⟦<MemShelf as Source>⟧.left result ≡ Some [] }
        ensures faults { ⟦<MemShelf as Source>⟧.faults result ≡ 0 }
        ensures missed { ⟦<MemShelf as Source>⟧.missed result ≡ 0 }
        ensures files { files_of result ≡ files.items }
        ensures settings { (most_of result ≡ most) × (skips_of result ≡ None) }
        ensures position { (position result ≡ 0) × (stops result ≡ []) }
    {
        MemShelf {
            files,
            most,
            place: None,
            at: 0,
            skips: None,
            faults: 0,
            missed: 0,
        }
    }

    /// Makes that turn to a file fail which comes after so many further ones.
    pub fn fail_aim(&mut self, skip: u64)
        ensures { self.new ≡ failing_aim self.old skip }
    {
        self.skips = Some(skip);
    }
}

impl Source for MemShelf {
    ghost use Rattle.tm_io.specs.MemShelf.{position, stops, Reads};

    ghost left = { λ s. Some (left_of s.files.items s.place s.at) };

    ghost faults = { λ s. s.faults };

    ghost holds = { λ s. Some (file_of s.files.items) };

    ghost missed = { λ s. s.missed };

    fn read(&mut self, buf: &mut [u8]) -> Result<usize, Failed>
        ensures bound { ReadsAtMost result buf.new }
        ensures bytes { ReadConsumes (⟦<MemShelf as Source>⟧.left self.old) (⟦<MemShelf as Source>⟧.left self.new) result buf.new }
        ensures cause { HasCause (⟦<MemShelf as Source>⟧.faults self.old) (⟦<MemShelf as Source>⟧.faults self.new) result }
        ensures holds { ⟦<MemShelf as Source>⟧.holds self.new ≡ ⟦<MemShelf as Source>⟧.holds self.old }
        ensures missed { ⟦<MemShelf as Source>⟧.missed self.new ≡ ⟦<MemShelf as Source>⟧.missed self.old }
        ensures borrow { ⟦<MemShelf as Source>⟧.borrow self.new ≡ ⟦<MemShelf as Source>⟧.borrow self.old }

        // It fails exactly at a stop.
        ensures fails { is_err result ≡ is_stop (stops self.old) (position self.old) }
        ensures reads { Reads self.old self.new result }
    {
        let Some(place) = self.place else {
            return Ok(0);
        };
        let Some(count) = give(file_at(&self.files, place), self.at, self.most, buf) else {
            spend_stop_of(&mut self.files, place, self.at as u64);
            self.faults = self.faults.saturating_add(1);
            return Err(Failed);
        };
        self.at += count;
        Ok(count)
    }

    fn at_hand(&self) -> &[u8] {
        match self.place {
            Some(place) => &file_at(&self.files, place).bytes[self.at..],
            None => &[],
        }
    }
}

impl Shelf for MemShelf {
    ghost use Rattle.tm_io.specs.MemShelf.{files_of, position, stops, most_of, skips_of, one_less};

    fn aim(&mut self, name: &str) -> Result<bool, Failed>
        ensures held { IfOk result (λ found. found ≡ is_some (file_of (files_of self.old) name.now)) }
        ensures left { OnOk result (IfSome (file_of (files_of self.old) name.now) (λ octets. ⟦<MemShelf as Source>⟧.left self.new ≡ Some octets)) }
        ensures nothing { result ≡ Ok false → IsAtEnd (⟦<MemShelf as Source>⟧.left self.new) }
        ensures cause { HasCause (⟦<MemShelf as Source>⟧.faults self.old) (⟦<MemShelf as Source>⟧.faults self.new) result }
        ensures missed { HasCause (⟦<MemShelf as Source>⟧.missed self.old) (⟦<MemShelf as Source>⟧.missed self.new) result }
        ensures holds { ⟦<MemShelf as Source>⟧.holds self.new ≡ ⟦<MemShelf as Source>⟧.holds self.old }
        ensures borrow { ⟦<MemShelf as Source>⟧.borrow self.new ≡ ⟦<MemShelf as Source>⟧.borrow self.old }

        // The turn that was to fail fails, and no other.
        ensures fails { IsErr result ↔ (skips_of self.old ≡ Some 0) }
        ensures skips { skips_of self.new ≡ one_less (skips_of self.old) }

        // A turn begins at position 0 of the file, with the stops that the file has left.
        ensures start { OnOk result ((position self.new ≡ 0) × (stops self.new ≡ fails_of (files_of self.old) name.now)) }
        ensures kept { (files_of self.new ≡ files_of self.old) × (most_of self.new ≡ most_of self.old) }
    {
        if let Some(skips) = self.skips {
            if skips == 0 {
                self.skips = None;
                self.faults = self.faults.saturating_add(1);
                self.missed = self.missed.saturating_add(1);
                return Err(Failed);
            }
            self.skips = Some(skips - 1);
        }
        self.at = 0;
        self.place = place_of(&self.files, name);
        Ok(self.place.is_some())
    }
}
