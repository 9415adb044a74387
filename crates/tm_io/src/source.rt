ghost use Rattle.std.specs.Prelude.{◌≡◌, ℕ, List, Option, Some, None, IfSome, IfOk, is_some, Ok, false};
ghost use Rattle.std.specs.Io.{ReadsAtMost, StartsWith};
ghost use Rattle.std.specs.Io.KnownBytes.{ReadConsumes, IsAtEnd};
ghost use Rattle.tm_io.specs.Causes.{HasCause};

use crate::Failed;

/// Octets from outside.
pub trait Source {
    /// The octets still to come, where the object tells them.
    ghost left: { Self → Option (List ℕ) };

    /// How often it failed.
    ghost faults: { Self → ℕ };

    /// The octets of the file of each name, where the object has files and tells them.
    ghost holds: { Self → Option (List ℕ → Option (List ℕ)) } = { λ _. None };

    /// How often it failed to turn to a file.
    ghost missed: { Self → ℕ } = { λ _. 0 };

    /// Which loan it is, where it is a reference, so that a value that keeps a `&mut` can say it is the same one.
    ghost borrow: { Self → ℕ } = { λ _. 0 };

    /// Gives the next octets, into the front of `buf`. It gives none only at the end, or where `buf` is empty.
    fn read(&mut self, buf: &mut [u8]) -> Result<usize, Failed>
        ensures bound { ReadsAtMost result buf.new }
        ensures bytes { ReadConsumes (left self.old) (left self.new) result buf.new }
        ensures cause { HasCause (faults self.old) (faults self.new) result }
        ensures holds { holds self.new ≡ holds self.old }
        ensures missed { missed self.new ≡ missed self.old }
        ensures borrow { borrow self.new ≡ borrow self.old };

    /// The next octets that are known to be there, so that a read of them doesn't wait: none where nothing is known.
    fn at_hand(&self) -> &[u8]
        ensures { IfSome (left self.now) (λ octets. StartsWith octets result.now) };
}

/// A source that is turned from one file to another by their names.
pub trait Shelf: Source {
    /// Turns to the start of the file of that name. `Ok(false)` says that no such file is held.
    fn aim(&mut self, name: &str) -> Result<bool, Failed>
        ensures held { IfSome (Self.holds self.old) (λ files. IfOk result (λ found. found ≡ is_some (files name.now))) }
        ensures left { IfSome (Self.holds self.old) (λ files. IfOk result (λ _. IfSome (files name.now) (λ octets. Self.left self.new ≡ Some octets))) }
        ensures nothing { result ≡ Ok false → IsAtEnd (Self.left self.new) }
        ensures cause { HasCause (Self.faults self.old) (Self.faults self.new) result }
        ensures missed { HasCause (Self.missed self.old) (Self.missed self.new) result }
        ensures holds { Self.holds self.new ≡ Self.holds self.old }
        ensures borrow { Self.borrow self.new ≡ Self.borrow self.old };
}

impl<S: Source> Source for &mut S {
    ghost left = { λ s. S.left s.now };

    ghost faults = { λ s. S.faults s.now };

    ghost holds = { λ s. S.holds s.now };

    ghost missed = { λ s. S.missed s.now };

    ghost borrow = { λ s. s.ghost_name };

    fn read(&mut self, buf: &mut [u8]) -> Result<usize, Failed> {
        Source::read(&mut **self, buf)
    }

    fn at_hand(&self) -> &[u8] {
        Source::at_hand(&**self)
    }
}

impl<S: Shelf> Shelf for &mut S {
    fn aim(&mut self, name: &str) -> Result<bool, Failed> {
        Shelf::aim(&mut **self, name)
    }
}
