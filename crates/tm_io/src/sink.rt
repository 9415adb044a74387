ghost use Rattle.std.specs.Prelude.{◌≡◌, ℕ, List, Option, OnOk, OnErr};
ghost use Rattle.std.specs.Io.{WritesAtMost};
ghost use Rattle.std.specs.Io.KnownBytes.{Appends, Keeps, WriteAppends};
ghost use Rattle.tm_io.specs.Causes.{HasCause};
ghost use Rattle.tm_io.specs.Octets.{TakesSome, AppendsPrefix, AppendsPart};

use crate::Failed;

/// A place outside for octets.
pub trait Sink {
    /// The octets that it was given, where the object tells them.
    ghost written: { Self → Option (List ℕ) };

    /// The octets that `flush` handed on, where the object tells them.
    ghost handed: { Self → Option (List ℕ) };

    /// How often it failed.
    ghost faults: { Self → ℕ };

    /// Which loan it is, where it is a reference.
    ghost borrow: { Self → ℕ } = { λ _. 0 };

    /// Takes some first octets of `piece`: at least one, unless it is empty. A call that fails takes nothing.
    fn write(&mut self, piece: &[u8]) -> Result<usize, Failed>
        ensures bound { WritesAtMost result piece.now }
        ensures some { TakesSome result piece.now }
        ensures bytes { WriteAppends (written self.old) (written self.new) result piece.now }
        ensures handed { handed self.new ≡ handed self.old }
        ensures cause { HasCause (faults self.old) (faults self.new) result }
        ensures borrow { borrow self.new ≡ borrow self.old };

    /// Hands on all that was taken. It changes no octet of what was written.
    fn flush(&mut self) -> Result<(), Failed>
        ensures bytes { written self.new ≡ written self.old }
        ensures handed { OnOk result (handed self.new ≡ written self.new) }
        ensures cause { HasCause (faults self.old) (faults self.new) result }
        ensures borrow { borrow self.new ≡ borrow self.old };
}

impl<S: Sink> Sink for &mut S {
    ghost written = { λ s. S.written s.now };

    ghost handed = { λ s. S.handed s.now };

    ghost faults = { λ s. S.faults s.now };

    ghost borrow = { λ s. s.ghost_name };

    fn write(&mut self, piece: &[u8]) -> Result<usize, Failed> {
        Sink::write(&mut **self, piece)
    }

    fn flush(&mut self) -> Result<(), Failed> {
        Sink::flush(&mut **self)
    }
}

/// Writes all of the octets. Where it fails, some first of them were written, and not the last. It hands nothing on.
pub fn write_all<O: Sink>(out: &mut O, octets: &[u8]) -> Result<(), Failed>
    ensures all { OnOk result (Appends (O.written out.old) (O.written out.new) octets.now) }
    ensures part { OnErr result (AppendsPrefix (O.written out.old) (O.written out.new) octets.now) }
    ensures rest { OnErr result (AppendsPart (O.written out.old) (O.written out.new) octets.now) }
    ensures handed { O.handed out.new ≡ O.handed out.old }
    ensures cause { HasCause (O.faults out.old) (O.faults out.new) result }
    ensures borrow { O.borrow out.new ≡ O.borrow out.old }
{
    let mut at = 0;
    while at < octets.len() {
        at += out.write(&octets[at..])?;
    }
    Ok(())
}
