// A whole text is printed.
ghost use Rattle.std.specs.Prelude.{◌≡◌, OnOk, OnErr};
ghost use Rattle.std.specs.Io.KnownBytes.{Appends};
ghost use Rattle.tm_io.specs.Causes.{HasCause};
ghost use Rattle.tm_io.specs.Octets.{AppendsPrefix};

use tm_io::{Failed, Sink, write_all};

/// Writes a text, and hands it on.
pub(crate) fn print<O: Sink>(out: &mut O, text: &[u8]) -> Result<(), Failed>
    ensures all { OnOk result (Appends (O.written out.old) (O.written out.new) text.now) }
    ensures part { OnErr result (AppendsPrefix (O.written out.old) (O.written out.new) text.now) }
    ensures handed { OnOk result (O.handed out.new ≡ O.written out.new) }
    ensures cause { HasCause (O.faults out.old) (O.faults out.new) result }
{
    write_all(out, text)?;
    out.flush()
}
