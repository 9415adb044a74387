// The way of a record to the output and to the watch.
ghost use Rattle.std.specs.Prelude.{◌≡◌, ◌++◌, ◌∷◌, [], List, OnOk, OnErr};
ghost use Rattle.std.specs.Io.KnownBytes.{Appends};
ghost use Rattle.fold_state.specs.Boards.{memory_of};
ghost use Rattle.packet_run.specs.Told.{Member, member};
ghost use Rattle.tm_io.specs.Causes.{HasCause};
ghost use Rattle.tm_io.specs.Octets.{AppendsPart};

use crate::watch::Watch;
use edition_plans::Plans;
use packet_jobs::InUse;
use record_text::Lines;
use std::sync::Wait;
use tm_io::{Failed, Sink, write_all};

/// Writes the record of a packet, and tells the watch of it.
pub(crate) fn write_record<P: Plans + Drop, O: Sink, W: Watch, R: Wait>(
    rt: &R,
    number: u64,
    in_use: &InUse<P>,
    lines: &Lines,
    out: &mut O,
    watch: &mut W,
) -> Result<(), Failed>
    ensures all { OnOk result (Appends (O.written out.old) (O.written out.new) lines.now) }
    ensures part { OnErr result (AppendsPart (O.written out.old) (O.written out.new) lines.now) }
    ensures told { OnOk result ((told : List Member) → W.stands watch.old told
        → W.stands watch.new (told ++ member number in_use.now.edition (memory_of in_use.now.board) ∷ [])) }
    ensures untold { OnErr result (watch.new ≡ watch.old) }
    ensures cause { HasCause (O.faults out.old) (O.faults out.new) result }
{
    let Ok(()) = write_all(out, lines.bytes()) else {
        return Err(Failed);
    };
    watch.committed(
        rt,
        number,
        in_use.edition,
        in_use.handle.params(),
        &in_use.board,
    );
    Ok(())
}
