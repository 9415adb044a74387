// A file of text, read whole or up to the most octets that a table may have.
ghost use Rattle.std.specs.Prelude.{◌≡◌, ◌+◌, IfOk, IfErr, OnOk, IfSome};
ghost use Rattle.mib_model.specs.declared.limits.TheConstants.{TABLE_MOST};
ghost use Rattle.session.specs.Causes.{HasLoadCause, IsReadStop};
ghost use Rattle.session.specs.Sources.{octets_of, part_read};
ghost use Rattle.whole_texts.specs.Parts.{ConsumesAtMost, EndsInPart};

use crate::load_fault::LoadFault;
use mib_model::TABLE_MOST;
use std::alloc::Global;
use tm_io::{Shelf, Source};
use whole_texts::read_up_to;

// The most octets of a text that are read: one more than a table may have.
const READ_MOST: usize = TABLE_MOST + 1;

// The text of the file that a shelf is turned to.
fn read_part<S: Source>(alloc: Global, source: &mut S) -> Result<Vec<u8>, LoadFault>
    ensures told { IfOk result (λ text. IfSome (S.left source.old) (λ octets. text.items ≡ part_read octets)) }
    ensures part { ConsumesAtMost (TABLE_MOST + 1) (S.left source.old) (S.left source.new) }
    ensures ok { OnOk result (S.faults source.new ≡ S.faults source.old) }
    ensures cause { IfErr result (λ fault. HasLoadCause fault (S.faults source.old) (S.faults source.new)) }
    ensures stop { IfErr result IsReadStop }
    ensures holds { S.holds source.new ≡ S.holds source.old }
{
    Ok(read_up_to(alloc, source, READ_MOST)?)
}

/// The text of a file, up to `READ_MOST` octets; it is empty where no such file is held.
pub fn read_file<T: Shelf>(alloc: Global, shelf: &mut T, name: &str) -> Result<Vec<u8>, LoadFault>
    ensures told { IfOk result (λ text. IfSome (T.holds shelf.old) (λ files. text.items ≡ part_read (octets_of files name.now))) }
    ensures part { EndsInPart result (TABLE_MOST + 1) (T.holds shelf.old) name.now (T.left shelf.new) (T.missed shelf.old) (T.missed shelf.new) }
    ensures ok { OnOk result (T.faults shelf.new ≡ T.faults shelf.old) }
    ensures cause { IfErr result (λ fault. HasLoadCause fault (T.faults shelf.old) (T.faults shelf.new)) }
    ensures stop { IfErr result IsReadStop }
    ensures holds { T.holds shelf.new ≡ T.holds shelf.old }
{
    let found = shelf.aim(name)?;
    if !found {
        return Ok(Vec::new(alloc));
    }
    read_part(alloc, shelf)
}
