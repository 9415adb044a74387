ghost use Rattle.std.specs.Io.KnownBytes.{Consumes};
ghost use Rattle.std.specs.Prelude.{◌≡◌, ◌≤◌, length, take, vec_len, IfOk, IfErr, OnOk, IfSome};
ghost use Rattle.whole_texts.specs.Causes.{HasTextCause};
ghost use Rattle.whole_texts.specs.Parts.{ConsumesAtMost};

use crate::text_fault::TextFault;
use std::alloc::{AllocError, Global};
use tm_io::Source;

// The octets that are read at once.
const CHUNK_SIZE: usize = 65_536;

// A buffer of so many octets. The size is no literal here, since a proof would write it out as a list.
fn buffer(alloc: Global, size: usize) -> Result<Vec<u8>, AllocError>
    ensures { IfOk result (λ buffer. vec_len buffer ≡ size) }
{
    Vec::from_elem(alloc, 0, size)
}

// Reads a source to its end, or to so many octets, in pieces that the buffer has room for.
fn read_into<S: Source>(
    source: &mut S,
    most: usize,
    chunk: &mut [u8],
    text: &mut Vec<u8>,
) -> Result<(), TextFault>
    requires room { 1 ≤ length chunk.old }
    requires empty { vec_len text.old ≡ 0 }
    ensures told { OnOk result (IfSome (S.left source.old) (λ octets. text.new.items ≡ take most octets)) }
    ensures taken { OnOk result (Consumes (S.left source.old) (S.left source.new) text.new.items) }
    ensures few { OnOk result (vec_len text.new ≤ most) }
    ensures part { ConsumesAtMost most (S.left source.old) (S.left source.new) }
    ensures ok { OnOk result (S.faults source.new ≡ S.faults source.old) }
    ensures cause { IfErr result (λ fault. HasTextCause fault (S.faults source.old) (S.faults source.new)) }
    ensures holds { S.holds source.new ≡ S.holds source.old }
    ensures missed { S.missed source.new ≡ S.missed source.old }
{
    while text.len() < most {
        let size = chunk.len().min(most - text.len());
        let count = source.read(&mut chunk[..size])?;
        if count == 0 {
            return Ok(());
        }
        text.extend_from_slice(&chunk[..count])?;
    }
    Ok(())
}

/// What a source has left, up to so many octets: no more of it is read, behind an error too.
pub fn read_up_to<S: Source>(
    alloc: Global,
    source: &mut S,
    most: usize,
) -> Result<Vec<u8>, TextFault>
    ensures told { IfOk result (λ text. IfSome (S.left source.old) (λ octets. text.items ≡ take most octets)) }
    ensures taken { IfOk result (λ text. Consumes (S.left source.old) (S.left source.new) text.items) }
    ensures few { IfOk result (λ text. vec_len text ≤ most) }
    ensures part { ConsumesAtMost most (S.left source.old) (S.left source.new) }
    ensures ok { OnOk result (S.faults source.new ≡ S.faults source.old) }
    ensures cause { IfErr result (λ fault. HasTextCause fault (S.faults source.old) (S.faults source.new)) }
    ensures holds { S.holds source.new ≡ S.holds source.old }
    ensures missed { S.missed source.new ≡ S.missed source.old }
{
    let mut chunk = buffer(alloc, CHUNK_SIZE)?;
    let mut text = Vec::new(alloc);
    read_into(source, most, &mut chunk, &mut text)?;
    Ok(text)
}
