// The printed text, read whole or up to one octet more than is audited.
ghost use Rattle.std.specs.Prelude.{◌≡◌, IfErr, IfOk, IfSome, OnOk};
ghost use Rattle.session.specs.Sources.{part_read};
ghost use Rattle.mibtm_audit.specs.Statement.{HasTextCause, IsTextRead, Untold, unread_code};
ghost use Rattle.tool_objects.specs.Objects.{shelf};

use std::alloc::Global;
use tm_audit::{AuditCode, AuditInput, TEXT_MOST};
use tm_io::{Shelf, Source};
use whole_texts::{TextFault, read_up_to};

// The most octets of a text that are read.
const READ_MOST: usize = TEXT_MOST + 1;

// The code of a text that wasn't read.
fn code_of(fault: TextFault) -> AuditCode
    ensures { result ≡ unread_code fault }
{
    match fault {
        TextFault::Failed => AuditCode::TextFault,
        TextFault::Memory => AuditCode::Want,
    }
}

// What a source has left, up to the most octets that are read.
fn read_left<X: Source>(alloc: Global, source: &mut X) -> Result<Vec<u8>, AuditCode>
    ensures told { IfOk result (λ text. IfSome (X.left source.old) (λ octets. text.items ≡ part_read octets)) }
    ensures ok { OnOk result (X.faults source.new ≡ X.faults source.old) }
    ensures cause { IfErr result (λ code. HasTextCause code (X.faults source.old) (X.faults source.new)) }
    ensures missed { X.missed source.new ≡ X.missed source.old }
{
    match read_up_to(alloc, source, READ_MOST) {
        Ok(text) => Ok(text),
        Err(fault) => Err(code_of(fault)),
    }
}

/// The text of that name, up to the most octets that are read.
pub(crate) fn text_of<X: Shelf>(
    alloc: Global,
    name: &str,
    text: &mut X,
) -> Result<Vec<u8>, AuditCode>
    ensures told { IfOk result (λ octets. IsTextRead octets.items name.now (shelf text.old text.new X.holds X.left X.faults X.missed)) }
    ensures untold { IfErr result (λ code. Untold code name.now (shelf text.old text.new X.holds X.left X.faults X.missed)) }
{
    match text.aim(name) {
        Ok(true) => read_left(alloc, text),
        Ok(false) => Err(AuditCode::NoFile(AuditInput::Text)),
        Err(_) => Err(AuditCode::TextFault),
    }
}
