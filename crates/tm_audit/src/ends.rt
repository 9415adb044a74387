// The exit statuses of an audit, the lines of its findings and those of its other ends.
ghost use Rattle.std.specs.Prelude.{◌≡◌, ◌≤◌, [], length};
ghost use Rattle.tm_audit.specs.Codes as Spec;

use crate::code::{AuditCode, AuditInput};
use mib_model::Line;
use reply_text::{add_number, code_line};
use run_model::{Code, Input};

impl AuditCode {
    // The code of a decoding that ends so too; none of an end that an audit alone has.
    fn plain(&self) -> Option<Code>
        ensures { result ≡ Spec.plain_code self.now }
    {
        Some(match self {
            AuditCode::Usage(misuse) => Code::Usage(*misuse),
            AuditCode::BadMib(fault) => Code::BadMib(*fault),
            AuditCode::NoFile(AuditInput::Feed) => Code::NoFile(Input::Feed),
            AuditCode::NoFile(AuditInput::Desk) => Code::NoFile(Input::Desk),
            AuditCode::TablesFault => Code::TablesFault,
            AuditCode::FeedFault => Code::FeedFault,
            AuditCode::DeskFault => Code::DeskFault,
            AuditCode::OutFault => Code::OutFault,
            AuditCode::ReplyFault => Code::ReplyFault,
            AuditCode::Limit => Code::Limit,
            AuditCode::Want => Code::Want,
            _ => return None,
        })
    }

    // The exit status of an end that an audit alone has.
    fn own_number(&self) -> u8
        ensures { result ≡ Spec.own_number self.now }
    {
        match self {
            AuditCode::NoFile(_) => 4,
            AuditCode::Differs { .. } => 13,
            AuditCode::NoEdition { .. } => 14,
            AuditCode::TextFault => 15,
            AuditCode::Large => 16,
            _ => 0,
        }
    }

    /// The exit status, from 0 to 16.
    #[tactic(auto, unfolding(crate::specs::Codes::audit_number))]
    pub fn number(&self) -> u8
        ensures { result ≡ Spec.audit_number self.now }
    {
        match self.plain() {
            Some(code) => code.number(),
            None => self.own_number(),
        }
    }

    // Writes the line of an end that an audit alone has and that is no finding into an empty line.
    fn own_line(&self, out: &mut Line)
        requires { out.old ≡ [] }
        ensures text { out.new ≡ Spec.own_line self.now }
        ensures room { length out.new ≤ 150 }
    {
        match self {
            AuditCode::NoFile(_) => out.add(b"NOFILE TEXT"),
            AuditCode::TextFault => out.add(b"FAULT TEXT"),
            _ => {}
        }
    }

    /// Writes the line of an end, without its line feed, into an empty line. It stays empty where the end is a finding.
    #[tactic(auto, unfolding(crate::specs::Codes::audit_line))]
    pub fn line(&self, out: &mut Line)
        requires { out.old ≡ [] }
        ensures text { out.new ≡ Spec.audit_line self.now }
        ensures room { length out.new ≤ 150 }
    {
        match self.plain() {
            Some(code) => code_line(&code, out),
            None => self.own_line(out),
        }
    }

    /// Writes the line of a finding, with its line feed, into an empty line. It stays empty where the end is none.
    #[tactic(auto, unfolding(crate::specs::Codes::finding_text))]
    pub fn finding_line(&self, out: &mut Line)
        requires { out.old ≡ [] }
        ensures { out.new ≡ Spec.finding_text self.now }
    {
        match self {
            AuditCode::Same => out.add(b"SAME\n"),
            AuditCode::Differs { line } => {
                out.add(b"DIFFERS ");
                add_number(*line, out);
                out.add(b"\n");
            }
            AuditCode::NoEdition { line, count } => {
                out.add(b"NOEDITION ");
                add_number(*line, out);
                out.add(b" COUNT ");
                add_number(*count, out);
                out.add(b"\n");
            }
            AuditCode::Large => out.add(b"LARGE\n"),
            _ => {}
        }
    }
}
