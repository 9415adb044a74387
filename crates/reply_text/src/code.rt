// The line that tells how a call of the tool ended.
ghost use Rattle.std.specs.Prelude.{◌≡◌, ◌≤◌, [], length};
ghost use Rattle.run_model.specs.Faults as Spec;

use crate::fault::{add_fault, add_number};
use mib_model::Line;
use run_model::{Code, Input, Misuse};

/// Writes the line of a code, without its line feed, into an empty line. It stays empty where all is well.
#[tactic(auto, unfolding(run_model::specs::Faults::code_line))]
pub fn code_line(code: &Code, out: &mut Line)
    requires { out.old ≡ [] }
    ensures text { out.new ≡ Spec.code_line code.now }
    ensures room { length out.new ≤ 150 }
{
    match code {
        Code::Ok => {}
        Code::Usage(Misuse::Command) => out.add(b"USAGE COMMAND"),
        Code::Usage(Misuse::Words) => out.add(b"USAGE WORDS"),
        Code::BadMib(fault) => {
            out.add(b"BADMIB ");
            add_fault(fault, out);
        }
        Code::NoFile(Input::Feed) => out.add(b"NOFILE FEED"),
        Code::NoFile(Input::Desk) => out.add(b"NOFILE DESK"),
        Code::Cut(octets) => {
            out.add(b"CUT ");
            add_number(*octets, out);
        }
        Code::TablesFault => out.add(b"FAULT TABLES"),
        Code::FeedFault => out.add(b"FAULT FEED"),
        Code::DeskFault => out.add(b"FAULT DESK"),
        Code::OutFault => out.add(b"FAULT OUT"),
        Code::ReplyFault => out.add(b"FAULT REPLIES"),
        Code::Limit => out.add(b"LIMIT"),
        Code::Want => out.add(b"MEMORY"),
    }
}
