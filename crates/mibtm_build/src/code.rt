ghost use Rattle.std.specs.Prelude.{◌≡◌, ◌≤◌, ◌+◌, ◌++◌, [], length, decimal};
ghost use Rattle.build_rules.specs.Asks as Asks;
ghost use Rattle.build_rules.specs.Asks.{fault_words};
ghost use Rattle.mibtm_build.specs.Codes as Spec;
ghost use Rattle.mibtm_build.specs.Codes.{build_line, build_number};

use build_rules::BuildFault;
use mib_model::{Line, MibFault};
use reply_text::{add_number, code_line};
use run_model::{Code, Input, Misuse};

/// How a call of `build_tool` ends. There is no feed and there are no replies, so their faults never come.
#[derive(Clone, Copy)]
pub enum BuildCode {
    /// The packets of all asks were written.
    Ok,
    /// The words break the word rules.
    Usage(Misuse),
    /// The tables are refused.
    BadMib(MibFault),
    /// The asks aren't there.
    NoFile(Input),
    TablesFault,
    FeedFault,
    /// The asks can't be read.
    DeskFault,
    OutFault,
    ReplyFault,
    /// As many lines or octets of asks were read as a script may have.
    Limit,
    /// Want of memory.
    Want,
    /// No packet is built for this line, counted from 1.
    Refused { line: u32, fault: BuildFault },
}

// Appends the words of a fault.
fn add_words(fault: &BuildFault, out: &mut Line)
    requires { length out.old ≤ 100 }
    ensures text { out.new ≡ out.old ++ fault_words fault.now }
    ensures room { length out.new ≤ length out.old + 50 }
{
    match fault {
        BuildFault::NoSpid => out.add(b"NOSPID"),
        BuildFault::Apid { .. } => out.add(b"APID"),
        BuildFault::Discriminant { .. } => out.add(b"DISCRIMINANT"),
        BuildFault::Items { at } => {
            out.add(b"ITEMS ");
            add_number(*at, out);
        }
        BuildFault::Range { at } => {
            out.add(b"RANGE ");
            add_number(*at, out);
        }
        BuildFault::Ends { .. } => out.add(b"ENDS"),
        BuildFault::Long => out.add(b"LONG"),
        BuildFault::Clash { .. } => out.add(b"CLASH"),
        BuildFault::Ask => out.add(b"ASK"),
        BuildFault::Memory => out.add(b"MEMORY"),
    }
}

// Writes the line of a refusal into an empty line.
fn refused_line(line: u32, fault: &BuildFault, out: &mut Line)
    requires { out.old ≡ [] }
    ensures text { out.new ≡ Asks.refused_line line fault.now }
    ensures room { length out.new ≤ 150 }
{
    out.add(b"REFUSED ");
    add_number(line, out);
    out.add(b" ");
    add_words(fault, out);
}

impl BuildCode {
    // The code of the other commands that ends a call so too; none of a refusal.
    fn plain(&self) -> Option<Code>
        ensures { result ≡ Spec.plain_code self.now }
    {
        Some(match self {
            BuildCode::Ok => Code::Ok,
            BuildCode::Usage(misuse) => Code::Usage(*misuse),
            BuildCode::BadMib(fault) => Code::BadMib(*fault),
            BuildCode::NoFile(input) => Code::NoFile(*input),
            BuildCode::TablesFault => Code::TablesFault,
            BuildCode::FeedFault => Code::FeedFault,
            BuildCode::DeskFault => Code::DeskFault,
            BuildCode::OutFault => Code::OutFault,
            BuildCode::ReplyFault => Code::ReplyFault,
            BuildCode::Limit => Code::Limit,
            BuildCode::Want => Code::Want,
            BuildCode::Refused { .. } => return None,
        })
    }

    /// The exit status, from 0 to 13.
    pub fn number(&self) -> u8
        ensures { result ≡ build_number self.now }
    {
        match self.plain() {
            Some(code) => code.number(),
            None => 13,
        }
    }

    /// Writes the line of a code, without its line feed, into an empty line. It stays empty where all is well.
    pub fn line(&self, out: &mut Line)
        requires { out.old ≡ [] }
        ensures text { out.new ≡ build_line self.now }
        ensures room { length out.new ≤ 150 }
    {
        match self {
            BuildCode::Refused { line, fault } => refused_line(*line, fault, out),
            _ => match self.plain() {
                Some(code) => code_line(&code, out),
                None => {}
            },
        }
    }
}
