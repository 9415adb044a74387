// The texts of faults.
ghost use Rattle.std.specs.Prelude.{◌≡◌, ◌≤◌, ◌+◌, ◌++◌, length};
ghost use Rattle.run_model.specs.Faults as Spec;
ghost use Rattle.mib_model.specs.Kinds.{kind_name};
ghost use Rattle.mib_model.specs.declared.line.TheConstants.{LINE_ROOM};

use itoa::{Buffer, Integer};
use mib_model::{Kind, Line, MibCode, MibFault};

/// Appends a number's digits to a line, in which at least 40 octets are free.
pub fn add_number<I: Integer>(n: I, out: &mut Line)
    requires { length out.old + 40 ≤ LINE_ROOM }
    ensures text { out.new ≡ out.old ++ I.text n }
    ensures room { length out.new ≤ length out.old + 40 }
{
    out.add(Buffer::new().format(n).as_bytes());
}

/// Appends a number behind a space, and nothing for 0.
pub(crate) fn add_number_behind(n: u32, out: &mut Line)
    requires { length out.old + 41 ≤ LINE_ROOM }
    ensures text { out.new ≡ out.old ++ Spec.number_behind n }
    ensures room { length out.new ≤ length out.old + 41 }
{
    if n != 0 {
        out.add(b" ");
        add_number(n, out);
    }
}

/// The word of a fault.
pub(crate) fn fault_word(code: MibCode) -> &'static [u8]
    ensures word { result.now ≡ Spec.fault_word code }
    ensures short { length result.now ≤ 9 }
{
    match code {
        MibCode::Mark => b"MARK",
        MibCode::LineLong => b"LINELONG",
        MibCode::Rows => b"ROWS",
        MibCode::FewFields => b"FEWFIELDS",
        MibCode::BadNumber => b"BADNUMBER",
        MibCode::BadCode => b"BADCODE",
        MibCode::BadName => b"BADNAME",
        MibCode::Twice => b"TWICE",
        MibCode::NoRef => b"NOREF",
        MibCode::BadType => b"BADTYPE",
        MibCode::Points => b"POINTS",
        MibCode::Group => b"GROUP",
        MibCode::Width => b"WIDTH",
        MibCode::Both => b"BOTH",
        MibCode::Big => b"BIG",
    }
}

// The name of a table.
fn table_name(table: Kind) -> &'static [u8]
    ensures name { result.now ≡ kind_name table }
    ensures short { length result.now ≤ 4 }
{
    table.name().as_bytes()
}

/// Appends the table, the row and the word of a fault, and the column or the first row.
#[tactic(auto, unfolding(run_model::specs::Faults::fault_text))]
pub(crate) fn add_fault(fault: &MibFault, out: &mut Line)
    requires { length out.old + 140 ≤ LINE_ROOM }
    ensures text { out.new ≡ out.old ++ Spec.fault_text fault.now }
    ensures room { length out.new ≤ length out.old + 140 }
{
    out.add(table_name(fault.table));
    out.add(b" ");
    add_number(fault.row, out);
    out.add(b" ");
    out.add(fault_word(fault.code));
    add_number_behind(u32::from(fault.column), out);
    add_number_behind(fault.first, out);
}
