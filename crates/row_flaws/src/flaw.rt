// A flaw of a row, as a fault of its table.
ghost use Rattle.std.specs.Prelude.{◌≡◌, not, Option, Some, None, option_map};
ghost use Rattle.std.specs.List.{find};
ghost use Rattle.std.specs.Option.{option_copied};
ghost use Rattle.mib_model.specs.Flaws.{fault_of, flaw_if, missing};

use mib_model::{Kind, MibCode, MibFault};

/// Where a row stands: its table, and its number from 1.
#[derive(Clone, Copy)]
pub struct At {
    pub table: Kind,
    pub number: u32,
}

impl At {
    /// The row of a number of a table.
    pub fn new(table: Kind, number: u32) -> At
        ensures table { result.table ≡ table }
        ensures number { result.number ≡ number }
    {
        At { table, number }
    }

    /// A flaw without a column, where something holds of the row.
    pub fn flaw_if(self, code: MibCode, holds: bool) -> Option<MibFault>
        ensures { result ≡ option_map (fault_of self.table self.number) (flaw_if code holds) }
    {
        if holds {
            Some(MibFault {
                table: self.table,
                row: self.number,
                column: 0,
                first: 0,
                code,
            })
        } else {
            None
        }
    }

    /// The first reference, each a column and whether its row is there, whose row isn't there.
    pub fn missing(self, references: &[(u8, bool)]) -> Option<MibFault>
        ensures { result ≡ option_map (fault_of self.table self.number) (missing references.now) }
    {
        match first_missing(references) {
            Some(reference) => Some(MibFault {
                table: self.table,
                row: self.number,
                column: reference.0,
                first: 0,
                code: MibCode::NoRef,
            }),
            None => None,
        }
    }
}

fn first_missing(references: &[(u8, bool)]) -> Option<&(u8, bool)>
    ensures { option_copied result ≡ find (λ r. not r.1) references.now }
{
    references.iter().find(|reference| !reference.1)
}
