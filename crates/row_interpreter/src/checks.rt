ghost use Rattle.std.specs.Prelude.{◌≡◌, filter, IfOk};
ghost use Rattle.std.specs.List.{find};
ghost use Rattle.std.specs.Option.{option_copied};
ghost use Rattle.std.specs.Str.{bytes_eq};
ghost use Rattle.mib_model.specs.Orders.{sorted_by_number};

use crate::ordered::OrderedRows;
use first_rows::FirstRows;
use mib_model::{Name, OcfRow, OcpRow};
use row_keys::ByName;
use std::alloc::{AllocError, Global};
use std::marker::Model;

/// The rows of checks and their limits. Contracts see the tables.
pub struct CheckRows {
    checks: FirstRows<ByName<OcfRow>>,
    limits: OrderedRows<ByName<OcpRow>>,
}

/// By hand, so that whoever lets one go proves one call.
impl Drop for CheckRows {
    fn drop(self) {
        let CheckRows {
            checks: _checks,
            limits: _limits,
        } = self;
    }
}

impl Model for CheckRows {
    ghost use Rattle.row_interpreter.specs.Tables.{CheckTables};

    ghost Value = { CheckTables };

    ghost view = { λ rows. record { ocf = rows.checks; ocp = rows.limits } };
}

impl CheckRows {
    /// The rows of ocf and ocp. An error is want of memory.
    pub fn new(alloc: Global, ocf: &[OcfRow], ocp: &[OcpRow]) -> Result<CheckRows, AllocError>
        ensures { IfOk result (λ rows. rows ≡ record { ocf = ocf.now; ocp = ocp.now }) }
    {
        Ok(CheckRows {
            checks: FirstRows::new(alloc, ocf)?,
            limits: OrderedRows::new(alloc, ocp)?,
        })
    }

    /// The first check of a parameter.
    pub fn check(&self, name: &Name) -> Option<&OcfRow>
        ensures { option_copied result ≡ find (λ row. bytes_eq row.name name.now) self.now.ocf }
    {
        self.checks.find(name)
    }

    /// The limits of a parameter, by POS.
    pub fn limits(&self, name: &Name) -> &[OcpRow]
        ensures { result.now ≡ sorted_by_number (λ row. row.pos) (filter (λ row. bytes_eq row.name name.now) self.now.ocp) }
    {
        self.limits.of(name)
    }
}
