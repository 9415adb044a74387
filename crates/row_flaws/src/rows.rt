// The rules of each table, but for the one that no row stands twice.
ghost use Rattle.std.specs.Prelude.{◌≡◌, ◌-◌};
ghost use Rattle.row_flaws.specs.Rows.{IsFirst, row_flaw};

use crate::groups::vpd_flaw;
use crate::lookups::Lookups;
use crate::points::{cap_flaw, txp_flaw};
use crate::rules::{caf_flaw, cur_flaw, ocf_flaw, ocp_flaw, pcf_flaw, pid_flaw, plf_flaw};
use mib_model::{MibFault, Row};

/// The first flaw of the row of a number in its table, where its key stands in no row before it: by the rules of its table,
/// which follow that one.
#[inline(always)]
pub fn row_flaw(lookups: &Lookups<'_>, number: u32, row: &Row) -> Option<MibFault>
    requires { IsFirst lookups.now (number - 1) row.now }
    ensures { result ≡ row_flaw lookups.now number row.now }
{
    match row {
        Row::Pcf(row) => pcf_flaw(lookups, number, row),
        Row::Pid(row) => pid_flaw(lookups, number, row),
        Row::Plf(row) => plf_flaw(lookups, number, row),
        Row::Vpd(row) => vpd_flaw(lookups, number, row),
        Row::Cur(row) => cur_flaw(lookups, number, row),
        Row::Caf(row) => caf_flaw(lookups, number, row),
        Row::Cap(row) => cap_flaw(lookups, number, row),
        Row::Txp(row) => txp_flaw(lookups, number, row),
        Row::Ocf(row) => ocf_flaw(lookups, number, row),
        Row::Ocp(row) => ocp_flaw(lookups, number, row),
        Row::Pic(_) | Row::Tpcf(_) | Row::Txf(_) | Row::Mcf(_) | Row::Lgf(_) => None,
    }
}
