// The keys by which rows are searched.
ghost use Rattle.std.specs.Prelude.{◌≡◌, option_map, pos};

use crate::ordered::ByPlace;
use first_rows::By;
use mib_model::{CurRow, OcpRow, PcfRow, VpdRow};
use row_keys::{ByName, ByTpsd};

// A number as a raw number.
fn number_of(number: Option<u32>) -> Option<i128>
    ensures { result ≡ option_map pos number }
{
    Some(i128::from(number?))
}

/// Measured parameters that aren't deduced, by the numbers that deduced ones name.
#[derive(Drop)]
pub struct ByPid;

impl By for ByPid {
    ghost use Rattle.row_interpreter.specs.Keys.{number_key};

    type Row = PcfRow;

    type Key = i128;

    ghost key_of = { number_key };

    fn key(row: &PcfRow) -> Option<i128> {
        if row.is_measured() && !row.is_deduced() {
            number_of(row.pid)
        } else {
            None
        }
    }
}

impl ByPlace for ByTpsd {
    ghost place_of = { λ row. row.pos };

    fn place(row: &VpdRow) -> u16 {
        row.pos
    }
}

impl ByPlace for ByName<CurRow> {
    ghost place_of = { λ row. row.pos };

    fn place(row: &CurRow) -> u16 {
        row.pos
    }
}

impl ByPlace for ByName<OcpRow> {
    ghost place_of = { λ row. row.pos };

    fn place(row: &OcpRow) -> u16 {
        row.pos
    }
}
