// Rows of structures by the numbers of these.
use first_rows::By;
use mib_model::VpdRow;

/// Rows of structures by TPSD, as rows name it.
#[derive(Drop)]
pub struct ByStructure;

impl By for ByStructure {
    ghost use Rattle.std.specs.Prelude.{Some};

    type Row = VpdRow;

    type Key = u32;

    ghost key_of = { λ row. Some row.tpsd };

    fn key(row: &VpdRow) -> Option<u32> {
        Some(row.tpsd)
    }
}

/// Rows of structures by TPSD, as a value of a packet names it: any raw number.
#[derive(Drop)]
pub struct ByTpsd;

impl By for ByTpsd {
    ghost use Rattle.std.specs.Prelude.{pos, Some};

    type Row = VpdRow;

    type Key = i128;

    ghost key_of = { λ row. Some (pos row.tpsd) };

    fn key(row: &VpdRow) -> Option<i128> {
        Some(i128::from(row.tpsd))
    }
}
