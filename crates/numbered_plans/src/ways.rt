// The key by which a packet of fixed layout is found.
use first_rows::By;
use mib_model::PidRow;

/// Packets of fixed layout by SPID.
#[derive(Drop)]
pub struct ByLaidOut;

impl By for ByLaidOut {
    ghost use Rattle.numbered_plans.specs.Layouts.{laid_out};

    type Row = PidRow;

    type Key = i128;

    ghost key_of = { laid_out };

    fn key(row: &PidRow) -> Option<i128> {
        if row.has_layout() {
            Some(i128::from(row.spid))
        } else {
            None
        }
    }
}
