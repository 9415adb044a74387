// Curves by status texts.
ghost use Rattle.std.specs.Prelude.{◌≡◌};
ghost use Rattle.std.specs.List.{find};
ghost use Rattle.std.specs.Option.{option_copied};
ghost use Rattle.mib_model.specs.CalibrationViews.{calibrated_as};
ghost use Rattle.mib_model.specs.Curves as Spec;

use dec_num::decimal_whole;
use mib_model::{Cal, TxpRow};

// Whether a raw number lies from the FROM to the TO of a row.
fn spans(raw: i128, row: &TxpRow) -> bool
    ensures { result ≡ Spec.spans raw row.now }
{
    match (
        decimal_whole(row.low.bytes()),
        decimal_whole(row.high.bytes()),
    ) {
        (Some(low), Some(high)) => low <= raw && raw <= high,
        _ => false,
    }
}

// The first row that spans a raw number.
fn row_for(rows: &[TxpRow], raw: i128) -> Option<&TxpRow>
    ensures { option_copied result ≡ find (Spec.spans raw) rows.now }
{
    rows.iter().find(|row| spans(raw, row))
}

/// The status text of a raw number: that of the first row that spans it.
pub(crate) fn on_texts(rows: &[TxpRow], raw: i128) -> Cal<'_>
    ensures { calibrated_as result ≡ Spec.status_text (find (Spec.spans raw) rows.now) }
{
    match row_for(rows, raw) {
        Some(row) => Cal::Text(&row.altxt),
        None => Cal::NoText,
    }
}
