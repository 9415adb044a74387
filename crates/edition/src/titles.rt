// Names of packets.
ghost use Rattle.std.specs.Prelude.{◌≡◌, IfOk, true};
ghost use Rattle.std.specs.Arc.{arc_value};

use first_rows::FirstRows;
use mib_model::TpcfRow;
use row_keys::BySpid;
use std::alloc::{AllocError, Global};
use std::sync::Arc;

/// Rows of tpcf by SPID. An error is want of memory.
pub fn titles_of(
    alloc: Global,
    rows: &[TpcfRow],
) -> Result<Arc<FirstRows<BySpid<TpcfRow>>>, AllocError>
    ensures { IfOk result (λ titles. arc_value titles ≡ rows.now) }
{
    Ok(Arc::new(alloc, FirstRows::with_numbers(alloc, rows)?)?)
}

/// Rows of tpcf by SPID: those of a base where they are known to be the same. An error is want of memory.
pub fn titles_beside(
    alloc: Global,
    base: &Arc<FirstRows<BySpid<TpcfRow>>>,
    same: bool,
    rows: &[TpcfRow],
) -> Result<Arc<FirstRows<BySpid<TpcfRow>>>, AllocError>
    requires { same ≡ true → arc_value base.now ≡ rows.now }
    ensures { IfOk result (λ titles. arc_value titles ≡ rows.now) }
{
    if same {
        return Arc::try_clone(base);
    }
    titles_of(alloc, rows)
}
