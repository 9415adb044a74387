// Which blocks of plans an edit touches.
ghost use Rattle.std.specs.Prelude.{◌≡◌, false, nat_eq, IfOk};
ghost use Rattle.std.specs.List.{list_any};
ghost use Rattle.param_changes.specs.Beside.{AreFreeOf};
ghost use Rattle.param_changes.specs.Touches.{Touches};

use crate::changed::Changed;
use mib_model::Name;
use param_plan::{BLOCK, Block, Params};
use std::alloc::{AllocError, Global};

// The blocks in which parameters of these names have plans. An error is want of memory.
fn blocks_with(alloc: Global, base: &Params, names: &[Name]) -> Result<Vec<usize>, AllocError>
    ensures { IfOk result (λ touched. Touches touched.items base.now names.now) }
{
    let mut touched = Vec::new(alloc);
    for name in names {
        if let Some(at) = base.place(*name) {
            touched.push(at / BLOCK)?;
        }
    }
    Ok(touched)
}

/// The blocks of parameters that changed. An error is want of memory.
pub fn touched_blocks(
    alloc: Global,
    base: &Params,
    changed: &Changed,
) -> Result<Vec<usize>, AllocError>
    ensures { IfOk result (λ touched. Touches touched.items base.now changed.now.parameters.items) }
{
    blocks_with(alloc, base, changed.parameters())
}

// Whether a curve that a parameter of a block may take changed.
fn has_changed_curve(block: &Block, changed: &Changed) -> bool
    ensures { result ≡ false → AreFreeOf changed.now block.now }
{
    if changed.curves().is_empty() {
        return false;
    }
    for plan in block.plans() {
        if changed.has_curve_of(plan.rows()) {
            return true;
        }
    }
    false
}

/// Whether something of the block at a place may have changed.
pub fn is_touched(at: usize, block: &Block, touched: &[usize], changed: &Changed) -> bool
    ensures { result ≡ false → (list_any (λ n. nat_eq n at) touched.now ≡ false) × AreFreeOf changed.now block.now }
{
    touched.contains(&at) || has_changed_curve(block, changed)
}
