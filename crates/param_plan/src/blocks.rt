// Plans in blocks, which editions share.
ghost use Rattle.std.specs.Prelude.{◌≡◌, ◌++◌, ◌∷◌, [], map, IfOk, OnOk};
ghost use Rattle.std.specs.Arc.{arc_value};
ghost use Rattle.std.specs.List.{flat_map};
ghost use Rattle.param_plan.specs.Blocks.{IsCut};
ghost use Rattle.param_plan.specs.Plain.{is_plain, plain_behind};

use crate::param::Param;
use std::alloc::{AllocError, Global};
use std::marker::Model;
use std::mem;
use std::sync::Arc;

/// So many plans stand in each block but the last.
pub const BLOCK: usize = 64;

/// Plans that lie together. Contracts see their slices.
pub struct Block {
    plans: Vec<Arc<Param>>,
    plain: Vec<bool>,
}

/// By hand, so that whoever lets one go proves one call.
impl Drop for Block {
    fn drop(self) {
        let Block {
            plans: _plans,
            plain: _plain,
        } = self;
    }
}

impl Model for Block {
    ghost use Rattle.std.specs.Prelude.{◌≡◌, List, map};
    ghost use Rattle.std.specs.Arc.{arc_value};
    ghost use Rattle.param_plan.specs.Plain.{plain_behind};
    ghost use Rattle.param_plan.specs.Slices.{ParamSlice};

    ghost Value = { List ParamSlice };

    ghost view = { λ block. map arc_value block.plans.items };

    ghost invariant = { λ block. block.plain.items ≡ map plain_behind block.plans.items };
}

// Which plans are plain.
fn plain_among(alloc: Global, plans: &[Arc<Param>]) -> Result<Vec<bool>, AllocError>
    ensures { IfOk result (λ plain. plain.items ≡ map plain_behind plans.now) }
{
    let mut plain = Vec::with_capacity(alloc, plans.len())?;
    for plan in plans {
        plain.push(plan.is_plain())?;
    }
    Ok(plain)
}

impl Block {
    /// A block of plans. An error is want of memory.
    pub fn new(alloc: Global, plans: Vec<Arc<Param>>) -> Result<Block, AllocError>
        ensures { IfOk result (λ block. block ≡ map arc_value plans.items) }
    {
        let plain = plain_among(alloc, &plans)?;
        Ok(Block { plans, plain })
    }

    /// Its plans.
    #[inline(always)]
    pub fn plans(&self) -> &[Arc<Param>]
        ensures { map arc_value result.now ≡ self.now }
    {
        &self.plans
    }

    /// Which of them are plain.
    pub(crate) fn plain(&self) -> &[bool]
        ensures { result.now ≡ map is_plain self.now }
    {
        &self.plain
    }
}

// A block of plans behind a handle.
fn shared_block(alloc: Global, plans: Vec<Arc<Param>>) -> Result<Arc<Block>, AllocError>
    ensures { IfOk result (λ block. arc_value block ≡ map arc_value plans.items) }
{
    Ok(Arc::new(alloc, Block::new(alloc, plans)?)?)
}

// Plans of which the first stand in whole blocks.
#[derive(Drop)]
struct Cutting {
    blocks: Vec<Arc<Block>>,
    behind: Vec<Arc<Param>>,
}

impl Model for Cutting {
    ghost use Rattle.std.specs.Prelude.{◌≡◌, ◌≤◌, ◌++◌, List, length, map};
    ghost use Rattle.std.specs.Arc.{arc_value};
    ghost use Rattle.std.specs.List.{All, flat_map};
    ghost use Rattle.param_plan.specs.Blocks.{IsWhole};
    ghost use Rattle.param_plan.specs.Slices.{ParamSlice};
    ghost use Rattle.param_plan.specs.declared.blocks.TheConstants.{BLOCK};

    ghost Value = { List ParamSlice };

    ghost view = { λ cutting. flat_map arc_value cutting.blocks.items ++ map arc_value cutting.behind.items };

    ghost invariant = { λ cutting. All (IsWhole arc_value) cutting.blocks.items × (length cutting.behind.items ≤ BLOCK) };
}

impl Cutting {
    // Adds a plan behind all.
    fn add(&mut self, alloc: Global, plan: Arc<Param>) -> Result<(), AllocError>
        ensures { OnOk result (self.new ≡ self.old ++ arc_value plan ∷ []) }
    {
        if self.behind.len() == BLOCK {
            let next = Vec::with_capacity(alloc, BLOCK)?;
            let whole = mem::replace(&mut self.behind, next);
            self.blocks.push(shared_block(alloc, whole)?)?;
        }
        self.behind.push(plan)?;
        Ok(())
    }

    // All as blocks.
    fn into_blocks(self, alloc: Global) -> Result<Vec<Arc<Block>>, AllocError>
        ensures plans { IfOk result (λ blocks. flat_map arc_value blocks.items ≡ self) }
        ensures cut { IfOk result (λ blocks. IsCut arc_value blocks.items) }
    {
        let Cutting { mut blocks, behind } = self;
        blocks.push(shared_block(alloc, behind)?)?;
        Ok(blocks)
    }
}

/// Plans in blocks. An error is want of memory.
pub fn blocks_of(alloc: Global, plans: Vec<Arc<Param>>) -> Result<Vec<Arc<Block>>, AllocError>
    ensures plans { IfOk result (λ blocks. flat_map arc_value blocks.items ≡ map arc_value plans.items) }
    ensures cut { IfOk result (λ blocks. IsCut arc_value blocks.items) }
{
    let mut cutting = Cutting {
        blocks: Vec::with_capacity(alloc, plans.len() / BLOCK + 1)?,
        behind: Vec::with_capacity(alloc, BLOCK)?,
    };
    for plan in plans {
        cutting.add(alloc, plan)?;
    }
    cutting.into_blocks(alloc)
}
