ghost use Rattle.std.specs.Prelude.{◌≡◌, ◌≤◌, ◌<◌, List, ℕ, map, length, slice_index_or, option_map, Some, IfOk, IsTrue};
ghost use Rattle.std.specs.Arc.{arc_value};
ghost use Rattle.std.specs.List.{find, flat_map, position};
ghost use Rattle.std.specs.Option.{option_copied};
ghost use Rattle.std.specs.Str.{bytes_eq};
ghost use Rattle.param_plan.specs.Blocks.{IsCut};
ghost use Rattle.param_plan.specs.Names.{Ascend};
ghost use Rattle.param_plan.specs.Plain.{AreMarksOf, is_plain};

use crate::blocks::{BLOCK, Block, blocks_of};
use crate::param::Param;
use mib_model::Name;
use std::alloc::{AllocError, Global};
use std::cmp::Ordering;
use std::marker::Model;
use std::sync::Arc;

/// Plans of parameters in ascending order of their names, in blocks that are shared by handle. Contracts see their slices.
pub struct Params {
    blocks: Vec<Arc<Block>>,
    // Which plans are plain, in one list: that is asked of each value.
    plain: Vec<bool>,
}

/// By hand, so that whoever lets one go proves one call.
impl Drop for Params {
    fn drop(self) {
        let Params {
            blocks: _blocks,
            plain: _plain,
        } = self;
    }
}

impl Model for Params {
    ghost use Rattle.std.specs.Prelude.{◌≡◌, List, map};
    ghost use Rattle.std.specs.Arc.{arc_value};
    ghost use Rattle.std.specs.List.{flat_map};
    ghost use Rattle.param_plan.specs.Blocks.{IsCut};
    ghost use Rattle.param_plan.specs.Names.{Ascend};
    ghost use Rattle.param_plan.specs.Plain.{is_plain};
    ghost use Rattle.param_plan.specs.Slices.{ParamSlice};

    ghost Value = { List ParamSlice };

    ghost view = { λ params. flat_map arc_value params.blocks.items };

    ghost invariant = { λ params. Ascend (flat_map arc_value params.blocks.items) × IsCut arc_value params.blocks.items
        × (params.plain.items ≡ map is_plain (flat_map arc_value params.blocks.items)) };
}

// Which plans of blocks are plain.
fn plain_in(alloc: Global, blocks: &[Arc<Block>]) -> Result<Vec<bool>, AllocError>
    ensures { IfOk result (λ plain. plain.items ≡ map is_plain (flat_map arc_value blocks.now)) }
{
    let mut plain = Vec::with_capacity(alloc, blocks.len().saturating_mul(BLOCK))?;
    for block in blocks {
        plain.extend_from_slice(block.plain())?;
    }
    Ok(plain)
}

// Handles of the same blocks.
fn handles(alloc: Global, blocks: &[Arc<Block>]) -> Result<Vec<Arc<Block>>, AllocError>
    ensures { IfOk result (λ handles. map arc_value handles.items ≡ map arc_value blocks.now) }
{
    let mut handles = Vec::with_capacity(alloc, blocks.len())?;
    for block in blocks {
        handles.push(block.clone()?)?;
    }
    Ok(handles)
}

impl Params {
    /// Plans of which each name is greater than the one before. An error is want of memory.
    pub fn new(alloc: Global, plans: Vec<Arc<Param>>) -> Result<Params, AllocError>
        requires { Ascend (map arc_value plans.items) }
        ensures { IfOk result (λ params. params ≡ map arc_value plans.items) }
    {
        Params::of_blocks(alloc, blocks_of(alloc, plans)?)
    }

    /// Plans in blocks, of which each but the last is whole, and each name greater than the one before. An error is want of memory.
    pub fn of_blocks(alloc: Global, blocks: Vec<Arc<Block>>) -> Result<Params, AllocError>
        requires ascend { Ascend (flat_map arc_value blocks.items) }
        requires cut { IsCut arc_value blocks.items }
        ensures { IfOk result (λ params. params ≡ flat_map arc_value blocks.items) }
    {
        let plain = plain_in(alloc, &blocks)?;
        Ok(Params { blocks, plain })
    }

    /// Plans equal to these, by handles to these blocks. An error is want of memory.
    pub fn copy(&self, alloc: Global) -> Result<Params, AllocError>
        ensures { IfOk result (λ params. params ≡ self.now) }
    {
        let blocks = handles(alloc, &self.blocks)?;
        let plain = Vec::from_slice(alloc, &self.plain)?;
        Ok(Params { blocks, plain })
    }

    /// Its blocks.
    pub fn blocks(&self) -> &[Arc<Block>]
        ensures plans { flat_map arc_value result.now ≡ self.now }
        ensures cut { IsCut arc_value result.now }
        ensures ascend { Ascend self.now }
    {
        &self.blocks
    }

    /// How many plans there are.
    #[inline(always)]
    pub fn len(&self) -> usize
        ensures count { result ≡ length self.now }
        ensures ascend { Ascend self.now }
    {
        self.plain.len()
    }

    /// The plan at a place.
    #[inline(always)]
    pub fn plan(&self, at: usize) -> &Arc<Param>
        requires { at < length self.now }
        ensures { arc_value result.now ≡ slice_index_or self.now at (arc_value result.now) }
    {
        &self.blocks[at / BLOCK].plans()[at % BLOCK]
    }

    /// Whether the plan at each place is plain.
    pub fn plain(&self) -> &[bool]
        ensures { AreMarksOf self.now result.now }
    {
        &self.plain
    }

    /// Whether the plan at a place is that of a name.
    #[inline(always)]
    pub fn is_at(&self, at: usize, name: &Name) -> bool
        ensures { IsTrue result → position (λ slice. bytes_eq slice.pcf.name name.now) self.now ≡ Some at }
    {
        at < self.plain.len() && self.plan(at).is_named(name)
    }

    /// The place of the plan of a name, by halving.
    #[inline(never)]
    pub fn place(&self, name: Name) -> Option<usize>
        ensures { result ≡ position (λ slice. bytes_eq slice.pcf.name name) self.now }
    {
        let mut low = 0;
        let mut high = self.plain.len();
        while low < high {
            let middle = low + (high - low) / 2;
            match self.plan(middle).name().cmp(&name) {
                Ordering::Less => low = middle + 1,
                Ordering::Greater => high = middle,
                Ordering::Equal => return Some(middle),
            }
        }
        None
    }

    /// The place of the plan of a name, which is looked for first at this one.
    #[inline(always)]
    pub fn place_near(&self, guess: usize, name: &Name) -> Option<usize>
        ensures { result ≡ position (λ slice. bytes_eq slice.pcf.name name.now) self.now }
    {
        if self.is_at(guess, name) {
            return Some(guess);
        }
        self.place(*name)
    }

    /// The plan of this name, found by halving.
    pub fn find(&self, name: Name) -> Option<&Arc<Param>>
        ensures { option_map arc_value (option_copied result) ≡ find (λ slice. bytes_eq slice.pcf.name name) self.now }
    {
        let at = self.place(name)?;
        Some(self.plan(at))
    }
}
