// Names of plans.
ghost use Rattle.std.specs.Prelude.{◌≡◌, ◌++◌, map, IfOk, OnOk};
ghost use Rattle.edition_diff.specs.Diffs.{ident_if};
ghost use Rattle.mib_model.specs.declared.plan.PlanName.TheVariants as plan;

use mib_model::{Name, PlanName};
use std::alloc::{AllocError, Global};

// Puts the names of plans of parameters behind others.
fn add_params(names: &mut Vec<PlanName>, params: &[Name]) -> Result<(), AllocError>
    ensures { OnOk result (names.new.items ≡ names.old.items ++ map plan.Param params.now) }
{
    for name in params {
        names.push(PlanName::Param(*name))?;
    }
    Ok(())
}

// Puts the names of plans of layouts behind others.
fn add_layouts(names: &mut Vec<PlanName>, spids: &[u32]) -> Result<(), AllocError>
    ensures { OnOk result (names.new.items ≡ names.old.items ++ map plan.Layout spids.now) }
{
    for spid in spids {
        names.push(PlanName::Layout(*spid))?;
    }
    Ok(())
}

// Puts the names of plans of structures behind others.
fn add_structures(names: &mut Vec<PlanName>, tpsds: &[u32]) -> Result<(), AllocError>
    ensures { OnOk result (names.new.items ≡ names.old.items ++ map plan.Structure tpsds.now) }
{
    for tpsd in tpsds {
        names.push(PlanName::Structure(*tpsd))?;
    }
    Ok(())
}

/// The names of plans of parameters, of layouts and of structures, in this order. An error is want of memory.
pub fn keyed_names(
    alloc: Global,
    params: &[Name],
    spids: &[u32],
    tpsds: &[u32],
) -> Result<Vec<PlanName>, AllocError>
    ensures { IfOk result (λ names. names.items ≡ map plan.Param params.now ++ map plan.Layout spids.now ++ map plan.Structure tpsds.now) }
{
    let mut names = Vec::new(alloc);
    add_params(&mut names, params)?;
    add_layouts(&mut names, spids)?;
    add_structures(&mut names, tpsds)?;
    Ok(names)
}

/// Puts the name of the plan of identification behind others, where that was compiled. An error is want of memory.
pub fn add_ident(names: &mut Vec<PlanName>, is_new: bool) -> Result<(), AllocError>
    ensures { OnOk result (names.new.items ≡ names.old.items ++ ident_if is_new) }
{
    if is_new {
        names.push(PlanName::Ident)?;
    }
    Ok(())
}
