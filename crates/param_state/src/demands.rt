// What is demanded of the values of parameters, by the places of their plans.
ghost use Rattle.std.specs.Prelude.{◌≡◌, map, true, IfOk, IsTrue};
ghost use Rattle.std.specs.List.{list_any};
ghost use Rattle.std.specs.Str.{bytes_eq};
ghost use Rattle.param_state.specs.Demands.{AreDemandsOf, Notes, asked_in, demand_at, slice_asks, unasked_for};
ghost use Rattle.memory_laws.specs.Alike.{is_on};

use mib_model::{CurRow, Name, OcpRow};
use param_plan::{Param, ParamRows, Params};
use std::alloc::{AllocError, Global};

/// What is demanded of the values of a parameter: whether of each the raw number alone is shown, and whether a condition asks for
/// the latest raw number.
#[derive(Clone, Copy)]
pub struct Demand {
    pub plain: bool,
    pub asked: bool,
}

/// Whether the raw numbers of a parameter at a place are asked: where it is noted, and where nothing is.
#[inline(always)]
pub fn is_asked(demands: &[Demand], at: usize) -> bool
    ensures { result ≡ (demand_at demands.now at).asked }
{
    at >= demands.len() || demands[at].asked
}

/// Whether of each value of a parameter at a place the raw number alone is shown, where that is noted.
#[inline(always)]
pub fn is_plain(demands: &[Demand], at: usize) -> bool
    ensures { IsTrue result → (demand_at demands.now at).plain ≡ true }
{
    at < demands.len() && demands[at].plain
}

// What is noted while plans are gone through, and the place of the name that was asked last.
#[derive(Drop)]
struct Noting {
    demands: Vec<Demand>,
    last: usize,
}

// What plans are, none of which is asked.
fn unasked(alloc: Global, params: &Params) -> Result<Vec<Demand>, AllocError>
    ensures { IfOk result (λ demands. demands.items ≡ map unasked_for params.now) }
{
    let mut demands = Vec::with_capacity(alloc, params.len())?;
    for at in 0..params.len() {
        demands.push(Demand {
            plain: params.plan(at).is_plain(),
            asked: false,
        })?;
    }
    Ok(demands)
}

impl Noting {
    // Notes that a name is asked.
    fn note(&mut self, params: &Params, name: &Name)
        ensures { Notes (λ other. bytes_eq name.now other) params.now self.old.demands.items self.new.demands.items }
    {
        let Some(at) = params.place_near(self.last, name) else {
            return;
        };
        self.last = at;
        if at < self.demands.len() {
            self.demands[at].asked = true;
        }
    }

    // Notes the name that a condition is on, if there is one.
    fn note_if(&mut self, params: &Params, name: Option<Name>)
        ensures { Notes (λ other. is_on other name) params.now self.old.demands.items self.new.demands.items }
    {
        if let Some(name) = name {
            self.note(params, &name);
        }
    }

    // Notes the names that selections are on.
    fn note_selections(&mut self, params: &Params, curs: &[CurRow])
        ensures { Notes (λ other. list_any (λ row. bytes_eq row.rlchk other) curs.now) params.now self.old.demands.items self.new.demands.items }
    {
        for cur in curs {
            self.note(params, &cur.rlchk);
        }
    }

    // Notes the names that limits are on.
    fn note_limits(&mut self, params: &Params, ocps: &[OcpRow])
        ensures { Notes (λ other. list_any (λ row. is_on other row.rlchk) ocps.now) params.now self.old.demands.items self.new.demands.items }
    {
        for ocp in ocps {
            self.note_if(params, ocp.rlchk);
        }
    }

    // Notes the names that a plan asks.
    fn note_plan(&mut self, params: &Params, plan: &Param)
        ensures { Notes (λ other. slice_asks other plan.now) params.now self.old.demands.items self.new.demands.items }
    {
        let rows = plan.rows();
        self.note_if(params, rows.pcf.valid);
        self.note_selections(params, &rows.curs);
        self.note_limits(params, &rows.ocps);
    }

    // Notes the names that all plans ask.
    fn note_all(&mut self, params: &Params)
        ensures { Notes (asked_in params.now) params.now self.old.demands.items self.new.demands.items }
    {
        for at in 0..params.len() {
            self.note_plan(params, params.plan(at));
        }
    }
}

/// What plans demand of the values at their places. An error is want of memory.
pub fn demands_of(alloc: Global, params: &Params) -> Result<Vec<Demand>, AllocError>
    ensures { IfOk result (λ demands. AreDemandsOf (asked_in params.now) params.now demands.items) }
{
    let mut noting = Noting {
        demands: unasked(alloc, params)?,
        last: 0,
    };
    noting.note_all(params);
    Ok(noting.demands)
}
