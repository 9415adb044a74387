ghost use Rattle.std.specs.Prelude.{◌≡◌, ℤ, IfOk, IfSome, is_some};
ghost use Rattle.std.specs.Arc.{arc_value};
ghost use Rattle.numbered_plans.specs.Numbered.{has_same, plan_at};

use crate::sources::Sources;
use std::alloc::{AllocError, Global};
use std::collections::HashMap;
use std::marker::Model;
use std::sync::Arc;

/// The plans of a base, and the rows that they were compiled of. Contracts see the rows.
pub struct Before<'a, S: Sources> {
    plans: &'a HashMap<i128, Arc<S::Plan>>,
    sources: S,
}

/// By hand, so that whoever lets one go proves one call.
impl<'a, S: Sources> Drop for Before<'a, S> {
    fn drop(self) {
        let Before {
            plans: _,
            sources: _sources,
        } = self;
    }
}

impl<'a, S: Sources> Model for Before<'a, S> {
    ghost use Rattle.std.specs.Prelude.{◌≡◌, ℤ};
    ghost use Rattle.numbered_plans.specs.Numbered.{plan_at};

    ghost Value = { S };

    ghost view = { λ before. before.sources };

    ghost invariant = { λ before. (q : ℤ) → plan_at before.plans.now q ≡ S.rows_at before.sources q };
}

impl<'a, S: Sources> Before<'a, S> {
    /// Plans, and the rows that they were compiled of.
    pub fn new(plans: &'a HashMap<i128, Arc<S::Plan>>, sources: S) -> Before<'a, S>
        requires { (q : ℤ) → plan_at plans.now q ≡ S.rows_at sources q }
        ensures { result ≡ sources }
    {
        Before { plans, sources }
    }

    /// The plan of a number, if it was compiled of these rows. An error is want of memory.
    pub fn shared(
        &self,
        alloc: Global,
        number: i128,
        rows: &S::Rows,
    ) -> Result<Option<Arc<S::Plan>>, AllocError>
        ensures which { IfOk result (λ found. is_some found ≡ has_same S.same (S.rows_at self.now number) (S.rows_of rows.now)) }
        ensures same { IfOk result (λ found. IfSome found (λ plan. arc_value plan ≡ S.rows_of rows.now)) }
    {
        let Some(plan) = self.plans.get(&number) else {
            return Ok(None);
        };
        let Some(held) = self.sources.rows(alloc, number)? else {
            return Ok(None);
        };
        if !S::are_same(&held, rows) {
            return Ok(None);
        }
        Ok(Some(plan.clone()?))
    }
}
