ghost use Rattle.std.specs.Prelude.{◌≡◌, ◌==◌, ◌+◌, IfErr, IfOk, OnOk, length, option_and_then};
ghost use Rattle.std.specs.Arc.{arc_value};
ghost use Rattle.std.specs.List.{find};
ghost use Rattle.std.specs.Option.{option_copied};
ghost use Rattle.edition.specs.Faults.{Refuses};
ghost use Rattle.edition_plans.specs.Layouts.{layout_of, HasPlaces};
ghost use Rattle.mib_keys.specs.Kept.{AreSameIn};
ghost use Rattle.mib_model.specs.Plans.{plans};
ghost use Rattle.mib_model.specs.Soundness.{IsSound};
ghost use Rattle.mib_model.specs.Touched.{touched};

use crate::compiled::Compiled;
use crate::fault::SaveFault;
use crate::titles::{titles_beside, titles_of};
use edition_diff::{MadeSets, PlanName, PlanSets};
use edition_plans::Plans;
use ident_plan::Ident;
use layout_plan::Layout;
use mib_keys::{same_beside, same_tables, sound, sound_with};
use mib_model::{Rows, Steps, Text, TypeItem};
use mib_tables::{Book, TableSet};
use param_plan::Params;
use std::alloc::{AllocError, Global};
use std::marker::Model;
use std::snapshot::Snapshot;
use std::sync::Arc;
use std::sync::ledger::Ledger;
use struct_plan::{Structure, Structures};

/// Sound tables with their plans. Contracts see the database of the tables.
pub struct Edition {
    book: Book,
    plans: Arc<Compiled>,
}

/// By hand, so that whoever lets one go proves one call.
impl Drop for Edition {
    fn drop(self) {
        let Edition {
            book: _book,
            plans: _plans,
        } = self;
    }
}

impl Model for Edition {
    ghost use Rattle.std.specs.Prelude.{◌≡◌};
    ghost use Rattle.std.specs.Arc.{arc_value};
    ghost use Rattle.mib_model.specs.declared.database.Database.{Database};
    ghost use Rattle.mib_model.specs.Soundness.{IsSound};

    ghost Value = { Database };

    ghost view = { λ edition. edition.book };

    ghost invariant = { λ edition. IsSound edition.book × (arc_value edition.plans ≡ edition.book) };
}

/// An edition, how many of its plans were compiled, not shared with the base, and their names, in the order of all plans.
#[derive(Drop)]
pub struct Amended {
    pub edition: Edition,
    pub plans: u32,
    pub touched: Vec<PlanName>,
}

impl Edition {
    /// Compiles all plans of a sound book. An error is want of memory.
    pub fn of_sound<L: Ledger>(
        alloc: Global,
        book: Book,
        steps: &mut Steps<L>,
    ) -> Result<Edition, AllocError>
        requires { IsSound book }
        ensures made { IfOk result (λ edition. edition ≡ book) }
        ensures steps { OnOk result (steps.new ≡ steps.old + length (plans book)) }
    {
        let plans = Compiled {
            sets: PlanSets::alone(alloc, &book, steps)?,
            titles: titles_of(alloc, book.tpcf())?,
            book: Snapshot::of(&book),
        };
        Ok(Edition {
            book,
            plans: Arc::new(alloc, plans)?,
        })
    }

    // Compiles the plans of a sound book, of which those of the same rows are shared with a base.
    fn beside<L: Ledger>(
        alloc: Global,
        base: &Edition,
        same: TableSet,
        book: &Book,
        steps: &mut Steps<L>,
    ) -> Result<Amended, AllocError>
        requires sound { IsSound book.now }
        requires same { AreSameIn same base.now book.now }
        ensures edition { IfOk result (λ amended. amended.edition ≡ book.now) }
        ensures plans { IfOk result (λ amended. amended.plans ≡ length (touched base.now book.now)) }
        ensures touched { IfOk result (λ amended. amended.touched.items ≡ touched base.now book.now) }
        ensures steps { OnOk result (steps.new ≡ steps.old + length (touched base.now book.now)) }
    {
        let held = &*base.plans;
        let MadeSets { sets, touched } = PlanSets::beside(
            alloc, &held.sets, &base.book, same, book, steps,
        )?;
        let plans = Compiled {
            sets,
            titles: titles_beside(alloc, &held.titles, same.tpcf, book.tpcf())?,
            book: Snapshot::of(book),
        };
        Ok(Amended {
            edition: Edition {
                book: book.copy()?,
                plans: Arc::new(alloc, plans)?,
            },
            plans: touched.len() as u32,
            touched,
        })
    }

    /// Compiles all plans of a book: refused where it isn't sound.
    pub fn compile<L: Ledger>(
        alloc: Global,
        book: Book,
        steps: &mut Steps<L>,
    ) -> Result<Edition, SaveFault>
        ensures made { IfOk result (λ edition. edition ≡ book) }
        ensures refused { IfErr result (Refuses book) }
        ensures steps { OnOk result (steps.new ≡ steps.old + length (plans book)) }
    {
        sound(alloc, &book)?;
        Ok(Edition::of_sound(alloc, book, steps)?)
    }

    /// Compiles a book beside a base, as `amend` does, where tables are known that have the same rows in both: only the
    /// others are compared.
    pub fn amend_with<L: Ledger>(
        alloc: Global,
        base: &Edition,
        known: TableSet,
        book: &Book,
        steps: &mut Steps<L>,
    ) -> Result<Amended, SaveFault>
        requires { AreSameIn known base.now book.now }
        ensures edition { IfOk result (λ amended. amended.edition ≡ book.now) }
        ensures plans { IfOk result (λ amended. amended.plans ≡ length (touched base.now book.now)) }
        ensures touched { IfOk result (λ amended. amended.touched.items ≡ touched base.now book.now) }
        ensures sound { OnOk result (IsSound book.now) }
        ensures refused { IfErr result (Refuses book.now) }
        ensures steps { OnOk result (steps.new ≡ steps.old + length (touched base.now book.now)) }
    {
        let same = same_beside(known, &base.book, book)?;
        sound_with(alloc, &base.book, same, book)?;
        Ok(Edition::beside(alloc, base, same, book, steps)?)
    }

    /// Compiles a book beside a base: a plan that the base has of the same rows is shared with it, each other is compiled.
    /// It is refused where the book isn't sound.
    pub fn amend<L: Ledger>(
        alloc: Global,
        base: &Edition,
        book: &Book,
        steps: &mut Steps<L>,
    ) -> Result<Amended, SaveFault>
        ensures edition { IfOk result (λ amended. amended.edition ≡ book.now) }
        ensures plans { IfOk result (λ amended. amended.plans ≡ length (touched base.now book.now)) }
        ensures touched { IfOk result (λ amended. amended.touched.items ≡ touched base.now book.now) }
        ensures sound { OnOk result (IsSound book.now) }
        ensures refused { IfErr result (Refuses book.now) }
        ensures steps { OnOk result (steps.new ≡ steps.old + length (touched base.now book.now)) }
    {
        let known = same_tables(&base.book, book);
        Edition::amend_with(alloc, base, known, book, steps)
    }

    /// Its tables, which are sound.
    pub fn book(&self) -> &Book
        ensures tables { result.now ≡ self.now }
        ensures sound { IsSound result.now }
    {
        &self.book
    }

    /// Its plans, without the tables.
    pub fn plans(&self) -> &Arc<Compiled>
        ensures { arc_value result.now ≡ self.now }
    {
        &self.plans
    }

    /// Its plans alone: the tables are let go.
    pub fn into_plans(self) -> Arc<Compiled>
        ensures { arc_value result ≡ self }
    {
        let Edition { book: _book, plans } = self;
        plans
    }
}

impl Rows for Edition {
    ghost use Rattle.mib_model.specs.Plans.{plans};

    ghost tables = { λ edition. edition };

    ghost plans = { plans };
}

impl Structures for Edition {
    ghost tables = { λ edition. edition };

    fn structure(&self, tpsd: i128) -> Option<&Structure> {
        self.plans.structure(tpsd)
    }

    fn deduced(&self, pid: i128) -> Option<TypeItem> {
        self.plans.deduced(pid)
    }
}

impl Plans for Edition {
    fn ident(&self) -> &Ident {
        self.plans.ident()
    }

    fn layout(&self, spid: u32) -> Option<&Layout> {
        self.plans.layout(spid)
    }

    fn params(&self) -> &Params {
        self.plans.params()
    }

    fn title(&self, spid: u32) -> Option<&Text> {
        self.plans.title(spid)
    }
}
