ghost use Rattle.std.specs.Prelude.{◌≡◌, ◌==◌, option_and_then};
ghost use Rattle.std.specs.List.{find};
ghost use Rattle.std.specs.Option.{option_copied};
ghost use Rattle.edition_plans.specs.Layouts.{layout_of, HasPlaces};
ghost use Rattle.mib_model.specs.Soundness.{IsSound};

use edition_diff::PlanSets;
use edition_plans::Plans;
use first_rows::FirstRows;
use ident_plan::Ident;
use layout_plan::Layout;
use mib_model::{Rows, Text, TpcfRow, TypeItem};
use mib_tables::Book;
use param_plan::Params;
use row_keys::BySpid;
use std::marker::Model;
use std::snapshot::Snapshot;
use std::sync::Arc;
use struct_plan::{Structure, Structures};

/// The plans of sound tables, which are let go themselves. Contracts see the database of the tables.
pub struct Compiled {
    pub(crate) sets: PlanSets,
    pub(crate) titles: Arc<FirstRows<BySpid<TpcfRow>>>,
    pub(crate) book: Snapshot<Book>,
}

/// By hand, so that whoever lets one go proves one call.
impl Drop for Compiled {
    fn drop(self) {
        let Compiled {
            sets: _sets,
            titles: _titles,
            book: _book,
        } = self;
    }
}

impl Model for Compiled {
    ghost use Rattle.std.specs.Prelude.{◌≡◌};
    ghost use Rattle.std.specs.Arc.{arc_value};
    ghost use Rattle.mib_model.specs.declared.database.Database.{Database};
    ghost use Rattle.mib_model.specs.Soundness.{IsSound};

    ghost Value = { Database };

    ghost view = { λ compiled. compiled.book.value };

    ghost invariant = { λ compiled. IsSound compiled.book.value × (compiled.sets ≡ compiled.book.value)
        × (arc_value compiled.titles ≡ compiled.book.value.tpcf) };
}

impl Rows for Compiled {
    ghost use Rattle.mib_model.specs.Plans.{plans};

    ghost tables = { λ compiled. compiled };

    ghost plans = { plans };
}

impl Structures for Compiled {
    ghost tables = { λ compiled. compiled };

    fn structure(&self, tpsd: i128) -> Option<&Structure> {
        self.sets.keyed().structure(tpsd)
    }

    fn deduced(&self, pid: i128) -> Option<TypeItem> {
        self.sets.keyed().deduced(pid)
    }
}

impl Plans for Compiled {
    fn ident(&self) -> &Ident {
        self.sets.ident()
    }

    fn layout(&self, spid: u32) -> Option<&Layout> {
        self.sets.keyed().layout(spid)
    }

    fn params(&self) -> &Params {
        self.sets.keyed().params()
    }

    fn title(&self, spid: u32) -> Option<&Text> {
        match self.titles.find(&spid) {
            Some(row) => row.name.as_ref(),
            None => None,
        }
    }
}
