// The tables that a desk edits.
ghost use Rattle.std.specs.Prelude.{◌≡◌, ◌+◌, IfErr, IfOk, OnErr, OnOk, false, length, true, Err};
ghost use Rattle.std.specs.Arc.{arc_value};
ghost use Rattle.desk.specs.Drafts.{drafted_from};
ghost use Rattle.edition.specs.Faults.{Refuses};
ghost use Rattle.mib_model.specs.Drafts.{is_held, put_in, with_rows, without_key, rows_of};
ghost use Rattle.mib_model.specs.Keys.{key_in};
ghost use Rattle.mib_model.specs.RowTexts.{kind_in};
ghost use Rattle.mib_model.specs.Soundness.{IsSound};
ghost use Rattle.mib_model.specs.Touched.{touched};
ghost use Rattle.mib_tables.specs.Kinds.{kind_of_key};
ghost use Rattle.mib_tables.specs.Puts.{put_made};

use edition::{Amended, Edition, SaveFault};
use mib_keys::{all_tables, without};
use mib_model::{Key, Kind, Row, Steps};
use mib_tables::{Book, DelFault, Put, TableSet};
use std::alloc::{AllocError, Global};
use std::marker::Model;
use std::sync::Arc;
use std::sync::ledger::Ledger;

/// A draft, the edition that it was made from, and which tables both are known to have in common. Contracts see the
/// tables of both.
pub struct Draft {
    book: Book,
    base: Arc<Edition>,
    same: TableSet,
}

/// By hand, so that whoever lets one go proves one call.
impl Drop for Draft {
    fn drop(self) {
        let Draft {
            book: _book,
            base: _base,
            same: _,
        } = self;
    }
}

impl Model for Draft {
    ghost use Rattle.std.specs.Arc.{arc_value};
    ghost use Rattle.desk.specs.Drafts.{Drafted};
    ghost use Rattle.mib_keys.specs.Kept.{AreSameIn};

    ghost Value = { Drafted };

    ghost view = { λ draft. record { book = draft.book; base = arc_value draft.base } };

    ghost invariant = { λ draft. AreSameIn draft.same (arc_value draft.base) draft.book };
}

impl Draft {
    /// The tables of an edition. An error is want of memory.
    pub fn new(base: Arc<Edition>) -> Result<Draft, AllocError>
        ensures { IfOk result (λ draft. draft ≡ drafted_from (arc_value base)) }
    {
        let book = base.book().copy()?;
        Ok(Draft {
            book,
            base,
            same: all_tables(),
        })
    }

    /// Puts a row into a table, as `Book::put` does.
    pub fn put(&mut self, table: Kind, row: Row) -> Result<Put, AllocError>
        requires { kind_in row ≡ table }
        ensures rows { let table = kind_in row in OnOk result (self.new.book ≡ with_rows self.old.book table (put_in row (rows_of self.old.book table))) }
        ensures made { IfOk result (λ made. made ≡ put_made (is_held (key_in row) (rows_of self.old.book (kind_in row)))) }
        ensures base { self.new.base ≡ self.old.base }
        ensures kept { OnErr result (self.new ≡ self.old) }
    {
        let put = self.book.put(row)?;
        self.same = without(self.same, table);
        Ok(put)
    }

    /// Takes the first row with a key out of a table, as `Book::del` does.
    pub fn del(&mut self, table: Kind, key: &Key) -> Result<(), DelFault>
        requires { kind_of_key key.now ≡ table }
        ensures held { OnOk result (is_held key.now (rows_of self.old.book (kind_of_key key.now)) ≡ true) }
        ensures missing { result ≡ Err DelFault.NoRow → is_held key.now (rows_of self.old.book (kind_of_key key.now)) ≡ false }
        ensures rows { let table = kind_of_key key.now in
            OnOk result (self.new.book ≡ with_rows self.old.book table (without_key key.now (rows_of self.old.book table))) }
        ensures base { self.new.base ≡ self.old.base }
        ensures kept { OnErr result (self.new ≡ self.old) }
    {
        self.book.del(key)?;
        self.same = without(self.same, table);
        Ok(())
    }

    /// Takes the tables of the edition that it was made from. An error is want of memory.
    pub fn restore(&mut self) -> Result<(), AllocError>
        ensures restored { OnOk result (self.new ≡ drafted_from self.old.base) }
        ensures kept { OnErr result (self.new ≡ self.old) }
    {
        self.book = self.base.book().copy()?;
        self.same = all_tables();
        Ok(())
    }

    /// An edition of its tables, as `Edition::amend` makes it: only tables that were edited are compared.
    pub fn amended<L: Ledger>(
        &self,
        alloc: Global,
        steps: &mut Steps<L>,
    ) -> Result<Amended, SaveFault>
        ensures edition { IfOk result (λ amended. amended.edition ≡ self.now.book) }
        ensures plans { IfOk result (λ amended. amended.plans ≡ length (touched self.now.base self.now.book)) }
        ensures sound { OnOk result (IsSound self.now.book) }
        ensures refused { IfErr result (Refuses self.now.book) }
        ensures steps { OnOk result (steps.new ≡ steps.old + length (touched self.now.base self.now.book)) }
    {
        Edition::amend_with(alloc, &self.base, self.same, &self.book, steps)
    }

    /// Takes an edition of its tables for the one that it was made from.
    pub fn rebase(&mut self, base: Arc<Edition>)
        requires { arc_value base ≡ self.old.book }
        ensures { self.new ≡ record { book = self.old.book; base = arc_value base } }
    {
        self.base = base;
        self.same = all_tables();
    }
}
