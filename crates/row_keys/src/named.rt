// Rows by their names.
ghost use Rattle.std.specs.Prelude.{◌≡◌, ℕ, List};

use first_rows::By;
use mib_model::{
    CafRow, CapRow, CurRow, LgfRow, McfRow, Name, OcfRow, OcpRow, PcfRow, PlfRow, TxfRow, TxpRow,
    TypeItem, VpdRow,
};
use std::marker::PhantomData;

/// A row that has a name: that of its parameter, or of its curve.
pub trait Named: Copy + Drop {
    ghost name_of: { Self → List ℕ };

    /// Its name.
    fn name(&self) -> Name
        ensures { result ≡ name_of self.now };
}

impl Named for PcfRow {
    ghost name_of = { λ row. row.name };

    fn name(&self) -> Name {
        self.name
    }
}

impl Named for CurRow {
    ghost name_of = { λ row. row.pname };

    fn name(&self) -> Name {
        self.pname
    }
}

impl Named for CafRow {
    ghost name_of = { λ row. row.numbr };

    fn name(&self) -> Name {
        self.numbr
    }
}

impl Named for CapRow {
    ghost name_of = { λ row. row.numbr };

    fn name(&self) -> Name {
        self.numbr
    }
}

impl Named for TxfRow {
    ghost name_of = { λ row. row.numbr };

    fn name(&self) -> Name {
        self.numbr
    }
}

impl Named for TxpRow {
    ghost name_of = { λ row. row.numbr };

    fn name(&self) -> Name {
        self.numbr
    }
}

impl Named for McfRow {
    ghost name_of = { λ row. row.ident };

    fn name(&self) -> Name {
        self.ident
    }
}

impl Named for LgfRow {
    ghost name_of = { λ row. row.ident };

    fn name(&self) -> Name {
        self.ident
    }
}

impl Named for OcfRow {
    ghost name_of = { λ row. row.name };

    fn name(&self) -> Name {
        self.name
    }
}

impl Named for OcpRow {
    ghost name_of = { λ row. row.name };

    fn name(&self) -> Name {
        self.name
    }
}

impl Named for PlfRow {
    ghost name_of = { λ row. row.name };

    fn name(&self) -> Name {
        self.name
    }
}

impl Named for VpdRow {
    ghost name_of = { λ row. row.name };

    fn name(&self) -> Name {
        self.name
    }
}

impl Named for TypeItem {
    ghost name_of = { λ row. row.name };

    fn name(&self) -> Name {
        self.name
    }
}

/// Rows by their names.
#[derive(Drop)]
pub struct ByName<R: Named> {
    of: PhantomData<R>,
}

impl<R: Named> By for ByName<R> {
    ghost use Rattle.std.specs.Prelude.{Some};

    type Row = R;

    type Key = Name;

    ghost key_of = { λ row. Some (R.name_of row) };

    fn key(row: &R) -> Option<Name> {
        Some(row.name())
    }

    fn number(name: &Name) -> u64 {
        let [a, b, c, d, e, f, g, h, ..] = *name.room();
        u64::from_le_bytes([a, b, c, d, e, f, g, h])
    }
}
