// Rows told apart by their keys.
ghost use Rattle.std.specs.Prelude.{◌≡◌};
ghost use Rattle.std.specs.Cmp.{partial_equiv_from_equiv};
ghost use Rattle.mib_model.specs.Keys.{key_in};

use mib_model::{Key, TableRow};
use std::hash::{Hash, Hasher};
use std::marker::Model;

/// What has a key of its own.
pub trait HasKey {
    type Key: Eq + Hash + Drop;

    ghost key_of: { Self → Self.Key };

    /// Its key.
    fn own_key(&self) -> Self::Key
        ensures { result ≡ key_of self.now };
}

impl<R: TableRow> HasKey for R {
    ghost use Rattle.mib_model.specs.Keys.{key_in};

    type Key = Key;

    ghost key_of = { λ row. key_in (R.as_row row) };

    fn own_key(&self) -> Key {
        self.to_row().key()
    }
}

/// A row by its key, which takes the room of a reference. Contracts see the key.
#[derive(Drop)]
pub struct ByOwn<'a, R: HasKey> {
    pub row: &'a R,
}

impl<'a, R: HasKey> Model for ByOwn<'a, R> {
    ghost Value = { R.Key };

    ghost view = { λ own. R.key_of own.row.now };
}

impl<'a, R: HasKey> PartialEq for ByOwn<'a, R> {
    ghost eq = { R.Key.eq };

    ghost laws = { partial_equiv_from_equiv R.Key.Eq.laws };

    fn eq(&self, other: &ByOwn<'a, R>) -> bool {
        self.row.own_key() == other.row.own_key()
    }
}

impl<'a, R: HasKey> Eq for ByOwn<'a, R> {
    ghost laws = { R.Key.Eq.laws };
}

impl<'a, R: HasKey> Hash for ByOwn<'a, R> {
    ghost hash_input = { R.Key.hash_input };

    ghost respects_eq = { R.Key.respects_eq };

    fn hash<H: Hasher>(&self, state: &mut H) {
        self.row.own_key().hash(state);
    }
}
