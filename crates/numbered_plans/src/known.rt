// Rows that are the same, of which it may be known.
ghost use Rattle.std.specs.Prelude.{◌≡◌, IsTrue, map, true};
ghost use Rattle.mib_model.specs.Plans.{type_item};

use mib_model::PcfRow;
use row_sameness::{Same, all_same};
use type_items::same_types;

/// Whether rows are the same, which may be known.
pub fn are_same<R: Same>(known: bool, old: &[R], new: &[R]) -> bool
    requires { known ≡ true → old.now ≡ new.now }
    ensures { IsTrue result → old.now ≡ new.now }
{
    known || all_same(old, new)
}

/// Whether parameters have the same type items, which may be known to be the same themselves.
pub fn are_types_same(known: bool, old: &[PcfRow], new: &[PcfRow]) -> bool
    requires { known ≡ true → old.now ≡ new.now }
    ensures { IsTrue result → map type_item old.now ≡ map type_item new.now }
{
    known || same_types(old, new)
}
