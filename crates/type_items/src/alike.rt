// Parameters whose type items are equal.
ghost use Rattle.std.specs.Prelude.{◌≡◌, IsTrue, length, map};
ghost use Rattle.std.specs.Cmp.Lexicographic.{pointwise};
ghost use Rattle.mib_model.specs.Plans.{type_item};
ghost use Rattle.mib_model.specs.Touched.{same_type_item};

use crate::items::item_of;
use mib_model::PcfRow;

// Whether two parameters have equal type items.
fn same_item(old: &PcfRow, new: &PcfRow) -> bool
    ensures { result ≡ same_type_item (type_item old.now) (type_item new.now) }
{
    item_of(old) == item_of(new)
}

// Whether each of some parameters has the type item of the one beside it.
fn same_beside(old: &[PcfRow], new: &[PcfRow]) -> bool
    requires { length old.now ≡ length new.now }
    ensures { result ≡ pointwise same_type_item (map type_item old.now) (map type_item new.now) }
{
    for (old, new) in old.iter().zip(new) {
        if !same_item(old, new) {
            return false;
        }
    }
    true
}

// Whether two lists of parameters have the same type items.
fn are_alike(old: &[PcfRow], new: &[PcfRow]) -> bool
    ensures { result ≡ pointwise same_type_item (map type_item old.now) (map type_item new.now) }
{
    old.len() == new.len() && same_beside(old, new)
}

/// Whether two lists of parameters have the same type items, in their order: then these are equal.
pub fn same_types(old: &[PcfRow], new: &[PcfRow]) -> bool
    ensures test { result ≡ pointwise same_type_item (map type_item old.now) (map type_item new.now) }
    ensures equal { IsTrue result → map type_item old.now ≡ map type_item new.now }
{
    are_alike(old, new)
}
