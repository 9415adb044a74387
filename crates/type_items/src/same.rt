ghost use Rattle.std.specs.Prelude.{◌≡◌, IsTrue};
ghost use Rattle.std.specs.Cmp.Lexicographic.{pointwise};
ghost use Rattle.mib_model.specs.Touched.{same_type_item};

use mib_model::TypeItem;

// Whether two lists of type items are the same.
fn are_same(old: &[TypeItem], new: &[TypeItem]) -> bool
    ensures { result ≡ pointwise same_type_item old.now new.now }
{
    old == new
}

/// Whether two lists of type items are equal.
pub fn same_items(old: &[TypeItem], new: &[TypeItem]) -> bool
    ensures test { result ≡ pointwise same_type_item old.now new.now }
    ensures equal { IsTrue result → old.now ≡ new.now }
{
    are_same(old, new)
}
