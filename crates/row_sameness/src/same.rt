ghost use Rattle.std.specs.Prelude.{◌≡◌, Bool, IsTrue, length, true};
ghost use Rattle.std.specs.Cmp.Lexicographic.{pointwise};
ghost use Rattle.std.specs.Option.{option_eq};

/// A row of which two are compared column by column.
pub trait Same {
    ghost same: { Self → Self → Bool };

    /// Whether it is the same as another row.
    fn is_same(&self, other: &Self) -> bool
        ensures { result ≡ same self.now other.now };

    ghost equates: { (x y : Self) → same x y ≡ true → x ≡ y };
}

/// Whether two rows are the same: then they are equal.
pub fn same_row<R: Same>(old: &R, new: &R) -> bool
    ensures test { result ≡ R.same old.now new.now }
    ensures equal { IsTrue result → old.now ≡ new.now }
{
    old.is_same(new)
}

// Whether each of some rows is the same as the one beside it.
fn same_beside<R: Same>(old: &[R], new: &[R]) -> bool
    requires { length old.now ≡ length new.now }
    ensures { result ≡ pointwise R.same old.now new.now }
{
    for (old, new) in old.iter().zip(new) {
        if !old.is_same(new) {
            return false;
        }
    }
    true
}

// Whether two lists of rows are the same.
fn are_same<R: Same>(old: &[R], new: &[R]) -> bool
    ensures { result ≡ pointwise R.same old.now new.now }
{
    old.len() == new.len() && same_beside(old, new)
}

/// Whether two lists of rows are the same, in their order: then they are equal.
pub fn all_same<R: Same>(old: &[R], new: &[R]) -> bool
    ensures test { result ≡ pointwise R.same old.now new.now }
    ensures equal { IsTrue result → old.now ≡ new.now }
{
    are_same(old, new)
}

/// Whether two rows are the same, or both missing: then they are equal.
pub fn same_if_any<R: Same>(old: &Option<R>, new: &Option<R>) -> bool
    ensures test { result ≡ option_eq R.same old.now new.now }
    ensures equal { IsTrue result → old.now ≡ new.now }
{
    match (old, new) {
        (None, None) => true,
        (Some(old), Some(new)) => same_row(old, new),
        _ => false,
    }
}
