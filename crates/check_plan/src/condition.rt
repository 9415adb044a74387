// Conditions on kept raw numbers.
ghost use Rattle.std.specs.Prelude.{◌≡◌};
ghost use Rattle.mib_model.specs.Kept as Spec;

use mib_model::Name;

/// What is known of the latest raw numbers of parameters.
pub trait Holds {
    ghost use Rattle.mib_model.specs.Kept.{Memory};

    ghost memory: { Self → Memory };

    /// Whether the latest raw number of a name is this number.
    fn holds(&self, name: Name, number: i128) -> bool
        ensures { result ≡ Spec.holds (memory self.now) name number };
}

/// Keeps nothing, so that no condition holds.
#[derive(Clone, Copy)]
pub struct Nothing;

impl Holds for Nothing {
    ghost memory = { λ _. Spec.empty_memory };

    fn holds(&self, _name: Name, _number: i128) -> bool {
        false
    }
}

/// Whether there is no condition, or one that holds.
pub fn is_met<K: Holds>(name: Option<Name>, number: i128, kept: &K) -> bool
    ensures { result ≡ Spec.is_met (K.memory kept.now) name number }
{
    match name {
        Some(name) => kept.holds(name, number),
        None => true,
    }
}
