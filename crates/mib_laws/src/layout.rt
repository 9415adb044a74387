ghost use Rattle.mib_laws.specs.Places.{SlicesSuffice};

/// A fixed layout depends on no rows but those of its plan: its rows of plf, and the types of their parameters.
pub fn slices_suffice()
    ensures { SlicesSuffice }
{}
