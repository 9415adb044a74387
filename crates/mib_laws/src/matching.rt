ghost use Rattle.mib_laws.specs.Matches.{UnknownWithoutARow};

/// A well-formed packet is unknown exactly where no row agrees with it.
pub fn unknown_without_a_row()
    ensures { UnknownWithoutARow }
{}
