ghost use Rattle.mib_laws.specs.Walks.{LimitServes, WalksEnd};

/// Each walk over a sound database ends, and between two values it meets each row of a structure once at most.
pub fn walks_end()
    ensures { WalksEnd }
{}

/// Over a sound database a walk with the limit of steps ends, and its end is what a structure's values are.
pub fn limit_serves()
    ensures { LimitServes }
{}
