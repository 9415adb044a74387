ghost use Rattle.build_laws.specs.Laws.{BuiltGivesBack, BuiltOfReadGivesBack};

/// A packet that is built of a sound database gives back its SPID and its items.
pub fn built_gives_back()
    ensures { BuiltGivesBack }
{}

/// So it does of each sound database that is read, whose rows fit their types.
pub fn built_of_read_gives_back()
    ensures { BuiltOfReadGivesBack }
{}
