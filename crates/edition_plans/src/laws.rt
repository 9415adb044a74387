ghost use Rattle.std.specs.Prelude.{ℕ, List};
ghost use Rattle.edition_plans.specs.Layouts.{HasLayout};
ghost use Rattle.mib_model.specs.declared.database.Database.{Database};
ghost use Rattle.mib_model.specs.Match.{match_of};

/// A packet that is found and is of no structure has a layout.
pub fn found_packets_have_layouts()
    ensures { (db : Database) (packet : List ℕ) → HasLayout db (match_of db packet) }
{}
