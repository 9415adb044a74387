ghost use Rattle.edition_register.specs.Bounded.{BoundedServes, FewActivations, KeepsOneInUse, MovesKept};
ghost use Rattle.edition_register.specs.Laws.{DeskShowsEditions, IntakeCounts, ShownStays, StampGoesOn, TablesStay};

/// The number of the next packet is one more than the intake has moves.
pub fn intake_counts()
    ensures { IntakeCounts }
{}

/// The editions are the first and those that the desk's moves show.
pub fn desk_shows_editions()
    ensures { DeskShowsEditions }
{}

/// A stamp at which no activation begins goes on with the edition and the tables of the intake's stamp before.
pub fn stamp_goes_on()
    ensures { StampGoesOn }
{}

/// The tables of each stamp are those of its edition at the end.
pub fn tables_stay()
    ensures { TablesStay }
{}

/// A machine that keeps of the activations that aren't pending the last alone has the register's histories.
pub fn bounded_serves()
    ensures { BoundedServes }
{}

/// Such a machine keeps 17 activations at most.
pub fn few_activations()
    ensures { FewActivations }
{}

/// Such a machine has one activation in use and behind it those that are pending, which tell the next packet's edition.
pub fn keeps_one_in_use()
    ensures { KeepsOneInUse }
{}

/// What each entry does to the activation in use and to those that are pending.
pub fn moves_kept()
    ensures { MovesKept }
{}

/// The editions that the moves of a desk among several show stand, with the tables that are shown.
pub fn shown_stays()
    ensures { ShownStays }
{}
